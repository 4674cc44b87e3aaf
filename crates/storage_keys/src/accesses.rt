//! Accesses by absolute address: what is in storage, and what may be fetched of it.

ghost use Rattle.std.specs.Prelude.{◌≡◌, ◌+◌, IsTrue, slice_range};
ghost use Rattle.storage_keys.specs.Storage.{IsAddressable};
ghost use Rattle.storage_keys.specs.Storage as spec;

use crate::StorageFault;
use crate::main_storage::MainStorage;

/// Whether so many bytes from an absolute address on are in storage.
pub(crate) fn is_inside<M: MainStorage>(storage: &M, address: u32, count: usize) -> bool
    ensures inside { result ≡ spec.is_inside (M.contents storage.now) address count }
    ensures sound { IsAddressable (M.contents storage.now) }
{
    let size = storage.bytes().len();
    let address = address as usize;
    count == 0 || (count <= size && address <= size - count)
}

/// Whether an access key may fetch them, or the fault that is due.
pub(crate) fn check_fetch<M: MainStorage>(
    storage: &M,
    key: u8,
    address: u32,
    count: usize,
) -> Result<(), StorageFault>
    ensures { result ≡ spec.access_check (spec.key_permits_fetch key) (M.contents storage.now) address count }
{
    if !is_inside(storage, address, count) {
        return Err(StorageFault::Addressing);
    }
    if storage.permits_fetch(key, address, count) {
        Ok(())
    } else {
        Err(StorageFault::Protection)
    }
}

/// So many bytes from an absolute address on.
pub(crate) fn part<M: MainStorage>(storage: &M, address: u32, count: usize) -> &[u8]
    requires { IsTrue (spec.is_inside (M.contents storage.now) address count) }
    ensures { result.now ≡ slice_range (M.contents storage.now).bytes address (address + count) }
{
    let bytes = storage.bytes();
    if count == 0 {
        return &bytes[..0];
    }
    let first = address as usize;
    &bytes[first..first + count]
}
