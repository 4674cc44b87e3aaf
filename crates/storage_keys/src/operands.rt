//! Operands of instructions, which stand at real addresses: piece by piece, each in one area of 8,192 bytes.

ghost use Rattle.std.specs.Prelude.{◌≡◌, ◌+◌, ◌-◌, ◌%◌, ◌^◌, ◌<◌, ◌≤◌, length, min, map, slice_index};
ghost use Rattle.storage_keys.specs.Storage.{IsAddressable};
ghost use Rattle.storage_keys.specs.Storage as spec;

use crate::accesses::{is_inside, part};
use crate::main_storage::MainStorage;

/// How many bytes a prefix names.
pub(crate) const PREFIX_AREA: u32 = 8192;

/// Whether each byte of an operand is in storage: the real addresses tell.
pub(crate) fn is_operand_inside<M: MainStorage>(
    storage: &M,
    cpu: u8,
    address: u32,
    count: usize,
) -> bool
    requires { cpu < 16 }
    ensures operand { result ≡ spec.is_operand_inside (M.contents storage.now) cpu address count }
    ensures inside { result ≡ spec.is_inside (M.contents storage.now) address count }
{
    is_inside(storage, address, count)
}

/// The bytes of an operand go into a place of as many.
pub(crate) fn read_operand<M: MainStorage>(storage: &M, cpu: u8, address: u32, bytes: &mut [u8])
    requires cpu { cpu < 16 }
    requires inside { 0 < length bytes.old → address + length bytes.old ≤ length (M.contents storage.now).bytes }
    ensures { bytes.new ≡ map (slice_index (M.contents storage.now).bytes) (spec.absolute_addresses (M.contents storage.now) cpu address (length bytes.old)) }
{
    let mut done = 0;
    let mut real = address;
    while done < bytes.len() {
        let count = piece_length(real, bytes.len() - done);
        bytes[done..done + count].copy_from_slice(piece(storage, cpu, real, count));
        done += count;
        real += count as u32;
    }
}

/// The bytes of a piece.
fn piece<M: MainStorage>(storage: &M, cpu: u8, real: u32, count: usize) -> &[u8]
    requires cpu { cpu < 16 }
    requires one_area { real % 8192 + count ≤ 8192 }
    requires inside { real + count ≤ length (M.contents storage.now).bytes }
    ensures piece { result.now ≡ map (slice_index (M.contents storage.now).bytes) (spec.absolute_addresses (M.contents storage.now) cpu real count) }
    ensures sound { IsAddressable (M.contents storage.now) }
{
    part(storage, piece_address(storage, cpu, real, count), count)
}

/// Stores a piece.
pub(crate) fn store_piece<M: MainStorage>(storage: &mut M, cpu: u8, real: u32, bytes: &[u8])
    requires cpu { cpu < 16 }
    requires one_area { real % 8192 + length bytes.now ≤ 8192 }
    requires inside { real + length bytes.now ≤ length (M.contents storage.old).bytes }
    ensures stored { M.contents storage.new ≡ spec.operand_stored (M.contents storage.old) cpu real bytes.now }
    ensures sound { IsAddressable (M.contents storage.old) }
    ensures lender { M.lender storage.new ≡ M.lender storage.old }
{
    let address = piece_address(storage, cpu, real, bytes.len());
    storage.overwrite(address, bytes);
}

/// The absolute address of a piece.
fn piece_address<M: MainStorage>(storage: &M, cpu: u8, real: u32, count: usize) -> u32
    requires cpu { cpu < 16 }
    requires one_area { real % 8192 + count ≤ 8192 }
    requires inside { real + count ≤ length (M.contents storage.now).bytes }
    ensures address { result ≡ spec.absolute (M.contents storage.now) cpu real }
    ensures inside { result + count ≤ length (M.contents storage.now).bytes }
    ensures sound { IsAddressable (M.contents storage.now) }
{
    absolute_under(storage.prefix(cpu), real)
}

/// How many of the bytes from a real address on lie in its area of 8,192 bytes.
pub(crate) fn piece_length(real: u32, left: usize) -> usize
    ensures { result ≡ min left (8192 - real % 8192) }
{
    left.min((PREFIX_AREA - real % PREFIX_AREA) as usize)
}

/// The absolute address of a real one under a prefix.
pub(crate) fn absolute_under(prefix: u32, real: u32) -> u32
    requires { prefix + 8192 < 2 ^ 32 }
    ensures { result ≡ spec.absolute_under prefix real }
{
    if real < PREFIX_AREA {
        prefix + real
    } else if prefix <= real && real < prefix + PREFIX_AREA {
        real - prefix
    } else {
        real
    }
}
