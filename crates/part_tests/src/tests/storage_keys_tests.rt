//! A storage key by its bits, of which no script shows reference and change, and a block that is accessed with its key alone (SA22-7832,
//! chapter 3).

use std::alloc::Global;
use storage_keys::key::Key;
use storage_keys::{MainStorage, Storage, StorageFault};

const PROTECTION: StorageFault = StorageFault::Protection;

/// The fields of the key that a byte shows: access control 0 to 3, fetch protection 4, reference 5, change 6.
fn fields(byte: u8) -> (u8, [bool; 3]) {
    let key = Key::of_byte(byte);
    (
        key.access,
        [key.fetch_protected, key.referenced, key.changed],
    )
}

/// Whether the block at 2000 is accessed with its key alone.
fn is_guarded(storage: &mut Storage) -> bool {
    let key_set = storage.set_key(0x2FFF, Key::of_byte(0x18));
    let key = storage.key_at(0x2000);
    let next_key = storage.key_at(0x3000);
    let stored_by_other = storage.store(2, 0x1FFF, &[7, 7]);
    let checked = storage.check_store(1, 0x2000, 0x1000);
    key_set == Ok(())
        && key == Ok(Key::of_byte(0x18))
        && next_key == Ok(Key::ZERO)
        && stored_by_other == Err(PROTECTION)
        && checked == Ok(())
}

/// The same of storage that is made for it.
fn has_guard(alloc: Global) -> bool {
    match Storage::new(alloc, 16) {
        Ok(mut storage) => is_guarded(&mut storage),
        Err(_) => false,
    }
}

#[test]
fn a_key_has_its_bits_and_guards_its_block(rt: HostRuntime) {
    let referenced = fields(0x3D) == (3, [true, true, false]);
    let changed = fields(0xF2) == (15, [false, false, true]);
    assert!(rt; referenced && changed && has_guard(rt.alloc()));
}
