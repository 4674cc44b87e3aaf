//! The room that the allocator has.

use control_units::sharing::Sharing;
use interruptions::Pending;
use std::alloc::Global;
use storage_keys::Storage;
use streams::{CheckedReader, Source, read_all};
use wires::Wires;

/// Groups of five units: 0 and 2 share, 1 and 3 share, and unit 4 is alone.
const GROUPS: [u16; 5] = [0, 1, 0, 1, 4];

/// Whether each is made in what room the allocator has.
fn are_made(alloc: Global) -> [bool; 6] {
    let text: &[u8] = b"storage 10\n";
    let mut first = text;
    [
        Storage::new(alloc, 16).is_ok(),
        Sharing::new(alloc, &GROUPS).is_ok(),
        Pending::new(alloc, 5).is_ok(),
        Wires::new(alloc).is_ok(),
        read_all(alloc, &mut first).is_ok(),
        CheckedReader::new(text).all(alloc).is_ok(),
    ]
}

#[test]
fn the_allocator_has_room(rt: HostRuntime) {
    assert!(rt; are_made(rt.alloc()) == [true; 6]);
}
