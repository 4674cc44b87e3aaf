//! The guest's main storage, which is the emulator's own: its CPUs load and store where they please, and no event tells of it.

ghost use Rattle.std.specs.Prelude.{◌≡◌, ◌+◌, ◌≤◌, ◌<◌, IfSome, length, slice_range};
ghost use Rattle.std.specs.Bool.{OnTrue, OnFalse};
ghost use Rattle.embedding.specs.Guests as spec;

use std::alloc::{AllocError, Global};
use storage_keys::LentStorage;

/// How many blocks of 4,096 bytes there are: 64 MiB.
pub const BLOCKS: u32 = 0x4000;

/// The bytes by absolute address, the key of each block of 4,096 of them as a byte, and the prefix of each of 16 CPUs.
#[derive(Drop)]
pub struct GuestStorage {
    bytes: Vec<u8>,
    keys: Vec<u8>,
    prefixes: Vec<u32>,
}

impl GuestStorage {
    /// 64 MiB, all zero.
    pub fn new(alloc: Global) -> Result<GuestStorage, AllocError> {
        let blocks = BLOCKS as usize;
        Ok(GuestStorage {
            bytes: vec![in alloc; 0; 0x1000 * blocks]?,
            keys: vec![in alloc; 0; blocks]?,
            prefixes: vec![in alloc; 0; 16]?,
        })
    }

    /// A CPU stores; false, and nothing is stored, where a byte is not in storage.
    pub fn store(&mut self, address: u32, bytes: &[u8]) -> bool
        ensures stored { OnTrue result (self.new.bytes.items ≡ spec.stored self.old.bytes.items address bytes.now) }
        ensures outside { OnFalse result (self.new.bytes.items ≡ self.old.bytes.items) }
        ensures keys { self.new.keys.items ≡ self.old.keys.items }
        ensures prefixes { self.new.prefixes.items ≡ self.old.prefixes.items }
    {
        let first = address as usize;
        if bytes.len() > self.bytes.len() || first > self.bytes.len() - bytes.len() {
            return false;
        }
        self.bytes[first..first + bytes.len()].copy_from_slice(bytes);
        true
    }

    /// A CPU loads so many bytes; None where one is not in storage.
    pub fn load(&self, address: u32, count: u8) -> Option<&[u8]>
        ensures loaded { IfSome result (λ bytes. bytes.now ≡ slice_range self.now.bytes.items address (address + count)) }
    {
        let first = address as usize;
        self.bytes.as_slice().get(first..first + usize::from(count))
    }

    /// It is lent for a call of the channel subsystem, as it is: nothing is copied. None where a CPU was given a prefix that names no
    /// area of 8,192 bytes in it.
    pub fn lend(&mut self) -> Option<LentStorage<'_, '_, '_>> {
        let size = self.bytes.len();
        if !LentStorage::fits(size, self.keys.len(), self.prefixes.as_slice()) {
            return None;
        }
        Some(LentStorage::new(
            self.bytes.as_mut_slice(),
            self.keys.as_mut_slice(),
            self.prefixes.as_mut_slice(),
        ))
    }
}
