//! Main storage as a channel subsystem sees it: bytes, keys and prefixes (SA22-7832, chapter 3).
//!
//! Used alone, this crate promises: over any storage that keeps the clauses of `MainStorage`, each access answers what is
//! there, or the fault that is due, and a refused one changes nothing. `Storage` is such a storage, and its own;
//! `LentStorage` is a host's, for one call.
#![tactic(auto)]

ghost use Rattle.std.specs.Prelude.{◌≡◌, ◌<◌, ◌≤◌, [], IsTrue, IfOk, IfErr, OnOk, OnErr, Ok, Err, replicate, true};
ghost use Rattle.storage_keys.specs.Storage as spec;
ghost use Rattle.memory.specs.Requests.{IsModest};

mod accesses;
pub mod key;
pub mod law;
mod lent_storage;
mod main_storage;
mod operands;

use accesses::{is_inside, part};
use key::Key;
pub use lent_storage::LentStorage;
pub use main_storage::MainStorage;
use memory::{Allocator, Supply};
use operands::PREFIX_AREA;
use std::alloc::{AllocError, Global};
use std::marker::Model;

/// How many bytes have one key.
const BLOCK: usize = 4096;

/// Why an access to storage is refused.
#[derive(Clone, Copy, Debug, PartialEq, Eq)]
pub enum StorageFault {
    /// A byte that is not in storage.
    Addressing,
    /// The key does not permit the access.
    Protection,
    /// An address off the boundary that it must be on.
    Specification,
}

/// Main storage of its own: 16 to 4,096 blocks of 4,096 bytes, a key for each block, a prefix for each of
/// 16 CPUs. No call after `new` or `new_with` takes memory.
#[derive(Drop)]
pub struct Storage {
    bytes: Vec<u8>,
    keys: Vec<Key>,
    prefixes: [u32; 16],
}

impl Model for Storage {
    ghost use Rattle.storage_keys.specs.Storage.{Contents, IsStorage};

    ghost Value = { Contents };

    ghost view = { λ s. record { bytes = s.bytes.items; keys = s.keys.items; prefixes = s.prefixes } };

    ghost invariant = { λ s. IsStorage (record { bytes = s.bytes.items; keys = s.keys.items; prefixes = s.prefixes }) };
}

impl Storage {
    /// Storage of so many blocks of 4,096 bytes, in what room the allocator has: all bytes, keys and prefixes zero.
    pub fn new(alloc: Global, blocks: u32) -> Result<Storage, AllocError>
        requires least { 16 ≤ blocks }
        requires greatest { blocks ≤ 4096 }
        ensures { IfOk result (λ storage. storage ≡ spec.cleared_storage blocks) }
    {
        Storage::new_with(alloc, &mut Allocator { refused: false }, blocks)
    }

    /// Storage of so many blocks of 4,096 bytes: all bytes, keys and prefixes zero. Two requests for room; it is refused only
    /// where the supply refused one.
    pub fn new_with<S: Supply>(
        alloc: Global,
        supply: &mut S,
        blocks: u32,
    ) -> Result<Storage, AllocError>
        requires least { 16 ≤ blocks }
        requires greatest { blocks ≤ 4096 }
        ensures cleared { IfOk result (λ storage. storage ≡ spec.cleared_storage blocks) }
        ensures unrefused { OnOk result (S.refused supply.new ≡ S.refused supply.old) }
        ensures memory { OnErr result (S.refused supply.new ≡ true) }
    {
        let blocks = blocks as usize;
        Ok(Storage {
            bytes: filled(alloc, supply, 0, BLOCK * blocks)?,
            keys: filled(alloc, supply, Key::ZERO, blocks)?,
            prefixes: [0; 16],
        })
    }

    /// The keys of the blocks in which so many bytes lie.
    fn keys_of(&self, address: u32, count: usize) -> &[Key]
        requires { IsTrue (spec.is_inside self.now address count) }
        ensures { result.now ≡ spec.keys_of self.now address count }
    {
        if count == 0 {
            return &self.keys[..0];
        }
        let first = address as usize;
        let last = first + (count - 1);
        &self.keys[first / BLOCK..last / BLOCK + 1]
    }
}

impl MainStorage for Storage {
    ghost contents = { λ s. s };

    ghost lender = { λ _. [] };

    fn bytes(&self) -> &[u8] {
        self.bytes.as_slice()
    }

    fn permits_fetch(&self, key: u8, address: u32, count: usize) -> bool {
        self.keys_of(address, count)
            .iter()
            .all(|block| block.permits_fetch(key))
    }

    fn permits_store(&self, key: u8, address: u32, count: usize) -> bool {
        self.keys_of(address, count)
            .iter()
            .all(|block| block.permits_store(key))
    }

    fn prefix(&self, cpu: u8) -> u32 {
        self.prefixes[cpu as usize]
    }

    fn overwrite(&mut self, address: u32, bytes: &[u8]) {
        if bytes.is_empty() {
            return;
        }
        let first = address as usize;
        self.bytes[first..first + bytes.len()].copy_from_slice(bytes);
    }

    fn key_at(&self, address: u32) -> Result<Key, StorageFault> {
        match self.keys.get(address as usize / BLOCK) {
            Some(key) => Ok(*key),
            None => Err(StorageFault::Addressing),
        }
    }

    fn write_key(&mut self, address: u32, key: Key) {
        self.keys[address as usize / BLOCK] = key;
    }

    fn write_prefix(&mut self, cpu: u8, address: u32) {
        self.prefixes[cpu as usize] = address;
    }
}

/// A list of so many of one item, which are at most 16,777,216.
fn filled<S: Supply, T: Copy>(
    alloc: Global,
    supply: &mut S,
    item: T,
    count: usize,
) -> Result<Vec<T>, AllocError>
    requires modest { IsModest count }
    ensures items { IfOk result (λ list. list.items ≡ replicate count item) }
    ensures unrefused { OnOk result (S.refused supply.new ≡ S.refused supply.old) }
    ensures memory { OnErr result (S.refused supply.new ≡ true) }
{
    let mut list = Vec::new(alloc);
    supply.reserve(&mut list, count)?;
    list.resize(count, item).unwrap();
    Ok(list)
}
