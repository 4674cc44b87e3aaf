//! Main storage that a host lends for one call.

ghost use Rattle.std.specs.Prelude.{◌≡◌, ◌+◌, ◌-◌, ◌/◌, ◌==◌, ◌<◌, ◌≤◌, IsTrue, length, [], ◌∷◌, if◌then◌else◌, slice_range};
ghost use Rattle.std.specs.List.{list_all};
ghost use Rattle.storage_keys.specs.Storage as spec;

use crate::key::Key;
use crate::main_storage::MainStorage;
use crate::operands::PREFIX_AREA;
use crate::{BLOCK, StorageFault};

/// How many blocks may be lent at most: 2,147,483,648 bytes.
const MOST_BLOCKS: usize = 0x8_0000;

/// Main storage of a host, for one call: its bytes, the key of each block of 4,096 of them as `Key::byte` shows it (bit 7 is
/// ignored), and the prefix of each of 16 CPUs. What is stored stands in the host's bytes, what is set in its keys and prefixes.
#[derive(Drop)]
pub struct LentStorage<'b, 'k, 'p> {
    bytes: &'b mut [u8],
    keys: &'k mut [u8],
    prefixes: &'p mut [u32],
    ghost lent: { IsTrue (spec.may_be_lent (length bytes.now) (length keys.now) prefixes.now) },
}

impl<'b, 'k, 'p> LentStorage<'b, 'k, 'p> {
    /// Whether storage of so many bytes and keys, with these prefixes, may be lent: 16 to 524,288 keys, one for each block
    /// of 4,096 bytes, and 16 prefixes, each the address of an area of 8,192 bytes, on a boundary of as many.
    pub fn fits(size: usize, keys: usize, prefixes: &[u32]) -> bool
        ensures { result ≡ spec.may_be_lent size keys prefixes.now }
    {
        are_blocks(size, keys) && are_areas(size, prefixes)
    }

    /// Storage that is lent.
    pub fn new(
        bytes: &'b mut [u8],
        keys: &'k mut [u8],
        prefixes: &'p mut [u32],
    ) -> LentStorage<'b, 'k, 'p>
        requires { IsTrue (spec.may_be_lent (length bytes.old) (length keys.old) prefixes.old) }
        ensures same_bytes { result.bytes.ghost_name ≡ bytes.entry.ghost_name }
        ensures same_keys { result.keys.ghost_name ≡ keys.entry.ghost_name }
        ensures same_prefixes { result.prefixes.ghost_name ≡ prefixes.entry.ghost_name }
        ensures bytes { result.bytes.now ≡ bytes.old }
        ensures keys { result.keys.now ≡ keys.old }
        ensures prefixes { result.prefixes.now ≡ prefixes.old }
    {
        LentStorage {
            bytes,
            keys,
            prefixes,
        }
    }
}

impl MainStorage for LentStorage<'_, '_, '_> {
    ghost contents = { λ s. spec.lent_contents s.bytes.now s.keys.now s.prefixes.now };

    ghost lender = { λ s. s.bytes.ghost_name ∷ s.keys.ghost_name ∷ s.prefixes.ghost_name ∷ [] };

    fn bytes(&self) -> &[u8] {
        &*self.bytes
    }

    fn permits_fetch(&self, key: u8, address: u32, count: usize) -> bool {
        all_permit_fetch(blocks_of(self.keys, address, count), key)
    }

    fn permits_store(&self, key: u8, address: u32, count: usize) -> bool {
        all_permit_store(blocks_of(self.keys, address, count), key)
    }

    fn prefix(&self, cpu: u8) -> u32 {
        self.prefixes[cpu as usize]
    }

    fn overwrite(&mut self, address: u32, bytes: &[u8]) {
        if bytes.is_empty() {
            return;
        }
        let first = address as usize;
        self.bytes[first..first + bytes.len()].copy_from_slice(bytes);
    }

    fn key_at(&self, address: u32) -> Result<Key, StorageFault> {
        match self.keys.get(address as usize / BLOCK) {
            Some(byte) => Ok(Key::of_byte(*byte)),
            None => Err(StorageFault::Addressing),
        }
    }

    fn write_key(&mut self, address: u32, key: Key) {
        self.keys[address as usize / BLOCK] = key.byte();
    }

    fn write_prefix(&mut self, cpu: u8, address: u32) {
        self.prefixes[cpu as usize] = address;
    }
}

/// Whether so many bytes are so many blocks, as many as may be lent.
fn are_blocks(size: usize, blocks: usize) -> bool
    ensures { result ≡ spec.are_blocks size blocks }
{
    16 <= blocks && blocks <= MOST_BLOCKS && size == BLOCK * blocks
}

/// Whether these are prefixes for 16 CPUs, each the address of an area in storage of this size.
fn are_areas(size: usize, prefixes: &[u32]) -> bool
    ensures { result ≡ spec.are_areas size prefixes.now }
{
    prefixes.len() == 16 && are_prefixes(size, prefixes)
}

/// Whether each of these is the address of an area in storage of this size.
fn are_prefixes(size: usize, prefixes: &[u32]) -> bool
    ensures { result ≡ list_all (spec.is_prefix size) prefixes.now }
{
    prefixes.iter().all(|prefix| is_prefix(size, *prefix))
}

/// Whether a prefix is the address of an area in storage of this size.
fn is_prefix(size: usize, prefix: u32) -> bool
    ensures { result ≡ spec.is_prefix size prefix }
{
    prefix % PREFIX_AREA == 0 && prefix as usize + PREFIX_AREA as usize <= size
}

/// The keys of the blocks in which so many bytes lie, from an absolute address on.
fn blocks_of(keys: &[u8], address: u32, count: usize) -> &[u8]
    requires inside { 0 < count → (address + (count - 1)) / 4096 < length keys.now }
    requires bound { length keys.now ≤ 524288 }
    ensures { result.now ≡ (if count == 0 then [] else slice_range keys.now (address / 4096) ((address + (count - 1)) / 4096 + 1)) }
{
    if count == 0 {
        return &keys[..0];
    }
    let first = address as usize;
    let last = first + (count - 1);
    &keys[first / BLOCK..last / BLOCK + 1]
}

/// Whether these keys, as bytes, all let an access key fetch.
fn all_permit_fetch(keys: &[u8], key: u8) -> bool
    ensures { result ≡ list_all (λ byte. spec.key_permits_fetch key (spec.key_of_byte byte)) keys.now }
{
    keys.iter()
        .all(|byte| Key::of_byte(*byte).permits_fetch(key))
}

/// Whether these keys, as bytes, all let an access key store.
fn all_permit_store(keys: &[u8], key: u8) -> bool
    ensures { result ≡ list_all (λ byte. spec.key_permits_store key (spec.key_of_byte byte)) keys.now }
{
    keys.iter()
        .all(|byte| Key::of_byte(*byte).permits_store(key))
}
