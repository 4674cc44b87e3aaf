//! Main storage as accesses find it, whoever has it (SA22-7832, chapter 3).

ghost use Rattle.std.specs.Prelude.{◌≡◌, ℕ, List, ◌+◌, ◌<◌, ◌≤◌, length, IsTrue, IfOk, IfErr, OnOk, OnErr, Ok, Err, slice_index};
ghost use Rattle.storage_keys.specs.Storage.{Contents, IsAddressable};
ghost use Rattle.storage_keys.specs.Storage as spec;

use crate::StorageFault;
use crate::accesses::{check_fetch, is_inside, part};
use crate::key::Key;
use crate::operands::{
    PREFIX_AREA, absolute_under, is_operand_inside, piece_length, read_operand, store_piece,
};

/// Main storage: at most 2,147,483,648 bytes, a key for each block of 4,096 of them, and a prefix for each of 16 CPUs. Who has
/// it gives its bytes, what its keys permit, its prefixes and a write; all accesses stand on these. No call takes memory.
pub trait MainStorage: Sized {
    // What it holds.
    ghost contents: { Self → Contents };

    // Whose bytes, keys and prefixes they are: no call changes it.
    ghost lender: { Self → List ℕ };

    /// All bytes, by absolute address.
    fn bytes(&self) -> &[u8]
        ensures bytes { result.now ≡ (contents self.now).bytes }
        ensures sound { IsAddressable (contents self.now) };

    /// Whether the keys of the blocks in which so many bytes lie, from an absolute address on, let an access key fetch them.
    fn permits_fetch(&self, key: u8, address: u32, count: usize) -> bool
        requires { IsTrue (spec.is_inside (contents self.now) address count) }
        ensures { result ≡ spec.keys_permit (spec.key_permits_fetch key) (contents self.now) address count };

    /// Whether the keys of those blocks let an access key store them.
    fn permits_store(&self, key: u8, address: u32, count: usize) -> bool
        requires { IsTrue (spec.is_inside (contents self.now) address count) }
        ensures { result ≡ spec.keys_permit (spec.key_permits_store key) (contents self.now) address count };

    /// The prefix of a CPU: the absolute address of an area of 8,192 bytes, on a boundary of as many.
    fn prefix(&self, cpu: u8) -> u32
        requires { cpu < 16 }
        ensures prefix { result ≡ slice_index (contents self.now).prefixes cpu }
        ensures sound { IsAddressable (contents self.now) };

    /// Writes bytes from an absolute address on. No key is asked.
    fn overwrite(&mut self, address: u32, bytes: &[u8])
        requires { IsTrue (spec.is_inside (contents self.old) address (length bytes.now)) }
        ensures overwritten { contents self.new ≡ spec.put_at (contents self.old) address bytes.now }
        ensures lender { lender self.new ≡ lender self.old };

    /// The key of the block in which an absolute address lies. Addressing where it is not in
    /// storage.
    fn key_at(&self, address: u32) -> Result<Key, StorageFault>
        ensures { result ≡ spec.key_at (contents self.now) address };

    /// Writes the key of the block in which an absolute address lies.
    fn write_key(&mut self, address: u32, key: Key)
        requires { IsTrue (spec.is_inside (contents self.old) address 1) }
        ensures written { contents self.new ≡ spec.with_key (contents self.old) address key }
        ensures lender { lender self.new ≡ lender self.old };

    /// Writes the prefix of a CPU: an address on a boundary of 8,192 bytes, from which on as many are in storage.
    fn write_prefix(&mut self, cpu: u8, address: u32)
        requires cpu { cpu < 16 }
        requires prefix { spec.IsPrefix (length (contents self.old).bytes) address }
        ensures written { contents self.new ≡ spec.with_prefix (contents self.old) cpu address }
        ensures lender { lender self.new ≡ lender self.old };

    /// How many bytes there are.
    final fn size(&self) -> u32
        ensures size { result ≡ length (contents self.now).bytes }
        ensures sound { IsAddressable (contents self.now) }
    {
        self.bytes().len() as u32
    }

    /// The bytes that an access key fetches from an absolute address on: none where `count` is
    /// zero, which is always permitted. Addressing where a byte is not in storage, otherwise
    /// Protection where the key of a block that a byte lies in does not permit the fetch.
    final fn fetch(&self, key: u8, address: u32, count: usize) -> Result<&[u8], StorageFault>
        ensures fetched { IfOk result (λ bytes. spec.fetched (contents self.now) key address count ≡ Ok bytes.now) }
        ensures refused { IfErr result (λ fault. spec.fetched (contents self.now) key address count ≡ Err fault) }
    {
        check_fetch(self, key, address, count)?;
        Ok(part(self, address, count))
    }

    /// Whether an access key may store so many bytes from an absolute address on, or the fault
    /// that `store` answers.
    final fn check_store(&self, key: u8, address: u32, count: usize) -> Result<(), StorageFault>
        ensures { result ≡ spec.access_check (spec.key_permits_store key) (contents self.now) address count }
    {
        if !is_inside(self, address, count) {
            return Err(StorageFault::Addressing);
        }
        if self.permits_store(key, address, count) {
            Ok(())
        } else {
            Err(StorageFault::Protection)
        }
    }

    /// Stores bytes from an absolute address on. Addressing where a byte is not in storage,
    /// otherwise Protection where the key of a block that a byte lies in does not permit the
    /// store. No bytes are always permitted.
    final fn store(&mut self, key: u8, address: u32, bytes: &[u8]) -> Result<(), StorageFault>
        ensures stored { OnOk result (spec.stored_bytes (contents self.old) key address bytes.now ≡ Ok (contents self.new)) }
        ensures refused { IfErr result (λ fault. spec.stored_bytes (contents self.old) key address bytes.now ≡ Err fault) }
        ensures kept { OnErr result (contents self.new ≡ contents self.old) }
        ensures lender { lender self.new ≡ lender self.old }
    {
        self.check_store(key, address, bytes.len())?;
        self.overwrite(address, bytes);
        Ok(())
    }

    /// Puts bytes from an absolute address on, as an operator does: no key is asked (own).
    /// Addressing where a byte is not in storage, and then nothing is put.
    final fn put(&mut self, address: u32, bytes: &[u8]) -> Result<(), StorageFault>
        ensures put { OnOk result (spec.put (contents self.old) address bytes.now ≡ Ok (contents self.new)) }
        ensures refused { IfErr result (λ fault. spec.put (contents self.old) address bytes.now ≡ Err fault) }
        ensures kept { OnErr result (contents self.new ≡ contents self.old) }
        ensures lender { lender self.new ≡ lender self.old }
    {
        if !is_inside(self, address, bytes.len()) {
            return Err(StorageFault::Addressing);
        }
        self.overwrite(address, bytes);
        Ok(())
    }

    /// So many bytes from an absolute address on, as an operator is shown them: no key is asked
    /// (own). Addressing where a byte is not in storage.
    final fn show(&self, address: u32, count: usize) -> Result<&[u8], StorageFault>
        ensures shown { IfOk result (λ bytes. spec.shown (contents self.now) address count ≡ Ok bytes.now) }
        ensures refused { IfErr result (λ fault. spec.shown (contents self.now) address count ≡ Err fault) }
    {
        if is_inside(self, address, count) {
            Ok(part(self, address, count))
        } else {
            Err(StorageFault::Addressing)
        }
    }

    /// Sets the key of the block in which an absolute address lies. Addressing where it is not in
    /// storage.
    final fn set_key(&mut self, address: u32, key: Key) -> Result<(), StorageFault>
        ensures set { OnOk result (spec.key_set (contents self.old) address key ≡ Ok (contents self.new)) }
        ensures refused { IfErr result (λ fault. spec.key_set (contents self.old) address key ≡ Err fault) }
        ensures kept { OnErr result (contents self.new ≡ contents self.old) }
        ensures lender { lender self.new ≡ lender self.old }
    {
        if !is_inside(self, address, 1) {
            return Err(StorageFault::Addressing);
        }
        self.write_key(address, key);
        Ok(())
    }

    /// Sets the prefix of a CPU. Specification where it is no multiple of 8,192, otherwise
    /// Addressing where the 8,192 bytes from it on are not all in storage.
    final fn set_prefix(&mut self, cpu: u8, address: u32) -> Result<(), StorageFault>
        requires { cpu < 16 }
        ensures set { OnOk result (spec.prefix_set (contents self.old) cpu address ≡ Ok (contents self.new)) }
        ensures refused { IfErr result (λ fault. spec.prefix_set (contents self.old) cpu address ≡ Err fault) }
        ensures kept { OnErr result (contents self.new ≡ contents self.old) }
        ensures lender { lender self.new ≡ lender self.old }
    {
        if address % PREFIX_AREA != 0 {
            return Err(StorageFault::Specification);
        }
        if !is_inside(self, address, PREFIX_AREA as usize) {
            return Err(StorageFault::Addressing);
        }
        self.write_prefix(cpu, address);
        Ok(())
    }

    /// The absolute address of a CPU's real address: real addresses 0 to 8,191 and those of the
    /// area that the CPU's prefix names change places.
    final fn absolute(&self, cpu: u8, real: u32) -> u32
        requires { cpu < 16 }
        ensures { result ≡ spec.absolute (contents self.now) cpu real }
    {
        absolute_under(self.prefix(cpu), real)
    }

    /// Whether the operand of an instruction is on its boundary and in storage, or the fault that
    /// `operand` answers. Where it is, `store_operand` may follow.
    final fn check_operand(
        &self,
        cpu: u8,
        address: u32,
        count: usize,
        boundary: u32,
    ) -> Result<(), StorageFault>
        requires cpu { cpu < 16 }
        requires boundary { 0 < boundary }
        ensures checked { result ≡ spec.operand_check (contents self.now) cpu address count boundary }
        ensures inside { OnOk result (0 < count → address + count ≤ length (contents self.now).bytes) }
    {
        if address % boundary != 0 {
            return Err(StorageFault::Specification);
        }
        if !is_operand_inside(self, cpu, address, count) {
            return Err(StorageFault::Addressing);
        }
        Ok(())
    }

    /// The bytes of an instruction's operand at a CPU's real address, fetched with key 0.
    /// Specification where the address is no multiple of `boundary`, otherwise Addressing where a
    /// byte is not in storage. Each byte's address is turned to an absolute one by itself.
    final fn operand<const N: usize>(
        &self,
        cpu: u8,
        address: u32,
        boundary: u32,
    ) -> Result<[u8; N], StorageFault>
        requires cpu { cpu < 16 }
        requires boundary { 0 < boundary }
        ensures { result ≡ spec.operand_at (contents self.now) cpu address N boundary }
    {
        self.check_operand(cpu, address, N, boundary)?;
        let mut bytes = [0; N];
        read_operand(self, cpu, address, &mut bytes);
        Ok(bytes)
    }

    /// Stores an instruction's operand at a CPU's real address, with key 0: each byte at its own
    /// absolute address. All are in storage where the real addresses are, since the areas that
    /// change places are in storage both.
    final fn store_operand(&mut self, cpu: u8, address: u32, bytes: &[u8])
        requires cpu { cpu < 16 }
        requires inside { 0 < length bytes.now → address + length bytes.now ≤ length (contents self.old).bytes }
        ensures stored { contents self.new ≡ spec.operand_stored (contents self.old) cpu address bytes.now }
        ensures lender { lender self.new ≡ lender self.old }
    {
        let mut done = 0;
        let mut real = address;
        while done < bytes.len() {
            let count = piece_length(real, bytes.len() - done);
            store_piece(self, cpu, real, &bytes[done..done + count]);
            done += count;
            real += count as u32;
        }
    }
}
