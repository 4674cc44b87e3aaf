//! What fetches and stores mean byte by byte.

ghost use Rattle.std.specs.Prelude.{◌≡◌, ◌≢◌, ℕ, ◌+◌, ◌<◌, ◌≤◌, List, IsTrue, Ok, length, map, slice_index};
ghost use Rattle.std.specs.List.{range_with_len};
ghost use Rattle.storage_keys.specs.Storage.{Contents, IsStorage, cleared_storage, is_inside, fetched, put_at, absolute, operand_stored, key_set, prefix_set};
ghost use Rattle.storage_keys.specs.declared.key.Key.{Key};

/// The bytes that a fetch answers are those at its addresses, in order.
pub fn fetched_bytes()
    ensures { (storage : Contents) (key address count : ℕ) (bytes : List ℕ) → fetched storage key address count ≡ Ok bytes → bytes ≡ map (slice_index storage.bytes) (range_with_len address count) }
{}

/// Bytes that are put, or stored, stand at their addresses in order, and all other bytes stay.
pub fn put_bytes()
    ensures size { (storage : Contents) (address : ℕ) (bytes : List ℕ) → IsTrue (is_inside storage address (length bytes)) → length (put_at storage address bytes).bytes ≡ length storage.bytes }
    ensures placed { (storage : Contents) (address : ℕ) (bytes : List ℕ) → IsTrue (is_inside storage address (length bytes)) → (i : ℕ) → i < length bytes → slice_index (put_at storage address bytes).bytes (address + i) ≡ slice_index bytes i }
    ensures before { (storage : Contents) (address : ℕ) (bytes : List ℕ) → IsTrue (is_inside storage address (length bytes)) → (other : ℕ) → other < address → slice_index (put_at storage address bytes).bytes other ≡ slice_index storage.bytes other }
    ensures after { (storage : Contents) (address : ℕ) (bytes : List ℕ) → IsTrue (is_inside storage address (length bytes)) → (other : ℕ) → address + length bytes ≤ other → slice_index (put_at storage address bytes).bytes other ≡ slice_index storage.bytes other }
{}

/// The bytes of an operand that is stored stand at the absolute addresses of its real ones, in
/// order, and all other bytes stay.
pub fn operand_bytes()
    ensures size { (storage : Contents) (cpu address : ℕ) (bytes : List ℕ) → length (operand_stored storage cpu address bytes).bytes ≡ length storage.bytes }
    ensures placed { (storage : Contents) (cpu address : ℕ) (bytes : List ℕ) → IsStorage storage → address + length bytes ≤ length storage.bytes → (i : ℕ) → i < length bytes → slice_index (operand_stored storage cpu address bytes).bytes (absolute storage cpu (address + i)) ≡ slice_index bytes i }
    ensures others { (storage : Contents) (cpu address : ℕ) (bytes : List ℕ) (other : ℕ) → ((i : ℕ) → i < length bytes → other ≢ absolute storage cpu (address + i)) → slice_index (operand_stored storage cpu address bytes).bytes other ≡ slice_index storage.bytes other }
{}

/// Storage stays what it is, whatever is done to it.
pub fn soundness()
    ensures cleared { (blocks : ℕ) → 16 ≤ blocks → blocks ≤ 4096 → IsStorage (cleared_storage blocks) }
    ensures put { (storage : Contents) (address : ℕ) (bytes : List ℕ) → IsStorage storage → IsTrue (is_inside storage address (length bytes)) → IsStorage (put_at storage address bytes) }
    ensures operand { (storage : Contents) (cpu address : ℕ) (bytes : List ℕ) → IsStorage storage → IsStorage (operand_stored storage cpu address bytes) }
    ensures key { (storage new : Contents) (address : ℕ) (key : Key) → IsStorage storage → key_set storage address key ≡ Ok new → IsStorage new }
    ensures prefix { (storage new : Contents) (cpu address : ℕ) → IsStorage storage → prefix_set storage cpu address ≡ Ok new → IsStorage new }
{}
