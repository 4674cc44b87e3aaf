//! Bytes that are added to an arena which has room for them.

ghost use Rattle.std.specs.Prelude.{◌≡◌, ◌≤◌, ◌+◌, ◌++◌, length, vec_len, vec_capacity};

/// Adds bytes; there are often none.
#[inline(always)]
pub fn add_bytes(arena: &mut Vec<u8>, bytes: &[u8])
    requires { vec_len arena.old + length bytes.now ≤ vec_capacity arena.old }
    ensures items { arena.new.items ≡ arena.old.items ++ bytes.now }
    ensures len { vec_len arena.new ≡ vec_len arena.old + length bytes.now }
    ensures capacity { vec_capacity arena.old ≤ vec_capacity arena.new }
{
    if !bytes.is_empty() {
        add_some(arena, bytes);
    }
}

/// Adds bytes, of which there are some.
#[inline(never)]
fn add_some(arena: &mut Vec<u8>, bytes: &[u8])
    requires { vec_len arena.old + length bytes.now ≤ vec_capacity arena.old }
    ensures items { arena.new.items ≡ arena.old.items ++ bytes.now }
    ensures len { vec_len arena.new ≡ vec_len arena.old + length bytes.now }
    ensures capacity { vec_capacity arena.old ≤ vec_capacity arena.new }
{
    let _ = arena.extend_from_slice(bytes);
}
