//! The bytes of a chunk as they lie in storage.

ghost use Rattle.std.specs.Prelude.{◌≡◌, ◌≤◌, [], length};

use std::marker::Model;

/// The bytes of a chunk, which stand elsewhere: at most 256.
#[derive(Drop)]
pub struct ChunkSlice<'a> {
    bytes: &'a [u8],
}

impl<'a> Model for ChunkSlice<'a> {
    ghost use Rattle.std.specs.Prelude.{ℕ, List, ◌≤◌, length};

    ghost Value = { List ℕ };

    ghost view = { λ c. c.bytes.now };

    ghost invariant = { λ c. length c.bytes.now ≤ 256 };
}

impl<'a> ChunkSlice<'a> {
    /// These bytes.
    pub fn of(bytes: &'a [u8]) -> Self
        requires { length bytes.now ≤ 256 }
        ensures { result ≡ bytes.now }
    {
        ChunkSlice { bytes }
    }

    /// No bytes.
    pub fn empty() -> Self
        ensures { result ≡ [] }
    {
        ChunkSlice { bytes: &[] }
    }

    /// The bytes.
    pub fn as_slice(&self) -> &[u8]
        ensures value { result.now ≡ self.now }
        ensures bound { length result.now ≤ 256 }
    {
        self.bytes
    }

    /// How many there are.
    pub fn len(&self) -> usize
        ensures value { result ≡ length self.now }
        ensures bound { result ≤ 256 }
    {
        self.bytes.len()
    }
}
