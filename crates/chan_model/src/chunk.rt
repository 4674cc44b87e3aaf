//! The bytes that one signal moves.

ghost use Rattle.std.specs.Prelude.{◌≡◌, ◌≤◌, [], ◌∷◌, ◌++◌, ◌<◌, ◌↔◌, IsSome, IfSome, length, take};

use arrayvec::ArrayVec;
use std::marker::Model;

/// The most bytes that a chunk has.
pub const CHUNK_BYTES: usize = 256;

/// At most 256 bytes.
#[derive(Drop)]
pub struct Chunk {
    bytes: ArrayVec<u8, 256>,
}

impl Model for Chunk {
    ghost use Rattle.std.specs.Prelude.{ℕ, List};

    ghost Value = { List ℕ };

    ghost view = { λ c. c.bytes.items };
}

impl Chunk {
    /// No bytes.
    pub fn new() -> Self
        ensures { result ≡ [] }
    {
        Chunk {
            bytes: ArrayVec::new(),
        }
    }

    /// These bytes.
    pub fn of(bytes: &[u8]) -> Self
        requires { length bytes.now ≤ 256 }
        ensures { result ≡ bytes.now }
    {
        let mut kept = ArrayVec::new();
        let _ = kept.try_extend_from_slice(bytes);
        Chunk { bytes: kept }
    }

    /// One byte more.
    pub fn push(&mut self, byte: u8)
        requires { length self.old < 256 }
        ensures { self.new ≡ self.old ++ byte ∷ [] }
    {
        self.bytes.push(byte);
    }

    /// The bytes.
    pub fn as_slice(&self) -> &[u8]
        ensures value { result.now ≡ self.now }
        ensures bound { length result.now ≤ 256 }
    {
        self.bytes.as_slice()
    }

    /// The bytes, lent.
    pub fn lend(&self) -> Bytes<'_>
        ensures { result.bytes.now ≡ self.now }
    {
        Bytes::of(self.bytes.as_slice())
    }

    /// How many there are.
    pub fn len(&self) -> usize
        ensures value { result ≡ length self.now }
        ensures bound { result ≤ 256 }
    {
        self.bytes.len()
    }

    /// How many there are, as the length of another.
    pub fn length(&self) -> ChunkLength
        ensures value { result ≡ length self.now }
        ensures bound { length self.now ≤ 256 }
    {
        ChunkLength::of(self.bytes.as_slice())
    }

    /// The first of these bytes, as many as are wanted.
    pub fn first(wanted: ChunkLength, bytes: &[u8]) -> Chunk
        requires { wanted ≤ length bytes.now }
        ensures { result ≡ take wanted bytes.now }
    {
        Chunk::of(&bytes[..wanted.get()])
    }

    /// The same bytes again; it takes no memory.
    pub fn copy(&self) -> Self
        ensures { result ≡ self.now }
    {
        Chunk::of(self.bytes.as_slice())
    }
}

/// How many bytes a chunk is to have: at most 256.
#[derive(Clone, Copy, Debug, PartialEq, Eq)]
pub struct ChunkLength {
    bytes: u16,
}

impl Model for ChunkLength {
    ghost use Rattle.std.specs.Prelude.{ℕ, ◌≤◌};

    ghost Value = { ℕ };

    ghost view = { λ l. l.bytes };

    ghost invariant = { λ l. l.bytes ≤ 256 };

    ghost inverse = { λ n. record { bytes = n } };
}

impl ChunkLength {
    /// So many bytes; None where they are above 256.
    pub fn new(bytes: u32) -> Option<ChunkLength>
        ensures found { IsSome result ↔ (bytes ≤ 256) }
        ensures same { IfSome result (λ l. l ≡ bytes) }
    {
        if bytes <= 256 {
            Some(ChunkLength {
                bytes: bytes as u16,
            })
        } else {
            None
        }
    }

    /// As many as these.
    pub fn of(bytes: &[u8]) -> ChunkLength
        requires { length bytes.now ≤ 256 }
        ensures { result ≡ length bytes.now }
    {
        ChunkLength {
            bytes: bytes.len() as u16,
        }
    }

    /// How many bytes.
    pub fn get(self) -> usize
        ensures value { result ≡ self }
        ensures bound { result ≤ 256 }
    {
        usize::from(self.bytes)
    }
}

/// At most 256 bytes that are lent.
#[derive(Clone, Copy, PartialEq, Eq, Debug)]
pub struct Bytes<'a> {
    bytes: &'a [u8],
    ghost fits: { length bytes.now ≤ 256 },
}

impl<'a> Bytes<'a> {
    /// These bytes.
    pub fn of(bytes: &'a [u8]) -> Self
        requires { length bytes.now ≤ 256 }
        ensures { result.bytes.now ≡ bytes.now }
    {
        Bytes { bytes }
    }

    /// The bytes.
    pub fn as_slice(self) -> &'a [u8]
        ensures value { result.now ≡ self.entry.bytes.now }
        ensures bound { length result.now ≤ 256 }
    {
        self.bytes
    }
}
