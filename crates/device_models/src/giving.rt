//! Bytes that a device gives.

ghost use Rattle.std.specs.Prelude.{◌≡◌, ◌≤◌, ◌+◌, length};
ghost use Rattle.device_models.specs.Shapes as spec;

use chan_model::chunk::Chunk;

/// Bit 0 of the sense byte: the command was rejected.
pub const COMMAND_REJECT: u8 = 0x80;

/// The bytes from an index on, at most so many.
pub fn part(bytes: &[u8], index: usize, most: usize) -> Chunk
    requires within { index ≤ length bytes.now }
    requires short { length bytes.now ≤ 256 }
    ensures bytes { result ≡ spec.part bytes.now index most }
    ensures bound { length result ≤ most }
    ensures left { index + length result ≤ length bytes.now }
{
    let rest = &bytes[index..];
    Chunk::of(&rest[..most.min(rest.len())])
}
