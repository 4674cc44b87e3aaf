//! Parts of words: the bits at which they stand, and their names.

ghost use Rattle.std.specs.Prelude.{◌≤◌, ◌<◌};

/// A part of a word: the bits `first` to `last`, and how what stands there is printed. Bit 0 is the leftmost of 32.
#[derive(Clone, Copy)]
pub struct Part<'a> {
    pub first: u32,
    pub last: u32,
    pub shown: Shown,
    pub name: &'a [u8],
    ghost ordered: { first ≤ last },
    ghost within: { last < 32 },
}

/// How the number of a part is printed, in hexadecimal digits, so many at least.
#[derive(Clone, Copy)]
pub enum Shown {
    /// A bit: the name alone, where it is one.
    Flag,
    /// The bit for the format of channel-command words: the name where it is one, and `format 0` where it is zero.
    Format,
    /// The name and the number, where it is not zero.
    NotZero(u8),
    /// The name and the number.
    Always(u8),
    /// The name, the number and the paths of this mask.
    Paths,
    /// The name, the number and the source of a channel report that it stands for.
    Source,
    /// The name, the number and the error recovery that it stands for.
    Recovery,
}
