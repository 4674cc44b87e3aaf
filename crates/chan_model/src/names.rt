//! Names whose values keep their range.

ghost use Rattle.std.specs.Prelude.{◌≡◌, ◌<◌, ◌≤◌, ◌==◌, IfSome, IsSome, ◌↔◌};

use std::marker::Model;

/// The index of a channel path of a subchannel, 0 to 7 (SA22-7832, chapter 13).
#[derive(Clone, Copy, Debug, PartialEq, Eq)]
pub struct Path {
    index: u8,
}

impl Model for Path {
    ghost use Rattle.std.specs.Prelude.{ℕ, ◌<◌};

    ghost Value = { ℕ };

    ghost view = { λ p. p.index };

    ghost invariant = { λ p. p.index < 8 };

    ghost inverse = { λ n. record { index = n } };
}

impl Path {
    /// The path of this index; None where the index is above 7.
    pub fn new(index: u32) -> Option<Path>
        ensures found { IsSome result ↔ (index < 8) }
        ensures same { IfSome result (λ p. p ≡ index) }
    {
        if index < 8 {
            Some(Path { index: index as u8 })
        } else {
            None
        }
    }

    /// Its index.
    pub fn index(self) -> usize
        ensures value { result ≡ self }
        ensures bound { result < 8 }
    {
        self.index as usize
    }

    /// Whether both are the same path.
    pub fn same(self, other: Path) -> bool
        ensures { result ≡ (self == other) }
    {
        self.index == other.index
    }
}

/// The number of a CPU, 0 to 15.
#[derive(Clone, Copy, Debug, PartialEq, Eq)]
pub struct Cpu {
    number: u8,
}

impl Model for Cpu {
    ghost use Rattle.std.specs.Prelude.{ℕ, ◌<◌};

    ghost Value = { ℕ };

    ghost view = { λ c. c.number };

    ghost invariant = { λ c. c.number < 16 };

    ghost inverse = { λ n. record { number = n } };
}

impl Cpu {
    /// The CPU of this number; None where the number is above 15.
    pub fn new(number: u32) -> Option<Cpu>
        ensures found { IsSome result ↔ (number < 16) }
        ensures same { IfSome result (λ c. c ≡ number) }
    {
        if number < 16 {
            Some(Cpu {
                number: number as u8,
            })
        } else {
            None
        }
    }

    /// Its number.
    pub fn number(self) -> u8
        ensures value { result ≡ self }
        ensures bound { result < 16 }
    {
        self.number
    }
}

/// One of the two subchannels that reach a unit (own): its side of the unit.
#[derive(Clone, Copy, Debug, PartialEq, Eq)]
pub enum Side {
    First,
    Second,
}

/// The path by which a command came to a unit: the subchannel that sent it, and the channel path that brought it
/// (SA22-7832, chapter 15).
#[derive(Clone, Copy, Debug)]
pub struct CommandPath {
    /// The side of the unit that the subchannel is.
    pub side: Side,
    /// The index of the path, 0 to 7, in the order of that subchannel's paths.
    pub path: Path,
}

impl Side {
    ghost use Rattle.chan_model.specs.Sides.{same_side};

    /// Whether both are the same side.
    pub fn same(self, other: Side) -> bool
        ensures { result ≡ same_side self other }
    {
        matches!(
            (self, other),
            (Side::First, Side::First) | (Side::Second, Side::Second)
        )
    }
}
