//! Channel programs: what is said of their blocks, whatever walks them (SA22-7832, chapter 15).

use crate::check::Check;
use ccw_codec::Ccw;

/// Where a block of a program stands, as far as what it comes to depends on it.
#[derive(Clone, Copy, Debug, PartialEq, Eq)]
pub struct Role {
    /// No block took control yet. A suspension leaves it so.
    pub first: bool,
    /// The block before is a transfer in channel, whose target this one is.
    pub after_transfer: bool,
    /// The last block that took control chains data to this one.
    pub chained: bool,
}

/// What a block comes to where it stands.
#[derive(Clone, Copy, Debug, PartialEq, Eq)]
pub enum Reading {
    /// A transfer in channel (TIC): the next block is at this address.
    Transfers(u32),
    /// It takes control.
    Takes(Ccw),
    /// The program is suspended before the block takes control.
    Suspends,
    /// It shows a program check.
    Shows,
}

/// The last block that took control.
#[derive(Clone, Copy, Debug, PartialEq, Eq)]
pub struct Latest {
    /// The absolute address of its first byte.
    pub address: u32,
    pub ccw: Ccw,
}

/// How a command ended.
#[derive(Clone, Copy, Debug, PartialEq, Eq)]
pub struct Ended {
    /// Its ending status lets a program that chains commands go on.
    pub goes_on: bool,
    /// The ending status has status modifier.
    pub modifier: bool,
}

/// What a program comes to as it goes on, transfers in channel passed over.
#[derive(Clone, Copy, Debug, PartialEq, Eq)]
pub enum Advance {
    /// A block takes control.
    Takes(Ccw),
    /// The program is suspended before a block takes control.
    Suspends,
    /// A check ends the program.
    Stops(Check),
}
