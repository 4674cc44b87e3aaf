//! One command of a channel program at work: how it begins, how its bytes move, and what stops it (SA22-7832, chapter
//! 15).

use crate::moving::Move;
use crate::slices::ChunkSlice;
use ccw_walk::Walk;
use ccw_walk::check::Check;

/// A command whose bytes are moved.
#[derive(Clone, Copy)]
pub struct Transfer {
    /// The number of the command in its program, from 1.
    pub command: u64,
    pub code: u8,
    /// Where the program stands.
    pub walk: Walk,
    /// The data of the block that took control last.
    pub moving: Move,
    /// That block asks for a program-controlled interruption (PCI), which is not made yet.
    pub pci_pending: bool,
    /// The number of the last chunk.
    pub sequence: u64,
    /// How many bytes were given last.
    pub offered: u16,
    /// The device takes no more.
    pub stopped: bool,
    /// A check that stopped the transfer.
    pub fault: Option<Check>,
    /// Its first End came.
    pub ended: bool,
    /// No command is chained to it.
    pub unchained: bool,
}

/// What a program comes to as its next block is fetched.
#[derive(Clone, Copy)]
pub enum CommandStart {
    /// A command begins.
    Begins(Transfer),
    /// The program is suspended.
    Suspends,
    /// The program ends with a check.
    Stops(Check),
}

/// A command that is to begin.
#[derive(Clone, Copy)]
pub struct Beginning {
    /// Where the program stands then.
    pub walk: Walk,
    pub outcome: CommandStart,
}

/// A command with the room that its device is told of: how many bytes of a read may come, at most 256.
#[derive(Clone, Copy)]
pub struct WithRoom {
    pub transfer: Transfer,
    pub room: u16,
}

/// The next bytes of a transfer, as they are given to the device: they stand in storage.
#[derive(Drop)]
pub struct NextChunk<'a> {
    pub transfer: Transfer,
    pub bytes: ChunkSlice<'a>,
}
