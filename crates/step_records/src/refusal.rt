//! Why a line was refused: what stands at the machine, by which its fault came about.

use crate::record::Wire;
use chan_model::fault::Fault;
use chan_model::names::{Path, Side};
use chan_model::signal::{KeptDown, KeptUp};

/// Why a line was refused. A subchannel and a unit that are there are named by their index in the order of the configuration, from
/// 0; what is not there, and a channel path, by the number that the line names.
#[derive(Clone, Copy)]
pub enum Refusal {
    /// Nothing more is known than the fault.
    Bare(Fault),
    /// A growth was refused.
    NoMemory,
    /// The wire that a signal would be sent on holds 8 signals.
    WireFull,
    /// Nothing waits on the wire that the line names; what waits on another wire of its subchannel, on that of the same path
    /// first.
    NothingWaits {
        wire: Wire,
        elsewhere: Option<Front>,
    },
    /// No subchannel is configured that this word names.
    NoSubchannel {
        word: u32,
    },
    /// The subchannel has no path of that index: it has so many.
    NoPath {
        subchannel: usize,
        paths: usize,
    },
    /// No channel path of this identifier is configured.
    NoChannelPath {
        chpid: u32,
    },
    /// No unit of this number is configured.
    NoUnit {
        unit: u32,
    },
    /// The channel path of this identifier is not as the line wants it.
    Path {
        chpid: u32,
        why: PathRefusal,
    },
    /// A unit does not act now.
    Unit {
        unit: usize,
        why: UnitRefusal,
    },
    /// Storage refuses this address.
    Storage {
        address: u32,
        why: StorageRefusal,
    },
    /// An operand is not allowed.
    Operand(OperandRefusal),
}

/// A signal that waits on a wire of a path of a subchannel, in front of all others there; the way of the wire is that of the
/// signal.
#[derive(Clone, Copy)]
pub struct Front {
    pub path: Path,
    pub signal: FrontSignal,
}

/// A signal of either way, without its bytes.
#[derive(Clone, Copy)]
pub enum FrontSignal {
    Down(KeptDown),
    Up(KeptUp),
}

/// How a channel path is that is not as the line wants it.
#[derive(Clone, Copy)]
pub enum PathRefusal {
    /// It is down already.
    Down,
    /// It is up already.
    Up,
    /// No reset of it was asked for.
    NoReset,
}

/// Why a unit does not act now.
#[derive(Clone, Copy)]
pub enum UnitRefusal {
    /// This signal waits for it, or it sent it and it is not taken, at this subchannel.
    Signal { subchannel: usize, front: Front },
    /// It has no command at hand.
    NoCommand,
    /// It has ended its command.
    Ended,
    /// It waits for an answer.
    Unanswered,
    /// No program holds it.
    Idle,
    /// The program of this number holds it.
    Held { number: u64 },
    /// The program of this number holds it and is connected on this path.
    Connected { number: u64, path: Path },
    /// The program of this number holds it and is not connected.
    Disconnected { number: u64 },
    /// No subchannel reaches this side of it.
    Unreached(Side),
    /// This side was not reset since the last restart.
    NotReset(Side),
    /// This side was not restarted since it was reset last.
    NotRestarted(Side),
}

/// What storage refuses an address for (SA22-7832, chapter 6).
#[derive(Clone, Copy)]
pub enum StorageRefusal {
    /// It, or what follows it, is not in storage.
    Addressing,
    /// It is protected by its storage key.
    Protection,
    /// It is not on this boundary.
    Specification(Boundary),
}

/// The boundary that an address must be on (SA22-7832, chapters 4 and 14).
#[derive(Clone, Copy)]
pub enum Boundary {
    /// 4 bytes, for a word.
    Word,
    /// 32 bytes, for the status of channel paths.
    PathStatus,
    /// 8,192 bytes, for a prefix.
    Prefix,
}

/// Which operand is not allowed.
#[derive(Clone, Copy)]
pub enum OperandRefusal {
    /// This word is no subsystem-identification word.
    Identification { word: u32 },
    /// This word is one of a set that has no subchannel.
    EmptySet { word: u32 },
    /// A bit of the operation-request block.
    Orb(OrbBit),
    /// The subchannel-information block.
    Schib,
    /// This number is no identifier of a channel path.
    ChannelPath { chpid: u32 },
}

/// A bit of an operation-request block that must be zero (SA22-7832, chapter 15).
#[derive(Clone, Copy)]
pub enum OrbBit {
    /// B, bit 13 of word 1.
    ChannelProgramType,
    /// X, bit 31 of word 1.
    Extension,
    /// One of bits 26 to 30 of word 1.
    Reserved,
    /// Bit 0 of word 2.
    ProgramAddress,
}
