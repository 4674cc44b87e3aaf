//! A bit or a state, and what it is after a fact.

use crate::names::HoldName;
use step_records::record::{Fact, Moved, Owner, RequestChange, Wire};
use zbits::flag;

/// A bit or a state.
#[derive(Clone, Copy, PartialEq, Eq)]
pub enum Track {
    /// A bit of the first word of the subchannel-status word, counted from the left.
    Bit {
        subchannel: usize,
        bit: u32,
    },
    /// The subsystem's side of a subchannel is at this.
    Hold {
        subchannel: usize,
        at: HoldName,
    },
    /// A request for an interruption waits.
    Request {
        subchannel: usize,
    },
    /// The channel path of this identifier is down.
    PathDown {
        chpid: u8,
    },
    /// Signals wait on this wire.
    Waiting {
        wire: Wire,
    },
    /// A unit is held by the program of this number of a subchannel, or by any of its programs.
    HeldBy {
        unit: usize,
        subchannel: usize,
        number: Option<u64>,
    },
    /// A unit has a command at hand.
    Command {
        unit: usize,
    },
}

impl Track {
    /// The level after a fact, by that before it: 0 where the bit or the state is off; of a wire, how many signals wait on it.
    pub fn after(&self, level: u64, fact: &Fact) -> u64 {
        match self {
            Track::Bit { subchannel, bit } => bit_after(level, fact, *subchannel, *bit),
            Track::Hold { subchannel, at } => hold_after(level, fact, *subchannel, *at),
            Track::Request { subchannel } => request_after(level, fact, *subchannel),
            Track::PathDown { chpid } => path_after(level, fact, *chpid),
            Track::Waiting { wire } => wire_after(level, fact, *wire),
            Track::HeldBy {
                unit,
                subchannel,
                number,
            } => holder_after(level, fact, *unit, *subchannel, *number),
            Track::Command { unit } => command_after(level, fact, *unit),
        }
    }
}

/// A bit of the status word after a fact.
fn bit_after(level: u64, fact: &Fact, at: usize, bit: u32) -> u64 {
    match fact {
        Fact::Functions {
            subchannel,
            after,
            ..
        } if *subchannel == at => u64::from(bit < 32 && flag(*after, bit)),
        _ => level,
    }
}

/// A state of the hold after a fact.
fn hold_after(level: u64, fact: &Fact, at: usize, name: HoldName) -> u64 {
    match fact {
        Fact::Hold {
            subchannel,
            after,
            ..
        } if *subchannel == at => u64::from(HoldName::of(after.phase) == Some(name)),
        _ => level,
    }
}

/// A request for an interruption after a fact.
fn request_after(level: u64, fact: &Fact, at: usize) -> u64 {
    match fact {
        Fact::Request {
            subchannel,
            change,
            ..
        } if *subchannel == at => u64::from(*change == RequestChange::Posted),
        _ => level,
    }
}

/// A channel path after a fact: whether it is down.
fn path_after(level: u64, fact: &Fact, at: u8) -> u64 {
    match fact {
        Fact::PathState { chpid, up } if *chpid == at => u64::from(!*up),
        _ => level,
    }
}

/// How many signals wait on a wire after a fact.
fn wire_after(level: u64, fact: &Fact, at: Wire) -> u64 {
    match fact {
        Fact::Signal { wire, moved, .. } if *wire == at => waiting_after(level, *moved),
        _ => level,
    }
}

/// Whether a unit is held by a program after a fact.
fn holder_after(level: u64, fact: &Fact, at: usize, subchannel: usize, number: Option<u64>) -> u64 {
    match fact {
        Fact::Owner { unit, after, .. } if *unit == at => {
            u64::from(is_held_by(after, subchannel, number))
        }
        _ => level,
    }
}

/// Whether a unit has a command at hand after a fact.
fn command_after(level: u64, fact: &Fact, at: usize) -> u64 {
    match fact {
        Fact::Command { unit, after, .. } if *unit == at => u64::from(after.is_some()),
        _ => level,
    }
}

/// How many signals wait on a wire after one of them moved.
fn waiting_after(waiting: u64, moved: Moved) -> u64 {
    match moved {
        Moved::Sent => waiting.saturating_add(1),
        Moved::Taken | Moved::Ignored | Moved::Lost => waiting.saturating_sub(1),
        Moved::Vanished => waiting,
    }
}

/// Whether a unit is held by the program of this number of a subchannel, or by any of its programs.
fn is_held_by(owner: &Owner, subchannel: usize, number: Option<u64>) -> bool {
    match (owner.holder, number) {
        (Some(holder), Some(number)) => holder.number == number && holder.subchannel == subchannel,
        (Some(holder), None) => holder.subchannel == subchannel,
        (None, _) => false,
    }
}
