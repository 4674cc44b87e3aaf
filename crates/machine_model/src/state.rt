//! What a unit is to do next, and what befalls all subchannels at once.

ghost use Rattle.std.specs.Prelude.{◌≡◌};
ghost use Rattle.machine_model.specs.UnitTurns.{lent_turn};

use chan_model::report::{LentWork, Work};
use channel_config::names::SubchannelId;

/// What a unit is to do next, over what stands for its work.
#[derive(Clone, Copy, Drop)]
pub enum UnitTurn<W = Work> {
    /// The signal that waits longest on the wire down of this path is to be taken: it is the lowest path where one waits, of
    /// the unit's first side, or where none waits there of its second.
    Takes { subchannel: SubchannelId, path: u32 },
    /// Its program asks for this.
    Works(W),
    /// Its program is away, and may ask for this path: the first available one of its subchannel in cyclic order from the one whose index is
    /// the number of its last connection, modulo 8.
    Away { path: Option<u32> },
    /// Nothing.
    Rests,
}

impl UnitTurn<LentWork<'_>> {
    /// The same turn, its work with its own bytes.
    pub fn own(&self) -> UnitTurn
        ensures { result ≡ lent_turn self.now }
    {
        match self {
            UnitTurn::Takes { subchannel, path } => UnitTurn::Takes {
                subchannel: *subchannel,
                path: *path,
            },
            UnitTurn::Works(work) => UnitTurn::Works(work.own()),
            UnitTurn::Away { path } => UnitTurn::Away { path: *path },
            UnitTurn::Rests => UnitTurn::Rests,
        }
    }
}

/// What an event does to every subchannel.
#[derive(Clone, Copy, Debug)]
pub enum Sweep {
    /// A channel path goes down.
    GoesDown { chpid: u8 },
    /// A channel path that was down is up again.
    ComesUp { chpid: u8 },
    /// A channel path is reset.
    PathReset { chpid: u8 },
    /// The channel subsystem is reset.
    SystemReset,
}
