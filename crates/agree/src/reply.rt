//! What is seen of an event.

ghost use Rattle.std.specs.Prelude.{◌≡◌};
ghost use Rattle.agree.specs.Replies as spec;
ghost use Rattle.chan_model.specs.Lent.{lent_down, lent_up};
ghost use Rattle.chan_model.specs.Signals.{map_sent};

use chan_model::lent::{LentDown, LentUp};
use chan_model::names::Side;
use chan_model::signal::{Down, OnPath, Up};

/// What came of an event that was accepted.
#[derive(Drop)]
pub enum WorldReply {
    /// No signal arrived, and none was sent.
    Done,
    /// A signal of a side arrived at the unit: whether it was taken, and what was sent in answer.
    Down {
        side: Side,
        signal: OnPath<Down>,
        taken: bool,
        sent: Option<OnPath<Up>>,
    },
    /// A signal arrived at the hold of a side: whether it was taken, there or by its program, and what was sent in answer.
    Up {
        side: Side,
        signal: OnPath<Up>,
        taken: bool,
        sent: Option<OnPath<Down>>,
    },
    /// A side sent a signal of itself, or for its program.
    SentDown {
        side: Side,
        signal: OnPath<Down>,
    },
    /// The unit sent a signal to a side, of itself or for its device.
    SentUp {
        side: Side,
        signal: OnPath<Up>,
    },
}

impl WorldReply {
    /// What a side sent, or nothing.
    pub fn of_side(side: Side, sent: &Option<OnPath<LentDown<'_>>>) -> Self
        ensures { result ≡ spec.sent_down_reply side (map_sent lent_down sent.now) }
    {
        match sent {
            None => WorldReply::Done,
            Some(signal) => WorldReply::SentDown {
                side,
                signal: signal.own(),
            },
        }
    }

    /// What the unit sent to a side, or nothing.
    pub fn of_unit(side: Side, sent: &Option<OnPath<LentUp<'_>>>) -> Self
        ensures { result ≡ spec.sent_up_reply side (map_sent lent_up sent.now) }
    {
        match sent {
            None => WorldReply::Done,
            Some(signal) => WorldReply::SentUp {
                side,
                signal: signal.own(),
            },
        }
    }
}

/// The same signal with its own bytes, where there is one.
pub fn own_down(sent: &Option<OnPath<LentDown<'_>>>) -> Option<OnPath<Down>>
    ensures { result ≡ map_sent lent_down sent.now }
{
    match sent {
        None => None,
        Some(signal) => Some(signal.own()),
    }
}

/// The same signal with its own bytes, where there is one.
pub fn own_up(sent: &Option<OnPath<LentUp<'_>>>) -> Option<OnPath<Up>>
    ensures { result ≡ map_sent lent_up sent.now }
{
    match sent {
        None => None,
        Some(signal) => Some(signal.own()),
    }
}
