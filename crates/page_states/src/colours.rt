//! The colours of bits and states.

use state_tracks::names::{BitGroup, HoldName, bit_group};
use state_tracks::track::Track;

/// The colour of the row of a bit or a state.
pub fn class_of(track: &Track) -> &'static [u8] {
    match track {
        Track::Bit { bit, .. } => match bit_group(*bit) {
            BitGroup::Function => b"function",
            BitGroup::Activity => b"activity",
            BitGroup::Status => b"status",
        },
        Track::Hold { at, .. } => hold_class(*at),
        Track::Request { .. } => b"request",
        Track::PathDown { .. } => b"gone",
        Track::Waiting { .. } => b"wire",
        Track::HeldBy { .. } => b"connected",
        Track::Command { .. } => b"away",
    }
}

/// The colour of a state of the hold.
pub fn hold_class(name: HoldName) -> &'static [u8] {
    match name {
        HoldName::Offered => b"offered",
        HoldName::Connected => b"connected",
        HoldName::Away => b"away",
        HoldName::LettingGo => b"letting",
        HoldName::ToBeReset => b"reset",
    }
}
