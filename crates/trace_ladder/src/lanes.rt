//! The lanes of a ladder, and what each fact says in them.

use chan_events::reply::Reply;
use chan_model::fault::Fault;
use chan_model::hold_state::{HoldPhase, HoldState};
use chan_model::names::Path;
use script_text::ActionResult;
use step_records::record::{Fact, Moved, ProgramStage, Record, ReportChange, Way};

/// A lane of a ladder.
#[derive(Clone, Copy, PartialEq, Eq)]
pub enum Lane {
    Subchannels,
    Wires,
    Units,
}

/// What stands at one place of a lane: a fact, and which of its texts, from 0.
#[derive(Clone, Copy, Drop)]
pub struct Place<'a> {
    pub fact: &'a Fact,
    pub part: usize,
}

/// How many rows the facts need in a lane.
pub fn rows_in(lane: Lane, facts: &[Record]) -> usize {
    let mut rows: usize = 0;
    for record in facts {
        rows = rows.saturating_add(texts_in(lane, &record.fact));
    }
    rows
}

/// What stands in a row of a lane; None where nothing does.
pub fn place_in<'a>(lane: Lane, facts: &'a [Record], row: usize) -> Option<Place<'a>> {
    let mut left = row;
    for record in facts {
        let texts = texts_in(lane, &record.fact);
        if left < texts {
            return Some(Place {
                fact: &record.fact,
                part: left,
            });
        }
        left -= texts;
    }
    None
}

/// How many texts a fact has in a lane.
fn texts_in(lane: Lane, fact: &Fact) -> usize {
    match lane {
        Lane::Subchannels => subchannel_texts(fact),
        Lane::Wires => usize::from(matches!(fact, Fact::Signal { .. })),
        Lane::Units => unit_texts(fact),
    }
}

/// How many texts a fact has in the lane of the subchannels.
fn subchannel_texts(fact: &Fact) -> usize {
    match fact {
        Fact::Answer(answer) => usize::from(is_told(answer)),
        Fact::Signal { wire, moved, .. } => {
            usize::from(wire.way == Way::Up && *moved == Moved::Ignored)
        }
        Fact::Hold { before, after, .. } => usize::from(is_hold_told(before, after)),
        Fact::Program { stage, .. } => usize::from(*stage != ProgramStage::Holds),
        Fact::Report { change, .. } => usize::from(*change != ReportChange::TakenOut),
        Fact::StatusMade { .. } => 2,
        Fact::PathState { .. }
        | Fact::Enabled { .. }
        | Fact::Ccw { .. }
        | Fact::Copy { .. }
        | Fact::StatusCleared { .. }
        | Fact::Request { .. } => 1,
        Fact::Event
        | Fact::Found { .. }
        | Fact::Refused(_)
        | Fact::Mask { .. }
        | Fact::Functions { .. }
        | Fact::Orb { .. }
        | Fact::Owner { .. }
        | Fact::Command { .. }
        | Fact::AttentionTaken { .. }
        | Fact::Device { .. } => 0,
    }
}

/// How many texts a fact has in the lane of the units.
fn unit_texts(fact: &Fact) -> usize {
    match fact {
        Fact::Signal { wire, moved, .. } => {
            usize::from(wire.way == Way::Down && *moved == Moved::Ignored)
        }
        Fact::Command { after, .. } => usize::from(after.is_some()),
        Fact::Owner { .. } | Fact::AttentionTaken { .. } | Fact::Device { .. } => 1,
        _ => 0,
    }
}

/// Whether an answer says more than its condition code: a refusal, or the code of an interruption.
fn is_told(answer: &Result<ActionResult, Fault>) -> bool {
    match answer {
        Err(_) => true,
        Ok(ActionResult::Reply(reply)) => is_interruption(reply),
        Ok(_) => false,
    }
}

/// Whether a reply has the code of an interruption.
fn is_interruption(reply: &Reply) -> bool {
    match reply {
        Reply::Interruption(code) => code.is_some(),
        _ => false,
    }
}

/// Whether a change of the hold is one of its phase, or a Reset that was sent.
fn is_hold_told(before: &HoldState, after: &HoldState) -> bool {
    !is_same_phase(before, after) || !is_same_path(before.reset_path, after.reset_path)
}

/// Whether two phases are the same, with the same number and the same path.
fn is_same_phase(before: &HoldState, after: &HoldState) -> bool {
    phase_name(before) == phase_name(after)
        && phase_number(before) == phase_number(after)
        && is_same_path(phase_path(before), phase_path(after))
}

/// The name of a phase, which no other has.
fn phase_name(hold: &HoldState) -> &'static [u8] {
    match hold.phase {
        HoldPhase::Free => b"free",
        HoldPhase::Offer { .. } => b"offer",
        HoldPhase::On { .. } => b"on",
        HoldPhase::Away { .. } => b"away",
        HoldPhase::Letting { .. } => b"letting",
        HoldPhase::Reset { .. } => b"reset",
    }
}

/// The number of a phase; 0 where nothing is held.
fn phase_number(hold: &HoldState) -> u64 {
    match hold.phase {
        HoldPhase::Free => 0,
        HoldPhase::Offer { number, .. }
        | HoldPhase::On { number, .. }
        | HoldPhase::Away { number }
        | HoldPhase::Letting { number, .. }
        | HoldPhase::Reset { number } => number,
    }
}

/// The path of a phase.
fn phase_path(hold: &HoldState) -> Option<Path> {
    match hold.phase {
        HoldPhase::Offer { path, .. }
        | HoldPhase::On { path, .. }
        | HoldPhase::Letting { path, .. } => Some(path),
        HoldPhase::Free | HoldPhase::Away { .. } | HoldPhase::Reset { .. } => None,
    }
}

/// Whether two paths are the same, or neither is there.
fn is_same_path(before: Option<Path>, after: Option<Path>) -> bool {
    match (before, after) {
        (None, None) => true,
        (Some(a), Some(b)) => a.same(b),
        _ => false,
    }
}
