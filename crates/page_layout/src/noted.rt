//! Which facts have notes beside a lane, and how many lines they have.

use crate::lanes::Party;
use chan_events::reply::Reply;
use script_text::ActionResult;
use step_records::record::{Fact, Owner, ProgramStage, Record};

/// Whose note a fact is; None where it is none.
pub fn party_of(fact: &Fact) -> Option<Party> {
    match fact {
        Fact::Answer(Ok(ActionResult::Reply(Reply::Interruption(Some(_))))) => Some(Party::Script),
        Fact::Report { .. } => Some(Party::Script),
        Fact::Program {
            stage: ProgramStage::Holds,
            ..
        } => None,
        Fact::Hold { subchannel, .. }
        | Fact::Enabled { subchannel, .. }
        | Fact::Program { subchannel, .. }
        | Fact::Ccw { subchannel, .. }
        | Fact::Copy { subchannel, .. }
        | Fact::StatusMade { subchannel, .. }
        | Fact::StatusCleared { subchannel, .. }
        | Fact::Request { subchannel, .. } => Some(Party::Subchannel(*subchannel)),
        Fact::Owner {
            unit,
            before,
            after,
        } => is_told(before, after).then_some(Party::Unit(*unit)),
        Fact::Command {
            unit,
            after: Some(_),
            ..
        }
        | Fact::AttentionTaken { unit, .. }
        | Fact::Device { unit, .. } => Some(Party::Unit(*unit)),
        _ => None,
    }
}

/// Whether whom a unit is held by changed, or where that program is.
fn is_told(before: &Owner, after: &Owner) -> bool {
    before.holder != after.holder
}

/// How many lines the note of a fact has.
fn lines_of(fact: &Fact) -> u64 {
    match fact {
        Fact::StatusMade { .. } => 2,
        _ => 1,
    }
}

/// How many lines of notes the lane has that has most of them; a line that acts is one in the lane of the script.
pub fn note_lines(records: &[Record]) -> u64 {
    let mut most = 1;
    for record in records {
        if let Some(party) = party_of(&record.fact) {
            most = lines_for(records, party).max(most);
        }
    }
    most
}

/// How many lines of notes a lane has; in the lane of the script the line that acts is one.
pub fn lines_for(records: &[Record], party: Party) -> u64 {
    let mut lines = match party {
        Party::Script => 1,
        _ => 0u64,
    };
    for record in records {
        if party_of(&record.fact) == Some(party) {
            lines = lines.saturating_add(lines_of(&record.fact));
        }
    }
    lines
}
