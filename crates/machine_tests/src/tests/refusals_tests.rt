//! Room that is refused to a run of the events of a write: in the end all is as of one to which nothing was refused. What comes of room
//! that is refused to an opening and to an event, `tools/failing` shows.

use crate::tests::writing::{EVENTS, WORD, one_path, script};
use memory::FailingMemory;
use path_select::Rotating;
use std::alloc::Global;
use subsystem::subsystem::Subsystem;

/// More requests than there are.
const MANY: u64 = 100;

/// Grants so many requests, and no more.
fn granting(left: u64) -> FailingMemory {
    FailingMemory {
        left,
        refused: false,
    }
}

/// A subsystem that nothing happened to; None where there is no memory.
fn opened(alloc: Global) -> Option<Subsystem<Rotating>> {
    Subsystem::new(alloc, one_path(alloc), Rotating {}).ok()
}

/// Whether two subsystems have the same history, as many statuses made and as many cleared.
fn are_alike(one: &Subsystem<Rotating>, other: &Subsystem<Rotating>) -> bool {
    one.history().is_same(&other.history()) && one.serials(WORD) == other.serials(WORD)
}

/// Whether so many events of a write, after these, are accepted one after another.
fn performs(subsystem: &mut Subsystem<Rotating>, after: usize, count: usize) -> bool {
    for event in script().iter().skip(after).take(count) {
        if subsystem.perform(event).is_err() {
            return false;
        }
    }
    true
}

/// How many events are accepted of a write that is run where so many requests are granted. What it leaves is as of another subsystem,
/// which gets these alone, and after it the others are accepted, and all is as of that other one, which gets them too. A run of no event
/// before it asks for no room. None where it is otherwise.
fn accepted_of_run(
    alloc: Global,
    subsystem: &mut Subsystem<Rotating>,
    other: &mut Subsystem<Rotating>,
    left: u64,
) -> Option<u64> {
    let none = subsystem.run_with(alloc, &mut granting(0), &[]).is_ok();
    let whole = subsystem
        .run_with(alloc, &mut granting(left), &script())
        .is_ok();
    let accepted = subsystem.history().len();
    let kept = performs(other, 0, accepted) && are_alike(subsystem, other);
    let rest = performs(subsystem, accepted, EVENTS) && performs(other, accepted, EVENTS);
    if none && whole == (accepted == EVENTS) && kept && rest && are_alike(subsystem, other) {
        Some(accepted as u64)
    } else {
        None
    }
}

/// How many events a run accepts so where so many requests are granted. Nothing happened to the subsystem before.
fn tried_beside(alloc: Global, subsystem: &mut Subsystem<Rotating>, left: u64) -> Option<u64> {
    let mut other = opened(alloc)?;
    accepted_of_run(alloc, subsystem, &mut other, left)
}

/// The same of a subsystem that is made for it.
fn tried(alloc: Global, left: u64) -> Option<u64> {
    let mut subsystem = opened(alloc)?;
    tried_beside(alloc, &mut subsystem, left)
}

/// How many runs end with some events accepted and not all, where each of their requests is refused in turn; None where one leaves
/// something else.
fn runs_cut(alloc: Global) -> Option<u64> {
    let mut cut = 0u64;
    for left in 0..MANY {
        let accepted = tried(alloc, left)?;
        if accepted == EVENTS as u64 {
            return Some(cut);
        }
        if accepted > 0 {
            cut = cut.saturating_add(1);
        }
    }
    None
}

#[test]
fn a_run_that_is_refused_room_goes_on_where_it_ended(rt: HostRuntime) {
    let cut = runs_cut(rt.alloc()).unwrap_or(0);
    assert!(rt; cut > 0);
}
