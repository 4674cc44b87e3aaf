//! Work on the glance cells of all subchannels, and on the serials that a seat has seen of each.

ghost use Rattle.std.specs.Prelude.{◌≡◌, ◌<◌, ◌≤◌, ℕ, true, All, IfOk, OnErr, OnOk, Some, length, slice_get, slice_set, vec_len};
ghost use Rattle.scsw_irb.specs.declared.serials.Serials.{Serials};
ghost use Rattle.run_laws.specs.CodeSteps.{answer_in};
ghost use Rattle.event_log.specs.Logs.{last_reply};
ghost use Rattle.subsystem.specs.Keeping as keeping;
ghost use Rattle.subsystem.specs.Keeping.{IsOrdered, Rises, all_serials};
ghost use Rattle.glance_directory.specs.Cells.{cells_of, shown};
ghost use Rattle.glance_directory.specs.Raising as spec;
ghost use Rattle.glance_directory.specs.Touching as touch_spec;

use crate::directory::Directory;
use crate::touching::ChangedSerials;
use chan_events::event::{Event, Instruction};
use chan_events::reply::Reply;
use chan_model::answer::Answer;
use event_log::history::LentReply;
use glance_cell::cell::{Reader, Writer};
use glance_cell::supplies::CellSupply;
use memory::{Supply, push};
use path_select::PathChoice;
use scsw_irb::serials::Serials;
use std::alloc::{AllocError, Global};
use subsystem::subsystem::Subsystem;

/// Stores the serials that an event may have changed.
pub fn publish<P: PathChoice + Drop>(
    writers: &mut Vec<Writer>,
    subsystem: &Subsystem<P>,
    touched: ChangedSerials,
)
    requires rises { Rises (shown writers.old.items) (all_serials subsystem.now.state) }
    requires there { touch_spec.IsThere touched (length (shown writers.old.items)) }
    requires changes { touch_spec.Changes touched (shown writers.old.items) (all_serials subsystem.now.state) }
    ensures shown { shown writers.new.items ≡ all_serials subsystem.now.state }
    ensures cells { cells_of writers.new.items ≡ cells_of writers.old.items }
{
    match touched {
        ChangedSerials::Nothing => {}
        ChangedSerials::Place(index) => publish_one(writers, index, serials_at(subsystem, index)),
        ChangedSerials::All => publish_all(writers, subsystem),
    }
}

/// Stores the serials of each subchannel.
fn publish_all<P: PathChoice + Drop>(writers: &mut Vec<Writer>, subsystem: &Subsystem<P>)
    requires { Rises (shown writers.old.items) (all_serials subsystem.now.state) }
    ensures shown { shown writers.new.items ≡ all_serials subsystem.now.state }
    ensures cells { cells_of writers.new.items ≡ cells_of writers.old.items }
{
    for index in 0..writers.len() {
        publish_one(writers, index, serials_at(subsystem, index));
    }
}

/// The serials of the subchannel at an index that there is.
pub fn serials_at<P: PathChoice + Drop>(subsystem: &Subsystem<P>, index: usize) -> Serials
    requires { index < length (all_serials subsystem.now.state) }
    ensures value { slice_get (all_serials subsystem.now.state) index ≡ Some result }
    ensures ordered { result.cleared ≤ result.made }
{
    let Some(serials) = subsystem.serials_at(index) else {
        unreachable!()
    };
    serials
}

/// Stores the serials of one subchannel.
fn publish_one(writers: &mut Vec<Writer>, index: usize, now: Serials)
    requires there { index < vec_len writers.old }
    requires rises { (was : Serials) → slice_get (shown writers.old.items) index ≡ Some was → (was.made ≤ now.made) × (was.cleared ≤ now.cleared) }
    requires ordered { now.cleared ≤ now.made }
    ensures shown { shown writers.new.items ≡ slice_set (shown writers.old.items) index now }
    ensures cells { cells_of writers.new.items ≡ cells_of writers.old.items }
{
    let writer = &mut writers[index];
    writer.store(now.made, now.cleared);
}

/// A reader of each cell. Where a supply refuses memory there are none.
pub fn watch<S: CellSupply>(
    alloc: Global,
    supply: &mut S,
    writers: &mut Vec<Writer>,
) -> Result<Vec<Reader>, AllocError>
    ensures same { writers.new.items ≡ writers.old.items }
    ensures seen { IfOk result (λ readers. readers.items ≡ writers.old.items) }
    ensures unrefused { OnOk result (S.refused supply.new ≡ S.refused supply.old) }
    ensures memory { OnErr result (S.refused supply.new ≡ true) }
{
    let mut readers = Vec::new(alloc);
    for index in 0..writers.len() {
        let reader = supply.reader(&mut writers[index])?;
        push(supply, &mut readers, reader)?;
    }
    Ok(readers)
}

/// The serials that a new seat has seen: those that stand.
pub fn first_seen_serials<S: Supply, P: PathChoice + Drop>(
    alloc: Global,
    supply: &mut S,
    subsystem: &Subsystem<P>,
) -> Result<Vec<Serials>, AllocError>
    ensures value { IfOk result (λ seen_serials. seen_serials.items ≡ all_serials subsystem.now.state) }
    ensures ordered { IfOk result (λ seen_serials. All IsOrdered seen_serials.items) }
    ensures unrefused { OnOk result (S.refused supply.new ≡ S.refused supply.old) }
    ensures memory { OnErr result (S.refused supply.new ≡ true) }
{
    let _first = subsystem.serials_at(0);
    let mut seen_serials = Vec::new(alloc);
    for index in 0..subsystem.count() {
        push(supply, &mut seen_serials, serials_at(subsystem, index))?;
    }
    Ok(seen_serials)
}

/// The serials that an answer brings.
fn serials_with(answer: Answer) -> Option<Serials>
    ensures { result ≡ keeping.serials_with answer }
{
    match answer {
        Answer::Zero(serials) | Answer::One(serials) => Some(serials),
        Answer::Two | Answer::Three => None,
    }
}

/// The serials that the reply to an instruction brings.
fn serials_brought(reply: &LentReply<'_>) -> Option<Serials>
    ensures { result ≡ keeping.serials_brought (answer_in reply.now) }
{
    let (kept, _) = reply.parts();
    match kept {
        Reply::Code(answer) | Reply::Status { answer, .. } => serials_with(*answer),
        _ => None,
    }
}

/// The serials that the last reply of a subsystem brings.
fn last_brought<P: PathChoice + Drop>(subsystem: &Subsystem<P>) -> Option<Serials>
    ensures { result ≡ keeping.serials_brought (answer_in (last_reply subsystem.now.history)) }
{
    match subsystem.last_reply() {
        Some(reply) => serials_brought(&reply),
        None => None,
    }
}

/// Raises the pair of an index to these serials.
fn raise_at(seen_serials: &mut Vec<Serials>, index: Option<usize>, found: Serials)
    ensures { seen_serials.new.items ≡ spec.raised_at seen_serials.old.items index found }
{
    let Some(index) = index else {
        return;
    };
    if index < seen_serials.len() {
        let was = seen_serials[index];
        seen_serials[index] = greater(was, found);
    }
}

/// Part by part the greater.
pub fn greater(one: Serials, other: Serials) -> Serials
    ensures { result ≡ spec.greater one other }
{
    Serials {
        made: one.made.max(other.made),
        cleared: one.cleared.max(other.cleared),
    }
}

/// TEST SUBCHANNEL with code 0 or 1 ends by raising the pair of its subchannel, to the serials that its reply, the last one of the
/// subsystem, brings.
pub fn raise<P: PathChoice + Drop>(
    seen_serials: &mut Vec<Serials>,
    directory: &Directory,
    event: &Event,
    subsystem: &Subsystem<P>,
)
    ensures { seen_serials.new.items ≡ spec.raised_among seen_serials.old.items directory.now event.now (last_reply subsystem.now.history) }
{
    let Event::Execute {
        instruction: Instruction::Tsch { subchannel, .. },
        ..
    } = event
    else {
        return;
    };
    if let Some(found) = last_brought(subsystem) {
        raise_at(seen_serials, directory.index_of(*subchannel), found);
    }
}
