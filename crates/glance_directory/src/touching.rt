//! Which subchannels' serials an event may change, so that the glance cells of no others need be looked at.

ghost use Rattle.std.specs.Prelude.{◌≡◌, ℕ, length};
ghost use Rattle.chan_events.specs.Events as events;
ghost use Rattle.chan_events.specs.Replies.{Reply};
ghost use Rattle.machine_model.specs.State.{State};
ghost use Rattle.machine_model.specs.Steps.{Step};
ghost use Rattle.subsystem.specs.Keeping.{all_serials};
ghost use Rattle.glance_directory.specs.Touching as spec;

use chan_events::event::Event;
use path_select::PathChoice;
use step_laws::walks;
use subsystem::subsystem::Subsystem;

/// The subchannels whose serials an event may change.
#[derive(Clone, Copy, Debug)]
pub enum ChangedSerials {
    Nothing,
    /// The one at this index.
    Place(usize),
    All,
}

/// An event changes no serials but those of the subchannels that it touches.
pub fn touches()
    ensures { (s : State) (e : events.Event) (r : Reply) (new : State) → Step s e r new →
        spec.Changes (spec.touched s e) (all_serials s) (all_serials new) }
{
    walks();
}

/// The subchannel that a word names.
#[inline(always)]
fn at_word<P: PathChoice + Drop>(subsystem: &Subsystem<P>, word: u32) -> ChangedSerials
    ensures value { result ≡ spec.touched_word subsystem.now.state word }
    ensures there { spec.IsThere result (length (all_serials subsystem.now.state)) }
{
    match subsystem.index_of(word) {
        Some(index) => ChangedSerials::Place(index),
        None => ChangedSerials::Nothing,
    }
}

/// The subchannels whose serials an event may change.
#[inline(always)]
pub fn touched_by<P: PathChoice + Drop>(subsystem: &Subsystem<P>, event: &Event) -> ChangedSerials
    ensures value { result ≡ spec.touched subsystem.now.state event.now }
    ensures there { spec.IsThere result (length (all_serials subsystem.now.state)) }
{
    match event {
        Event::Execute { instruction, .. } => at_word(subsystem, instruction.subchannel_word()),
        Event::Choose { subchannel } | Event::Up { subchannel, .. } => {
            at_word(subsystem, *subchannel)
        }
        Event::PathDown { .. }
        | Event::PathUp { .. }
        | Event::PathReset { .. }
        | Event::SystemReset => ChangedSerials::All,
        _ => ChangedSerials::Nothing,
    }
}
