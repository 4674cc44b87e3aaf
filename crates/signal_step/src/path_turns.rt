//! What a worker of a channel path is to do for a subchannel.

ghost use Rattle.std.specs.Prelude.{◌≡◌, Some};
ghost use Rattle.signal_step.specs.PathTurns as spec;

use chan_events::event::Event;
use chan_model::names::Path;
use chan_model::paths::PathSet;
use functions::Subchannel;
use lookup::engines::Served;
use subchannel::choosing::{chosen, paths_to_choose};
use subchannel::losing::path_index;
use subchannel_model::state::Chosen;

fn is_idle(chosen: &Chosen) -> bool
    ensures { result ≡ spec.is_idle chosen.now }
{
    matches!(chosen, Chosen::Idle)
}

/// Whether the subsystem has something to do for a subchannel of itself.
fn has_to_choose(subs: &Served<'_>, sub: &Subchannel) -> bool
    ensures { result ≡ spec.has_to_choose subs.now sub.now }
{
    let paths = paths_to_choose(subs, sub);
    !is_idle(&chosen(sub, paths.first_from(0)))
}

/// The event of a turn for a subchannel, which this word names, on the channel path of this identifier.
pub fn turn_at(subs: &Served<'_>, sub: &Subchannel, word: u32, chpid: u8) -> Option<Event>
    ensures { result ≡ spec.turn_at subs.now (Some sub.now) word chpid }
{
    let path = path_index(chpid, sub.state.setup().paths.as_slice())?;
    if sub.wires.front_up(path).is_some() {
        return Some(Event::Up {
            subchannel: word,
            path: path.index() as u32,
        });
    }
    if has_to_choose(subs, sub) {
        return Some(Event::Choose { subchannel: word });
    }
    None
}
