//! A history is performed again on a fresh subsystem.

ghost use Rattle.path_select.specs.Choice.{IsChoice};

use chan_events::reply::Reply;
use chan_model::names::Path;
use chan_model::paths::PathSet;
use channel_config::config::Config;
use event_log::history::History;
use path_select::{Lowest, PathChoice};
use std::alloc::Global;
use std::cell::Cell;
use subsystem::subsystem::Subsystem;

/// The choice of the path that a reply shows; where it shows none, or one that is not usable, the lowest.
#[derive(Drop)]
struct Recorded<'a> {
    shown: &'a Cell<Option<Path>>,
}

impl<'a> PathChoice for Recorded<'a> {
    ghost picks = { λ usable last path. Unit {0} };

    fn choose(&self, usable: &PathSet, last: Option<Path>) -> Option<Path> {
        match self.shown.get() {
            Some(path) => shown_or_lowest(usable, last, path),
            None => Lowest.choose(usable, last),
        }
    }
}

/// This path, where it is usable.
fn shown_or_lowest(usable: &PathSet, last: Option<Path>, path: Path) -> Option<Path>
    ensures { IsChoice usable.now result }
{
    if usable.has(path) {
        return Some(path);
    }
    Lowest.choose(usable, last)
}

/// The path that was chosen, by the reply.
fn path_of(reply: &Reply) -> Option<Path> {
    match reply {
        Reply::Offered { path, .. }
        | Reply::ResetSent { path, .. }
        | Reply::HaltSent { path, .. } => Some(*path),
        _ => None,
    }
}

/// Whether all events of a history are accepted, one after another, where the choices of its replies are shown.
fn performs<'a>(
    subsystem: &mut Subsystem<Recorded<'a>>,
    shown: &Cell<Option<Path>>,
    history: &History<'_>,
) -> bool {
    for number in 0..history.len() {
        let Some(entry) = history.get(number) else {
            return false;
        };
        shown.set(path_of(&entry.reply));
        if subsystem.step(&entry.event).is_err() {
            return false;
        }
    }
    true
}

/// Whether a subsystem answers all events of a history as they were answered.
fn answers_alike<'a>(
    subsystem: &mut Subsystem<Recorded<'a>>,
    shown: &Cell<Option<Path>>,
    history: &History<'_>,
) -> bool {
    performs(subsystem, shown, history) && subsystem.history().is_same(history)
}

/// Whether a fresh subsystem that is set up so answers all events of a history as they were answered.
pub fn replays(alloc: Global, config: Config, history: &History<'_>) -> bool {
    let shown = Cell::new(None);
    match Subsystem::new(alloc, config, Recorded { shown: &shown }) {
        Ok(mut subsystem) => answers_alike(&mut subsystem, &shown, history),
        Err(_) => false,
    }
}
