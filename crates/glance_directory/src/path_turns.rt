//! What a turn of a channel path's worker is for.

ghost use Rattle.std.specs.Prelude.{◌≡◌, slice_get};
ghost use Rattle.glance_directory.specs.PathTurns as spec;

use crate::directory::Directory;
use chan_events::event::Event;
use path_select::PathChoice;
use subsystem::subsystem::Subsystem;
use unit_driver::turns::word_of;

/// What a turn of a channel path's worker is for: the first event that there is for a subchannel.
pub fn path_turn_of<P: PathChoice + Drop>(
    subsystem: &Subsystem<P>,
    directory: &Directory,
    chpid: u8,
) -> Option<Event>
    ensures { result ≡ spec.path_turn_among subsystem.now.state chpid directory.now.setups }
{
    for index in 0..directory.count() {
        if let Some(turn) = path_turn_at(subsystem, directory, index, chpid) {
            return Some(turn);
        }
    }
    None
}

/// The event that there is for the subchannel of an index.
fn path_turn_at<P: PathChoice + Drop>(
    subsystem: &Subsystem<P>,
    directory: &Directory,
    index: usize,
    chpid: u8,
) -> Option<Event>
    ensures { result ≡ spec.path_turn_at subsystem.now.state chpid (slice_get directory.now.setups index) }
{
    match directory.setups().get(index) {
        Some(setup) => subsystem.path_turn(word_of(setup.id), chpid),
        None => None,
    }
}
