//! The rows of the lines of a script: what the words of one line mean, as a setting of a machine or as an action.
#![tactic(auto)]

pub mod actions;
mod acts;
mod paths;
pub mod race;
pub mod settings;
pub mod slots;
pub mod words;

use chan_events::event::Event;

/// What a line asks the machine for.
#[derive(Drop)]
pub enum Action {
    /// An event.
    Event(Event),
    /// The next turn of the device of the unit of this number.
    Dev(u32),
    /// The serials of the subchannel that this word names.
    Glance(u32),
}
