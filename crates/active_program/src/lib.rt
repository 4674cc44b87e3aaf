//! The program at work at one subchannel: what its Accept, its Data and its Ends do, and what may come of a signal.
#![tactic(auto)]

pub mod accepting;
pub mod answers;
pub mod ending;
mod intermediate;
pub mod met;
pub mod moving;
pub mod sent;
