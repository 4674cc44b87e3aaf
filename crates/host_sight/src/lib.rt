//! Looks at a machine for a host that has numbers alone (own): the hold and the programs of a subchannel, what a unit remembers, and the
//! signals that wait on the wires between them. Each is told by a struct of numbers.
//!
//! Used alone, this crate promises: what is told is a function of what is looked at, by the definitions in `specs/`; a look at what is
//! not there says which of the two it missed; and none takes memory or changes anything.
#![tactic(auto)]

pub mod holds;
pub mod programs;
pub mod sights;
pub mod signals;
mod told;
pub mod units;
pub mod waiting;
