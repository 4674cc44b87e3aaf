//! The channel subsystem for a host that has numbers, bytes and their lengths alone, as one in C has (own).
//!
//! Used alone, this crate promises: a machine is set up call by call, and then it runs; each call that names an event is a step of
//! the machine's definitions on what storage holds at the call, or is refused and changes nothing; and the number that is answered
//! is that of the reply or of the refusal. Storage is lent for each call, with a key for each of its blocks, or else the machine
//! has them.
#![tactic(auto)]

pub mod answers;
mod given;
pub mod histories;
pub mod host_machine;
pub mod lines;
mod looking;
pub mod running;
pub mod seen;
pub mod setting_up;
mod sights;
mod told;
pub mod turns;
pub mod works;
