//! One subchannel: what choosing, signals, lost paths and a reset of the channel subsystem do to it.
#![tactic(auto)]

pub mod answering;
mod attending;
pub mod choosing;
pub mod losing;
pub mod opening;
pub mod paths;
mod returning;
pub mod system_reset;
pub mod taking;
