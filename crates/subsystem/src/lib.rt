//! A channel subsystem of many subchannels: one event at a time, with the history of all that was accepted.
#![tactic(auto)]

pub mod histories;
pub mod seen;
mod stepping;
pub mod subsystem;
