//! How a machine is set up, line by line: its storage, channel paths, units and subchannels.
#![tactic(auto)]

pub mod config;
pub mod names;
pub mod parts;
