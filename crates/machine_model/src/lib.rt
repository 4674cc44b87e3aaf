//! The channel subsystem as small values, and its steps and runs, as definitions.
#![tactic(auto)]

pub mod state;
