//! A channel subsystem beside its main storage, which is a host's: it shares storage with the host's CPUs (SA22-7832, chapter 13).
//!
//! Used alone, this crate promises: each call is a step of the machine's definitions on what storage holds at the call, or changes
//! nothing. Whatever history led to it, what was stored since belongs to it, and the headline holds of all of it. By choice the last
//! entry alone is kept, and no call after the opening takes memory; or all are, until they are let go, and each history that leads
//! here ends by them.
#![tactic(auto)]

pub mod host_fault;
pub mod hosted;
pub mod keeping;
pub mod not_replayed;
mod stepping;
