//! The facts of one step of a machine: what moved on the wires, and what differs between a look before it and a look after it.
#![tactic(auto)]

pub mod facts;
pub mod requests;
pub mod step;
