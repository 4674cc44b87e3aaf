//! Looks at a machine, and what waits on its wires: the states of its subchannels, its units and its channel paths, copied; and for each
//! wire the signals that the facts of its steps have put there, which are compared with those that wait at the machine.
#![tactic(auto)]

pub mod balance;
mod comparing;
pub mod looking;
pub mod sight;
pub mod waiting;
