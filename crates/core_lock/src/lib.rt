//! A channel subsystem under one lock, with seats from which CPUs and workers enter its events (own).
//!
//! Used alone, this crate promises: each accepted call is one step of the subsystem with its reply, one entry of the history
//! and the same in the log of the seat that it was entered from; a refusal leaves the subsystem, the glance cells and the seat
//! as they were. Whenever the lock is free the history replays to the state, what the subsystem promises of every history holds
//! of it, and each glance cell has the serials of its subchannel. `audit` says exactly whether each seat's log is what the
//! history has of it, `Core::close` exactly whether all seats came back. A look at serials takes no lock, no memory, and never
//! falls behind what its seat saw. Memory comes from a supply that can refuse it. That a call which takes the lock returns is
//! not promised, nor any order between seats.
#![tactic(auto)]

mod entering;
pub mod executing;
pub mod gate;
pub mod guarded;
pub mod locked;
mod looking;
pub mod naming;
pub mod parts;
mod same_log;
pub mod stock;
pub mod supplies;
mod turning;
