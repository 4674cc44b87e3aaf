//! The lock of a channel subsystem: CPUs and workers on threads of their own, each with a seat, and one machine (own).
//!
//! Used alone, this crate promises: an event, as that of an instruction, is entered at the machine from its seat and under the
//! lock, or is refused as the machine refuses it; each turn of a worker is one turn of its channel path or unit at the machine as
//! it stands under the lock; what a device is asked is asked outside it, through the gate, and what it answered is what its unit
//! reports. No seat is made under the lock. This crate knows the machine and its seats by their public calls alone. That a call
//! which takes the lock returns is not promised, nor any order between seats.
#![tactic(auto)]

pub mod locked_machine;
mod workers;
