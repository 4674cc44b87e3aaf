//! What drives a unit: the report that waits for it until it is entered, what its turn is for, and the call of its device
//! (own).
//!
//! Used alone, this crate promises: a turn of a unit is what its definition gives for what the subsystem says of the unit; what
//! a unit reports next is the report that waits for it, else that of its work; a report is of the command and chunk of the call, with what
//! the device answered to it, and waits on where it is refused for want of memory or of room on a wire, and only there. It
//! knows no subsystem and no lock: who uses it says what the unit is to do, calls the device where and when he will, and enters
//! the events. Nothing here takes memory.
#![tactic(auto)]

pub mod reporting;
pub mod turns;
pub mod waiting;
