//! One event at a time on the whole machine: channel paths, subchannels with their wires, units and the control units that they
//! share, and the requests and reports that wait for the program. Main storage is lent to it for each event.
//!
//! Used alone, this crate promises: `Machine::perform` answers and leaves what the machine's definitions give for the
//! event, by a path that the rule of the choice gives, or refuses it and changes nothing; `Machine::perform_by_value` does so
//! for an instruction whose operand is given by value, without storage. Only the opening takes
//! memory. Nothing is kept of what went before.
#![tactic(auto)]

pub mod by_value;
pub mod law;
pub mod looks;
pub mod machine;
pub mod opening;
pub mod owning;
mod paths;
mod storage_events;
mod turns;
