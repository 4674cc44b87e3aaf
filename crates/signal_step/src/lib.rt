//! What one event does to the subchannel that it names: to its state, its wires, its unit and the control unit of that, and the
//! request that it posts; and what a turn of a channel path or of a unit comes to there.
//!
//! Used alone, this crate promises: each step answers and leaves what the machine's definitions give at that subchannel, or
//! refuses it and changes nothing but the slot of the answer. It takes no memory, and nothing is kept of what went before.
#![tactic(auto)]

pub mod acts;
pub mod path_turns;
pub mod posting;
mod sending;
pub mod sharing;
pub mod tables;
pub mod turns;
pub mod unit_turns;
