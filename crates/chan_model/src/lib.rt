//! The protocol between a subchannel and its unit: names, paths, signals, the states of both sides, reports, condition
//! codes and refusals, with the tables that both sides are proved to meet.
#![tactic(auto)]

pub mod answer;
pub mod chunk;
pub mod fault;
pub mod hold_state;
pub mod lent;
pub mod lent_forms;
pub mod names;
pub mod paths;
pub mod report;
pub mod signal;
mod signal_forms;
pub mod slots;
pub mod unit_state;
