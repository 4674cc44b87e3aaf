//! The bits and states of a machine that are drawn over the lines of a script, and what each is after a fact.
#![tactic(auto)]

pub mod names;
pub mod track;
