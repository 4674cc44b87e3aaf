//! What holds of every run of a channel subsystem: theorems over its definitions alone, a module for each claim of the headline,
//! and three for what states and steps keep beside it. Its code is empty.
#![tactic(auto)]

pub mod agreement;
pub mod answers;
pub mod beginnings;
pub mod clearing;
pub mod codes;
pub mod engines;
pub mod halts_and_losses;
pub mod paths;
pub mod programs;
pub mod states;
pub mod status_word;
