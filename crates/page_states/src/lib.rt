//! The states of a script as a picture.
#![tactic(auto)]

pub mod colours;
pub mod states;
