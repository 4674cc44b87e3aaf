//! Scripts that are performed line by line: with the lines that are due after them, and as a talk.
#![tactic(auto)]

mod asking;
mod at_machine;
pub mod due;
mod input;
mod notes;
mod queries;
mod spoken;
mod stepping;
pub mod talk;
pub mod whole;
