//! Words of control blocks as tables of their parts: the bits of each part, how its number is printed, and its name (SA22-7832).
//! What is printed of a word by a table gives the word back.
#![tactic(auto)]

pub mod law;
pub mod listing;
mod meanings;
pub mod number;
pub mod part;
pub mod paths;
