//! Cells of a table of text, and its rows.
#![tactic(auto)]

pub mod cell;
pub mod row;
pub mod widths;
