//! Where all stands on the page of a script: its rows, the lanes of its parties, and the lines of its signals.
#![tactic(auto)]

pub mod flights;
pub mod lanes;
pub mod layout;
pub mod noted;
pub mod pictures;
pub mod rows;
pub mod strokes;
