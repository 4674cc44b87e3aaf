//! What was accepted, in order: packed entries over one arena of their bytes.
#![tactic(auto)]

mod arena;
pub mod entries;
pub mod history;
pub mod logs;
