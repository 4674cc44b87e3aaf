//! Which paths a subchannel keeps to (SA22-7832, chapter 15).
//!
//! Used alone, this crate promises: the active and the working allegiance are read off the hold of a subchannel, and the
//! dedicated allegiance follows a table of four causes; while it stands, no path but its own is ever among the usable ones;
//! the usable paths are just those that are allowed, installed, available and free; and the paths that a choice finds not
//! operational leave one mask for the other, with the answer whether there were any. Nothing here takes memory, refuses, or
//! has a condition; which usable path is taken is the business of `path_select`.
#![tactic(auto)]

pub mod allegiances;
pub mod path_use;
