//! Records: what one step of a script did, as a list of facts, and who there is.
#![tactic(auto)]

pub mod parties;
pub mod record;
pub mod refusal;
pub mod script_lines;
pub mod signals;
pub mod style;
pub mod trace;
