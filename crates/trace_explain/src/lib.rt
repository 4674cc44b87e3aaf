//! The view `explain` of a script that was performed: each line with all that came of it, every word decoded.
#![tactic(auto)]

mod answer;
pub mod codes;
pub mod explain;
mod facts;
mod scsw;
mod unit_facts;

pub use crate::codes::{found_by, put_code_note};
pub use crate::explain::{put_explained, put_line_explained};
