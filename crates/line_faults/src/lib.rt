//! What is wrong with a line that breaks a rule: which word, and what it should be.
#![tactic(auto)]

pub mod bad_words;
pub mod configuration;
pub mod counts;
pub mod reason;
pub mod rows;
pub mod spelling;
pub mod unknown;
pub mod writing;
