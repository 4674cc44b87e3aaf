//! What a program on a CPU does by a line of a script, and what it sees of the answer, in few words.
#![tactic(auto)]

pub mod instruction;
mod seen_answer;
mod seen_words;

pub use crate::seen_answer::put_seen;
