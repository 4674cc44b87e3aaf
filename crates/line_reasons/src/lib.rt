//! Why a line of a script is bad: of each bad line the word that is wrong, what it should be, and the rule that it breaks.
#![tactic(auto)]

pub mod checker;
mod config_text;
mod name_text;
pub mod numbers;
pub mod printing;
pub mod verdict;
pub mod whole;
mod word_text;
