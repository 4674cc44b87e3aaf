//! Events, which are all that may happen to a channel subsystem, and what an accepted event answers, with bytes of their own or
//! with bytes that stand elsewhere.
#![tactic(auto)]

pub mod event;
pub mod reply;
pub mod same;
mod words;
