//! Two counts that one writer changes and that readers load without a lock (own).
//!
//! Used alone, this crate promises: the words of a cell are the writer's view of them; the count cleared is at most the count
//! made, at every moment and in every answer; no load finds less of either count than an earlier load of the same reader, or
//! than the words as the reader was made. A writer stores the count made first, a reader loads it last. Only making a cell or
//! a reader takes memory, and nothing waits.
#![tactic(auto)]

pub mod cell;
pub mod supplies;
pub mod words;
