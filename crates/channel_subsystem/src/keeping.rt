//! Which entries of its history a channel subsystem keeps.

/// Which entries are kept: each is an accepted event with its reply.
#[derive(Clone, Copy, Debug)]
pub enum Keeping {
    /// That of the last call, where it was accepted. No call takes memory.
    LastEntry,
    /// All since the opening, or since they were let go. A call takes memory where there is no room for its entry.
    AllEntries,
}
