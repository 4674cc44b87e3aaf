//! How many statuses there have been.

/// The counts of the statuses that a subchannel made pending and of those that were cleared.
#[derive(Clone, Copy, Debug, PartialEq, Eq)]
pub struct Serials {
    pub made: u64,
    pub cleared: u64,
}
