//! Where a replay ended before its last entry.

use crate::host_fault::HostFault;

/// The first entry that went otherwise; those before it were replayed.
#[derive(Clone, Copy, Debug)]
pub struct NotReplayed {
    /// The index of the entry, from 0.
    pub index: usize,
    pub difference: Difference,
}

/// How the event of an entry went otherwise than the entry says.
#[derive(Clone, Copy, Debug)]
pub enum Difference {
    /// It was refused, which changes nothing.
    Refused(HostFault),
    /// It was accepted with another reply, which `last_reply` lends.
    OtherReply,
}
