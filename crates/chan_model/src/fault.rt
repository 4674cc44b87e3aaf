//! Refusals. After a refusal all is as before.

use storage_keys::StorageFault;
use thiserror::Error;

/// Why something is refused.
#[derive(Clone, Copy, Debug, Error)]
pub enum Fault {
    /// A growth was refused, or the steps are used up.
    #[error("no memory")]
    NoMemory,
    /// The event must send on a wire that holds 8 signals.
    #[error("the wire is full")]
    WireFull,
    /// No signal waits on that wire.
    #[error("no signal waits")]
    NotSent,
    /// The event names a subchannel that is not configured.
    #[error("no such subchannel")]
    NoSuchSubchannel,
    /// The event names a path or a channel-path identifier that is not configured.
    #[error("no such path")]
    NoSuchPath,
    /// The event names a unit that is not configured.
    #[error("no such unit")]
    NoSuchUnit,
    /// The state doesn't allow it.
    #[error("not now")]
    NotNow,
    /// A rule of configurations is broken.
    #[error("configuration rule {0}")]
    ConfigBad(u8),
    /// A rule of scripts is broken.
    #[error("line {0}, rule {1}")]
    ScriptBad(u64, u8),
    /// Storage refuses an operand.
    #[error("storage: {0:?}")]
    Storage(StorageFault),
    /// An operand is not allowed: the subsystem-identification word, or the contents of a control block.
    #[error("operand")]
    Operand,
}
