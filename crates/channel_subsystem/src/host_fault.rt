//! Why a call is refused.

use chan_model::fault::Fault;
use thiserror::Error;

/// Why a call is refused; nothing is changed then.
#[derive(Clone, Copy, Debug, Error)]
pub enum HostFault {
    /// Storage is not of as many blocks as were set up.
    #[error("storage is of another size than was set up")]
    OtherSize,
    /// As many events were accepted as there are numbers for: 4,611,686,018,427,387,903.
    #[error("the numbers of events are used up")]
    NumbersUsedUp,
    /// All entries are kept, and there is no memory for another.
    #[error("there is no memory for an entry")]
    NoMemory,
    /// The machine refuses the event.
    #[error("{0}")]
    Refused(Fault),
}
