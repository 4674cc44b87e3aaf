//! What a Data and an End say, beside the bytes of the Data.

use chan_model::names::Path;
use scsw_irb::status::DeviceStatus;

/// A Data that came up by a path, but for its load.
#[derive(Clone, Copy)]
pub struct DataSignal {
    pub path: Path,
    /// The number of the program.
    pub number: u64,
    /// The connection at which the Data was sent.
    pub connection: u64,
    /// Which command of the program it is of, from 1.
    pub command: u64,
    /// Which chunk of the command it answers.
    pub sequence: u64,
}

/// An End that came up by a path.
#[derive(Clone, Copy)]
pub struct EndSignal {
    pub path: Path,
    /// The number of the program.
    pub number: u64,
    /// Which command of the program ended, from 1.
    pub command: u64,
    pub status: DeviceStatus,
    /// The device had more bytes.
    pub more: bool,
}
