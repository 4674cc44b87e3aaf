//! What instructions find of a subchannel, and what makes status (SA22-7832, chapters 14 and 16).

use scsw_irb::scsw::{ActivityControl, DeferredCode, FunctionControl, StatusControl};
use scsw_irb::status::{DeviceStatus, SubchannelStatus};

/// What an instruction finds of its subchannel.
#[derive(Clone, Copy)]
pub struct Condition {
    /// The subchannel is configured.
    pub provided: bool,
    pub enabled: bool,
    /// What its status word shows.
    pub functions: FunctionControl,
    pub activity: ActivityControl,
    pub status: StatusControl,
    /// The ORB of its program has S one.
    pub may_suspend: bool,
}

/// What one cause of status shows.
#[derive(Clone, Copy)]
pub struct StatusRow {
    /// Status control, beside that status is pending.
    pub conditions: StatusControl,
    /// The activity that is left.
    pub activity: ActivityControl,
    pub device: DeviceStatus,
    pub subchannel: SubchannelStatus,
    /// A deferred condition code, where the cause sets one.
    pub deferred: Option<DeferredCode>,
    pub command_address: u32,
    pub count: u16,
}
