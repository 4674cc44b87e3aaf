//! What makes status pending at a subchannel (SA22-7832, chapter 16).

use crate::state::ActiveProgram;
use ccw_walk::check::Check;
use scsw_irb::status::DeviceStatus;

/// A cause of status. `tried` is the address 8 past the last block whose fetch was tried, `count` how many bytes of the
/// last command were not moved.
#[derive(Clone, Copy)]
pub enum StatusCause {
    /// A command of the program that was begun ended, and nothing is chained. `more` says that the device had more bytes.
    End {
        begun: ActiveProgram,
        status: DeviceStatus,
        more: bool,
    },
    /// The block that is to begin a command could not be fetched, or may not take control.
    FetchFault {
        tried: u32,
        check: Check,
        count: u16,
    },
    /// The device asks for attention.
    Attention,
    /// No path is left for a program that is to be offered.
    NoPath,
    /// The path of a program, or its device, was lost.
    InterfaceControlCheck,
    /// A command takes control whose block has the flag for a program-controlled interruption (PCI).
    Pci {
        tried: u32,
        count: u16,
    },
    /// A program is suspended, and its ORB has U zero.
    Suspension {
        tried: u32,
        count: u16,
    },
    /// The clear function is performed.
    ClearDone,
    /// The halt function is performed where no device is held.
    HaltDone,
}
