//! What is no part of the two words.

use chan_model::hold_state::HoldState;
use chan_model::names::Path;
use scsw_irb::serials::Serials;
use subchannel_model::state::{ActiveProgram, Program, ProgramPosition};

/// What changes of a subchannel beside its words and its wires; each field is that of `SubchannelState`.
#[derive(Clone, Copy)]
pub struct Rest {
    pub serials: Serials,
    /// The last number that was drawn.
    pub drawn: u64,
    /// How many starts were accepted.
    pub starts: u64,
    /// The program that waits to be begun.
    pub waiting: Option<Program>,
    /// The program that holds the device.
    pub begun: Option<ActiveProgram>,
    /// The program that is suspended.
    pub suspended: Option<ProgramPosition>,
    pub hold: HoldState,
    /// The start that the number of the hold was offered for.
    pub offered: u64,
    /// The path of the last offer, Reset or Grant.
    pub last_path: Option<Path>,
    /// The path of the dedicated allegiance (SA22-7832, chapter 15).
    pub dedicated: Option<Path>,
}
