//! What there is of a subchannel.

ghost use Rattle.std.specs.Prelude.{◌<◌};

use ccw_walk::Walk;
use chan_model::hold_state::HoldState;
use chan_model::names::Path;
use chan_model::paths::PathSet;
use chan_model::signal::{Down, Taken};
use channel_config::parts::SubchannelSetup;
use data_move::transfer::Transfer;
use orb_block::Orb;
use scsw_irb::scsw::Scsw;
use scsw_irb::serials::Serials;
use wires::Wires;

/// What changes of a path-management-control word (SA22-7832, chapter 15).
#[derive(Clone, Copy)]
pub struct PmcwState {
    /// The interruption parameter.
    pub parameter: u32,
    /// ISC: the interruption subclass, 0 to 7.
    pub subclass: u8,
    /// E: the subchannel is enabled.
    pub enabled: bool,
    /// D: programs may be in multipath mode.
    pub multipath: bool,
    /// LPM: the paths that a program may use.
    pub logical: PathSet,
    /// PNOM: the paths that were found not operational.
    pub not_operational: PathSet,
    /// LPUM: the path that was last used.
    pub last_used: Option<Path>,
    /// POM: the paths that are operational.
    pub operational: PathSet,
    /// PAM: the paths that are not down. Of a path that is not installed it says nothing.
    pub available: PathSet,
    /// S: concurrent sense, as MODIFY SUBCHANNEL left it. It does nothing here.
    pub concurrent_sense: bool,
    ghost subclass_fits: { subclass < 8 },
}

/// A channel program that was started.
#[derive(Clone, Copy)]
pub struct Program {
    /// Which start of its subchannel it is, from 1.
    pub start: u64,
    pub orb: Orb,
    /// It keeps to one path.
    pub single_path: bool,
}

/// A program that holds the device.
#[derive(Clone, Copy)]
pub struct ActiveProgram {
    pub program: Program,
    /// Its primary status was shown.
    pub primary_shown: bool,
    pub transfer: Transfer,
}

/// A program that is to be begun, or to go on, from where it stands.
#[derive(Clone, Copy)]
pub struct ProgramPosition {
    pub program: Program,
    pub walk: Walk,
    /// How many bytes of its last command were not moved; 0 before the first.
    pub count: u16,
}

/// What changes of a subchannel, but for its wires.
#[derive(Clone, Copy)]
pub struct SubchannelState {
    pub pmcw: PmcwState,
    pub scsw: Scsw,
    pub serials: Serials,
    /// The last number that was drawn.
    pub drawn: u64,
    /// How many starts were accepted.
    pub starts: u64,
    /// The program that waits to be begun.
    pub waiting: Option<Program>,
    /// The program that holds the device.
    pub begun: Option<ActiveProgram>,
    /// The program that is suspended.
    pub suspended: Option<ProgramPosition>,
    pub hold: HoldState,
    /// The start that the number of the hold was offered for.
    pub offered: u64,
    /// The path of the last offer, Reset or Grant.
    pub last_path: Option<Path>,
    /// The path of the dedicated allegiance (SA22-7832, chapter 15).
    pub dedicated: Option<Path>,
}

/// A subchannel with its wires.
#[derive(Drop)]
pub struct Subchannel {
    pub setup: SubchannelSetup,
    pub state: SubchannelState,
    pub wires: Wires,
}

/// A program that is to be offered.
#[derive(Clone, Copy)]
pub struct Candidate {
    pub program: Program,
    /// It was suspended.
    pub resumes: bool,
}

/// What the subsystem does of itself for a subchannel.
#[derive(Clone, Copy)]
pub enum Chosen {
    /// Nothing.
    Idle,
    /// The Reset that is due is sent under this number on a path.
    Resets { number: u64, path: Path },
    /// The clear function is performed: there is no path for its Reset.
    PerformsClear,
    /// A Halt is sent to the program of this number on a path.
    Halts { number: u64, path: Path },
    /// The halt function is performed: no device is held.
    PerformsHalt,
    /// The program that is to be offered is over: it found no path.
    FindsNoPath,
    /// A program is offered on a path.
    Offers { candidate: Candidate, path: Path },
}

/// A subchannel after a signal, and what came of the signal.
#[derive(Drop)]
pub struct UpStep {
    pub state: SubchannelState,
    pub outcome: Taken<Down>,
}
