//! Records: the facts of the steps of a script.

ghost use Rattle.std.specs.Prelude.{◌≡◌};
ghost use Rattle.step_records.specs.Moving as spec;

use crate::refusal::Refusal;
use ccw_codec::{Ccw, Format};
use chan_model::chunk::Chunk;
use chan_model::fault::Fault;
use chan_model::hold_state::HoldState;
use chan_model::names::Path;
use chan_model::signal::{Down, Up};
use orb_block::Orb;
use script_text::ActionResult;
use scsw_irb::crw::Crw;
use scsw_irb::status::DeviceStatus;

/// A fact of the line of this number, from 1.
#[derive(Drop)]
pub struct Record {
    pub line: u64,
    pub fact: Fact,
}

/// A fact of one step. A subchannel and a unit are named by their index in the order of the configuration, from 0.
#[derive(Drop)]
pub enum Fact {
    /// The line itself, which stands in the text of the script.
    Event,
    /// What the instruction of the line found of its subchannel: word 0 of its subchannel-status word, and its enabled bit.
    Found {
        subchannel: usize,
        control: u32,
        enabled: bool,
    },
    /// What the line came to: what `chsim` prints after the number of the line is a function of it.
    Answer(Result<ActionResult, Fault>),
    /// Why the line was refused; it stands behind its answer.
    Refused(Refusal),
    /// A channel path of this identifier came up or went down.
    PathState {
        chpid: u8,
        up: bool,
    },
    /// A signal moved.
    Signal {
        wire: Wire,
        moved: Moved,
        signal: Signal,
    },
    /// The subsystem's side of a subchannel changed.
    Hold {
        subchannel: usize,
        before: HoldState,
        after: HoldState,
    },
    /// The enabled bit, the interruption subclass or the multipath mode of a subchannel changed: what they are now.
    Enabled {
        subchannel: usize,
        enabled: bool,
        subclass: u8,
        multipath: bool,
    },
    /// A mask of paths of a subchannel changed: a bit for each path, path 0 leftmost.
    Mask {
        subchannel: usize,
        mask: Mask,
        before: u8,
        after: u8,
    },
    /// The first word of the subchannel-status word changed.
    Functions {
        subchannel: usize,
        before: u32,
        after: u32,
    },
    /// An operation-request block was fetched, and its start accepted.
    Orb {
        subchannel: usize,
        orb: Orb,
    },
    /// A program went on: `start` says which start of its subchannel it is, from 1.
    Program {
        subchannel: usize,
        start: u64,
        stage: ProgramStage,
    },
    /// A channel-command word took control; `goes_on` says that it goes on with the data of the one before.
    Ccw {
        subchannel: usize,
        address: u32,
        format: Format,
        ccw: Ccw,
        goes_on: bool,
    },
    /// Bytes of a program moved between storage and the wires; the address is that of the first.
    Copy {
        subchannel: usize,
        direction: Direction,
        address: u32,
        bytes: Chunk,
    },
    /// Status was made pending: the three words, and which status of its subchannel it is, from 1.
    StatusMade {
        subchannel: usize,
        words: [u32; 3],
        serial: u64,
        cause: Cause,
    },
    /// The status of this serial was cleared.
    StatusCleared {
        subchannel: usize,
        serial: u64,
    },
    /// A request for an I/O interruption of a subclass.
    Request {
        subchannel: usize,
        subclass: u8,
        change: RequestChange,
    },
    /// A channel report.
    Report {
        change: ReportChange,
        crw: Crw,
    },
    /// Whom a unit is held by, and the greatest number that it took of that side, changed.
    Owner {
        unit: usize,
        before: Owner,
        after: Owner,
    },
    /// The command that a unit has at hand changed.
    Command {
        unit: usize,
        before: Option<CommandAtHand>,
        after: Option<CommandAtHand>,
    },
    /// A unit learned that its attention of this number was taken.
    AttentionTaken {
        unit: usize,
        attention: u64,
    },
    /// What a device did.
    Device {
        unit: usize,
        act: DeviceAct,
    },
}

/// A wire: of the path of this index of a subchannel, down to the unit or up from it.
#[derive(Clone, Copy, PartialEq, Eq)]
pub struct Wire {
    pub subchannel: usize,
    pub path: Path,
    pub way: Way,
}

/// Which way a wire goes.
#[derive(Clone, Copy, PartialEq, Eq)]
pub enum Way {
    Down,
    Up,
}

/// A signal of either way.
#[derive(Drop)]
pub enum Signal {
    Down(Down),
    Up(Up),
}

/// What became of a signal.
#[derive(Clone, Copy, PartialEq, Eq)]
pub enum Moved {
    /// It was put on the wire.
    Sent,
    /// It was met at its end of the wire, and a state changed or a signal was sent.
    Taken,
    /// It was met at its end of the wire, and nothing came of it.
    Ignored,
    /// It waited on a wire whose path went down or was reset.
    Lost,
    /// It was sent on a path that is down.
    Vanished,
}

impl Moved {
    /// What became of a signal that was met, which changed a state or had a signal sent, or came to nothing.
    pub fn met(taken: bool) -> Moved
        ensures { result ≡ spec.met_as taken }
    {
        if taken { Moved::Taken } else { Moved::Ignored }
    }

    /// What became of a signal that was sent on a path, which is available or down.
    pub fn sent(available: bool) -> Moved
        ensures { result ≡ spec.sent_as available }
    {
        if available {
            Moved::Sent
        } else {
            Moved::Vanished
        }
    }
}

/// A mask of the path-management-control word (SA22-7832, chapter 15).
#[derive(Clone, Copy, PartialEq, Eq)]
pub enum Mask {
    /// LPM: the paths that a program may use.
    Logical,
    /// PNOM: the paths that were found not operational.
    NotOperational,
    /// LPUM: the path that was last used.
    LastUsed,
    /// POM: the paths that are operational.
    Operational,
    /// PAM: the paths that are available.
    Available,
}

/// How far a program is.
#[derive(Clone, Copy, PartialEq, Eq)]
pub enum ProgramStage {
    /// It was started, and waits to be begun; or it was resumed.
    Waits,
    /// It holds the device.
    Holds,
    /// It is suspended.
    Suspended,
    /// It is no more.
    Over,
}

/// Which way bytes moved.
#[derive(Clone, Copy, PartialEq, Eq)]
pub enum Direction {
    /// From storage, for a device that writes.
    Fetched,
    /// Into storage, from a device that reads.
    Stored,
}

/// What made status pending, as the status word tells it (SA22-7832, chapter 16).
#[derive(Clone, Copy, PartialEq, Eq)]
pub enum Cause {
    /// The clear function was performed.
    ClearDone,
    /// The halt function was performed where no device was held.
    HaltDone,
    /// No path was left for a program.
    NoPath,
    /// The path of a program, or its device, was lost.
    InterfaceControlCheck,
    /// The device asked for attention.
    Attention,
    /// A program was suspended.
    Suspension,
    /// A block took control that has the flag for a program-controlled interruption.
    ProgramControlled,
    /// A block could not be fetched, or could not take control.
    FetchFault,
    /// The last command of a program ended.
    End,
}

/// What became of a request for an I/O interruption.
#[derive(Clone, Copy, PartialEq, Eq)]
pub enum RequestChange {
    Posted,
    /// TEST PENDING INTERRUPTION took it out.
    TakenOut,
    /// It went away with its status.
    Dropped,
}

/// What became of a channel report.
#[derive(Clone, Copy, PartialEq, Eq)]
pub enum ReportChange {
    /// It waits.
    Waits,
    /// STORE CHANNEL REPORT WORD took it out.
    TakenOut,
    /// It was dropped, since 16 waited; the one before it says so.
    Lost,
}

/// Whom a unit is held by.
#[derive(Clone, Copy, PartialEq, Eq)]
pub struct Owner {
    /// The program that holds it.
    pub holder: Option<Holder>,
    /// The greatest number that was taken of either side.
    pub floor: u64,
}

/// The program that holds a unit: the number of its offer, and its subchannel.
#[derive(Clone, Copy, PartialEq, Eq)]
pub struct Holder {
    pub number: u64,
    pub subchannel: usize,
    pub place: Place,
}

/// Where a program is that holds a unit.
#[derive(Clone, Copy, PartialEq, Eq)]
pub enum Place {
    /// Connected on a path.
    On(Path),
    /// Asking for a path.
    Asks(Path),
    /// At work without a path.
    Away,
}

/// A command that a unit has at hand: its number in its program, from 1, and its code.
#[derive(Clone, Copy, PartialEq, Eq)]
pub struct CommandAtHand {
    pub number: u64,
    pub code: u8,
}

/// What a device did.
#[derive(Drop)]
pub enum DeviceAct {
    /// It began a command, and its unit asks for the bytes of a write.
    Asks,
    /// It began a command, and has nothing to say yet.
    Nothing,
    /// It absorbed these bytes of a write.
    Absorbed(Chunk),
    /// It supplied these bytes of a read.
    Gave(Chunk),
    /// Its unit sent the last Data again, on another path.
    Again,
    /// It ended the command.
    Ended { status: DeviceStatus, more: bool },
    /// It was restarted.
    Restarted,
}
