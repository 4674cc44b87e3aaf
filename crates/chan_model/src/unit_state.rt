//! The device's side (own): a unit that one or two subchannels reach.

ghost use Rattle.std.specs.Prelude.{◌≡◌};

use crate::chunk::Chunk;
use crate::names::{Path, Side};
use crate::signal::Load;

/// Where the program is that holds the device.
#[derive(Clone, Copy, Debug)]
pub enum Connection {
    /// Connected on this path.
    On { path: Path, connection: u64 },
    /// Asking for this path.
    Ask { path: Path, connection: u64 },
    /// At work without a path.
    Away { connection: u64 },
}

/// Whom the device is held by.
#[derive(Clone, Copy, Debug)]
pub enum Own {
    Idle,
    /// The program of this number, of one side.
    Owned {
        side: Side,
        number: u64,
        connection: Connection,
    },
}

/// What the unit keeps of one side.
#[derive(Clone, Copy, Debug)]
pub struct SideState {
    /// The greatest number taken of this side.
    pub floor: u64,
    /// The side has not been reset since the last restart.
    pub fresh: bool,
}

/// How far the device is with a command.
#[derive(Clone, Copy, Debug)]
pub enum Progress {
    /// Not begun.
    New,
    /// Begun; its bytes are moved.
    Working,
    /// Its channel end is sent.
    ChannelEnded,
    /// Its last End is sent.
    Ended,
}

/// The command at hand.
#[derive(Drop)]
pub struct CurrentCommand {
    /// The path of its side's subchannel by which it came; the unit may be on another since.
    pub path: Path,
    pub code: u8,
    /// How many bytes of a read may come.
    pub room: u16,
    pub progress: Progress,
    /// The number of the last chunk.
    pub sequence: u64,
    /// What was sent last by Data and is not answered.
    pub unanswered: Option<Load>,
    /// How many bytes of a read were asked for last.
    pub asked: u16,
    /// What is not answered is to be sent again.
    pub again: bool,
    /// The bytes of a write that the device has not absorbed.
    pub unabsorbed: Option<Chunk>,
    /// No more bytes will be moved.
    pub stopped: bool,
}

/// An attention that was sent and is not answered.
#[derive(Clone, Copy, Debug)]
pub struct Attention {
    pub number: u64,
    pub side: Side,
}

/// The whole of a unit.
#[derive(Drop)]
pub struct UnitState {
    /// How often it was restarted.
    pub restarts: u64,
    pub first: SideState,
    pub second: SideState,
    pub own: Own,
    /// The number of the last command of the program that holds it.
    pub last_command: u64,
    pub current: Option<CurrentCommand>,
    /// The program is to end.
    pub halted: bool,
    /// How many attentions were drawn.
    pub attentions: u64,
    pub attention: Option<Attention>,
    /// Its next attention says control unit end.
    pub end_owed: bool,
}

impl CurrentCommand {
    /// The same command as far; it takes no memory.
    pub fn copy(&self) -> Self
        ensures { result ≡ self.now }
    {
        CurrentCommand {
            path: self.path,
            code: self.code,
            room: self.room,
            progress: self.progress,
            sequence: self.sequence,
            unanswered: copy_load(&self.unanswered),
            asked: self.asked,
            again: self.again,
            unabsorbed: copy_chunk(&self.unabsorbed),
            stopped: self.stopped,
        }
    }
}

impl UnitState {
    /// The same unit; it takes no memory.
    pub fn copy(&self) -> Self
        ensures { result ≡ self.now }
    {
        UnitState {
            restarts: self.restarts,
            first: self.first,
            second: self.second,
            own: self.own,
            last_command: self.last_command,
            current: copy_current(&self.current),
            halted: self.halted,
            attentions: self.attentions,
            attention: self.attention,
            end_owed: self.end_owed,
        }
    }
}

/// The same load, where there is one.
fn copy_load(load: &Option<Load>) -> Option<Load>
    ensures { result ≡ load.now }
{
    match load {
        Some(load) => Some(load.copy()),
        None => None,
    }
}

/// The same bytes, where there are any.
fn copy_chunk(chunk: &Option<Chunk>) -> Option<Chunk>
    ensures { result ≡ chunk.now }
{
    match chunk {
        Some(chunk) => Some(chunk.copy()),
        None => None,
    }
}

/// The same command, where there is one.
fn copy_current(current: &Option<CurrentCommand>) -> Option<CurrentCommand>
    ensures { result ≡ current.now }
{
    match current {
        Some(current) => Some(current.copy()),
        None => None,
    }
}
