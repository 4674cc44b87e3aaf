//! What a device answers to the call that its unit made of it.

ghost use Rattle.std.specs.Prelude.{◌≡◌, ◌≤◌, ◌++◌, ⊤, ℕ, List, length};
ghost use Rattle.chan_model.specs.Reports as spec;

use crate::chunk::{Bytes, Chunk, ChunkLength};
use crate::names::{CommandPath, Path, Side};
use scsw_irb::status::DeviceStatus;
use std::alloc::AllocError;

/// What the device is asked for, over what stands for its bytes.
#[derive(Drop)]
pub enum Call<B = Chunk> {
    /// The initial status of a command of this code, which came by this path. A command that is begun on another path, since its
    /// unit left the first and came back, still names the first.
    Initial { code: u8, came_by: CommandPath },
    /// To absorb bytes of a write.
    Absorb { bytes: B },
    /// At most so many bytes of a read: from 1 to 256.
    Supply { most: u16 },
    /// The final status of a command.
    Finish,
}

/// What the device answered, over what stands for its bytes.
#[derive(Copy, PartialEq, Eq, Debug, Drop)]
pub enum DeviceAnswer<B = Chunk> {
    /// The initial status of a command is empty: the bytes of a write are asked for, those of a read are to be supplied.
    Begins,
    /// So many of the bytes were absorbed.
    Absorbed(u16),
    /// Bytes of a read, no more than were asked for; none where the device has no more.
    Supplied(B),
    /// No answer of the device: the Data that was not answered before the path was left is sent again.
    Again,
    /// The command ended with this status; `more` says that the device had more bytes.
    Ended { status: DeviceStatus, more: bool },
}

impl<B: Copy> Clone for DeviceAnswer<B> {
    ghost is_clone = { λ x y. y ≡ x };

    ghost is_infallible = { λ _. ⊤ };

    fn clone(&self) -> Result<Self, AllocError> {
        Ok(*self)
    }
}

/// An answer, with the command and the place that it is of.
#[derive(Copy, PartialEq, Eq, Debug, Drop)]
pub struct Report<A = DeviceAnswer> {
    pub side: Side,
    pub answer: A,
    /// The program's number.
    pub number: u64,
    /// The command's number.
    pub command: u64,
    /// The number of the last chunk, as it stood when the device was called.
    pub sequence: u64,
}

impl<A: Copy> Clone for Report<A> {
    ghost is_clone = { λ x y. y ≡ x };

    ghost is_infallible = { λ _. ⊤ };

    fn clone(&self) -> Result<Self, AllocError> {
        Ok(*self)
    }
}

/// A report whose bytes are lent.
pub type LentReport<'a> = Report<DeviceAnswer<Bytes<'a>>>;

/// A report whose bytes stand elsewhere.
pub type KeptReport = Report<DeviceAnswer<ChunkLength>>;

/// Where the signal of a report goes.
#[derive(Clone, Copy)]
pub enum ReportPath {
    /// The report is stale or against the law of devices.
    Refused,
    /// The report is taken, and nothing is sent.
    NothingSent,
    /// The report is taken, and its signal is sent on this path.
    SentOn(Path),
}

/// What a unit has to do next, over what stands for a call and for a report.
#[derive(Drop)]
pub enum Work<C = Call, R = Report> {
    /// A call of the device model; its answer is the report of this place.
    Call {
        side: Side,
        number: u64,
        command: u64,
        sequence: u64,
        call: C,
    },
    /// A report that needs no call.
    Report(R),
}

/// A call whose bytes are lent.
pub type LentCall<'a> = Call<Bytes<'a>>;

/// What a unit has to do next, its bytes lent.
pub type LentWork<'a> = Work<Call<Bytes<'a>>, Report<DeviceAnswer<Bytes<'a>>>>;

impl<B> DeviceAnswer<B> {
    /// The same answer over other bytes.
    pub fn with<C: Drop>(&self, bytes: C) -> DeviceAnswer<C>
        ensures { result ≡ spec.map_answer (λ _. bytes) self.now }
    {
        match self {
            DeviceAnswer::Begins => DeviceAnswer::Begins,
            DeviceAnswer::Absorbed(count) => DeviceAnswer::Absorbed(*count),
            DeviceAnswer::Supplied(_) => DeviceAnswer::Supplied(bytes),
            DeviceAnswer::Again => DeviceAnswer::Again,
            DeviceAnswer::Ended { status, more } => DeviceAnswer::Ended {
                status: *status,
                more: *more,
            },
        }
    }
}

impl DeviceAnswer {
    /// Its bytes; most answers have none.
    pub fn bytes(&self) -> Bytes<'_>
        ensures { result.bytes.now ≡ spec.answer_bytes self.now }
    {
        match self {
            DeviceAnswer::Supplied(bytes) => bytes.lend(),
            _ => Bytes::of(&[]),
        }
    }

    /// The same answer, its bytes lent.
    pub fn lend(&self) -> DeviceAnswer<Bytes<'_>>
        ensures { spec.lent_answer result ≡ self.now }
    {
        self.with(self.bytes())
    }

    /// The same answer; it takes no memory.
    pub fn copy(&self) -> Self
        ensures { result ≡ self.now }
    {
        self.lend().own()
    }
}

impl<'a> DeviceAnswer<Bytes<'a>> {
    /// Its bytes; most answers have none.
    pub fn bytes(&self) -> &'a [u8]
        ensures value { result.now ≡ spec.answer_bytes (spec.lent_answer self.now) }
        ensures bound { length result.now ≤ 256 }
    {
        match self {
            DeviceAnswer::Supplied(bytes) => bytes.as_slice(),
            _ => &[],
        }
    }

    /// The same answer with its own bytes.
    pub fn own(&self) -> DeviceAnswer
        ensures { result ≡ spec.lent_answer self.now }
    {
        self.with(Chunk::of(self.bytes()))
    }

    /// The same answer, its bytes standing elsewhere.
    pub fn keep(&self) -> DeviceAnswer<ChunkLength>
        ensures kept { (rest : List ℕ) → spec.answer_in result (spec.answer_bytes (spec.lent_answer self.now) ++ rest) ≡ spec.lent_answer self.now }
        ensures length { spec.answer_length result ≡ length (spec.answer_bytes (spec.lent_answer self.now)) }
        ensures bound { length (spec.answer_bytes (spec.lent_answer self.now)) ≤ 256 }
    {
        self.with(ChunkLength::of(self.bytes()))
    }
}

impl DeviceAnswer<ChunkLength> {
    /// How many bytes it has.
    pub fn length(&self) -> usize
        ensures value { result ≡ spec.answer_length self.now }
        ensures bound { result ≤ 256 }
    {
        match self {
            DeviceAnswer::Supplied(bytes) => bytes.get(),
            _ => 0,
        }
    }

    /// The answer with the first of these bytes.
    pub fn lend<'a>(&self, bytes: &'a [u8]) -> DeviceAnswer<Bytes<'a>>
        requires { spec.answer_length self.now ≤ length bytes.now }
        ensures { spec.lent_answer result ≡ spec.answer_in self.now bytes.now }
    {
        self.with(Bytes::of(&bytes[..self.length()]))
    }
}

impl<A> Report<A> {
    /// The same report with another answer.
    pub fn with<B: Drop>(&self, answer: B) -> Report<B>
        ensures { result ≡ spec.map_report (λ _. answer) self.now }
    {
        Report {
            side: self.side,
            answer,
            number: self.number,
            command: self.command,
            sequence: self.sequence,
        }
    }
}

impl Report {
    /// The same report; it takes no memory.
    pub fn copy(&self) -> Self
        ensures { result ≡ self.now }
    {
        self.with(self.answer.copy())
    }

    /// The same report, its bytes standing elsewhere.
    pub fn keep(&self) -> KeptReport
        ensures kept { (rest : List ℕ) → spec.report_in result (spec.answer_bytes self.now.answer ++ rest) ≡ self.now }
        ensures length { spec.answer_length result.answer ≡ length (spec.answer_bytes self.now.answer) }
        ensures bound { length (spec.answer_bytes self.now.answer) ≤ 256 }
    {
        self.with(self.answer.lend().keep())
    }
}

impl LentReport<'_> {
    /// The same report with its own bytes.
    pub fn own(&self) -> Report
        ensures { result ≡ spec.lent_report self.now }
    {
        self.with(self.answer.own())
    }
}

impl KeptReport {
    /// The report with the first of these bytes, which become its own.
    pub fn own(&self, bytes: &[u8]) -> Report
        requires { spec.answer_length self.now.answer ≤ length bytes.now }
        ensures { result ≡ spec.report_in self.now bytes.now }
    {
        self.with(self.answer.lend(bytes).own())
    }
}

impl Call {
    /// The same call, its bytes lent.
    pub fn lend(&self) -> LentCall<'_>
        ensures { spec.lent_call result ≡ self.now }
    {
        match self {
            Call::Initial { code, came_by } => Call::Initial {
                code: *code,
                came_by: *came_by,
            },
            Call::Absorb { bytes } => Call::Absorb {
                bytes: bytes.lend(),
            },
            Call::Supply { most } => Call::Supply { most: *most },
            Call::Finish => Call::Finish,
        }
    }
}

impl<'a> LentCall<'a> {
    /// The same call.
    pub fn copy(&self) -> LentCall<'a>
        ensures { spec.lent_call result ≡ spec.lent_call self.now }
    {
        match self {
            Call::Initial { code, came_by } => Call::Initial {
                code: *code,
                came_by: *came_by,
            },
            Call::Absorb { bytes } => Call::Absorb { bytes: *bytes },
            Call::Supply { most } => Call::Supply { most: *most },
            Call::Finish => Call::Finish,
        }
    }

    /// The same call with its own bytes.
    pub fn own(&self) -> Call
        ensures { result ≡ spec.lent_call self.now }
    {
        match self {
            Call::Initial { code, came_by } => Call::Initial {
                code: *code,
                came_by: *came_by,
            },
            Call::Absorb { bytes } => Call::Absorb {
                bytes: Chunk::of(bytes.as_slice()),
            },
            Call::Supply { most } => Call::Supply { most: *most },
            Call::Finish => Call::Finish,
        }
    }
}

impl LentWork<'_> {
    /// The same work with its own bytes.
    pub fn own(&self) -> Work
        ensures { result ≡ spec.lent_work self.now }
    {
        match self {
            Work::Call {
                side,
                number,
                command,
                sequence,
                call,
            } => Work::Call {
                side: *side,
                number: *number,
                command: *command,
                sequence: *sequence,
                call: call.own(),
            },
            Work::Report(report) => Work::Report(report.own()),
        }
    }
}
