//! What the device of a unit is asked for, and what it answers, in numbers and bytes.

ghost use Rattle.std.specs.Prelude.{◌≡◌};
ghost use Rattle.chan_model.specs.Reports.{lent_call, lent_work};
ghost use Rattle.host_machine.specs.Given.{written};
ghost use Rattle.host_machine.specs.Works as spec;
ghost use Rattle.machine_model.specs.State.{unit_turn_of};
ghost use Rattle.machine_model.specs.UnitTurns.{lent_turns};

use crate::answers::NO_SUCH_UNIT;
use crate::given::write_first;
use crate::running::Running;
use chan_events::event::Event;
use chan_model::chunk::Chunk;
use chan_model::report::{Call, DeviceAnswer, LentCall, LentWork, Report, Work};
use event_lines::side_numbers::{side_number, side_numbered};
use machine_model::state::UnitTurn;
use scsw_irb::status::DeviceStatus;

/// What the device of a unit is asked for.
#[repr(C)]
#[derive(Clone, Copy)]
pub struct HostWork {
    /// The number of the program, of the command and of the last chunk: the answer is handed in with the same.
    pub number: u64,
    pub command: u64,
    pub sequence: u64,
    /// 0 nothing, 1 the initial status of a command, 2 to absorb bytes, 3 to supply bytes, 4 the final status of a command.
    pub kind: u32,
    /// The side of the unit that the program's subchannel is, 0 or 1: the answer is handed in with the same.
    pub side: u32,
    /// The command code, of an initial status.
    pub code: u32,
    /// The side, and the index of its path, by which the command came, of an initial status.
    pub from_side: u32,
    /// Where a program is away: the index of the path that it may ask for.
    pub from_path: u32,
    /// How many bytes are to be absorbed, or the most that may be supplied: 1 to 256.
    pub count: u32,
}

/// What a device answers.
#[repr(C)]
#[derive(Clone, Copy)]
pub struct HostAnswer {
    /// 1 the initial status is empty and the command begins, 2 bytes were absorbed, 3 bytes are supplied, 4 the command ended.
    pub kind: u32,
    /// The status with which it ended: bits 24 to 31 as byte 0 of word 2 of a subchannel-status word has them.
    pub status: u32,
    /// How many bytes were absorbed.
    pub count: u32,
    /// Whether the device had more bytes as the command ended: 0 says that it had none.
    pub more: u32,
}

impl HostWork {
    /// Nothing is asked for.
    pub fn none() -> HostWork
        ensures { result ≡ spec.no_work }
    {
        HostWork {
            number: 0,
            command: 0,
            sequence: 0,
            kind: 0,
            side: 0,
            code: 0,
            from_side: 0,
            from_path: 0,
            count: 0,
        }
    }

    /// The same with what a call says.
    fn with_call(self, call: &LentCall<'_>) -> HostWork
        ensures { result ≡ spec.with_call self (lent_call call.now) }
    {
        match call {
            Call::Initial { code, came_by } => HostWork {
                kind: 1,
                code: u32::from(*code),
                from_side: side_number(came_by.side),
                from_path: came_by.path.index() as u32,
                ..self
            },
            Call::Absorb { bytes } => HostWork {
                kind: 2,
                count: bytes.as_slice().len() as u32,
                ..self
            },
            Call::Supply { most } => HostWork {
                kind: 3,
                count: u32::from(*most),
                ..self
            },
            Call::Finish => HostWork { kind: 4, ..self },
        }
    }
}

/// What a device answered; None where the numbers or the bytes are no answer.
pub fn device_answer(answer: &HostAnswer, bytes: &[u8]) -> Option<DeviceAnswer>
    ensures { result ≡ spec.device_answer answer.now bytes.now }
{
    match answer.kind {
        1 => Some(DeviceAnswer::Begins),
        2 if answer.count <= 0xFFFF => Some(DeviceAnswer::Absorbed(answer.count as u16)),
        3 if bytes.len() <= 256 => Some(DeviceAnswer::Supplied(Chunk::of(bytes))),
        4 if answer.status <= 0xFF => Some(DeviceAnswer::Ended {
            status: DeviceStatus::of_bits(answer.status as u8),
            more: answer.more != 0,
        }),
        _ => None,
    }
}

/// The event that hands in what the device of a unit answered to a work; None where the numbers or the bytes are no answer to one.
pub fn report_event(unit: u32, work: &HostWork, answer: &HostAnswer, bytes: &[u8]) -> Option<Event>
    ensures { result ≡ spec.report_event «unit» work.now answer.now bytes.now }
{
    let side = side_numbered(work.side)?;
    let answer = device_answer(answer, bytes)?;
    Some(Event::Report {
        unit,
        report: Report {
            side,
            answer,
            number: work.number,
            command: work.command,
            sequence: work.sequence,
        },
    })
}

/// The call of a work, and its bytes.
fn tell_work(told: &LentWork<'_>, work: &mut HostWork, room: &mut [u8]) -> i32
    ensures number { result ≡ spec.call_number (lent_work told.now) }
    ensures work { work.new ≡ spec.call_of_work (lent_work told.now) }
    ensures bytes { room.new ≡ written (spec.bytes_of_work (lent_work told.now)) room.old }
{
    match told {
        Work::Call {
            side,
            number,
            command,
            sequence,
            call,
        } => {
            let place = HostWork {
                number: *number,
                command: *command,
                sequence: *sequence,
                side: side_number(*side),
                ..HostWork::none()
            };
            *work = place.with_call(call);
            write_first(bytes_of(call), room);
            1
        }
        Work::Report(_) => {
            *work = HostWork::none();
            3
        }
    }
}

/// The bytes of a call; most have none.
fn bytes_of<'a>(call: &LentCall<'a>) -> &'a [u8]
    ensures { result.now ≡ spec.bytes_of_call (lent_call call.now) }
{
    match call {
        Call::Absorb { bytes } => bytes.as_slice(),
        Call::Initial { .. } | Call::Supply { .. } | Call::Finish => &[],
    }
}

/// The path that a program may ask for which is away.
fn tell_away(path: Option<u32>, work: &mut HostWork) -> i32
    ensures number { result ≡ spec.away_number path }
    ensures work { work.new ≡ spec.work_away path }
{
    match path {
        Some(path) => {
            *work = HostWork {
                from_path: path,
                ..HostWork::none()
            };
            4
        }
        None => {
            *work = HostWork::none();
            5
        }
    }
}

/// Nothing is asked for.
fn tell_nothing(number: i32, work: &mut HostWork) -> i32
    ensures number { result ≡ number }
    ensures work { work.new ≡ spec.no_work }
{
    *work = HostWork::none();
    number
}

impl Running {
    /// What a unit is to do: 0 nothing, 1 its device is called with this work, 2 a signal waits for it, 3 it has a report that its
    /// device is not needed for, 4 its program is away and may ask for the path `from_path`, 5 for none. The bytes that are to be
    /// absorbed are written into the room, as far as they fit: 256 are enough.
    pub fn work(&self, unit: u32, work: &mut HostWork, room: &mut [u8]) -> i32
        ensures { spec.Asks (unit_turn_of self.now.subsystem.machine «unit») result work.new room.old room.new }
    {
        match self.subsystem().lent_turn(unit) {
            Some(UnitTurn::Works(told)) => tell_work(&told, work, room),
            Some(UnitTurn::Away { path }) => tell_away(path, work),
            Some(UnitTurn::Takes { .. }) => tell_nothing(2, work),
            Some(UnitTurn::Rests) => tell_nothing(0, work),
            None => tell_nothing(NO_SUCH_UNIT, work),
        }
    }
}
