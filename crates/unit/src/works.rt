//! What the unit has to do next.

ghost use Rattle.std.specs.Prelude.{◌≡◌, Some};
ghost use Rattle.chan_model.specs.Reports.{lent_answer, lent_call, lent_work, lent_works};
ghost use Rattle.chan_model.specs.UnitReports as reports;

use crate::reports::{is_outward, is_over, most_of};
use chan_model::chunk::Bytes;
use chan_model::names::{CommandPath, Side};
use chan_model::report::{Call, DeviceAnswer, LentCall, LentWork, Report, Work};
use chan_model::unit_state::{Connection, CurrentCommand, Own, Progress, UnitState};
use scsw_irb::status::DeviceStatus;

/// While its program is connected: a call of the device, or a report without a call.
pub fn work(unit: &UnitState) -> Option<LentWork<'_>>
    ensures { lent_works result ≡ reports.unit_work unit.now }
{
    match (unit.own, &unit.current) {
        (
            Own::Owned {
                side,
                number,
                connection: Connection::On { .. },
            },
            Some(command),
        ) => work_at(unit, side, number, command),
        _ => None,
    }
}

/// The work on the command at hand, as far as the device is with it.
fn work_at<'a>(
    unit: &UnitState,
    side: Side,
    number: u64,
    command: &'a CurrentCommand,
) -> Option<LentWork<'a>>
    ensures { lent_works result ≡ reports.work_at unit.now side number command.now command.now.progress }
{
    match command.progress {
        Progress::New if unit.halted => Some(halted_report(unit, side, number, command)),
        Progress::New => Some(calling(
            unit,
            side,
            number,
            command,
            &Call::Initial {
                code: command.code,
                came_by: CommandPath {
                    side,
                    path: command.path,
                },
            },
        )),
        Progress::Working if unit.halted => {
            Some(calling(unit, side, number, command, &Call::Finish))
        }
        Progress::Working => work_on_data(unit, side, number, command),
        Progress::ChannelEnded => Some(calling(unit, side, number, command, &Call::Finish)),
        Progress::Ended => None,
    }
}

/// A Data that is not answered, which is sent again after a leave; or else bytes.
fn work_on_data<'a>(
    unit: &UnitState,
    side: Side,
    number: u64,
    command: &'a CurrentCommand,
) -> Option<LentWork<'a>>
    ensures { lent_works result ≡ reports.work_on_data unit.now side number command.now command.now.unanswered }
{
    match command.unanswered {
        Some(_) if command.again => Some(reporting(
            unit,
            side,
            number,
            command,
            DeviceAnswer::Again,
        )),
        Some(_) => None,
        None => work_on_bytes(unit, side, number, command),
    }
}

/// The bytes that the device has not absorbed, or else what the transfer goes on with.
fn work_on_bytes<'a>(
    unit: &UnitState,
    side: Side,
    number: u64,
    command: &'a CurrentCommand,
) -> Option<LentWork<'a>>
    ensures { lent_works result ≡ reports.work_on_bytes unit.now side number command.now command.now.unabsorbed }
{
    match &command.unabsorbed {
        Some(bytes) => Some(calling(
            unit,
            side,
            number,
            command,
            &Call::Absorb {
                bytes: bytes.lend(),
            },
        )),
        None => work_on_transfer(unit, side, number, command),
    }
}

/// The end of a transfer that is over, or else more bytes of a read.
fn work_on_transfer<'a>(
    unit: &UnitState,
    side: Side,
    number: u64,
    command: &'a CurrentCommand,
) -> Option<LentWork<'a>>
    ensures { lent_works result ≡ reports.work_on_transfer unit.now side number command.now }
{
    if is_over(command) {
        Some(calling(unit, side, number, command, &Call::Finish))
    } else if is_outward(command.code) {
        None
    } else {
        let most = most_of(command);
        Some(calling(unit, side, number, command, &Call::Supply { most }))
    }
}

/// A call for the command at hand.
fn calling<'a>(
    unit: &UnitState,
    side: Side,
    number: u64,
    command: &CurrentCommand,
    call: &LentCall<'a>,
) -> LentWork<'a>
    ensures { Some (lent_work result) ≡ reports.calling unit.now side number command.now (lent_call call.now) }
{
    Work::Call {
        side,
        number,
        command: unit.last_command,
        sequence: command.sequence,
        call: call.copy(),
    }
}

/// A report without a call, of the command at hand.
fn reporting<'a>(
    unit: &UnitState,
    side: Side,
    number: u64,
    command: &'a CurrentCommand,
    answer: DeviceAnswer<Bytes<'a>>,
) -> LentWork<'a>
    ensures { Some (lent_work result) ≡ reports.reporting unit.now side number command.now (lent_answer answer.entry) }
{
    Work::Report(Report {
        side,
        answer,
        number,
        command: unit.last_command,
        sequence: command.sequence,
    })
}

/// The report of a command that was halted before it began.
fn halted_report<'a>(
    unit: &UnitState,
    side: Side,
    number: u64,
    command: &'a CurrentCommand,
) -> LentWork<'a>
    ensures { Some (lent_work result) ≡ reports.halted_report unit.now side number command.now }
{
    let answer = DeviceAnswer::Ended {
        status: DeviceStatus::end(),
        more: false,
    };
    reporting(unit, side, number, command, answer)
}
