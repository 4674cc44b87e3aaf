//! What the unit asks of its device, and what it does with the answers.

ghost use Rattle.std.specs.Prelude.{◌≡◌, ◌<◌, ◌≤◌, ◌==◌, ◌&&◌, ◌^◌, ℕ, None, Some, IfSome, MatchOption, is_some, length, true};
ghost use Rattle.chan_model.specs.UnitReports as reports;
ghost use Rattle.chan_model.specs.Sides.{same_side};
ghost use Rattle.chan_model.specs.Lent.{lent_up};
ghost use Rattle.chan_model.specs.Signals.{kept_length, load_bytes, load_in, map_taken};
ghost use Rattle.chan_model.specs.UnitTable as table;
ghost use Rattle.chan_model.specs.declared.signal.Up.TheVariants as up;
ghost use Rattle.chan_model.specs.declared.unit_state.Connection.TheVariants.{On};
ghost use Rattle.unit.specs.UnitWords as words;

use crate::commands::forget;
use bitflags::Flags;
use chan_model::chunk::{Chunk, ChunkLength};
use chan_model::lent::LentUp;
use chan_model::names::{Path, Side};
use chan_model::report::{DeviceAnswer, Report, ReportPath};
use chan_model::signal::{KeptUp, Load, OnPath, Taken, Up};
use chan_model::unit_state::{Connection, CurrentCommand, Own, Progress, UnitState};
use scsw_irb::status::DeviceStatus;

/// What came of a report; the bytes of its Data are those that are not answered.
type Reported = Taken<KeptUp>;

/// Whether a device status says that the channel ended.
fn has_channel_end(status: DeviceStatus) -> bool
    ensures { result ≡ reports.has_channel_end status }
{
    status.contains(DeviceStatus::CHANNEL_END)
}

/// Whether a device status says that the device ended.
fn has_device_end(status: DeviceStatus) -> bool
    ensures { result ≡ reports.has_device_end status }
{
    status.contains(DeviceStatus::DEVICE_END)
}

/// Whether no other End follows one with this status.
fn is_last_end(status: DeviceStatus) -> bool
    ensures { result ≡ reports.is_last_end status }
{
    !has_channel_end(status) || has_device_end(status) || status.has_check()
}

/// Whether a device may give this status at first.
fn is_initial(status: DeviceStatus) -> bool
    ensures { result ≡ reports.is_initial status }
{
    status == DeviceStatus::CHANNEL_END || status == DeviceStatus::UNIT_CHECK
}

/// How many bytes of a read are asked for at once.
pub fn most_of(command: &CurrentCommand) -> u16
    ensures { result ≡ reports.most_of command.now }
{
    if command.room > 256 {
        256
    } else {
        command.room
    }
}

/// Whether no more bytes will be moved.
pub fn is_over(command: &CurrentCommand) -> bool
    ensures { result ≡ reports.is_over command.now }
{
    command.stopped || (!is_outward(command.code) && command.room == 0)
}

/// Whether no bytes wait at the device, and no Data is unanswered.
fn is_settled(command: &CurrentCommand) -> bool
    ensures { result ≡ reports.is_settled command.now }
{
    command.unabsorbed.is_none() && command.unanswered.is_none()
}

/// Whether the device is to supply bytes of a read.
fn is_to_supply(command: &CurrentCommand) -> bool
    ensures { result ≡ reports.is_to_supply command.now }
{
    !(is_outward(command.code) || is_over(command)) && is_settled(command)
}

/// Whether the command may end with this status.
fn may_end(halted: bool, command: &CurrentCommand, status: DeviceStatus, more: bool) -> bool
    ensures { result ≡ reports.may_end halted command.now command.now.progress status more }
{
    match command.progress {
        Progress::New => {
            !more && (is_initial(status) || (halted && status == DeviceStatus::end()))
        }
        Progress::Working => {
            (halted || (is_over(command) && is_settled(command))) && has_device_end(status)
        }
        Progress::ChannelEnded => has_device_end(status),
        Progress::Ended => false,
    }
}

/// What an End shows of a status: channel end that was sent already is left out of the later status.
fn shown_end(progress: Progress, status: DeviceStatus) -> DeviceStatus
    ensures { result ≡ reports.shown_end progress status }
{
    match progress {
        Progress::ChannelEnded => status.without_channel_end(),
        Progress::New | Progress::Working | Progress::Ended => status,
    }
}

/// Whether a command moves bytes to the device.
pub fn is_outward(code: u8) -> bool
    ensures { result ≡ reports.is_outward code }
{
    code % 2 == 1
}

/// Whether a report of the program that is connected is neither stale nor against the law of devices.
fn is_allowed(unit: &UnitState, report: &Report) -> bool
    ensures { result ≡ is_some (reports.report_on unit.now 0 (On 0 0) unit.now.current report.now) }
{
    match &unit.current {
        None => false,
        Some(command) => {
            report.sequence == command.sequence && is_answer_allowed(unit, command, &report.answer)
        }
    }
}

/// Whether the device may answer so, as far as it is with the command.
fn is_answer_allowed(unit: &UnitState, command: &CurrentCommand, answer: &DeviceAnswer) -> bool
    ensures { result ≡ is_some (reports.answer_taken unit.now 0 0 0 command.now command.now.progress answer.now) }
{
    match (command.progress, answer) {
        (_, DeviceAnswer::Ended { status, more }) => may_end(unit.halted, command, *status, *more),
        (Progress::New, DeviceAnswer::Begins) => true,
        (Progress::Working, DeviceAnswer::Absorbed(count)) => match &command.unabsorbed {
            None => false,
            Some(bytes) => usize::from(*count) <= bytes.len(),
        },
        (Progress::Working, DeviceAnswer::Supplied(bytes)) => {
            is_to_supply(command) && bytes.len() <= usize::from(most_of(command))
        }
        (Progress::Working, DeviceAnswer::Again) => {
            command.again && command.unanswered.is_some()
        }
        _ => false,
    }
}

/// Whether a report is of the program of this side and number, and of its last command.
fn is_of(unit: &UnitState, side: Side, number: u64, report: &Report) -> bool
    ensures { result ≡ (same_side side report.now.side
        && ((report.now.number == number) && (report.now.command == unit.now.last_command))) }
{
    side.same(report.side) && report.number == number && report.command == unit.last_command
}

/// Where the program of a report stands. None where the report is stale or against the law of devices.
pub fn reporting(unit: &UnitState, report: &Report) -> Option<Connection>
    ensures own_connection { MatchOption result (reports.unit_reports unit.now report.now ≡ None)
        (λ own_connection. reports.unit_reports unit.now report.now ≡ reports.report_on unit.now report.now.number own_connection unit.now.current report.now) }
    ensures allowed { IfSome result (λ own_connection. is_some (reports.report_on unit.now 0 (On 0 0) unit.now.current report.now) ≡ true) }
{
    match unit.own {
        Own::Owned {
            side,
            number,
            connection: own_connection,
        } if is_of(unit, side, number, report) && is_allowed(unit, report) => Some(own_connection),
        _ => None,
    }
}

/// What a report does. It is not taken where it is stale or against the law of devices, and then nothing changes.
pub fn reports(unit: &mut UnitState, report: &Report) -> Reported
    requires below { words.last_sequence unit.old.current < 2 ^ 63 }
    ensures state { unit.new ≡ table.unit_after unit.old (reports.unit_reports unit.old report.now) }
    ensures outcome { words.reported unit.new.current result ≡ table.outcome_of (reports.unit_reports unit.old report.now) }
    ensures bytes { words.AreOfCurrent unit.new.current result }
{
    match reporting(unit, report) {
        Some(own_connection) => report_on(unit, own_connection, report),
        None => Taken::ignored(),
    }
}

/// The path that the signal of a report is sent on, where one is.
pub fn report_path(unit: &UnitState, report: &Report) -> ReportPath
    ensures { result ≡ reports.report_path (reports.unit_reports unit.now report.now) }
{
    match reporting(unit, report) {
        Some(own_connection) => path_from(unit, own_connection, report),
        None => ReportPath::Refused,
    }
}

/// The path of a report that is allowed.
pub fn path_from(unit: &UnitState, own_connection: Connection, report: &Report) -> ReportPath
    requires { is_some (reports.report_on unit.now 0 (On 0 0) unit.now.current report.now) ≡ true }
    ensures { (number : ℕ) → result ≡ reports.report_path (reports.report_on unit.now number own_connection unit.now.current report.now) }
{
    let Connection::On { path, .. } = own_connection else {
        return ReportPath::Refused;
    };
    match (&unit.current, &report.answer) {
        (Some(command), DeviceAnswer::Begins) if !is_outward(command.code) => {
            ReportPath::NothingSent
        }
        _ => ReportPath::SentOn(path),
    }
}

/// What a report does that is allowed: Data or End is sent on the path of the program, or a read is begun.
pub fn report_on(unit: &mut UnitState, own_connection: Connection, report: &Report) -> Reported
    requires below { words.last_sequence unit.old.current < 2 ^ 63 }
    requires allowed { is_some (reports.report_on unit.old 0 (On 0 0) unit.old.current report.now) ≡ true }
    ensures state { unit.new ≡ table.unit_after unit.old (reports.report_on unit.old report.now.number own_connection unit.old.current report.now) }
    ensures outcome { words.reported unit.new.current result ≡ table.outcome_of (reports.report_on unit.old report.now.number own_connection unit.old.current report.now) }
    ensures bytes { words.AreOfCurrent unit.new.current result }
{
    let Connection::On { path, connection } = own_connection else {
        return Taken::ignored();
    };
    let program = Program {
        path,
        number: report.number,
        connection,
        command: unit.last_command,
    };
    let Some(command) = &mut unit.current else {
        return Taken::ignored();
    };
    match &report.answer {
        DeviceAnswer::Begins if is_outward(command.code) => {
            absorb(command, 0);
            program.data(command)
        }
        DeviceAnswer::Begins => {
            command.progress = Progress::Working;
            Taken::quietly()
        }
        DeviceAnswer::Absorbed(count) => {
            absorb(command, *count);
            program.data(command)
        }
        DeviceAnswer::Supplied(bytes) => {
            supply(command, bytes);
            program.data(command)
        }
        DeviceAnswer::Again => {
            command.again = false;
            program.data(command)
        }
        DeviceAnswer::Ended { status, more } => {
            let shown = shown_end(command.progress, *status);
            command.progress = after_end(shown);
            program.end(shown, *more)
        }
    }
}

/// The device absorbed so many bytes of a write.
fn absorb(command: &mut CurrentCommand, count: u16)
    ensures { command.new ≡ reports.with_absorbed command.old count }
{
    command.progress = Progress::Working;
    forget(&mut command.unabsorbed);
    command.unanswered = Some(Load::Absorbed(count));
}

/// The device supplied the next chunk of a read.
fn supply(command: &mut CurrentCommand, bytes: &Chunk)
    requires { command.old.sequence < 2 ^ 63 }
    ensures { command.new ≡ reports.with_supplied command.old bytes.now }
{
    command.sequence += 1;
    command.asked = most_of(command);
    command.unanswered = Some(Load::Bytes(bytes.copy()));
}

/// The bytes of a read that were sent last and are not answered.
fn unanswered(unit: &UnitState) -> &[u8]
    ensures value { result.now ≡ words.unanswered_bytes unit.now.current }
    ensures bound { length result.now ≤ 256 }
{
    let Some(command) = &unit.current else {
        return &[];
    };
    match &command.unanswered {
        Some(Load::Bytes(bytes)) => bytes.as_slice(),
        Some(Load::Absorbed(_)) | None => &[],
    }
}

/// What came of a report, the bytes of its Data lent.
pub fn lend<'a>(unit: &'a UnitState, outcome: &'a Taken<KeptUp>) -> Taken<LentUp<'a>>
    requires { words.AreOfCurrent unit.now.current outcome.now }
    ensures { map_taken lent_up result ≡ words.reported unit.now.current outcome.now }
{
    let Some(sent) = &outcome.sent else {
        return Taken {
            taken: outcome.taken,
            sent: None,
        };
    };
    Taken {
        taken: outcome.taken,
        sent: Some(OnPath {
            path: sent.path,
            signal: sent.signal.lend(unanswered(unit)),
        }),
    }
}

/// The program that is connected, and its last command.
#[derive(Clone, Copy)]
struct Program {
    path: Path,
    number: u64,
    connection: u64,
    command: u64,
}

impl Program {
    /// The Data of the last chunk, which is not answered.
    fn data(&self, command: &CurrentCommand) -> Reported
        ensures sent { IfSome command.now.unanswered (λ load. words.reported (Some command.now) result ≡ record {
          taken = true;
          sent = Some (record {
            path = self.now.path;
            signal = up.Data load self.now.number self.now.connection self.now.command command.now.sequence;
          });
        }) }
        ensures bytes { words.AreOfCurrent (Some command.now) result }
    {
        let Some(load) = &command.unanswered else {
            return Taken::ignored();
        };
        Taken::sending(
            self.path,
            Up::Data {
                number: self.number,
                connection: self.connection,
                command: self.command,
                sequence: command.sequence,
                load: kept(load),
            },
        )
    }

    /// The End of the command.
    fn end(&self, status: DeviceStatus, more: bool) -> Reported
        ensures { result ≡ record {
          taken = true;
          sent = Some (record {
            path = self.now.path;
            signal = up.End self.now.number self.now.command status more;
          });
        } }
    {
        Taken::sending(
            self.path,
            Up::End {
                number: self.number,
                command: self.command,
                status,
                more,
            },
        )
    }
}

/// The same load, its bytes standing where they are.
fn kept(load: &Load) -> Load<ChunkLength>
    ensures value { load_in result (load_bytes load.now) ≡ load.now }
    ensures length { kept_length result ≡ length (load_bytes load.now) }
{
    match load {
        Load::Absorbed(count) => Load::Absorbed(*count),
        Load::Bytes(bytes) => Load::Bytes(bytes.length()),
    }
}

/// How far the device is after an End with this status.
fn after_end(status: DeviceStatus) -> Progress
    ensures { result ≡ reports.progress_after_end status }
{
    if is_last_end(status) {
        Progress::Ended
    } else {
        Progress::ChannelEnded
    }
}
