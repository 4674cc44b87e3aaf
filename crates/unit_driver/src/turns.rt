//! What a turn of a unit is for.

ghost use Rattle.std.specs.Prelude.{◌≡◌};
ghost use Rattle.unit_driver.specs.Turns as spec;

use chan_events::event::{Event, UnitAct};
use chan_model::names::Side;
use chan_model::report::{Call, Work};
use channel_config::names::SubchannelId;
use machine_model::state::UnitTurn;

/// A command that a unit has at hand, by the numbers of its program and of itself.
#[derive(Clone, Copy, Debug)]
pub struct TakenCommand {
    pub unit: u32,
    pub side: Side,
    pub number: u64,
    pub command: u64,
}

/// A call of a unit's device that is owed, with the command and the chunk that it is of.
#[derive(Drop)]
pub struct OwedCall {
    pub unit: u32,
    pub side: Side,
    pub number: u64,
    pub command: u64,
    pub sequence: u64,
    pub call: Call,
}

/// What a turn of a unit is for.
#[derive(Drop)]
pub enum Turn {
    /// To enter an event.
    Enters(Event),
    /// To leave the path, once after this command.
    Leaves(TakenCommand),
    /// To owe a call of the device.
    Owes(OwedCall),
    /// Nothing.
    Rests,
}

/// The command that a unit has at hand.
fn taken_command(unit: u32, work: &Work) -> TakenCommand
    ensures { result ≡ spec.taken_command «unit» work.now }
{
    match work {
        Work::Call {
            side,
            number,
            command,
            ..
        } => TakenCommand {
            unit,
            side: *side,
            number: *number,
            command: *command,
        },
        Work::Report(report) => TakenCommand {
            unit,
            side: report.side,
            number: report.number,
            command: report.command,
        },
    }
}

fn is_command(one: TakenCommand, other: TakenCommand) -> bool
    ensures { result ≡ spec.is_command one other }
{
    one.unit == other.unit
        && one.side.same(other.side)
        && one.number == other.number
        && one.command == other.command
}

fn has_left(left: Option<TakenCommand>, command: TakenCommand) -> bool
    ensures { result ≡ spec.has_left left command }
{
    match left {
        None => false,
        Some(left) => is_command(left, command),
    }
}

fn turn_of_work(unit: u32, work: Work) -> Turn
    ensures { result ≡ spec.turn_of_work «unit» work }
{
    match work {
        Work::Call {
            side,
            number,
            command,
            sequence,
            call,
        } => Turn::Owes(OwedCall {
            unit,
            side,
            number,
            command,
            sequence,
            call,
        }),
        Work::Report(report) => Turn::Enters(Event::Report { unit, report }),
    }
}

fn turn_at_work(roam: bool, left: Option<TakenCommand>, unit: u32, work: Work) -> Turn
    ensures { result ≡ spec.turn_at_work roam left «unit» work }
{
    let command = taken_command(unit, &work);
    if roam && !has_left(left, command) {
        return Turn::Leaves(command);
    }
    turn_of_work(unit, work)
}

fn turn_away(roam: bool, unit: u32, path: Option<u32>) -> Turn
    ensures { result ≡ spec.turn_away roam «unit» path }
{
    match (roam, path) {
        (true, Some(path)) => Turn::Enters(Event::Act {
            unit,
            act: UnitAct::Ask { path },
        }),
        _ => Turn::Rests,
    }
}

/// What a turn of a unit is for, by what the subsystem says of the unit: None where it is not configured. With `roam` the unit
/// leaves its path once after each command (`left`: the last one), and asks for one again.
pub fn turn_by(roam: bool, left: Option<TakenCommand>, unit: u32, turn: Option<UnitTurn>) -> Turn
    ensures { result ≡ spec.turn_by roam left «unit» turn }
{
    match turn {
        None => Turn::Rests,
        Some(UnitTurn::Takes { subchannel, path }) => Turn::Enters(Event::Down {
            subchannel: word_of(subchannel),
            path,
        }),
        Some(UnitTurn::Works(work)) => turn_at_work(roam, left, unit, work),
        Some(UnitTurn::Away { path }) => turn_away(roam, unit, path),
        Some(UnitTurn::Rests) => Turn::Rests,
    }
}

/// The subsystem-identification word of a subchannel (SA22-7832, chapter 13).
pub fn word_of(id: SubchannelId) -> u32
    ensures { result ≡ spec.word_of id }
{
    u32::from(id.set) * 0x2_0000 + 0x1_0000 + u32::from(id.number)
}
