//! What the unit does with the commands and the bytes of the program that holds it.

ghost use Rattle.std.specs.Prelude.{◌≡◌, ◌≤◌, IfSome, None, length};
ghost use Rattle.chan_model.specs.UnitTable as table;
ghost use Rattle.chan_model.specs.Lent.{lent_down, plain_up};
ghost use Rattle.chan_model.specs.Signals.{map_taken};
ghost use Rattle.unit.specs.UnitWords as words;

use crate::parts::{Outcome, follows, is_owner, is_owner_on};
use chan_model::chunk::Chunk;
use chan_model::lent::LentDown;
use chan_model::names::{CommandPath, Path, Side};
use chan_model::signal::{Down, Taken};
use chan_model::unit_state::{CurrentCommand, Progress, UnitState};

/// Command: the next of the program that holds the device, which came by this path.
pub fn commanded(
    unit: &mut UnitState,
    came_by: CommandPath,
    number: u64,
    command: u64,
    code: u8,
    room: u16,
) -> Outcome
    ensures state { unit.new ≡ table.unit_after unit.old (table.commanded unit.old came_by.side came_by.path number command code room) }
    ensures outcome { map_taken plain_up result ≡ table.outcome_of (table.commanded unit.old came_by.side came_by.path number command code room) }
{
    if is_owner(unit, came_by.side, number) && follows(command, unit.last_command) {
        unit.last_command = command;
        unit.current = Some(new_command(came_by.path, code, room));
        Taken::quietly()
    } else {
        Taken::ignored()
    }
}

/// A command that is not begun.
fn new_command(path: Path, code: u8, room: u16) -> CurrentCommand
    ensures { result ≡ table.new_command path code room }
{
    CurrentCommand {
        path,
        code,
        room,
        progress: Progress::New,
        sequence: 0,
        unanswered: None,
        asked: 0,
        again: false,
        unabsorbed: None,
        stopped: false,
    }
}

/// Whether a Took or a Give is of the last command of the program that holds the device, and a Give of the connection at
/// hand.
pub fn is_of_command(unit: &UnitState, side: Side, signal: &LentDown<'_>) -> bool
    ensures { result ≡ words.is_of_command unit.now side (lent_down signal.now) }
{
    match *signal.kept {
        Down::Took {
            number,
            command,
            ..
        } => { is_owner(unit, side, number) && command == unit.last_command }
        Down::Give {
            number,
            connection,
            command,
            ..
        } => is_owner_on(unit, side, number, connection) && command == unit.last_command,
        _ => false,
    }
}

/// Give of the command at hand: the chunk that follows the last.
pub fn given(unit: &mut UnitState, sequence: u64, bytes: &[u8]) -> Outcome
    requires { length bytes.now ≤ 256 }
    ensures state { unit.new ≡ table.unit_after unit.old (table.given_next unit.old unit.old.current sequence bytes.now) }
    ensures outcome { map_taken plain_up result ≡ table.outcome_of (table.given_next unit.old unit.old.current sequence bytes.now) }
{
    match &mut unit.current {
        Some(command) if follows(sequence, command.sequence) => {
            give(command, sequence, bytes);
            Taken::quietly()
        }
        _ => Taken::ignored(),
    }
}

/// The command has these bytes; none stop the transfer.
fn give(command: &mut CurrentCommand, sequence: u64, bytes: &[u8])
    requires { length bytes.now ≤ 256 }
    ensures { command.new ≡ table.with_given command.old sequence bytes.now }
{
    command.sequence = sequence;
    if command.unanswered.is_some() {
        command.unanswered = None;
    }
    command.again = false;
    keep(&mut command.unabsorbed, bytes);
    command.stopped = command.stopped || bytes.len() == 0;
}

/// The bytes are kept, where there are any.
fn keep(kept: &mut Option<Chunk>, bytes: &[u8])
    requires { length bytes.now ≤ 256 }
    ensures { kept.new ≡ table.kept_bytes bytes.now }
{
    match bytes {
        [] => forget(kept),
        [_, ..] => *kept = Some(Chunk::of(bytes)),
    }
}

/// No bytes are kept.
pub fn forget(kept: &mut Option<Chunk>)
    ensures { kept.new ≡ None }
{
    if kept.is_some() {
        *kept = None;
    }
}

/// Took of the last chunk of the command at hand, where its Data is not answered.
pub fn answered(unit: &mut UnitState, sequence: u64, room: u16) -> Outcome
    ensures state { unit.new ≡ table.unit_after unit.old (table.answered_last unit.old unit.old.current sequence room) }
    ensures outcome { map_taken plain_up result ≡ table.outcome_of (table.answered_last unit.old unit.old.current sequence room) }
{
    match &mut unit.current {
        Some(command) if sequence == command.sequence && command.unanswered.is_some() => {
            settle(command, room);
            Taken::quietly()
        }
        _ => Taken::ignored(),
    }
}

/// The Data that was not answered is answered: no room, or fewer bytes than were asked for, stop the transfer.
fn settle(command: &mut CurrentCommand, room: u16)
    ensures { IfSome command.old.unanswered (λ load. command.new ≡ table.current_answered command.old load room) }
{
    let asked = usize::from(command.asked);
    let short = command
        .unanswered
        .as_ref()
        .is_some_and(|load| load.len() < asked);
    command.unanswered = None;
    command.again = false;
    command.room = room;
    command.stopped = command.stopped || room == 0 || short;
}
