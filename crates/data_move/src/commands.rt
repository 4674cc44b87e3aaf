//! How a command begins.

ghost use Rattle.std.specs.Prelude.{◌≡◌, ◌<◌, ◌≤◌, ◌^◌};
ghost use Rattle.chan_model.specs.UnitReports.{is_outward as is_outward_code};
ghost use Rattle.data_move.specs.Commands as spec;

use crate::moving::Move;
use crate::transfer::{Beginning, CommandStart, Transfer, WithRoom};
use ccw_codec::command::class;
use ccw_codec::{Ccw, Class};
use ccw_walk::Walk;
use ccw_walk::check::Check;
use ccw_walk::program::{Advance, Ended};
use idaw::ListKind;
use storage_keys::MainStorage;

/// Whether a command moves bytes to the device.
pub fn is_outward(code: u8) -> bool
    ensures { result ≡ is_outward_code code }
{
    code % 2 == 1
}

fn is_skipped(code: u8, ccw: Ccw) -> bool
    ensures { result ≡ spec.is_skipped code ccw }
{
    ccw.skip && !is_outward(code)
}

pub(crate) fn data_of(walk: &Walk, code: u8, ccw: Ccw) -> Move
    ensures { result ≡ spec.data_of walk.now code ccw }
{
    Move::begin(ListKind::of(&walk.orb()), ccw, is_skipped(code, ccw))
}

/// The command of this number, whose block took control as the program came to where it stands.
pub fn command_of(walk: Walk, command: u64, ccw: Ccw) -> Transfer
    ensures { result ≡ spec.transfer_of walk command ccw }
{
    Transfer {
        command,
        code: ccw.command,
        walk,
        moving: data_of(&walk, ccw.command, ccw),
        pci_pending: ccw.program_controlled,
        sequence: 0,
        offered: 0,
        stopped: false,
        fault: None,
        ended: false,
        unchained: false,
    }
}

fn begins(walk: Walk, command: u64, advance: Option<Advance>) -> CommandStart
    ensures { result ≡ spec.command_begins walk command advance }
{
    match advance {
        Some(Advance::Takes(ccw)) => CommandStart::Begins(command_of(walk, command, ccw)),
        Some(Advance::Suspends) => CommandStart::Suspends,
        Some(Advance::Stops(check)) => CommandStart::Stops(check),
        None => CommandStart::Stops(Check::Program),
    }
}

fn goes_to<M: MainStorage>(storage: &M, command: u64, walk: Walk) -> Beginning
    ensures { result ≡ spec.goes_to (M.contents storage.now) command walk }
{
    let mut walk = walk;
    let advance = walk.advance(storage);
    Beginning {
        walk,
        outcome: begins(walk, command, advance),
    }
}

/// The first command of a program from where it stands: at its beginning, or where it was suspended.
pub fn first_command<M: MainStorage>(storage: &M, walk: Walk) -> Beginning
    ensures { result ≡ spec.first_command (M.contents storage.now) walk }
{
    goes_to(storage, 1, walk)
}

/// The command that is chained to one that ended, with status modifier or without.
pub fn next_command<M: MainStorage>(storage: &M, transfer: &Transfer, modifier: bool) -> Beginning
    requires { transfer.now.command < 2 ^ 63 }
    ensures { result ≡ spec.next_command (M.contents storage.now) transfer.now modifier }
{
    let mut walk = transfer.walk;
    walk.device_end(Ended {
        goes_on: true,
        modifier,
    });
    goes_to(storage, transfer.command + 1, walk)
}

/// The next word of an indirect list is fetched where it is needed.
pub(crate) fn locate<M: MainStorage>(storage: &M, transfer: &mut Transfer)
    ensures { transfer.new ≡ spec.located_transfer (M.contents storage.now) transfer.old }
{
    if transfer.fault.is_some() {
        return;
    }
    let key = transfer.walk.orb().key;
    if let Err(check) = transfer.moving.locate(storage, key) {
        transfer.fault = Some(check);
    }
}

pub(crate) fn has_stopped(transfer: &Transfer) -> bool
    ensures { result ≡ spec.has_stopped transfer.now }
{
    transfer.stopped || transfer.fault.is_some()
}

fn room_of(transfer: &Transfer) -> u16
    ensures { result ≡ spec.room_of_transfer transfer.now }
{
    if has_stopped(transfer) {
        0
    } else {
        transfer.moving.room()
    }
}

/// The room for the next chunk of a transfer, which finds the place for it.
pub fn find_room<M: MainStorage>(storage: &M, transfer: &mut Transfer) -> u16
    ensures { record { transfer = transfer.new; room = result } ≡ spec.with_room (M.contents storage.now) transfer.old }
{
    locate(storage, transfer);
    room_of(transfer)
}

/// A transfer with the room for its next chunk.
pub fn with_room<M: MainStorage>(storage: &M, transfer: &Transfer) -> WithRoom
    ensures { result ≡ spec.with_room (M.contents storage.now) transfer.now }
{
    let mut next = *transfer;
    let room = find_room(storage, &mut next);
    WithRoom {
        transfer: next,
        room,
    }
}

fn brings(class: Class) -> bool
    ensures { result ≡ spec.brings class }
{
    matches!(class, Class::Read | Class::Sense)
}

/// The room that the device of a command is told of, which is begun.
pub fn room_to_tell<M: MainStorage>(storage: &M, transfer: &mut Transfer) -> u16
    ensures { record { transfer = transfer.new; room = result } ≡ spec.begun_with_room (M.contents storage.now) transfer.old }
{
    if brings(class(transfer.code)) {
        find_room(storage, transfer)
    } else {
        0
    }
}

/// A command that is begun, with the room that its device is told of.
pub fn begun_with_room<M: MainStorage>(storage: &M, transfer: &Transfer) -> WithRoom
    ensures { result ≡ spec.begun_with_room (M.contents storage.now) transfer.now }
{
    let mut next = *transfer;
    let room = room_to_tell(storage, &mut next);
    WithRoom {
        transfer: next,
        room,
    }
}
