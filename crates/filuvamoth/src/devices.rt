//! Turns of subchannels and units, and the devices, which are the host's: what a device is asked for is told, and what it answered is
//! handed in.

ghost use Rattle.filuvamoth.specs.Calls.{HandsIn, LooksAt, TurnsSubchannelAt, TurnsUnitAt};
ghost use Rattle.host_machine.specs.Looks.{Shows};
ghost use Rattle.host_machine.specs.Works as works;
ghost use Rattle.machine_model.specs.State.{unit_turn_of};
ghost use Rattle.std.specs.Prelude.{◌≡◌};

use crate::calls::{CLOSED, perform};
use crate::handle::Handle;
use host_machine::answers::BAD_ARGUMENT;
use host_machine::works::{HostAnswer, HostWork, report_event};
use std::alloc::Global;

/// A turn of a subchannel: on the first of its paths where that is due it takes the signal that waits, or the subsystem does what it
/// must for it: 1. 0 where nothing is due.
#[unsafe(no_mangle)]
pub extern "C" fn fm_turn_subchannel(
    alloc: Global,
    handle: &mut Handle,
    bytes: &mut [u8],
    keys: &mut [u8],
    subchannel: u32,
) -> i32
    ensures { TurnsSubchannelAt handle.old.held.inside bytes.old keys.old subchannel result handle.new.held.inside bytes.new keys.new }
{
    match handle.take(alloc) {
        None => CLOSED,
        Some(mut inside) => {
            let number = inside.turn_subchannel(bytes, keys, subchannel);
            handle.put(inside);
            number
        }
    }
}

/// A turn of a unit: it takes the signal that waits for it, or hands in a report that its device is not needed for: 1. 2 where its
/// device is to be called, 0 where nothing is due.
#[unsafe(no_mangle)]
pub extern "C" fn fm_turn_unit(
    alloc: Global,
    handle: &mut Handle,
    bytes: &mut [u8],
    keys: &mut [u8],
    unit: u32,
) -> i32
    ensures { TurnsUnitAt handle.old.held.inside bytes.old keys.old «unit» result handle.new.held.inside bytes.new keys.new }
{
    match handle.take(alloc) {
        None => CLOSED,
        Some(mut inside) => {
            let number = inside.turn_unit(bytes, keys, unit);
            handle.put(inside);
            number
        }
    }
}

/// What a unit is to do: 0 nothing, 1 its device is called with this work, 2 a signal waits for it, 3 it has a report that its device is
/// not needed for, 4 its program is away and may ask for the path `from_path`, 5 for none. The bytes that are to be absorbed are
/// written into the room, as far as they fit: 256 are enough. It is no event.
#[unsafe(no_mangle)]
pub extern "C" fn fm_work(
    alloc: Global,
    handle: &mut Handle,
    unit: u32,
    work: &mut HostWork,
    room: &mut [u8],
) -> i32
    ensures { LooksAt (λ machine number. Shows (λ r answered. works.Asks (unit_turn_of r.subsystem.machine «unit») answered work.new room.old room.new)
        ((work.new ≡ work.old) × (room.new ≡ room.old)) machine number) ((work.new ≡ work.old) × (room.new ≡ room.old)) handle.old.held.inside result handle.new.held.inside }
{
    match handle.take(alloc) {
        None => CLOSED,
        Some(inside) => {
            let number = inside.work(unit, work, room);
            handle.put(inside);
            number
        }
    }
}

/// What the device of a unit answered to a work, which is handed back as it was told. Bytes are those that are supplied, at most 256.
/// An answer that the law of devices does not allow, or to a work that is no longer at hand, is refused and changes nothing.
#[unsafe(no_mangle)]
pub extern "C" fn fm_report(
    alloc: Global,
    handle: &mut Handle,
    bytes: &mut [u8],
    keys: &mut [u8],
    unit: u32,
    work: &HostWork,
    answer: &HostAnswer,
    supplied: &[u8],
) -> i32
    ensures { HandsIn (works.report_event «unit» work.now answer.now supplied.now) handle.old.held.inside bytes.old keys.old result handle.new.held.inside bytes.new keys.new }
{
    match report_event(unit, work, answer, supplied) {
        None => BAD_ARGUMENT,
        Some(event) => perform(alloc, handle, bytes, keys, &event),
    }
}
