//! What the subsystem, its units and its channel paths do: one event each, or a refusal that changes nothing.

ghost use Rattle.chan_events.specs.declared.event.Event.TheVariants as event_spec;
ghost use Rattle.chan_events.specs.declared.event.UnitAct.TheVariants as act_spec;
ghost use Rattle.filuvamoth.specs.Calls.{ExecutesAt, HandsIn, PerformsAt};
ghost use Rattle.filuvamoth.specs.Events as spec;
ghost use Rattle.event_lines.specs.Sides.{side_numbered};

use crate::calls::perform;
use crate::handle::Handle;
use chan_events::event::{Event, UnitAct};
use chan_model::chunk::Chunk;
use chan_model::names::Cpu;
use event_lines::side_numbers::side_numbered;
use host_machine::answers::BAD_ARGUMENT;
use std::alloc::Global;
use storage_keys::key::Key;

/// The subsystem does what it must for a subchannel: 0 nothing was due, 1 a program was offered, 2 a Reset was sent, 3 a Halt was
/// sent, 4 status was made pending.
#[unsafe(no_mangle)]
pub extern "C" fn fm_choose(
    alloc: Global,
    handle: &mut Handle,
    bytes: &mut [u8],
    keys: &mut [u8],
    subchannel: u32,
) -> i32
    ensures { PerformsAt handle.old.held.inside bytes.old keys.old (event_spec.Choose subchannel) result handle.new.held.inside bytes.new keys.new }
{
    let event = Event::Choose { subchannel };
    perform(alloc, handle, bytes, keys, &event)
}

/// A subchannel takes the signal that waits longest on the wire up of a path, by the index of that: 1 where it was taken.
#[unsafe(no_mangle)]
pub extern "C" fn fm_up(
    alloc: Global,
    handle: &mut Handle,
    bytes: &mut [u8],
    keys: &mut [u8],
    subchannel: u32,
    path: u32,
) -> i32
    ensures { PerformsAt handle.old.held.inside bytes.old keys.old (event_spec.Up subchannel path) result handle.new.held.inside bytes.new keys.new }
{
    let event = Event::Up { subchannel, path };
    perform(alloc, handle, bytes, keys, &event)
}

/// A unit takes the signal that waits longest on the wire down of a path of a subchannel: 1 where it was taken.
#[unsafe(no_mangle)]
pub extern "C" fn fm_down(
    alloc: Global,
    handle: &mut Handle,
    bytes: &mut [u8],
    keys: &mut [u8],
    subchannel: u32,
    path: u32,
) -> i32
    ensures { PerformsAt handle.old.held.inside bytes.old keys.old (event_spec.Down subchannel path) result handle.new.held.inside bytes.new keys.new }
{
    let event = Event::Down { subchannel, path };
    perform(alloc, handle, bytes, keys, &event)
}

/// The program that is connected leaves its path and works on.
#[unsafe(no_mangle)]
pub extern "C" fn fm_unit_leave(
    alloc: Global,
    handle: &mut Handle,
    bytes: &mut [u8],
    keys: &mut [u8],
    unit: u32,
) -> i32
    ensures { PerformsAt handle.old.held.inside bytes.old keys.old (event_spec.Act «unit» act_spec.Leave) result handle.new.held.inside bytes.new keys.new }
{
    let event = Event::Act {
        unit,
        act: UnitAct::Leave,
    };
    perform(alloc, handle, bytes, keys, &event)
}

/// The program that is without a path asks for one, by its index.
#[unsafe(no_mangle)]
pub extern "C" fn fm_unit_ask(
    alloc: Global,
    handle: &mut Handle,
    bytes: &mut [u8],
    keys: &mut [u8],
    unit: u32,
    path: u32,
) -> i32
    ensures { PerformsAt handle.old.held.inside bytes.old keys.old (event_spec.Act «unit» (act_spec.Ask path)) result handle.new.held.inside bytes.new keys.new }
{
    let event = Event::Act {
        unit,
        act: UnitAct::Ask { path },
    };
    perform(alloc, handle, bytes, keys, &event)
}

/// A unit is restarted.
#[unsafe(no_mangle)]
pub extern "C" fn fm_unit_restart(
    alloc: Global,
    handle: &mut Handle,
    bytes: &mut [u8],
    keys: &mut [u8],
    unit: u32,
) -> i32
    ensures { PerformsAt handle.old.held.inside bytes.old keys.old (event_spec.Restart «unit») result handle.new.held.inside bytes.new keys.new }
{
    let event = Event::Restart { unit };
    perform(alloc, handle, bytes, keys, &event)
}

/// A channel path goes down, by its identifier.
#[unsafe(no_mangle)]
pub extern "C" fn fm_path_down(
    alloc: Global,
    handle: &mut Handle,
    bytes: &mut [u8],
    keys: &mut [u8],
    chpid: u32,
) -> i32
    ensures { PerformsAt handle.old.held.inside bytes.old keys.old (event_spec.PathDown chpid) result handle.new.held.inside bytes.new keys.new }
{
    let event = Event::PathDown { chpid };
    perform(alloc, handle, bytes, keys, &event)
}

/// A channel path that was down comes up.
#[unsafe(no_mangle)]
pub extern "C" fn fm_path_up(
    alloc: Global,
    handle: &mut Handle,
    bytes: &mut [u8],
    keys: &mut [u8],
    chpid: u32,
) -> i32
    ensures { PerformsAt handle.old.held.inside bytes.old keys.old (event_spec.PathUp chpid) result handle.new.held.inside bytes.new keys.new }
{
    let event = Event::PathUp { chpid };
    perform(alloc, handle, bytes, keys, &event)
}

/// A channel path whose reset was asked for is reset.
#[unsafe(no_mangle)]
pub extern "C" fn fm_path_reset(
    alloc: Global,
    handle: &mut Handle,
    bytes: &mut [u8],
    keys: &mut [u8],
    chpid: u32,
) -> i32
    ensures { PerformsAt handle.old.held.inside bytes.old keys.old (event_spec.PathReset chpid) result handle.new.held.inside bytes.new keys.new }
{
    let event = Event::PathReset { chpid };
    perform(alloc, handle, bytes, keys, &event)
}

/// The channel subsystem is reset.
#[unsafe(no_mangle)]
pub extern "C" fn fm_system_reset(
    alloc: Global,
    handle: &mut Handle,
    bytes: &mut [u8],
    keys: &mut [u8],
) -> i32
    ensures { PerformsAt handle.old.held.inside bytes.old keys.old (event_spec.SystemReset) result handle.new.held.inside bytes.new keys.new }
{
    let event = Event::SystemReset;
    perform(alloc, handle, bytes, keys, &event)
}

/// A unit that no program holds asks a side for attention, on a path of it by index. Sides are 0 and 1.
#[unsafe(no_mangle)]
pub extern "C" fn fm_unit_attention(
    alloc: Global,
    handle: &mut Handle,
    bytes: &mut [u8],
    keys: &mut [u8],
    unit: u32,
    path: u32,
    side: u32,
) -> i32
    ensures { HandsIn (spec.act_of «unit» (spec.attention path) (side_numbered side)) handle.old.held.inside bytes.old keys.old result handle.new.held.inside bytes.new keys.new }
{
    match side_numbered(side) {
        None => BAD_ARGUMENT,
        Some(side) => {
            let act = UnitAct::Attention { path, side };
            perform(alloc, handle, bytes, keys, &Event::Act { unit, act })
        }
    }
}

/// A side that was not reset since the unit was restarted last is told so, on a path of it by index. Sides are 0 and 1.
#[unsafe(no_mangle)]
pub extern "C" fn fm_unit_notice(
    alloc: Global,
    handle: &mut Handle,
    bytes: &mut [u8],
    keys: &mut [u8],
    unit: u32,
    path: u32,
    side: u32,
) -> i32
    ensures { HandsIn (spec.act_of «unit» (spec.notice path) (side_numbered side)) handle.old.held.inside bytes.old keys.old result handle.new.held.inside bytes.new keys.new }
{
    match side_numbered(side) {
        None => BAD_ARGUMENT,
        Some(side) => {
            let act = UnitAct::Notice { path, side };
            perform(alloc, handle, bytes, keys, &Event::Act { unit, act })
        }
    }
}

/// At most 256 bytes are put into storage at an absolute address: what a CPU stored, as an event of the history.
#[unsafe(no_mangle)]
pub extern "C" fn fm_put(
    alloc: Global,
    handle: &mut Handle,
    bytes: &mut [u8],
    keys: &mut [u8],
    address: u32,
    stored: &[u8],
) -> i32
    ensures { HandsIn (spec.put_of address stored.now) handle.old.held.inside bytes.old keys.old result handle.new.held.inside bytes.new keys.new }
{
    if stored.len() > 256 {
        return BAD_ARGUMENT;
    }
    let bytes_put = Chunk::of(stored);
    let event = Event::Put {
        address,
        bytes: bytes_put,
    };
    perform(alloc, handle, bytes, keys, &event)
}

/// The key of the block in which an absolute address lies is set, 0 to 255: bits 0 to 3 the access-control bits, 4 fetch protection, 5
/// reference, 6 change; bit 7 is ignored.
#[unsafe(no_mangle)]
pub extern "C" fn fm_set_key(
    alloc: Global,
    handle: &mut Handle,
    bytes: &mut [u8],
    keys: &mut [u8],
    address: u32,
    key: u32,
) -> i32
    ensures { HandsIn (spec.key_of address key) handle.old.held.inside bytes.old keys.old result handle.new.held.inside bytes.new keys.new }
{
    if key > 0xFF {
        return BAD_ARGUMENT;
    }
    let event = Event::SetKey {
        address,
        key: Key::of_byte(key as u8),
    };
    perform(alloc, handle, bytes, keys, &event)
}

/// The prefix of a CPU is set: the absolute address of an area of 8,192 bytes, on a boundary of as many.
#[unsafe(no_mangle)]
pub extern "C" fn fm_set_prefix(
    alloc: Global,
    handle: &mut Handle,
    bytes: &mut [u8],
    keys: &mut [u8],
    cpu: u32,
    address: u32,
) -> i32
    ensures { ExecutesAt handle.old.held.inside bytes.old keys.old cpu (event_spec.SetPrefix cpu address) result handle.new.held.inside bytes.new keys.new }
{
    match Cpu::new(cpu) {
        None => BAD_ARGUMENT,
        Some(cpu) => {
            let event = Event::SetPrefix { cpu, address };
            perform(alloc, handle, bytes, keys, &event)
        }
    }
}
