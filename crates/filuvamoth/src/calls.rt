//! What is done to the machine behind a handle.

ghost use Rattle.chan_events.specs.declared.event.Event.TheVariants as event_spec;
ghost use Rattle.filuvamoth.specs.Calls.{ExecutesAt, GivesAt, GivesOtherAt, PerformsAt, SetsUpAt};
ghost use Rattle.host_machine.specs.Given as given_spec;

use crate::handle::Handle;
use chan_events::event::{Event, Instruction, OtherInstruction};
use chan_model::names::Cpu;
use host_machine::answers::BAD_ARGUMENT;
use host_machine::setting_up::HostSetting;
use io_step::{ByValue, OtherByValue};
use std::alloc::Global;

/// The handle is closed.
pub const CLOSED: i32 = -2;

/// The handle is open already.
pub const ALREADY_OPEN: i32 = -3;

/// An event on the storage that is lent.
pub fn perform(
    alloc: Global,
    handle: &mut Handle,
    bytes: &mut [u8],
    keys: &mut [u8],
    event: &Event,
) -> i32
    ensures { PerformsAt handle.old.held.inside bytes.old keys.old event.now result handle.new.held.inside bytes.new keys.new }
{
    match handle.take(alloc) {
        None => CLOSED,
        Some(mut inside) => {
            let number = inside.perform(bytes, keys, event);
            handle.put(inside);
            number
        }
    }
}

/// A CPU executes an instruction on a subchannel.
pub fn execute(
    alloc: Global,
    handle: &mut Handle,
    bytes: &mut [u8],
    keys: &mut [u8],
    cpu: u32,
    instruction: Instruction,
) -> i32
    ensures { ExecutesAt handle.old.held.inside bytes.old keys.old cpu (event_spec.Execute cpu instruction) result handle.new.held.inside bytes.new keys.new }
{
    match Cpu::new(cpu) {
        None => BAD_ARGUMENT,
        Some(cpu) => perform(
            alloc,
            handle,
            bytes,
            keys,
            &Event::Execute { cpu, instruction },
        ),
    }
}

/// A CPU executes an instruction that names no subchannel.
pub fn execute_other(
    alloc: Global,
    handle: &mut Handle,
    bytes: &mut [u8],
    keys: &mut [u8],
    cpu: u32,
    instruction: OtherInstruction,
) -> i32
    ensures { ExecutesAt handle.old.held.inside bytes.old keys.old cpu (event_spec.ExecuteOther cpu instruction) result handle.new.held.inside bytes.new keys.new }
{
    match Cpu::new(cpu) {
        None => BAD_ARGUMENT,
        Some(cpu) => perform(
            alloc,
            handle,
            bytes,
            keys,
            &Event::ExecuteOther { cpu, instruction },
        ),
    }
}

/// A setting.
pub fn set_up(alloc: Global, handle: &mut Handle, setting: &HostSetting<'_>) -> i32
    ensures { SetsUpAt handle.old.held.inside setting.now result handle.new.held.inside }
{
    match handle.take(alloc) {
        None => CLOSED,
        Some(mut inside) => {
            let number = inside.set_up(setting);
            handle.put(inside);
            number
        }
    }
}

/// An instruction on a subchannel with its operand by value.
pub fn give(
    alloc: Global,
    handle: &mut Handle,
    cpu: Cpu,
    subchannel: u32,
    instruction: &ByValue,
    room: &mut [u8],
) -> i32
    ensures { GivesAt handle.old.held.inside cpu subchannel instruction.now result handle.new.held.inside room.old room.new }
{
    match handle.take(alloc) {
        None => CLOSED,
        Some(mut inside) => {
            let number = inside.give(cpu, subchannel, instruction, room);
            handle.put(inside);
            number
        }
    }
}

/// An instruction that names no subchannel, whose words are told.
pub fn give_words(
    alloc: Global,
    handle: &mut Handle,
    cpu: Cpu,
    instruction: OtherByValue,
    room: &mut [u32],
) -> i32
    ensures { GivesOtherAt given_spec.words_told handle.old.held.inside cpu instruction result handle.new.held.inside room.old room.new }
{
    match handle.take(alloc) {
        None => CLOSED,
        Some(mut inside) => {
            let number = inside.give_words(cpu, instruction, room);
            handle.put(inside);
            number
        }
    }
}

/// An instruction that names no subchannel, whose bytes are told.
pub fn give_bytes(
    alloc: Global,
    handle: &mut Handle,
    cpu: Cpu,
    instruction: OtherByValue,
    room: &mut [u8],
) -> i32
    ensures { GivesOtherAt given_spec.bytes_told handle.old.held.inside cpu instruction result handle.new.held.inside room.old room.new }
{
    match handle.take(alloc) {
        None => CLOSED,
        Some(mut inside) => {
            let number = inside.give_bytes(cpu, instruction, room);
            handle.put(inside);
            number
        }
    }
}
