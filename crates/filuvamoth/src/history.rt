//! The entries that are kept: how many there are, each as text, and that they are let go.

ghost use Rattle.filuvamoth.specs.Calls.{ForgetsAt, LooksAt};
ghost use Rattle.host_machine.specs.Histories as spec;
ghost use Rattle.host_machine.specs.Histories.{TellsEntry};
ghost use Rattle.host_machine.specs.Looks.{Shows};
ghost use Rattle.std.specs.Prelude.{◌≡◌, length, pos, slice_get};

use crate::calls::CLOSED;
use crate::handle::Handle;
use std::alloc::Global;

/// How many entries are kept: each call that was answered, where `fm_start` was asked for all, else the last one at most.
#[unsafe(no_mangle)]
pub extern "C" fn fm_history_count(alloc: Global, handle: &mut Handle, count: &mut u64) -> i32
    ensures { LooksAt (λ machine number. Shows (λ r answered. (answered ≡ pos 0) × (count.new ≡ length r.subsystem.kept)) (count.new ≡ count.old) machine number) (count.new ≡ count.old)
        handle.old.held.inside result handle.new.held.inside }
{
    match handle.take(alloc) {
        None => CLOSED,
        Some(inside) => {
            let number = inside.history_count(count);
            handle.put(inside);
            number
        }
    }
}

/// The line that asks for the event of the entry of this number, from 0, is written into the room, as far as it fits: `written` says
/// how many bytes, of which there are at most 590. `fm_line` reads the event back. It refuses the lines of what calls alone can ask
/// for: bytes that are put and are none, a length that is shown of none or above 64, and an interruption subclass above 7.
#[unsafe(no_mangle)]
pub extern "C" fn fm_history_line(
    alloc: Global,
    handle: &mut Handle,
    index: u64,
    room: &mut [u8],
    written: &mut usize,
) -> i32
    ensures { LooksAt (λ machine number. Shows (λ r answered. TellsEntry spec.line_of (slice_get r.subsystem.kept index) answered written.new room.old room.new)
        ((room.new ≡ room.old) × (written.new ≡ 0)) machine number) ((room.new ≡ room.old) × (written.new ≡ 0)) handle.old.held.inside result handle.new.held.inside }
{
    match handle.take(alloc) {
        None => {
            *written = 0;
            CLOSED
        }
        Some(inside) => {
            let told = inside.history_line(index, room);
            handle.put(inside);
            *written = told.written;
            told.number
        }
    }
}

/// What `fm_line` writes of the reply of the entry of this number, from 0, is written into the room, as far as it fits: `written` says
/// how many bytes, of which there are at most 773.
#[unsafe(no_mangle)]
pub extern "C" fn fm_history_reply(
    alloc: Global,
    handle: &mut Handle,
    index: u64,
    room: &mut [u8],
    written: &mut usize,
) -> i32
    ensures { LooksAt (λ machine number. Shows (λ r answered. TellsEntry spec.reply_of (slice_get r.subsystem.kept index) answered written.new room.old room.new)
        ((room.new ≡ room.old) × (written.new ≡ 0)) machine number) ((room.new ≡ room.old) × (written.new ≡ 0)) handle.old.held.inside result handle.new.held.inside }
{
    match handle.take(alloc) {
        None => {
            *written = 0;
            CLOSED
        }
        Some(inside) => {
            let told = inside.history_reply(index, room);
            handle.put(inside);
            *written = told.written;
            told.number
        }
    }
}

/// Lets go the entries that are kept; what the machine is stays.
#[unsafe(no_mangle)]
pub extern "C" fn fm_forget(alloc: Global, handle: &mut Handle) -> i32
    ensures { ForgetsAt handle.old.held.inside result handle.new.held.inside }
{
    match handle.take(alloc) {
        None => CLOSED,
        Some(mut inside) => {
            let number = inside.forget();
            handle.put(inside);
            number
        }
    }
}
