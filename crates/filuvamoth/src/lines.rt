//! Lines of a script.

ghost use Rattle.filuvamoth.specs.Calls.{LineAt};

use crate::calls::CLOSED;
use crate::handle::Handle;
use std::alloc::Global;

/// Performs the first line of a text, which is one of a script that asks for an event, and writes what a script's run prints of it
/// behind the number of its line, as far as there is room: `written` says how many bytes. The number of the event's answer, or
/// -768 less the number of the rule that the line breaks. Where there is no memory for the words of the line nothing is done.
#[unsafe(no_mangle)]
pub extern "C" fn fm_line(
    alloc: Global,
    handle: &mut Handle,
    bytes: &mut [u8],
    keys: &mut [u8],
    line: &[u8],
    room: &mut [u8],
    written: &mut usize,
) -> i32
    ensures { LineAt line.now handle.old.held.inside bytes.old keys.old room.old result written.new handle.new.held.inside bytes.new keys.new room.new }
{
    match handle.take(alloc) {
        None => {
            *written = 0;
            CLOSED
        }
        Some(mut inside) => {
            let told = inside.perform_line(alloc, bytes, keys, line, room);
            handle.put(inside);
            *written = told.written;
            told.number
        }
    }
}
