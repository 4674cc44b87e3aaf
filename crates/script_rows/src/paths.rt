//! The lines of channel paths, and of the reset of the channel subsystem.

ghost use Rattle.std.specs.Prelude.{◌≡◌, map};
ghost use Rattle.script_rows.specs.Words.{row_of};
ghost use Rattle.script_rows.specs.Actions as spec;
ghost use Rattle.script_rows.specs.Slots.{action_at, rows_at};

use crate::slots::{ActionSlot, KeptAction};
use crate::words::{LineRule, is_name, only_number};
use chan_events::event::Event;

/// The lines of channel paths, and of the reset of the channel subsystem.
pub fn path_row(slot: &mut ActionSlot, word: &[u8], words: &[&[u8]]) -> Result<bool, LineRule>
    ensures { rows_at result (action_at slot.new) ≡ row_of spec.path_rows word.now (map (λ w. w.now) words.now) }
{
    if is_name(word, b"pathdown".as_slice()) {
        let chpid = only_number(words)?;
        slot.kept = KeptAction::Event(Event::PathDown { chpid });
    } else if is_name(word, b"pathup".as_slice()) {
        let chpid = only_number(words)?;
        slot.kept = KeptAction::Event(Event::PathUp { chpid });
    } else if is_name(word, b"pathreset".as_slice()) {
        let chpid = only_number(words)?;
        slot.kept = KeptAction::Event(Event::PathReset { chpid });
    } else if is_name(word, b"sysreset".as_slice()) {
        match words {
            [] => slot.kept = KeptAction::Event(Event::SystemReset),
            [_, ..] => return Err(LineRule::WrongCount),
        }
    } else {
        return Ok(false);
    }
    Ok(true)
}
