//! The lines of what units do of themselves.

ghost use Rattle.std.specs.Prelude.{◌≡◌, map};
ghost use Rattle.script_rows.specs.Words.{row_of};
ghost use Rattle.script_rows.specs.Actions as spec;
ghost use Rattle.script_rows.specs.Slots.{action_at, rows_at};

use crate::slots::{ActionSlot, KeptAction};
use crate::words::{LineRule, is_name, number, number_up_to, only_number, two};
use chan_events::event::{Event, UnitAct};
use chan_model::names::Side;

fn side_named(word: &[u8]) -> Option<Side>
    ensures { result ≡ spec.side_named word.now }
{
    let side = number_up_to(1, word)?;
    if side == 0 {
        Some(Side::First)
    } else {
        Some(Side::Second)
    }
}

/// A unit, a path and a side, which is the first where none is named.
fn unit_at_side(words: &[&[u8]]) -> Result<(u32, u32, Side), LineRule>
    ensures { result ≡ spec.unit_at_side (map (λ w. w.now) words.now) }
{
    match words {
        [unit, path] => {
            let unit = number(unit).ok_or(LineRule::BadWord)?;
            let path = number(path).ok_or(LineRule::BadWord)?;
            Ok((unit, path, Side::First))
        }
        [unit, path, side] => {
            let unit = number(unit).ok_or(LineRule::BadWord)?;
            let path = number(path).ok_or(LineRule::BadWord)?;
            let side = side_named(side).ok_or(LineRule::BadWord)?;
            Ok((unit, path, side))
        }
        _ => Err(LineRule::WrongCount),
    }
}

/// The lines of what units do of themselves.
pub fn act_row(slot: &mut ActionSlot, word: &[u8], words: &[&[u8]]) -> Result<bool, LineRule>
    ensures { rows_at result (action_at slot.new) ≡ row_of spec.act_rows word.now (map (λ w. w.now) words.now) }
{
    let (unit, act) = if is_name(word, b"leave".as_slice()) {
        (only_number(words)?, UnitAct::Leave)
    } else if is_name(word, b"ask".as_slice()) {
        let (unit, path) = two(words).ok_or(LineRule::WrongCount)?;
        let unit = number(unit).ok_or(LineRule::BadWord)?;
        let path = number(path).ok_or(LineRule::BadWord)?;
        (unit, UnitAct::Ask { path })
    } else if is_name(word, b"attn".as_slice()) {
        let (unit, path, side) = unit_at_side(words)?;
        (unit, UnitAct::Attention { path, side })
    } else if is_name(word, b"notice".as_slice()) {
        let (unit, path, side) = unit_at_side(words)?;
        (unit, UnitAct::Notice { path, side })
    } else if is_name(word, b"restart".as_slice()) {
        let unit = only_number(words)?;
        slot.kept = KeptAction::Event(Event::Restart { unit });
        return Ok(true);
    } else {
        return Ok(false);
    };
    slot.kept = KeptAction::Event(Event::Act { unit, act });
    Ok(true)
}
