//! What a good line of a script says.

use memory::Supply;
use script::readable::has_words;
use script::text::TextLine;
use script_rows::actions::action_row;
use script_rows::settings::{Setting, setting_row};
use script_rows::slots::ActionSlot;
use script_rows::words::LineFault;
use std::alloc::Global;
use trace_runs::TraceFault;

/// What a good line of a script says.
#[derive(Drop)]
pub(crate) enum Spoken {
    /// It has no words.
    Nothing,
    /// It sets up.
    Sets(Setting),
    /// It acts.
    Acts,
}

/// What a good line of a script says.
pub(crate) fn said_by<S: Supply>(
    alloc: Global,
    supply: &mut S,
    line: &[u8],
) -> Result<Spoken, TraceFault> {
    if !has_words(line) {
        return Ok(Spoken::Nothing);
    }
    let mut words = Vec::new(alloc);
    TextLine::first(line).words_to(supply, &mut words)?;
    said_in(alloc, supply, words.as_slice())
}

/// What these words of a good line say.
fn said_in<S: Supply>(
    alloc: Global,
    supply: &mut S,
    words: &[&[u8]],
) -> Result<Spoken, TraceFault> {
    let [first, others @ ..] = words else {
        return Ok(Spoken::Nothing);
    };
    match setting_row(alloc, supply, first, others) {
        Ok(Some(setting)) => Ok(Spoken::Sets(setting)),
        Ok(None) | Err(LineFault::Rule(_)) => Ok(Spoken::Acts),
        Err(LineFault::NoMemory) => Err(TraceFault::NoMemory),
    }
}

/// Writes into a slot the action that a line asks for: whether it asks for one.
pub(crate) fn action_of<S: Supply>(
    alloc: Global,
    supply: &mut S,
    line: &[u8],
    slot: &mut ActionSlot,
) -> Result<bool, TraceFault> {
    let mut words = Vec::new(alloc);
    TextLine::first(line).words_to(supply, &mut words)?;
    Ok(is_action(words.as_slice(), slot))
}

/// Whether these words ask for an action, which is written into a slot.
fn is_action(words: &[&[u8]], slot: &mut ActionSlot) -> bool {
    let [first, others @ ..] = words else {
        return false;
    };
    matches!(action_row(slot, first, others), Ok(true))
}
