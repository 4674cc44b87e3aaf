//! The line of a script, read into the event that it asks for.

ghost use Rattle.std.specs.Prelude.{◌≡◌, ◌≤◌, IfOk, Ok, OnErr, length, map, true};
ghost use Rattle.chan_events.specs.Events.{Event as EventValue, event_bytes};
ghost use Rattle.event_lines.specs.EventLines.{event_text};
ghost use Rattle.event_lines.specs.ReadLines as spec;
ghost use Rattle.event_lines.specs.Speakable.{IsSpeakable};
ghost use Rattle.script_rows.specs.Actions.{action_row};

use crate::report_line::report_row;
use chan_events::event::Event;
use memory::Supply;
use script::text::TextLine;
use script_rows::actions::action_row;
use script_rows::slots::{ActionSlot, KeptAction};
use script_rows::words::{LineRule, is_name};
use std::alloc::{AllocError, Global};

/// The words of the first line of a text.
pub fn words_of<'a, S: Supply>(
    alloc: Global,
    supply: &mut S,
    text: &'a [u8],
) -> Result<Vec<&'a [u8]>, AllocError>
    ensures words { IfOk result (λ words. map (λ w. w.now) words.items ≡ spec.words_of text.now) }
    ensures memory { OnErr result (S.refused supply.new ≡ true) }
{
    let mut words = Vec::new(alloc);
    TextLine::first(text).words_to(supply, &mut words)?;
    Ok(words)
}

/// The event that the words of a line of a script ask for, behind its first word.
fn event_of_script(first: &[u8], others: &[&[u8]]) -> Result<Event, LineRule>
    ensures { result ≡ spec.event_of_row (action_row first.now (map (λ w. w.now) others.now)) }
{
    let mut slot = ActionSlot::new();
    if !action_row(&mut slot, first, others)? {
        return Err(LineRule::UnknownWord);
    }
    match &slot.kept {
        KeptAction::Event(event) => Ok(event.own(slot.bytes())),
        KeptAction::Dev(_) | KeptAction::Glance(_) => Err(LineRule::UnknownWord),
    }
}

/// The event that the words of a line ask for.
pub fn event_of(words: &[&[u8]]) -> Result<Event, LineRule>
    ensures { result ≡ spec.event_of_words (map (λ w. w.now) words.now) }
{
    let [first, others @ ..] = words else {
        return Err(LineRule::UnknownWord);
    };
    if is_name(first, b"report") {
        report_row(others)
    } else {
        event_of_script(first, others)
    }
}

/// The line of an event is read back as the event, where a line can ask for it; and it is not long.
pub fn lines_are_read_back()
    ensures back { (e : EventValue) → IsSpeakable e → spec.event_of_words (spec.words_of (event_text e)) ≡ Ok e }
    ensures long { (e : EventValue) → length (event_bytes e) ≤ 256 → length (event_text e) ≤ 590 }
{}
