//! The texts in the lane of the units.

use crate::layout::{Layout, names_subchannels, names_units};
use crate::names::unit_of;
use record_text::names::put_subchannel;
use record_text::number::put_hexadecimal;
use record_text::short::put_short;
use record_text::told::{put_attention_taken, put_place};
use step_records::parties::Parties;
use step_records::record::{Fact, Holder, Owner};
use streams::Sink;

/// The text of a fact in the lane.
pub fn put_unit_text<S: Sink>(sink: &mut S, layout: &Layout<'_>, fact: &Fact) -> bool {
    let parties = &layout.trace.parties;
    let Some(unit) = unit_in(parties, fact) else {
        return true;
    };
    put_whose(sink, parties, unit) && put_change(sink, parties, fact)
}

/// The unit that a fact is about.
fn unit_in(parties: &Parties, fact: &Fact) -> Option<usize> {
    match fact {
        Fact::Signal { wire, .. } => Some(unit_of(parties, wire.subchannel)),
        Fact::Owner { unit, .. }
        | Fact::Command { unit, .. }
        | Fact::AttentionTaken { unit, .. }
        | Fact::Device { unit, .. } => Some(*unit),
        _ => None,
    }
}

/// The unit, where there are several.
fn put_whose<S: Sink>(sink: &mut S, parties: &Parties, unit: usize) -> bool {
    if names_units(parties) {
        put_hexadecimal(sink, unit as u64) && sink.put(b": ")
    } else {
        true
    }
}

/// What changed at a unit.
fn put_change<S: Sink>(sink: &mut S, parties: &Parties, fact: &Fact) -> bool {
    match fact {
        Fact::Signal { .. } => sink.put(b"ignores it"),
        Fact::Owner { before, after, .. } => put_owner(sink, parties, *before, *after),
        Fact::AttentionTaken { attention, .. } => {
            sink.put(b"knows that ") && put_attention_taken(sink, *attention)
        }
        other => put_short(sink, parties, other),
    }
}

/// Whom a unit is held by now.
fn put_owner<S: Sink>(sink: &mut S, parties: &Parties, before: Owner, after: Owner) -> bool {
    let is_raised = before.floor != after.floor;
    let is_same = !is_raised && is_same_holder(before.holder, after.holder);
    match after.holder {
        None => sink.put(b"idle") && (!is_raised || put_floor(sink, after.floor)),
        Some(holder) if is_same => put_place(sink, holder.place),
        Some(holder) => put_holder(sink, parties, holder) && put_floor(sink, after.floor),
    }
}

/// Whether a unit is held by the same program.
fn is_same_holder(before: Option<Holder>, after: Option<Holder>) -> bool {
    match (before, after) {
        (Some(old), Some(new)) => old.number == new.number && old.subchannel == new.subchannel,
        _ => false,
    }
}

/// The program that a unit is held by.
fn put_holder<S: Sink>(sink: &mut S, parties: &Parties, holder: Holder) -> bool {
    if !(sink.put(b"held by ") && put_hexadecimal(sink, holder.number)) {
        return false;
    }
    !names_subchannels(parties)
        || (sink.put(b" of ") && put_subchannel(sink, parties, holder.subchannel))
}

/// The greatest number that a unit took.
fn put_floor<S: Sink>(sink: &mut S, floor: u64) -> bool {
    sink.put(b"; floor ") && put_hexadecimal(sink, floor)
}
