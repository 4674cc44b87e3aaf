//! What changed at a unit, each in a line of its own.

use crate::facts::arrow;
use record_text::fields::put_named;
use record_text::names::unit_kind;
use record_text::told::{put_attention_taken, put_command_at_hand, put_device_act, put_owner};
use step_records::parties::Parties;
use step_records::record::{CommandAtHand, DeviceAct, Fact, Owner};
use step_records::style::Drawing;
use streams::Sink;

/// A fact of a unit; nothing where a command is at hand no more, of which the device tells.
pub(crate) fn put_unit_fact<S: Sink>(
    sink: &mut S,
    parties: &Parties,
    drawing: Drawing,
    fact: &Fact,
) -> bool {
    match fact {
        Fact::Owner {
            unit,
            before,
            after,
        } => put_unit(sink, *unit) && put_owners(sink, parties, drawing, before, after),
        Fact::Command {
            unit,
            after: Some(command),
            ..
        } => put_unit(sink, *unit) && put_works(sink, parties, *unit, *command),
        Fact::AttentionTaken { unit, attention } => {
            put_unit(sink, *unit)
                && sink.put(b"knows that ")
                && put_attention_taken(sink, *attention)
                && sink.put(b"\n")
        }
        Fact::Device { unit, act } => put_unit(sink, *unit) && put_act(sink, act),
        _ => true,
    }
}

/// The unit of which a line tells.
fn put_unit<S: Sink>(sink: &mut S, unit: usize) -> bool {
    put_named(sink, b"    unit ", unit as u64) && sink.put(b"  ")
}

/// Whom a unit is held by, before and after.
fn put_owners<S: Sink>(
    sink: &mut S,
    parties: &Parties,
    drawing: Drawing,
    before: &Owner,
    after: &Owner,
) -> bool {
    put_owner(sink, parties, before)
        && sink.put(arrow(drawing))
        && put_owner(sink, parties, after)
        && sink.put(b"\n")
}

/// A command that came to hand.
fn put_works<S: Sink>(
    sink: &mut S,
    parties: &Parties,
    unit: usize,
    command: CommandAtHand,
) -> bool {
    sink.put(b"works on ")
        && put_command_at_hand(sink, unit_kind(parties, unit), command)
        && sink.put(b"\n")
}

fn put_act<S: Sink>(sink: &mut S, act: &DeviceAct) -> bool {
    sink.put(b"the device ") && put_device_act(sink, act) && sink.put(b"\n")
}
