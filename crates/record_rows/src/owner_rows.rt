//! The rows of the owner of a unit.

use crate::Place;
use crate::rows::put_change;
use record_text::fields::put_named;
use record_text::names::put_subchannel;
use record_text::number::put_hexadecimal;
use step_records::parties::Parties;
use step_records::record::{Holder, Owner, Place as At};
use streams::Sink;

/// The owner of a unit changed: a row for each of owner, place and floor that did.
pub(crate) fn put_owner<S: Sink>(
    sink: &mut S,
    place: &Place<'_>,
    unit: usize,
    before: &Owner,
    after: &Owner,
) -> bool {
    put_holders(sink, place, unit, &before.holder, &after.holder)
        && (before.floor == after.floor || put_floor(sink, place, unit, before.floor, after.floor))
}

/// The greatest number that was taken.
fn put_floor<S: Sink>(
    sink: &mut S,
    place: &Place<'_>,
    unit: usize,
    before: u64,
    after: u64,
) -> bool {
    put_change(sink, place, unit, b"floor")
        && put_hexadecimal(sink, before)
        && put_named(sink, b" > ", after)
        && sink.put(b"\n")
}

/// The program that holds a unit, and where it is.
fn put_holders<S: Sink>(
    sink: &mut S,
    place: &Place<'_>,
    unit: usize,
    before: &Option<Holder>,
    after: &Option<Holder>,
) -> bool {
    match (before, after) {
        (None, None) => true,
        (Some(old), Some(new)) if old.number == new.number && old.subchannel == new.subchannel => {
            old.place == new.place || put_places(sink, place, unit, old.place, new.place)
        }
        _ => {
            put_change(sink, place, unit, b"owner")
                && put_holder(sink, place.parties, before)
                && sink.put(b" > ")
                && put_holder(sink, place.parties, after)
                && sink.put(b"\n")
        }
    }
}

fn put_holder<S: Sink>(sink: &mut S, parties: &Parties, holder: &Option<Holder>) -> bool {
    match holder {
        None => sink.put(b"idle"),
        Some(holder) => {
            put_named(sink, b"t=", holder.number)
                && sink.put(b" sub=")
                && put_subchannel(sink, parties, holder.subchannel)
        }
    }
}

/// Where the program is that holds a unit.
fn put_places<S: Sink>(
    sink: &mut S,
    place: &Place<'_>,
    unit: usize,
    before: At,
    after: At,
) -> bool {
    put_change(sink, place, unit, b"place")
        && put_at(sink, before)
        && sink.put(b" > ")
        && put_at(sink, after)
        && sink.put(b"\n")
}

fn put_at<S: Sink>(sink: &mut S, place: At) -> bool {
    match place {
        At::On(path) => put_named(sink, b"on path=", path.index() as u64),
        At::Asks(path) => put_named(sink, b"asks path=", path.index() as u64),
        At::Away => sink.put(b"away"),
    }
}
