//! Units that do not act now, in words.

use crate::front::{put_front, put_line_of, way_of};
use crate::names::side_number;
use crate::number::{put_decimal, put_hexadecimal};
use chan_model::names::{Path, Side};
use step_records::parties::Parties;
use step_records::record::Way;
use step_records::refusal::{Front, UnitRefusal};
use streams::Sink;

/// Why a unit does not act now: `unit 0 has no command at hand`.
pub(crate) fn put_unit_refusal<S: Sink>(
    sink: &mut S,
    parties: &Parties,
    unit: usize,
    why: &UnitRefusal,
) -> bool {
    match why {
        UnitRefusal::Signal { subchannel, front } => {
            put_signal(sink, parties, unit, *subchannel, front)
        }
        UnitRefusal::NoCommand => put_unit(sink, unit, b" has no command at hand"),
        UnitRefusal::Ended => put_unit(sink, unit, b" has ended its command"),
        UnitRefusal::Unanswered => put_unit(sink, unit, b" waits for an answer"),
        UnitRefusal::Idle => sink.put(b"no program holds ") && put_unit(sink, unit, b""),
        UnitRefusal::Held { number } => put_program(sink, *number, b" holds ", unit),
        UnitRefusal::Connected { number, path } => put_connected(sink, *number, unit, *path),
        UnitRefusal::Disconnected { number } => {
            put_program(sink, *number, b" is not connected at ", unit)
        }
        UnitRefusal::Unreached(side) => {
            sink.put(b"no subchannel reaches ") && put_side(sink, unit, *side, b"")
        }
        UnitRefusal::NotReset(side) => put_side(
            sink,
            unit,
            *side,
            b" was not reset since the last restart",
        ),
        UnitRefusal::NotRestarted(side) => put_side(
            sink,
            unit,
            *side,
            b" was not restarted since it was reset last",
        ),
    }
}

/// A unit, and a text behind it.
fn put_unit<S: Sink>(sink: &mut S, unit: usize, text: &[u8]) -> bool {
    sink.put(b"unit ") && put_hexadecimal(sink, unit as u64) && sink.put(text)
}

/// A signal that waits for a unit, or that it sent and that is not taken.
fn put_signal<S: Sink>(
    sink: &mut S,
    parties: &Parties,
    unit: usize,
    subchannel: usize,
    front: &Front,
) -> bool {
    sink.put(match way_of(&front.signal) {
        Way::Down => b"a signal waits for ",
        Way::Up => b"a signal waits of ",
    }) && put_unit(sink, unit, b": ")
        && put_front(sink, &front.signal)
        && sink.put(b" on path ")
        && put_decimal(sink, front.path.index() as u64)
        && put_line_of(sink, parties, subchannel, front)
}

/// A program, a text, and a unit behind it.
fn put_program<S: Sink>(sink: &mut S, number: u64, text: &[u8], unit: usize) -> bool {
    sink.put(b"program ")
        && put_decimal(sink, number)
        && sink.put(text)
        && put_unit(sink, unit, b"")
}

/// A program that is connected at a unit.
fn put_connected<S: Sink>(sink: &mut S, number: u64, unit: usize, path: Path) -> bool {
    put_program(sink, number, b" is connected at ", unit)
        && sink.put(b" on path ")
        && put_decimal(sink, path.index() as u64)
}

/// A side of a unit, and a text behind it.
fn put_side<S: Sink>(sink: &mut S, unit: usize, side: Side, text: &[u8]) -> bool {
    sink.put(b"side ")
        && put_decimal(sink, side_number(side))
        && sink.put(b" of ")
        && put_unit(sink, unit, text)
}
