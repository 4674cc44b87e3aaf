//! The wires between the subchannels and the units.

use crate::glyphs::{LONGEST, cross, idle, left, mark, right, shaft};
use crate::layout::{HALF, Layout, names_subchannels};
use record_text::names::{kind_of, put_subchannel};
use record_text::number::put_hexadecimal;
use record_text::put_signal;
use step_records::record::{Fact, Moved, Signal, Way, Wire};
use streams::Sink;
use text_cells::cell::{CELL_BYTES, Cell};
use text_cells::row::Row;

/// A signal that moved.
#[derive(Drop)]
struct Move<'a> {
    wire: Wire,
    moved: Moved,
    signal: &'a Signal,
}

/// A row of the wires: the signal that this fact is about, if any.
pub fn put_wires<S: Sink>(
    row: &mut Row,
    sink: &mut S,
    layout: &Layout<'_>,
    fact: Option<&Fact>,
) -> bool {
    match fact {
        Some(
            Fact::Signal {
                wire,
                moved,
                signal,
            },
        ) => put_move(
            row,
            sink,
            layout,
            &Move {
                wire: *wire,
                moved: *moved,
                signal,
            },
        ),
        _ => put_idle(row, sink, layout),
    }
}

/// A row without a signal.
fn put_idle<S: Sink>(row: &mut Row, sink: &mut S, layout: &Layout<'_>) -> bool {
    let mut middle = Cell::new(CELL_BYTES);
    let _ = middle.put(idle(layout.style.drawing));
    row.skip(HALF);
    if !put_middle(row, sink, layout, &middle) {
        return false;
    }
    row.skip(HALF);
    true
}

/// A row with a signal.
fn put_move<S: Sink>(row: &mut Row, sink: &mut S, layout: &Layout<'_>, at: &Move<'_>) -> bool {
    let mut middle = Cell::new(CELL_BYTES);
    let _ = put_wire(&mut middle, layout, at.wire);
    if is_at_subchannel(at.wire.way, at.moved) {
        return put_half(row, sink, layout, at)
            && put_middle(row, sink, layout, &middle)
            && {
                row.skip(HALF);
                true
            };
    }
    row.skip(HALF);
    put_middle(row, sink, layout, &middle) && put_half(row, sink, layout, at)
}

/// Whether a signal is drawn at the side of the subchannel: it was sent by it, or taken by it.
fn is_at_subchannel(way: Way, moved: Moved) -> bool {
    let is_met = matches!(moved, Moved::Taken | Moved::Ignored);
    match way {
        Way::Down => !is_met,
        Way::Up => is_met,
    }
}

/// The middle of the wires.
fn put_middle<S: Sink>(row: &mut Row, sink: &mut S, layout: &Layout<'_>, middle: &Cell) -> bool {
    let blanks = layout.middle.saturating_sub(middle.characters());
    row.skip(blanks / 2);
    if !row.put(sink, middle.text()) {
        return false;
    }
    row.skip(blanks - blanks / 2);
    true
}

/// The path of a wire; where there are several subchannels, its subchannel before it.
fn put_wire<S: Sink>(sink: &mut S, layout: &Layout<'_>, wire: Wire) -> bool {
    let parties = &layout.trace.parties;
    if names_subchannels(parties) {
        if !(put_subchannel(sink, parties, wire.subchannel) && sink.put(b".")) {
            return false;
        }
    }
    put_hexadecimal(sink, wire.path.index() as u64)
}

/// A half of the wires, with a signal.
fn put_half<S: Sink>(row: &mut Row, sink: &mut S, layout: &Layout<'_>, at: &Move<'_>) -> bool {
    let moved = at.moved;
    match moved {
        Moved::Sent | Moved::Taken | Moved::Ignored => put_arrow(row, sink, layout, at),
        Moved::Lost => put_cross(row, sink, layout, at, b"lost: "),
        Moved::Vanished => put_cross(row, sink, layout, at, b"vanished: "),
    }
}

/// The name of a signal, in a cell.
fn put_name<S: Sink>(sink: &mut S, layout: &Layout<'_>, at: &Move<'_>) -> bool {
    put_signal(
        sink,
        at.signal,
        kind_of(&layout.trace.parties, at.wire.subchannel),
    )
}

/// An arrow with the name of a signal, whose shaft is as long as there is room.
fn put_arrow<S: Sink>(row: &mut Row, sink: &mut S, layout: &Layout<'_>, at: &Move<'_>) -> bool {
    let drawing = layout.style.drawing;
    let mut name = layout.cell(LONGEST);
    let _ = put_name(&mut name, layout, at);
    let shaft = shaft(drawing, LONGEST.saturating_sub(name.characters()));
    let way = at.wire.way;
    match way {
        Way::Down => {
            row.put(sink, shaft)
                && row.put(sink, b" ")
                && row.put_cell(sink, &name, mark(drawing))
                && row.put(sink, b" ")
                && row.put(sink, right(drawing))
        }
        Way::Up => {
            row.put(sink, left(drawing))
                && row.put(sink, b" ")
                && row.put_cell(sink, &name, mark(drawing))
                && row.put(sink, b" ")
                && row.put(sink, shaft)
        }
    }
}

/// A cross beside the middle of the wires, and the name of a signal that is taken by nobody.
fn put_cross<S: Sink>(
    row: &mut Row,
    sink: &mut S,
    layout: &Layout<'_>,
    at: &Move<'_>,
    fate: &[u8],
) -> bool {
    let drawing = layout.style.drawing;
    let mut text = layout.cell(HALF - 2);
    let _ = text.put(fate) && put_name(&mut text, layout, at);
    let way = at.wire.way;
    match way {
        Way::Down => {
            row.put_right(sink, &text, HALF - 2, mark(drawing))
                && row.put(sink, b" ")
                && row.put(sink, cross(drawing))
        }
        Way::Up => {
            row.put(sink, cross(drawing))
                && row.put(sink, b" ")
                && row.put_left(sink, &text, HALF - 2, mark(drawing))
        }
    }
}
