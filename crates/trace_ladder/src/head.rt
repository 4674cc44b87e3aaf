//! The head of a ladder.

use crate::glyphs::{dash, mark};
use crate::layout::{HALF, Layout, SCRIPT, SUBCHANNELS, UNITS, names_subchannels, names_units};
use channel_config::parts::SubchannelSetup;
use record_text::names::{kind_name, kind_of, put_device_number, put_subchannel};
use record_text::number::{put_hexadecimal, put_two_digits};
use step_records::parties::Parties;
use streams::Sink;
use text_cells::cell::{CELL_BYTES, Cell};
use text_cells::row::{Row, put_times};

/// The head: what the script says of itself, its subchannels, and the names of the columns.
pub fn put_head<S: Sink>(sink: &mut S, layout: &Layout<'_>) -> bool {
    put_title(sink, layout)
        && put_subchannels(sink, &layout.trace.parties)
        && sink.put(b"\n")
        && put_columns(sink, layout)
        && put_rule(sink, layout)
}

/// The first comment of the script.
fn put_title<S: Sink>(sink: &mut S, layout: &Layout<'_>) -> bool {
    let text = &layout.trace.text;
    for number in 1..=text.count() {
        match text.line(number) {
            [b'#', b' ', title @ ..] | [b'#', title @ ..] => {
                return sink.put(title) && sink.put(b"\n");
            }
            _ => {}
        }
    }
    true
}

/// A line for each subchannel.
fn put_subchannels<S: Sink>(sink: &mut S, parties: &Parties) -> bool {
    for subchannel in 0..parties.subchannels.len() {
        let put = put_setup(sink, parties, subchannel, &parties.subchannels[subchannel]);
        if !put {
            return false;
        }
    }
    true
}

/// A subchannel: its device, its unit and its paths.
fn put_setup<S: Sink>(
    sink: &mut S,
    parties: &Parties,
    subchannel: usize,
    setup: &SubchannelSetup,
) -> bool {
    sink.put(b"  subchannel ")
        && put_subchannel(sink, parties, subchannel)
        && sink.put(b": device ")
        && put_device_number(sink, setup.device)
        && sink.put(b", unit ")
        && put_hexadecimal(sink, u64::from(setup.unit))
        && sink.put(b" ")
        && sink.put(kind_name(kind_of(parties, subchannel)))
        && put_paths(sink, setup.paths.as_slice())
        && sink.put(b"\n")
}

/// The paths of a subchannel.
fn put_paths<S: Sink>(sink: &mut S, chpids: &[u8]) -> bool {
    for path in 0..chpids.len() {
        let put = sink.put(b", path ")
            && put_hexadecimal(sink, path as u64)
            && sink.put(b" = channel path ")
            && put_two_digits(sink, chpids[path]);
        if !put {
            return false;
        }
    }
    true
}

/// The names of the columns.
fn put_columns<S: Sink>(sink: &mut S, layout: &Layout<'_>) -> bool {
    let mut row = Row::new();
    let wires = HALF.saturating_add(layout.middle).saturating_add(HALF);
    put_column(&mut row, sink, b"line", layout.number)
        && put_column(&mut row, sink, b"CPU 0, script", SCRIPT)
        && put_subchannels_name(&mut row, sink, layout)
        && put_centred(&mut row, sink, b"wires", wires)
        && put_units_name(&mut row, sink, layout)
        && row.end(sink)
}

/// The name of a column.
fn put_column<S: Sink>(row: &mut Row, sink: &mut S, name: &[u8], width: usize) -> bool {
    if !row.put(sink, name) {
        return false;
    }
    row.skip(width.saturating_sub(name.len()).saturating_add(1));
    true
}

/// The name of a column, in its middle.
fn put_centred<S: Sink>(row: &mut Row, sink: &mut S, name: &[u8], width: usize) -> bool {
    let blanks = width.saturating_sub(name.len());
    row.skip(blanks / 2);
    put_column(row, sink, name, width.saturating_sub(blanks / 2))
}

/// The name of the column of the subchannels.
fn put_subchannels_name<S: Sink>(row: &mut Row, sink: &mut S, layout: &Layout<'_>) -> bool {
    let parties = &layout.trace.parties;
    let mut name = Cell::new(CELL_BYTES);
    let _ = if names_subchannels(parties) {
        name.put(b"subchannels")
    } else {
        name.put(b"subchannel ") && put_subchannel(&mut name, parties, 0)
    };
    put_column(row, sink, name.text(), SUBCHANNELS)
}

/// The name of the column of the units.
fn put_units_name<S: Sink>(row: &mut Row, sink: &mut S, layout: &Layout<'_>) -> bool {
    row.put(
        sink,
        if names_units(&layout.trace.parties) {
            b"units"
        } else {
            b"unit 0"
        },
    )
}

/// The rule below the names of the columns.
fn put_rule<S: Sink>(sink: &mut S, layout: &Layout<'_>) -> bool {
    let wires = HALF.saturating_add(layout.middle).saturating_add(HALF);
    put_dashes(sink, layout, layout.number)
        && sink.put(b" ")
        && put_dashes(sink, layout, SCRIPT)
        && sink.put(b" ")
        && put_dashes(sink, layout, SUBCHANNELS)
        && sink.put(b" ")
        && put_dashes(sink, layout, wires)
        && sink.put(b" ")
        && put_dashes(sink, layout, UNITS)
        && sink.put(b"\n")
}

/// A piece of the rule.
fn put_dashes<S: Sink>(sink: &mut S, layout: &Layout<'_>, width: usize) -> bool {
    put_times(sink, dash(layout.style.drawing), width)
}
