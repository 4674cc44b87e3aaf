//! The rows of one line.

use crate::glyphs::mark;
use crate::lanes::{Lane, place_in, rows_in};
use crate::layout::{CODE, Layout, SCRIPT, SUBCHANNELS};
use crate::subchannel_text::put_subchannel_text;
use crate::unit_text::put_unit_text;
use crate::wire_columns::put_wires;
use chan_events::reply::Reply;
use record_text::codes::{code_name, code_of};
use record_text::line_words::first_word;
use record_text::number::put_decimal;
use script_text::ActionResult;
use step_records::record::{Fact, Record};
use streams::Sink;
use text_cells::cell::{CELL_BYTES, Cell};
use text_cells::row::Row;

/// The row of lines that only set storage, from the first to the last.
pub fn put_storage<S: Sink>(sink: &mut S, layout: &Layout<'_>, first: u64, last: u64) -> bool {
    let line = layout.trace.text.line(first);
    let mut script = layout.cell(SCRIPT);
    let _ = if first == last {
        script.put(line)
    } else {
        put_together(&mut script, first_word(line), last)
    };
    let mut row = Row::new();
    put_number(&mut row, sink, layout, first)
        && row.put_cell(sink, &script, mark(layout.style.drawing))
        && row.end(sink)
}

/// Several lines of one first word.
fn put_together<S: Sink>(sink: &mut S, word: &[u8], last: u64) -> bool {
    sink.put(word) && sink.put(b" (to line ") && put_decimal(sink, last) && sink.put(b")")
}

/// The rows of a line that acts.
pub fn put_line<S: Sink>(sink: &mut S, layout: &Layout<'_>, line: u64, facts: &[Record]) -> bool {
    let rows = rows_in(Lane::Subchannels, facts)
        .max(rows_in(Lane::Wires, facts))
        .max(rows_in(Lane::Units, facts))
        .max(1);
    for row in 0..rows {
        if !put_row(sink, layout, line, facts, row) {
            return false;
        }
    }
    true
}

/// One row of a line.
fn put_row<S: Sink>(
    sink: &mut S,
    layout: &Layout<'_>,
    line: u64,
    facts: &[Record],
    index: usize,
) -> bool {
    let mut row = Row::new();
    let begun = if index == 0 {
        put_script(&mut row, sink, layout, line, answer_of(facts))
    } else {
        row.skip(layout.number.saturating_add(SCRIPT + 2));
        true
    };
    begun && put_lanes(&mut row, sink, layout, facts, index) && row.end(sink)
}

/// The lanes of a row.
fn put_lanes<S: Sink>(
    row: &mut Row,
    sink: &mut S,
    layout: &Layout<'_>,
    facts: &[Record],
    index: usize,
) -> bool {
    let mut subchannels = layout.cell(SUBCHANNELS);
    if let Some(place) = place_in(Lane::Subchannels, facts, index) {
        let _ = put_subchannel_text(&mut subchannels, layout, place);
    }
    let mut units = Cell::new(CELL_BYTES);
    if let Some(place) = place_in(Lane::Units, facts, index) {
        let _ = put_unit_text(&mut units, layout, place.fact);
    }
    let signal = match place_in(Lane::Wires, facts, index) {
        Some(place) => Some(place.fact),
        None => None,
    };
    let mark = mark(layout.style.drawing);
    if !row.put_left(sink, &subchannels, SUBCHANNELS, mark) {
        return false;
    }
    row.skip(1);
    if !put_wires(row, sink, layout, signal) {
        return false;
    }
    row.skip(1);
    row.put_cell(sink, &units, mark)
}

/// The number of a line.
fn put_number<S: Sink>(row: &mut Row, sink: &mut S, layout: &Layout<'_>, line: u64) -> bool {
    let mut number = Cell::new(CELL_BYTES);
    let _ = put_decimal(&mut number, line);
    if !row.put_right(sink, &number, layout.number, b"") {
        return false;
    }
    row.skip(1);
    true
}

/// The number of a line, the line, and its condition code.
fn put_script<S: Sink>(
    row: &mut Row,
    sink: &mut S,
    layout: &Layout<'_>,
    line: u64,
    code: &[u8],
) -> bool {
    let width = if code.is_empty() {
        SCRIPT
    } else {
        SCRIPT - CODE - 1
    };
    let mut script = layout.cell(width);
    let _ = script.put(layout.trace.text.line(line));
    let mark = mark(layout.style.drawing);
    if !(put_number(row, sink, layout, line) && row.put_left(sink, &script, width, mark)) {
        return false;
    }
    row.skip(1);
    code.is_empty()
        || {
            let put = row.put(sink, code);
            row.skip(1);
            put
        }
}

/// What is told of the answer beside the line: its condition code, or that nothing was to be chosen.
fn answer_of(facts: &[Record]) -> &'static [u8] {
    for record in facts {
        if let Fact::Answer(Ok(ActionResult::Reply(reply))) = &record.fact {
            return reply_code(reply);
        }
    }
    b""
}

/// What is told of a reply.
fn reply_code(reply: &Reply) -> &'static [u8] {
    match reply {
        Reply::Idle => b"idle",
        _ => match code_of(reply) {
            Some(code) => code_name(code),
            None => b"",
        },
    }
}
