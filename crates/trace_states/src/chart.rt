//! A row of states.

use crate::draw::{NAMES, mark, off, on};
use state_tracks::track::Track;
use step_records::record::{Fact, Record};
use step_records::style::{Drawing, Style, Widths};
use step_records::trace::Trace;
use streams::Sink;
use text_cells::cell::{CELL_BYTES, Cell};
use text_cells::row::Row;

/// A script that was performed, and how its states are drawn.
#[derive(Drop)]
pub struct Chart<'a> {
    pub trace: &'a Trace,
    pub style: Style,
}

/// The digits of how many signals wait.
const DIGITS: &[u8; 10] = b"0123456789";

impl Chart<'_> {
    /// A cell for the name of a row, with a blank at its beginning.
    pub fn name(&self) -> Cell {
        let mut cell = match self.style.widths {
            Widths::Cut => Cell::new(NAMES - 1),
            Widths::Whole => Cell::new(CELL_BYTES),
        };
        let _ = cell.put(b"  ");
        cell
    }
}

/// The row of a bit or a state, where it is on after one of the lines at least.
pub fn put_track<S: Sink>(sink: &mut S, chart: &Chart<'_>, track: &Track, name: &Cell) -> bool {
    let records = chart.trace.records.as_slice();
    if !is_ever_on(track, records) {
        return true;
    }
    let drawing = chart.style.drawing;
    let mut row = Row::new();
    row.put_left(sink, name, NAMES, mark(drawing))
        && put_levels(&mut row, sink, records, track, drawing)
        && row.end(sink)
}

/// Whether a bit or a state is on after one of the lines at least.
fn is_ever_on(track: &Track, records: &[Record]) -> bool {
    let mut level = 0;
    for record in records {
        if matches!(record.fact, Fact::Event) && level > 0 {
            return true;
        }
        level = track.after(level, &record.fact);
    }
    level > 0
}

/// The levels after each line.
fn put_levels<S: Sink>(
    row: &mut Row,
    sink: &mut S,
    records: &[Record],
    track: &Track,
    drawing: Drawing,
) -> bool {
    let mut level = 0;
    for index in 0..records.len() {
        if index > 0
            && matches!(records[index].fact, Fact::Event)
            && !row.put(sink, level_text(track, level, drawing))
        {
            return false;
        }
        level = track.after(level, &records[index].fact);
    }
    row.put(sink, level_text(track, level, drawing))
}

/// A level: how many signals wait on a wire, at most 9; of what else is on, a full character.
fn level_text(track: &Track, level: u64, drawing: Drawing) -> &'static [u8] {
    if level == 0 {
        return off(drawing);
    }
    match track {
        Track::Waiting { .. } => {
            let digits: &[u8] = DIGITS;
            let digit = level.min(9) as usize;
            &digits[digit..digit + 1]
        }
        _ => on(drawing),
    }
}
