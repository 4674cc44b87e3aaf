//! The columns of a ladder.

use record_text::names::put_subchannel;
use record_text::number::put_decimal;
use step_records::parties::Parties;
use step_records::style::{Style, Widths};
use step_records::trace::Trace;
use text_cells::cell::{CELL_BYTES, Cell};

/// The line of a script and its condition code.
pub const SCRIPT: usize = 19;
/// A condition code: `cc 0`.
pub const CODE: usize = 4;
/// The subchannels.
pub const SUBCHANNELS: usize = 28;
/// Each half of the wires.
pub const HALF: usize = 20;
/// The units, as the rule below their name is drawn: their texts may be longer.
pub const UNITS: usize = 20;
/// The least width of the number of a line.
const NUMBER: usize = 4;
/// The least width of the middle of the wires.
const MIDDLE: usize = 3;

/// A script that was performed, and how its ladder is laid out.
#[derive(Drop)]
pub struct Layout<'a> {
    pub trace: &'a Trace,
    pub style: Style,
    /// The width of the numbers of lines.
    pub number: usize,
    /// The width of the middle of the wires.
    pub middle: usize,
}

impl<'a> Layout<'a> {
    /// The layout of a script.
    pub fn of(trace: &'a Trace, style: Style) -> Layout<'a> {
        Layout {
            trace,
            style,
            number: number_width(trace),
            middle: middle_width(&trace.parties),
        }
    }

    /// A cell for a column of this width.
    pub fn cell(&self, width: usize) -> Cell {
        match self.style.widths {
            Widths::Cut => Cell::new(width),
            Widths::Whole => Cell::new(CELL_BYTES),
        }
    }
}

/// Whether there are several subchannels, so that each is named.
pub fn names_subchannels(parties: &Parties) -> bool {
    parties.subchannels.len() != 1
}

/// Whether there are several units, so that each is named.
pub fn names_units(parties: &Parties) -> bool {
    parties.units.len() != 1
}

/// How wide the number of the last line that acts is.
fn number_width(trace: &Trace) -> usize {
    let greatest = match trace.records.as_slice().last() {
        Some(record) => record.line,
        None => 0,
    };
    let mut cell = Cell::new(CELL_BYTES);
    let _ = put_decimal(&mut cell, greatest);
    cell.characters().max(NUMBER)
}

/// How wide the name of a subchannel is.
fn name_width(parties: &Parties, subchannel: usize) -> usize {
    let mut cell = Cell::new(CELL_BYTES);
    let _ = put_subchannel(&mut cell, parties, subchannel);
    cell.characters()
}

/// How wide the middle of the wires is: the longest name of a subchannel, a dot and the index of a path.
fn middle_width(parties: &Parties) -> usize {
    let mut middle = MIDDLE;
    for subchannel in 0..parties.subchannels.len() {
        middle = middle.max(name_width(parties, subchannel).saturating_add(2));
    }
    middle
}
