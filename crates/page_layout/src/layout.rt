//! Where all of a page stands.

ghost use Rattle.std.specs.Prelude.{◌≡◌, OnErr, true};

use crate::flights::{Flight, flights_of};
use crate::lanes::{Lane, lanes_of};
use crate::rows::{Row, foot, rows_of};
use memory::Supply;
use std::alloc::{AllocError, Global};
use step_records::style::{Style, Widths};
use step_records::trace::Trace;

/// Where the lines of the script begin.
pub const SCRIPT: u64 = 48;

/// The width of a character of a fixed width.
const CHARACTER: u64 = 9;

/// Between a line and its answer.
const CLEAR: u64 = 10;

/// Room for the answer of a line.
const ANSWERS: u64 = 55;

/// How many characters of a line are shown, where lines are cut.
const MOST_CHARACTERS: usize = 24;

/// How many characters of a line are shown at least.
const LEAST_CHARACTERS: usize = 12;

/// Below the last row.
const FOOT: u64 = 34;

/// A script with its rows, lanes and signals.
#[derive(Drop)]
pub struct Layout<'a> {
    pub trace: &'a Trace,
    pub rows: Vec<Row>,
    pub lanes: Vec<Lane>,
    pub flights: Vec<Flight>,
    /// How many characters of a line are shown.
    pub characters: usize,
    /// Where the answers begin.
    pub answers: u64,
    pub width: u64,
    pub foot: u64,
}

impl<'a> Layout<'a> {
    /// The layout of a script. There is no memory only where the supply refused a growth.
    pub fn of<M: Supply>(
        alloc: Global,
        supply: &mut M,
        trace: &'a Trace,
        style: Style,
    ) -> Result<Layout<'a>, AllocError>
        ensures memory { OnErr result (M.refused supply.new ≡ true) }
    {
        let rows = rows_of(alloc, supply, trace, style)?;
        let characters = widest(trace, rows.as_slice(), style.widths);
        let answers = (characters as u64)
            .saturating_mul(CHARACTER)
            .saturating_add(SCRIPT + CLEAR);
        let (lanes, width) = lanes_of(
            alloc,
            supply,
            &trace.parties,
            answers.saturating_add(ANSWERS),
        )?;
        let flights = flights_of(alloc, supply, trace, rows.as_slice())?;
        let foot = foot(rows.as_slice());
        Ok(Layout {
            trace,
            rows,
            lanes,
            flights,
            characters,
            answers,
            width,
            foot,
        })
    }

    /// The line of a row.
    pub fn line_of(&self, row: usize) -> u64 {
        match self.rows.as_slice().get(row) {
            Some(row) => row.line,
            None => 0,
        }
    }

    /// How high the diagram is.
    pub fn height(&self) -> u64 {
        self.foot.saturating_add(FOOT)
    }
}

/// How many characters the widest of the lines shows.
fn widest(trace: &Trace, rows: &[Row], widths: Widths) -> usize {
    let mut widest = LEAST_CHARACTERS;
    for row in rows {
        if row.line == row.last {
            widest = trace.text.line(row.line).len().max(widest);
        }
    }
    match widths {
        Widths::Cut => widest.min(MOST_CHARACTERS),
        Widths::Whole => widest,
    }
}
