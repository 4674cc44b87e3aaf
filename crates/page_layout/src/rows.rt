//! The rows of a page: a row for each line that acts.

ghost use Rattle.std.specs.Prelude.{◌≡◌, OnErr, true};

use crate::noted::note_lines;
use memory::{Supply, push};
use std::alloc::{AllocError, Global};
use step_records::record::Record;
use step_records::style::{StorageLines, Style};
use step_records::trace::Trace;

/// Where the first row begins.
const HEAD: u64 = 64;

/// The least height of a row.
const LEAST: u64 = 30;

/// The height of a line of notes.
pub const NOTE: u64 = 16;

/// How far below its top the text of a row stands.
const BASELINE: u64 = 20;

/// A line that acts, or several in a row that only set storage: which lines, which of the records are theirs, and where the
/// row stands.
#[derive(Drop)]
pub struct Row {
    pub line: u64,
    pub last: u64,
    first: usize,
    end: usize,
    pub top: u64,
    pub height: u64,
}

impl Row {
    /// The row of one record so far.
    fn new(index: usize, line: u64) -> Row {
        Row {
            line,
            last: line,
            first: index,
            end: index,
            top: HEAD,
            height: LEAST,
        }
    }

    /// Its records.
    pub fn records<'a>(&self, trace: &'a Trace) -> &'a [Record] {
        let records = trace.records.as_slice();
        if self.first <= self.end && self.end < records.len() {
            &records[self.first..self.end + 1]
        } else {
            &[]
        }
    }

    /// Where its text stands.
    pub fn baseline(&self) -> u64 {
        self.top.saturating_add(BASELINE)
    }

    /// Where a signal arrives that is met in this row.
    pub fn arrival(&self) -> u64 {
        self.top.saturating_add(6)
    }

    /// Where a signal leaves that is sent in this row, after so many others.
    pub fn departure(&self, others: u64) -> u64 {
        self.bottom()
            .saturating_sub(5)
            .saturating_add(others.min(2) * 4)
    }

    /// Where what changes in this row begins to be drawn.
    pub fn change(&self) -> u64 {
        self.top.saturating_add(8)
    }

    /// Where it ends.
    pub fn bottom(&self) -> u64 {
        self.top.saturating_add(self.height)
    }

    /// Whether a record belongs to this row: it is of its last line, or both only set storage.
    fn takes(&self, trace: &Trace, record: &Record, style: Style) -> bool {
        record.line == self.last
            || (style.storage_lines == StorageLines::Together
                && sets_storage(trace.text.line(self.last))
                && sets_storage(trace.text.line(record.line)))
    }
}

/// Whether a line only sets storage: `put`, `key` and `prefix`.
fn sets_storage(line: &[u8]) -> bool {
    line.starts_with(b"put ") || line.starts_with(b"key ") || line.starts_with(b"prefix ")
}

/// The rows of a script, one below the other.
pub fn rows_of<M: Supply>(
    alloc: Global,
    supply: &mut M,
    trace: &Trace,
    style: Style,
) -> Result<Vec<Row>, AllocError>
    ensures memory { OnErr result (M.refused supply.new ≡ true) }
{
    let mut rows: Vec<Row> = Vec::new(alloc);
    for (index, record) in trace.records.as_slice().iter().enumerate() {
        if !goes_on(&mut rows, trace, index, record, style) {
            push(supply, &mut rows, Row::new(index, record.line))?;
        }
    }
    place(&mut rows, trace);
    Ok(rows)
}

/// Takes a record into the last row, where it belongs to it.
fn goes_on(
    rows: &mut Vec<Row>,
    trace: &Trace,
    index: usize,
    record: &Record,
    style: Style,
) -> bool {
    match rows.last_mut() {
        Some(row) if row.takes(trace, record, style) => {
            row.end = index;
            row.last = record.line;
            true
        }
        _ => false,
    }
}

/// Places each row below the one before, as high as its notes ask for.
fn place(rows: &mut Vec<Row>, trace: &Trace) {
    let mut top = HEAD;
    for row in rows.iter_mut() {
        row.top = top;
        row.height = LEAST.max(
            note_lines(row.records(trace))
                .saturating_mul(NOTE)
                .saturating_add(14),
        );
        top = top.saturating_add(row.height);
    }
}

/// Where the last row ends.
pub fn foot(rows: &[Row]) -> u64 {
    match rows.last() {
        Some(row) => row.bottom(),
        None => HEAD,
    }
}
