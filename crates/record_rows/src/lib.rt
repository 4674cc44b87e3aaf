//! The view `records`: all that is known, one fact a line, for programs. Each text goes into a sink as it is made, so that printing
//! takes no memory; a call answers whether the whole of its text went in.
#![tactic(auto)]

mod objects;
mod owner_rows;
mod refusals;
mod rows;
mod values;

use crate::owner_rows::put_owner;
use crate::rows::put_row;
use chan_model::fault::Fault;
use record_text::line_words::first_word;
use record_text::number::put_decimal;
use script_text::{ActionResult, put_outcome};
use step_records::parties::Parties;
use step_records::record::{Fact, Record};
use step_records::trace::Trace;
use streams::Sink;

/// Where a row stands: the line of the script, and who there is.
#[derive(Clone, Copy)]
pub(crate) struct Place<'a> {
    pub(crate) parties: &'a Parties,
    pub(crate) line: u64,
}

/// All records in order. A row has the line of the script in decimal, what kind of fact it is, of what it tells, what is told,
/// and its value, parted by tabs; a row with these names stands first. The owner of a unit has a row for each of owner, place
/// and floor that changed; every other record has one row.
pub fn put_records<S: Sink>(sink: &mut S, trace: &Trace) -> bool {
    if !sink.put(b"line\tkind\tobject\twhat\tvalue\n") {
        return false;
    }
    for record in trace.records.as_slice() {
        if !put_record(sink, trace, record) {
            return false;
        }
    }
    true
}

fn put_record<S: Sink>(sink: &mut S, trace: &Trace, record: &Record) -> bool {
    let line = trace.text.line(record.line);
    match &record.fact {
        Fact::Event => {
            put_line_head(sink, record.line, b"event", line)
                && put_without_tabs(sink, line)
                && sink.put(b"\n")
        }
        Fact::Answer(outcome) => put_answer(sink, record.line, line, outcome),
        Fact::Found { .. } => true,
        fact => {
            let place = Place {
                parties: &trace.parties,
                line: record.line,
            };
            put_fact(sink, &place, fact)
        }
    }
}

/// What moved on the wires, and what changed.
fn put_fact<S: Sink>(sink: &mut S, place: &Place<'_>, fact: &Fact) -> bool {
    match fact {
        Fact::Owner {
            unit,
            before,
            after,
        } => put_owner(sink, place, *unit, before, after),
        other => put_row(sink, place, other),
    }
}

/// What a line came to.
fn put_answer<S: Sink>(
    sink: &mut S,
    number: u64,
    line: &[u8],
    outcome: &Result<ActionResult, Fault>,
) -> bool {
    put_line_head(sink, number, b"answer", line) && put_outcome(sink, outcome) && sink.put(b"\n")
}

/// The head of a row of the line itself: it is named by its first word.
fn put_line_head<S: Sink>(sink: &mut S, number: u64, kind: &[u8], line: &[u8]) -> bool {
    put_decimal(sink, number)
        && sink.put(b"\t")
        && sink.put(kind)
        && sink.put(b"\t\t")
        && put_without_tabs(sink, first_word(line))
        && sink.put(b"\t")
}

/// A line with a blank for each tab, of which a good line has none.
fn put_without_tabs<S: Sink>(sink: &mut S, line: &[u8]) -> bool {
    for (index, part) in line.split(|byte| *byte == b'\t').enumerate() {
        if index > 0 && !sink.put(b" ") {
            return false;
        }
        if !sink.put(part) {
            return false;
        }
    }
    true
}
