//! The view `explain`: each line with what it came to, what it took and sent, and what changed.

use crate::answer::put_answer;
use crate::codes::found_by;
use crate::facts::put_fact;
use chan_model::fault::Fault;
use record_text::number::put_decimal;
use record_text::refusal::put_refusal_reason;
use script_text::put_refusal;
use step_records::record::{Fact, Record};
use step_records::refusal::Refusal;
use step_records::style::{Drawing, Style};
use step_records::trace::Trace;
use streams::Sink;
use word_names::Found;

/// Every line that acts, with what it came to, what it took and sent, and what changed; every word is decoded by the names of the
/// manual (SA22-7832). The numbers of lines are decimal, all others hexadecimal.
pub fn put_explained<S: Sink>(sink: &mut S, trace: &Trace, style: Style) -> bool {
    put_all_explained(sink, trace, trace.records.as_slice(), style.drawing)
}

/// The same of one line, whose records these are, in the characters of Unicode.
pub fn put_line_explained<S: Sink>(sink: &mut S, trace: &Trace, records: &[Record]) -> bool {
    put_all_explained(sink, trace, records, Drawing::Drawn)
}

fn put_all_explained<S: Sink>(
    sink: &mut S,
    trace: &Trace,
    records: &[Record],
    drawing: Drawing,
) -> bool {
    let mut found = None;
    for (index, record) in records.iter().enumerate() {
        let reason = reason_in(records.get(index + 1));
        if !put_record_explained(sink, trace, record, found, reason, drawing) {
            return false;
        }
        found = found_by(&trace.parties, &record.fact);
    }
    true
}

/// Why a line was refused, where this record tells it.
fn reason_in(record: Option<&Record>) -> Option<&Refusal> {
    match &record?.fact {
        Fact::Refused(refusal) => Some(refusal),
        _ => None,
    }
}

/// One record, where the one before it told that this was found, and the one behind it why its line was refused.
fn put_record_explained<S: Sink>(
    sink: &mut S,
    trace: &Trace,
    record: &Record,
    found: Option<Found>,
    reason: Option<&Refusal>,
    drawing: Drawing,
) -> bool {
    match &record.fact {
        Fact::Event => put_event(sink, trace, record.line),
        Fact::Found { .. } | Fact::Refused(_) => true,
        Fact::Answer(Err(fault)) => put_refused(sink, trace, fault, reason),
        Fact::Answer(outcome) => { put_answer(sink, trace.text.line(record.line), found, outcome) }
        fact => put_fact(sink, &trace.parties, drawing, fact),
    }
}

/// The refusal of a line, and what stands there.
fn put_refused<S: Sink>(
    sink: &mut S,
    trace: &Trace,
    fault: &Fault,
    reason: Option<&Refusal>,
) -> bool {
    sink.put(b"    ")
        && put_refusal(sink, fault)
        && match reason {
            Some(refusal) => {
                sink.put(b"  ") && put_refusal_reason(sink, &trace.parties, refusal)
            }
            None => true,
        }
        && sink.put(b"\n")
}

/// A line of the script, behind its number.
fn put_event<S: Sink>(sink: &mut S, trace: &Trace, line: u64) -> bool {
    put_decimal(sink, line) && sink.put(b" ") && sink.put(trace.text.line(line)) && sink.put(b"\n")
}
