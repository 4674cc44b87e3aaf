//! What is told of an action behind its answer.

use record_text::fields::put_between;
use record_text::names::kind_of;
use record_text::put_signal;
use record_text::short::{put_short, put_statuses};
use record_text::told::{put_copy, put_device_act, put_path_state};
use step_records::parties::Parties;
use step_records::record::{Fact, Moved, Record};
use streams::Sink;
use word_names::put_status_names;
use zbits::field;

/// What is told behind an answer: bytes that moved, what a device did, programs that went on, status, requests, reports, paths and
/// signals that were lost, parted by semicolons, and before them two blanks; nothing where there are none.
pub(crate) fn put_notes<S: Sink>(sink: &mut S, parties: &Parties, records: &[Record]) -> bool {
    let mut mark: &[u8] = b"  ";
    for record in records {
        if is_noted(&record.fact) {
            if !(sink.put(mark) && put_note(sink, parties, &record.fact)) {
                return false;
            }
            mark = b"; ";
        }
    }
    true
}

/// Whether a fact is told behind an answer.
fn is_noted(fact: &Fact) -> bool {
    matches!(
        fact,
        Fact::PathState { .. }
            | Fact::Signal {
                moved: Moved::Lost | Moved::Vanished,
                ..
            }
            | Fact::Copy { .. }
            | Fact::Device { .. }
            | Fact::Program { .. }
            | Fact::StatusMade { .. }
            | Fact::StatusCleared { .. }
            | Fact::Request { .. }
            | Fact::Report { .. }
    )
}

/// One fact in few words.
fn put_note<S: Sink>(sink: &mut S, parties: &Parties, fact: &Fact) -> bool {
    match fact {
        Fact::PathState { chpid, up } => put_path_state(sink, *chpid, *up),
        Fact::Signal { wire, signal, .. } => {
            sink.put(b"lost: ") && put_signal(sink, signal, kind_of(parties, wire.subchannel))
        }
        Fact::Copy {
            direction,
            address,
            bytes,
            ..
        } => put_copy(sink, *direction, *address, bytes.as_slice()),
        Fact::Device { act, .. } => sink.put(b"the device ") && put_device_act(sink, act),
        Fact::StatusMade { words, .. } => put_status(sink, words),
        other => put_short(sink, parties, other),
    }
}

/// Whether a status is pending that says nothing else by the bits of its status control.
fn is_alone(control: u32) -> bool {
    field(control, 27, 30) == 0
}

/// The names of a status, and its deferred condition code where it has one.
fn put_names<S: Sink>(sink: &mut S, control: u32) -> bool {
    let named = if is_alone(control) {
        sink.put(b"pending alone")
    } else {
        put_status_names(sink, control)
    };
    match field(control, 6, 7) {
        0 => named,
        code => named && put_between(sink, b"; deferred condition code ", u64::from(code), b""),
    }
}

/// Status that was made pending: `STATUS primary, secondary; CE, DE; count 0`.
fn put_status<S: Sink>(sink: &mut S, words: &[u32; 3]) -> bool {
    sink.put(b"STATUS ")
        && put_names(sink, words[0])
        && sink.put(b"; ")
        && put_statuses(sink, words[2], b"; ")
}
