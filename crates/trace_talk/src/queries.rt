//! What a talk answers to a look at the machine.

use crate::asking::Question;
use crate::due::DueLine;
use crate::stepping::{RANKS, rank};
use chan_model::names::Path;
use channel_config::parts::SubchannelSetup;
use functions::state::PackedState;
use machine_sight::sight::Sight;
use machine_sight::waiting::Waiting;
use record_text::names::{kind_of, put_path_and_way};
use record_text::number::put_hexadecimal;
use record_text::short::put_statuses;
use record_text::told::{put_command_at_hand, put_owner};
use record_text::{put_hold, put_signal, put_subchannel_name};
use script_text::put_words;
use step_facts::facts::units::{command_of, owner_of};
use step_records::parties::Parties;
use step_records::record::{Way, Wire};
use streams::Sink;
use word_names::{put_activity, put_functions, put_scsw_control, put_status_control};

/// What a look at a machine showed, and who there is.
#[derive(Drop)]
pub(crate) struct Looked<'a> {
    pub(crate) sight: &'a Sight,
    pub(crate) waiting: &'a Waiting,
    pub(crate) parties: &'a Parties,
}

/// Answers a look: its lines, and an empty one.
pub(crate) fn put_answer_to<S: Sink>(
    sink: &mut S,
    looked: &Looked<'_>,
    due: &[DueLine],
    question: Question,
) -> bool {
    let whole = match question {
        Question::All => put_due(sink, looked, due) && put_all(sink, looked),
        Question::Due => put_due(sink, looked, due),
        Question::StatusWord(word) => match looked.parties.subchannel_named(word) {
            Some(index) => put_status_word(sink, looked, index),
            None => sink.put(b"no such subchannel\n"),
        },
        Question::Unit(unit) => put_unit(sink, looked, unit as usize),
        Question::Wires(word) => match looked.parties.subchannel_named(word) {
            Some(index) => put_wires(sink, looked, index),
            None => sink.put(b"no such subchannel\n"),
        },
    };
    whole && sink.put(b"\n")
}

/// The lines that are due, in the order in which a turn takes them, each with what it takes.
fn put_due<S: Sink>(sink: &mut S, looked: &Looked<'_>, due: &[DueLine]) -> bool {
    if due.is_empty() {
        return sink.put(b"nothing is due\n");
    }
    for of in 0..RANKS {
        if !put_due_of(sink, looked, due, of) {
            return false;
        }
    }
    true
}

/// Those of one rank.
fn put_due_of<S: Sink>(sink: &mut S, looked: &Looked<'_>, due: &[DueLine], of: u8) -> bool {
    for line in due {
        if rank(*line) == of
            && !(line.put(sink) && put_taken(sink, looked, *line) && sink.put(b"\n"))
        {
            return false;
        }
    }
    true
}

/// The wire whose signal a line takes; None where it takes none.
fn wire_of(parties: &Parties, line: DueLine) -> Option<Wire> {
    let (word, path, way) = match line {
        DueLine::Choose { .. } | DueLine::Dev { .. } => return None,
        DueLine::Down { subchannel, path } => (subchannel, path, Way::Down),
        DueLine::Up { subchannel, path } => (subchannel, path, Way::Up),
    };
    Some(Wire {
        subchannel: parties.subchannel_named(word)?,
        path: Path::new(path)?,
        way,
    })
}

/// The signal that a line takes, where it takes one.
fn put_taken<S: Sink>(sink: &mut S, looked: &Looked<'_>, line: DueLine) -> bool {
    let Some(wire) = wire_of(looked.parties, line) else {
        return true;
    };
    match looked.waiting.signals(&wire) {
        [] => true,
        [signal, ..] => {
            sink.put(b"  ")
                && put_signal(sink, signal, kind_of(looked.parties, wire.subchannel))
                && sink.put(b" waits")
        }
    }
}

/// The states of all subchannels and units.
fn put_all<S: Sink>(sink: &mut S, looked: &Looked<'_>) -> bool {
    for index in 0..looked.parties.subchannels.len() {
        if !(put_status_word(sink, looked, index) && put_wires(sink, looked, index)) {
            return false;
        }
    }
    for unit in 0..looked.parties.units.len() {
        if !put_unit(sink, looked, unit) {
            return false;
        }
    }
    true
}

/// `subchannel 0`.
fn put_name<S: Sink>(sink: &mut S, setup: &SubchannelSetup) -> bool {
    sink.put(b"subchannel ") && put_subchannel_name(sink, setup)
}

/// The subchannel-status word of a subchannel, with what it says, and what the subsystem takes its device to be held by.
fn put_status_word<S: Sink>(sink: &mut S, looked: &Looked<'_>, index: usize) -> bool {
    match (
        looked.parties.subchannels.as_slice().get(index),
        looked.sight.subchannels.as_slice().get(index),
    ) {
        (Some(setup), Some(seen)) => {
            put_name(sink, setup) && put_words_of(sink, seen) && put_hold_of(sink, seen)
        }
        _ => true,
    }
}

/// The words of a subchannel-status word, and what the first says.
fn put_words_of<S: Sink>(sink: &mut S, seen: &PackedState) -> bool {
    let words = seen.scsw_words();
    put_words(sink, words)
        && sink.put(b"  ")
        && put_scsw_control(sink, words[0])
        && sink.put(b"; function ")
        && put_functions(sink, words[0])
        && sink.put(b" | activity ")
        && put_activity(sink, words[0])
        && sink.put(b" | status ")
        && put_status_control(sink, words[0])
        && sink.put(b" | ")
        && put_statuses(sink, words[2], b"; ")
}

/// What the subsystem takes the device to be held by.
fn put_hold_of<S: Sink>(sink: &mut S, seen: &PackedState) -> bool {
    sink.put(b"; hold ") && put_hold(sink, &seen.rest().hold) && sink.put(b"\n")
}

/// The signals that wait on the wires of a subchannel, a line each wire on which some do.
fn put_wires<S: Sink>(sink: &mut S, looked: &Looked<'_>, subchannel: usize) -> bool {
    for index in 0..8u32 {
        if let Some(path) = Path::new(index)
            && !put_wires_of(sink, looked, subchannel, path)
        {
            return false;
        }
    }
    true
}

/// Those on the two wires of a path.
fn put_wires_of<S: Sink>(sink: &mut S, looked: &Looked<'_>, subchannel: usize, path: Path) -> bool {
    for way in [Way::Down, Way::Up] {
        let wire = Wire {
            subchannel,
            path,
            way,
        };
        if !put_wire(sink, looked, &wire) {
            return false;
        }
    }
    true
}

/// The signals that wait on a wire; nothing where none does.
fn put_wire<S: Sink>(sink: &mut S, looked: &Looked<'_>, wire: &Wire) -> bool {
    let signals = looked.waiting.signals(wire);
    if signals.is_empty() {
        return true;
    }
    if !put_wire_name(sink, looked.parties, wire) {
        return false;
    }
    for signal in signals {
        if !(sink.put(b"  ")
            && put_signal(sink, signal, kind_of(looked.parties, wire.subchannel)))
        {
            return false;
        }
    }
    sink.put(b"\n")
}

/// `subchannel 0 path 1 up`.
fn put_wire_name<S: Sink>(sink: &mut S, parties: &Parties, wire: &Wire) -> bool {
    let named = match parties.subchannels.as_slice().get(wire.subchannel) {
        Some(setup) => put_name(sink, setup),
        None => true,
    };
    named && put_path_and_way(sink, *wire)
}

/// Whom a unit is held by, and its command at hand.
fn put_unit<S: Sink>(sink: &mut S, looked: &Looked<'_>, unit: usize) -> bool {
    match (
        looked.parties.units.as_slice().get(unit),
        looked.sight.units.as_slice().get(unit),
    ) {
        (Some(kind), Some(seen)) => {
            let owner = owner_of(looked.parties, unit, seen);
            let named = sink.put(b"unit ")
                && put_hexadecimal(sink, unit as u64)
                && sink.put(b"  ")
                && put_owner(sink, looked.parties, &owner);
            let told = match command_of(seen) {
                Some(command) => { sink.put(b"; ") && put_command_at_hand(sink, *kind, command) }
                None => true,
            };
            named && told && sink.put(b"\n")
        }
        _ => sink.put(b"no such unit\n"),
    }
}
