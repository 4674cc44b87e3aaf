//! The texts in the lane of the subchannels.

use crate::lanes::Place;
use crate::layout::{Layout, names_subchannels};
use chan_events::reply::Reply;
use chan_model::fault::Fault;
use channel_config::names::SubchannelId;
use record_text::names::{put_subchannel, put_subchannel_id};
use record_text::number::{put_eight_digits, put_hexadecimal, put_two_digits};
use record_text::short::{put_copy_head, put_short, put_statuses};
use record_text::told::{put_enabled, put_report};
use script_text::{ActionResult, put_bytes, put_refusal};
use scsw_irb::code::IntCode;
use step_records::record::Fact;
use streams::Sink;
use word_names::put_status_names;

/// The text of a place in the lane.
pub fn put_subchannel_text<S: Sink>(sink: &mut S, layout: &Layout<'_>, place: Place<'_>) -> bool {
    match place.fact {
        Fact::Answer(answer) => put_told(sink, answer),
        Fact::PathState { chpid, up } => put_path_state(sink, *chpid, *up),
        Fact::Report { change, crw } => put_report(sink, *crw, *change),
        Fact::StatusMade { words, .. } if place.part > 0 => {
            let [_, _, word] = words;
            sink.put(b"  ") && put_statuses(sink, *word, b", ")
        }
        fact => put_whose(sink, layout, fact) && put_change(sink, layout, fact),
    }
}

/// The subchannel of a fact, where there are several.
fn put_whose<S: Sink>(sink: &mut S, layout: &Layout<'_>, fact: &Fact) -> bool {
    let parties = &layout.trace.parties;
    match subchannel_of(fact) {
        Some(subchannel) if names_subchannels(parties) => {
            put_subchannel(sink, parties, subchannel) && sink.put(b": ")
        }
        _ => true,
    }
}

/// The subchannel that a fact is about.
fn subchannel_of(fact: &Fact) -> Option<usize> {
    match fact {
        Fact::Signal { wire, .. } => Some(wire.subchannel),
        Fact::Hold { subchannel, .. }
        | Fact::Enabled { subchannel, .. }
        | Fact::Program { subchannel, .. }
        | Fact::Ccw { subchannel, .. }
        | Fact::Copy { subchannel, .. }
        | Fact::StatusMade { subchannel, .. }
        | Fact::StatusCleared { subchannel, .. }
        | Fact::Request { subchannel, .. } => Some(*subchannel),
        _ => None,
    }
}

/// What changed at a subchannel.
fn put_change<S: Sink>(sink: &mut S, layout: &Layout<'_>, fact: &Fact) -> bool {
    match fact {
        Fact::Signal { .. } => sink.put(b"ignores it"),
        Fact::Enabled {
            enabled,
            subclass,
            multipath,
            ..
        } => {
            put_enabled(sink, *enabled, *subclass, false)
                && sink.put(if *multipath { b", D" } else { b"" })
        }
        Fact::Copy {
            direction,
            address,
            bytes,
            ..
        } => put_copy_head(sink, *direction, *address) && put_bytes(sink, bytes.as_slice()),
        Fact::StatusMade { words, .. } => {
            let [word, _, _] = words;
            sink.put(b"STATUS ") && put_status_names(sink, *word)
        }
        other => put_short(sink, &layout.trace.parties, other),
    }
}

/// A refusal, or the code of an interruption.
fn put_told<S: Sink>(sink: &mut S, answer: &Result<ActionResult, Fault>) -> bool {
    match answer {
        Err(fault) => put_refusal(sink, fault),
        Ok(ActionResult::Reply(reply)) => put_interruption(sink, reply),
        Ok(_) => true,
    }
}

/// The code of an interruption, where a reply has one.
fn put_interruption<S: Sink>(sink: &mut S, reply: &Reply) -> bool {
    match reply {
        Reply::Interruption(Some(code)) => put_int_code(sink, code),
        _ => true,
    }
}

/// The code of an interruption.
fn put_int_code<S: Sink>(sink: &mut S, code: &IntCode) -> bool {
    let id = SubchannelId {
        set: code.set,
        number: code.subchannel,
    };
    sink.put(b"code: ")
        && put_subchannel_id(sink, id)
        && sink.put(b", ")
        && put_eight_digits(sink, code.parameter)
        && sink.put(b", ISC ")
        && put_hexadecimal(sink, u64::from(code.subclass))
}

/// A channel path that went down or came up.
fn put_path_state<S: Sink>(sink: &mut S, chpid: u8, up: bool) -> bool {
    sink.put(b"channel path ")
        && put_two_digits(sink, chpid)
        && sink.put(if up { b" up" } else { b" down" })
}
