//! The values of rows.

use crate::refusals::put_refusal_fields;
use ccw_codec::Ccw;
use record_text::block_words::{ccw_flags, orb_words};
use record_text::fields::{Field, put_named, put_named_bytes, put_three};
use record_text::hold_text::put_hold_fields;
use record_text::number::{put_eight_digits, put_two_digits};
use record_text::signal_fields::{put_more, put_signal_fields};
use script_text::{put_bytes, put_word};
use step_records::parties::Parties;
use step_records::record::{Cause, CommandAtHand, DeviceAct, Fact};
use streams::Sink;

/// The value of a fact; of a change what was, and what is.
pub(crate) fn put_value<S: Sink>(sink: &mut S, parties: &Parties, fact: &Fact) -> bool {
    match fact {
        Fact::PathState { up, .. } => sink.put(if *up { b"down > up" } else { b"up > down" }),
        Fact::Refused(refusal) => put_refusal_fields(sink, parties, refusal),
        Fact::Signal { signal, .. } => put_signal_fields(sink, signal),
        Fact::Command { before, after, .. } => {
            put_at_hand(sink, before) && sink.put(b" > ") && put_at_hand(sink, after)
        }
        Fact::AttentionTaken { attention, .. } => put_named(sink, b"taken a=", *attention),
        Fact::Device { act, .. } => put_act(sink, act),
        Fact::Report { crw, .. } => sink.put(b"crw=") && put_eight_digits(sink, crw.word()),
        other => put_subchannel_value(sink, other),
    }
}

/// The value of a fact of a subchannel.
fn put_subchannel_value<S: Sink>(sink: &mut S, fact: &Fact) -> bool {
    match fact {
        Fact::Hold { before, after, .. } => {
            put_hold_fields(sink, before) && sink.put(b" > ") && put_hold_fields(sink, after)
        }
        Fact::Enabled {
            enabled,
            subclass,
            multipath,
            ..
        } => put_three(
            sink,
            Field(b"enabled=", u64::from(*enabled)),
            Field(b" subclass=", u64::from(*subclass)),
            Field(b" multipath=", u64::from(*multipath)),
        ),
        Fact::Mask { before, after, .. } => {
            put_two_digits(sink, *before) && sink.put(b" > ") && put_two_digits(sink, *after)
        }
        Fact::Functions { before, after, .. } => {
            put_eight_digits(sink, *before) && sink.put(b" > ") && put_eight_digits(sink, *after)
        }
        Fact::Orb { orb, .. } => put_three_words(sink, &orb_words(orb)),
        Fact::Program { start, .. } => put_named(sink, b"start=", *start),
        Fact::Ccw { address, ccw, .. } => put_ccw(sink, *address, ccw),
        Fact::Copy { address, bytes, .. } => {
            put_named(sink, b"at=", u64::from(*address))
                && put_named_bytes(sink, b" bytes=", bytes.as_slice())
        }
        other => put_status_value(sink, other),
    }
}

/// The value of a fact of status, or of a request for an interruption.
fn put_status_value<S: Sink>(sink: &mut S, fact: &Fact) -> bool {
    match fact {
        Fact::StatusMade {
            words,
            serial,
            cause,
            ..
        } => {
            put_three_words(sink, words)
                && put_named(sink, b" serial=", *serial)
                && sink.put(b" cause=")
                && sink.put(cause_name(*cause))
        }
        Fact::StatusCleared { serial, .. } => put_named(sink, b"serial=", *serial),
        Fact::Request { subclass, .. } => put_named(sink, b"subclass=", u64::from(*subclass)),
        _ => true,
    }
}

/// Three words, each of eight digits, parted by blanks.
fn put_three_words<S: Sink>(sink: &mut S, words: &[u32; 3]) -> bool {
    put_eight_digits(sink, words[0]) && put_word(sink, words[1]) && put_word(sink, words[2])
}

/// A channel-command word, and where it stands.
fn put_ccw<S: Sink>(sink: &mut S, address: u32, ccw: &Ccw) -> bool {
    put_named(sink, b"at=", u64::from(address))
        && sink.put(b" code=")
        && put_two_digits(sink, ccw.command)
        && sink.put(b" flags=")
        && put_two_digits(sink, ccw_flags(ccw))
        && put_named(sink, b" count=", u64::from(ccw.count))
        && put_named(sink, b" address=", u64::from(ccw.address))
}

fn cause_name(cause: Cause) -> &'static [u8] {
    match cause {
        Cause::ClearDone => b"clear-done",
        Cause::HaltDone => b"halt-done",
        Cause::NoPath => b"no-path",
        Cause::InterfaceControlCheck => b"interface-control-check",
        Cause::Attention => b"attention",
        Cause::Suspension => b"suspension",
        Cause::ProgramControlled => b"program-controlled-interruption",
        Cause::FetchFault => b"fetch-fault",
        Cause::End => b"end",
    }
}

/// The command that a unit has at hand.
fn put_at_hand<S: Sink>(sink: &mut S, command: &Option<CommandAtHand>) -> bool {
    match command {
        None => sink.put(b"none"),
        Some(command) => {
            put_named(sink, b"n=", command.number)
                && sink.put(b" code=")
                && put_two_digits(sink, command.code)
        }
    }
}

/// What a device did: bytes, or an end.
fn put_act<S: Sink>(sink: &mut S, act: &DeviceAct) -> bool {
    match act {
        DeviceAct::Asks | DeviceAct::Nothing | DeviceAct::Again | DeviceAct::Restarted => true,
        DeviceAct::Absorbed(bytes) | DeviceAct::Gave(bytes) => {
            sink.put(b"bytes=") && put_bytes(sink, bytes.as_slice())
        }
        DeviceAct::Ended { status, more } => {
            sink.put(b"status=") && put_two_digits(sink, status.bits()) && put_more(sink, *more)
        }
    }
}
