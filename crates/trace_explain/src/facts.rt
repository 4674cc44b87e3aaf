//! What moved on the wires, and what changed, each in a line of its own.

use crate::scsw::{Indent, put_scsw};
use crate::unit_facts::put_unit_fact;
use ccw_codec::command::is_transfer;
use ccw_codec::{Ccw, Format};
use chan_model::hold_state::HoldState;
use channel_config::parts::UnitKind;
use orb_block::Orb;
use record_text::block_words::{ccw_flags, orb_words};
use record_text::fields::{put_between, put_named};
use record_text::hold_text::put_hold;
use record_text::names::{kind_of, put_subchannel};
use record_text::signal::put_signal;
use record_text::told::{
    put_byte_count, put_cause, put_copy, put_enabled, put_path_state, put_program, put_report,
    put_request,
};
use script_text::put_words;
use scsw_irb::crw::Crw;
use step_records::parties::Parties;
use step_records::record::{Cause, Fact, Moved, ReportChange, Signal, Way, Wire};
use step_records::style::Drawing;
use streams::Sink;
use word_names::{put_ccw_flags, put_command_name, put_orb};

/// An arrow between what was and what is.
pub(crate) fn arrow(drawing: Drawing) -> &'static [u8] {
    match drawing {
        Drawing::Drawn => b"  \xE2\x86\x92  ",
        Drawing::Ascii => b"  >  ",
    }
}

/// A cross before what is lost.
fn cross(drawing: Drawing) -> &'static [u8] {
    match drawing {
        Drawing::Drawn => b"  \xE2\x95\xB3 ",
        Drawing::Ascii => b"  X ",
    }
}

/// A fact of a step; nothing for one that only `records` tells.
pub(crate) fn put_fact<S: Sink>(
    sink: &mut S,
    parties: &Parties,
    drawing: Drawing,
    fact: &Fact,
) -> bool {
    match fact {
        Fact::PathState { chpid, up } => {
            sink.put(b"    ") && put_path_state(sink, *chpid, *up) && sink.put(b"\n")
        }
        Fact::Signal {
            wire,
            moved,
            signal,
        } => put_moved(sink, parties, drawing, *wire, *moved, signal),
        Fact::Report { change, crw } => put_report_fact(sink, *change, *crw),
        Fact::Owner { .. }
        | Fact::Command { .. }
        | Fact::AttentionTaken { .. }
        | Fact::Device { .. } => put_unit_fact(sink, parties, drawing, fact),
        Fact::Orb { orb, .. } => put_orb_fact(sink, orb),
        Fact::Ccw { .. } => put_ccw(sink, parties, fact),
        Fact::Copy {
            direction,
            address,
            bytes,
            ..
        } => {
            sink.put(b"    ")
                && put_copy(sink, *direction, *address, bytes.as_slice())
                && sink.put(b"\n")
        }
        other => put_subchannel_fact(sink, parties, drawing, other),
    }
}

/// A signal that was put on its wire or came off it.
fn put_moved<S: Sink>(
    sink: &mut S,
    parties: &Parties,
    drawing: Drawing,
    wire: Wire,
    moved: Moved,
    signal: &Signal,
) -> bool {
    let kind = kind_of(parties, wire.subchannel);
    put_wire(sink, wire)
        && put_mark(sink, drawing, moved)
        && put_signal(sink, signal, kind)
        && sink.put(b"\n")
}

/// The path of a wire, and which way it goes.
fn put_wire<S: Sink>(sink: &mut S, wire: Wire) -> bool {
    put_between(sink, b"    path ", wire.path.index() as u64, b" ")
        && sink.put(match wire.way {
            Way::Down => b"down",
            Way::Up => b"up  ",
        })
}

/// What became of a signal.
fn put_mark<S: Sink>(sink: &mut S, drawing: Drawing, moved: Moved) -> bool {
    match moved {
        Moved::Sent => sink.put(b"  + "),
        Moved::Taken | Moved::Ignored => sink.put(b"  - "),
        Moved::Lost => sink.put(cross(drawing)) && sink.put(b"lost: "),
        Moved::Vanished => sink.put(cross(drawing)) && sink.put(b"vanished: "),
    }
}

/// A channel report; the answer of the instruction tells that it was taken.
fn put_report_fact<S: Sink>(sink: &mut S, change: ReportChange, crw: Crw) -> bool {
    match change {
        ReportChange::TakenOut => true,
        ReportChange::Waits | ReportChange::Lost => {
            sink.put(b"    channel ") && put_report(sink, crw, change) && sink.put(b"\n")
        }
    }
}

/// An operation-request block: its words, and what they say.
fn put_orb_fact<S: Sink>(sink: &mut S, orb: &Orb) -> bool {
    let words = orb_words(orb);
    sink.put(b"    ORB")
        && put_words(sink, &words)
        && sink.put(b": ")
        && put_orb(sink, &words)
        && sink.put(b"\n")
}

/// A channel-command word.
fn put_ccw<S: Sink>(sink: &mut S, parties: &Parties, fact: &Fact) -> bool {
    match fact {
        Fact::Ccw {
            subchannel,
            address,
            format,
            ccw,
            goes_on,
        } => {
            put_named(sink, b"    CCW ", u64::from(*address))
                && put_format(sink, *format)
                && if is_transfer(*format, ccw.command) {
                    put_named(sink, b"transfer in channel to ", u64::from(ccw.address))
                } else {
                    put_command(sink, kind_of(parties, *subchannel), *goes_on, ccw)
                }
                && sink.put(b"\n")
        }
        _ => true,
    }
}

/// The format of a channel-command word, where it is 0.
fn put_format<S: Sink>(sink: &mut S, format: Format) -> bool {
    sink.put(match format {
        Format::Zero => b" (format 0): ",
        Format::One => b": ",
    })
}

/// A command, or how the one before goes on: how many bytes, where, and the flags.
fn put_command<S: Sink>(sink: &mut S, kind: UnitKind, goes_on: bool, ccw: &Ccw) -> bool {
    put_name(sink, kind, goes_on, ccw.command)
        && sink.put(b", ")
        && put_byte_count(sink, ccw.count)
        && put_named(sink, b" at ", u64::from(ccw.address))
        && put_ccw_flags(sink, ccw_flags(ccw))
}

fn put_name<S: Sink>(sink: &mut S, kind: UnitKind, goes_on: bool, command: u8) -> bool {
    if goes_on {
        sink.put(b"goes on")
    } else {
        put_command_name(sink, kind, command)
    }
}

/// What changed at a subchannel.
fn put_subchannel_fact<S: Sink>(
    sink: &mut S,
    parties: &Parties,
    drawing: Drawing,
    fact: &Fact,
) -> bool {
    match fact {
        Fact::Hold {
            subchannel,
            before,
            after,
        } => {
            put_subchannel_head(sink, parties, *subchannel)
                && put_hold_change(sink, drawing, before, after)
        }
        Fact::Enabled {
            subchannel,
            enabled,
            subclass,
            multipath,
        } => {
            put_subchannel_head(sink, parties, *subchannel)
                && put_enabled(sink, *enabled, *subclass, *multipath)
                && sink.put(b"\n")
        }
        Fact::Program {
            subchannel,
            start,
            stage,
        } => {
            put_subchannel_head(sink, parties, *subchannel)
                && put_program(sink, *start, *stage)
                && sink.put(b"\n")
        }
        Fact::StatusMade {
            subchannel,
            words,
            cause,
            ..
        } => { put_subchannel_head(sink, parties, *subchannel) && put_status(sink, words, *cause) }
        Fact::Request {
            subchannel,
            subclass,
            change,
        } => {
            put_subchannel_head(sink, parties, *subchannel)
                && put_request(sink, *subclass, *change)
                && sink.put(b"\n")
        }
        _ => true,
    }
}

/// The subchannel of which a line tells.
fn put_subchannel_head<S: Sink>(sink: &mut S, parties: &Parties, subchannel: usize) -> bool {
    sink.put(b"    subchannel ") && put_subchannel(sink, parties, subchannel) && sink.put(b"  ")
}

/// The subsystem's side, before and after.
fn put_hold_change<S: Sink>(
    sink: &mut S,
    drawing: Drawing,
    before: &HoldState,
    after: &HoldState,
) -> bool {
    sink.put(b"hold: ")
        && put_hold(sink, before)
        && sink.put(arrow(drawing))
        && put_hold(sink, after)
        && sink.put(b"\n")
}

/// Status that was made pending.
fn put_status<S: Sink>(sink: &mut S, words: &[u32; 3], cause: Cause) -> bool {
    sink.put(b"status is made pending by: ")
        && put_cause(sink, cause)
        && sink.put(b"\n")
        && put_scsw(sink, words, Indent::Six)
}
