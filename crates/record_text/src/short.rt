//! Facts in few words, as they are noted beside a line.

use crate::fields::{put_between, put_named};
use crate::hold_text::put_hold_short;
use crate::names::{direction_name, kind_of, unit_kind};
use crate::told::{put_command_at_hand, put_device_act, put_program, put_report};
use ccw_codec::command::is_transfer;
use step_records::parties::Parties;
use step_records::record::{Direction, Fact, RequestChange};
use streams::Sink;
use word_names::{put_command_name, put_count, put_short_status};
use zbits::field;

/// A fact in few words; nothing for one that each view tells in words of its own.
pub fn put_short<S: Sink>(sink: &mut S, parties: &Parties, fact: &Fact) -> bool {
    match fact {
        Fact::Report { change, crw } => put_report(sink, *crw, *change),
        Fact::Hold { after, .. } => put_hold_short(sink, after),
        Fact::Program { start, stage, .. } => put_program(sink, *start, *stage),
        Fact::Ccw { .. } => put_ccw(sink, parties, fact),
        Fact::StatusCleared { .. } => sink.put(b"status cleared"),
        Fact::Request {
            subclass,
            change,
            ..
        } => put_request(sink, *subclass, *change),
        Fact::Command {
            unit,
            after: Some(command),
            ..
        } => put_command_at_hand(sink, unit_kind(parties, *unit), *command),
        Fact::Device { act, .. } => put_device_act(sink, act),
        _ => true,
    }
}

/// What became of a request: `interruption due, ISC 5`.
fn put_request<S: Sink>(sink: &mut S, subclass: u8, change: RequestChange) -> bool {
    match change {
        RequestChange::Posted => { put_named(sink, b"interruption due, ISC ", u64::from(subclass)) }
        RequestChange::TakenOut => sink.put(b"its request is taken"),
        RequestChange::Dropped => sink.put(b"its request is gone"),
    }
}

/// A channel-command word that took control: `CCW 1000: write 4 at 2000`, `CCW 1008: go to 1000`.
fn put_ccw<S: Sink>(sink: &mut S, parties: &Parties, fact: &Fact) -> bool {
    let Fact::Ccw {
        subchannel,
        address,
        format,
        ccw,
        goes_on,
    } = fact
    else {
        return true;
    };
    if !put_between(sink, b"CCW ", u64::from(*address), b": ") {
        return false;
    }
    if is_transfer(*format, ccw.command) {
        return put_named(sink, b"go to ", u64::from(ccw.address));
    }
    let named = if *goes_on {
        sink.put(b"data")
    } else {
        put_command_name(sink, kind_of(parties, *subchannel), ccw.command)
    };
    named
        && put_named(sink, b" ", u64::from(ccw.count))
        && put_named(sink, b" at ", u64::from(ccw.address))
}

/// Of bytes that were fetched from storage or stored there all but the bytes: `fetched 2000: `.
pub fn put_copy_head<S: Sink>(sink: &mut S, direction: Direction, address: u32) -> bool {
    sink.put(direction_name(direction)) && put_between(sink, b" ", u64::from(address), b": ")
}

/// The device status and the subchannel status of the third word of a status, where there are some, and its count: `CE, DE, count 0`.
/// This stands before the count.
pub fn put_statuses<S: Sink>(sink: &mut S, word: u32, separator: &[u8]) -> bool {
    let device = field(word, 0, 7) as u8;
    let subchannel = field(word, 8, 15) as u8;
    (device == 0 && subchannel == 0
        || put_short_status(sink, device, subchannel) && sink.put(separator))
        && put_count(sink, word)
}
