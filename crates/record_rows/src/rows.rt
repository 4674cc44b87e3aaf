//! The rows of what moved on the wires, and of what changed: of each its kind, of what it tells, and what is told.

use crate::Place;
use crate::objects::{Object, put_object};
use crate::refusals::{refusal_name, refused_object};
use crate::values::put_value;
use record_text::names::direction_name;
use record_text::number::put_decimal;
use step_records::record::{
    DeviceAct, Direction, Fact, Mask, Moved, ProgramStage, ReportChange, RequestChange,
};
use streams::Sink;

/// The row of a fact, which is not the owner of a unit.
pub(crate) fn put_row<S: Sink>(sink: &mut S, place: &Place<'_>, fact: &Fact) -> bool {
    put_head(sink, place, row_kind(fact), object_of(fact), what_of(fact))
        && put_value(sink, place.parties, fact)
        && sink.put(b"\n")
}

/// A row up to its value.
fn put_head<S: Sink>(
    sink: &mut S,
    place: &Place<'_>,
    kind: &[u8],
    object: Object,
    what: &[u8],
) -> bool {
    put_decimal(sink, place.line)
        && sink.put(b"\t")
        && sink.put(kind)
        && sink.put(b"\t")
        && put_object(sink, place.parties, &object)
        && sink.put(b"\t")
        && sink.put(what)
        && sink.put(b"\t")
}

/// A row of a change at a unit, up to its value.
pub(crate) fn put_change<S: Sink>(
    sink: &mut S,
    place: &Place<'_>,
    unit: usize,
    what: &[u8],
) -> bool {
    put_head(sink, place, b"change", Object::Unit(unit), what)
}

/// What kind of fact it is.
fn row_kind(fact: &Fact) -> &'static [u8] {
    match fact {
        Fact::Signal { .. } => b"signal",
        Fact::Device { .. } => b"device",
        Fact::Report { .. } => b"report",
        Fact::Program { .. } => b"program",
        Fact::Orb { .. } | Fact::Ccw { .. } => b"fetch",
        Fact::Copy { .. } => b"copy",
        Fact::StatusMade { .. } | Fact::StatusCleared { .. } => b"status",
        Fact::Request { .. } => b"request",
        Fact::Refused(_) => b"refusal",
        _ => b"change",
    }
}

/// Of what it tells.
fn object_of(fact: &Fact) -> Object {
    match fact {
        Fact::PathState { chpid, .. } => Object::ChannelPath(u32::from(*chpid)),
        Fact::Refused(refusal) => refused_object(refusal),
        Fact::Signal { wire, .. } => Object::Wire(*wire),
        Fact::Owner { unit, .. }
        | Fact::Command { unit, .. }
        | Fact::AttentionTaken { unit, .. }
        | Fact::Device { unit, .. } => Object::Unit(*unit),
        Fact::Hold { subchannel, .. }
        | Fact::Enabled { subchannel, .. }
        | Fact::Mask { subchannel, .. }
        | Fact::Functions { subchannel, .. }
        | Fact::Orb { subchannel, .. }
        | Fact::Program { subchannel, .. }
        | Fact::Ccw { subchannel, .. }
        | Fact::Copy { subchannel, .. }
        | Fact::StatusMade { subchannel, .. }
        | Fact::StatusCleared { subchannel, .. }
        | Fact::Request { subchannel, .. } => Object::Subchannel(*subchannel),
        Fact::Event | Fact::Found { .. } | Fact::Answer(_) | Fact::Report { .. } => Object::Step,
    }
}

/// What is told.
fn what_of(fact: &Fact) -> &'static [u8] {
    match fact {
        Fact::PathState { .. } => b"path",
        Fact::Refused(refusal) => refusal_name(refusal),
        Fact::Signal { moved, .. } => moved_name(*moved),
        Fact::Command { .. } => b"command",
        Fact::AttentionTaken { .. } => b"attention",
        Fact::Device { act, .. } => act_name(act),
        Fact::Report { change, .. } => report_name(*change),
        Fact::Hold { .. } => b"hold",
        Fact::Enabled { .. } => b"enabled",
        Fact::Mask { mask, .. } => mask_name(*mask),
        Fact::Functions { .. } => b"functions",
        Fact::Orb { .. } => b"orb",
        Fact::Program { stage, .. } => stage_name(*stage),
        Fact::Ccw { .. } => b"ccw",
        Fact::Copy { direction, .. } => direction_name(*direction),
        Fact::StatusMade { .. } => b"made",
        Fact::StatusCleared { .. } => b"cleared",
        Fact::Request { change, .. } => request_name(*change),
        Fact::Event | Fact::Found { .. } | Fact::Answer(_) | Fact::Owner { .. } => b"",
    }
}

/// What became of a signal. One that was ignored was taken off its wire too: the answer of the line tells that nothing came of it.
fn moved_name(moved: Moved) -> &'static [u8] {
    match moved {
        Moved::Sent => b"send",
        Moved::Taken | Moved::Ignored => b"take",
        Moved::Lost => b"lose",
        Moved::Vanished => b"vanish",
    }
}

fn act_name(act: &DeviceAct) -> &'static [u8] {
    match act {
        DeviceAct::Asks => b"asks",
        DeviceAct::Nothing => b"nothing",
        DeviceAct::Absorbed(_) => b"absorbed",
        DeviceAct::Gave(_) => b"gave",
        DeviceAct::Again => b"again",
        DeviceAct::Ended { .. } => b"end",
        DeviceAct::Restarted => b"restart",
    }
}

fn report_name(change: ReportChange) -> &'static [u8] {
    match change {
        ReportChange::Waits => b"waits",
        ReportChange::TakenOut => b"taken",
        ReportChange::Lost => b"lost",
    }
}

fn mask_name(mask: Mask) -> &'static [u8] {
    match mask {
        Mask::Logical => b"lpm",
        Mask::NotOperational => b"pnom",
        Mask::LastUsed => b"lpum",
        Mask::Operational => b"pom",
        Mask::Available => b"pam",
    }
}

fn stage_name(stage: ProgramStage) -> &'static [u8] {
    match stage {
        ProgramStage::Waits => b"waits",
        ProgramStage::Holds => b"holds",
        ProgramStage::Suspended => b"suspended",
        ProgramStage::Over => b"over",
    }
}

fn request_name(change: RequestChange) -> &'static [u8] {
    match change {
        RequestChange::Posted => b"posted",
        RequestChange::TakenOut => b"taken",
        RequestChange::Dropped => b"dropped",
    }
}
