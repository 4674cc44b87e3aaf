//! The words of the other facts: of programs, devices, statuses, requests, reports and units.

use crate::fields::{put_between, put_named, put_named_bytes};
use crate::names::{direction_name, put_subchannel};
use crate::number::{put_eight_digits, put_hexadecimal, put_two_digits};
use channel_config::parts::UnitKind;
use script_text::put_bytes;
use scsw_irb::crw::Crw;
use step_records::parties::Parties;
use step_records::record::{
    Cause, CommandAtHand, DeviceAct, Direction, Holder, Owner, Place, ProgramStage, ReportChange,
    RequestChange,
};
use streams::Sink;
use word_names::put_command_name;

/// How far a program is: `start 1 waits`.
pub fn put_program<S: Sink>(sink: &mut S, start: u64, stage: ProgramStage) -> bool {
    put_named(sink, b"start ", start)
        && sink.put(match stage {
            ProgramStage::Waits => b" waits",
            ProgramStage::Holds => b" holds the device",
            ProgramStage::Suspended => b" is suspended",
            ProgramStage::Over => b" is over",
        })
}

/// What a device did: `asks for bytes`.
pub fn put_device_act<S: Sink>(sink: &mut S, act: &DeviceAct) -> bool {
    match act {
        DeviceAct::Asks => sink.put(b"asks for bytes"),
        DeviceAct::Nothing => sink.put(b"has nothing to say yet"),
        DeviceAct::Absorbed(bytes) => put_named_bytes(sink, b"absorbs ", bytes.as_slice()),
        DeviceAct::Gave(bytes) => put_named_bytes(sink, b"supplies ", bytes.as_slice()),
        DeviceAct::Again => sink.put(b"sends its last Data again"),
        DeviceAct::Ended { .. } => sink.put(b"ended the command"),
        DeviceAct::Restarted => sink.put(b"restarted"),
    }
}

/// What made status pending: `the end of the last command`.
pub fn put_cause<S: Sink>(sink: &mut S, cause: Cause) -> bool {
    sink.put(match cause {
        Cause::ClearDone => b"the clear is done",
        Cause::HaltDone => b"the halt is done",
        Cause::NoPath => b"no path is left",
        Cause::InterfaceControlCheck => b"interface-control check",
        Cause::Attention => b"attention",
        Cause::Suspension => b"suspension",
        Cause::ProgramControlled => b"program-controlled interruption",
        Cause::FetchFault => b"a CCW that could not be fetched or could not take control",
        Cause::End => b"the end of the last command",
    })
}

/// What became of a request: `request for an interruption of subclass 5: posted`.
pub fn put_request<S: Sink>(sink: &mut S, subclass: u8, change: RequestChange) -> bool {
    put_named(
        sink,
        b"request for an interruption of subclass ",
        u64::from(subclass),
    ) && sink.put(match change {
        RequestChange::Posted => b": posted",
        RequestChange::TakenOut => b": taken by tpi",
        RequestChange::Dropped => b": taken away with the status",
    })
}

/// What became of a channel report: `report 04060010 waits`.
pub fn put_report<S: Sink>(sink: &mut S, crw: Crw, change: ReportChange) -> bool {
    sink.put(b"report ")
        && put_eight_digits(sink, crw.word())
        && sink.put(match change {
            ReportChange::Waits => b" waits",
            ReportChange::TakenOut => b" is taken",
            ReportChange::Lost => b" is lost: 16 waited",
        })
}

/// A channel path that came up or went down: `channel path 10 is down`.
pub fn put_path_state<S: Sink>(sink: &mut S, chpid: u8, up: bool) -> bool {
    sink.put(b"channel path ")
        && put_two_digits(sink, chpid)
        && sink.put(if up { b" is up" } else { b" is down" })
}

/// What may be started at a subchannel: `enabled, subclass 0`.
pub fn put_enabled<S: Sink>(sink: &mut S, enabled: bool, subclass: u8, multipath: bool) -> bool {
    let first: &[u8] = if enabled {
        b"enabled, subclass "
    } else {
        b"not enabled, subclass "
    };
    put_named(sink, first, u64::from(subclass)) && (!multipath || sink.put(b", multipath mode"))
}

/// Whom a unit is held by: `held by 1 of 0, floor 1`.
pub fn put_owner<S: Sink>(sink: &mut S, parties: &Parties, owner: &Owner) -> bool {
    put_holder(sink, parties, &owner.holder) && put_named(sink, b", floor ", owner.floor)
}

fn put_holder<S: Sink>(sink: &mut S, parties: &Parties, holder: &Option<Holder>) -> bool {
    match holder {
        None => sink.put(b"idle"),
        Some(holder) => {
            put_named(sink, b"held by ", holder.number)
                && sink.put(b" of ")
                && put_subchannel(sink, parties, holder.subchannel)
                && (matches!(holder.place, Place::On(_))
                    || sink.put(b", ") && put_place(sink, holder.place))
        }
    }
}

/// Where a program is: `on path 0`.
pub fn put_place<S: Sink>(sink: &mut S, place: Place) -> bool {
    match place {
        Place::On(path) => put_named(sink, b"on path ", path.index() as u64),
        Place::Asks(path) => put_named(sink, b"asks for path ", path.index() as u64),
        Place::Away => sink.put(b"away"),
    }
}

/// What a unit learned: `attention 1 was taken`.
pub fn put_attention_taken<S: Sink>(sink: &mut S, attention: u64) -> bool {
    put_between(sink, b"attention ", attention, b" was taken")
}

/// Bytes that were fetched from storage or stored there: `fetched C1C2 at 2000`.
pub fn put_copy<S: Sink>(sink: &mut S, direction: Direction, address: u32, bytes: &[u8]) -> bool {
    sink.put(direction_name(direction))
        && sink.put(b" ")
        && put_bytes(sink, bytes)
        && put_named(sink, b" at ", u64::from(address))
}

/// A command that a unit has at hand: `command 1, write`.
pub fn put_command_at_hand<S: Sink>(sink: &mut S, kind: UnitKind, command: CommandAtHand) -> bool {
    put_named(sink, b"command ", command.number)
        && sink.put(b", ")
        && put_command_name(sink, kind, command.code)
}

/// How many bytes, in hexadecimal digits, and what they are: `4 bytes`.
pub fn put_byte_count<S: Sink>(sink: &mut S, count: u16) -> bool {
    put_hexadecimal(sink, u64::from(count))
        && sink.put(if count == 1 { b" byte" } else { b" bytes" })
}
