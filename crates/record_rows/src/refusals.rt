//! The rows of refusals: the rule by a name, and its value by fields.

use crate::objects::Object;
use record_text::fields::put_named;
use record_text::front::put_front_fields;
use record_text::names::{put_subchannel, side_number};
use record_text::number::put_eight_digits;
use step_records::parties::Parties;
use step_records::refusal::{
    Boundary, Front, OperandRefusal, OrbBit, PathRefusal, Refusal, StorageRefusal, UnitRefusal,
};
use streams::Sink;

/// Of what a refusal tells.
pub(crate) fn refused_object(refusal: &Refusal) -> Object {
    match refusal {
        Refusal::NothingWaits { wire, .. } => Object::Wire(*wire),
        Refusal::NoSubchannel { word }
        | Refusal::Operand(
            OperandRefusal::Identification { word } | OperandRefusal::EmptySet { word },
        ) => Object::Word(*word),
        Refusal::NoPath { subchannel, .. } => Object::Subchannel(*subchannel),
        Refusal::NoChannelPath { chpid }
        | Refusal::Path { chpid, .. }
        | Refusal::Operand(OperandRefusal::ChannelPath { chpid }) => Object::ChannelPath(*chpid),
        Refusal::NoUnit { unit } => Object::Unit(*unit as usize),
        Refusal::Unit { unit, .. } => Object::Unit(*unit),
        Refusal::Bare(_)
        | Refusal::NoMemory
        | Refusal::WireFull
        | Refusal::Storage { .. }
        | Refusal::Operand(OperandRefusal::Orb(_) | OperandRefusal::Schib) => Object::Step,
    }
}

/// The rule that a line was refused by.
pub(crate) fn refusal_name(refusal: &Refusal) -> &'static [u8] {
    match refusal {
        Refusal::Bare(_) => b"refused",
        Refusal::NoMemory => b"no-memory",
        Refusal::WireFull => b"wire-full",
        Refusal::NothingWaits { .. } => b"nothing-waits",
        Refusal::NoSubchannel { .. } => b"no-subchannel",
        Refusal::NoPath { .. } => b"no-path",
        Refusal::NoChannelPath { .. } => b"no-channel-path",
        Refusal::NoUnit { .. } => b"no-unit",
        Refusal::Path { why, .. } => path_name(*why),
        Refusal::Unit { why, .. } => unit_name(why),
        Refusal::Storage { why, .. } => storage_name(*why),
        Refusal::Operand(why) => operand_name(*why),
    }
}

fn path_name(why: PathRefusal) -> &'static [u8] {
    match why {
        PathRefusal::Down => b"is-down",
        PathRefusal::Up => b"is-up",
        PathRefusal::NoReset => b"no-reset",
    }
}

fn unit_name(why: &UnitRefusal) -> &'static [u8] {
    match why {
        UnitRefusal::Signal { .. } => b"signal-waits",
        UnitRefusal::NoCommand => b"no-command",
        UnitRefusal::Ended => b"ended",
        UnitRefusal::Unanswered => b"unanswered",
        UnitRefusal::Idle => b"not-held",
        UnitRefusal::Held { .. } => b"held",
        UnitRefusal::Connected { .. } => b"connected",
        UnitRefusal::Disconnected { .. } => b"not-connected",
        UnitRefusal::Unreached(_) => b"not-reached",
        UnitRefusal::NotReset(_) => b"not-reset",
        UnitRefusal::NotRestarted(_) => b"not-restarted",
    }
}

fn storage_name(why: StorageRefusal) -> &'static [u8] {
    match why {
        StorageRefusal::Addressing => b"addressing",
        StorageRefusal::Protection => b"protection",
        StorageRefusal::Specification(_) => b"specification",
    }
}

fn operand_name(why: OperandRefusal) -> &'static [u8] {
    match why {
        OperandRefusal::Identification { .. } => b"no-identification",
        OperandRefusal::EmptySet { .. } => b"empty-set",
        OperandRefusal::Orb(_) => b"orb",
        OperandRefusal::Schib => b"schib",
        OperandRefusal::ChannelPath { .. } => b"no-identifier",
    }
}

/// What is told of a refusal beside its rule and its object.
pub(crate) fn put_refusal_fields<S: Sink>(
    sink: &mut S,
    parties: &Parties,
    refusal: &Refusal,
) -> bool {
    match refusal {
        Refusal::NothingWaits { elsewhere, .. } => put_elsewhere(sink, elsewhere),
        Refusal::NoPath { paths, .. } => put_named(sink, b"paths=", *paths as u64),
        Refusal::NoSubchannel { word }
        | Refusal::Operand(
            OperandRefusal::Identification { word } | OperandRefusal::EmptySet { word },
        ) => sink.put(b"word=") && put_eight_digits(sink, *word),
        Refusal::Unit { why, .. } => put_unit_fields(sink, parties, why),
        Refusal::Storage { address, why } => {
            put_named(sink, b"address=", u64::from(*address)) && put_boundary(sink, *why)
        }
        Refusal::Operand(OperandRefusal::Orb(bit)) => sink.put(b"bit=") && sink.put(bit_name(*bit)),
        _ => true,
    }
}

/// What waits on another wire of the subchannel.
fn put_elsewhere<S: Sink>(sink: &mut S, elsewhere: &Option<Front>) -> bool {
    match elsewhere {
        Some(front) => put_front_fields(sink, front),
        None => sink.put(b"none"),
    }
}

/// What is told of a unit that does not act now.
fn put_unit_fields<S: Sink>(sink: &mut S, parties: &Parties, why: &UnitRefusal) -> bool {
    match why {
        UnitRefusal::Signal { subchannel, front } => {
            sink.put(b"sub=")
                && put_subchannel(sink, parties, *subchannel)
                && sink.put(b" ")
                && put_front_fields(sink, front)
        }
        UnitRefusal::Held { number } | UnitRefusal::Disconnected { number } => {
            put_named(sink, b"t=", *number)
        }
        UnitRefusal::Connected { number, path } => {
            put_named(sink, b"t=", *number) && put_named(sink, b" path=", path.index() as u64)
        }
        UnitRefusal::Unreached(side)
        | UnitRefusal::NotReset(side)
        | UnitRefusal::NotRestarted(side) => put_named(sink, b"side=", side_number(*side)),
        UnitRefusal::NoCommand | UnitRefusal::Ended | UnitRefusal::Unanswered | UnitRefusal::Idle =>
            true,
    }
}

/// The boundary that an address must be on, where it is not.
fn put_boundary<S: Sink>(sink: &mut S, why: StorageRefusal) -> bool {
    let StorageRefusal::Specification(boundary) = why else {
        return true;
    };
    sink.put(match boundary {
        Boundary::Word => b" boundary=4",
        Boundary::PathStatus => b" boundary=20",
        Boundary::Prefix => b" boundary=2000",
    })
}

fn bit_name(bit: OrbBit) -> &'static [u8] {
    match bit {
        OrbBit::ChannelProgramType => b"channel-program-type",
        OrbBit::Extension => b"extension",
        OrbBit::Reserved => b"reserved",
        OrbBit::ProgramAddress => b"program-address",
    }
}
