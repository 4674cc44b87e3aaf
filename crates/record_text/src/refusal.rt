//! Why a line was refused, in words: what stands there.

use crate::front::{put_front, put_line_of, way_of};
use crate::names::{put_subchannel, put_subchannel_word, put_way};
use crate::number::{put_decimal, put_hexadecimal};
use crate::unit_refusal::put_unit_refusal;
use chan_model::fault::Fault;
use step_records::parties::Parties;
use step_records::record::Wire;
use step_records::refusal::{
    Boundary, Front, OperandRefusal, OrbBit, PathRefusal, Refusal, StorageRefusal,
};
use streams::Sink;

/// Why a line was refused, without `refused` and its number: `502 is no word boundary`.
pub fn put_refusal_reason<S: Sink>(sink: &mut S, parties: &Parties, refusal: &Refusal) -> bool {
    match refusal {
        Refusal::Bare(fault) => sink.put(fault_text(*fault)),
        Refusal::NoMemory => sink.put(fault_text(Fault::NoMemory)),
        Refusal::WireFull => sink.put(fault_text(Fault::WireFull)),
        Refusal::NothingWaits { wire, elsewhere } => {
            put_nothing_waits(sink, parties, *wire, elsewhere)
        }
        Refusal::NoSubchannel { word } => put_word_and(sink, *word, b" is not configured"),
        Refusal::NoPath { subchannel, paths } => put_no_path(sink, parties, *subchannel, *paths),
        Refusal::NoChannelPath { chpid } => put_path_and(sink, *chpid, b" is not configured"),
        Refusal::NoUnit { unit } => {
            sink.put(b"unit ")
                && put_hexadecimal(sink, u64::from(*unit))
                && sink.put(b" is not configured")
        }
        Refusal::Path { chpid, why } => put_path_and(sink, *chpid, path_text(*why)),
        Refusal::Unit { unit, why } => put_unit_refusal(sink, parties, *unit, why),
        Refusal::Storage { address, why } => {
            put_hexadecimal(sink, u64::from(*address)) && sink.put(storage_text(*why))
        }
        Refusal::Operand(why) => put_operand(sink, *why),
    }
}

/// What is told of a fault of which nothing more is known.
fn fault_text(fault: Fault) -> &'static [u8] {
    match fault {
        Fault::NoMemory => b"no memory is left",
        Fault::WireFull => b"8 signals wait on the wire, and it holds no more",
        Fault::NotSent => b"nothing waits on the wire",
        Fault::NoSuchSubchannel => b"there is no such subchannel",
        Fault::NoSuchPath => b"the subchannel has no such path",
        Fault::NoSuchUnit => b"there is no such unit",
        Fault::NotNow => b"not now",
        Fault::ConfigBad(_) => b"a rule of configurations is broken",
        Fault::ScriptBad(_, _) => b"a rule of scripts is broken",
        Fault::Storage(_) => b"storage refuses it",
        Fault::Operand => b"an operand is not allowed",
    }
}

/// A wire on which nothing waits, and what waits on others.
fn put_nothing_waits<S: Sink>(
    sink: &mut S,
    parties: &Parties,
    wire: Wire,
    elsewhere: &Option<Front>,
) -> bool {
    sink.put(b"nothing waits ")
        && put_way(sink, wire.way)
        && sink.put(b" path ")
        && put_decimal(sink, wire.path.index() as u64)
        && put_elsewhere(sink, parties, wire.subchannel, elsewhere)
}

/// What waits on another wire of a subchannel.
fn put_elsewhere<S: Sink>(
    sink: &mut S,
    parties: &Parties,
    subchannel: usize,
    elsewhere: &Option<Front>,
) -> bool {
    let Some(front) = elsewhere else {
        return sink.put(b"; nor on any other of its wires");
    };
    sink.put(b"; ")
        && put_way(sink, way_of(&front.signal))
        && sink.put(b" path ")
        && put_decimal(sink, front.path.index() as u64)
        && sink.put(b": ")
        && put_front(sink, &front.signal)
        && put_line_of(sink, parties, subchannel, front)
}

/// A subchannel by the word that names it, and a text behind it.
fn put_word_and<S: Sink>(sink: &mut S, word: u32, text: &[u8]) -> bool {
    sink.put(b"subchannel ") && put_subchannel_word(sink, word) && sink.put(text)
}

/// A channel path, and a text behind it.
fn put_path_and<S: Sink>(sink: &mut S, chpid: u32, text: &[u8]) -> bool {
    sink.put(b"path ") && put_hexadecimal(sink, u64::from(chpid)) && sink.put(text)
}

/// A path of a subchannel that there is not.
fn put_no_path<S: Sink>(sink: &mut S, parties: &Parties, subchannel: usize, paths: usize) -> bool {
    sink.put(b"subchannel ")
        && put_subchannel(sink, parties, subchannel)
        && sink.put(b" has ")
        && put_decimal(sink, paths as u64)
        && sink.put(b" paths, from 0")
}

/// What a channel path is.
fn path_text(why: PathRefusal) -> &'static [u8] {
    match why {
        PathRefusal::Down => b" is down already",
        PathRefusal::Up => b" is up already",
        PathRefusal::NoReset => b": no reset of it is asked for",
    }
}

/// What storage refuses an address for.
fn storage_text(why: StorageRefusal) -> &'static [u8] {
    match why {
        StorageRefusal::Addressing => b" and what follows it is not all in storage",
        StorageRefusal::Protection => b" is protected by its storage key",
        StorageRefusal::Specification(Boundary::Word) => b" is no word boundary",
        StorageRefusal::Specification(Boundary::PathStatus) => b" is no multiple of 20",
        StorageRefusal::Specification(Boundary::Prefix) => b" is no multiple of 2000",
    }
}

/// Which operand is not allowed.
fn put_operand<S: Sink>(sink: &mut S, why: OperandRefusal) -> bool {
    match why {
        OperandRefusal::Identification { word } => {
            put_word_and(sink, word, b" is no subsystem-identification word")
        }
        OperandRefusal::EmptySet { word } => {
            put_word_and(sink, word, b" is of a set that has no subchannel")
        }
        OperandRefusal::Orb(bit) => sink.put(b"ORB: ") && sink.put(bit_text(bit)),
        OperandRefusal::Schib => {
            sink.put(b"SCHIB: a bit that must be zero is one, or a field is too great")
        }
        OperandRefusal::ChannelPath { chpid } => {
            put_hexadecimal(sink, u64::from(chpid))
                && sink.put(b" is no identifier of a channel path")
        }
    }
}

/// The bit of an operation-request block that is one (SA22-7832, chapter 15).
fn bit_text(bit: OrbBit) -> &'static [u8] {
    match bit {
        OrbBit::ChannelProgramType => b"B (channel-program type) is one",
        OrbBit::Extension => b"X (ORB extension) is one",
        OrbBit::Reserved => b"one of bits 26 to 30 of word 1 is one",
        OrbBit::ProgramAddress => b"bit 0 of word 2 is one",
    }
}
