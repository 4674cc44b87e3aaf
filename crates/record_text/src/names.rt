//! The names of subchannels, units, paths and wires.

ghost use Rattle.std.specs.Prelude.{◌≡◌};
ghost use Rattle.streams.specs.Sinks.{Puts};
ghost use Rattle.record_text.specs.Numbers.{hexadecimal};
ghost use Rattle.record_text.specs.Names as spec;

use crate::fields::put_between;
use crate::number::{put_hexadecimal, put_two_digits};
use chan_model::names::Side;
use channel_config::names::SubchannelId;
use channel_config::parts::{SubchannelSetup, UnitKind};
use step_records::parties::Parties;
use step_records::record::{Direction, Way, Wire};
use streams::Sink;

/// The number by which a script names a subchannel: its number, where its set is 0, else the whole subsystem-identification
/// word.
fn name_number(id: SubchannelId) -> u32
    ensures { result ≡ spec.name_number id }
{
    let number = u32::from(id.number);
    if id.set == 0 {
        number
    } else {
        u32::from(id.set) * 0x2_0000 + 0x1_0000 + number
    }
}

/// A subchannel as a script names it: up to four hexadecimal digits where its set is 0, else the whole
/// subsystem-identification word; with no zeros before it.
pub fn put_subchannel_name<S: Sink>(sink: &mut S, subchannel: &SubchannelSetup) -> bool
    ensures { Puts (S.seen sink.old) (spec.subchannel_name subchannel.now.id) (S.seen sink.new) result }
{
    put_subchannel_id(sink, subchannel.id)
}

/// The same by its set and its number.
pub fn put_subchannel_id<S: Sink>(sink: &mut S, id: SubchannelId) -> bool
    ensures { Puts (S.seen sink.old) (spec.subchannel_name id) (S.seen sink.new) result }
{
    put_hexadecimal(sink, u64::from(name_number(id)))
}

/// The subchannel of this index as a script names it; where there is none, its index.
pub fn put_subchannel<S: Sink>(sink: &mut S, parties: &Parties, subchannel: usize) -> bool
    ensures { Puts (S.seen sink.old) (spec.subchannel_text parties.now subchannel) (S.seen sink.new) result }
{
    match parties.subchannels.as_slice().get(subchannel) {
        Some(setup) => put_subchannel_name(sink, setup),
        None => put_hexadecimal(sink, subchannel as u64),
    }
}

/// The subchannel that a subsystem-identification word names as a script names it, whether it is configured or not.
pub fn put_subchannel_word<S: Sink>(sink: &mut S, word: u32) -> bool {
    let number = if word >> 16 == 1 {
        word % 0x1_0000
    } else {
        word
    };
    put_hexadecimal(sink, u64::from(number))
}

/// The number of a side of a unit, as a script has it.
pub fn side_number(side: Side) -> u64 {
    match side {
        Side::First => 0,
        Side::Second => 1,
    }
}

/// The kind of the unit of this index; where there is none, a block.
pub fn unit_kind(parties: &Parties, unit: usize) -> UnitKind {
    match parties.units.as_slice().get(unit) {
        Some(kind) => *kind,
        None => UnitKind::Block,
    }
}

/// The kind of the unit of a subchannel; where there is none, a block.
pub fn kind_of(parties: &Parties, subchannel: usize) -> UnitKind {
    match parties.subchannels.as_slice().get(subchannel) {
        Some(setup) => unit_kind(parties, usize::from(setup.unit)),
        None => UnitKind::Block,
    }
}

/// The name of a kind of units, as a script has it.
pub fn kind_name(kind: UnitKind) -> &'static [u8] {
    match kind {
        UnitKind::Block => b"block",
        UnitKind::Console => b"console",
        UnitKind::Rejecting => b"reject",
    }
}

/// The four hexadecimal digits of a device number.
pub fn put_device_number<S: Sink>(sink: &mut S, device: u16) -> bool {
    let [high, low] = device.to_be_bytes();
    put_two_digits(sink, high) && put_two_digits(sink, low)
}

/// `down` or `up`.
pub fn put_way<S: Sink>(sink: &mut S, way: Way) -> bool
    ensures { Puts (S.seen sink.old) (spec.way_text way) (S.seen sink.new) result }
{
    match way {
        Way::Down => sink.put(b"down"),
        Way::Up => sink.put(b"up"),
    }
}

/// The path of a wire, and which way it goes, after a blank: ` path 0 down`.
pub fn put_path_and_way<S: Sink>(sink: &mut S, wire: Wire) -> bool {
    put_between(sink, b" path ", wire.path.index() as u64, b" ") && put_way(sink, wire.way)
}

/// `fetched` or `stored`.
pub fn direction_name(direction: Direction) -> &'static [u8] {
    match direction {
        Direction::Fetched => b"fetched",
        Direction::Stored => b"stored",
    }
}
