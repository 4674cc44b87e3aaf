//! The rows of each subchannel and of each unit.

ghost use Rattle.std.specs.Prelude.{◌<◌};

use crate::chart::{Chart, put_track};
use crate::draw::{down, up};
use crate::holders::next_holder;
use chan_model::names::Path;
use record_text::names::{kind_name, put_subchannel, unit_kind};
use record_text::number::put_hexadecimal;
use state_tracks::names::{BitGroup, FIRST_BIT, HOLD_NAMES, LAST_BIT, bit_group, bit_name};
use state_tracks::track::Track;
use step_records::record::{Way, Wire};
use streams::Sink;
use text_cells::cell::Cell;

/// The rows of all subchannels, and of all units.
pub fn put_sections<S: Sink>(sink: &mut S, chart: &Chart<'_>) -> bool {
    for subchannel in 0..chart.trace.parties.subchannels.len() {
        if !put_subchannel_rows(sink, chart, subchannel) {
            return false;
        }
    }
    put_units(sink, chart)
}

/// A subchannel, and its rows.
fn put_subchannel_rows<S: Sink>(sink: &mut S, chart: &Chart<'_>, subchannel: usize) -> bool {
    sink.put(b"subchannel ")
        && put_subchannel(sink, &chart.trace.parties, subchannel)
        && sink.put(b"\n")
        && put_bits(sink, chart, subchannel)
        && put_holds(sink, chart, subchannel)
        && put_request(sink, chart, subchannel)
        && put_paths(sink, chart, subchannel)
}

/// The bits of the status word.
fn put_bits<S: Sink>(sink: &mut S, chart: &Chart<'_>, subchannel: usize) -> bool {
    for bit in FIRST_BIT..LAST_BIT + 1 {
        let mut name = chart.name();
        let _ = name.put(group_name(bit_group(bit))) && name.put(bit_name(bit));
        let track = Track::Bit { subchannel, bit };
        if !put_track(sink, chart, &track, &name) {
            return false;
        }
    }
    true
}

/// What stands before the name of a bit.
fn group_name(group: BitGroup) -> &'static [u8] {
    match group {
        BitGroup::Function => b"FC ",
        BitGroup::Activity => b"AC ",
        BitGroup::Status => b"SC ",
    }
}

/// The states of the hold.
fn put_holds<S: Sink>(sink: &mut S, chart: &Chart<'_>, subchannel: usize) -> bool {
    for at in HOLD_NAMES {
        let mut name = chart.name();
        let _ = name.put(b"hold ") && name.put(at.text());
        let track = Track::Hold { subchannel, at };
        if !put_track(sink, chart, &track, &name) {
            return false;
        }
    }
    true
}

/// The request for an interruption.
fn put_request<S: Sink>(sink: &mut S, chart: &Chart<'_>, subchannel: usize) -> bool {
    let mut name = chart.name();
    let _ = name.put(b"interruption request");
    put_track(sink, chart, &Track::Request { subchannel }, &name)
}

/// The paths of a subchannel: whether each is down, and its wires.
fn put_paths<S: Sink>(sink: &mut S, chart: &Chart<'_>, subchannel: usize) -> bool {
    let Some(setup) = chart.trace.parties.subchannels.as_slice().get(subchannel) else {
        return true;
    };
    let chpids = setup.paths.as_slice();
    for index in 0..chpids.len() {
        if !put_path(sink, chart, subchannel, index, chpids[index]) {
            return false;
        }
    }
    true
}

/// A path of a subchannel: whether it is down, and its wires.
fn put_path<S: Sink>(
    sink: &mut S,
    chart: &Chart<'_>,
    subchannel: usize,
    index: usize,
    chpid: u8,
) -> bool
    requires { index < 8 }
{
    let Some(path) = Path::new(index as u32) else {
        return true;
    };
    let mut name = chart.name();
    let _ = put_path_name(&mut name, path) && name.put(b" down");
    put_track(sink, chart, &Track::PathDown { chpid }, &name)
        && put_wire(sink, chart, subchannel, path, Way::Down)
        && put_wire(sink, chart, subchannel, path, Way::Up)
}

/// How many signals wait on a wire.
fn put_wire<S: Sink>(
    sink: &mut S,
    chart: &Chart<'_>,
    subchannel: usize,
    path: Path,
    way: Way,
) -> bool {
    let drawing = chart.style.drawing;
    let mut name = chart.name();
    let _ = put_path_name(&mut name, path)
        && name.put(b" ")
        && name.put(match way {
            Way::Down => down(drawing),
            Way::Up => up(drawing),
        })
        && name.put(b" signals waiting");
    let wire = Wire {
        subchannel,
        path,
        way,
    };
    put_track(sink, chart, &Track::Waiting { wire }, &name)
}

/// A path by its index.
fn put_path_name<S: Sink>(sink: &mut S, path: Path) -> bool {
    sink.put(b"path ") && put_hexadecimal(sink, path.index() as u64)
}

/// The rows of all units.
fn put_units<S: Sink>(sink: &mut S, chart: &Chart<'_>) -> bool {
    for unit in 0..chart.trace.parties.units.len() {
        if !put_unit_rows(sink, chart, unit) {
            return false;
        }
    }
    true
}

/// A unit, and its rows.
fn put_unit_rows<S: Sink>(sink: &mut S, chart: &Chart<'_>, unit: usize) -> bool {
    let mut command = chart.name();
    let _ = command.put(b"command at hand");
    sink.put(b"unit ")
        && put_hexadecimal(sink, unit as u64)
        && sink.put(b" ")
        && sink.put(kind_name(unit_kind(&chart.trace.parties, unit)))
        && sink.put(b"\n")
        && put_holders(sink, chart, unit)
        && put_track(sink, chart, &Track::Command { unit }, &command)
}

/// The programs that hold a unit, by their subchannels.
fn put_holders<S: Sink>(sink: &mut S, chart: &Chart<'_>, unit: usize) -> bool {
    for subchannel in 0..chart.trace.parties.subchannels.len() {
        if !put_holders_of(sink, chart, unit, subchannel) {
            return false;
        }
    }
    true
}

/// The programs of a subchannel that hold a unit, by their numbers.
fn put_holders_of<S: Sink>(
    sink: &mut S,
    chart: &Chart<'_>,
    unit: usize,
    subchannel: usize,
) -> bool {
    let records = chart.trace.records.as_slice();
    let mut last = None;
    for _ in records {
        let Some(number) = next_holder(records, unit, subchannel, last) else {
            return true;
        };
        let mut name = chart.name();
        let _ = put_holder_name(&mut name, chart, subchannel, number);
        let track = Track::HeldBy {
            unit,
            subchannel,
            number: Some(number),
        };
        if !put_track(sink, chart, &track, &name) {
            return false;
        }
        last = Some(number);
    }
    true
}

/// By whom a unit is held.
fn put_holder_name(name: &mut Cell, chart: &Chart<'_>, subchannel: usize, number: u64) -> bool {
    name.put(b"held by ")
        && put_hexadecimal(name, number)
        && name.put(b" of subchannel ")
        && put_subchannel(name, &chart.trace.parties, subchannel)
}
