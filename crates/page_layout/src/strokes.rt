//! The lines of the signals: from the row that sends one to the row that meets it.

use crate::flights::{Flight, Outcome};
use crate::lanes::{Party, place_of};
use crate::layout::Layout;
use step_records::record::Way;

/// How far from the middle of a lane a line ends.
const CLEAR: u64 = 8;

/// A line, from a sender.
#[derive(Clone, Copy)]
pub struct Stroke {
    pub x1: u64,
    pub y1: u64,
    pub x2: u64,
    pub y2: u64,
}

/// Which unit a subchannel has.
fn unit_of(layout: &Layout<'_>, subchannel: usize) -> Option<usize> {
    match layout.trace.parties.subchannels.as_slice().get(subchannel) {
        Some(setup) => Some(usize::from(setup.unit)),
        None => None,
    }
}

/// Where the sender of a signal stands, and its taker.
fn ends_of(layout: &Layout<'_>, flight: &Flight) -> Option<(u64, u64)> {
    let lanes = layout.lanes.as_slice();
    let subchannel = place_of(lanes, Party::Subchannel(flight.wire.subchannel))?;
    let unit = place_of(lanes, Party::Unit(unit_of(layout, flight.wire.subchannel)?))?;
    Some(match flight.wire.way {
        Way::Down => clear_of(subchannel, unit),
        Way::Up => clear_of(unit, subchannel),
    })
}

/// Two places, clear of what is drawn at them.
fn clear_of(from: u64, to: u64) -> (u64, u64) {
    if from < to {
        (from.saturating_add(CLEAR), to.saturating_sub(CLEAR))
    } else {
        (from.saturating_sub(CLEAR), to.saturating_add(CLEAR))
    }
}

/// The place so many hundredths of the way from one to another.
pub fn between(from: u64, to: u64, hundredths: u64) -> u64 {
    if from <= to {
        from.saturating_add((to - from).saturating_mul(hundredths) / 100)
    } else {
        from.saturating_sub((from - to).saturating_mul(hundredths) / 100)
    }
}

/// The line of a signal. One that is lost, or still waits, ends half way; one that vanishes ends near its sender.
pub fn stroke_of(layout: &Layout<'_>, flight: &Flight) -> Option<Stroke> {
    let (from, to) = ends_of(layout, flight)?;
    let sender = layout.rows.as_slice().get(flight.row)?;
    let y1 = sender.departure(flight.others);
    let (hundredths, y2) = match flight.outcome {
        Outcome::Taken(row) | Outcome::Ignored(row) => (100, arrival(layout, row)),
        Outcome::Lost(row) => (50, arrival(layout, row)),
        Outcome::Waits => (50, layout.foot.saturating_add(8)),
        Outcome::Vanished => (25, y1),
    };
    Some(Stroke {
        x1: from,
        y1,
        x2: between(from, to, hundredths),
        y2,
    })
}

/// Where a signal arrives in a row.
fn arrival(layout: &Layout<'_>, row: usize) -> u64 {
    match layout.rows.as_slice().get(row) {
        Some(row) => row.arrival(),
        None => layout.foot,
    }
}
