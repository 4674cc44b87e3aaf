//! Where the names of the signals stand: on their lines, and clear of each other.

ghost use Rattle.std.specs.Prelude.{◌≡◌, OnErr, true};

use crate::measured::Measured;
use crate::signals::put_label_text;
use memory::{Supply, push};
use page_layout::flights::{Flight, Outcome, signal_of};
use page_layout::layout::Layout;
use page_layout::strokes::{Stroke, between, stroke_of};
use std::alloc::{AllocError, Global};
use step_records::record::Way;

/// Half the width of a character, at the least that it takes.
const HALF_CHARACTER: u64 = 3;

/// How far apart two names stand, one below the other.
const APART: u64 = 17;

/// The places along a line that are tried, in hundredths of its way.
const PLACES: [u64; 7] = [50, 32, 68, 22, 78, 41, 59];

/// The place along a line between a unit and a subchannel on its right, from the left: clear of the notes of the unit.
const RIGHT: u64 = 63;

/// Where a name stands: its middle, its baseline and half its width.
#[derive(Clone, Copy)]
pub struct Label {
    pub x: u64,
    pub y: u64,
    half: u64,
}

impl Label {
    /// Whether two names stand in each other's way.
    fn meets(&self, other: &Label) -> bool {
        self.x.abs_diff(other.x) < self.half.saturating_add(other.half)
            && self.y.abs_diff(other.y) < APART
    }
}

/// The places of all names, in the order of the signals. Signals that arrive in the next rows are placed first, since the
/// lines of the others are longer and leave more room.
pub fn labels_of<M: Supply>(
    alloc: Global,
    supply: &mut M,
    layout: &Layout<'_>,
) -> Result<Vec<Option<Label>>, AllocError>
    ensures memory { OnErr result (M.refused supply.new ≡ true) }
{
    let mut labels: Vec<Option<Label>> = Vec::new(alloc);
    for flight in layout.flights.as_slice() {
        let label = if is_short(flight) {
            middle_of(layout, flight)
        } else {
            None
        };
        push(supply, &mut labels, label)?;
    }
    for (index, flight) in layout.flights.as_slice().iter().enumerate() {
        if !is_short(flight) {
            let label = free_place(layout, flight, labels.as_slice());
            if let Some(slot) = labels.get_mut(index) {
                *slot = label;
            }
        }
    }
    Ok(labels)
}

/// Whether a signal is taken at once, or in one of the next rows.
fn is_short(flight: &Flight) -> bool {
    match flight.outcome {
        Outcome::Taken(row) => row <= flight.row.saturating_add(2),
        _ => false,
    }
}

/// The middle of a signal's line.
fn middle_of(layout: &Layout<'_>, flight: &Flight) -> Option<Label> {
    let stroke = stroke_of(layout, flight)?;
    Some(label_at(
        &stroke,
        common_place(flight, &stroke),
        half_width(layout, flight),
    ))
}

/// Where the name of a signal stands that is taken soon, in hundredths of the way.
fn common_place(flight: &Flight, stroke: &Stroke) -> u64 {
    match (flight.wire.way, stroke.x1 < stroke.x2) {
        (Way::Down, true) | (Way::Up, false) => 50,
        (Way::Up, true) => RIGHT,
        (Way::Down, false) => 100 - RIGHT,
    }
}

/// The first place along a signal's line where its name stands in the way of no other; its middle where there is none.
fn free_place(layout: &Layout<'_>, flight: &Flight, labels: &[Option<Label>]) -> Option<Label> {
    let stroke = stroke_of(layout, flight)?;
    let half = half_width(layout, flight);
    if flight.outcome == Outcome::Vanished {
        return Some(label_at(&stroke, 100, half));
    }
    for place in PLACES {
        let label = label_at(&stroke, place, half);
        if is_free(&label, labels) {
            return Some(label);
        }
    }
    Some(label_at(&stroke, 50, half))
}

/// Whether a name stands in the way of no other.
fn is_free(label: &Label, labels: &[Option<Label>]) -> bool {
    for other in labels {
        if let Some(other) = other {
            if label.meets(other) {
                return false;
            }
        }
    }
    true
}

/// The place so many hundredths along a line, just above it, and within its ends where there is room.
fn label_at(stroke: &Stroke, hundredths: u64, half: u64) -> Label {
    let left = stroke.x1.min(stroke.x2).saturating_add(half);
    let right = stroke.x1.max(stroke.x2).saturating_sub(half);
    Label {
        x: between(stroke.x1, stroke.x2, hundredths)
            .min(right)
            .max(left),
        y: between(stroke.y1, stroke.y2, hundredths).saturating_sub(4),
        half,
    }
}

/// Half the width of a signal's name.
fn half_width(layout: &Layout<'_>, flight: &Flight) -> u64 {
    let mut measured = Measured::new();
    if let Some(signal) = signal_of(layout.trace.records.as_slice(), flight) {
        put_label_text(&mut measured, layout, flight, signal);
    }
    measured
        .bytes
        .saturating_mul(HALF_CHARACTER)
        .saturating_add(6)
}
