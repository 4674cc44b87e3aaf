//! The signals of a script, each with what became of it: wires are first in, first out, so what leaves a wire is what was sent
//! on it first.

ghost use Rattle.std.specs.Prelude.{◌≡◌, ◌<◌, IfSome, OnErr, true, length};

use crate::rows::Row;
use memory::{Supply, push};
use std::alloc::{AllocError, Global};
use step_records::record::{Fact, Moved, Record, Signal, Wire};
use step_records::trace::Trace;

/// What became of a signal, and in which row.
#[derive(Clone, Copy, PartialEq, Eq)]
pub enum Outcome {
    /// It still waits.
    Waits,
    Taken(usize),
    Ignored(usize),
    Lost(usize),
    /// It was sent on a path that is down.
    Vanished,
}

/// A signal from where it was sent on: which of the records sends it, in which row, and how many others were sent before it
/// in that row.
#[derive(Clone, Copy)]
pub struct Flight {
    pub wire: Wire,
    pub record: usize,
    pub row: usize,
    pub others: u64,
    pub outcome: Outcome,
}

/// The signals so far, and which of them still wait.
#[derive(Drop)]
struct FlightBuilder {
    flights: Vec<Flight>,
    open: Vec<usize>,
    row: usize,
    others: u64,
}

/// All signals that were sent, in the order in which they were.
pub fn flights_of<M: Supply>(
    alloc: Global,
    supply: &mut M,
    trace: &Trace,
    rows: &[Row],
) -> Result<Vec<Flight>, AllocError>
    ensures memory { OnErr result (M.refused supply.new ≡ true) }
{
    let mut builder = FlightBuilder {
        flights: Vec::new(alloc),
        open: Vec::new(alloc),
        row: 0,
        others: 0,
    };
    for (index, record) in trace.records.as_slice().iter().enumerate() {
        go_to(&mut builder, rows, record.line);
        if let Fact::Signal { wire, moved, .. } = &record.fact {
            meet(supply, &mut builder, index, *wire, *moved)?;
        }
    }
    Ok(builder.flights)
}

/// Goes to the row of a line: it is the one at hand, or the next.
fn go_to(builder: &mut FlightBuilder, rows: &[Row], line: u64) {
    match rows.get(builder.row) {
        Some(row) if line > row.last => {
            builder.row = builder.row.saturating_add(1);
            builder.others = 0;
        }
        _ => {}
    }
}

/// Takes a signal that moved.
fn meet<M: Supply>(
    supply: &mut M,
    builder: &mut FlightBuilder,
    record: usize,
    wire: Wire,
    moved: Moved,
) -> Result<(), AllocError>
    ensures memory { OnErr result (M.refused supply.new ≡ true) }
{
    let row = builder.row;
    match moved {
        Moved::Sent => {
            push(supply, &mut builder.open, builder.flights.len())?;
            add(supply, builder, record, wire, Outcome::Waits)?;
        }
        Moved::Vanished => add(supply, builder, record, wire, Outcome::Vanished)?,
        Moved::Taken => end(builder, wire, Outcome::Taken(row)),
        Moved::Ignored => end(builder, wire, Outcome::Ignored(row)),
        Moved::Lost => end(builder, wire, Outcome::Lost(row)),
    }
    Ok(())
}

/// Adds a signal that was sent.
fn add<M: Supply>(
    supply: &mut M,
    builder: &mut FlightBuilder,
    record: usize,
    wire: Wire,
    outcome: Outcome,
) -> Result<(), AllocError>
    ensures memory { OnErr result (M.refused supply.new ≡ true) }
{
    let flight = Flight {
        wire,
        record,
        row: builder.row,
        others: builder.others,
        outcome,
    };
    builder.others = builder.others.saturating_add(1);
    push(supply, &mut builder.flights, flight)
}

/// Ends the way of the signal that waits on a wire longest.
fn end(builder: &mut FlightBuilder, wire: Wire, outcome: Outcome) {
    if let Some(at) = first_on(builder.flights.as_slice(), builder.open.as_slice(), wire) {
        let index = builder.open.remove(at);
        if let Some(flight) = builder.flights.get_mut(index) {
            flight.outcome = outcome;
        }
    }
}

/// Where among those that still wait the signal stands that waits on a wire longest.
fn first_on(flights: &[Flight], waiting: &[usize], wire: Wire) -> Option<usize>
    ensures { IfSome result (λ at. at < length waiting.now) }
{
    for (at, index) in waiting.iter().enumerate() {
        match flights.get(*index) {
            Some(flight) if flight.wire == wire => return Some(at),
            _ => {}
        }
    }
    None
}

/// The signal of a record, where it is of one.
pub fn signal_of<'a>(records: &'a [Record], flight: &Flight) -> Option<&'a Signal> {
    match records.get(flight.record) {
        Some(
            Record {
                fact: Fact::Signal { signal, .. },
                ..
            },
        ) => Some(signal),
        _ => None,
    }
}
