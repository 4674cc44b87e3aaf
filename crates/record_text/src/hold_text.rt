//! The subsystem's side of a subchannel.

ghost use Rattle.streams.specs.Sinks.{Puts};
ghost use Rattle.record_text.specs.Holds as spec;

use crate::fields::{Field, put_between, put_named, put_three, put_two};
use chan_model::hold_state::{HoldPhase, HoldState};
use chan_model::names::Path;
use streams::Sink;

/// What the subsystem takes the device to be held by, in full: `on, program 1 by path 0, connection 0`.
pub fn put_hold<S: Sink>(sink: &mut S, hold: &HoldState) -> bool
    ensures { Puts (S.seen sink.old) (spec.hold_text hold.now) (S.seen sink.new) result }
{
    match hold.phase {
        HoldPhase::Free => sink.put(b"free"),
        HoldPhase::Offer { number, path } => put_two(
            sink,
            b"offers ",
            number,
            b" on path ",
            path.index() as u64,
        ),
        HoldPhase::On {
            number,
            path,
            connection,
        } => put_on(sink, number, path, connection),
        HoldPhase::Away { number } => put_named(sink, b"away, program ", number),
        HoldPhase::Letting { number, path } => put_two(
            sink,
            b"lets program ",
            number,
            b" go by path ",
            path.index() as u64,
        ),
        HoldPhase::Reset { number } => put_reset(sink, number, hold.reset_path),
    }
}

/// A program that is connected.
fn put_on<S: Sink>(sink: &mut S, number: u64, path: Path, connection: u64) -> bool
    ensures { Puts (S.seen sink.old) (spec.on_text number path connection) (S.seen sink.new) result }
{
    put_three(
        sink,
        Field(b"on, program ", number),
        Field(b" by path ", path.index() as u64),
        Field(b", connection ", connection),
    )
}

/// A reset that is due, and the path that it was sent on.
fn put_reset<S: Sink>(sink: &mut S, number: u64, sent: Option<Path>) -> bool
    ensures { Puts (S.seen sink.old) (spec.reset_text number sent) (S.seen sink.new) result }
{
    match sent {
        None => put_named(sink, b"to be reset under ", number),
        Some(path) => put_two(
            sink,
            b"to be reset under ",
            number,
            b", sent on path ",
            path.index() as u64,
        ),
    }
}

/// The same in few words: `on 1`.
pub fn put_hold_short<S: Sink>(sink: &mut S, hold: &HoldState) -> bool
    ensures { Puts (S.seen sink.old) (spec.short_text hold.now) (S.seen sink.new) result }
{
    match hold.phase {
        HoldPhase::Free => sink.put(b"free"),
        HoldPhase::Offer { number, .. } => put_named(sink, b"offers ", number),
        HoldPhase::On { number, .. } => put_named(sink, b"on ", number),
        HoldPhase::Away { number } => put_named(sink, b"away ", number),
        HoldPhase::Letting { number, .. } => put_between(sink, b"lets ", number, b" go"),
        HoldPhase::Reset { number } => put_named(sink, b"reset ", number),
    }
}

/// The same by fields: `on t=1 path=0 c=0`.
pub fn put_hold_fields<S: Sink>(sink: &mut S, hold: &HoldState) -> bool
    ensures { Puts (S.seen sink.old) (spec.fields_text hold.now) (S.seen sink.new) result }
{
    match hold.phase {
        HoldPhase::Free => sink.put(b"free"),
        HoldPhase::Offer { number, path } => put_two(
            sink,
            b"offers t=",
            number,
            b" path=",
            path.index() as u64,
        ),
        HoldPhase::On {
            number,
            path,
            connection,
        } => put_on_fields(sink, number, path, connection),
        HoldPhase::Away { number } => put_named(sink, b"away t=", number),
        HoldPhase::Letting { number, path } => put_two(
            sink,
            b"lets t=",
            number,
            b" path=",
            path.index() as u64,
        ),
        HoldPhase::Reset { number } => put_reset_fields(sink, number, hold.reset_path),
    }
}

/// A program that is connected, by fields.
fn put_on_fields<S: Sink>(sink: &mut S, number: u64, path: Path, connection: u64) -> bool
    ensures { Puts (S.seen sink.old) (spec.on_fields number path connection) (S.seen sink.new) result }
{
    put_three(
        sink,
        Field(b"on t=", number),
        Field(b" path=", path.index() as u64),
        Field(b" c=", connection),
    )
}

/// A reset that is due, by fields.
fn put_reset_fields<S: Sink>(sink: &mut S, number: u64, sent: Option<Path>) -> bool
    ensures { Puts (S.seen sink.old) (spec.reset_fields number sent) (S.seen sink.new) result }
{
    match sent {
        None => put_named(sink, b"reset r=", number),
        Some(path) => put_two(sink, b"reset r=", number, b" path=", path.index() as u64),
    }
}
