//! Signals by their names, with the numbers that tell them apart.

ghost use Rattle.std.specs.Prelude.{◌≡◌};
ghost use Rattle.streams.specs.Sinks.{Puts};
ghost use Rattle.record_text.specs.SignalTexts as spec;

use crate::fields::{put_between, put_named, put_number_and_bytes, put_two};
use crate::number::put_two_digits;
use chan_model::chunk::Chunk;
use chan_model::signal::{Down, Load, Up};
use channel_config::parts::UnitKind;
use scsw_irb::status::DeviceStatus;
use step_records::record::Signal;
use streams::Sink;
use word_names::put_command_name;

/// A signal by its name, with the numbers that tell it apart: `Command 1 write`. Commands are named by the kind of the unit.
pub fn put_signal<S: Sink>(sink: &mut S, signal: &Signal, kind: UnitKind) -> bool {
    match signal {
        Signal::Down(Down::Command { command, code, .. }) => {
            put_command(sink, *command, *code, kind)
        }
        Signal::Down(down) => put_down(sink, down),
        Signal::Up(up) => put_up(sink, up),
    }
}

/// A command by its number and its name.
fn put_command<S: Sink>(sink: &mut S, command: u64, code: u8, kind: UnitKind) -> bool {
    put_between(sink, b"Command ", command, b" ") && put_command_name(sink, kind, code)
}

/// A signal from the subsystem to a unit; a command by its number alone.
fn put_down<S: Sink>(sink: &mut S, signal: &Down) -> bool
    ensures { Puts (S.seen sink.old) (spec.down_text signal.now) (S.seen sink.new) result }
{
    match signal {
        Down::Select { number } => put_named(sink, b"Select ", *number),
        Down::Command { command, .. } => put_named(sink, b"Command ", *command),
        Down::Grant { connection, .. } => put_named(sink, b"Grant ", *connection),
        Down::Refuse { connection, .. } => put_named(sink, b"Refuse ", *connection),
        Down::Took { sequence, room, .. } => {
            put_two(sink, b"Took ", *sequence, b" room ", u64::from(*room))
        }
        Down::Give {
            bytes,
            sequence,
            ..
        } => put_give(sink, *sequence, bytes),
        Down::Halt { number } => put_named(sink, b"Halt ", *number),
        Down::Release { number } => put_named(sink, b"Release ", *number),
        Down::Reset { number, .. } => put_named(sink, b"Reset ", *number),
        Down::Got { attention } => put_named(sink, b"Got ", *attention),
    }
}

/// Bytes of a write; none ends the transfer.
fn put_give<S: Sink>(sink: &mut S, sequence: u64, bytes: &Chunk) -> bool
    ensures { Puts (S.seen sink.old) (spec.give_text sequence bytes.now) (S.seen sink.new) result }
{
    if bytes.as_slice().is_empty() {
        put_between(sink, b"Give ", sequence, b" no more")
    } else {
        put_number_and_bytes(sink, b"Give ", sequence, b" ", bytes.as_slice())
    }
}

/// A signal from a unit to the subsystem.
fn put_up<S: Sink>(sink: &mut S, signal: &Up) -> bool
    ensures { Puts (S.seen sink.old) (spec.up_text signal.now) (S.seen sink.new) result }
{
    match signal {
        Up::Accept { number } => put_named(sink, b"Accept ", *number),
        Up::Busy { number } => put_named(sink, b"Busy ", *number),
        Up::Leave { connection, .. } => put_named(sink, b"Leave ", *connection),
        Up::Back { connection, .. } => put_named(sink, b"Back ", *connection),
        Up::Data { load, sequence, .. } => put_data(sink, *sequence, load),
        Up::End { status, more, .. } => put_end(sink, *status, *more),
        Up::Released { number } => put_named(sink, b"Released ", *number),
        Up::Cleared { number } => put_named(sink, b"Cleared ", *number),
        Up::Notice { restarts } => put_named(sink, b"Notice ", *restarts),
        Up::Attn { attention, status } => put_attention(sink, *attention, *status),
    }
}

/// A Data: what it brings.
fn put_data<S: Sink>(sink: &mut S, sequence: u64, load: &Load) -> bool
    ensures { Puts (S.seen sink.old) (spec.data_text sequence load.now) (S.seen sink.new) result }
{
    match load {
        Load::Absorbed(count) => put_absorbed(sink, sequence, *count),
        Load::Bytes(bytes) => {
            put_number_and_bytes(sink, b"Data ", sequence, b" ", bytes.as_slice())
        }
    }
}

/// A Data of a write: it asks for bytes at first, and then tells how many were absorbed.
fn put_absorbed<S: Sink>(sink: &mut S, sequence: u64, count: u16) -> bool
    ensures { Puts (S.seen sink.old) (spec.absorbed_text sequence count) (S.seen sink.new) result }
{
    if sequence == 0 {
        put_between(sink, b"Data ", sequence, b" asks")
    } else {
        put_two(sink, b"Data ", sequence, b" took ", u64::from(count))
    }
}

/// The end of a command: its status, and whether the device had more bytes.
fn put_end<S: Sink>(sink: &mut S, status: DeviceStatus, more: bool) -> bool
    ensures { Puts (S.seen sink.old) (spec.end_text status.0 more) (S.seen sink.new) result }
{
    put_status(sink, status) && put_more(sink, more)
}

/// Whether the device had more bytes.
fn put_more<S: Sink>(sink: &mut S, more: bool) -> bool
    ensures { Puts (S.seen sink.old) (spec.more_text more) (S.seen sink.new) result }
{
    if more { sink.put(b" more") } else { true }
}

/// The status of an End.
fn put_status<S: Sink>(sink: &mut S, status: DeviceStatus) -> bool
    ensures { Puts (S.seen sink.old) (spec.status_text status.0) (S.seen sink.new) result }
{
    sink.put(b"End ") && put_two_digits(sink, status.bits())
}

/// An attention: its number and its status.
fn put_attention<S: Sink>(sink: &mut S, attention: u64, status: DeviceStatus) -> bool
    ensures { Puts (S.seen sink.old) (spec.attention_text attention status.0) (S.seen sink.new) result }
{
    put_between(sink, b"Attn ", attention, b" ") && put_two_digits(sink, status.bits())
}
