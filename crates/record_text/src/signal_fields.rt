//! Signals by all their fields: t the number of a program, c that of its connection, n that of its command, s that of a chunk,
//! r that of a reset, b a restart count and a the number of an attention.

ghost use Rattle.std.specs.Prelude.{◌≡◌};
ghost use Rattle.streams.specs.Sinks.{Puts};
ghost use Rattle.record_text.specs.SignalFields as spec;

use crate::fields::{Field, put_four, put_named, put_named_bytes, put_three, put_two};
use chan_model::chunk::Chunk;
use chan_model::signal::{Down, Load, Up};
use scsw_irb::status::DeviceStatus;
use step_records::record::Signal;
use streams::Sink;

/// A signal by its name and all its fields: `give t=1 c=0 n=1 s=1 bytes=C1C2C3C4`.
pub fn put_signal_fields<S: Sink>(sink: &mut S, signal: &Signal) -> bool
    ensures { Puts (S.seen sink.old) (spec.signal_fields signal.now) (S.seen sink.new) result }
{
    match signal {
        Signal::Down(down) => put_down(sink, down),
        Signal::Up(up) => put_up(sink, up),
    }
}

fn put_down<S: Sink>(sink: &mut S, signal: &Down) -> bool
    ensures { Puts (S.seen sink.old) (spec.down_fields signal.now) (S.seen sink.new) result }
{
    match signal {
        Down::Select { number } => put_named(sink, b"select t=", *number),
        Down::Command {
            number,
            command,
            code,
            room,
        } => put_command(sink, *number, *command, *code, *room),
        Down::Grant { number, connection } => {
            put_two(sink, b"grant t=", *number, b" c=", *connection)
        }
        Down::Refuse { number, connection } => {
            put_two(sink, b"refuse t=", *number, b" c=", *connection)
        }
        Down::Took {
            number,
            command,
            sequence,
            room,
        } => put_took(sink, *number, *command, *sequence, *room),
        Down::Give {
            bytes,
            number,
            connection,
            command,
            sequence,
        } => put_give(sink, *number, *connection, *command, *sequence, bytes),
        Down::Halt { number } => put_named(sink, b"halt t=", *number),
        Down::Release { number } => put_named(sink, b"release t=", *number),
        Down::Reset { number, restarts } => put_two(sink, b"reset r=", *number, b" b=", *restarts),
        Down::Got { attention } => put_named(sink, b"got a=", *attention),
    }
}

fn put_command<S: Sink>(sink: &mut S, number: u64, command: u64, code: u8, room: u16) -> bool
    ensures { Puts (S.seen sink.old) (spec.command_fields number command code room) (S.seen sink.new) result }
{
    put_four(
        sink,
        Field(b"command t=", number),
        Field(b" n=", command),
        Field(b" code=", u64::from(code)),
        Field(b" room=", u64::from(room)),
    )
}

fn put_took<S: Sink>(sink: &mut S, number: u64, command: u64, sequence: u64, room: u16) -> bool
    ensures { Puts (S.seen sink.old) (spec.took_fields number command sequence room) (S.seen sink.new) result }
{
    put_four(
        sink,
        Field(b"took t=", number),
        Field(b" n=", command),
        Field(b" s=", sequence),
        Field(b" room=", u64::from(room)),
    )
}

/// A name that ends with `t=`, and which chunk of which command of which program by which connection it is.
fn put_transfer<S: Sink>(
    sink: &mut S,
    name: &[u8],
    number: u64,
    connection: u64,
    command: u64,
    sequence: u64,
) -> bool
    ensures { Puts (S.seen sink.old) (spec.transfer_fields name.now number connection command sequence) (S.seen sink.new) result }
{
    put_four(
        sink,
        Field(name, number),
        Field(b" c=", connection),
        Field(b" n=", command),
        Field(b" s=", sequence),
    )
}

fn put_give<S: Sink>(
    sink: &mut S,
    number: u64,
    connection: u64,
    command: u64,
    sequence: u64,
    bytes: &Chunk,
) -> bool
    ensures { Puts (S.seen sink.old) (spec.give_fields number connection command sequence bytes.now) (S.seen sink.new) result }
{
    put_transfer(sink, b"give t=", number, connection, command, sequence)
        && put_named_bytes(sink, b" bytes=", bytes.as_slice())
}

fn put_up<S: Sink>(sink: &mut S, signal: &Up) -> bool
    ensures { Puts (S.seen sink.old) (spec.up_fields signal.now) (S.seen sink.new) result }
{
    match signal {
        Up::Accept { number } => put_named(sink, b"accept t=", *number),
        Up::Busy { number } => put_named(sink, b"busy t=", *number),
        Up::Leave { number, connection } => {
            put_two(sink, b"leave t=", *number, b" c=", *connection)
        }
        Up::Back { number, connection } => put_two(sink, b"back t=", *number, b" c=", *connection),
        Up::Data {
            load,
            number,
            connection,
            command,
            sequence,
        } => put_data(sink, *number, *connection, *command, *sequence, load),
        Up::End {
            number,
            command,
            status,
            more,
        } => put_end(sink, *number, *command, *status, *more),
        Up::Released { number } => put_named(sink, b"released t=", *number),
        Up::Cleared { number } => put_named(sink, b"cleared r=", *number),
        Up::Notice { restarts } => put_named(sink, b"notice b=", *restarts),
        Up::Attn { attention, status } => put_two(
            sink,
            b"attn a=",
            *attention,
            b" status=",
            u64::from(status.bits()),
        ),
    }
}

fn put_data<S: Sink>(
    sink: &mut S,
    number: u64,
    connection: u64,
    command: u64,
    sequence: u64,
    load: &Load,
) -> bool
    ensures { Puts (S.seen sink.old) (spec.data_fields number connection command sequence load.now) (S.seen sink.new) result }
{
    put_transfer(sink, b"data t=", number, connection, command, sequence) && put_load(sink, load)
}

/// How many bytes were absorbed, or the bytes.
fn put_load<S: Sink>(sink: &mut S, load: &Load) -> bool
    ensures { Puts (S.seen sink.old) (spec.load_fields load.now) (S.seen sink.new) result }
{
    match load {
        Load::Absorbed(count) => put_named(sink, b" count=", u64::from(*count)),
        Load::Bytes(bytes) => put_named_bytes(sink, b" bytes=", bytes.as_slice()),
    }
}

fn put_end<S: Sink>(
    sink: &mut S,
    number: u64,
    command: u64,
    status: DeviceStatus,
    more: bool,
) -> bool
    ensures { Puts (S.seen sink.old) (spec.end_fields number command status.0 more) (S.seen sink.new) result }
{
    put_status(sink, number, command, status) && put_more(sink, more)
}

/// Of an End all but whether the device had more bytes.
fn put_status<S: Sink>(sink: &mut S, number: u64, command: u64, status: DeviceStatus) -> bool
    ensures { Puts (S.seen sink.old) (spec.status_fields number command status.0) (S.seen sink.new) result }
{
    put_three(
        sink,
        Field(b"end t=", number),
        Field(b" n=", command),
        Field(b" status=", u64::from(status.bits())),
    )
}

/// Whether the device had more bytes.
pub fn put_more<S: Sink>(sink: &mut S, more: bool) -> bool
    ensures { Puts (S.seen sink.old) (spec.more_field more) (S.seen sink.new) result }
{
    if more {
        sink.put(b" more=1")
    } else {
        sink.put(b" more=0")
    }
}
