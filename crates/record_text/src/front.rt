//! Signals that wait, as refusals tell of them.

use crate::fields::put_named;
use crate::names::{put_subchannel, put_way};
use crate::number::put_decimal;
use chan_model::signal::{KeptDown, KeptUp};
use step_records::parties::Parties;
use step_records::record::Way;
use step_records::refusal::{Front, FrontSignal};
use streams::Sink;

/// What a signal is called in words and by fields, and the number that tells it from others of its name.
#[derive(Clone, Copy)]
struct NamedSignal {
    text: &'static [u8],
    field: &'static [u8],
    number: u64,
}

/// A signal of these names and this number.
fn named(text: &'static [u8], field: &'static [u8], number: u64) -> NamedSignal {
    NamedSignal {
        text,
        field,
        number,
    }
}

/// A signal on its way down.
fn name_down(signal: &KeptDown) -> NamedSignal {
    match *signal {
        KeptDown::Select { number } => named(b"Select", b"select", number),
        KeptDown::Command { command, .. } => named(b"Command", b"command", command),
        KeptDown::Grant { connection, .. } => named(b"Grant", b"grant", connection),
        KeptDown::Refuse { connection, .. } => named(b"Refuse", b"refuse", connection),
        KeptDown::Took { sequence, .. } => named(b"Took", b"took", sequence),
        KeptDown::Give { sequence, .. } => named(b"Give", b"give", sequence),
        KeptDown::Halt { number } => named(b"Halt", b"halt", number),
        KeptDown::Release { number } => named(b"Release", b"release", number),
        KeptDown::Reset { number, .. } => named(b"Reset", b"reset", number),
        KeptDown::Got { attention } => named(b"Got", b"got", attention),
    }
}

/// A signal on its way up.
fn name_up(signal: &KeptUp) -> NamedSignal {
    match *signal {
        KeptUp::Accept { number } => named(b"Accept", b"accept", number),
        KeptUp::Busy { number } => named(b"Busy", b"busy", number),
        KeptUp::Leave { connection, .. } => named(b"Leave", b"leave", connection),
        KeptUp::Back { connection, .. } => named(b"Back", b"back", connection),
        KeptUp::Data { sequence, .. } => named(b"Data", b"data", sequence),
        KeptUp::End { command, .. } => named(b"End of command", b"end", command),
        KeptUp::Released { number } => named(b"Released", b"released", number),
        KeptUp::Cleared { number } => named(b"Cleared", b"cleared", number),
        KeptUp::Notice { restarts } => named(b"Notice", b"notice", restarts),
        KeptUp::Attn { attention, .. } => named(b"Attn", b"attn", attention),
    }
}

/// What a signal is called, and the number that tells it from others of its name.
fn name_of(signal: &FrontSignal) -> NamedSignal {
    match signal {
        FrontSignal::Down(down) => name_down(down),
        FrontSignal::Up(up) => name_up(up),
    }
}

/// Which way a signal goes.
pub fn way_of(signal: &FrontSignal) -> Way {
    match signal {
        FrontSignal::Down(_) => Way::Down,
        FrontSignal::Up(_) => Way::Up,
    }
}

/// A signal, and the number that tells it from others: `Select 1`.
pub(crate) fn put_front<S: Sink>(sink: &mut S, signal: &FrontSignal) -> bool {
    let told = name_of(signal);
    sink.put(told.text) && sink.put(b" ") && put_decimal(sink, told.number)
}

/// The line by which a signal that waits is taken, a blank before it: ` (down 0 0)`.
pub(crate) fn put_line_of<S: Sink>(
    sink: &mut S,
    parties: &Parties,
    subchannel: usize,
    front: &Front,
) -> bool {
    sink.put(b" (")
        && put_way(sink, way_of(&front.signal))
        && sink.put(b" ")
        && put_subchannel(sink, parties, subchannel)
        && sink.put(b" ")
        && put_decimal(sink, front.path.index() as u64)
        && sink.put(b")")
}

/// A signal that waits by fields: `path=0 way=down signal=select number=1`.
pub fn put_front_fields<S: Sink>(sink: &mut S, front: &Front) -> bool {
    let told = name_of(&front.signal);
    put_named(sink, b"path=", front.path.index() as u64)
        && sink.put(b" way=")
        && put_way(sink, way_of(&front.signal))
        && sink.put(b" signal=")
        && sink.put(told.field)
        && put_named(sink, b" number=", told.number)
}
