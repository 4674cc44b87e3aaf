//! Of whom or of what a record tells.

use record_text::names::{put_path_and_way, put_subchannel, put_subchannel_word};
use record_text::number::{put_hexadecimal, put_two_digits};
use step_records::parties::Parties;
use step_records::record::Wire;
use streams::Sink;

/// Of whom or of what a record tells.
#[derive(Clone, Copy)]
pub enum Object {
    /// Of the step as a whole.
    Step,
    Subchannel(usize),
    Unit(usize),
    /// Of the subchannel that this word would name.
    Word(u32),
    /// Of the channel path of this identifier.
    ChannelPath(u32),
    Wire(Wire),
}

/// `sub 0`, `unit 0`, `path 10`, `sub 0 path 0 down`; nothing for the step as a whole.
pub fn put_object<S: Sink>(sink: &mut S, parties: &Parties, object: &Object) -> bool {
    match object {
        Object::Step => true,
        Object::Subchannel(subchannel) => {
            sink.put(b"sub ") && put_subchannel(sink, parties, *subchannel)
        }
        Object::Unit(unit) => sink.put(b"unit ") && put_hexadecimal(sink, *unit as u64),
        Object::Word(word) => sink.put(b"sub ") && put_subchannel_word(sink, *word),
        Object::ChannelPath(chpid) => sink.put(b"path ") && put_chpid(sink, *chpid),
        Object::Wire(wire) => put_wire(sink, parties, *wire),
    }
}

/// The identifier of a channel path, of two digits or more.
fn put_chpid<S: Sink>(sink: &mut S, chpid: u32) -> bool {
    if chpid < 0x100 {
        put_two_digits(sink, chpid as u8)
    } else {
        put_hexadecimal(sink, u64::from(chpid))
    }
}

/// A wire: its subchannel, its path, and which way it goes.
fn put_wire<S: Sink>(sink: &mut S, parties: &Parties, wire: Wire) -> bool {
    sink.put(b"sub ")
        && put_subchannel(sink, parties, wire.subchannel)
        && put_path_and_way(sink, wire)
}
