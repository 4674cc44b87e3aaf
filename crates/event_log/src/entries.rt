//! Entries as they are kept.

ghost use Rattle.std.specs.Prelude.{◌≡◌, ◌≤◌, length};
ghost use Rattle.event_log.specs.Entries as spec;

use chan_events::event::KeptEvent;
use chan_events::reply::{Entry, KeptReply};

/// An entry: its bytes stand from `start` on, those of the reply first.
#[derive(Clone, Copy)]
pub struct KeptEntry {
    pub start: usize,
    pub event: KeptEvent,
    pub reply: KeptReply,
}

impl KeptEntry {
    /// How many bytes it has.
    pub fn length(&self) -> usize
        ensures value { result ≡ spec.entry_length self.now }
        ensures bound { result ≤ 768 }
    {
        self.reply.length() + self.event.length()
    }

    /// The entry with the first of these bytes, which become its own.
    pub fn own(&self, bytes: &[u8]) -> Entry
        requires { spec.entry_length self.now ≤ length bytes.now }
        ensures { result ≡ spec.entry_in self.now bytes.now }
    {
        Entry {
            event: self.event.own(&bytes[self.reply.length()..]),
            reply: self.reply.own(bytes),
        }
    }
}

const _: () = prove!(size_of::<KeptEntry>() == 160);
