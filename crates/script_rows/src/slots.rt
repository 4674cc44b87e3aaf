//! Actions whose bytes stand elsewhere, and a slot for one.

ghost use Rattle.std.specs.Prelude.{◌≡◌, ◌≤◌, length};
ghost use Rattle.script_rows.specs.Slots as spec;
ghost use Rattle.script_rows.specs.declared.Action.TheVariants as action_spec;
ghost use Rattle.chan_events.specs.declared.event.Event.TheVariants as event_spec;

use crate::Action;
use chan_events::event::{Event, KeptEvent};
use chan_model::chunk::{CHUNK_BYTES, Chunk};

/// An action whose bytes stand elsewhere.
#[derive(Clone, Copy)]
pub enum KeptAction {
    Event(KeptEvent),
    Dev(u32),
    Glance(u32),
}

impl KeptAction {
    /// How many bytes it has.
    pub fn length(&self) -> usize
        ensures value { result ≡ spec.action_length self.now }
        ensures bound { result ≤ 256 }
    {
        match self {
            KeptAction::Event(event) => event.length(),
            KeptAction::Dev(_) | KeptAction::Glance(_) => 0,
        }
    }

    /// The action with the first of these bytes.
    pub fn with(&self, bytes: &[u8]) -> Action
        requires { spec.action_length self.now ≤ length bytes.now }
        ensures { result ≡ spec.action_in self.now bytes.now }
    {
        match self {
            KeptAction::Event(event) => Action::Event(event.own(bytes)),
            KeptAction::Dev(unit) => Action::Dev(*unit),
            KeptAction::Glance(subchannel) => Action::Glance(*subchannel),
        }
    }
}

/// A slot for an action: its numbers, and room for its bytes.
#[derive(Drop)]
pub struct ActionSlot {
    pub kept: KeptAction,
    pub bytes: [u8; CHUNK_BYTES],
}

impl ActionSlot {
    /// A slot, with an action that no one asked for.
    pub fn new() -> Self {
        ActionSlot {
            kept: KeptAction::Event(Event::SystemReset),
            bytes: [0; CHUNK_BYTES],
        }
    }

    /// Writes there that bytes are put into storage.
    pub(crate) fn put(&mut self, address: u32, bytes: &Chunk)
        ensures { spec.action_at self.new ≡ action_spec.Event (event_spec.Put address bytes.now) }
    {
        let length = bytes.length();
        self.bytes[..length.get()].copy_from_slice(bytes.as_slice());
        self.kept = KeptAction::Event(Event::Put {
            address,
            bytes: length,
        });
    }

    /// Its bytes.
    pub fn bytes(&self) -> &[u8]
        ensures action { spec.action_in self.now.kept result.now ≡ spec.action_at self.now }
        ensures length { length result.now ≡ spec.action_length self.now.kept }
        ensures bound { length result.now ≤ 256 }
    {
        &self.bytes[..self.kept.length()]
    }
}
