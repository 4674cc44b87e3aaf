//! How the answers of a subsystem by itself are taken.

use chan_events::event::Event;
use chan_events::reply::Reply;
use chan_model::chunk::CHUNK_BYTES;
use channel_subsystem::hosted::ChannelSubsystem;
use event_log::history::LentReply;
use path_select::Rotating;
use storage_keys::LentStorage;
use subsystem::subsystem::Subsystem;

/// How they are taken.
pub trait Taking: Copy + Drop {
    /// Whether a subsystem that keeps a history accepts an event.
    fn at_own(self, subsystem: &mut Subsystem<Rotating>, event: &Event) -> bool;

    /// The same of one that is lent its storage.
    fn at_lent(
        self,
        subsystem: &mut ChannelSubsystem<Rotating>,
        storage: &mut LentStorage<'_, '_, '_>,
        event: &Event,
    ) -> bool;
}

/// Each is a value, and is read.
#[derive(Clone, Copy)]
pub struct Owning;

impl Taking for Owning {
    fn at_own(self, subsystem: &mut Subsystem<Rotating>, event: &Event) -> bool {
        is_answered(&subsystem.step(event))
    }

    fn at_lent(
        self,
        subsystem: &mut ChannelSubsystem<Rotating>,
        storage: &mut LentStorage<'_, '_, '_>,
        event: &Event,
    ) -> bool {
        is_answered(&subsystem.step(storage, event))
    }
}

/// Each stays where it is.
#[derive(Clone, Copy)]
pub struct Leaving;

impl Taking for Leaving {
    fn at_own(self, subsystem: &mut Subsystem<Rotating>, event: &Event) -> bool {
        subsystem.perform(event).is_ok()
    }

    fn at_lent(
        self,
        subsystem: &mut ChannelSubsystem<Rotating>,
        storage: &mut LentStorage<'_, '_, '_>,
        event: &Event,
    ) -> bool {
        subsystem.perform(storage, event).is_ok()
    }
}

/// Each is looked at where it stands.
#[derive(Clone, Copy)]
pub struct Looking;

impl Taking for Looking {
    fn at_own(self, subsystem: &mut Subsystem<Rotating>, event: &Event) -> bool {
        Leaving.at_own(subsystem, event) && is_seen(subsystem.last_reply())
    }

    fn at_lent(
        self,
        subsystem: &mut ChannelSubsystem<Rotating>,
        storage: &mut LentStorage<'_, '_, '_>,
        event: &Event,
    ) -> bool {
        Leaving.at_lent(subsystem, storage, event) && is_seen(subsystem.last_reply())
    }
}

/// Whether an event was accepted; the reply to it is looked at.
pub fn is_answered<E>(outcome: &Result<Reply, E>) -> bool {
    match outcome {
        Ok(reply) => is_whole(reply),
        Err(_) => false,
    }
}

/// Whether a reply has no more bytes than two signals may have. Each reply that is a value is looked at in this way, from a call
/// that is not built in, so that what is counted is what one pays who reads it.
#[inline(never)]
fn is_whole(reply: &Reply) -> bool {
    bytes_of(reply) <= 2 * CHUNK_BYTES
}

/// How many bytes a reply has.
fn bytes_of(reply: &Reply) -> usize {
    match reply {
        Reply::Shown { bytes } => bytes.len(),
        Reply::Up { signal, sent, .. } => {
            signal.bytes().len() + sent.as_ref().map_or(0, |sent| sent.signal.bytes().len())
        }
        Reply::Down { signal, sent, .. } => {
            signal.bytes().len() + sent.as_ref().map_or(0, |sent| sent.signal.bytes().len())
        }
        _ => 0,
    }
}

/// Whether the last event has a reply, which is looked at.
fn is_seen(reply: Option<LentReply<'_>>) -> bool {
    match reply {
        Some(reply) => is_there(&reply),
        None => false,
    }
}

/// Whether what is kept of a reply has no more bytes than there are for it: looked at as one that is a value is.
#[inline(never)]
fn is_there(reply: &LentReply<'_>) -> bool {
    let (kept, bytes) = reply.parts();
    kept.length() <= bytes.len()
}
