//! What was accepted, in order.

ghost use Rattle.std.specs.Prelude.{◌≡◌, ◌≤◌, ◌+◌, ◌++◌, ◌∷◌, ◌↔◌, [], IfNone, IfSome, IsTrue, List, length, take, drop, slice_get};
ghost use Rattle.chan_events.specs.declared.reply.Entry.{Entry};
ghost use Rattle.chan_events.specs.declared.reply.Reply.TheVariants as reply_spec;
ghost use Rattle.event_log.specs.Entries.{entry_length};
ghost use Rattle.chan_events.specs.Replies.{reply_in, reply_length};
ghost use Rattle.event_log.specs.Logs.{AllFit, HasSame, entries_at};
ghost use Rattle.event_log.specs.Logs as spec;

use crate::entries::KeptEntry;
use crate::logs::Log;
use chan_events::reply::{Entry, KeptReply, Reply};
use chan_events::same::{same_event, same_reply};
use std::marker::Model;

/// The accepted events with their replies, the oldest first.
#[derive(Drop)]
pub struct History<'a> {
    entries: &'a [KeptEntry],
    bytes: &'a [u8],
}

impl<'a> Model for History<'a> {
    ghost use Rattle.std.specs.Prelude.{List};
    ghost use Rattle.chan_events.specs.declared.reply.Entry.{Entry};
    ghost use Rattle.event_log.specs.Logs.{AllFit, entries_at};

    ghost Value = { List Entry };

    ghost view = { λ h. entries_at h.bytes.now h.entries.now };

    ghost invariant = { λ h. AllFit h.bytes.now h.entries.now };
}

/// A reply as it is kept, its bytes lent.
#[derive(Drop)]
pub struct LentReply<'a> {
    kept: &'a KeptReply,
    bytes: &'a [u8],
}

impl<'a> Model for LentReply<'a> {
    ghost use Rattle.std.specs.Prelude.{◌≤◌, length};
    ghost use Rattle.chan_events.specs.Replies.{Reply};
    ghost use Rattle.chan_events.specs.Replies.{reply_in, reply_length};

    ghost Value = { Reply };

    ghost view = { λ r. reply_in r.kept.now r.bytes.now };

    ghost invariant = { λ r. reply_length r.kept.now ≤ length r.bytes.now };
}

impl<'a> LentReply<'a> {
    /// The same reply with bytes of its own; it takes no memory.
    pub fn own(&self) -> Reply
        ensures { result ≡ self.now }
    {
        self.kept.own(self.bytes)
    }

    /// What is kept of it, and its bytes, of which there may be more than it has.
    pub fn parts(&self) -> (&'a KeptReply, &'a [u8])
        ensures reply { reply_in result.0.now result.1.now ≡ self.now }
        ensures whole { reply_length result.0.now ≤ length result.1.now }
    {
        (self.kept, self.bytes)
    }
}

impl<'a> History<'a> {
    /// The history of these entries, whose bytes stand there.
    pub fn of(entries: &'a [KeptEntry], bytes: &'a [u8]) -> Self
        requires { AllFit bytes.now entries.now }
        ensures { result ≡ entries_at bytes.now entries.now }
    {
        History { entries, bytes }
    }

    /// How many entries there are.
    pub fn len(&self) -> usize
        ensures { result ≡ length self.now }
    {
        self.entries.len()
    }

    /// The entry of this number, from 0; None where there is none.
    pub fn get(&self, number: usize) -> Option<Entry>
        ensures { result ≡ slice_get self.now number }
    {
        match self.entries.get(number) {
            None => None,
            Some(kept) => Some(entry_at(kept, self.bytes)),
        }
    }

    /// Whether there is an entry of this number, and it is the same as that of another number in another history.
    pub fn has_same(&self, number: usize, other: &History<'_>, index: usize) -> bool
        ensures { IsTrue result ↔ HasSame self.now number other.now index }
    {
        match (self.entries.get(number), other.entries.get(index)) {
            (Some(one), Some(two)) => same_at(one, self.bytes, two, other.bytes),
            _ => false,
        }
    }

    /// Whether both have the same entries in the same order. Where they are kept as the same, with the same bytes in the same
    /// indices, no entry is looked up.
    pub fn is_same(&self, other: &History<'_>) -> bool
        ensures { IsTrue result ↔ (self.now ≡ other.now) }
    {
        (self.bytes == other.bytes && are_kept_as(self.entries, other.entries))
            || are_same(self, other)
    }

    /// The reply of the last entry; None where there is none.
    #[inline]
    pub fn last_reply(&self) -> Option<LentReply<'a>>
        ensures reply { IfSome result (λ reply. reply ≡ spec.last_reply self.now) }
        ensures none { IfNone result (self.now ≡ []) }
    {
        let count = self.entries.len();
        if count == 0 {
            return None;
        }
        let kept = &self.entries[count - 1];
        Some(LentReply {
            kept: &kept.reply,
            bytes: bytes_of(kept, self.bytes),
        })
    }

    /// Adds the last entry, where there is one, to a log that has room for it and in which no other is being written.
    pub fn add_last(&self, log: &mut Log)
        requires room { 1 ≤ log.old.room }
        requires fresh { log.old.reply ≡ reply_spec.Done }
        ensures fresh { log.new.reply ≡ reply_spec.Done }
        ensures entries { (h : List Entry) (e : Entry) → self.now ≡ h ++ e ∷ [] → log.new.entries ≡ log.old.entries ++ e ∷ [] }
        ensures none { self.now ≡ [] → log.new.entries ≡ log.old.entries }
        ensures room { log.old.room ≤ log.new.room + 1 }
    {
        let count = self.entries.len();
        if count > 0 {
            let kept = &self.entries[count - 1];
            log.append_kept(kept, bytes_of(kept, self.bytes));
        }
    }
}

/// The bytes of an entry; where none follow it has none.
fn bytes_of<'a>(kept: &KeptEntry, arena: &'a [u8]) -> &'a [u8]
    requires { spec.Fits (length arena.now) kept.now }
    ensures value { result.now ≡ take (entry_length kept.now) (drop kept.now.start arena.now) }
    ensures length { length result.now ≡ entry_length kept.now }
    ensures bound { length result.now ≤ 768 }
{
    let bytes = &arena[kept.start..];
    if bytes.is_empty() {
        return bytes;
    }
    &bytes[..kept.length()]
}

/// The entry whose bytes stand from its start on.
fn entry_at(kept: &KeptEntry, arena: &[u8]) -> Entry
    requires { spec.Fits (length arena.now) kept.now }
    ensures { result ≡ spec.entry_at arena.now kept.now }
{
    kept.own(bytes_of(kept, arena))
}

/// Whether each entry is the same as the other's of its number, and there are as many.
#[inline(never)]
fn are_same(one: &History<'_>, other: &History<'_>) -> bool
    ensures { IsTrue result ↔ (one.now ≡ other.now) }
{
    if one.len() != other.len() {
        return false;
    }
    for number in 0..one.len() {
        if !one.has_same(number, other, number) {
            return false;
        }
    }
    true
}

/// Whether all are kept as the others.
#[inline(never)]
fn are_kept_as(entries: &[KeptEntry], others: &[KeptEntry]) -> bool
    ensures { IsTrue result ↔ (entries.now ≡ others.now) }
{
    if entries.len() != others.len() {
        return false;
    }
    for index in 0..entries.len() {
        if !is_kept_as(&entries[index], &others[index]) {
            return false;
        }
    }
    true
}

/// Whether both are kept with the same numbers, and their bytes stand at the same indices.
fn is_kept_as(one: &KeptEntry, other: &KeptEntry) -> bool
    ensures { IsTrue result ↔ (one.now ≡ other.now) }
{
    one.start == other.start && same_kept(one, other)
}

/// Whether both are kept with the same numbers, wherever their bytes stand.
fn same_kept(one: &KeptEntry, other: &KeptEntry) -> bool
    ensures { IsTrue result ↔ ((one.now.event ≡ other.now.event) × (one.now.reply ≡ other.now.reply)) }
{
    same_event(&one.event, &other.event) && same_reply(&one.reply, &other.reply)
}

/// Whether both are the same bytes.
fn same_bytes(one: &[u8], other: &[u8]) -> bool
    ensures { IsTrue result ↔ (one.now ≡ other.now) }
{
    one == other
}

/// Whether both are the same entry, each with its bytes: they are where they are kept with the same numbers and have the same
/// bytes.
#[tactic(auto, using(crate::proofs::Sameness::from_parts, crate::proofs::Sameness::to_parts))]
fn same_at(one: &KeptEntry, bytes: &[u8], other: &KeptEntry, other_bytes: &[u8]) -> bool
    requires one { spec.Fits (length bytes.now) one.now }
    requires other { spec.Fits (length other_bytes.now) other.now }
    ensures { IsTrue result ↔ (spec.entry_at bytes.now one.now ≡ spec.entry_at other_bytes.now other.now) }
{
    same_kept(one, other) && same_bytes(bytes_of(one, bytes), bytes_of(other, other_bytes))
}
