//! A log that grows at its end.

ghost use Rattle.std.specs.Prelude.{◌≡◌, ◌≤◌, ◌<◌, ◌+◌, ◌++◌, ◌∷◌, [], OnOk, OnErr, IsTrue, true, length, take, drop, vec_len, vec_capacity};
ghost use Rattle.chan_events.specs.declared.reply.Reply.TheVariants as reply_spec;
ghost use Rattle.chan_model.specs.Lent.{lent_down, lent_up};
ghost use Rattle.chan_model.specs.Signals.{map_sent};
ghost use Rattle.event_log.specs.Logs.{IsKept, IsPacked, IsPending, answer_in, unfinished, written_reply};
ghost use Rattle.event_log.specs.Entries.{entry_in, entry_length};
ghost use Rattle.chan_events.specs.Replies.{plain_outcome, reply_in, reply_length};

use crate::arena::add_bytes;
use crate::entries::KeptEntry;
use crate::history::History;
use chan_events::event::Event;
use chan_events::reply::{KeptReply, PlainReply, Reply};
use chan_model::fault::Fault;
use chan_model::lent::{LentDown, LentUp};
use chan_model::signal::OnPath;
use memory::{Allocator, Supply, ensure_room};
use std::alloc::{AllocError, Global};
use std::marker::Model;

/// As many bytes as an entry may have: a chunk of its event and two of its reply.
pub const ENTRY_BYTES: usize = 768;

/// Entries, the oldest first, with the bytes of all. The entry that is being written stands behind those that have ended, once a
/// step has answered.
#[derive(Drop)]
pub struct Log {
    entries: Vec<KeptEntry>,
    /// How many have ended.
    count: usize,
    bytes: Vec<u8>,
    /// Where the bytes of the entry that is being written begin.
    start: usize,
}

impl Model for Log {
    ghost use Rattle.std.specs.Prelude.{◌-◌, ◌<◌, ◌≤◌, drop, take, vec_capacity};
    ghost use Rattle.chan_events.specs.Replies.{reply_in};
    ghost use Rattle.event_log.specs.Logs.{IsLogged, Logged, entries_at, room_of, written_reply};

    ghost Value = { Logged };

    ghost view = { λ l. record {
      entries = entries_at l.bytes.items (take l.count l.entries.items);
      room = room_of (vec_capacity l.entries - l.count) (vec_capacity l.bytes - l.start);
      reply = reply_in (written_reply (drop l.count l.entries.items)) (drop l.start l.bytes.items);
    } };

    ghost invariant = { λ l. IsLogged l.bytes.items l.entries.items l.count l.start × (0 < l.count → 768 ≤ vec_capacity l.bytes) };
}

impl Log {
    /// No entries.
    pub fn new(alloc: Global) -> Self
        ensures { result ≡ record { entries = []; room = 0; reply = reply_spec.Done } }
    {
        Log {
            entries: Vec::new(alloc),
            count: 0,
            bytes: Vec::new(alloc),
            start: 0,
        }
    }

    /// How many entries there are.
    pub fn len(&self) -> usize
        ensures { result ≡ length self.now.entries }
    {
        self.count
    }

    /// No entries any more, nor one that is being written. No room is lost, and where there was an entry there is room for one.
    pub fn forget(&mut self)
        ensures entries { self.new.entries ≡ [] }
        ensures fresh { self.new.reply ≡ reply_spec.Done }
        ensures room { self.old.room ≤ self.new.room }
        ensures again { 1 ≤ length self.old.entries → 1 ≤ self.new.room }
    {
        self.entries.clear();
        self.bytes.clear();
        self.count = 0;
        self.start = 0;
    }

    /// Makes room for one entry. It is refused only where there was none and a growth was refused, and changes nothing then.
    #[inline(always)]
    pub fn make_room(&mut self) -> Result<(), AllocError>
        ensures kept { IsKept self.old self.new }
        ensures reply { self.new.reply ≡ self.old.reply }
        ensures made { OnOk result (1 ≤ self.new.room) }
        ensures refused { OnErr result (self.new ≡ self.old) }
        ensures exhausted { OnErr result (self.old.room ≡ 0) }
    {
        self.make_room_with(&mut Allocator { refused: false })
    }

    /// Makes room for one entry, which is asked of a supply where there is none. It is refused only where the supply refuses
    /// it, and changes nothing then.
    #[inline(always)]
    pub fn make_room_with<S: Supply>(&mut self, supply: &mut S) -> Result<(), AllocError>
        ensures kept { IsKept self.old self.new }
        ensures reply { self.new.reply ≡ self.old.reply }
        ensures made { OnOk result (1 ≤ self.new.room) }
        ensures refused { OnErr result (self.new ≡ self.old) }
        ensures exhausted { OnErr result (self.old.room ≡ 0) }
        ensures unrefused { OnOk result (S.refused supply.new ≡ S.refused supply.old) }
        ensures memory { OnErr result (S.refused supply.new ≡ true) }
    {
        if self.has_room() {
            return Ok(());
        }
        self.grow(supply)
    }

    /// Whether there is room for one entry.
    #[inline(always)]
    fn has_room(&self) -> bool
        ensures { IsTrue result → 1 ≤ self.now.room }
    {
        self.count < self.entries.capacity() && ENTRY_BYTES <= self.bytes.capacity() - self.start
    }

    /// `make_room_with`, where there may be none: apart, as it is rare.
    #[cold]
    #[inline(never)]
    fn grow<S: Supply>(&mut self, supply: &mut S) -> Result<(), AllocError>
        ensures kept { IsKept self.old self.new }
        ensures reply { self.new.reply ≡ self.old.reply }
        ensures made { OnOk result (1 ≤ self.new.room) }
        ensures refused { OnErr result (self.new ≡ self.old) }
        ensures exhausted { OnErr result (self.old.room ≡ 0) }
        ensures unrefused { OnOk result (S.refused supply.new ≡ S.refused supply.old) }
        ensures memory { OnErr result (S.refused supply.new ≡ true) }
    {
        ensure_slot(supply, &mut self.entries, self.count)?;
        let written = self.bytes.len() - self.start;
        ensure_room(supply, &mut self.bytes, ENTRY_BYTES - written)
    }

    /// The reply of the entry that is being written is this one, which has no bytes; a refusal changes nothing.
    #[inline(always)]
    pub fn tell(&mut self, answer: &Result<PlainReply, Fault>) -> Result<(), Fault>
        requires room { 1 ≤ self.old.room }
        requires fresh { self.old.reply ≡ reply_spec.Done }
        ensures told { answer_in result self.new ≡ plain_outcome answer.now }
        ensures kept { IsKept self.old self.new }
        ensures refused { OnErr result (self.new ≡ self.old) }
    {
        match answer {
            Ok(plain) => {
                write(&mut self.entries, self.count, self.start, plain.keep());
                Ok(())
            }
            Err(fault) => Err(*fault),
        }
    }

    /// The reply of the entry that is being written is kept so, with these bytes.
    pub fn tell_kept(&mut self, kept: KeptReply, bytes: &[u8])
        requires room { 1 ≤ self.old.room }
        requires fresh { self.old.reply ≡ reply_spec.Done }
        requires whole { reply_length kept ≡ length bytes.now }
        requires bound { length bytes.now ≤ 512 }
        ensures reply { self.new.reply ≡ reply_in kept bytes.now }
        ensures kept { IsKept self.old self.new }
    {
        write(&mut self.entries, self.count, self.start, kept);
        add_bytes(&mut self.bytes, bytes);
    }

    /// A subchannel met a signal up, and may have sent one down.
    #[inline]
    pub fn meet_up(&mut self, signal: &LentUp<'_>, taken: bool, sent: &Option<OnPath<LentDown<'_>>>)
        requires room { 1 ≤ self.old.room }
        requires fresh { self.old.reply ≡ reply_spec.Done }
        ensures reply { self.new.reply ≡ reply_spec.Up (lent_up signal.now) taken (map_sent lent_down sent.now) }
        ensures kept { IsKept self.old self.new }
    {
        let reply = pack_up(&mut self.bytes, signal, taken, sent);
        write(&mut self.entries, self.count, self.start, reply);
    }

    /// A unit met a signal down, and may have sent one up.
    #[inline]
    pub fn meet_down(
        &mut self,
        signal: &LentDown<'_>,
        taken: bool,
        sent: &Option<OnPath<LentUp<'_>>>,
    )
        requires room { 1 ≤ self.old.room }
        requires fresh { self.old.reply ≡ reply_spec.Done }
        ensures reply { self.new.reply ≡ reply_spec.Down (lent_down signal.now) taken (map_sent lent_up sent.now) }
        ensures kept { IsKept self.old self.new }
    {
        let reply = pack_down(&mut self.bytes, signal, taken, sent);
        write(&mut self.entries, self.count, self.start, reply);
    }

    /// The entry that is being written ends: it is of this event, with its reply.
    pub fn finish(&mut self, event: &Event)
        requires { 1 ≤ self.old.room }
        ensures entries { self.new.entries ≡ self.old.entries ++ record { event = event.now; reply = self.old.reply } ∷ [] }
        ensures room { self.old.room ≤ self.new.room + 1 }
        ensures fresh { self.new.reply ≡ reply_spec.Done }
    {
        settle(&mut self.entries, self.count, self.start);
        event.keep_in(&mut self.entries[self.count].event);
        add_bytes(&mut self.bytes, event.bytes());
        self.start = self.bytes.len();
        self.count += 1;
    }

    /// Adds an entry that is kept with these bytes, for which there is room.
    pub fn append_kept(&mut self, kept: &KeptEntry, bytes: &[u8])
        requires room { 1 ≤ self.old.room }
        requires fresh { self.old.reply ≡ reply_spec.Done }
        requires whole { entry_length kept.now ≡ length bytes.now }
        requires bound { length bytes.now ≤ 768 }
        ensures entries { self.new.entries ≡ self.old.entries ++ entry_in kept.now bytes.now ∷ [] }
        ensures room { self.old.room ≤ self.new.room + 1 }
        ensures fresh { self.new.reply ≡ reply_spec.Done }
    {
        push_same(&mut self.entries, self.count, self.start, kept);
        add_bytes(&mut self.bytes, bytes);
        self.start = self.bytes.len();
        self.count += 1;
    }

    /// The entries.
    pub fn history(&self) -> History<'_>
        ensures { result ≡ self.now.entries }
    {
        History::of(
            &self.entries.as_slice()[..self.count],
            self.bytes.as_slice(),
        )
    }
}

/// The reply to a signal up that was met, as it is kept; its bytes are added.
#[inline]
fn pack_up(
    arena: &mut Vec<u8>,
    signal: &LentUp<'_>,
    taken: bool,
    sent: &Option<OnPath<LentDown<'_>>>,
) -> KeptReply
    requires { vec_len arena.old + 512 ≤ vec_capacity arena.old }
    ensures { IsPacked arena.old arena.new result (reply_spec.Up (lent_up signal.now) taken (map_sent lent_down sent.now)) }
{
    add_bytes(arena, signal.bytes());
    if let Some(sent) = sent {
        add_bytes(arena, sent.signal.bytes());
    }
    KeptReply::met_up(signal, taken, sent)
}

/// The reply to a signal down that was met, as it is kept; its bytes are added.
#[inline]
fn pack_down(
    arena: &mut Vec<u8>,
    signal: &LentDown<'_>,
    taken: bool,
    sent: &Option<OnPath<LentUp<'_>>>,
) -> KeptReply
    requires { vec_len arena.old + 512 ≤ vec_capacity arena.old }
    ensures { IsPacked arena.old arena.new result (reply_spec.Down (lent_down signal.now) taken (map_sent lent_up sent.now)) }
{
    add_bytes(arena, signal.bytes());
    if let Some(sent) = sent {
        add_bytes(arena, sent.signal.bytes());
    }
    KeptReply::met_down(signal, taken, sent)
}

/// Makes a slot for an entry behind those that have ended, where there is none: in what memory a supply has.
fn ensure_slot<S: Supply>(
    supply: &mut S,
    entries: &mut Vec<KeptEntry>,
    count: usize,
) -> Result<(), AllocError>
    requires { count ≤ vec_len entries.old }
    ensures items { entries.new.items ≡ entries.old.items }
    ensures len { vec_len entries.new ≡ vec_len entries.old }
    ensures capacity { vec_capacity entries.old ≤ vec_capacity entries.new }
    ensures made { OnOk result (count < vec_capacity entries.new) }
    ensures refused { OnErr result (vec_capacity entries.new ≡ vec_capacity entries.old) }
    ensures exhausted { OnErr result (vec_capacity entries.old ≤ count) }
    ensures unrefused { OnOk result (S.refused supply.new ≡ S.refused supply.old) }
    ensures memory { OnErr result (S.refused supply.new ≡ true) }
{
    if entries.len() > count {
        return Ok(());
    }
    ensure_room(supply, entries, 1)
}

/// The entry that is being written, behind those that have ended, has this reply.
#[inline(always)]
fn write(entries: &mut Vec<KeptEntry>, count: usize, start: usize, reply: KeptReply)
    requires some { count ≤ vec_len entries.old }
    requires room { count < vec_capacity entries.old }
    ensures items { entries.new.items ≡ take count entries.old.items ++ unfinished start reply ∷ [] }
    ensures len { vec_len entries.new ≡ count + 1 }
    ensures capacity { vec_capacity entries.old ≤ vec_capacity entries.new }
{
    entries.truncate(count);
    let kept = KeptEntry {
        start,
        event: Event::SystemReset,
        reply,
    };
    push_copy(entries, &kept);
}

/// An entry is being written; its reply is Done where no step has answered.
#[inline(always)]
fn settle(entries: &mut Vec<KeptEntry>, count: usize, start: usize)
    requires some { count ≤ vec_len entries.old }
    requires room { count < vec_capacity entries.old }
    requires pending { IsPending start (drop count entries.old.items) }
    ensures items { entries.new.items ≡ take count entries.old.items ++ unfinished start (written_reply (drop count entries.old.items)) ∷ [] }
    ensures len { vec_len entries.new ≡ count + 1 }
    ensures capacity { vec_capacity entries.old ≤ vec_capacity entries.new }
{
    if entries.len() == count {
        write(entries, count, start, Reply::Done);
    }
}

/// Adds an entry behind those that have ended, kept with the same numbers, for which there is room.
#[inline(always)]
fn push_same(entries: &mut Vec<KeptEntry>, count: usize, start: usize, kept: &KeptEntry)
    requires some { count ≤ vec_len entries.old }
    requires room { count < vec_capacity entries.old }
    ensures items { entries.new.items ≡ take count entries.old.items ++ record kept.now { start = start } ∷ [] }
    ensures len { vec_len entries.new ≡ count + 1 }
    ensures capacity { vec_capacity entries.old ≤ vec_capacity entries.new }
{
    entries.truncate(count);
    push_copy(entries, kept);
    entries[count].start = start;
}

/// Adds a copy, for which there is room.
#[inline(always)]
fn push_copy<T: Copy + Drop>(items: &mut Vec<T>, item: &T)
    requires { vec_len items.old < vec_capacity items.old }
    ensures items { items.new.items ≡ items.old.items ++ item.now ∷ [] }
    ensures len { vec_len items.new ≡ vec_len items.old + 1 }
    ensures capacity { vec_capacity items.old ≤ vec_capacity items.new }
{
    items.push_reserved(*item);
}
