//! The channel subsystem of a host.

mod by_value;
mod looks;
mod replaying;

ghost use Rattle.std.specs.Prelude.{◌≡◌, ◌≢◌, ◌⊎◌, ◌<◌, ◌≤◌, ◌+◌, List, [], Err, IfErr, IfNone, IfOk, IfSome, OnErr, OnOk, length, true};
ghost use Rattle.chan_events.specs.declared.reply.Entry.{Entry};
ghost use Rattle.channel_config.specs.Lawful.{hosted};
ghost use Rattle.channel_subsystem.specs.Ends.{EndsBy};
ghost use Rattle.channel_subsystem.specs.Hosting.{HasLed, IsHostSize, IsHostStep, Leads};
ghost use Rattle.channel_subsystem.specs.declared.host_fault.HostFault.TheVariants as fault_spec;
ghost use Rattle.event_log.specs.Logs.{last_reply};
ghost use Rattle.machine_model.specs.State.{lent, no_storage};
ghost use Rattle.machine_model.specs.Setups.{IsSetUp};
ghost use Rattle.machine_model.specs.State as state_spec;
ghost use Rattle.run_laws.specs.Agreeing.{AllAgree};
ghost use Rattle.run_laws.specs.Beginnings.{IsBegunOnce};
ghost use Rattle.run_laws.specs.StateClaims.{IsClearedOnce};
ghost use Rattle.storage_keys.specs.Storage.{Contents, cleared_storage};
ghost use Rattle.subsystem.specs.Headline.{HasHeld};
ghost use Rattle.subsystem.specs.Keeping.{answer_of};

use crate::host_fault::HostFault;
use crate::keeping::Keeping;
use crate::stepping::{is_of_size, keep_entry, make_way};
use chan_events::event::Event;
use chan_events::reply::Reply;
use channel_config::config::Config;
use event_log::history::{History, LentReply};
use event_log::logs::Log;
use lookup::tables::SubchannelIndex;
use machine::machine::Machine;
use machine::opening::opened_machine;
use memory::{Allocator, Supply};
use path_select::PathChoice;
use run_laws::answers::codes;
use run_laws::states::{numbers, setups, steps};
use std::alloc::Global;
use std::marker::Model;
use storage_keys::MainStorage;
use subsystem::histories::every_history;
use subsystem::subsystem::NotMade;

/// A channel subsystem with its subchannels and units, which is lent main storage for each call (SA22-7832, chapters 13 to 17). What
/// the host's CPUs store between two calls needs no call: it is in its history as bytes that are put, keys and prefixes that are
/// set. Of the history those entries of calls are kept that were asked for.
#[derive(Drop)]
pub struct ChannelSubsystem<P: Drop> {
    choice: P,
    indices: SubchannelIndex,
    machine: Machine,
    /// How many blocks of 4,096 bytes storage has.
    blocks: u32,
    /// How many events were accepted.
    count: u64,
    keeping: Keeping,
    /// The entries that are kept, and room for more.
    log: Log,
}

impl<P: Drop> Model for ChannelSubsystem<P> {
    ghost use Rattle.std.specs.Prelude.{◌≡◌, ◌+◌, ◌≤◌, length};
    ghost use Rattle.chan_events.specs.declared.reply.Reply.TheVariants as reply_spec;
    ghost use Rattle.channel_subsystem.specs.Hosting.{HasLed, Hosted, IsHostSize};
    ghost use Rattle.lookup.specs.Tables.{Fits};

    ghost Value = { Hosted };

    ghost view = { λ s. record { machine = s.machine; blocks = s.blocks; keeping = s.keeping; kept = s.log.entries; room = s.log.room; count = s.count } };

    ghost invariant = { λ s.
        HasLed (record { machine = s.machine; blocks = s.blocks; keeping = s.keeping; kept = s.log.entries; room = s.log.room; count = s.count })
        × (Fits s.indices s.machine.subs × ((s.log.reply ≡ reply_spec.Done) × ((1 ≤ s.log.room + length s.log.entries) × IsHostSize s.blocks))) };
}

impl<P: PathChoice + Drop> ChannelSubsystem<P> {
    /// The channel subsystem that is set up so, for storage of so many blocks of 4,096 bytes, whatever the set-up says of storage;
    /// there is room for an entry. What was given is handed back where there is no memory, or the blocks are not 16 to 524,288.
    pub fn new(
        alloc: Global,
        config: Config,
        blocks: u32,
        keeping: Keeping,
        choice: P,
    ) -> Result<Self, NotMade<P>>
        ensures made { IfOk result (λ s. s ≡ record { machine = lent (state_spec.opening_of config) no_storage; blocks = blocks; keeping = keeping; kept = []; room = s.room; count = 0 }) }
        ensures room { IfOk result (λ s. 1 ≤ s.room) }
        ensures leads { IfOk result (λ s. Leads [] s (cleared_storage blocks)) }
        ensures set_up { IfOk result (λ s. IsSetUp (hosted config blocks) (lent s.machine (cleared_storage blocks))) }
        ensures size { OnOk result (IsHostSize blocks) }
        ensures config { IfErr result (λ n. n.config ≡ config) }
        ensures choice { IfErr result (λ n. n.choice ≡ choice) }
    {
        ChannelSubsystem::new_with(
            alloc,
            &mut Allocator { refused: false },
            config,
            blocks,
            keeping,
            choice,
        )
    }

    /// The same, in what room a supply has. It is not made only where the blocks are not 16 to 524,288, or the supply refuses a
    /// growth. Where the last entry alone is kept no call takes memory after that.
    pub fn new_with<S: Supply>(
        alloc: Global,
        supply: &mut S,
        config: Config,
        blocks: u32,
        keeping: Keeping,
        choice: P,
    ) -> Result<Self, NotMade<P>>
        ensures made { IfOk result (λ s. s ≡ record { machine = lent (state_spec.opening_of config) no_storage; blocks = blocks; keeping = keeping; kept = []; room = s.room; count = 0 }) }
        ensures room { IfOk result (λ s. 1 ≤ s.room) }
        ensures leads { IfOk result (λ s. Leads [] s (cleared_storage blocks)) }
        ensures set_up { IfOk result (λ s. IsSetUp (hosted config blocks) (lent s.machine (cleared_storage blocks))) }
        ensures size { OnOk result (IsHostSize blocks) }
        ensures config { IfErr result (λ n. n.config ≡ config) }
        ensures choice { IfErr result (λ n. n.choice ≡ choice) }
        ensures unrefused { OnOk result (S.refused supply.new ≡ S.refused supply.old) }
        ensures memory { OnErr result ((S.refused supply.new ≡ true) ⊎ (¬ IsHostSize blocks)) }
    {
        if blocks < 16 || blocks > 524_288 {
            return Err(NotMade { config, choice });
        }
        let mut log = Log::new(alloc);
        if log.make_room_with(supply).is_err() {
            return Err(NotMade { config, choice });
        }
        match opened_machine(alloc, supply, &config) {
            Ok((indices, machine)) => Ok(ChannelSubsystem {
                choice,
                indices,
                machine,
                blocks,
                count: 0,
                keeping,
                log,
            }),
            Err(_) => Err(NotMade { config, choice }),
        }
    }

    /// One event on what storage holds now, with its reply. It is refused `OtherSize` only where storage has not as many blocks as
    /// were set up, `NumbersUsedUp` only where 2^62 - 1 events were accepted, and `NoMemory` only where all entries are kept and
    /// there is no memory for another; a refusal changes nothing.
    #[inline]
    pub fn step<M: MainStorage>(
        &mut self,
        storage: &mut M,
        event: &Event,
    ) -> Result<Reply, HostFault>
        ensures stepped { IsHostStep P.picks self.old (M.contents storage.old) event.now result self.new (M.contents storage.new) }
        ensures lender { M.lender storage.new ≡ M.lender storage.old }
    {
        self.step_with(&mut Allocator { refused: false }, storage, event)
    }

    /// One event, as `step` has it, with room for its entry from a supply. It is refused `NoMemory` only where the supply refuses
    /// that.
    #[inline]
    pub fn step_with<S: Supply, M: MainStorage>(
        &mut self,
        supply: &mut S,
        storage: &mut M,
        event: &Event,
    ) -> Result<Reply, HostFault>
        ensures stepped { IsHostStep P.picks self.old (M.contents storage.old) event.now result self.new (M.contents storage.new) }
        ensures lender { M.lender storage.new ≡ M.lender storage.old }
        ensures unrefused { result ≢ Err fault_spec.NoMemory → S.refused supply.new ≡ S.refused supply.old }
        ensures memory { result ≡ Err fault_spec.NoMemory → S.refused supply.new ≡ true }
    {
        self.perform_with(supply, storage, event)?;
        match self.last_reply() {
            Some(reply) => Ok(reply.own()),
            None => Ok(Reply::Done),
        }
    }

    /// One event, as `step` has it; `last_reply` lends its reply. Nothing is copied for those who do not look.
    pub fn perform<M: MainStorage>(
        &mut self,
        storage: &mut M,
        event: &Event,
    ) -> Result<(), HostFault>
        ensures stepped { IsHostStep P.picks self.old (M.contents storage.old) event.now (answer_of result self.new.kept) self.new (M.contents storage.new) }
        ensures lender { M.lender storage.new ≡ M.lender storage.old }
    {
        self.perform_with(&mut Allocator { refused: false }, storage, event)
    }

    /// One event, as `perform` has it, with room for its entry from a supply, as `step_with` says.
    pub fn perform_with<S: Supply, M: MainStorage>(
        &mut self,
        supply: &mut S,
        storage: &mut M,
        event: &Event,
    ) -> Result<(), HostFault>
        ensures stepped { IsHostStep P.picks self.old (M.contents storage.old) event.now (answer_of result self.new.kept) self.new (M.contents storage.new) }
        ensures lender { M.lender storage.new ≡ M.lender storage.old }
        ensures unrefused { result ≢ Err fault_spec.NoMemory → S.refused supply.new ≡ S.refused supply.old }
        ensures memory { result ≡ Err fault_spec.NoMemory → S.refused supply.new ≡ true }
    {
        numbers();
        setups();
        steps();
        codes();
        make_way(self.keeping, &mut self.log);
        if !is_of_size(storage, self.blocks) {
            return Err(HostFault::OtherSize);
        }
        if self.count >= (1 << 62) - 1 {
            return Err(HostFault::NumbersUsedUp);
        }
        if self.log.make_room_with(supply).is_err() {
            return Err(HostFault::NoMemory);
        }
        match keep_entry(
            &mut self.machine,
            storage,
            &self.indices,
            &self.choice,
            event,
            &mut self.log,
        ) {
            Ok(()) => {
                self.count += 1;
                Ok(())
            }
            Err(fault) => Err(HostFault::Refused(fault)),
        }
    }

    /// The reply of the entry that is kept last; None where none is. Where the last entry alone is kept it is the reply to the event
    /// of the last call, and None where that was refused.
    #[inline]
    pub fn last_reply(&self) -> Option<LentReply<'_>>
        ensures reply { IfSome result (λ reply. reply ≡ last_reply self.now.kept) }
        ensures none { IfNone result (self.now.kept ≡ []) }
    {
        self.log.history().last_reply()
    }

    /// The entries that are kept, the oldest first. Each history that leads here ends by them, with nothing between them but what
    /// the host stored.
    pub fn history(&self) -> History<'_>
        ensures history { result ≡ self.now.kept }
        ensures ends { (h : List Entry) (storage : Contents) → Leads h self.now storage → EndsBy h result }
    {
        self.log.history()
    }

    /// Lets go what is kept: there are no entries any more, and their room is for others. All else stays, and each history that led
    /// here leads here still.
    pub fn forget(&mut self)
        ensures forgotten { self.new ≡ record self.old { kept = []; room = self.new.room } }
        ensures room { self.old.room ≤ self.new.room }
        ensures again { 1 ≤ length self.old.kept → 1 ≤ self.new.room }
        ensures leads { (h : List Entry) (storage : Contents) → Leads h self.old storage → Leads h self.new storage }
    {
        self.log.forget();
    }

    /// What holds here, without a look: some history led here; and whatever history did, and whatever storage held then, each status
    /// is cleared once, each start begins one program at most, subchannels and units agree, and throughout it the headline holds.
    pub fn headline(&self)
        ensures led { HasLed self.now }
        ensures cleared_once { (h : List Entry) (storage : Contents) → Leads h self.now storage → IsClearedOnce self.now.machine.sets h }
        ensures begun_once { (h : List Entry) (storage : Contents) → Leads h self.now storage → IsBegunOnce self.now.machine.sets h }
        ensures agree { (h : List Entry) (storage : Contents) → Leads h self.now storage → AllAgree (lent self.now.machine storage) }
        ensures headline { (h : List Entry) (storage : Contents) → Leads h self.now storage → HasHeld h (lent self.now.machine storage) }
    {
        every_history();
        let _ = &self.log;
    }
}
