//! Entries whose events are performed once more.

ghost use Rattle.std.specs.Prelude.{◌≡◌, ◌++◌, ◌-◌, ◌↔◌, Err, IfErr, IsTrue, List, Ok, OnOk, Some, length, slice_get, true};
ghost use Rattle.chan_events.specs.declared.reply.Entry.{Entry};
ghost use Rattle.channel_subsystem.specs.Hosting.{IsHostStep, Leads};
ghost use Rattle.channel_subsystem.specs.Replaying.{AreRepeated, EndsAt, GoesOtherwise};
ghost use Rattle.channel_subsystem.specs.declared.host_fault.HostFault.TheVariants as fault_spec;
ghost use Rattle.channel_subsystem.specs.declared.not_replayed.Difference.TheVariants as difference_spec;
ghost use Rattle.event_log.specs.Logs.{HasSame};
ghost use Rattle.machine_model.specs.State.{lent};
ghost use Rattle.machine_model.specs.Steps.{HasRun};

use super::ChannelSubsystem;
use crate::not_replayed::{Difference, NotReplayed};
use event_log::history::History;
use memory::{Allocator, Supply};
use path_select::PathChoice;
use run_laws::states::setups;
use storage_keys::MainStorage;

impl<P: PathChoice + Drop> ChannelSubsystem<P> {
    /// Performs the events of a history one after another, and ends after the first that is refused or has another reply than its
    /// entry. Each history that led here goes on by the entries that were replayed.
    ///
    /// It goes right where all is as it was at the first of the entries: the same set-up and choice of paths, the same state, which
    /// after `new` is that of the opening, and storage with what it held then. Nobody stores while it runs, so what a CPU stored
    /// between two of the calls must be among the entries, as an event that puts bytes or sets a key or a prefix. What devices
    /// answered is, since it is reported by events. A host that does not enter its stores performs each event by itself, and
    /// stores between two of them.
    pub fn replay<M: MainStorage>(
        &mut self,
        storage: &mut M,
        history: &History<'_>,
    ) -> Result<(), NotReplayed>
        ensures replayed { OnOk result (AreRepeated P.picks self.old (M.contents storage.old) history.now self.new (M.contents storage.new)) }
        ensures ended { IfErr result (λ n. EndsAt P.picks self.old (M.contents storage.old) history.now n self.new (M.contents storage.new)) }
        ensures leads { OnOk result ((h : List Entry) → Leads h self.old (M.contents storage.old) → Leads (h ++ history.now) self.new (M.contents storage.new)) }
        ensures runs { OnOk result ((h : List Entry) → HasRun h (lent self.old.machine (M.contents storage.old)) →
            HasRun (h ++ history.now) (lent self.new.machine (M.contents storage.new))) }
        ensures lender { M.lender storage.new ≡ M.lender storage.old }
    {
        self.replay_with(&mut Allocator { refused: false }, storage, history)
    }

    /// The same, with room for the entries that it keeps from a supply. It is refused `NoMemory` only where the supply refuses that.
    pub fn replay_with<S: Supply, M: MainStorage>(
        &mut self,
        supply: &mut S,
        storage: &mut M,
        history: &History<'_>,
    ) -> Result<(), NotReplayed>
        ensures replayed { OnOk result (AreRepeated P.picks self.old (M.contents storage.old) history.now self.new (M.contents storage.new)) }
        ensures ended { IfErr result (λ n. EndsAt P.picks self.old (M.contents storage.old) history.now n self.new (M.contents storage.new)) }
        ensures leads { OnOk result ((h : List Entry) → Leads h self.old (M.contents storage.old) → Leads (h ++ history.now) self.new (M.contents storage.new)) }
        ensures runs { OnOk result ((h : List Entry) → HasRun h (lent self.old.machine (M.contents storage.old)) →
            HasRun (h ++ history.now) (lent self.new.machine (M.contents storage.new))) }
        ensures lender { M.lender storage.new ≡ M.lender storage.old }
        ensures unrefused { OnOk result (S.refused supply.new ≡ S.refused supply.old) }
        ensures memory { IfErr result (λ n. n.difference ≡ difference_spec.Refused fault_spec.NoMemory → S.refused supply.new ≡ true) }
    {
        setups();
        for index in 0..history.len() {
            match self.repeat(supply, storage, history, index) {
                Ok(()) => {}
                Err(difference) => return Err(NotReplayed { index, difference }),
            }
        }
        Ok(())
    }

    /// The event of the entry of an index once more; nothing where there is none.
    fn repeat<S: Supply, M: MainStorage>(
        &mut self,
        supply: &mut S,
        storage: &mut M,
        history: &History<'_>,
        index: usize,
    ) -> Result<(), Difference>
        ensures same { OnOk result ((entry : Entry) → slice_get history.now index ≡ Some entry →
            IsHostStep P.picks self.old (M.contents storage.old) entry.event (Ok entry.reply) self.new (M.contents storage.new)) }
        ensures otherwise { IfErr result (λ difference. (entry : Entry) → slice_get history.now index ≡ Some entry →
            GoesOtherwise P.picks self.old (M.contents storage.old) entry difference self.new (M.contents storage.new)) }
        ensures lender { M.lender storage.new ≡ M.lender storage.old }
        ensures unrefused { OnOk result (S.refused supply.new ≡ S.refused supply.old) }
        ensures memory { result ≡ Err (difference_spec.Refused fault_spec.NoMemory) → S.refused supply.new ≡ true }
    {
        let Some(entry) = history.get(index) else {
            return Ok(());
        };
        match self.perform_with(supply, storage, &entry.event) {
            Ok(()) => {}
            Err(fault) => return Err(Difference::Refused(fault)),
        }
        if !self.keeps_last(history, index) {
            return Err(Difference::OtherReply);
        }
        Ok(())
    }

    /// Whether the entry that is kept last is that of an index.
    fn keeps_last(&self, history: &History<'_>, index: usize) -> bool
        ensures { IsTrue result ↔ HasSame self.now.kept (length self.now.kept - 1) history.now index }
    {
        let count = self.log.len();
        if count == 0 {
            return false;
        }
        self.log.history().has_same(count - 1, history, index)
    }
}
