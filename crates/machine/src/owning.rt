//! A machine with storage of its own.

ghost use Rattle.std.specs.Prelude.{◌≡◌, ◌≤◌, All, IfOk, OnErr, OnOk, true};
ghost use Rattle.chan_events.specs.declared.reply.Reply.TheVariants as reply_spec;
ghost use Rattle.channel_config.specs.Lawful.{IsLawful};
ghost use Rattle.event_log.specs.Logs.{IsKept, answer_in};
ghost use Rattle.lookup.specs.Tables.{Fits};
ghost use Rattle.machine_model.specs.State.{lent, no_storage};
ghost use Rattle.machine.specs.Postable.{IsPostable};
ghost use Rattle.machine_model.specs.Bounds.{CanCount, CanUnitCount};
ghost use Rattle.machine_model.specs.Ruled.{GoesByRule};
ghost use Rattle.machine_model.specs.State as state_spec;
ghost use Rattle.machine_model.specs.Steps as spec;

use crate::machine::Machine;
use crate::opening::{opened_machine, opened_storage};
use chan_events::event::Event;
use chan_model::fault::Fault;
use channel_config::config::Config;
use event_log::logs::Log;
use lookup::tables::SubchannelIndex;
use memory::Supply;
use path_select::PathChoice;
use std::alloc::{AllocError, Global};
use std::marker::Model;
use storage_keys::Storage;

/// A machine, and the storage that it is lent for each of its events.
#[derive(Drop)]
pub struct MachineAndStorage {
    machine: Machine,
    storage: Storage,
}

impl Model for MachineAndStorage {
    ghost use Rattle.machine_model.specs.State.{State};
    ghost use Rattle.machine_model.specs.State.{lent};

    ghost Value = { State };

    ghost view = { λ m. lent m.machine m.storage };
}

impl MachineAndStorage {
    /// The machine of a configuration with storage as large as it says, or the least, and the indices of its subchannels. It
    /// is refused only where the supply refuses a growth.
    pub fn opened<S: Supply>(
        alloc: Global,
        supply: &mut S,
        config: &Config,
    ) -> Result<(SubchannelIndex, MachineAndStorage), AllocError>
        ensures opened { IfOk result (λ m. m.1 ≡ state_spec.opening_of config.now) }
        ensures fits { IfOk result (λ m. Fits m.0 m.1.subs) }
        ensures lawful { OnOk result (IsLawful config.now) }
        ensures unrefused { OnOk result (S.refused supply.new ≡ S.refused supply.old) }
        ensures memory { OnErr result (S.refused supply.new ≡ true) }
    {
        let storage = opened_storage(alloc, supply, config)?;
        let (indices, machine) = opened_machine(alloc, supply, config)?;
        Ok((indices, MachineAndStorage { machine, storage }))
    }

    /// The machine beside its storage.
    pub fn beside(&self) -> &Machine
        ensures { result.now ≡ lent self.now no_storage }
    {
        self.machine.apart();
        &self.machine
    }

    /// The storage, to look at.
    pub fn storage(&self) -> &Storage
        ensures { result.now ≡ self.now.storage }
    {
        &self.storage
    }

    /// Performs one event, with its reply in the log, where it begins an entry; a refusal changes nothing.
    #[inline(always)]
    pub fn perform<P: PathChoice>(
        &mut self,
        indices: &SubchannelIndex,
        choice: &P,
        event: &Event,
        log: &mut Log,
    ) -> Result<(), Fault>
        requires fits { Fits indices.now self.old.subs }
        requires subs { All CanCount self.old.subs }
        requires units { All CanUnitCount self.old.units }
        requires postable { All IsPostable self.old.subs }
        requires requests { self.old.requests.numbers ≡ 0x100 }
        requires room { 1 ≤ log.old.room }
        requires fresh { log.old.reply ≡ reply_spec.Done }
        ensures performs { spec.Performs self.old event.now (answer_in result log.new) self.new }
        ensures ruled { GoesByRule P.picks self.old event.now (answer_in result log.new) self.new }
        ensures kept { IsKept log.old log.new }
        ensures refused { OnErr result (log.new ≡ log.old) }
    {
        self.machine
            .perform(&mut self.storage, indices, choice, event, log)
    }
}
