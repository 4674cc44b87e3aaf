//! One event at a machine that is lent storage, with its entry behind those that a log has.

pub mod by_value;

ghost use Rattle.std.specs.Prelude.{◌≡◌, ◌≢◌, ◌⊎◌, ◌+◌, ◌^◌, ◌≤◌, ◌++◌, ◌∷◌, [], Err, IfErr, OnErr, OnOk, length, true};
ghost use Rattle.std.specs.Bool.{OnTrue, OnFalse};
ghost use Rattle.chan_events.specs.declared.reply.Reply.TheVariants as reply_spec;
ghost use Rattle.channel_subsystem.specs.Ends.{still_kept};
ghost use Rattle.channel_subsystem.specs.Hosting.{HasNumber, IsOfSize, LacksRoom};
ghost use Rattle.channel_subsystem.specs.declared.host_fault.HostFault.TheVariants as fault_spec;
ghost use Rattle.channel_subsystem.specs.declared.keeping.Keeping.TheVariants as keeping_spec;
ghost use Rattle.event_log.specs.Logs.{last_reply};
ghost use Rattle.lookup.specs.Tables.{Fits};
ghost use Rattle.machine_model.specs.State.{lent};
ghost use Rattle.machine_model.specs.Ruled.{GoesByRule};
ghost use Rattle.machine_model.specs.Steps.{Performs};
ghost use Rattle.storage_keys.specs.Storage.{IsAddressable};
ghost use Rattle.subsystem.specs.Keeping.{answer_of};

use crate::host_fault::HostFault;
use crate::keeping::Keeping;
use chan_events::event::Event;
use chan_model::fault::Fault;
use event_log::logs::Log;
use lookup::tables::SubchannelIndex;
use machine::machine::Machine;
use memory::Supply;
use path_select::PathChoice;
use run_laws::states::{numbers, setups};
use storage_keys::MainStorage;

/// How many bytes a block has.
const BLOCK: u32 = 4096;

/// Whether storage is of so many blocks.
pub fn is_of_size<M: MainStorage>(storage: &M, blocks: u32) -> bool
    ensures same { OnTrue result (IsOfSize blocks (M.contents storage.now)) }
    ensures other { OnFalse result (¬ IsOfSize blocks (M.contents storage.now)) }
    ensures sound { IsAddressable (M.contents storage.now) }
{
    storage.size() / BLOCK == blocks
}

/// Lets go what is not kept as another event begins. Where the last entry alone is kept there is room for another after it.
pub fn make_way(keeping: Keeping, log: &mut Log)
    requires fresh { log.old.reply ≡ reply_spec.Done }
    requires room { 1 ≤ log.old.room + length log.old.entries }
    ensures entries { log.new.entries ≡ still_kept keeping log.old.entries }
    ensures fresh { log.new.reply ≡ reply_spec.Done }
    ensures kept { log.old.room ≤ log.new.room }
    ensures room { 1 ≤ log.new.room + length log.new.entries }
    ensures all { (keeping ≡ keeping_spec.AllEntries) ⊎ (1 ≤ log.new.room) }
{
    match keeping {
        Keeping::LastEntry => log.forget(),
        Keeping::AllEntries => {}
    }
}

/// Room and a number for another entry. It is refused only where 2^62 - 1 events were accepted, or there was no room and the supply
/// refused a growth, and changes nothing then.
pub fn make_room<S: Supply>(supply: &mut S, count: u64, log: &mut Log) -> Result<(), HostFault>
    ensures entries { log.new.entries ≡ log.old.entries }
    ensures reply { log.new.reply ≡ log.old.reply }
    ensures kept { log.old.room ≤ log.new.room }
    ensures made { OnOk result (1 ≤ log.new.room) }
    ensures number { OnOk result (count + 2 ≤ 2 ^ 62) }
    ensures refused { OnErr result (log.new ≡ log.old) }
    ensures refusal { IfErr result (LacksRoom count log.old.room) }
    ensures unrefused { result ≢ Err fault_spec.NoMemory → S.refused supply.new ≡ S.refused supply.old }
    ensures memory { result ≡ Err fault_spec.NoMemory → S.refused supply.new ≡ true }
{
    if count >= (1 << 62) - 1 {
        return Err(HostFault::NumbersUsedUp);
    }
    match log.make_room_with(supply) {
        Ok(()) => Ok(()),
        Err(_) => Err(HostFault::NoMemory),
    }
}

/// One event at a machine on what its host's storage holds, with its entry in a log that has room for it.
#[inline(never)]
pub fn keep_entry<M: MainStorage, P: PathChoice + Drop>(
    machine: &mut Machine,
    storage: &mut M,
    indices: &SubchannelIndex,
    choice: &P,
    event: &Event,
    log: &mut Log,
) -> Result<(), Fault>
    requires run { HasNumber (lent machine.old (M.contents storage.old)) }
    requires fits { Fits indices.now machine.old.subs }
    requires fresh { log.old.reply ≡ reply_spec.Done }
    requires room { 1 ≤ log.old.room }
    ensures performs { Performs (lent machine.old (M.contents storage.old)) event.now (answer_of result log.new.entries) (lent machine.new (M.contents storage.new)) }
    ensures ruled { GoesByRule P.picks (lent machine.old (M.contents storage.old)) event.now (answer_of result log.new.entries) (lent machine.new (M.contents storage.new)) }
    ensures entry { OnOk result (log.new.entries ≡ log.old.entries ++ record { event = event.now; reply = last_reply log.new.entries } ∷ []) }
    ensures room { OnOk result (log.old.room ≤ log.new.room + 1) }
    ensures refused { OnErr result (log.new ≡ log.old) }
    ensures kept { OnErr result (machine.new ≡ machine.old) }
    ensures unchanged { OnErr result (M.contents storage.new ≡ M.contents storage.old) }
    ensures fits { Fits indices.now machine.new.subs }
    ensures fresh { log.new.reply ≡ reply_spec.Done }
    ensures lender { M.lender storage.new ≡ M.lender storage.old }
    ensures sound { OnOk result (IsAddressable (M.contents storage.new)) }
{
    numbers();
    setups();
    machine.apart();
    match machine.perform(storage, indices, choice, event, log) {
        Ok(()) => {
            log.finish(event);
            let _ = storage.size();
            Ok(())
        }
        Err(fault) => {
            machine.apart();
            Err(fault)
        }
    }
}
