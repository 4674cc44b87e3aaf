//! One event at a machine, with its entry in the history.

ghost use Rattle.std.specs.Prelude.{◌≡◌, ◌≢◌, ◌⊎◌, ◌+◌, ◌^◌, ◌≤◌, Err, length, true};
ghost use Rattle.chan_events.specs.declared.reply.Reply.TheVariants as reply_spec;
ghost use Rattle.chan_model.specs.declared.fault.Fault.TheVariants as fault_spec;
ghost use Rattle.machine_model.specs.Steps.{HasRun};
ghost use Rattle.lookup.specs.Tables.{Fits};
ghost use Rattle.subsystem.specs.Keeping.{IsStep, answer_of, past_of};

use chan_events::event::Event;
use chan_model::fault::Fault;
use event_log::logs::Log;
use lookup::tables::SubchannelIndex;
use machine::owning::MachineAndStorage;
use memory::Supply;
use path_select::PathChoice;
use run_laws::answers::codes;
use run_laws::states::{numbers, setups, steps};
use step_laws::refusals;

/// One event at a machine, and its entry in the history that led there.
#[inline(never)]
#[tactic(auto, using(crate::proofs::Accepting::starved))]
pub fn keep_step<S: Supply, P: PathChoice + Drop>(
    machine: &mut MachineAndStorage,
    history: &mut Log,
    supply: &mut S,
    indices: &SubchannelIndex,
    choice: &P,
    event: &Event,
) -> Result<(), Fault>
    requires run { HasRun history.old.entries machine.old }
    requires fits { Fits indices.now machine.old.subs }
    requires fresh { history.old.reply ≡ reply_spec.Done }
    ensures run { HasRun history.new.entries machine.new }
    ensures fits { Fits indices.now machine.new.subs }
    ensures fresh { history.new.reply ≡ reply_spec.Done }
    ensures answered { IsStep P.picks (past_of machine.old history.old) event.now (answer_of result history.new.entries) (past_of machine.new history.new) }
    ensures unrefused { result ≢ Err fault_spec.NoMemory → S.refused supply.new ≡ S.refused supply.old }
    ensures memory { result ≡ Err fault_spec.NoMemory →
        (S.refused supply.new ≡ true) ⊎ (2 ^ 62 ≤ length history.old.entries + 1) }
{
    numbers();
    setups();
    steps();
    codes();
    refusals();
    if history.len() >= (1 << 62) - 1 {
        return Err(Fault::NoMemory);
    }
    if history.make_room_with(supply).is_err() {
        return Err(Fault::NoMemory);
    }
    match machine.perform(indices, choice, event, history) {
        Ok(()) => {
            history.finish(event);
            Ok(())
        }
        Err(fault) => Err(fault),
    }
}
