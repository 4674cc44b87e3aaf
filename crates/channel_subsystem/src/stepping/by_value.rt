//! One instruction with its operand by value at a machine, with its entry in the log.

ghost use Rattle.std.specs.Prelude.{◌≡◌, ◌+◌, ◌≤◌, ◌++◌, ◌∷◌, [], IfOk, OnErr, OnOk, Ok, length};
ghost use Rattle.chan_events.specs.Replies.{reply_of};
ghost use Rattle.chan_events.specs.declared.reply.Reply.TheVariants as reply_spec;
ghost use Rattle.channel_subsystem.specs.GivenSteps.{given_event, other_event};
ghost use Rattle.channel_subsystem.specs.Hosting.{HasNumber};
ghost use Rattle.io_step.specs.GivenOperands.{HasOperand, HasRoom, outcome, storage_after, with_reply};
ghost use Rattle.lookup.specs.Tables.{Fits};
ghost use Rattle.machine_model.specs.State.{lent};
ghost use Rattle.machine_model.specs.Steps.{Performs};
ghost use Rattle.storage_keys.specs.Storage.{Contents};

use chan_events::event::Event;
use chan_events::reply::PlainReply;
use chan_model::fault::Fault;
use chan_model::names::Cpu;
use event_log::logs::Log;
use io_step::{Answered, ByValue, OtherByValue};
use lookup::tables::SubchannelIndex;
use machine::machine::Machine;
use run_laws::states::{numbers, setups};

/// An instruction on a subchannel, with its entry in a log that has room for it: that of the event with the operand at address 0.
#[inline(never)]
pub fn keep_by_value(
    machine: &mut Machine,
    indices: &SubchannelIndex,
    cpu: Cpu,
    subchannel: u32,
    instruction: &ByValue,
    log: &mut Log,
) -> Result<Answered, Fault>
    requires run { (storage : Contents) × HasNumber (lent machine.old storage) }
    requires fits { Fits indices.now machine.old.subs }
    requires fresh { log.old.reply ≡ reply_spec.Done }
    requires room { 1 ≤ log.old.room }
    ensures performs { (storage : Contents) → HasOperand instruction.now storage cpu 0 →
        Performs (lent machine.old storage) (given_event cpu subchannel instruction.now) (outcome result) (lent machine.new (storage_after storage cpu 0 result)) }
    ensures entry { IfOk result (λ answered. log.new.entries ≡ log.old.entries ++ record { event = given_event cpu subchannel instruction.now; reply = reply_of answered.reply } ∷ []) }
    ensures room { OnOk result (log.old.room ≤ log.new.room + 1) }
    ensures refused { OnErr result (log.new ≡ log.old) }
    ensures kept { OnErr result (machine.new ≡ machine.old) }
    ensures fits { Fits indices.now machine.new.subs }
    ensures fresh { log.new.reply ≡ reply_spec.Done }
{
    numbers();
    setups();
    instruction.is_somewhere();
    machine.apart();
    match machine.perform_by_value(indices, subchannel, instruction, log) {
        Ok(answered) => {
            let instruction = instruction.at(subchannel, 0);
            log.finish(&Event::Execute { cpu, instruction });
            Ok(answered)
        }
        Err(fault) => {
            machine.apart();
            Err(fault)
        }
    }
}

/// The same with an instruction that names no subchannel.
#[inline(never)]
pub fn keep_other_by_value(
    machine: &mut Machine,
    indices: &SubchannelIndex,
    cpu: Cpu,
    instruction: OtherByValue,
    log: &mut Log,
) -> PlainReply
    requires fits { Fits indices.now machine.old.subs }
    requires fresh { log.old.reply ≡ reply_spec.Done }
    requires room { 1 ≤ log.old.room }
    ensures performs { (storage : Contents) → HasRoom instruction storage cpu 0 →
        Performs (lent machine.old storage) (other_event cpu instruction) (Ok (reply_of result)) (lent machine.new (with_reply storage cpu 0 (reply_of result))) }
    ensures entry { log.new.entries ≡ log.old.entries ++ record { event = other_event cpu instruction; reply = reply_of result } ∷ [] }
    ensures room { log.old.room ≤ log.new.room + 1 }
    ensures fits { Fits indices.now machine.new.subs }
    ensures fresh { log.new.reply ≡ reply_spec.Done }
{
    setups();
    instruction.is_somewhere();
    let reply = machine.perform_other_by_value(instruction, log);
    let instruction = instruction.at(0);
    log.finish(&Event::ExecuteOther { cpu, instruction });
    reply
}
