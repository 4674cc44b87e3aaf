//! Instructions whose operand is given by value: no storage is lent to the machine for them.

ghost use Rattle.std.specs.Prelude.{◌≡◌, ◌≤◌, ℕ, All, Ok, OnErr};
ghost use Rattle.chan_events.specs.Replies.{reply_of};
ghost use Rattle.chan_events.specs.declared.event.Event.TheVariants as event_spec;
ghost use Rattle.chan_events.specs.declared.reply.Reply.TheVariants as reply_spec;
ghost use Rattle.event_log.specs.Logs.{IsKept, answer_in};
ghost use Rattle.io_step.specs.GivenOperands as given_spec;
ghost use Rattle.lookup.specs.Tables.{Fits};
ghost use Rattle.machine_model.specs.State.{lent};
ghost use Rattle.machine.specs.Postable.{IsPostable};
ghost use Rattle.machine_model.specs.Bounds.{CanCount};
ghost use Rattle.machine_model.specs.Steps as spec;
ghost use Rattle.storage_keys.specs.Storage.{Contents};

use crate::machine::Machine;
use chan_events::reply::PlainReply;
use chan_model::fault::Fault;
use channel_config::names::subchannel_named;
use event_log::logs::Log;
use io_step::{
    Answered, ByValue, OtherByValue, absent_by_value, perform_by_value, perform_other_by_value,
};
use lookup::engines::{Served, engaged};
use lookup::tables::SubchannelIndex;
use run_laws::engines::engines;
use signal_step::posting::{made_by, post};
use signal_step::tables::engaged_by_value;

impl Machine {
    fn execute_by_value(
        &mut self,
        indices: &SubchannelIndex,
        word: u32,
        instruction: &ByValue,
    ) -> Result<Answered, Fault>
        requires fits { Fits indices.now self.old.subs }
        requires roomy { All CanCount self.old.subs }
        requires postable { All IsPostable self.old.subs }
        requires requests { self.old.requests.numbers ≡ 0x100 }
        ensures { (storage : Contents) (cpu address : ℕ) → given_spec.HasOperand instruction.now storage cpu address →
            spec.Performs (lent self.old storage) (event_spec.Execute cpu (given_spec.instruction_at instruction.now word address))
            (given_spec.outcome result) (lent self.new (given_spec.storage_after storage cpu address result)) }
    {
        engines();
        instruction.is_somewhere();
        let Some(id) = subchannel_named(self.sets, word) else {
            return Err(Fault::Operand);
        };
        let Some(index) = indices.index_in(id, self.subs.as_slice()) else {
            return Answered::alone(absent_by_value(instruction));
        };
        let sub = &mut self.subs[index];
        let before = engaged(sub);
        let made = made_by(sub);
        let answer = perform_by_value(sub, &mut self.pending, instruction);
        post(&mut self.pending, sub, made);
        let after = engaged(sub);
        self.engines.change(index, before, after);
        answer
    }

    /// Performs an instruction with its operand by value on the subchannel that the subsystem-identification word names, with its
    /// reply in the log, where it begins an entry. Whichever CPU executes it, and wherever storage has the operand, it is the
    /// event of that instruction, once the block that it leaves is stored there. It is refused with Operand where the word names no
    /// set, or the contents of the operand are not allowed; a refusal changes nothing.
    pub fn perform_by_value(
        &mut self,
        indices: &SubchannelIndex,
        word: u32,
        instruction: &ByValue,
        log: &mut Log,
    ) -> Result<Answered, Fault>
        requires fits { Fits indices.now self.old.subs }
        requires subs { All CanCount self.old.subs }
        requires postable { All IsPostable self.old.subs }
        requires requests { self.old.requests.numbers ≡ 0x100 }
        requires room { 1 ≤ log.old.room }
        requires fresh { log.old.reply ≡ reply_spec.Done }
        ensures performs { (storage : Contents) (cpu address : ℕ) → given_spec.HasOperand instruction.now storage cpu address →
            spec.Performs (lent self.old storage) (event_spec.Execute cpu (given_spec.instruction_at instruction.now word address))
            (given_spec.outcome result) (lent self.new (given_spec.storage_after storage cpu address result)) }
        ensures told { answer_in result log.new ≡ given_spec.outcome result }
        ensures kept { IsKept log.old log.new }
        ensures refused { OnErr result (log.new ≡ log.old) }
    {
        let answered = self.execute_by_value(indices, word, instruction)?;
        log.tell_kept(answered.reply.keep(), &[]);
        Ok(answered)
    }

    /// Performs an instruction that names no subchannel, with its operand by value, with its reply in the log, where it begins an
    /// entry: the reply tells all that is to be stored. Whichever CPU executes it, and wherever there is room for what it stores,
    /// it is the event of that instruction, once that is stored there. None is refused.
    pub fn perform_other_by_value(&mut self, instruction: OtherByValue, log: &mut Log) -> PlainReply
        requires room { 1 ≤ log.old.room }
        requires fresh { log.old.reply ≡ reply_spec.Done }
        ensures performs { (storage : Contents) (cpu address : ℕ) → given_spec.HasRoom instruction storage cpu address →
            spec.Performs (lent self.old storage) (event_spec.ExecuteOther cpu (given_spec.other_at instruction address))
            (Ok (reply_of result)) (lent self.new (given_spec.with_reply storage cpu address (reply_of result))) }
        ensures told { log.new.reply ≡ reply_of result }
        ensures kept { IsKept log.old log.new }
    {
        let served = Served::of(self.subs.as_slice(), &self.engines);
        let engaged = engaged_by_value(&served, instruction);
        let reply = perform_other_by_value(
            &mut self.pending,
            &mut self.reports,
            &engaged,
            instruction,
        );
        log.tell_kept(reply.keep(), &[]);
        reply
    }
}
