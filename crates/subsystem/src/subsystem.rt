//! The channel subsystem: its machine, and the history that led there.

mod looks;

ghost use Rattle.std.specs.Prelude.{◌≡◌, ◌≢◌, ◌⊎◌, ◌+◌, ◌^◌, ◌<◌, ◌≤◌, All, Err, List, ◌++◌, ◌∷◌, [], IfOk, IfErr, IfNone, IfSome, OnErr, OnOk, length, slice_get, true, vec_len, vec_capacity};
ghost use Rattle.chan_events.specs.declared.reply.Entry.{Entry};
ghost use Rattle.chan_model.specs.declared.fault.Fault.TheVariants as fault_spec;
ghost use Rattle.machine_model.specs.State as state_spec;
ghost use Rattle.machine_model.specs.Setups.{IsSetUp};
ghost use Rattle.machine_model.specs.Steps.{HasRun};
ghost use Rattle.machine_model.specs.Answering.{HasAnswered, HasBegun};
ghost use Rattle.std.specs.Bool.{OnTrue, OnFalse};
ghost use Rattle.lookup.specs.Tables.{Fits};
ghost use Rattle.machine_model.specs.UnitTurns.{lent_turns};
ghost use Rattle.signal_step.specs.PathTurns as path_spec;
ghost use Rattle.run_laws.specs.Agreeing.{AllAgree};
ghost use Rattle.subsystem.specs.Headline.{HasHeld};
ghost use Rattle.subsystem.specs.Keeping.{IsOrdered, IsStep, StaysSetUp, all_serials, answer_of};
ghost use Rattle.run_laws.specs.StateClaims.{IsClearedOnce};
ghost use Rattle.run_laws.specs.Beginnings.{IsBegunOnce};
ghost use Rattle.chan_events.specs.declared.reply.Reply.TheVariants as reply_spec;
ghost use Rattle.event_log.specs.Logs.{last_reply};

use crate::histories::every_history;
use crate::stepping::keep_step;
use chan_events::event::Event;
use chan_events::reply::Reply;
use chan_model::fault::Fault;
use chan_model::report::LentWork;
use channel_config::config::Config;
use event_log::history::{History, LentReply};
use event_log::logs::Log;
use lookup::tables::SubchannelIndex;
use machine::owning::MachineAndStorage;
use machine_model::state::UnitTurn;
use memory::{Allocator, Supply, make_room};
use path_select::PathChoice;
use run_laws::states::numbers;
use scsw_irb::serials::Serials;
use std::alloc::Global;
use std::marker::Model;

/// A channel subsystem with its subchannels, units and storage (SA22-7832, chapters 13 to 17).
#[derive(Drop)]
pub struct Subsystem<P: Drop> {
    choice: P,
    indices: SubchannelIndex,
    machine: MachineAndStorage,
    history: Log,
}

impl<P: Drop> Model for Subsystem<P> {
    ghost use Rattle.std.specs.Prelude.{◌≡◌};
    ghost use Rattle.chan_events.specs.declared.reply.Reply.TheVariants as reply_spec;
    ghost use Rattle.machine_model.specs.State.{Past};
    ghost use Rattle.machine_model.specs.Steps.{HasRun};
    ghost use Rattle.lookup.specs.Tables.{Fits};

    ghost Value = { Past };

    ghost view = { λ s. record {
      state = s.machine;
      history = s.history.entries;
      room = s.history.room;
    } };

    ghost invariant = { λ s. HasRun s.history.entries s.machine × (Fits s.indices s.machine.subs × (s.history.reply ≡ reply_spec.Done)) };
}

/// There was no memory for a subsystem: what it was to be made of.
#[derive(Drop)]
pub struct NotMade<P: Drop> {
    pub config: Config,
    pub choice: P,
}

impl<P: PathChoice + Drop> Subsystem<P> {
    /// The subsystem that is set up so. Where no memory is left, what was given is handed back.
    pub fn new(alloc: Global, config: Config, choice: P) -> Result<Self, NotMade<P>>
        ensures made { IfOk result (λ s. s ≡ record { state = state_spec.opening_of config; history = []; room = 0 }) }
        ensures set_up { IfOk result (λ s. IsSetUp config s.state) }
        ensures config { IfErr result (λ n. n.config ≡ config) }
        ensures choice { IfErr result (λ n. n.choice ≡ choice) }
    {
        Subsystem::new_with(alloc, &mut Allocator { refused: false }, config, choice)
    }

    /// The subsystem that is set up so, in what room a supply has. Where the supply refuses a growth, and only there,
    /// it is not made, and what was given is handed back.
    pub fn new_with<S: Supply>(
        alloc: Global,
        supply: &mut S,
        config: Config,
        choice: P,
    ) -> Result<Self, NotMade<P>>
        ensures made { IfOk result (λ s. s ≡ record { state = state_spec.opening_of config; history = []; room = 0 }) }
        ensures set_up { IfOk result (λ s. IsSetUp config s.state) }
        ensures config { IfErr result (λ n. n.config ≡ config) }
        ensures choice { IfErr result (λ n. n.choice ≡ choice) }
        ensures unrefused { OnOk result (S.refused supply.new ≡ S.refused supply.old) }
        ensures memory { OnErr result (S.refused supply.new ≡ true) }
    {
        match MachineAndStorage::opened(alloc, supply, &config) {
            Ok((indices, machine)) => Ok(Subsystem {
                choice,
                indices,
                machine,
                history: Log::new(alloc),
            }),
            Err(_) => Err(NotMade { config, choice }),
        }
    }

    /// One event. It is refused `NoMemory` only where the history has no room and can't grow, or the numbers are used
    /// up; a refusal changes nothing.
    #[inline]
    pub fn step(&mut self, event: &Event) -> Result<Reply, Fault>
        ensures { IsStep P.picks self.old event.now result self.new }
    {
        self.step_with(&mut Allocator { refused: false }, event)
    }

    /// One event, as `step` has it, with room for its entry from a supply. It is refused `NoMemory` only where the history has
    /// no room and the supply refuses it, or the numbers are used up.
    #[inline]
    pub fn step_with<S: Supply>(&mut self, supply: &mut S, event: &Event) -> Result<Reply, Fault>
        ensures answered { IsStep P.picks self.old event.now result self.new }
        ensures unrefused { result ≢ Err fault_spec.NoMemory → S.refused supply.new ≡ S.refused supply.old }
        ensures memory { result ≡ Err fault_spec.NoMemory →
            (S.refused supply.new ≡ true) ⊎ (2 ^ 62 ≤ length self.old.history + 1) }
    {
        self.perform_with(supply, event)?;
        match self.last_reply() {
            Some(reply) => Ok(reply.own()),
            None => Ok(Reply::Done),
        }
    }

    /// One event, as `step` has it; its reply is that of the entry which it added, and `last_reply` lends it. Nothing is copied
    /// for those who do not look.
    #[inline]
    pub fn perform(&mut self, event: &Event) -> Result<(), Fault>
        ensures { IsStep P.picks self.old event.now (answer_of result self.new.history) self.new }
    {
        self.perform_with(&mut Allocator { refused: false }, event)
    }

    /// One event, as `perform` has it, with room for its entry from a supply, as `step_with` says.
    #[inline]
    pub fn perform_with<S: Supply>(&mut self, supply: &mut S, event: &Event) -> Result<(), Fault>
        ensures answered { IsStep P.picks self.old event.now (answer_of result self.new.history) self.new }
        ensures unrefused { result ≢ Err fault_spec.NoMemory → S.refused supply.new ≡ S.refused supply.old }
        ensures memory { result ≡ Err fault_spec.NoMemory →
            (S.refused supply.new ≡ true) ⊎ (2 ^ 62 ≤ length self.old.history + 1) }
    {
        keep_step(
            &mut self.machine,
            &mut self.history,
            supply,
            &self.indices,
            &self.choice,
            event,
        )
    }

    /// The reply to the event that was accepted last; None where none was.
    #[inline]
    pub fn last_reply(&self) -> Option<LentReply<'_>>
        ensures reply { IfSome result (λ reply. reply ≡ last_reply self.now.history) }
        ensures none { IfNone result (self.now.history ≡ []) }
    {
        self.history.history().last_reply()
    }

    /// Adds what was accepted last, where there is any, to a log that has room for it and in which no entry is being written.
    pub fn add_last(&self, log: &mut Log)
        requires room { 1 ≤ log.old.room }
        requires fresh { log.old.reply ≡ reply_spec.Done }
        ensures fresh { log.new.reply ≡ reply_spec.Done }
        ensures entries { (h : List Entry) (e : Entry) → self.now.history ≡ h ++ e ∷ [] → log.new.entries ≡ log.old.entries ++ e ∷ [] }
        ensures none { self.now.history ≡ [] → log.new.entries ≡ log.old.entries }
        ensures room { log.old.room ≤ log.new.room + 1 }
    {
        self.history.history().add_last(log);
    }

    /// The events in order, each with its reply or its refusal. Room for the answers is made first; the refusal
    /// `NoMemory` alone ends a run, and what was accepted before it stays.
    pub fn run(
        &mut self,
        alloc: Global,
        events: &[Event],
    ) -> Result<Vec<Result<Reply, Fault>>, Fault>
        ensures answered { IfOk result (λ answers. HasAnswered P.picks self.old events.now answers.items self.new) }
        ensures ended { IfErr result (λ f. f ≡ fault_spec.NoMemory) }
        // Where it ended before the first event, a growth may have been refused.
        ensures begun { OnErr result (HasBegun P.picks true self.old events.now self.new) }
        ensures room { self.old.room ≤ self.new.room + length events.now }
        ensures set_up { StaysSetUp self.old.state self.new.state }
        // From the opening that it was set up by, what was accepted leads to the state.
        ensures replays { HasRun self.new.history self.new.state }
        // Of two TEST SUBCHANNEL of one subchannel that answered 0, the later carries a strictly greater count of
        // statuses made.
        ensures cleared_once { IsClearedOnce self.new.state.sets self.new.history }
        // Each start begins at most one program at its device.
        ensures begun_once { IsBegunOnce self.new.state.sets self.new.history }
        // Each subchannel and its unit agree on the program that holds the device, or a reset is due; by one path.
        ensures agree { AllAgree self.new.state }
        // At the opening, in each step and after each step: one path, agreement, causes of resets, condition codes, and what is told
        // of programs.
        ensures headline { HasHeld self.new.history self.new.state }
    {
        self.run_with(alloc, &mut Allocator { refused: false }, events)
    }

    /// The events in order, as `run` has them, with room for the answers and for each entry from a supply. It ends before its
    /// first event only where the supply refused that room, and then nothing is changed; later only where the supply refused
    /// room for an entry, or the numbers are used up.
    pub fn run_with<S: Supply>(
        &mut self,
        alloc: Global,
        supply: &mut S,
        events: &[Event],
    ) -> Result<Vec<Result<Reply, Fault>>, Fault>
        ensures answered { IfOk result (λ answers. HasAnswered P.picks self.old events.now answers.items self.new) }
        ensures ended { IfErr result (λ f. f ≡ fault_spec.NoMemory) }
        ensures begun { OnErr result (HasBegun P.picks (S.refused supply.new) self.old events.now self.new) }
        ensures room { self.old.room ≤ self.new.room + length events.now }
        ensures set_up { StaysSetUp self.old.state self.new.state }
        ensures unrefused { OnOk result (S.refused supply.new ≡ S.refused supply.old) }
        ensures memory { OnErr result ((S.refused supply.new ≡ true) ⊎ (2 ^ 62 ≤ length self.new.history + 1)) }
        // What `run` says of the history and the state.
        ensures replays { HasRun self.new.history self.new.state }
        ensures cleared_once { IsClearedOnce self.new.state.sets self.new.history }
        ensures begun_once { IsBegunOnce self.new.state.sets self.new.history }
        ensures agree { AllAgree self.new.state }
        ensures headline { HasHeld self.new.history self.new.state }
    {
        let mut answers = Vec::new(alloc);
        if make_room(supply, &mut answers, events.len()).is_err() {
            self.recalls();
            return Err(Fault::NoMemory);
        }
        self.recalls();
        for event in events {
            let answer = self.step_with(supply, event);
            self.recalls();
            if ends(&answer) {
                return Err(Fault::NoMemory);
            }
            add(&mut answers, answer);
        }
        Ok(answers)
    }

    /// The history replays to the state, each status is cleared once, each start begins one program at most, subchannels and
    /// units agree, and throughout the history the headline holds.
    fn recalls(&self)
        ensures replays { HasRun self.now.history self.now.state }
        ensures cleared_once { IsClearedOnce self.now.state.sets self.now.history }
        ensures begun_once { IsBegunOnce self.now.state.sets self.now.history }
        ensures agree { AllAgree self.now.state }
        ensures headline { HasHeld self.now.history self.now.state }
    {
        every_history();
        let _ = &self.history;
    }

    /// What was accepted, in order.
    pub fn history(&self) -> History<'_>
        ensures history { result ≡ self.now.history }
        ensures replays { HasRun self.now.history self.now.state }
        ensures cleared_once { IsClearedOnce self.now.state.sets self.now.history }
        ensures begun_once { IsBegunOnce self.now.state.sets self.now.history }
        ensures agree { AllAgree self.now.state }
        ensures headline { HasHeld self.now.history self.now.state }
    {
        self.recalls();
        self.history.history()
    }

    /// How many subchannels there are.
    pub fn count(&self) -> usize
        ensures { result ≡ length (all_serials self.now.state) }
    {
        self.machine.beside().count()
    }

    /// The index of the subchannel that a subsystem-identification word names, in the order of the configuration, from 0;
    /// None where it is not configured.
    pub fn index_of(&self, subchannel: u32) -> Option<usize>
        ensures index { result ≡ state_spec.index_of self.now.state subchannel }
        ensures bound { IfSome result (λ index. index < length (all_serials self.now.state)) }
    {
        self.machine.beside().index_of(&self.indices, subchannel)
    }

    /// The serials of the subchannel at an index; None where there is none.
    pub fn serials_at(&self, index: usize) -> Option<Serials>
        ensures serials { result ≡ slice_get (all_serials self.now.state) index }
        ensures ordered { All IsOrdered (all_serials self.now.state) }
    {
        numbers();
        self.machine.beside().serials_at(index)
    }

    /// The serials of the subchannel that a subsystem-identification word names; None where it is not configured.
    pub fn serials(&self, subchannel: u32) -> Option<Serials>
        ensures { result ≡ state_spec.serials_in (state_spec.sub_of self.now.state subchannel) }
    {
        self.machine.beside().serials(&self.indices, subchannel)
    }

    /// The event of a turn of a channel path's worker, for a subchannel: the signal that waits longest on the wire up of the
    /// path of this identifier comes up, or else the subsystem does what it has to do of itself (own). None where there is
    /// nothing to do, and for a subchannel that is not configured or doesn't have the path.
    pub fn path_turn(&self, subchannel: u32, chpid: u8) -> Option<Event>
        ensures { result ≡ path_spec.path_turn_of self.now.state subchannel chpid }
    {
        self.machine
            .beside()
            .path_turn(&self.indices, subchannel, chpid)
    }

    /// What a unit is to do next; None where it is not configured.
    pub fn unit_turn(&self, unit: u32) -> Option<UnitTurn>
        ensures { result ≡ state_spec.unit_turn_of self.now.state «unit» }
    {
        self.machine.beside().unit_turn(&self.indices, unit)
    }

    /// What a unit is to do next, as `unit_turn` has it; the bytes that are to be absorbed are lent.
    pub fn lent_turn(&self, unit: u32) -> Option<UnitTurn<LentWork<'_>>>
        ensures { lent_turns result ≡ state_spec.unit_turn_of self.now.state «unit» }
    {
        self.machine.beside().lent_turn(&self.indices, unit)
    }
}

/// Whether an answer ends a run.
fn ends(answer: &Result<Reply, Fault>) -> bool
    ensures no_memory { OnTrue result (answer.now ≡ Err fault_spec.NoMemory) }
    ensures other { OnFalse result (answer.now ≢ Err fault_spec.NoMemory) }
{
    match answer {
        Err(Fault::NoMemory) => true,
        _ => false,
    }
}

/// Adds an answer, for which there is room.
fn add(answers: &mut Vec<Result<Reply, Fault>>, answer: Result<Reply, Fault>)
    requires { vec_len answers.old < vec_capacity answers.old }
    ensures items { answers.new.items ≡ answers.old.items ++ answer ∷ [] }
    ensures capacity { vec_capacity answers.old ≤ vec_capacity answers.new }
{
    answers.push_reserved(answer);
}
