//! One step of a machine, and the list of its facts.

ghost use Rattle.std.specs.Prelude.{◌≡◌, ◌≤◌, ◌∷◌, [], OnOk, OnErr, length, true};
ghost use Rattle.chan_events.specs.Events.{event_in, event_length};
ghost use Rattle.chan_events.specs.Replies.{reply_in, reply_length};
ghost use Rattle.chan_model.specs.declared.hold_state.HoldState.{HoldState};
ghost use Rattle.step_records.specs.Named as named;
ghost use Rattle.step_facts.specs.Told as spec;
ghost use Rattle.step_facts.specs.Told.{AreToldBy};
ghost use Rattle.step_records.specs.declared.record.Fact.TheVariants as fact_spec;

use chan_events::event::{Event, KeptEvent};
use chan_events::reply::KeptReply;
use chan_model::hold_state::HoldState;
use channel_config::parts::PathReturn;
use event_log::history::LentReply;
use machine_sight::sight::Sight;
use machine_sight::waiting::Waiting;
use memory::{Supply, ensure_room};
use std::alloc::AllocError;
use std::marker::Model;
use step_records::parties::Parties;
use step_records::record::{Fact, Moved, Record, Signal, Wire};

/// An event as it is kept, its bytes lent.
#[derive(Drop)]
pub struct LentEvent<'a> {
    kept: &'a KeptEvent,
    bytes: &'a [u8],
}

impl<'a> Model for LentEvent<'a> {
    ghost use Rattle.std.specs.Prelude.{◌≤◌, length};
    ghost use Rattle.chan_events.specs.Events.{Event, event_in, event_length};

    ghost Value = { Event };

    ghost view = { λ e. event_in e.kept.now e.bytes.now };

    ghost invariant = { λ e. event_length e.kept.now ≤ length e.bytes.now };
}

/// An event that was accepted, and what a look showed before it and after it.
#[derive(Drop)]
pub struct Step<'a> {
    pub parties: &'a Parties,
    /// How a channel path that is back is reported.
    pub path_return: PathReturn,
    /// The index of the subchannel that the event names; None where it names none.
    pub subchannel: Option<usize>,
    pub before: &'a Sight,
    /// What waited on the wires before it.
    pub waiting: &'a Waiting,
    pub event: &'a LentEvent<'a>,
    pub reply: &'a LentReply<'a>,
    pub after: &'a Sight,
}

/// The facts of one step, in order, under the number of its line, behind the records that stood there before.
#[derive(Drop)]
pub struct StepFacts {
    line: u64,
    first: usize,
    records: Vec<Record>,
}

impl Model for StepFacts {
    ghost use Rattle.std.specs.Prelude.{◌≤◌, drop, length};
    ghost use Rattle.step_facts.specs.Told.{AreOfLine, Told, told_of};

    ghost Value = { Told };

    ghost view = { λ f. told_of f.line f.first f.records.items };

    ghost invariant = { λ f. (f.first ≤ length f.records.items) × AreOfLine f.line (drop f.first f.records.items) };
}

/// The index of the subchannel that an event names; None where it names none.
pub fn named_by(parties: &Parties, event: &LentEvent<'_>) -> Option<usize>
    ensures { result ≡ named.named_by parties.now event.now }
{
    let word = match event.kept {
        Event::Execute { instruction, .. } => instruction.subchannel_word(),
        Event::Choose { subchannel }
        | Event::Up { subchannel, .. }
        | Event::Down { subchannel, .. } => *subchannel,
        _ => return None,
    };
    parties.subchannel_named(word)
}

impl<'a> LentEvent<'a> {
    /// The event with the first of these bytes.
    pub fn of(kept: &'a KeptEvent, bytes: &'a [u8]) -> Self
        requires { event_length kept.now ≤ length bytes.now }
        ensures { result ≡ event_in kept.now bytes.now }
    {
        LentEvent { kept, bytes }
    }

    /// What is kept of it, and its bytes, of which there may be more than it has.
    pub fn parts(&self) -> (&'a KeptEvent, &'a [u8])
        ensures event { event_in result.0.now result.1.now ≡ self.now }
        ensures whole { event_length result.0.now ≤ length result.1.now }
    {
        (self.kept, self.bytes)
    }
}

impl Step<'_> {
    /// The event: what is kept of it, and its bytes.
    pub fn event(&self) -> (&KeptEvent, &[u8])
        ensures event { event_in result.0.now result.1.now ≡ self.now.event.now }
        ensures whole { event_length result.0.now ≤ length result.1.now }
    {
        self.event.parts()
    }

    /// Its reply: what is kept of it, and its bytes.
    pub fn reply(&self) -> (&KeptReply, &[u8])
        ensures reply { reply_in result.0.now result.1.now ≡ self.now.reply.now }
        ensures whole { reply_length result.0.now ≤ length result.1.now }
    {
        self.reply.parts()
    }
}

impl StepFacts {
    /// No facts yet, behind these records.
    pub fn behind(line: u64, records: Vec<Record>) -> StepFacts
        ensures { result ≡ spec.nothing_told line records.items }
    {
        StepFacts {
            line,
            first: records.len(),
            records,
        }
    }

    /// The records that stood there before, and the facts behind them.
    pub fn into_records(self) -> Vec<Record>
        ensures { AreToldBy self result.items }
    {
        let StepFacts {
            line: _,
            first: _,
            records,
        } = self;
        records
    }

    /// One fact more.
    #[tactic(auto, using(crate::proofs::Telling::told_push))]
    fn add<S: Supply>(&mut self, supply: &mut S, fact: Fact) -> Result<(), AllocError>
        ensures added { OnOk result (self.new ≡ spec.told_with self.old fact) }
        ensures kept { OnErr result (self.new ≡ self.old) }
        ensures unrefused { OnOk result (S.refused supply.new ≡ S.refused supply.old) }
        ensures memory { OnErr result (S.refused supply.new ≡ true) }
    {
        ensure_room(supply, &mut self.records, 1)?;
        self.records.push_reserved(Record {
            line: self.line,
            fact,
        });
        Ok(())
    }

    /// A fact that is none of a signal that moved, of a hold that changed, or of what the line came to.
    #[tactic(auto, using(crate::proofs::Telling::told_quiet))]
    pub fn push<S: Supply>(&mut self, supply: &mut S, fact: Fact) -> Result<(), AllocError>
        requires { spec.is_other fact ≡ true }
        ensures told { self.new ≡ self.old }
        ensures unrefused { OnOk result (S.refused supply.new ≡ S.refused supply.old) }
        ensures memory { OnErr result (S.refused supply.new ≡ true) }
    {
        self.add(supply, fact)
    }

    /// A signal that moved.
    #[tactic(auto, using(crate::proofs::Telling::told_move))]
    pub fn push_signal<S: Supply>(
        &mut self,
        supply: &mut S,
        wire: Wire,
        moved: Moved,
        signal: Signal,
    ) -> Result<(), AllocError>
        ensures told { OnOk result (self.new ≡ spec.with_moves self.old (fact_spec.Signal wire moved signal ∷ [])) }
        ensures kept { OnErr result (self.new ≡ self.old) }
        ensures unrefused { OnOk result (S.refused supply.new ≡ S.refused supply.old) }
        ensures memory { OnErr result (S.refused supply.new ≡ true) }
    {
        self.add(
            supply,
            Fact::Signal {
                wire,
                moved,
                signal,
            },
        )
    }

    /// A hold that changed.
    #[tactic(auto, using(crate::proofs::Telling::told_hold))]
    pub fn push_hold<S: Supply>(
        &mut self,
        supply: &mut S,
        subchannel: usize,
        before: HoldState,
        after: HoldState,
    ) -> Result<(), AllocError>
        ensures told { OnOk result (self.new ≡ spec.with_holds self.old (fact_spec.Hold subchannel before after ∷ [])) }
        ensures kept { OnErr result (self.new ≡ self.old) }
        ensures unrefused { OnOk result (S.refused supply.new ≡ S.refused supply.old) }
        ensures memory { OnErr result (S.refused supply.new ≡ true) }
    {
        self.add(
            supply,
            Fact::Hold {
                subchannel,
                before,
                after,
            },
        )
    }
}
