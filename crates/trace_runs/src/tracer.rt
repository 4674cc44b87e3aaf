//! A machine whose steps are told: for each action what it came to, and the facts of what it did.

ghost use Rattle.std.specs.Prelude.{◌≡◌, ◌≢◌, ◌≤◌, ◌++◌, ◌∷◌, ◌⊎◌, ℕ, List, [], Ok, Err, IfErr, IfOk, IfSome, IsTrue, ◌↔◌, OnOk, OnErr, drop, length, true};
ghost use Rattle.machine_model.specs.State.{opening_of};
ghost use Rattle.subsystem.specs.Keeping.{all_serials};
ghost use Rattle.glance_directory.specs.Directory.{directory_of};
ghost use Rattle.script_rows.specs.Slots.{action_in, action_length};
ghost use Rattle.script_runner.specs.Acting.{IsAudited, IsOpening};
ghost use Rattle.chan_model.specs.declared.fault.Fault.TheVariants as refusal_spec;
ghost use Rattle.std.specs.Bool.{OnFalse};
ghost use Rattle.machine_sight.specs.Balance.{IsBalanced, IsStuck};
ghost use Rattle.machine_sight.specs.Shown.{Shows, TellsWaiting};
ghost use Rattle.trace_runs.specs.Faults.{IsFaultAt, fault_told};
ghost use Rattle.trace_runs.specs.Tracing as spec;
ghost use Rattle.trace_runs.specs.Tracing.{AreOf, DoesNotTell, HasReason, HasStepped, HasTold, IsLast, IsLastEvent, IsLastOf, IsSeen};
ghost use Rattle.trace_runs.specs.declared.tracer.Stepped.TheVariants as stepped_spec;

use crate::TraceFault;
use crate::adding::{add_beginning, add_fact, add_looked, add_refusal, add_reply};
use chan_events::event::Event;
use chan_events::reply::Entry;
use chan_model::fault::Fault;
use channel_config::config::Config;
use channel_config::parts::PathReturn;
use core_lock::naming::MachineBrand;
use core_lock::parts::Parts;
use core_lock::supplies::CoreSupply;
use machine::looks::Looks;
use machine_sight::looking::SightFault;
use machine_sight::sight::Sight;
use machine_sight::waiting::Waiting;
use memory::Supply;
use path_select::Rotating;
use refusal_reasons::refusal_of;
use script_rows::slots::KeptAction;
use script_runner::buffers::EventBuffers;
use script_runner::scripted_machine::{Acted, ScriptedMachine};
use std::alloc::{AllocError, Global};
use std::marker::Model;
use std::mem;
use step_facts::facts::add_facts;
use step_facts::requests::Requests;
use step_facts::step::{LentEvent, Step, StepFacts, named_by};
use step_records::parties::Parties as Participants;
use step_records::record::{Fact, Record};
use subsystem::subsystem::Subsystem;

/// What became of an action.
#[derive(Clone, Copy)]
pub enum Stepped {
    /// An event was accepted.
    Accepted,
    /// A look changed nothing.
    Looked,
    /// It was refused, and all is as before.
    Refused(Fault),
}

/// A machine, what a look showed of it after the last step, and what waits on its wires as the facts of all steps tell it.
#[derive(Drop)]
pub struct Tracer<J: MachineBrand> {
    alloc: Global,
    machine: ScriptedMachine<J>,
    buffers: EventBuffers,
    parties: Participants,
    path_return: PathReturn,
    requests: Requests,
    sight: Sight,
    waiting: Waiting,
    /// Room for the look after a step.
    next: Sight,
}

impl<J: MachineBrand> Model for Tracer<J> {
    ghost use Rattle.trace_runs.specs.Tracing.{Traced};

    ghost Value = { Traced };

    ghost view = { λ t. record { machine = t.machine; parties = t.parties; sight = t.sight; waiting = t.waiting } };
}

/// The last entry of a history; None where there is none.
fn last_entry(subsystem: &Subsystem<Rotating>) -> Option<Entry>
    ensures { IfSome result (λ entry. IsLast subsystem.now.history entry) }
{
    let history = subsystem.history();
    match history.len() {
        0 => None,
        count => history.get(count - 1),
    }
}

/// A fault of a look, at this line.
fn fault_of(fault: SightFault, line: u64) -> TraceFault
    ensures { result ≡ fault_told fault line }
{
    match fault {
        SightFault::NoMemory => TraceFault::NoMemory,
        SightFault::NotThere => TraceFault::Unbalanced(line),
    }
}

/// The subchannel that the instruction of an action names; None where it names none that is there.
fn instructed(parties: &Participants, action: &KeptAction) -> Option<usize>
    ensures { (bytes : List ℕ) → result ≡ spec.instructed parties.now (action_in action.now bytes) }
{
    match action {
        KeptAction::Event(Event::Execute { instruction, .. }) => {
            parties.subchannel_named(instruction.subchannel_word())
        }
        _ => None,
    }
}

/// Follows the facts of a step on the wires, which stand in a list from this index on, and answers whether that could be and what
/// waits then is what waits at the machine.
#[inline(never)]
fn follow<S: Supply, L: Looks>(
    supply: &mut S,
    waiting: &mut Waiting,
    records: &[Record],
    first: usize,
    looks: &L,
    parties: &Participants,
) -> Result<bool, AllocError>
    requires { first ≤ length records.now }
    ensures balanced { IfOk result (λ followed. IsTrue followed → IsBalanced waiting.old (drop first records.now) waiting.new) }
    ensures told { IfOk result (λ followed. IsTrue followed → TellsWaiting (L.state looks.now) parties.now.subchannels.items waiting.new) }
    ensures stuck { IfOk result (λ followed. OnFalse followed (IsStuck waiting.old (drop first records.now) waiting.new
        ⊎ DoesNotTell (L.state looks.now) parties.now.subchannels.items waiting.new)) }
    ensures unrefused { OnOk result (S.refused supply.new ≡ S.refused supply.old) }
    ensures memory { OnErr result (S.refused supply.new ≡ true) }
{
    if !waiting.follow(supply, &records[first..])? {
        return Ok(false);
    }
    Ok(waiting.tells(looks, parties))
}

/// What is seen of a machine at which nothing waits.
#[derive(Drop)]
struct FirstSeen {
    sight: Sight,
    waiting: Waiting,
}

/// What is seen of a machine at its opening, where nothing waits on its wires.
#[tactic(auto, using(crate::proofs::Faulting::want_at, crate::proofs::Faulting::sight_at))]
fn first_seen<S: Supply, L: Looks>(
    alloc: Global,
    supply: &mut S,
    looks: &L,
    parties: &Participants,
) -> Result<FirstSeen, TraceFault>
    ensures shown { IfOk result (λ seen. Shows (L.state looks.now) parties.now seen.sight) }
    ensures told { IfOk result (λ seen. TellsWaiting (L.state looks.now) parties.now.subchannels.items seen.waiting) }
    ensures unrefused { OnOk result (S.refused supply.new ≡ S.refused supply.old) }
    ensures fault { IfErr result (λ fault. IsFaultAt 0 (S.refused supply.new) fault) }
{
    let mut sight = Sight::none(alloc);
    if let Err(fault) = sight.look(supply, looks, parties) {
        return Err(fault_of(fault, 0));
    }
    let waiting = Waiting::none(alloc, supply, parties.subchannels.len())?;
    if waiting.tells(looks, parties) {
        Ok(FirstSeen { sight, waiting })
    } else {
        Err(TraceFault::Unbalanced(0))
    }
}

impl<J: MachineBrand> Tracer<J> {
    /// A machine at the opening of a configuration.
    #[tactic(auto, using(crate::proofs::Faulting::want_at, crate::proofs::Faulting::sight_at))]
    pub fn new<S: CoreSupply>(
        alloc: Global,
        supply: &mut S,
        config: Config,
        parts: Parts,
    ) -> Result<Tracer<J>, TraceFault>
        requires named { parts.name ≡ J.name }
        requires set_up { J.setup ≡ config }
        requires directory { parts.name.directory ≡ directory_of (opening_of config) }
        requires serials { parts.serials ≡ all_serials (opening_of config) }
        ensures opening { IfOk result (λ tracer. IsOpening config tracer.machine) }
        ensures parties { IfOk result (λ tracer. AreOf config tracer.parties) }
        ensures seen { IfOk result (λ tracer. IsSeen tracer) }
        ensures unrefused { OnOk result (S.refused supply.new ≡ S.refused supply.old) }
        ensures fault { IfErr result (λ fault. IsFaultAt 0 (S.refused supply.new) fault) }
    {
        let parties = Participants::of(alloc, supply, &config)?;
        let path_return = config.path_return();
        let requests = Requests::none(alloc, supply, parties.subchannels.len())?;
        let (machine, _) = ScriptedMachine::<J>::new(alloc, supply, config, parts, 0)?;
        match first_seen(alloc, supply, machine.subsystem(), &parties) {
            Ok(seen) => Ok(Tracer {
                alloc,
                machine,
                buffers: EventBuffers::new(),
                parties,
                path_return,
                requests,
                sight: seen.sight,
                waiting: seen.waiting,
                next: Sight::none(alloc),
            }),
            Err(fault) => Err(fault),
        }
    }

    /// The machine, to look at.
    pub fn subsystem(&self) -> &Subsystem<Rotating>
        ensures state { result.now.state ≡ self.now.machine.past.state }
        ensures history { result.now.history ≡ self.now.machine.past.history }
    {
        self.machine.subsystem()
    }

    /// Who there is.
    pub fn parties(&self) -> &Participants
        ensures { result.now ≡ self.now.parties }
    {
        &self.parties
    }

    /// What a look shows now.
    pub fn sight(&self) -> &Sight
        ensures { result.now ≡ self.now.sight }
    {
        &self.sight
    }

    /// What waits on the wires now.
    pub fn waiting(&self) -> &Waiting
        ensures { result.now ≡ self.now.waiting }
    {
        &self.waiting
    }

    /// Who there is, and whether the audit found the books that the history has.
    pub fn finish(self) -> (Participants, bool)
        ensures parties { result.0 ≡ self.parties }
        ensures audited { IsTrue result.1 ↔ IsAudited self.machine }
    {
        let Tracer {
            alloc: _,
            machine,
            buffers: _,
            parties,
            path_return: _,
            requests: _,
            sight: _,
            waiting: _,
            next: _,
        } = self;
        (parties, machine.audited())
    }

    /// Performs the action of a line, and adds what it came to and the facts of what it did. Of an action that is refused there is
    /// only what it came to, and why. There is no memory only where the supply refused a growth; then the records may lack facts.
    #[tactic(auto, using(crate::proofs::Faulting::want_at))]
    pub fn step<S: Supply>(
        &mut self,
        supply: &mut S,
        line: u64,
        action: &KeptAction,
        bytes: &[u8],
        records: &mut Vec<Record>,
    ) -> Result<Stepped, TraceFault>
        requires { action_length action.now ≤ length bytes.now }
        ensures stepped { OnOk result (IsSeen self.old → HasStepped self.old line (action_in action.now bytes.now) records.old.items records.new.items self.new) }
        ensures unrefused { IfOk result (λ stepped. stepped ≢ stepped_spec.Refused refusal_spec.NoMemory → S.refused supply.new ≡ S.refused supply.old) }
        ensures fault { IfErr result (λ fault. IsFaultAt line (S.refused supply.new) fault) }
    {
        let named = instructed(&self.parties, action);
        add_beginning(supply, line, &self.sight, named, records)?;
        match self.machine.act(supply, action, bytes, &mut self.buffers) {
            Ok(Acted::Replied) => {
                self.tell_action(supply, line, action, bytes, records)?;
                Ok(Stepped::Accepted)
            }
            Ok(Acted::Looked(found)) => {
                add_looked(supply, line, found, records)?;
                Ok(Stepped::Looked)
            }
            Err(fault) => {
                add_refusal(supply, line, fault, records)?;
                self.add_reason(supply, line, action, fault, records)?;
                Ok(Stepped::Refused(fault))
            }
        }
    }

    /// Why an action was refused, at a machine that is still as it was then.
    #[inline(never)]
    fn add_reason<S: Supply>(
        &self,
        supply: &mut S,
        line: u64,
        action: &KeptAction,
        fault: Fault,
        records: &mut Vec<Record>,
    ) -> Result<(), AllocError>
        ensures added { OnOk result ((bytes : List ℕ) → HasReason self.now.parties self.now.machine line (action_in action.now bytes) fault records.old.items records.new.items) }
        ensures unrefused { OnOk result (S.refused supply.new ≡ S.refused supply.old) }
        ensures memory { OnErr result (S.refused supply.new ≡ true) }
    {
        let machine = self.machine.subsystem();
        let refusal = refusal_of(machine, machine.storage(), &self.parties, action, fault);
        add_fact(supply, line, Fact::Refused(refusal), records)
    }

    /// Adds what the event of an action that was accepted last came to, and its facts.
    fn tell_action<S: Supply>(
        &mut self,
        supply: &mut S,
        line: u64,
        action: &KeptAction,
        bytes: &[u8],
        records: &mut Vec<Record>,
    ) -> Result<(), TraceFault>
        requires bytes { action_length action.now ≤ length bytes.now }
        requires last { IsLastOf (action_in action.now bytes.now) self.old.machine.past.history }
        ensures told { OnOk result (HasTold self.old line records.old.items records.new.items self.new) }
        ensures unrefused { OnOk result (S.refused supply.new ≡ S.refused supply.old) }
        ensures fault { IfErr result (λ fault. IsFaultAt line (S.refused supply.new) fault) }
    {
        match action {
            KeptAction::Event(event) => {
                self.tell(supply, line, &LentEvent::of(event, bytes), records)
            }
            _ => self.tell_last(supply, line, records),
        }
    }

    /// The same of the event that was accepted last.
    #[inline(never)]
    fn tell_last<S: Supply>(
        &mut self,
        supply: &mut S,
        line: u64,
        records: &mut Vec<Record>,
    ) -> Result<(), TraceFault>
        ensures told { OnOk result (HasTold self.old line records.old.items records.new.items self.new) }
        ensures unrefused { OnOk result (S.refused supply.new ≡ S.refused supply.old) }
        ensures fault { IfErr result (λ fault. IsFaultAt line (S.refused supply.new) fault) }
    {
        match &last_entry(self.machine.subsystem()) {
            Some(entry) => {
                let kept = entry.event.keep();
                let event = LentEvent::of(&kept, entry.event.bytes());
                self.tell(supply, line, &event, records)
            }
            None => Err(TraceFault::Unbalanced(line)),
        }
    }

    /// Adds the reply of the event that was accepted last and the facts of the event, which account for all that moved.
    #[inline(never)]
    #[tactic(auto, using(crate::proofs::Faulting::want_at, crate::proofs::Faulting::sight_at))]
    fn tell<S: Supply>(
        &mut self,
        supply: &mut S,
        line: u64,
        event: &LentEvent<'_>,
        records: &mut Vec<Record>,
    ) -> Result<(), TraceFault>
        requires last { IsLastEvent self.old.machine.past.history event.now }
        ensures told { OnOk result (HasTold self.old line records.old.items records.new.items self.new) }
        ensures unrefused { OnOk result (S.refused supply.new ≡ S.refused supply.old) }
        ensures fault { IfErr result (λ fault. IsFaultAt line (S.refused supply.new) fault) }
    {
        if let Err(fault) = self
            .next
            .look(supply, self.machine.subsystem(), &self.parties)
        {
            return Err(fault_of(fault, line));
        }
        let Some(reply) = self.machine.last_reply() else {
            return Err(TraceFault::Unbalanced(line));
        };
        add_reply(supply, line, &reply, records)?;
        let first = records.len();
        let mut facts = StepFacts::behind(line, mem::replace(records, Vec::new(self.alloc)));
        let step = Step {
            parties: &self.parties,
            path_return: self.path_return,
            subchannel: named_by(&self.parties, event),
            before: &self.sight,
            waiting: &self.waiting,
            event,
            reply: &reply,
            after: &self.next,
        };
        let looks = self.machine.subsystem();
        let added = add_facts(supply, &step, looks, &mut self.requests, &mut facts);
        *records = facts.into_records();
        if let Err(fault) = added {
            return Err(fault_of(fault, line));
        }
        let told = records.as_slice();
        let followed = follow(supply, &mut self.waiting, told, first, looks, &self.parties)?;
        if !followed || self.requests.subclasses() != self.next.requested {
            return Err(TraceFault::Unbalanced(line));
        }
        mem::swap(&mut self.sight, &mut self.next);
        Ok(())
    }
}
