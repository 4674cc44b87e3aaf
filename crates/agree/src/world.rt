//! A unit and both of its sides, which agree after each event.

ghost use Rattle.std.specs.Prelude.{◌≡◌, ◌≢◌, ◌≤◌, ℕ, List, ◌⊎◌, true, Err, IfOk, OnOk, OnErr, IfErr, Some, None, length, take};
ghost use Rattle.chan_model.specs.declared.fault.Fault.TheVariants as fault_spec;
ghost use Rattle.agree.specs.Bounds.{IsWell};
ghost use Rattle.agree.specs.Lines.{GivesResult};
ghost use Rattle.agree.specs.Promises.{AreSound, EndsByEvent, EachEnds, LeavesApart, EachApart, GoesOnSound};
ghost use Rattle.agree.specs.Replies as reply_spec;
ghost use Rattle.agree.specs.Rooms.{HasEnded, IsWorldAsBefore, IsFullFor, IsWorldSpent, Loses, TakesRoom, no_room};
ghost use Rattle.agree.specs.State as state_spec;
ghost use Rattle.agree.specs.declared.event.WorldEvent.{WorldEvent};
ghost use Rattle.agree.specs.Results as spec;
ghost use Rattle.agree.specs.Results.{max_steps};

use crate::event::WorldEvent;
use crate::parts::Parts;
use crate::reply::WorldReply;
use crate::{both_agree, by_its_path, one_holder};
use agreement_laws::{agreement, resets};
use chan_model::fault::Fault;
use chan_model::hold_state::HoldState;
use chan_model::names::Side;
use chan_model::unit_state::Own;
use memory::{Allocator, Supply};
use std::alloc::Global;
use std::marker::Model;

/// A unit and both of its sides.
#[derive(Drop)]
pub struct World {
    parts: Parts,
}

impl Model for World {
    ghost use Rattle.agree.specs.Rooms.{WorldAndRoom};
    ghost use Rattle.agree.specs.Bounds.{IsWell};

    ghost Value = { WorldAndRoom };

    ghost view = { λ w. w.parts };

    ghost invariant = { λ w. IsWell w.parts.world };
}

impl World {
    /// Nothing has happened, and every path is up.
    pub fn new(alloc: Global) -> Self
        ensures { result ≡ record { world = state_spec.opening_world; room = no_room } }
    {
        agreement();
        World {
            parts: Parts::new(alloc),
        }
    }

    /// The state of the hold of a side.
    pub fn hold(&self, side: Side) -> HoldState
        ensures { result ≡ (state_spec.line_of self.now.world side).link.hold }
    {
        self.parts.line(side).hold()
    }

    /// Whom the device is held by.
    pub fn own(&self) -> Own
        ensures { result ≡ self.now.world.unit.own }
    {
        self.parts.own()
    }

    /// The numbers that the unit accepted of a side, in their order.
    pub fn accepted(&self, side: Side) -> &[u64]
        ensures { result.now ≡ (state_spec.line_of self.now.world side).link.accepted }
    {
        self.parts.line(side).accepted()
    }

    /// How many signals of a side may still arrive at the unit.
    pub fn downs_len(&self, side: Side) -> usize
        ensures { result ≡ length (state_spec.line_of self.now.world side).link.downs }
    {
        self.parts.line(side).downs_len()
    }

    /// How many signals of a side may still arrive at the hold.
    pub fn ups_len(&self, side: Side) -> usize
        ensures { result ≡ length (state_spec.line_of self.now.world side).link.ups }
    {
        self.parts.line(side).ups_len()
    }

    /// One event. It is refused `NoMemory` only where the steps are used up, or a list that it may add to has no room and
    /// can't grow; a refusal changes nothing.
    pub fn step(&mut self, event: &WorldEvent) -> Result<WorldReply, Fault>
        ensures reply { IfOk result (λ r. r ≡ reply_spec.reply_of self.old.world event.now) }
        ensures done { OnOk result (self.new.world ≡ spec.world_after self.old.world event.now) }
        ensures accepted { OnOk result (spec.refusal_of self.old.world event.now ≡ None) }
        ensures room { TakesRoom result self.old.room self.new.room }
        ensures refused { OnErr result (IsWorldAsBefore self.old self.new) }
        ensures refusal { IfErr result (λ f. (f ≡ fault_spec.NoMemory) ⊎ (spec.refusal_of self.old.world event.now ≡ Some f)) }
        // No room after it, so none before it: the refused event takes none.
        ensures exhausted { result ≡ Err fault_spec.NoMemory → IsWorldSpent self.new event.now }
        ensures sound { AreSound self.new.world }
        ensures ends { OnOk result (EndsByEvent self.old.world event.now self.new.world) }
        ensures apart { OnOk result (LeavesApart self.old.world event.now self.new.world) }
    {
        self.step_with(&mut Allocator { refused: false }, event)
    }

    /// One event, with room for what it may send from a supply. It is refused `NoMemory` only where the supply refuses that
    /// room, or the steps are used up; a refusal changes nothing.
    pub fn step_with<S: Supply>(
        &mut self,
        supply: &mut S,
        event: &WorldEvent,
    ) -> Result<WorldReply, Fault>
        ensures reply { IfOk result (λ r. r ≡ reply_spec.reply_of self.old.world event.now) }
        ensures done { OnOk result (self.new.world ≡ spec.world_after self.old.world event.now) }
        ensures accepted { OnOk result (spec.refusal_of self.old.world event.now ≡ None) }
        ensures room { TakesRoom result self.old.room self.new.room }
        ensures refused { OnErr result (IsWorldAsBefore self.old self.new) }
        ensures refusal { IfErr result (λ f. (f ≡ fault_spec.NoMemory) ⊎ (spec.refusal_of self.old.world event.now ≡ Some f)) }
        // No room after it, so none before it: the refused event takes none.
        ensures exhausted { result ≡ Err fault_spec.NoMemory → IsWorldSpent self.new event.now }
        ensures sound { AreSound self.new.world }
        ensures ends { OnOk result (EndsByEvent self.old.world event.now self.new.world) }
        ensures apart { OnOk result (LeavesApart self.old.world event.now self.new.world) }
        ensures unrefused { result ≢ Err fault_spec.NoMemory → S.refused supply.new ≡ S.refused supply.old }
        ensures memory { result ≡ Err fault_spec.NoMemory → (S.refused supply.new ≡ true) ⊎ (max_steps ≤ self.old.world.steps) }
    {
        agreement();
        resets();
        let Ok(()) = self.parts.make_room(supply, event) else {
            return Err(Fault::NoMemory);
        };
        step_parts(&mut self.parts, event)
    }

    /// One event, where it is accepted. Want of memory alone is refused.
    fn pass<S: Supply>(&mut self, supply: &mut S, event: &WorldEvent) -> Result<(), Fault>
        ensures done { OnOk result (self.new.world ≡ spec.world_after self.old.world event.now) }
        ensures room { TakesRoom result self.old.room self.new.room }
        ensures refused { OnErr result (IsWorldAsBefore self.old self.new) }
        ensures refusal { IfErr result (λ f. f ≡ fault_spec.NoMemory) }
        ensures exhausted { OnErr result (IsWorldSpent self.new event.now) }
        ensures unrefused { OnOk result (S.refused supply.new ≡ S.refused supply.old) }
        ensures memory { OnErr result ((S.refused supply.new ≡ true) ⊎ (max_steps ≤ self.new.world.steps)) }
    {
        match self.step_with(supply, event) {
            Err(Fault::NoMemory) => Err(Fault::NoMemory),
            _ => Ok(()),
        }
    }

    /// The events in order, but for those that are refused. Want of memory alone ends a run, and what was done before it
    /// stays.
    pub fn run(&mut self, events: &[WorldEvent]) -> Result<(), Fault>
        ensures ran { OnOk result (self.new.world ≡ spec.worlds_after self.old.world events.now) }
        ensures ended { OnErr result (HasEnded self.old events.now self.new) }
        ensures fault { IfErr result (λ f. f ≡ fault_spec.NoMemory) }
        ensures room { Loses (length events.now) self.old.room self.new.room }
        ensures sound_now { AreSound self.new.world }
        // What holds after the whole list holds after each beginning of it.
        ensures sound { (i : ℕ) → AreSound (spec.worlds_after self.old.world (take i events.now)) }
        ensures ends { EachEnds self.old.world events.now }
        ensures apart { EachApart self.old.world events.now }
        ensures history { GoesOnSound self.old.world events.now }
    {
        self.run_with(&mut Allocator { refused: false }, events)
    }

    /// The events in order, as `run` has them, with room from a supply. A run ends only where the supply refuses room for an
    /// event, or the steps are used up.
    pub fn run_with<S: Supply>(
        &mut self,
        supply: &mut S,
        events: &[WorldEvent],
    ) -> Result<(), Fault>
        ensures ran { OnOk result (self.new.world ≡ spec.worlds_after self.old.world events.now) }
        ensures ended { OnErr result (HasEnded self.old events.now self.new) }
        ensures fault { IfErr result (λ f. f ≡ fault_spec.NoMemory) }
        ensures room { Loses (length events.now) self.old.room self.new.room }
        ensures sound_now { AreSound self.new.world }
        // What holds after the whole list holds after each beginning of it.
        ensures sound { (i : ℕ) → AreSound (spec.worlds_after self.old.world (take i events.now)) }
        ensures ends { EachEnds self.old.world events.now }
        ensures apart { EachApart self.old.world events.now }
        ensures history { GoesOnSound self.old.world events.now }
        ensures unrefused { OnOk result (S.refused supply.new ≡ S.refused supply.old) }
        ensures memory { OnErr result ((S.refused supply.new ≡ true) ⊎ (max_steps ≤ self.new.world.steps)) }
    {
        by_its_path();
        one_holder();
        both_agree();
        self.is_sound();
        for event in events {
            self.pass(supply, event)?;
            self.is_sound();
        }
        Ok(())
    }

    /// What is claimed holds now, and after every list of events from now on.
    fn is_sound(&self)
        ensures now { AreSound self.now.world }
        ensures later { (events : List WorldEvent) → AreSound (spec.worlds_after self.now.world events) }
        ensures ends { (events : List WorldEvent) → EachEnds self.now.world events }
        ensures apart { (events : List WorldEvent) → EachApart self.now.world events }
    {
        agreement();
        resets();
        let _ = &self.parts;
    }
}

/// One event, with nothing known of how the sides go together.
fn step_parts(parts: &mut Parts, event: &WorldEvent) -> Result<WorldReply, Fault>
    requires { IsWell parts.old.world }
    ensures reply { IfOk result (λ r. r ≡ reply_spec.reply_of parts.old.world event.now) }
    ensures gives { GivesResult parts.old.world (spec.world_result parts.old.world event.now) (IsFullFor parts.old.world parts.new.room event.now) result parts.new.world }
    ensures room { TakesRoom result parts.old.room parts.new.room }
{
    let steps = parts.steps();
    if steps >= (1 << 62) - 1 {
        return Err(Fault::NoMemory);
    }
    let reply = parts.perform(event)?;
    parts.count(steps + 1);
    Ok(reply)
}
