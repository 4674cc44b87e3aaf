//! One event at the subsystem under its lock, entered from a seat.

ghost use Rattle.std.specs.Prelude.{◌≡◌, ◌≢◌, ◌⊎◌, ◌+◌, ◌^◌, ◌≤◌, length, Err, true};
ghost use Rattle.chan_model.specs.declared.fault.Fault.TheVariants as fault_spec;
ghost use Rattle.subsystem.specs.Keeping.{answer_of};
ghost use Rattle.core_lock.specs.Entering.{IsEntered, guarded_in};

use super::{Core, Seat};
use crate::naming::MachineBrand;
use chan_events::event::Event;
use chan_events::reply::Reply;
use chan_model::fault::Fault;
use memory::{Allocator, Supply};
use path_select::PathChoice;

impl<J: MachineBrand, P: PathChoice + Drop> Core<J, P> {
    /// One step, entered from a seat: its reply, with the entry in the history and in the seat's log. Where it is refused all
    /// is as before; it is refused `NoMemory` only where the history, the seats beside it or the log can't grow, or the steps
    /// are used up.
    #[inline(always)]
    pub fn enter(&mut self, seat: &mut Seat<J>, event: Event) -> Result<Reply, Fault>
        ensures entered { IsEntered P.picks (guarded_in self.old) seat.old event result (guarded_in self.new) seat.new }
        ensures seats { self.new.value.seats ≡ self.old.value.seats }
    {
        self.enter_with(&mut Allocator { refused: false }, seat, event)
    }

    /// One step, entered from a seat, as `enter` has it, with room for its entries from a supply. It is refused `NoMemory` only
    /// where the history, the seats beside it or the log have no room and the supply refuses it, or the steps are used up.
    #[inline(always)]
    pub fn enter_with<S: Supply>(
        &mut self,
        supply: &mut S,
        seat: &mut Seat<J>,
        event: Event,
    ) -> Result<Reply, Fault>
        ensures entered { IsEntered P.picks (guarded_in self.old) seat.old event result (guarded_in self.new) seat.new }
        ensures seats { self.new.value.seats ≡ self.old.value.seats }
        ensures unrefused { result ≢ Err fault_spec.NoMemory → S.refused supply.new ≡ S.refused supply.old }
        ensures memory { result ≡ Err fault_spec.NoMemory →
            (S.refused supply.new ≡ true) ⊎ (2 ^ 62 ≤ length self.old.value.history + 1) }
    {
        self.guarded.enter_with(supply, seat, &event)
    }

    /// One step, as `enter` has it; its reply is that of the entry which it added, and `last_reply` of the subsystem lends it. No
    /// more bytes move than its signals have.
    #[inline(always)]
    pub fn perform(&mut self, seat: &mut Seat<J>, event: &Event) -> Result<(), Fault>
        ensures entered { IsEntered P.picks (guarded_in self.old) seat.old event.now (answer_of result self.new.value.history) (guarded_in self.new) seat.new }
        ensures seats { self.new.value.seats ≡ self.old.value.seats }
    {
        self.perform_with(&mut Allocator { refused: false }, seat, event)
    }

    /// One step, as `perform` has it, with room for its entries from a supply, as `enter_with` says.
    #[inline(always)]
    pub fn perform_with<S: Supply>(
        &mut self,
        supply: &mut S,
        seat: &mut Seat<J>,
        event: &Event,
    ) -> Result<(), Fault>
        ensures entered { IsEntered P.picks (guarded_in self.old) seat.old event.now (answer_of result self.new.value.history) (guarded_in self.new) seat.new }
        ensures seats { self.new.value.seats ≡ self.old.value.seats }
        ensures unrefused { result ≢ Err fault_spec.NoMemory → S.refused supply.new ≡ S.refused supply.old }
        ensures memory { result ≡ Err fault_spec.NoMemory →
            (S.refused supply.new ≡ true) ⊎ (2 ^ 62 ≤ length self.old.value.history + 1) }
    {
        self.guarded.perform_with(supply, seat, event)
    }
}
