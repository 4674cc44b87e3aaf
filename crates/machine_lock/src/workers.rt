//! Workers: turn after turn, each under the lock, and what a unit's device is asked outside it.

ghost use Rattle.std.specs.Prelude.{◌≡◌, ◌+◌, ◌≤◌, None};
ghost use Rattle.core_lock.specs.Turns as turn_spec;
ghost use Rattle.core_lock.specs.Turns.{Grew, IsCalled, IsOfPath, IsOfWorker, WorksUnit};
ghost use Rattle.machine_lock.specs.Working.{ArePathTurns, AreUnitTurns, IsWholeTurn, MakesOwed};

use crate::locked_machine::Machine;
use chan_model::fault::Fault;
use core_lock::gate::{Gate, Gated};
use core_lock::locked::Seat;
use core_lock::naming::MachineBrand;
use path_select::PathChoice;
use std::sync::Wait;

/// The worker of a unit, and whether the unit leaves its path once after each command.
#[derive(Clone, Copy)]
struct UnitWorker {
    unit: u32,
    roam: bool,
}

impl<J: MachineBrand, P: PathChoice + Drop> Machine<J, P> {
    /// So many turns of the worker of a channel path, each under the lock. How many entries they added.
    pub fn path_worker<R: Wait>(&self, rt: &R, seat: &mut Seat<J>, chpid: u8, turns: u64) -> u64
        requires { seat.old.value.owed ≡ None }
        ensures turns { seat.new.value.turns ≡ seat.old.value.turns + turns }
        ensures owes { seat.new.value.owed ≡ None }
        ensures number { seat.new.value.number ≡ seat.old.value.number }
        ensures most { result ≤ turns }
        ensures each { ArePathTurns P.picks chpid turns seat.old seat.new result }
        ensures log { Grew (IsOfPath seat.old.value.setup chpid) seat.old.value.log seat.new.value.log result }
    {
        let mut added = 0;
        for _turn in 0..turns {
            let entered = self.path_turn(rt, seat, chpid);
            added += count_of(entered);
        }
        added
    }

    /// So many turns of the worker of a unit, each under the lock, and the calls of its device that they leave owed outside it.
    /// How many entries they added. With `roam` the unit leaves its path once after each command.
    pub fn device_worker<D: Gated, G: Gate, R: Wait>(
        &self,
        rt: &R,
        seat: &mut Seat<J>,
        unit: u32,
        device: &mut D,
        gate: &G,
        roam: bool,
        turns: u64,
    ) -> u64
        requires { seat.old.value.owed ≡ None }
        ensures turns { seat.new.value.turns ≡ seat.old.value.turns + turns }
        ensures owes { seat.new.value.owed ≡ None }
        ensures number { seat.new.value.number ≡ seat.old.value.number }
        ensures most { result ≤ turns }
        ensures each { AreUnitTurns P.picks (G.passes gate.now) D.answers roam «unit» turns seat.old device.old seat.new device.new result }
        ensures log { Grew (IsOfWorker seat.old.value.setup roam «unit» seat.old.value.waiting) seat.old.value.log seat.new.value.log result }
    {
        let mut added = 0;
        for _turn in 0..turns {
            let entered = self.whole_turn(rt, seat, UnitWorker { unit, roam }, device, gate);
            added += count_of(entered);
        }
        added
    }

    /// One turn of the worker of a unit, with the call that it leaves owed. Whether it entered something; it is refused as its
    /// event is.
    fn whole_turn<D: Gated, G: Gate, R: Wait>(
        &self,
        rt: &R,
        seat: &mut Seat<J>,
        worker: UnitWorker,
        device: &mut D,
        gate: &G,
    ) -> Result<bool, Fault>
        requires { seat.old.value.owed ≡ None }
        ensures turns { seat.new.value.turns ≡ seat.old.value.turns + 1 }
        ensures owes { seat.new.value.owed ≡ None }
        ensures turn { IsWholeTurn P.picks (G.passes gate.now) D.answers worker.roam worker.«unit» seat.old device.old result seat.new.value device.new }
        ensures works { WorksUnit worker.roam worker.«unit» seat.old.value seat.new.value (turn_spec.count_in result) }
    {
        let entered = self.unit_turn(rt, seat, worker.unit, worker.roam);
        call_owed(seat, device, gate);
        entered
    }
}

/// How many entries a turn made.
fn count_of(entered: Result<bool, Fault>) -> u64
    ensures value { result ≡ turn_spec.count_in entered }
    ensures most { result ≤ 1 }
{
    match entered {
        Ok(true) => 1,
        Ok(false) | Err(_) => 0,
    }
}

/// The call of a device that is owed, if any.
fn call_owed<J: MachineBrand, D: Gated, G: Gate>(seat: &mut Seat<J>, device: &mut D, gate: &G)
    ensures called { IsCalled seat.old.value seat.new.value }
    ensures makes { MakesOwed (G.passes gate.now) D.answers seat.old.value device.old seat.new.value device.new }
{
    if !seat.owes() {
        return;
    }
    seat.call(device, gate);
}
