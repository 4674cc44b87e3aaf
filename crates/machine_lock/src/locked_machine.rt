//! The lock. Each function here takes it once and gives it back before it returns; nothing here knows a device, and nothing
//! outside has what the lock guards.

ghost use Rattle.std.specs.Prelude.{◌≡◌, ◌+◌, IfErr, None, MatchResult};
ghost use Rattle.machine_model.specs.State.{State};
ghost use Rattle.machine_model.specs.Setups.{IsSetUp};
ghost use Rattle.machine_model.specs.Steps.{HasRun};
ghost use Rattle.core_lock.specs.Entering as spec;
ghost use Rattle.core_lock.specs.Entering.{entered};
ghost use Rattle.core_lock.specs.Turns as turn_spec;
ghost use Rattle.core_lock.specs.Turns.{IsOwedBy, MayStand, WorksPath, WorksUnit};
ghost use Rattle.core_lock.specs.Outside.{IsExecuted, IsPathTurn, IsUnitTurn};

use chan_events::event::Event;
use chan_events::reply::Reply;
use chan_model::fault::Fault;
use chan_model::names::Cpu;
use core_lock::executing::CpuInstruction;
use core_lock::guarded::Guarded;
use core_lock::locked::{Core, Seat};
use core_lock::naming::MachineBrand;
use core_lock::stock::SeatStock;
use path_select::PathChoice;
use std::sync::{Mutex, Wait};

/// A machine under its lock.
#[derive(Drop)]
pub struct Machine<J: MachineBrand, P: PathChoice + Drop> {
    lock: Mutex<Guarded<J, P>>,
}

impl<J: MachineBrand, P: PathChoice + Drop> Machine<J, P> {
    /// Puts a core under its lock. The seats that can still be made stay outside.
    pub fn new(core: Core<J, P>) -> (Machine<J, P>, SeatStock<J>)
        ensures { result.1 ≡ core.value.seats }
    {
        let (guarded, stock) = core.split();
        let lock = Mutex::new(guarded);
        (Machine { lock }, stock)
    }

    /// Takes the core out, with these seats: no more were made than before.
    pub fn into_core(self, stock: SeatStock<J>) -> Core<J, P>
        ensures seats { result.value.seats ≡ stock }
        ensures replays { HasRun result.value.history result.value.state }
        ensures set_up { IsSetUp J.setup result.value.state }
    {
        let Machine { lock } = self;
        Core::join(lock.into_inner(), stock)
    }

    /// One event is entered under the lock, as an operator or an act of a unit of itself: the seat's log grows by it and its
    /// reply. Where it is refused, the log is as before; it is refused `NoMemory` only where there is no room for the entry, and
    /// otherwise as the machine refuses it.
    pub fn enter<R: Wait>(&self, rt: &R, seat: &mut Seat<J>, event: &Event) -> Result<Reply, Fault>
        // Only a refusal by the machine itself counts so.
        ensures starved { seat.new.starved ≡ spec.starved_after result seat.old.starved }
        ensures executed { IsExecuted P.picks seat.old event.now result seat.new.value }
        ensures logged { MatchResult result (λ reply. seat.new.value ≡ entered seat.old.value event.now reply) (λ _. seat.new.value ≡ seat.old.value) }
        ensures refusal { IfErr result (λ f. (s : State) × MayStand seat.old.value.setup s × spec.MayRefuse s event.now f) }
    {
        self.lock.lock(rt).enter(seat, event)
    }

    /// A CPU executes an instruction, under the lock: its log grows by the instruction and its reply. Where it is refused, the
    /// log is as before; it is refused `NoMemory` only where there is no room for the entry, and otherwise as the machine
    /// refuses it.
    pub fn instruct<R: Wait>(
        &self,
        rt: &R,
        seat: &mut Seat<J>,
        cpu: Cpu,
        instruction: CpuInstruction,
    ) -> Result<Reply, Fault>
        // Only a refusal by the machine itself counts so.
        ensures starved { seat.new.starved ≡ spec.starved_after result seat.old.starved }
        ensures executed { IsExecuted P.picks seat.old (spec.event_of cpu instruction) result seat.new.value }
        ensures logged { MatchResult result (λ reply. seat.new.value ≡ entered seat.old.value (spec.event_of cpu instruction) reply) (λ _. seat.new.value ≡ seat.old.value) }
        ensures refusal { IfErr result (λ f. (s : State) × MayStand seat.old.value.setup s × spec.MayRefuse s (spec.event_of cpu instruction) f) }
    {
        self.lock.lock(rt).execute(seat, cpu, instruction)
    }

    /// One turn of the worker of a channel path, under the lock. Whether it entered something; it is refused as its event is.
    pub(crate) fn path_turn<R: Wait>(
        &self,
        rt: &R,
        seat: &mut Seat<J>,
        chpid: u8,
    ) -> Result<bool, Fault>
        ensures turns { seat.new.value.turns ≡ seat.old.value.turns + 1 }
        ensures turn { IsPathTurn P.picks chpid seat.old result seat.new.value }
        ensures works { WorksPath chpid seat.old.value seat.new.value (turn_spec.count_in result) }
    {
        self.lock.lock(rt).path_step(seat, chpid)
    }

    /// One turn of the worker of a unit, under the lock, which may leave a call of its device owed. Whether it entered something;
    /// it is refused as its event is.
    pub(crate) fn unit_turn<R: Wait>(
        &self,
        rt: &R,
        seat: &mut Seat<J>,
        unit: u32,
        roam: bool,
    ) -> Result<bool, Fault>
        requires { seat.old.value.owed ≡ None }
        ensures turns { seat.new.value.turns ≡ seat.old.value.turns + 1 }
        ensures turn { IsUnitTurn P.picks roam «unit» seat.old result seat.new.value }
        ensures owes { IsOwedBy seat.old.value.setup roam «unit» seat.new.value.owed }
        ensures works { WorksUnit roam «unit» seat.old.value seat.new.value (turn_spec.count_in result) }
    {
        self.lock.lock(rt).unit_step(seat, unit, roam)
    }
}
