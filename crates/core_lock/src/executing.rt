//! What is entered under the lock at once: any event, and the instructions of CPUs.

ghost use Rattle.std.specs.Prelude.{◌≡◌, IfErr, MatchResult};
ghost use Rattle.machine_model.specs.State.{State};
ghost use Rattle.core_lock.specs.Entering as spec;
ghost use Rattle.core_lock.specs.Entering.{entered};
ghost use Rattle.core_lock.specs.Outside.{IsExecuted};
ghost use Rattle.core_lock.specs.Turns.{Executes, MayStand};

use crate::guarded::Guarded;
use crate::locked::Seat;
use crate::naming::MachineBrand;
use chan_events::event::{Event, Instruction, OtherInstruction};
use chan_events::reply::Reply;
use chan_model::fault::Fault;
use chan_model::names::Cpu;
use memory::Allocator;
use path_select::PathChoice;

/// An I/O instruction of a CPU.
#[derive(Clone, Copy, Debug)]
pub enum CpuInstruction {
    /// One that names a subchannel.
    OnSubchannel(Instruction),
    /// One that names none.
    OfSubsystem(OtherInstruction),
}

impl<J: MachineBrand, P: PathChoice + Drop> Guarded<J, P> {
    /// One event is entered from the seat. Where it is refused all is as before; it is refused `NoMemory` only where there is no
    /// room for the entry, and otherwise as the machine refuses it.
    pub fn enter(&mut self, seat: &mut Seat<J>, event: &Event) -> Result<Reply, Fault>
        ensures executes { Executes P.picks self.old seat.old event.now result self.new.value seat.new.value }
        ensures starved { seat.new.starved ≡ spec.starved_after result seat.old.starved }
        ensures executed { IsExecuted P.picks seat.old event.now result seat.new.value }
        ensures logged { MatchResult result (λ reply. seat.new.value ≡ entered seat.old.value event.now reply) (λ _. seat.new.value ≡ seat.old.value) }
        ensures refusal { IfErr result (λ f. (s : State) × MayStand seat.old.value.setup s × spec.MayRefuse s event.now f) }
    {
        self.stands(seat);
        self.enter_with(&mut Allocator { refused: false }, seat, event)
    }

    /// A CPU executes an instruction: its event is entered from the seat, as `enter` has it.
    pub fn execute(
        &mut self,
        seat: &mut Seat<J>,
        cpu: Cpu,
        instruction: CpuInstruction,
    ) -> Result<Reply, Fault>
        ensures executes { Executes P.picks self.old seat.old (spec.event_of cpu instruction) result self.new.value seat.new.value }
        ensures starved { seat.new.starved ≡ spec.starved_after result seat.old.starved }
        ensures executed { IsExecuted P.picks seat.old (spec.event_of cpu instruction) result seat.new.value }
        ensures logged { MatchResult result (λ reply. seat.new.value ≡ entered seat.old.value (spec.event_of cpu instruction) reply) (λ _. seat.new.value ≡ seat.old.value) }
        ensures refusal { IfErr result (λ f. (s : State) × MayStand seat.old.value.setup s × spec.MayRefuse s (spec.event_of cpu instruction) f) }
    {
        let event = event_of(cpu, instruction);
        self.enter(seat, &event)
    }
}

/// The event of an instruction.
fn event_of(cpu: Cpu, instruction: CpuInstruction) -> Event
    ensures { result ≡ spec.event_of cpu instruction }
{
    match instruction {
        CpuInstruction::OnSubchannel(instruction) => Event::Execute { cpu, instruction },
        CpuInstruction::OfSubsystem(instruction) => Event::ExecuteOther { cpu, instruction },
    }
}
