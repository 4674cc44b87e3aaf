//! CPUs that race: each executes TEST SUBCHANNEL of one subchannel on a thread of its own.

ghost use Rattle.std.specs.Prelude.{◌≡◌, ◌∷◌, ◌++◌, ◌+◌, ◌≤◌, ◌<◌, ◌^◌, [], length, vec_len, vec_capacity, IfOk, OnErr, OnOk, true};
ghost use Rattle.script_runner.specs.Race as spec;
ghost use Rattle.script_runner.specs.Race.{AreMade, HasRaced, HasTested, HaveRaced, IsBelow, IsSeatedIn};

use crate::tally::Tally;
use chan_events::event::Instruction;
use chan_model::names::Cpu;
use core_lock::executing::CpuInstruction;
use core_lock::locked::{Core, Seat};
use core_lock::naming::MachineBrand;
use core_lock::supplies::CoreSupply;
use machine_lock::locked_machine::Machine;
use memory::{make_room, push};
use path_select::Rotating;
use script_rows::race::Race;
use std::alloc::{AllocError, Global};
use std::marker::Model;
use std::sync::Wait;
use std::thread::{Threads, for_each_mut};

/// A CPU with a seat of its own, and what came of its instructions.
#[derive(Drop)]
pub struct Racer<J: MachineBrand> {
    cpu: Cpu,
    seat: Seat<J>,
    tally: Tally,
}

impl<J: MachineBrand> Model for Racer<J> {
    ghost use Rattle.std.specs.Prelude.{◌^◌};
    ghost use Rattle.script_runner.specs.Race.{IsBelow, Runner};

    ghost Value = { Runner };

    ghost view = { λ r. record { cpu = r.cpu; seat = r.seat; tally = r.tally } };

    ghost invariant = { λ r. IsBelow (2 ^ 32) r.tally };
}

impl<J: MachineBrand> Racer<J> {
    /// A CPU that did nothing yet.
    fn new(cpu: Cpu, seat: Seat<J>) -> Racer<J>
        ensures { result ≡ record { cpu = cpu; seat = seat; tally = spec.no_tally } }
    {
        Racer {
            cpu,
            seat,
            tally: Tally::none(),
        }
    }

    /// It executes its instruction as often as the race says.
    fn run<R: Wait>(&mut self, rt: &R, machine: &Machine<J, Rotating>, race: Race)
        ensures { HasRaced race self.old self.new }
    {
        self.tally = tally_of(rt, machine, race, self.cpu, &mut self.seat);
    }

    /// Its seat, and what came of its instructions.
    fn into_parts(self) -> (Seat<J>, Tally)
        ensures parts { (result.0 ≡ self.seat) × (result.1 ≡ self.tally) }
        ensures below { IsBelow (2 ^ 32) result.1 }
    {
        (self.seat, self.tally)
    }
}

/// What came of the instructions that a CPU executed, as often as the race says, from this seat.
fn tally_of<J: MachineBrand, R: Wait>(
    rt: &R,
    machine: &Machine<J, Rotating>,
    race: Race,
    cpu: Cpu,
    seat: &mut Seat<J>,
) -> Tally
    ensures tested { HasTested race cpu race.times seat.old.value.log seat.new.value.log result }
    ensures below { IsBelow (2 ^ 32) result }
{
    let mut tally = Tally::none();
    for _turn in 0..race.times {
        let came = machine.instruct(rt, seat, cpu, test_of(race, cpu));
        tally.count(&came);
    }
    tally
}

/// CPUs that are to race, and room for their seats and one more.
#[derive(Drop)]
pub struct Racers<J: MachineBrand> {
    cpus: Vec<Racer<J>>,
    seats: Vec<Seat<J>>,
}

impl<J: MachineBrand> Model for Racers<J> {
    ghost use Rattle.std.specs.Prelude.{◌≡◌, ◌+◌, ◌≤◌, List, [], vec_len, vec_capacity};
    ghost use Rattle.script_runner.specs.Race.{Runner};

    ghost Value = { List Runner };

    ghost view = { λ r. r.cpus.items };

    ghost invariant = { λ r. (r.seats.items ≡ []) × (vec_len r.cpus ≤ 16) × (vec_len r.cpus + 1 ≤ vec_capacity r.seats) };
}

impl<J: MachineBrand> Racers<J> {
    /// As many CPUs by their numbers, but no more than there can be, each with a new seat. They are not made only where the
    /// supply refused a growth.
    pub fn new<S: CoreSupply>(
        alloc: Global,
        supply: &mut S,
        core: &mut Core<J, Rotating>,
        count: u32,
    ) -> Result<Racers<J>, AllocError>
        requires { core.old.value.seats ≤ 1 }
        ensures made { IfOk result (λ racers. AreMade count racers) }
        ensures core { IfOk result (λ _. IsSeatedIn core.old.value core.new.value) }
        ensures unrefused { OnOk result (S.refused supply.new ≡ S.refused supply.old) }
        ensures memory { OnErr result (S.refused supply.new ≡ true) }
    {
        let mut cpus = Vec::new(alloc);
        for number in 0..count.min(16) {
            let racer = seated(supply, core, number)?;
            push(supply, &mut cpus, racer)?;
        }
        Racers::with_room(alloc, supply, cpus)
    }

    /// With room for their seats and one more.
    fn with_room<S: CoreSupply>(
        alloc: Global,
        supply: &mut S,
        cpus: Vec<Racer<J>>,
    ) -> Result<Racers<J>, AllocError>
        requires { vec_len cpus ≤ 16 }
        ensures same { IfOk result (λ racers. racers ≡ cpus.items) }
        ensures unrefused { OnOk result (S.refused supply.new ≡ S.refused supply.old) }
        ensures memory { OnErr result (S.refused supply.new ≡ true) }
    {
        let mut seats = Vec::new(alloc);
        make_room(supply, &mut seats, cpus.len() + 1)?;
        Ok(Racers { cpus, seats })
    }

    /// They race at a machine, which has one seat more: the machine after them, with all seats, its own first, and what came of all
    /// instructions.
    pub fn race<R: Threads + Wait + Sync>(
        self,
        rt: &R,
        core: Core<J, Rotating>,
        own: Seat<J>,
        race: Race,
    ) -> (Core<J, Rotating>, Vec<Seat<J>>, Tally)
    where
        J: Send + Sync,
        ensures { spec.HaveGathered race self (own ∷ []) result.1.items result.2 }
    {
        let Racers {
            mut cpus,
            mut seats,
        } = self;
        seats.push_reserved(own);
        let (machine, stock) = Machine::new(core);
        run_all(rt, &machine, race, &mut cpus);
        let (seats, tally) = gather(seats, cpus);
        (machine.into_core(stock), seats, tally)
    }
}

/// A CPU of this number with a new seat.
fn seated<J: MachineBrand, S: CoreSupply>(
    supply: &mut S,
    core: &mut Core<J, Rotating>,
    number: u32,
) -> Result<Racer<J>, AllocError>
    requires cpu { number < 16 }
    requires seats { core.old.value.seats < 1024 }
    ensures cpu { IfOk result (λ racer. racer.cpu ≡ number) }
    ensures log { IfOk result (λ racer. racer.seat.value.log ≡ []) }
    ensures core { IfOk result (λ _. core.new.value ≡ record core.old.value { seats = core.old.value.seats + 1 }) }
    ensures unrefused { OnOk result (S.refused supply.new ≡ S.refused supply.old) }
    ensures memory { OnErr result (S.refused supply.new ≡ true) }
{
    let Some(cpu) = Cpu::new(number) else {
        unreachable!()
    };
    Ok(Racer::new(cpu, one_seat(supply, core)?))
}

/// One more seat, where there are few.
pub fn one_seat<J: MachineBrand, S: CoreSupply>(
    supply: &mut S,
    core: &mut Core<J, Rotating>,
) -> Result<Seat<J>, AllocError>
    requires { core.old.value.seats < 1024 }
    ensures seat { IfOk result (λ seat. spec.IsNewSeat J.setup core.old.value seat.value) }
    ensures log { IfOk result (λ seat. seat.value.log ≡ []) }
    ensures room { IfOk result (λ seat. seat.room ≡ 0) }
    ensures core { IfOk result (λ _. core.new.value ≡ record core.old.value { seats = core.old.value.seats + 1 }) }
    ensures unrefused { OnOk result (S.refused supply.new ≡ S.refused supply.old) }
    ensures memory { OnErr result (S.refused supply.new ≡ true) }
{
    match core.seat_with(supply) {
        Ok(seat) => Ok(seat),
        Err(_) => Err(AllocError),
    }
}

/// Where a CPU stores what it is answered.
fn irb_of(cpu: Cpu) -> u32
    ensures { result ≡ spec.irb_of cpu }
{
    0x800 + 0x40 * u32::from(cpu.number())
}

/// The instruction of a CPU.
fn test_of(race: Race, cpu: Cpu) -> CpuInstruction
    ensures { result ≡ spec.test_of race cpu }
{
    CpuInstruction::OnSubchannel(Instruction::Tsch {
        subchannel: race.subchannel,
        address: irb_of(cpu),
    })
}

/// Each CPU on a thread of its own.
fn run_all<J: MachineBrand + Send + Sync, R: Threads + Wait + Sync>(
    rt: &R,
    machine: &Machine<J, Rotating>,
    race: Race,
    racers: &mut Vec<Racer<J>>,
)
    ensures { HaveRaced race racers.old.items racers.new.items }
{
    for_each_mut(
        rt,
        racers.as_mut_slice(),
        16,
        &|_, racer| { racer.run(rt, machine, race) },
    );
}

/// These seats and those of the CPUs, and what came of all instructions.
fn gather<J: MachineBrand>(seats: Vec<Seat<J>>, racers: Vec<Racer<J>>) -> (Vec<Seat<J>>, Tally)
    requires few { vec_len racers ≤ 16 }
    requires room { vec_len seats + vec_len racers ≤ vec_capacity seats }
    ensures seats { result.0.items ≡ seats.items ++ spec.seats_of racers.items }
    ensures total { result.1 ≡ spec.total_of racers.items }
{
    let mut seats = seats;
    let mut racers = racers;
    let mut total = Tally::none();
    while let Some(racer) = racers.pop() {
        let (seat, tally) = racer.into_parts();
        seats.push_reserved(seat);
        total.add(tally);
    }
    (seats, total)
}
