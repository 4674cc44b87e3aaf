//! CPUs and lookers at one locked core, each on a thread of its own.

use crate::bench::{Place, word_of};
use crate::cycle::IRB;
use chan_events::event::Instruction;
use chan_model::names::Cpu;
use core_lock::executing::CpuInstruction;
use core_lock::locked::{Core, Seat, audit};
use core_lock::naming::MachineBrand;
use machine_lock::locked_machine::Machine;
use path_select::Rotating;
use std::alloc::Global;
use std::sync::Wait;
use std::sync::atomic::{AtomicU64, Ordering};
use std::thread::{Threads, for_each_mut};

/// How often a looker looks for each instruction of a CPU.
const LOOKS: u64 = 64;

/// How many CPUs and lookers there are, and how many instructions each CPU executes.
#[derive(Clone, Copy)]
pub struct Race {
    pub cpus: u32,
    pub lookers: u32,
    pub times: u64,
}

/// What came of a race.
#[derive(Clone, Copy)]
pub struct RaceCount {
    /// How many instructions and looks were answered.
    pub instructions: u64,
    pub looks: u64,
    /// Whether each log is what the history has of it, and no entry is lost.
    pub audited: bool,
}

/// What was answered to all threads.
#[derive(Drop)]
struct Answered {
    instructions: AtomicU64,
    looks: AtomicU64,
}

impl Answered {
    /// Nothing.
    fn new() -> Self {
        Answered {
            instructions: AtomicU64::new(0),
            looks: AtomicU64::new(0),
        }
    }

    /// What came of the race.
    fn count(&self, audited: bool) -> RaceCount {
        RaceCount {
            instructions: self.instructions.load(Ordering::SeqCst),
            looks: self.looks.load(Ordering::SeqCst),
            audited,
        }
    }
}

impl Race {
    /// The same where all are ready for it, and one without instructions and looks where they are not.
    fn when(self, ready: bool) -> Race {
        Race {
            cpus: self.cpus,
            lookers: self.lookers,
            times: if ready { self.times } else { 0 },
        }
    }

    /// The CPU of the seat of this index; None where it is a looker's.
    fn cpu_of(self, index: usize) -> Option<Cpu> {
        let number = u32::try_from(index).ok()?;
        if number < self.cpus {
            Cpu::new(number)
        } else {
            None
        }
    }

    /// What the thread of this index does, by its seat.
    fn run<J: MachineBrand, R: Wait>(
        self,
        rt: &R,
        machine: &Machine<J, Rotating>,
        index: usize,
        seat: &mut Seat<J>,
        answered: &Answered,
    ) {
        match self.cpu_of(index) {
            Some(cpu) => {
                let count = tests(rt, machine, seat, cpu, self.times);
                answered.instructions.fetch_add(count, Ordering::SeqCst);
            }
            None => {
                let count = looks(seat, self.times.saturating_mul(LOOKS));
                answered.looks.fetch_add(count, Ordering::SeqCst);
            }
        }
    }
}

/// A CPU executes TEST SUBCHANNEL so many times: how many were answered.
fn tests<J: MachineBrand, R: Wait>(
    rt: &R,
    machine: &Machine<J, Rotating>,
    seat: &mut Seat<J>,
    cpu: Cpu,
    times: u64,
) -> u64 {
    let test = CpuInstruction::OnSubchannel(Instruction::Tsch {
        subchannel: word_of(0),
        address: IRB,
    });
    let mut answered = 0u64;
    for _ in 0..times {
        if machine.instruct(rt, seat, cpu, test).is_ok() {
            answered = answered.saturating_add(1);
        }
    }
    answered
}

/// So many looks at the serials of the subchannel: how many were answered.
fn looks<J: MachineBrand>(seat: &mut Seat<J>, times: u64) -> u64 {
    let mut answered = 0u64;
    for _ in 0..times {
        if seat.glance(word_of(0)).is_ok() {
            answered = answered.saturating_add(1);
        }
    }
    answered
}

/// One more seat; false where there is none or no memory.
fn add_seat<J: MachineBrand>(core: &mut Core<J, Rotating>, seats: &mut Vec<Seat<J>>) -> bool {
    match core.seat() {
        Ok(seat) => seats.push(seat).is_ok(),
        Err(_) => false,
    }
}

/// A seat for each thread, first those of the CPUs; false where there are not so many CPUs or seats, or no memory.
fn add_seats<J: MachineBrand>(
    core: &mut Core<J, Rotating>,
    seats: &mut Vec<Seat<J>>,
    race: Race,
) -> bool {
    if race.cpus > 0 && Cpu::new(race.cpus.saturating_sub(1)).is_none() {
        return false;
    }
    for _ in 0..race.cpus.saturating_add(race.lookers) {
        if !add_seat(core, seats) {
            return false;
        }
    }
    true
}

/// The subchannel is enabled from the first seat, where there is one; false where that is refused.
fn enables<J: MachineBrand>(core: &mut Core<J, Rotating>, seats: &mut Vec<Seat<J>>) -> bool {
    match (Place::last_of(1), seats.get_mut(0)) {
        (Some(place), Some(first)) => core.enter(first, place.enabling()).is_ok(),
        (Some(_), None) => true,
        (None, _) => false,
    }
}

/// Whether the audit finds all that the seats did in the history, and no entry is lost.
fn is_whole<J: MachineBrand>(core: Core<J, Rotating>, seats: Vec<Seat<J>>) -> bool {
    let entries = core.subsystem().history().len() as u64;
    let audited = audit(&core, seats.as_slice());
    let closed = core.close(seats);
    audited && closed == Some(entries)
}

/// All run at one locked core; None where there are not so many CPUs or seats, or no memory.
pub fn raced<J: MachineBrand + Send + Sync, R: Threads + Wait + Sync>(
    rt: &R,
    alloc: Global,
    core: Core<J, Rotating>,
    race: Race,
) -> Option<RaceCount> {
    let mut core = core;
    let mut seats = Vec::new(alloc);
    let ready = add_seats(&mut core, &mut seats, race) && enables(&mut core, &mut seats);
    let (machine, stock) = Machine::new(core);
    let answered = Answered::new();
    let race = race.when(ready);
    for_each_mut(
        rt,
        seats.as_mut_slice(),
        32,
        &|index, seat| { race.run(rt, &machine, index, seat, &answered) },
    );
    let audited = is_whole(machine.into_core(stock), seats);
    if ready {
        Some(answered.count(audited))
    } else {
        None
    }
}
