//! A worker gives the lock back after each turn: a CPU's instructions are answered beside turns that have nothing to do.

ghost use Rattle.std.specs.Prelude.{◌≡◌, None};

use crate::tests::machines::{WORD, tsch};
use crate::tests::racers::{Racer, Task, add_racer};
use crate::tests::scenarios::{Scenario, goes};
use chan_model::names::Cpu;
use core_lock::executing::CpuInstruction;
use core_lock::gate::Open;
use core_lock::locked::{Core, Seat};
use core_lock::naming::MachineBrand;
use crossbeam_utils::Backoff;
use machine_lock::locked_machine::Machine;
use path_select::Rotating;
use std::sync::Wait;
use std::sync::atomic::{AtomicU64, Ordering};
use std::thread;
use std::thread::Threads;

/// How many turns the worker takes, and how many instructions the CPU executes beside them.
const TURNS: u64 = 1_000_000;

const INSTRUCTIONS: u64 = 1_000;

/// How often the CPU looks whether the worker began, before it goes on alone.
const PATIENCE: u64 = 20_000_000;

/// How far the worker is.
#[derive(Drop)]
struct Work {
    begun: AtomicU64,
    done: AtomicU64,
}

impl Work {
    /// Whether it began, while the CPU waits.
    fn begins(&self) -> bool {
        let backoff = Backoff::new();
        for _look in 0..PATIENCE {
            if self.begun.load(Ordering::SeqCst) == 1 {
                return true;
            }
            backoff.snooze();
        }
        false
    }

    /// Whether it is at work.
    fn goes_on(&self) -> bool {
        self.done.load(Ordering::SeqCst) == 0
    }
}

/// A CPU, and a worker of the one channel path, which has nothing to do.
pub fn begins_idle<J: MachineBrand>(
    core: &mut Core<J, Rotating>,
    racers: &mut Vec<Racer<J>>,
) -> bool {
    let Some(cpu) = Cpu::new(0) else {
        return false;
    };
    add_racer(core, racers, Task::Program(cpu)) && add_racer(core, racers, Task::Path(0x10))
}

/// Whether an instruction of a CPU is answered.
fn tests<J: MachineBrand, R: Wait>(
    rt: &R,
    machine: &Machine<J, Rotating>,
    seat: &mut Seat<J>,
    cpu: Cpu,
) -> bool
    requires { seat.old.value.owed ≡ None }
    ensures { seat.new.value.owed ≡ None }
{
    let test = CpuInstruction::OnSubchannel(tsch(WORD));
    machine.instruct(rt, seat, cpu, test).is_ok()
}

impl<J: MachineBrand> Racer<J> {
    /// How many instructions of a CPU are answered while the worker is at work.
    fn answered_beside<R: Wait>(
        &mut self,
        rt: &R,
        machine: &Machine<J, Rotating>,
        cpu: Cpu,
        work: &Work,
    ) -> u64 {
        let mut answered = 0u64;
        if !work.begins() {
            return 0;
        }
        for _ in 0..INSTRUCTIONS {
            if tests(rt, machine, &mut self.seat, cpu) && work.goes_on() {
                answered = answered.saturating_add(1);
            }
        }
        answered
    }

    /// What it does: how many entries were answered, of a CPU those beside the worker's turns.
    fn beside<R: Wait>(&mut self, rt: &R, machine: &Machine<J, Rotating>, work: &Work) -> u64 {
        if let Task::Program(cpu) = &self.task {
            let cpu = *cpu;
            return self.answered_beside(rt, machine, cpu, work);
        }
        work.begun.store(1, Ordering::SeqCst);
        let added = self.turns(rt, machine, &Open, false, TURNS);
        work.done.store(1, Ordering::SeqCst);
        added
    }
}

/// Both at once, each on a thread of its own: they, where each instruction was answered beside the turns, which added nothing.
pub fn idles<J: MachineBrand + Send + Sync, R: Threads + Wait + Sync>(
    rt: &R,
    machine: &Machine<J, Rotating>,
    racers: Vec<Racer<J>>,
) -> Option<Vec<Racer<J>>> {
    let work = Work {
        begun: AtomicU64::new(0),
        done: AtomicU64::new(0),
    };
    let worked = thread::map_vec(
        rt,
        racers,
        &|racer: Racer<J>| {
            let mut racer = racer;
            racer.answered = racer.beside(rt, machine, &work);
            racer
        },
    );
    worked.ok()
}

/// Whether each instruction was answered beside the turns, and nothing else was entered.
pub fn are_beside(answered: u64, entries: Option<u64>) -> bool {
    answered == INSTRUCTIONS && entries == Some(INSTRUCTIONS)
}

#[test]
fn instructions_are_answered_beside_a_workers_idle_turns(rt: HostRuntime) {
    assert!(rt; goes(&rt, rt.alloc(), Scenario::Idles));
}
