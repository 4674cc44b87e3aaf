//! Many threads enter many events, and nothing is lost.

use crate::tests::crowds::{
    KINDS, LEAST, Mind, disturbance_of, glances_in_order, instruction_of, kind_of,
};
use crate::tests::machines::{accepts, accepts_all, enable, loads, word_of};
use crate::tests::racers::{Racer, Task, add_racer, add_worker};
use crate::tests::scenarios::{Scenario, goes};
use chan_events::reply::Reply;
use chan_model::fault::Fault;
use chan_model::names::Cpu;
use core_lock::gate::Open;
use core_lock::locked::{Core, Seat};
use core_lock::naming::MachineBrand;
use crossbeam_utils::Backoff;
use event_log::history::History;
use machine_lock::locked_machine::Machine;
use path_select::Rotating;
use std::alloc::Global;
use std::sync::Wait;
use std::sync::atomic::{AtomicU64, Ordering};
use std::thread;
use std::thread::Threads;

/// How many entries there are to be, at least.
const ENTRIES: u64 = 1_000_000;

/// How many rounds a thread has at most.
const ROUNDS: u64 = 10_000_000;

/// How many turns a worker takes in a round.
const TURNS: u64 = 1;

const CPUS: u32 = 16;

const PATHS: u8 = 8;

const WORKERS: u32 = 64;

/// How many entries the first seat makes: a program lies in storage, and all subchannels are enabled.
const FIRST: u64 = 3 + WORKERS as u64;

/// How many racers there are: of the CPUs, of the workers of all channel paths and of all units, and of the operator.
const RACERS: u64 = 89;

/// What all racers did.
#[derive(Drop)]
pub struct Done {
    /// How many entries were answered.
    entries: AtomicU64,
    /// How many racers had one answered.
    racers: AtomicU64,
    /// Of how many kinds the operator had enough accepted.
    kinds: AtomicU64,
}

impl Done {
    /// Nothing.
    fn new() -> Self {
        Done {
            entries: AtomicU64::new(0),
            racers: AtomicU64::new(0),
            kinds: AtomicU64::new(0),
        }
    }

    /// Whether there are entries enough, each racer has one, and the operator has enough of each kind.
    fn is_enough(&self) -> bool {
        self.entries.load(Ordering::SeqCst) >= ENTRIES
            && self.racers.load(Ordering::SeqCst) >= RACERS
            && self.kinds.load(Ordering::SeqCst) >= KINDS as u64
    }
}

/// How many entries an answer is.
fn count_of(answer: &Result<Reply, Fault>) -> u64 {
    match answer {
        Ok(_) => 1,
        Err(_) => 0,
    }
}

impl<J: MachineBrand> Racer<J> {
    /// What a CPU does in a round: an instruction, and then a glance at its subchannel. How many entries were answered, and whether
    /// the glance is in order.
    fn instructs<R: Wait>(
        &mut self,
        rt: &R,
        machine: &Machine<J, Rotating>,
        cpu: Cpu,
        round: u64,
        mind: &mut Mind,
    ) -> (u64, bool) {
        let instruction = instruction_of(cpu, round);
        let count = count_of(&machine.instruct(rt, &mut self.seat, cpu, instruction));
        let in_order = glances_in_order(&mut self.seat, cpu, round, mind);
        (count, in_order)
    }

    /// What it does in a round: how many entries were answered, and whether what it saw is in order. Units roam.
    fn round<R: Wait>(
        &mut self,
        rt: &R,
        machine: &Machine<J, Rotating>,
        round: u64,
        mind: &mut Mind,
    ) -> (u64, bool) {
        match &self.task {
            Task::Program(cpu) => {
                let cpu = *cpu;
                self.instructs(rt, machine, cpu, round, mind)
            }
            Task::Operator => {
                let event = disturbance_of(round);
                let count = count_of(&machine.enter(rt, &mut self.seat, &event));
                if count > 0 {
                    mind.accepts(&event);
                }
                (count, true)
            }
            _ => (self.turns(rt, machine, &Open, true, TURNS), true),
        }
    }

    /// A round, whose entries are counted, and so is the racer as its first entry is answered. How many entries it made.
    fn counted<R: Wait>(
        &mut self,
        rt: &R,
        machine: &Machine<J, Rotating>,
        round: u64,
        mind: &mut Mind,
        done: &Done,
    ) -> u64 {
        let (more, in_order) = self.round(rt, machine, round, mind);
        self.well = self.well && in_order;
        if self.answered == 0 && more > 0 {
            done.racers.fetch_add(1, Ordering::SeqCst);
        }
        self.answered = self.answered.saturating_add(more);
        done.entries.fetch_add(more, Ordering::SeqCst);
        let kinds = mind.kinds();
        if kinds > 0 {
            done.kinds.store(kinds, Ordering::SeqCst);
        }
        more
    }

    /// Works until there are entries enough, each racer has one and the operator many: which thread comes to run is nobody's promise. After a round that
    /// made no entry it lets others go first.
    fn works<R: Wait>(&mut self, rt: &R, machine: &Machine<J, Rotating>, done: &Done) {
        let mut mind = Mind::new();
        let backoff = Backoff::new();
        for round in 0..ROUNDS {
            if done.is_enough() {
                return;
            }
            if self.counted(rt, machine, round, &mut mind, done) == 0 {
                backoff.snooze();
            }
        }
    }
}

/// The racers of all CPUs, of the workers of all channel paths and of all units, and of the operator.
fn add_all<J: MachineBrand>(
    alloc: Global,
    core: &mut Core<J, Rotating>,
    racers: &mut Vec<Racer<J>>,
) -> bool {
    for number in 0..CPUS {
        let Some(cpu) = Cpu::new(number) else {
            return false;
        };
        if !add_racer(core, racers, Task::Program(cpu)) {
            return false;
        }
    }
    for path in 0..PATHS {
        if !add_racer(core, racers, Task::Path(0x10 + path)) {
            return false;
        }
    }
    for worker in 0..WORKERS {
        if !add_worker(alloc, core, racers, worker, 1) {
            return false;
        }
    }
    add_racer(core, racers, Task::Operator)
}

/// A program lies in storage, and all subchannels are enabled.
fn begins<J: MachineBrand>(core: &mut Core<J, Rotating>, seat: &mut Seat<J>) -> bool {
    let Some(cpu) = Cpu::new(0) else {
        return false;
    };
    if !accepts_all(core, seat, &loads()) {
        return false;
    }
    for number in 0..WORKERS {
        if !accepts(core, seat, cpu, &[enable(word_of(number), true)]) {
            return false;
        }
    }
    true
}

/// That is entered, and there are all racers.
pub fn begins_crowd<J: MachineBrand>(
    alloc: Global,
    core: &mut Core<J, Rotating>,
    first: &mut Seat<J>,
    racers: &mut Vec<Racer<J>>,
) -> bool {
    begins(core, first) && add_all(alloc, core, racers)
}

/// How many entries were answered to these racers.
pub fn answered<J: MachineBrand>(racers: &[Racer<J>]) -> u64 {
    let mut sum = 0u64;
    for racer in racers {
        sum = sum.saturating_add(racer.answered);
    }
    sum
}

/// Whether there are entries enough in the end, all of them counted: the first ones, and those that were answered to racers.
pub fn are_enough(answered: u64, entries: Option<u64>) -> bool {
    let counted = FIRST.saturating_add(answered);
    counted >= ENTRIES && entries == Some(counted)
}

/// Whether each racer has an entry, and all glances were in order.
fn have_all<J: MachineBrand>(racers: &[Racer<J>]) -> bool {
    for racer in racers {
        if racer.answered == 0 || !racer.well {
            return false;
        }
    }
    true
}

/// How many events of each kind of an operator a history has.
fn kinds_of(history: &History<'_>) -> [u64; KINDS] {
    let mut kinds = [0u64; KINDS];
    for number in 0..history.len() {
        let Some(entry) = history.get(number) else {
            return [0; KINDS];
        };
        if let Some(kind) = kind_of(&entry.event) {
            if let Some(count) = kinds.get_mut(kind) {
                *count = count.saturating_add(1);
            }
        }
    }
    kinds
}

/// Whether a history has many events of each kind of an operator.
pub fn has_been_disturbed(history: &History<'_>) -> bool {
    for count in kinds_of(history) {
        if count < LEAST {
            return false;
        }
    }
    true
}

/// All racers work, each on a thread of its own, until there are entries enough, and each of them has one. Then each log is what the
/// history has of it, all entries are counted, none is lost, and a fresh subsystem answers them in the same way.
pub fn crowds<J: MachineBrand + Send + Sync, R: Threads + Wait + Sync>(
    rt: &R,
    machine: &Machine<J, Rotating>,
    racers: Vec<Racer<J>>,
) -> Option<Vec<Racer<J>>> {
    let done = Done::new();
    let worked = thread::map_vec(
        rt,
        racers,
        &|racer: Racer<J>| {
            let mut racer = racer;
            racer.works(rt, machine, &done);
            racer
        },
    );
    let racers = worked.ok()?;
    if have_all(racers.as_slice()) {
        Some(racers)
    } else {
        None
    }
}

#[test]
fn nothing_is_lost_in_a_crowd(rt: HostRuntime) {
    assert!(rt; goes(&rt, rt.alloc(), Scenario::Crowds));
}
