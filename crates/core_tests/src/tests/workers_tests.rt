//! Workers of eight channel paths and of a unit that roams bring a program to its end, on threads of their own.

use crate::tests::machines::{WORD, accepts, accepts_all, enable, loads, ssch, tsch};
use crate::tests::racers::{Racer, Task, add_racer, add_worker};
use crate::tests::scenarios::{Scenario, goes};
use chan_events::event::{Event, UnitAct};
use chan_events::reply::Reply;
use chan_model::answer::Answer;
use chan_model::names::Cpu;
use core_lock::executing::CpuInstruction;
use core_lock::gate::Open;
use core_lock::locked::{Core, Seat};
use core_lock::naming::MachineBrand;
use event_log::history::History;
use machine_lock::locked_machine::Machine;
use path_select::Rotating;
use scsw_irb::scsw::Scsw;
use std::alloc::Global;
use std::sync::Wait;
use std::thread;
use std::thread::Threads;

/// How many turns a worker takes in a round, and how many rounds there are at most.
const TURNS: u64 = 20;

const ROUNDS: u64 = 1_000;

/// The status that is due: key 0, format 1, start function; primary and secondary status pending; the address after the
/// command; channel end and device end; no byte left.
const STATUS: [u32; 3] = [0x0080_4007, 0x0000_1008, 0x0C00_0000];

/// A write command of four bytes is started, in multipath mode.
fn starts<J: MachineBrand>(core: &mut Core<J, Rotating>, seat: &mut Seat<J>) -> bool {
    let Some(cpu) = Cpu::new(0) else {
        return false;
    };
    accepts_all(core, seat, &loads()) && accepts(core, seat, cpu, &[enable(WORD, true), ssch(WORD)])
}

/// That is entered, and there are workers of the eight paths and of the unit.
pub fn begins_work<J: MachineBrand>(
    alloc: Global,
    core: &mut Core<J, Rotating>,
    program: &mut Seat<J>,
    racers: &mut Vec<Racer<J>>,
) -> bool {
    if !starts(core, program) {
        return false;
    }
    for path in 0..8u8 {
        if !add_racer(core, racers, Task::Path(0x10 + path)) {
            return false;
        }
    }
    add_worker(alloc, core, racers, 0, 1)
}

/// Whether a status is the one that is due.
fn is_due(scsw: &Scsw, due: &[u32; 3]) -> bool {
    let words = scsw.words();
    words == *due
}

/// Whether the status that TEST SUBCHANNEL clears is the one that is due; None where it answers another code.
pub fn cleared<J: MachineBrand, R: Wait>(
    rt: &R,
    machine: &Machine<J, Rotating>,
    program: &mut Seat<J>,
    due: &[u32; 3],
) -> Option<bool> {
    let cpu = Cpu::new(0)?;
    let tested = machine.instruct(rt, program, cpu, CpuInstruction::OnSubchannel(tsch(WORD)));
    match &tested {
        Ok(
            Reply::Status {
                answer: Answer::Zero(_),
                scsw,
            },
        ) => Some(is_due(scsw, due)),
        _ => None,
    }
}

/// A round of all racers, each on a thread of its own.
fn round<J: MachineBrand + Send + Sync, R: Threads + Wait + Sync>(
    rt: &R,
    machine: &Machine<J, Rotating>,
    racers: Vec<Racer<J>>,
) -> Option<Vec<Racer<J>>> {
    let worked = thread::map_vec(
        rt,
        racers,
        &|racer: Racer<J>| {
            let mut racer = racer;
            let _ = racer.turns(rt, machine, &Open, true, TURNS);
            racer
        },
    );
    worked.ok()
}

/// Rounds until the program has ended, with the status that is due.
pub fn roams<J: MachineBrand + Send + Sync, R: Threads + Wait + Sync>(
    rt: &R,
    machine: &Machine<J, Rotating>,
    program: &mut Seat<J>,
    racers: Vec<Racer<J>>,
) -> Option<Vec<Racer<J>>> {
    let mut racers = racers;
    for _round in 0..ROUNDS {
        racers = round(rt, machine, racers)?;
        if let Some(due) = cleared(rt, machine, program, &STATUS) {
            return if due { Some(racers) } else { None };
        }
    }
    None
}

/// What an event says of the path of a unit.
#[derive(Clone, Copy)]
enum Move {
    Leaves,
    Asks,
    Neither,
}

/// What that of an entry says.
fn move_at(history: &History<'_>, number: usize) -> Option<Move> {
    let entry = history.get(number)?;
    match &entry.event {
        Event::Act {
            act: UnitAct::Leave,
            ..
        } => Some(Move::Leaves),
        Event::Act {
            act: UnitAct::Ask { .. },
            ..
        } => Some(Move::Asks),
        _ => Some(Move::Neither),
    }
}

/// Whether the unit left its path and asked for one.
pub fn has_roamed(history: &History<'_>) -> bool {
    let mut left = false;
    for number in 0..history.len() {
        match move_at(history, number) {
            Some(Move::Leaves) => left = true,
            Some(Move::Asks) => return left,
            Some(Move::Neither) => {}
            None => return false,
        }
    }
    false
}

#[test]
fn workers_bring_a_program_to_its_end(rt: HostRuntime) {
    assert!(rt; goes(&rt, rt.alloc(), Scenario::Roams));
}
