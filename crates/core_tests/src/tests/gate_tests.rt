//! A device is called outside the lock: calls of two devices meet.

use crate::tests::machines::{accepts, accepts_all, enable, loads, ssch, word_of};
use crate::tests::racers::{Racer, add_worker};
use crate::tests::scenarios::{Scenario, goes};
use chan_events::event::Event;
use chan_model::names::Cpu;
use core_lock::gate::Gate;
use core_lock::locked::{Core, Seat};
use core_lock::naming::MachineBrand;
use crossbeam_utils::Backoff;
use machine_lock::locked_machine::Machine;
use path_select::Rotating;
use std::alloc::Global;
use std::sync::Wait;
use std::sync::atomic::{AtomicU64, Ordering};
use std::thread;
use std::thread::Threads;

/// How many turns a worker takes: one for the command, one for the call.
const TURNS: u64 = 4;

/// How often a call looks for the other one before it goes on alone.
const PATIENCE: u64 = 20_000_000;

/// A gate at which the first calls of two seats wait for each other.
#[derive(Drop)]
struct Meeting {
    came: AtomicU64,
    met: AtomicU64,
}

impl Meeting {
    /// Whether the other one came, while this one waits.
    fn meets(&self) -> bool {
        let backoff = Backoff::new();
        for _look in 0..PATIENCE {
            if self.came.load(Ordering::SeqCst) >= 2 {
                return true;
            }
            backoff.snooze();
        }
        false
    }
}

impl Gate for Meeting {
    ghost passes = { λ _ _ _. Unit {0} };

    fn pass(&self, _unit: u32, call: u64) {
        if call != 1 {
            return;
        }
        self.came.fetch_add(1, Ordering::SeqCst);
        if self.meets() {
            self.met.fetch_add(1, Ordering::SeqCst);
        }
    }
}

/// A program is begun at a subchannel, until its unit has a command to take.
pub fn begins<J: MachineBrand>(
    core: &mut Core<J, Rotating>,
    seat: &mut Seat<J>,
    subchannel: u32,
) -> bool {
    let Some(cpu) = Cpu::new(0) else {
        return false;
    };
    let path = 0;
    let events = [
        Event::Choose { subchannel },
        Event::Down { subchannel, path },
        Event::Up { subchannel, path },
    ];
    accepts(
        core,
        seat,
        cpu,
        &[enable(subchannel, false), ssch(subchannel)],
    ) && accepts_all(core, seat, &events)
}

/// Programs are begun at both subchannels, and both units have a worker.
pub fn begins_both<J: MachineBrand>(
    alloc: Global,
    core: &mut Core<J, Rotating>,
    program: &mut Seat<J>,
    racers: &mut Vec<Racer<J>>,
) -> bool {
    accepts_all(core, program, &loads())
        && begins(core, program, word_of(0))
        && begins(core, program, word_of(1))
        && add_worker(alloc, core, racers, 0, 1)
        && add_worker(alloc, core, racers, 1, 1)
}

/// Two units have a command to take, and the first calls of their workers meet at the gate.
pub fn meets<J: MachineBrand + Send + Sync, R: Threads + Wait + Sync>(
    rt: &R,
    machine: &Machine<J, Rotating>,
    racers: Vec<Racer<J>>,
) -> Option<Vec<Racer<J>>> {
    let gate = Meeting {
        came: AtomicU64::new(0),
        met: AtomicU64::new(0),
    };
    let worked = thread::map_vec(
        rt,
        racers,
        &|racer: Racer<J>| {
            let mut racer = racer;
            let _ = racer.turns(rt, machine, &gate, false, TURNS);
            racer
        },
    );
    let met = gate.met.load(Ordering::SeqCst);
    if met == 2 { worked.ok() } else { None }
}

#[test]
fn two_calls_of_devices_run_at_once(rt: HostRuntime) {
    assert!(rt; goes(&rt, rt.alloc(), Scenario::Meets));
}
