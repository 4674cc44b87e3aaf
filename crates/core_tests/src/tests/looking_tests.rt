//! A thread looks while another makes and clears statuses.

ghost use Rattle.std.specs.Prelude.{◌≡◌, None};

use crate::tests::machines::{WORD, accepts, accepts_all, enable, tsch};
use crate::tests::racers::{Racer, Task, add_racer};
use crate::tests::scenarios::{Scenario, goes};
use crate::tests::seats_tests::seen;
use chan_events::event::{Event, Instruction};
use chan_events::reply::Reply;
use chan_model::answer::Answer;
use chan_model::names::Cpu;
use core_lock::executing::CpuInstruction;
use core_lock::locked::{Core, Seat};
use core_lock::naming::MachineBrand;
use machine_lock::locked_machine::Machine;
use path_select::Rotating;
use std::alloc::Global;
use std::sync::Wait;
use std::thread;
use std::thread::Threads;

/// How many statuses are made and cleared.
const STATUSES: u64 = 1_000;

/// How often a thread looks at least; it goes on until it saw half of the statuses cleared.
const LOOKS: u64 = 10_000;

/// How often it looks at most.
const PATIENCE: u64 = 1_000_000_000;

/// Makes a status by CLEAR SUBCHANNEL, of which no path tells the unit, and clears it.
fn makes<J: MachineBrand, R: Wait>(
    rt: &R,
    machine: &Machine<J, Rotating>,
    seat: &mut Seat<J>,
    cpu: Cpu,
) -> bool
    requires { seat.old.value.owed ≡ None }
    ensures { seat.new.value.owed ≡ None }
{
    let csch = CpuInstruction::OnSubchannel(Instruction::Csch { subchannel: WORD });
    let asked = machine.instruct(rt, seat, cpu, csch).is_ok();
    let chosen = machine.path_worker(rt, seat, 0x10, 1);
    let tested = machine.instruct(rt, seat, cpu, CpuInstruction::OnSubchannel(tsch(WORD)));
    asked
        && chosen == 1
        && matches!(
            &tested,
            Ok(Reply::Status {
                answer: Answer::Zero(_),
                ..
            })
        )
}

/// Makes and clears all statuses.
fn makes_all<J: MachineBrand, R: Wait>(
    rt: &R,
    machine: &Machine<J, Rotating>,
    racer: &mut Racer<J>,
) -> bool {
    let Some(cpu) = Cpu::new(0) else {
        return false;
    };
    for _status in 0..STATUSES {
        if !makes(rt, machine, &mut racer.seat, cpu) {
            return false;
        }
    }
    true
}

/// Whether nothing falls between one look and the next, and no status is seen cleared that is not seen made.
fn never_falls<J: MachineBrand>(racer: &mut Racer<J>) -> bool {
    let mut last = (0, 0);
    for look in 0..PATIENCE {
        let Some(now) = seen(&mut racer.seat) else {
            return false;
        };
        if now.0 < last.0 || now.1 < last.1 || now.0 < now.1 {
            return false;
        }
        if look >= LOOKS && now.1 >= STATUSES / 2 {
            return true;
        }
        last = now;
    }
    false
}

/// Whether all that a racer does comes out as it must: one looks, and the other makes and clears.
fn goes_well<J: MachineBrand, R: Wait>(
    rt: &R,
    machine: &Machine<J, Rotating>,
    racer: &mut Racer<J>,
) -> bool {
    if let Task::Looks = &racer.task {
        never_falls(racer)
    } else {
        makes_all(rt, machine, racer)
    }
}

/// The subchannel is enabled, and its path goes down.
fn begins<J: MachineBrand>(core: &mut Core<J, Rotating>, seat: &mut Seat<J>) -> bool {
    let Some(cpu) = Cpu::new(0) else {
        return false;
    };
    accepts(core, seat, cpu, &[enable(WORD, false)])
        && accepts_all(core, seat, &[Event::PathDown { chpid: 0x10 }])
}

/// That is entered, and there are a racer that makes statuses and one that looks.
pub fn begins_looks<J: MachineBrand>(
    core: &mut Core<J, Rotating>,
    first: &mut Seat<J>,
    racers: &mut Vec<Racer<J>>,
) -> bool {
    begins(core, first)
        && add_racer(core, racers, Task::Path(0x10))
        && add_racer(core, racers, Task::Looks)
}

/// Whether all went well with a racer, and it sees all statuses made and cleared.
fn has_seen<J: MachineBrand>(racer: Option<&mut Racer<J>>) -> bool {
    match racer {
        Some(racer) => racer.well && seen(&mut racer.seat) == Some((STATUSES, STATUSES)),
        None => false,
    }
}

/// Whether that holds of both.
fn have_seen<J: MachineBrand>(racers: &mut Vec<Racer<J>>) -> bool {
    has_seen(racers.get_mut(0)) && has_seen(racers.get_mut(1))
}

/// One thread makes and clears statuses, and another looks: they, where both went well and see all statuses in the end.
pub fn looks<J: MachineBrand + Send + Sync, R: Threads + Wait + Sync>(
    rt: &R,
    machine: &Machine<J, Rotating>,
    racers: Vec<Racer<J>>,
) -> Option<Vec<Racer<J>>> {
    let worked = thread::map_vec(
        rt,
        racers,
        &|racer: Racer<J>| {
            let mut racer = racer;
            racer.well = goes_well(rt, machine, &mut racer);
            racer
        },
    );
    let mut racers = worked.ok()?;
    if have_seen(&mut racers) {
        Some(racers)
    } else {
        None
    }
}

/// Whether all entries are there in the end: two at the beginning, and three for each status.
pub fn has_made(entries: Option<u64>) -> bool {
    entries == Some(2 + 3 * STATUSES)
}

#[test]
fn nothing_falls_while_another_makes_and_clears(rt: HostRuntime) {
    assert!(rt; goes(&rt, rt.alloc(), Scenario::Looks));
}
