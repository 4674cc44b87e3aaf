//! A device is called before a Reset, and its report is handed in after it: it is refused, and dropped.

ghost use Rattle.std.specs.Prelude.{◌≡◌, None};

use crate::tests::gate_tests::begins;
use crate::tests::machines::{WORD, accepts_all, loads, ssch};
use crate::tests::racers::{Racer, Task, add_racer, add_worker};
use crate::tests::scenarios::{Scenario, goes};
use crate::tests::workers_tests::{cleared, roams};
use chan_events::event::{Event, Instruction};
use chan_model::fault::Fault;
use chan_model::names::{Cpu, Side};
use chan_model::report::{DeviceAnswer, Report, Work};
use channel_config::parts::UnitKind;
use core_lock::executing::CpuInstruction;
use core_lock::gate::{Gate, Open};
use core_lock::locked::{Core, Seat};
use core_lock::naming::MachineBrand;
use crossbeam_utils::Backoff;
use device_models::any_device::AnyDevice;
use event_log::history::History;
use machine_lock::locked_machine::Machine;
use machine_model::state::UnitTurn;
use path_select::Rotating;
use std::alloc::Global;
use std::sync::Wait;
use std::sync::atomic::{AtomicU64, Ordering};
use std::thread;
use std::thread::Threads;

/// The channel path of the subchannel.
const CHPID: u8 = 0x10;

/// How many turns the unit's worker takes: one for the call, one for its report, and one that has nothing to do.
const TURNS: u64 = 3;

/// How often a thread looks whether the other one is so far, before it goes on alone.
const PATIENCE: u64 = 20_000_000;

/// The number of the program that is cleared.
const NUMBER: u64 = 1;

/// The status that is due of it: clear function, status pending, and nothing else.
const CLEARED: [u32; 3] = [0x0000_1001, 0, 0];

/// A gate at which the first call waits until a reset is done.
#[derive(Drop)]
struct Barrier {
    /// One as the call waits.
    reached: AtomicU64,
    /// One as the reset is done.
    reset: AtomicU64,
    /// One as the call went on after that.
    passed: AtomicU64,
}

/// Whether a sign is set, while a thread waits for it.
fn comes(sign: &AtomicU64) -> bool {
    let backoff = Backoff::new();
    for _look in 0..PATIENCE {
        if sign.load(Ordering::SeqCst) == 1 {
            return true;
        }
        backoff.snooze();
    }
    false
}

impl Gate for Barrier {
    ghost passes = { λ _ _ _. Unit {0} };

    fn pass(&self, _unit: u32, call: u64) {
        if call != 1 {
            return;
        }
        self.reached.store(1, Ordering::SeqCst);
        if comes(&self.reset) {
            self.passed.store(1, Ordering::SeqCst);
        }
    }
}

/// The report that is late: the device's initial status of the first command is empty.
fn late_report() -> Report {
    Report {
        side: Side::First,
        number: NUMBER,
        command: 1,
        sequence: 0,
        answer: DeviceAnswer::Begins,
    }
}

/// Whether the device is to be called, and its answer is of the command and the index of that report.
fn is_due<J: MachineBrand>(core: &Core<J, Rotating>) -> bool {
    let late = late_report();
    match core.subsystem().unit_turn(0) {
        Some(
            UnitTurn::Works(
                Work::Call {
                    side,
                    number,
                    command,
                    sequence,
                    ..
                },
            ),
        ) => {
            side.same(late.side)
                && number == late.number
                && command == late.command
                && sequence == late.sequence
        }
        _ => false,
    }
}

/// A program is begun, and its unit takes a command. There are a racer that resets, and the unit's worker.
pub fn begins_late<J: MachineBrand>(
    alloc: Global,
    core: &mut Core<J, Rotating>,
    program: &mut Seat<J>,
    racers: &mut Vec<Racer<J>>,
) -> bool {
    let take = Event::Down {
        subchannel: WORD,
        path: 0,
    };
    accepts_all(core, program, &loads())
        && begins(core, program, WORD)
        && accepts_all(core, program, &[take])
        && is_due(core)
        && add_racer(core, racers, Task::Path(CHPID))
        && add_worker(alloc, core, racers, 0, 1)
}

/// CLEAR SUBCHANNEL, and the Reset that it asks for: it is sent, the unit takes it, and the subchannel takes the answer. The
/// device is not called.
fn resets<J: MachineBrand, R: Wait>(
    rt: &R,
    machine: &Machine<J, Rotating>,
    seat: &mut Seat<J>,
) -> bool
    requires { seat.old.value.owed ≡ None }
    ensures { seat.new.value.owed ≡ None }
{
    let Some(cpu) = Cpu::new(0) else {
        return false;
    };
    let clear = CpuInstruction::OnSubchannel(Instruction::Csch { subchannel: WORD });
    let asked = machine.instruct(rt, seat, cpu, clear).is_ok();
    let sent = machine.path_worker(rt, seat, CHPID, 1);
    let mut device = AnyDevice::of(UnitKind::Block);
    let taken = machine.device_worker(rt, seat, 0, &mut device, &Open, false, 1);
    let answered = machine.path_worker(rt, seat, CHPID, 1);
    asked && sent == 1 && taken == 1 && answered == 1
}

impl<J: MachineBrand> Racer<J> {
    /// What it does: one resets while the call of the other waits, whose report then adds nothing. Whether that comes out so.
    fn goes_late<R: Wait>(
        &mut self,
        rt: &R,
        machine: &Machine<J, Rotating>,
        gate: &Barrier,
    ) -> bool {
        if let Task::Path(_) = &self.task {
            let reset = comes(&gate.reached) && resets(rt, machine, &mut self.seat);
            gate.reset.store(1, Ordering::SeqCst);
            return reset;
        }
        let added = self.turns(rt, machine, gate, false, TURNS);
        added == 0 && !self.seat.owes()
    }
}

/// Whether all went well with these racers.
fn are_well<J: MachineBrand>(racers: &[Racer<J>]) -> bool {
    for racer in racers {
        if !racer.well {
            return false;
        }
    }
    true
}

/// Whether the status of the clear function is there, and a program is started again.
fn starts_again<J: MachineBrand, R: Wait>(
    rt: &R,
    machine: &Machine<J, Rotating>,
    program: &mut Seat<J>,
) -> bool {
    let Some(cpu) = Cpu::new(0) else {
        return false;
    };
    let status = cleared(rt, machine, program, &CLEARED);
    let start = CpuInstruction::OnSubchannel(ssch(WORD));
    let started = machine.instruct(rt, program, cpu, start).is_ok();
    status == Some(true) && started
}

/// Whether the call went on after the reset, all went well with the racers, and a program is started again.
fn is_stale<J: MachineBrand, R: Wait>(
    rt: &R,
    machine: &Machine<J, Rotating>,
    gate: &Barrier,
    program: &mut Seat<J>,
    racers: &[Racer<J>],
) -> bool {
    let passed = gate.passed.load(Ordering::SeqCst) == 1;
    passed && are_well(racers) && starts_again(rt, machine, program)
}

/// One thread resets while the call of a device waits at the gate on another; its report is handed in after it, and adds
/// nothing. Then the subchannel is as after any clear, and a program that is started there goes through to its end.
pub fn comes_late<J: MachineBrand + Send + Sync, R: Threads + Wait + Sync>(
    rt: &R,
    machine: &Machine<J, Rotating>,
    program: &mut Seat<J>,
    racers: Vec<Racer<J>>,
) -> Option<Vec<Racer<J>>> {
    let gate = Barrier {
        reached: AtomicU64::new(0),
        reset: AtomicU64::new(0),
        passed: AtomicU64::new(0),
    };
    let worked = thread::map_vec(
        rt,
        racers,
        &|racer: Racer<J>| {
            let mut racer = racer;
            racer.well = racer.goes_late(rt, machine, &gate);
            racer
        },
    );
    let racers = worked.ok()?;
    if is_stale(rt, machine, &gate, program, racers.as_slice()) {
        roams(rt, machine, program, racers)
    } else {
        None
    }
}

/// The number of the program whose report an event is.
fn number_of(event: &Event) -> Option<u64> {
    match event {
        Event::Report { report, .. } => Some(report.number),
        _ => None,
    }
}

/// That of an entry, if it is one; None where there is no entry.
fn number_at(history: &History<'_>, index: usize) -> Option<Option<u64>> {
    let entry = history.get(index)?;
    Some(number_of(&entry.event))
}

/// Whether a history has reports, and none of the program that was cleared.
pub fn has_dropped(history: &History<'_>) -> bool {
    let mut reported = false;
    for index in 0..history.len() {
        match number_at(history, index) {
            None | Some(Some(NUMBER)) => return false,
            Some(Some(_)) => reported = true,
            Some(None) => {}
        }
    }
    reported
}

/// Whether that report, which is entered once more, is refused `NotNow`, which is 7, and adds nothing. A worker does not tell why
/// its report was refused.
pub fn is_refused<J: MachineBrand>(core: &mut Core<J, Rotating>, seat: &mut Seat<J>) -> bool {
    let before = core.subsystem().history().len();
    let report = late_report();
    let refusal = core.enter(seat, Event::Report { unit: 0, report }).err();
    let after = core.subsystem().history().len();
    matches!(refusal, Some(Fault::NotNow)) && before == after
}

#[test]
fn a_report_is_refused_after_a_reset_and_dropped(rt: HostRuntime) {
    assert!(rt; goes(&rt, rt.alloc(), Scenario::ComesLate));
}
