//! Seats at work, each on a thread of its own.

ghost use Rattle.std.specs.Prelude.{◌≡◌, None};

use chan_model::names::Cpu;
use channel_config::parts::UnitKind;
use core_lock::gate::Gate;
use core_lock::locked::{Core, Seat};
use core_lock::naming::MachineBrand;
use device_models::any_device::AnyDevice;
use machine_lock::locked_machine::Machine;
use path_select::Rotating;
use std::alloc::{AllocError, Global};
use std::sync::Wait;

/// What a thread does.
#[derive(Drop)]
pub enum Task {
    /// Instructions of a CPU.
    Program(Cpu),
    /// Turns of the worker of a channel path.
    Path(u8),
    /// Turns of the workers of units, from this one on, each with its device.
    Units { first: u32, devices: Vec<AnyDevice> },
    /// Looks at the serials of a subchannel.
    Looks,
    /// Paths that go down and come up, units that are restarted, and attentions.
    Operator,
}

/// A seat that owes no call, and what it is for.
#[derive(Drop)]
pub struct Racer<J: MachineBrand> {
    pub seat: Seat<J>,
    pub task: Task,
    /// How many entries were answered to it.
    pub answered: u64,
    /// Whether all that it did came out as it must.
    pub well: bool,
    ghost rests: { seat.value.owed ≡ None },
}

/// The devices of so many units, each a store of blocks.
fn stores(alloc: Global, count: usize) -> Result<Vec<AnyDevice>, AllocError> {
    let mut devices = Vec::new(alloc);
    for _device in 0..count {
        devices.push(AnyDevice::of(UnitKind::Block))?;
    }
    Ok(devices)
}

/// One racer more, with this seat.
fn hold<J: MachineBrand>(racers: &mut Vec<Racer<J>>, seat: Seat<J>, task: Task) -> bool
    requires { seat.value.owed ≡ None }
{
    let racer = Racer {
        seat,
        task,
        answered: 0,
        well: true,
    };
    racers.push(racer).is_ok()
}

/// One racer more, with a seat of its own.
pub fn add_racer<J: MachineBrand>(
    core: &mut Core<J, Rotating>,
    racers: &mut Vec<Racer<J>>,
    task: Task,
) -> bool {
    match core.seat() {
        Ok(seat) => hold(racers, seat, task),
        Err(_) => false,
    }
}

/// The worker of so many units, from this one on, with a seat of its own.
pub fn add_worker<J: MachineBrand>(
    alloc: Global,
    core: &mut Core<J, Rotating>,
    racers: &mut Vec<Racer<J>>,
    first: u32,
    count: u32,
) -> bool {
    match stores(alloc, count as usize) {
        Ok(devices) => add_racer(core, racers, Task::Units { first, devices }),
        Err(_) => false,
    }
}

/// What the workers of units are to do: from which unit on, whether the units leave their paths, and how many turns.
#[derive(Clone, Copy)]
struct Shift {
    first: u32,
    roam: bool,
    turns: u64,
}

impl<J: MachineBrand> Racer<J> {
    /// Its seat.
    fn into_seat(self) -> Seat<J> {
        let Racer {
            seat,
            task: _,
            answered: _,
            well: _,
        } = self;
        seat
    }

    /// So many turns of each worker that it has: how many entries they added.
    pub fn turns<G: Gate, R: Wait>(
        &mut self,
        rt: &R,
        machine: &Machine<J, Rotating>,
        gate: &G,
        roam: bool,
        turns: u64,
    ) -> u64 {
        match &mut self.task {
            Task::Program(_) | Task::Looks | Task::Operator => 0,
            Task::Path(chpid) => machine.path_worker(rt, &mut self.seat, *chpid, turns),
            Task::Units { first, devices } => {
                let shift = Shift {
                    first: *first,
                    roam,
                    turns,
                };
                unit_turns(rt, machine, &mut self.seat, devices, gate, shift)
            }
        }
    }
}

/// So many turns of the worker of each of these units.
fn unit_turns<J: MachineBrand, G: Gate, R: Wait>(
    rt: &R,
    machine: &Machine<J, Rotating>,
    seat: &mut Seat<J>,
    devices: &mut Vec<AnyDevice>,
    gate: &G,
    shift: Shift,
) -> u64
    requires { seat.old.value.owed ≡ None }
    ensures { seat.new.value.owed ≡ None }
{
    let mut added = 0u64;
    let mut unit = shift.first;
    for index in 0..devices.len() {
        let device = &mut devices[index];
        let more = machine.device_worker(rt, seat, unit, device, gate, shift.roam, shift.turns);
        added = added.saturating_add(more);
        unit = unit.saturating_add(1);
    }
    added
}

/// This seat, and those of these racers.
pub fn seats_of<J: MachineBrand>(
    alloc: Global,
    first: Seat<J>,
    racers: Vec<Racer<J>>,
) -> Result<Vec<Seat<J>>, AllocError> {
    let mut seats = Vec::new(alloc);
    seats.push(first)?;
    for racer in racers {
        seats.push(racer.into_seat())?;
    }
    Ok(seats)
}
