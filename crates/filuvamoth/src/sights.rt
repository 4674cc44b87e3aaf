//! Looks at the holds, the programs, the units and the wires of a machine: no event, and nothing changes. What is not there is refused,
//! and then what is told stays as it was.

ghost use Rattle.filuvamoth.specs.Calls.{FindsAt};
ghost use Rattle.host_sight.specs.Sights as spec;

use crate::calls::CLOSED;
use crate::handle::Handle;
use host_sight::holds::HostHold;
use host_sight::programs::HostPrograms;
use host_sight::signals::HostSignal;
use host_sight::units::HostUnit;
use host_sight::waiting::HostWires;
use std::alloc::Global;

/// What the subsystem takes the device of a subchannel to be held by.
#[unsafe(no_mangle)]
pub extern "C" fn fm_hold(
    alloc: Global,
    handle: &mut Handle,
    subchannel: u32,
    hold: &mut HostHold,
) -> i32
    ensures { FindsAt (λ s. spec.hold_at s subchannel) handle.old.held.inside result handle.new.held.inside hold.old hold.new }
{
    match handle.take(alloc) {
        None => CLOSED,
        Some(inside) => {
            let number = inside.hold(subchannel, hold);
            handle.put(inside);
            number
        }
    }
}

/// The programs of a subchannel, each by the number of its start; 0 where there is none.
#[unsafe(no_mangle)]
pub extern "C" fn fm_programs(
    alloc: Global,
    handle: &mut Handle,
    subchannel: u32,
    programs: &mut HostPrograms,
) -> i32
    ensures { FindsAt (λ s. spec.programs_at s subchannel) handle.old.held.inside result handle.new.held.inside programs.old programs.new }
{
    match handle.take(alloc) {
        None => CLOSED,
        Some(inside) => {
            let number = inside.programs(subchannel, programs);
            handle.put(inside);
            number
        }
    }
}

/// What a unit remembers.
#[unsafe(no_mangle)]
pub extern "C" fn fm_unit_state(
    alloc: Global,
    handle: &mut Handle,
    unit: u32,
    remembered: &mut HostUnit,
) -> i32
    ensures { FindsAt (λ s. spec.unit_at s «unit») handle.old.held.inside result handle.new.held.inside remembered.old remembered.new }
{
    match handle.take(alloc) {
        None => CLOSED,
        Some(inside) => {
            let number = inside.unit(unit, remembered);
            handle.put(inside);
            number
        }
    }
}

/// How many signals wait on the wires of a subchannel, each way on each of eight paths.
#[unsafe(no_mangle)]
pub extern "C" fn fm_wires(
    alloc: Global,
    handle: &mut Handle,
    subchannel: u32,
    wires: &mut HostWires,
) -> i32
    ensures { FindsAt (λ s. spec.wires_at s subchannel) handle.old.held.inside result handle.new.held.inside wires.old wires.new }
{
    match handle.take(alloc) {
        None => CLOSED,
        Some(inside) => {
            let number = inside.wires(subchannel, wires);
            handle.put(inside);
            number
        }
    }
}

/// The signal at an index of the wire down of a path of a subchannel, 0 for that which `fm_down` takes.
#[unsafe(no_mangle)]
pub extern "C" fn fm_signal_down(
    alloc: Global,
    handle: &mut Handle,
    subchannel: u32,
    path: u32,
    index: u32,
    signal: &mut HostSignal,
) -> i32
    ensures { FindsAt (λ s. spec.down_at s subchannel path index) handle.old.held.inside result handle.new.held.inside signal.old signal.new }
{
    match handle.take(alloc) {
        None => CLOSED,
        Some(inside) => {
            let number = inside.signal_down(subchannel, path, index, signal);
            handle.put(inside);
            number
        }
    }
}

/// The signal at an index of the wire up of a path of a subchannel, 0 for that which `fm_up` takes.
#[unsafe(no_mangle)]
pub extern "C" fn fm_signal_up(
    alloc: Global,
    handle: &mut Handle,
    subchannel: u32,
    path: u32,
    index: u32,
    signal: &mut HostSignal,
) -> i32
    ensures { FindsAt (λ s. spec.up_at s subchannel path index) handle.old.held.inside result handle.new.held.inside signal.old signal.new }
{
    match handle.take(alloc) {
        None => CLOSED,
        Some(inside) => {
            let number = inside.signal_up(subchannel, path, index, signal);
            handle.put(inside);
            number
        }
    }
}
