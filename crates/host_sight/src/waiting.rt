//! How many signals wait on the wires of a subchannel.

ghost use Rattle.std.specs.Prelude.{◌≡◌, ◌<◌};
ghost use Rattle.host_sight.specs.Waiting as spec;

use chan_model::names::Path;
use wires::Wires;

/// How many signals wait on the wires of a subchannel, 0 to 8 on each, by the index of the path.
#[repr(C)]
#[derive(Clone, Copy)]
pub struct HostWires {
    /// To the unit.
    pub down: [u32; 8],
    /// To the subsystem.
    pub up: [u32; 8],
}

/// How many wait on the wire down of a path.
fn count_down(wires: &Wires, path: Path) -> u32
    ensures { result ≡ spec.count_on wires.now.down path }
{
    if wires.down_is_full(path) {
        return 8;
    }
    for index in 0..8usize {
        if wires.down_at(path, index).is_none() {
            return index as u32;
        }
    }
    8
}

/// How many wait on the wire up of a path.
fn count_up(wires: &Wires, path: Path) -> u32
    ensures { result ≡ spec.count_on wires.now.up path }
{
    if wires.up_is_full(path) {
        return 8;
    }
    for index in 0..8usize {
        if wires.up_at(path, index).is_none() {
            return index as u32;
        }
    }
    8
}

/// The same of the path of an index.
fn down_on(wires: &Wires, index: u32) -> u32
    requires { index < 8 }
    ensures { result ≡ spec.count_on wires.now.down index }
{
    match Path::new(index) {
        None => 0,
        Some(path) => count_down(wires, path),
    }
}

/// The same of the path of an index.
fn up_on(wires: &Wires, index: u32) -> u32
    requires { index < 8 }
    ensures { result ≡ spec.count_on wires.now.up index }
{
    match Path::new(index) {
        None => 0,
        Some(path) => count_up(wires, path),
    }
}

impl HostWires {
    /// How many wait on these wires.
    pub fn of(wires: &Wires) -> HostWires
        ensures { result ≡ spec.wires_told wires.now }
    {
        HostWires {
            down: [
                down_on(wires, 0),
                down_on(wires, 1),
                down_on(wires, 2),
                down_on(wires, 3),
                down_on(wires, 4),
                down_on(wires, 5),
                down_on(wires, 6),
                down_on(wires, 7),
            ],
            up: [
                up_on(wires, 0),
                up_on(wires, 1),
                up_on(wires, 2),
                up_on(wires, 3),
                up_on(wires, 4),
                up_on(wires, 5),
                up_on(wires, 6),
                up_on(wires, 7),
            ],
        }
    }
}
