//! What a device is told of the path by which its command came.

use chan_model::lent::{PlainDown, PlainUp};
use chan_model::names::{Path, Side};
use chan_model::report::{Call, Work};
use chan_model::signal::{Down, OnPath, Up};
use chan_model::unit_state::{Connection, Own};
use unit::Unit;

/// The first program of a side is offered.
fn met_select() -> PlainDown {
    PlainDown::of(Down::Select { number: 1 })
}

/// Whether Select is answered by Accept.
fn is_accepted(unit: &mut Unit, path: Path) -> bool {
    let accept = unit
        .take(Side::First, path, &met_select().lend(), true)
        .sent;
    matches!(
        &accept,
        Some(OnPath {
            signal: PlainUp {
                kept: Up::Accept { number: 1 },
                ..
            },
            ..
        })
    )
}

/// Whether the unit takes a signal of a side that came by this path.
fn takes(unit: &mut Unit, side: Side, path: Path, signal: PlainDown) -> bool {
    unit.take(side, path, &signal.lend(), true).taken
}

/// Whether the unit asks for this path, while its connections have small numbers.
fn asks(unit: &mut Unit, path: Path) -> bool {
    let Own::Owned { connection, .. } = unit.own() else {
        return false;
    };
    let Connection::Away { connection } = connection else {
        return false;
    };
    connection < 8 && unit.ask(path).is_some()
}

/// Whether the unit leaves its path and comes back on another, by its connection of this number.
fn comes_back(unit: &mut Unit, path: Path, connection: u64) -> bool {
    let left = unit.leave().is_some();
    let asked = asks(unit, path);
    let grant = PlainDown::of(Down::Grant {
        number: 1,
        connection,
    });
    left && asked && takes(unit, Side::Second, path, grant)
}

/// The path by which the command came that the device is to begin: its side, and its index.
fn came_by(unit: &Unit) -> Option<(Side, usize)> {
    let work = unit.work();
    match &work {
        Some(
            Work::Call {
                call: Call::Initial { came_by, .. },
                ..
            },
        ) => Some((came_by.side, came_by.path.index())),
        _ => None,
    }
}

/// Whether the device is told the path by which its command came, and not that by which the program was offered or that on which it
/// begins; nor the side of the program before.
fn tells_path(unit: &mut Unit) -> bool {
    let offered_on = Path::new(0).unwrap();
    let commanded_on = Path::new(2).unwrap();
    let release = PlainDown::of(Down::Release { number: 1 });
    let command = PlainDown::of(Down::Command {
        number: 1,
        command: 1,
        code: 1,
        room: 0,
    });
    let accepted = is_accepted(unit, offered_on);
    let released = takes(unit, Side::First, offered_on, release);
    let selected = takes(unit, Side::Second, offered_on, met_select());
    let back = comes_back(unit, commanded_on, 1);
    let commanded = takes(unit, Side::Second, commanded_on, command);
    let at_once = came_by(unit) == Some((Side::Second, 2));
    let away = comes_back(unit, Path::new(5).unwrap(), 2);
    let still = came_by(unit) == Some((Side::Second, 2));
    accepted && released && selected && back && commanded && at_once && away && still
}

#[test]
fn a_device_is_told_by_which_path_its_command_came(rt: HostRuntime) {
    let told = tells_path(&mut Unit::new());
    assert!(rt; told);
}
