//! The parts of a unit's state that its tables speak of.

ghost use Rattle.std.specs.Prelude.{◌≡◌, ◌==◌, ◌+◌};
ghost use Rattle.chan_model.specs.UnitTable as table;

use chan_model::lent::PlainUp;
use chan_model::names::{Path, Side};
use chan_model::signal::{OnPath, Taken};
use chan_model::unit_state::{Connection, Own, SideState, UnitState};

/// What came of a signal; none of those that the unit answers with has bytes.
pub type Outcome = Taken<PlainUp>;

/// What the unit sends of itself; it has no bytes.
pub type Sent = Option<OnPath<PlainUp>>;

/// What is kept of a side.
pub fn side_of(unit: &UnitState, side: Side) -> SideState
    ensures { result ≡ table.side_of unit.now side }
{
    match side {
        Side::First => unit.first,
        Side::Second => unit.second,
    }
}

/// This is kept of a side from now on.
pub fn keep_side(unit: &mut UnitState, side: Side, kept: SideState)
    ensures { unit.new ≡ table.with_side unit.old side kept }
{
    match side {
        Side::First => unit.first = kept,
        Side::Second => unit.second = kept,
    }
}

/// Whether the device is held by the program of this side and number.
pub fn is_owner(unit: &UnitState, side: Side, number: u64) -> bool
    ensures { result ≡ table.is_owner unit.now.own side number }
{
    match unit.own {
        Own::Idle => false,
        Own::Owned {
            side: owner,
            number: held,
            ..
        } => owner.same(side) && number == held,
    }
}

/// Whether that program is connected by this connection.
pub fn is_owner_on(unit: &UnitState, side: Side, number: u64, connection: u64) -> bool
    ensures { result ≡ table.is_owner_on unit.now.own side number connection }
{
    match unit.own {
        Own::Idle => false,
        Own::Owned {
            side: owner,
            number: held,
            connection: own_connection,
        } => owner.same(side) && number == held && is_connected_on(own_connection, connection),
    }
}

/// Whether a connection is on a path by this connection.
fn is_connected_on(own_connection: Connection, connection: u64) -> bool
    ensures { result ≡ table.is_connected_on own_connection connection }
{
    match own_connection {
        Connection::On {
            connection: last,
            ..
        } => connection == last,
        _ => false,
    }
}

/// Whether the device is held by a program of this side.
pub fn owns(unit: &UnitState, side: Side) -> bool
    ensures { result ≡ table.owns unit.now.own side }
{
    match unit.own {
        Own::Idle => false,
        Own::Owned { side: owner, .. } => owner.same(side),
    }
}

/// The device is let go, and its command forgotten.
pub fn free(unit: &mut UnitState)
    ensures { unit.new ≡ table.freed unit.old }
{
    unit.own = Own::Idle;
    unit.last_command = 0;
    if unit.current.is_some() {
        unit.current = None;
    }
    unit.halted = false;
}

/// Whether a number is the next after the last.
pub fn follows(number: u64, last: u64) -> bool
    ensures { result ≡ (number == last + 1) }
{
    number > last && number - last == 1
}
