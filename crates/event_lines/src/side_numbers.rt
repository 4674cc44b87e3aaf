//! The number of each side of a unit.

ghost use Rattle.std.specs.Prelude.{◌≡◌};
ghost use Rattle.event_lines.specs.Sides as spec;

use chan_model::names::Side;

/// The number of a side.
pub fn side_number(side: Side) -> u32
    ensures { result ≡ spec.side_number side }
{
    match side {
        Side::First => 0,
        Side::Second => 1,
    }
}

/// The side of a number.
pub fn side_numbered(number: u32) -> Option<Side>
    ensures { result ≡ spec.side_numbered number }
{
    match number {
        0 => Some(Side::First),
        1 => Some(Side::Second),
        _ => None,
    }
}
