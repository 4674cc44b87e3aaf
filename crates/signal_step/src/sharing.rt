//! What a unit does with a signal, its control unit being asked and told.

ghost use Rattle.std.specs.Prelude.{◌≡◌, ◌&&◌, not, true};
ghost use Rattle.std.specs.Bool.{OnTrue};
ghost use Rattle.chan_model.specs.UnitTable as unit_spec;
ghost use Rattle.control_units.specs.Units as members_spec;
ghost use Rattle.machine_model.specs.Bounds.{CanUnitCount};
ghost use Rattle.machine_model.specs.Sharing as spec;
ghost use Rattle.signal_step.specs.Giving as giving_spec;
ghost use Rattle.chan_model.specs.Lent.{lent_down, plain_up};
ghost use Rattle.chan_model.specs.Signals.{map_taken};

use chan_model::lent::{LentDown, PlainUp};
use chan_model::names::{Path, Side};
use chan_model::signal::{Down, Taken};
use chan_model::unit_state::{Own, SideState, UnitState};
use control_units::ControlUnit;
use control_units::sharing::Sharing;
use unit::Unit;

/// What is kept of a side of a unit.
pub fn side_of(unit: &UnitState, side: Side) -> SideState
    ensures { result ≡ unit_spec.side_of «unit».now side }
{
    match side {
        Side::First => unit.first,
        Side::Second => unit.second,
    }
}

/// Whether the control unit is asked for a signal: a Select above the floor, at a side that is not fresh, where no program
/// holds the device.
fn is_asked_for(unit: &UnitState, side: Side, signal: &LentDown<'_>) -> bool
    ensures asked { result ≡ spec.is_asked_for «unit».now side (lent_down signal.now) }
    ensures idle { OnTrue result (unit_spec.is_idle «unit».now.own ≡ true) }
{
    match *signal.kept {
        Down::Select { number } => {
            let kept = side_of(unit, side);
            !kept.fresh && kept.floor < number && matches!(unit.own, Own::Idle)
        }
        _ => false,
    }
}

/// Whether the control unit serves the unit, which then is begun.
fn serve(sharing: &mut Sharing, number: u16) -> bool
    ensures may { result ≡ members_spec.may_serve sharing.old number }
    ensures members { sharing.new ≡ spec.members_asked sharing.old number result }
{
    let may = sharing.may_serve(number);
    if may {
        sharing.begin(number);
    }
    may
}

/// Whether the unit may take a signal; its control unit is asked where it must be, and then no program holds the device.
fn may_take(
    sharing: &mut Sharing,
    number: u16,
    unit: &Unit,
    side: Side,
    signal: &LentDown<'_>,
) -> bool
    ensures may { result ≡ spec.may_take sharing.old number (spec.is_asked_for «unit».now side (lent_down signal.now)) }
    ensures members { sharing.new ≡ giving_spec.members_begun sharing.old number (spec.is_asked_for «unit».now side (lent_down signal.now)) }
    ensures idle { spec.is_asked_for «unit».now side (lent_down signal.now) ≡ true → unit_spec.is_idle «unit».now.own ≡ true }
{
    if is_asked_for(unit.state(), side, signal) {
        serve(sharing, number)
    } else {
        true
    }
}

/// The unit is over, where its device was held and is not any more; then it may owe a control-unit end.
#[tactic(auto, using(crate::proofs::Owing::owing_none))]
#[inline(always)]
fn end(sharing: &mut Sharing, number: u16, unit: &mut Unit, was_idle: bool)
    ensures members { sharing.new ≡ spec.members_over sharing.old number (not was_idle && unit_spec.is_idle «unit».old.own) }
    ensures owes { «unit».new ≡ spec.owing ((not was_idle && unit_spec.is_idle «unit».old.own)
        && members_spec.is_owed sharing.old number) «unit».old }
{
    if !was_idle && unit.is_idle() {
        let owed = sharing.over(number);
        unit.owe(owed);
    }
}

/// The unit takes a signal that came by a path. Its control unit is asked where it must be.
pub fn take(
    sharing: &mut Sharing,
    number: u16,
    unit: &mut Unit,
    side: Side,
    path: Path,
    signal: &LentDown<'_>,
) -> Taken<PlainUp>
    ensures state { «unit».new ≡ spec.owing_after sharing.old number «unit».old
        (unit_spec.unit_after «unit».old (giving_spec.shared_step sharing.old number «unit».old side path (lent_down signal.now))) }
    ensures members { sharing.new ≡ spec.members_after sharing.old number (spec.is_asked_for «unit».old side (lent_down signal.now)) «unit».old
        (unit_spec.unit_after «unit».old (giving_spec.shared_step sharing.old number «unit».old side path (lent_down signal.now))) }
    ensures outcome { map_taken plain_up result ≡ unit_spec.outcome_of (giving_spec.shared_step sharing.old number «unit».old side path (lent_down signal.now)) }
{
    let may = may_take(sharing, number, unit, side, signal);
    let was_idle = unit.is_idle();
    let outcome = unit.take(side, path, signal, may);
    end(sharing, number, unit, was_idle);
    outcome
}

/// The unit is restarted.
pub fn restart(sharing: &mut Sharing, number: u16, unit: &mut Unit)
    requires { CanUnitCount «unit».old }
    ensures members { sharing.new ≡ spec.members_over sharing.old number
        (spec.is_let_go «unit».old (unit_spec.restarted «unit».old)) }
    ensures state { «unit».new ≡ spec.owing_after sharing.old number «unit».old (unit_spec.restarted «unit».old) }
{
    let was_idle = unit.is_idle();
    unit.restart();
    end(sharing, number, unit, was_idle);
}
