//! What a unit is to do next.

ghost use Rattle.std.specs.Prelude.{◌≡◌, ◌<◌, MatchOption, None, Some};
ghost use Rattle.chan_model.specs.PathSets as set_spec;
ghost use Rattle.chan_model.specs.UnitReports as report_spec;
ghost use Rattle.chan_model.specs.declared.names.Side.TheVariants.{Second};
ghost use Rattle.machine_model.specs.State as state_spec;
ghost use Rattle.subchannel_model.specs.Indices as index_spec;
ghost use Rattle.subchannel_model.specs.Store as store_spec;
ghost use Rattle.machine_model.specs.State.{State};
ghost use Rattle.machine_model.specs.UnitTurns.{lent_turn};
ghost use Rattle.lookup.specs.Tables.{Fits};
ghost use Rattle.machine_model.specs.declared.state.UnitTurn.TheVariants as turn;

use chan_model::names::{Path, Side};
use chan_model::paths::PathSet;
use chan_model::report::LentWork;
use chan_model::unit_state::{Connection, Own};
use channel_config::names::SubchannelId;
use functions::Subchannel;
use lookup::tables::SubchannelIndex;
use machine_model::state::UnitTurn;
use unit::Unit;
use wires::Wires;

fn has_signal(wires: &Wires, index: u32) -> bool
    requires { index < 8 }
    ensures { result ≡ state_spec.has_signal wires.now.down index }
{
    match Path::new(index) {
        None => false,
        Some(path) => wires.front_down(path).is_some(),
    }
}

/// The lowest path on whose wire down a signal waits.
fn signal_path(wires: &Wires) -> Option<u32>
    ensures { result ≡ state_spec.signal_path wires.now.down }
{
    if has_signal(wires, 0) {
        Some(0)
    } else if has_signal(wires, 1) {
        Some(1)
    } else if has_signal(wires, 2) {
        Some(2)
    } else if has_signal(wires, 3) {
        Some(3)
    } else if has_signal(wires, 4) {
        Some(4)
    } else if has_signal(wires, 5) {
        Some(5)
    } else if has_signal(wires, 6) {
        Some(6)
    } else if has_signal(wires, 7) {
        Some(7)
    } else {
        None
    }
}

/// The subchannel that reaches this side of a unit.
pub fn reached_sub<'a>(
    indices: &SubchannelIndex,
    unit: usize,
    side: Side,
    subs: &'a [Subchannel],
) -> Option<&'a Subchannel>
    requires { Fits indices.now subs.now }
    ensures { MatchOption result (index_spec.reached_sub «unit» side subs.now ≡ None)
        (λ sub. index_spec.reached_sub «unit» side subs.now ≡ Some sub.now) }
{
    let index = indices.reached_in(unit, side, subs)?;
    subs.get(index)
}

/// The subchannel and the path of a signal that waits for a unit.
#[derive(Clone, Copy)]
struct Waiting {
    subchannel: SubchannelId,
    path: u32,
}

/// The signal that waits for a side of a unit.
fn taken_from(
    indices: &SubchannelIndex,
    unit: usize,
    side: Side,
    subs: &[Subchannel],
) -> Option<Waiting>
    requires { Fits indices.now subs.now }
    ensures { MatchOption result (state_spec.takes_from (index_spec.reached_sub «unit» side subs.now) ≡ None)
        (λ w. state_spec.takes_from (index_spec.reached_sub «unit» side subs.now) ≡ Some (turn.Takes w.subchannel w.path)) }
{
    let sub = reached_sub(indices, unit, side, subs)?;
    let path = signal_path(&sub.wires)?;
    Some(Waiting {
        subchannel: sub.state.setup().id,
        path,
    })
}

/// The first of the paths, in cyclic order of 8 from this number on.
fn cyclic_path(paths: &PathSet, from: u64) -> Option<u32>
    ensures { result ≡ set_spec.cyclic_path paths.now 8 from }
{
    let path = paths.first_from((from % 8) as usize)?;
    Some(path.index() as u32)
}

/// The installed paths of a subchannel that are not down.
fn available_paths(sub: &Subchannel) -> PathSet
    ensures { result ≡ store_spec.available_paths sub.now }
{
    sub.state.available()
}

/// The path that a program of this side may ask for, whose last connection had this number.
fn away_path(
    indices: &SubchannelIndex,
    unit: usize,
    side: Side,
    connection: u64,
    subs: &[Subchannel],
) -> Option<u32>
    requires { Fits indices.now subs.now }
    ensures { result ≡ state_spec.away_path (index_spec.reached_sub «unit» side subs.now) connection }
{
    let sub = reached_sub(indices, unit, side, subs)?;
    cyclic_path(&available_paths(sub), connection)
}

/// What a unit without a signal and without work is to do.
fn turn_of_own(
    indices: &SubchannelIndex,
    unit: usize,
    own: Own,
    subs: &[Subchannel],
) -> UnitTurn<LentWork<'static>>
    requires { Fits indices.now subs.now }
    ensures { lent_turn result ≡ state_spec.turn_of_own subs.now «unit» own }
{
    match own {
        Own::Owned {
            side,
            connection: Connection::Away { connection },
            ..
        } => UnitTurn::Away {
            path: away_path(indices, unit, side, connection, subs),
        },
        _ => UnitTurn::Rests,
    }
}

/// What a unit without a signal is to do: what its program asks for; else its program may ask for a path.
fn turn_of_work<'a>(
    indices: &SubchannelIndex,
    number: usize,
    unit: &'a Unit,
    subs: &[Subchannel],
) -> UnitTurn<LentWork<'a>>
    requires { Fits indices.now subs.now }
    ensures { (s : State) → s.subs ≡ subs.now → lent_turn result ≡
        state_spec.turn_by_work s number «unit».now (report_spec.unit_work «unit».now) }
{
    match unit.lent_work() {
        Some(work) => UnitTurn::Works(work),
        None => turn_of_own(indices, number, unit.own(), subs),
    }
}

/// What a unit without a signal for its first side is to do: it takes the one for its second side; else what its program asks for.
fn turn_of_second<'a>(
    indices: &SubchannelIndex,
    number: usize,
    unit: &'a Unit,
    subs: &[Subchannel],
) -> UnitTurn<LentWork<'a>>
    requires { Fits indices.now subs.now }
    ensures { (s : State) → s.subs ≡ subs.now → lent_turn result ≡
        state_spec.turn_or (state_spec.takes_from (index_spec.reached_sub number Second s.subs))
        (state_spec.turn_by_work s number «unit».now (report_spec.unit_work «unit».now)) }
{
    match taken_from(indices, number, Side::Second, subs) {
        Some(Waiting { subchannel, path }) => UnitTurn::Takes { subchannel, path },
        None => turn_of_work(indices, number, unit, subs),
    }
}

/// What a unit is to do next: it takes the signal that waits, of its first side before its second; else does what its
/// program asks for; else its program may ask for a path. The bytes that are to be absorbed are lent.
pub fn turn_of_unit<'a>(
    indices: &SubchannelIndex,
    number: usize,
    unit: &'a Unit,
    subs: &[Subchannel],
) -> UnitTurn<LentWork<'a>>
    requires { Fits indices.now subs.now }
    ensures { (s : State) → s.subs ≡ subs.now → state_spec.turn_of_unit s number (Some «unit».now) ≡ Some (lent_turn result) }
{
    match taken_from(indices, number, Side::First, subs) {
        Some(Waiting { subchannel, path }) => UnitTurn::Takes { subchannel, path },
        None => turn_of_second(indices, number, unit, subs),
    }
}
