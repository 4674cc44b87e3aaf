//! What the unit does with each signal of a subchannel.

ghost use Rattle.std.specs.Prelude.{◌≡◌, None, Some, false, if◌then◌else◌, is_some, nat_lt, true};
ghost use Rattle.chan_model.specs.UnitTable as table;
ghost use Rattle.chan_model.specs.declared.signal.Down.TheVariants as down;
ghost use Rattle.chan_model.specs.declared.signal.Up.TheVariants as up;
ghost use Rattle.chan_model.specs.Lent.{lent_down, plain_up};
ghost use Rattle.chan_model.specs.Signals.{map_taken};
ghost use Rattle.unit.specs.UnitWords as words;

use crate::commands::{answered, commanded, given, is_of_command};
use crate::parts::{Outcome, free, is_owner, keep_side, owns, side_of};
use chan_model::lent::{LentDown, PlainUp};
use chan_model::names::{CommandPath, Path, Side};
use chan_model::signal::{Down, Taken, Up};
use chan_model::unit_state::{Connection, Own, SideState, UnitState};

/// A signal of a side that came by a path.
pub fn takes(
    unit: &mut UnitState,
    side: Side,
    path: Path,
    signal: &LentDown<'_>,
    may: bool,
) -> Outcome
    ensures state { unit.new ≡ table.unit_after unit.old (table.unit_takes unit.old side path (lent_down signal.now) may) }
    ensures outcome { map_taken plain_up result ≡ table.outcome_of (table.unit_takes unit.old side path (lent_down signal.now) may) }
{
    if let Down::Reset { number, restarts } = *signal.kept {
        reset(unit, side, path, number, restarts)
    } else if side_of(unit, side).fresh {
        telling(unit, path)
    } else {
        works(unit, side, path, signal, may)
    }
}

/// A signal of a side that is not fresh, but Reset.
fn works(unit: &mut UnitState, side: Side, path: Path, signal: &LentDown<'_>, may: bool) -> Outcome
    ensures state { unit.new ≡ table.unit_after unit.old (table.unit_works unit.old side path (lent_down signal.now) may) }
    ensures outcome { map_taken plain_up result ≡ table.outcome_of (table.unit_works unit.old side path (lent_down signal.now) may) }
{
    match *signal.kept {
        Down::Select { number } => offered(unit, side, path, number, may),
        Down::Command {
            code,
            room,
            number,
            command,
        } => commanded(
            unit,
            CommandPath { side, path },
            number,
            command,
            code,
            room,
        ),
        Down::Grant { number, connection } => granted(unit, side, path, number, connection),
        Down::Refuse { number, connection } => refused(unit, side, number, connection),
        Down::Took { room, sequence, .. } if is_of_command(unit, side, signal) => {
            answered(unit, sequence, room)
        }
        Down::Give { sequence, .. } if is_of_command(unit, side, signal) => {
            given(unit, sequence, signal.bytes())
        }
        Down::Halt { number } => halting(unit, side, number),
        Down::Release { number } => releasing(unit, side, path, number),
        Down::Took { .. } | Down::Give { .. } | Down::Reset { .. } => Taken::ignored(),
        Down::Got { attention } => forgetting(unit, side, attention),
    }
}

/// In a side that is fresh: how often the device was restarted.
fn telling(unit: &UnitState, path: Path) -> Outcome
    ensures { map_taken plain_up result ≡ table.outcome_of (table.telling unit.now path) }
{
    Taken::sending(
        path,
        PlainUp::of(Up::Notice {
            restarts: unit.restarts,
        }),
    )
}

/// Select: ignored at or below the floor of its side.
fn offered(unit: &mut UnitState, side: Side, path: Path, number: u64, may_serve: bool) -> Outcome
    ensures state { unit.new ≡ table.unit_after unit.old (table.unit_works unit.old side path (down.Select number) may_serve) }
    ensures outcome { map_taken plain_up result ≡ table.outcome_of (table.unit_works unit.old side path (down.Select number) may_serve) }
{
    let own = unit.own;
    if side_of(unit, side).floor < number {
        raise(unit, side, number);
        selected(unit, own, side, path, number, may_serve)
    } else {
        Taken::ignored()
    }
}

/// The floor of a side becomes this number.
fn raise(unit: &mut UnitState, side: Side, number: u64)
    ensures { unit.new ≡ table.raised unit.old side number }
{
    let fresh = side_of(unit, side).fresh;
    keep_side(
        unit,
        side,
        SideState {
            floor: number,
            fresh,
        },
    );
}

/// Select above the floor: accepted where nothing holds the device and the control unit may serve it.
fn selected(
    unit: &mut UnitState,
    own: Own,
    side: Side,
    path: Path,
    number: u64,
    may_serve: bool,
) -> Outcome
    ensures state { unit.new ≡ table.unit_after unit.old (table.selected unit.old own side path number may_serve) }
    ensures outcome { map_taken plain_up result ≡ table.outcome_of (table.selected unit.old own side path number may_serve) }
{
    match own {
        Own::Idle if may_serve => {
            hold(unit, side, path, number);
            Taken::sending(path, PlainUp::of(Up::Accept { number }))
        }
        _ => Taken::sending(path, PlainUp::of(Up::Busy { number })),
    }
}

/// The device is held by the program of this number, which is connected on this path.
fn hold(unit: &mut UnitState, side: Side, path: Path, number: u64)
    ensures { unit.new ≡ table.held unit.old side number path }
{
    free(unit);
    unit.own = Own::Owned {
        side,
        number,
        connection: Connection::On {
            path,
            connection: 0,
        },
    };
}

/// Grant: of the connection asked for; an older one is answered by Leave.
fn granted(unit: &mut UnitState, side: Side, path: Path, number: u64, connection: u64) -> Outcome
    ensures state { unit.new ≡ table.unit_after unit.old (table.granted unit.old unit.old.own side path number connection) }
    ensures outcome { map_taken plain_up result ≡ table.outcome_of (table.granted unit.old unit.old.own side path number connection) }
{
    let own = unit.own;
    match own {
        Own::Owned {
            side: owner,
            number: held,
            connection: own_connection,
        } if owner.same(side) && number == held => {
            granted_at(unit, owner, held, own_connection, path, connection)
        }
        _ => Taken::ignored(),
    }
}

/// Grant of the program that holds the device, at its place.
fn granted_at(
    unit: &mut UnitState,
    side: Side,
    number: u64,
    own_connection: Connection,
    path: Path,
    connection: u64,
) -> Outcome
    ensures state { unit.new ≡ table.unit_after unit.old (table.granted_at unit.old side number own_connection path connection) }
    ensures outcome { map_taken plain_up result ≡ table.outcome_of (table.granted_at unit.old side number own_connection path connection) }
{
    match own_connection {
        Connection::Ask {
            path: asked,
            connection: last,
        } => {
            if connection == last {
                unit.own = Own::Owned {
                    side,
                    number,
                    connection: Connection::On {
                        path: asked,
                        connection: last,
                    },
                };
                Taken::quietly()
            } else {
                granted_late(number, path, connection, last)
            }
        }
        Connection::On {
            connection: last,
            ..
        }
        | Connection::Away { connection: last } => granted_late(number, path, connection, last),
    }
}

/// Grant of an older connection than the last.
fn granted_late(number: u64, path: Path, connection: u64, last: u64) -> Outcome
    ensures { map_taken plain_up result ≡ (if nat_lt connection last
        then record { taken = true; sent = Some (record { path = path; signal = up.Leave number connection }) }
        else record { taken = false; sent = None }) }
{
    if connection < last {
        Taken::sending(path, PlainUp::of(Up::Leave { number, connection }))
    } else {
        Taken::ignored()
    }
}

/// Refuse: of the connection asked for.
fn refused(unit: &mut UnitState, side: Side, number: u64, connection: u64) -> Outcome
    ensures state { unit.new ≡ table.unit_after unit.old (table.grant_refused unit.old unit.old.own side number connection) }
    ensures outcome { map_taken plain_up result ≡ table.outcome_of (table.grant_refused unit.old unit.old.own side number connection) }
{
    match unit.own {
        Own::Owned {
            side: owner,
            number: held,
            connection: Connection::Ask {
                connection: last,
                ..
            },
        } if owner.same(side) && number == held && connection == last => {
            unit.own = Own::Owned {
                side: owner,
                number: held,
                connection: Connection::Away { connection: last },
            };
            Taken::quietly()
        }
        _ => Taken::ignored(),
    }
}

/// Halt: once for a program.
fn halting(unit: &mut UnitState, side: Side, number: u64) -> Outcome
    ensures state { unit.new ≡ table.unit_after unit.old (table.unit_halting unit.old side number) }
    ensures outcome { map_taken plain_up result ≡ table.outcome_of (table.unit_halting unit.old side number) }
{
    if is_owner(unit, side, number) && !unit.halted {
        unit.halted = true;
        Taken::quietly()
    } else {
        Taken::ignored()
    }
}

/// Release: by the program that holds the device.
fn releasing(unit: &mut UnitState, side: Side, path: Path, number: u64) -> Outcome
    ensures state { unit.new ≡ table.unit_after unit.old (table.releasing unit.old side path number) }
    ensures outcome { map_taken plain_up result ≡ table.outcome_of (table.releasing unit.old side path number) }
{
    if is_owner(unit, side, number) {
        free(unit);
        Taken::sending(path, PlainUp::of(Up::Released { number }))
    } else {
        Taken::ignored()
    }
}

/// Reset: taken with the device's own restart count, where its side is fresh or its number above the floor.
fn reset(unit: &mut UnitState, side: Side, path: Path, number: u64, restarts: u64) -> Outcome
    ensures state { unit.new ≡ table.unit_after unit.old (table.unit_takes unit.old side path (down.Reset number restarts) false) }
    ensures outcome { map_taken plain_up result ≡ table.outcome_of (table.unit_takes unit.old side path (down.Reset number restarts) false) }
{
    if resets(unit, side, number, restarts) {
        reset_side(unit, side, number);
        Taken::sending(path, PlainUp::of(Up::Cleared { number }))
    } else if side_of(unit, side).fresh {
        telling(unit, path)
    } else {
        Taken::ignored()
    }
}

/// Whether a Reset is taken.
pub fn resets(unit: &UnitState, side: Side, number: u64, restarts: u64) -> bool
    ensures { result ≡ table.resets unit.now side number restarts }
{
    let kept = side_of(unit, side);
    restarts == unit.restarts && (kept.fresh || kept.floor < number)
}

/// A side is reset under this number; a program of the other side stays.
fn reset_side(unit: &mut UnitState, side: Side, number: u64)
    ensures { unit.new ≡ table.reset_side unit.old side number }
{
    if owns(unit, side) {
        free(unit);
    }
    keep_side(
        unit,
        side,
        SideState {
            floor: number,
            fresh: false,
        },
    );
}

/// Got: of the attention that is not answered.
fn forgetting(unit: &mut UnitState, side: Side, attention: u64) -> Outcome
    ensures state { unit.new ≡ table.unit_after unit.old (table.forgetting unit.old unit.old.attention side attention) }
    ensures outcome { map_taken plain_up result ≡ table.outcome_of (table.forgetting unit.old unit.old.attention side attention) }
{
    match unit.attention {
        Some(last) if last.side.same(side) && attention == last.number => {
            unit.attention = None;
            Taken::quietly()
        }
        _ => Taken::ignored(),
    }
}

/// Whether a signal is answered.
pub fn answers(unit: &UnitState, side: Side, signal: &LentDown<'_>) -> bool
    ensures { result ≡ words.is_unit_answered unit.now side (lent_down signal.now) }
{
    if let Down::Reset { number, restarts } = *signal.kept {
        resets(unit, side, number, restarts) || side_of(unit, side).fresh
    } else {
        side_of(unit, side).fresh || is_work_answered(unit, side, signal)
    }
}

/// Whether a signal of a side that is not fresh is answered.
fn is_work_answered(unit: &UnitState, side: Side, signal: &LentDown<'_>) -> bool
    ensures { result ≡ is_some (table.outcome_of (table.unit_works unit.now side 0 (lent_down signal.now) false)).sent }
{
    match *signal.kept {
        Down::Select { number } => side_of(unit, side).floor < number,
        Down::Grant { number, connection } => is_granted_late(unit, side, number, connection),
        Down::Release { number } => is_owner(unit, side, number),
        _ => false,
    }
}

/// Whether a Grant is of an older connection than the last of the program that holds the device.
fn is_granted_late(unit: &UnitState, side: Side, number: u64, connection: u64) -> bool
    ensures { result ≡ is_some (table.outcome_of (table.granted unit.now unit.now.own side 0 number connection)).sent }
{
    match unit.own {
        Own::Idle => false,
        Own::Owned {
            side: owner,
            number: held,
            connection: Connection::On {
                connection: last,
                ..
            }
            | Connection::Ask {
                connection: last,
                ..
            }
            | Connection::Away { connection: last },
        } => owner.same(side) && number == held && connection < last,
    }
}
