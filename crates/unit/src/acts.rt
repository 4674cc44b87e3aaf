//! What the unit does of itself.

ghost use Rattle.std.specs.Prelude.{◌≡◌, ◌<◌, ◌+◌, ◌^◌};
ghost use Rattle.chan_model.specs.UnitTable as table;
ghost use Rattle.chan_model.specs.Lent.{plain_up};
ghost use Rattle.chan_model.specs.Signals.{map_sent};
ghost use Rattle.unit.specs.UnitWords as words;

use crate::parts::{Sent, free, side_of};
use chan_model::lent::PlainUp;
use chan_model::names::{Path, Side};
use chan_model::signal::{OnPath, Up};
use chan_model::unit_state::{Attention, Connection, CurrentCommand, Own, UnitState};
use scsw_irb::status::DeviceStatus;

/// Leave: the program that is connected works on without the path.
pub fn leaving(unit: &mut UnitState) -> Sent
    ensures state { unit.new ≡ table.unit_after unit.old (table.leaving unit.old unit.old.own) }
    ensures sent { map_sent plain_up result ≡ (table.outcome_of (table.leaving unit.old unit.old.own)).sent }
{
    match unit.own {
        Own::Idle => None,
        Own::Owned {
            side,
            number,
            connection: own_connection,
        } => leaving_from(unit, side, number, own_connection),
    }
}

/// Leave from a connection of the program that holds the device.
fn leaving_from(unit: &mut UnitState, side: Side, number: u64, own_connection: Connection) -> Sent
    ensures state { unit.new ≡ table.unit_after unit.old (table.leaving_from unit.old side number own_connection) }
    ensures sent { map_sent plain_up result ≡ (table.outcome_of (table.leaving_from unit.old side number own_connection)).sent }
{
    match own_connection {
        Connection::On { path, connection } => {
            unit.own = Own::Owned {
                side,
                number,
                connection: Connection::Away { connection },
            };
            mark_again(&mut unit.current);
            Some(OnPath {
                path,
                signal: PlainUp::of(Up::Leave { number, connection }),
            })
        }
        _ => None,
    }
}

/// A Data that is not answered will be sent again.
fn mark_again(current: &mut Option<CurrentCommand>)
    ensures { current.new ≡ table.marked_again current.old }
{
    if let Some(command) = current {
        command.again = command.again || command.unanswered.is_some();
    }
}

/// Ask: for a path, under the next connection number.
pub fn asking(unit: &mut UnitState, path: Path) -> Sent
    requires { words.last_connection unit.old.own < 2 ^ 63 }
    ensures state { unit.new ≡ table.unit_after unit.old (table.asking unit.old unit.old.own path) }
    ensures sent { map_sent plain_up result ≡ (table.outcome_of (table.asking unit.old unit.old.own path)).sent }
{
    match unit.own {
        Own::Owned {
            side,
            number,
            connection: Connection::Ask { connection, .. } | Connection::Away { connection },
        } => {
            let connection = connection + 1;
            unit.own = Own::Owned {
                side,
                number,
                connection: Connection::Ask { path, connection },
            };
            Some(OnPath {
                path,
                signal: PlainUp::of(Up::Back { number, connection }),
            })
        }
        _ => None,
    }
}

/// Attention: of an idle unit, on a side that is not fresh.
pub fn attending(unit: &mut UnitState, side: Side, path: Path) -> Sent
    requires { unit.old.attentions < 2 ^ 63 }
    ensures state { unit.new ≡ table.unit_after unit.old (table.attending unit.old side path) }
    ensures sent { map_sent plain_up result ≡ (table.outcome_of (table.attending unit.old side path)).sent }
{
    if !is_idle(unit.own) || side_of(unit, side).fresh {
        return None;
    }
    let number = unit.attentions + 1;
    let status = attention_status(unit.end_owed);
    unit.attentions = number;
    unit.attention = Some(Attention { number, side });
    unit.end_owed = false;
    Some(OnPath {
        path,
        signal: PlainUp::of(Up::Attn {
            attention: number,
            status,
        }),
    })
}

/// Whether nothing holds the device.
fn is_idle(own: Own) -> bool
    ensures { result ≡ table.is_idle own }
{
    matches!(own, Own::Idle)
}

/// The status of an attention: control unit end where it is owed.
fn attention_status(end_owed: bool) -> DeviceStatus
    ensures { result ≡ table.attention_status end_owed }
{
    if end_owed {
        DeviceStatus::CONTROL_UNIT_END
    } else {
        DeviceStatus::ATTENTION
    }
}

/// Restart: both sides are fresh, and what was at hand is forgotten.
pub fn restart(unit: &mut UnitState)
    requires { unit.old.restarts < 2 ^ 63 }
    ensures { unit.new ≡ table.restarted unit.old }
{
    free(unit);
    unit.restarts += 1;
    unit.first.fresh = true;
    unit.second.fresh = true;
    unit.attention = None;
}

/// Notice: of a side that is fresh.
pub fn noticing(unit: &UnitState, side: Side, path: Path) -> Sent
    ensures { map_sent plain_up result ≡ (table.outcome_of (table.noticing unit.now side path)).sent }
{
    if side_of(unit, side).fresh {
        Some(OnPath {
            path,
            signal: PlainUp::of(Up::Notice {
                restarts: unit.restarts,
            }),
        })
    } else {
        None
    }
}
