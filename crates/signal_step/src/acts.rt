//! What a unit does of itself at the subchannel of a side.

ghost use Rattle.std.specs.Prelude.{◌≡◌};
ghost use Rattle.chan_model.specs.UnitTable as unit_spec;
ghost use Rattle.lookup.specs.Tables.{Fits, engaged};
ghost use Rattle.machine_model.specs.ActSteps as spec;
ghost use Rattle.machine_model.specs.Bounds.{CanUnitCount};
ghost use Rattle.machine_model.specs.ReportSteps as report_spec;
ghost use Rattle.signal_step.specs.Giving as giving_spec;
ghost use Rattle.subchannel_model.specs.Indices as index_spec;
ghost use Rattle.chan_events.specs.Replies.{plain_outcome};

use crate::sending::{finds_up_full, send_any_up};
use crate::sharing::side_of;
use crate::turns::{path_of, reached_side};
use crate::unit_turns::reached_sub;
use chan_events::event::UnitAct;
use chan_events::reply::{PlainReply, Reply};
use chan_model::fault::Fault;
use chan_model::lent_forms::lend_up;
use chan_model::names::{Path, Side};
use chan_model::unit_state::{Connection, Own};
use functions::Subchannel;
use lookup::tables::SubchannelIndex;
use unit::Unit;

/// The path of a connection that has one: of a program that is connected.
fn path_of_connection(connection: Connection) -> Option<Path>
    ensures { result ≡ unit_spec.path_of_connection connection }
{
    match connection {
        Connection::On { path, .. } => Some(path),
        _ => None,
    }
}

/// The path of the program that holds the device, where it is connected.
fn connected_path(own: Own) -> Option<Path>
    ensures { result ≡ giving_spec.connected_path own }
{
    match own {
        Own::Idle => None,
        Own::Owned { connection, .. } => path_of_connection(connection),
    }
}

/// Whether a program holds the device and is not connected.
fn is_without_path(own: Own) -> bool
    ensures { result ≡ giving_spec.is_without_path own }
{
    matches!(
        own,
        Own::Owned {
            connection: Connection::Ask { .. } | Connection::Away { .. },
            ..
        }
    )
}

/// The program that is connected leaves its path.
#[inline(never)]
fn leave(sub: &mut Subchannel, unit: &mut Unit) -> Result<PlainReply, Fault>
    ensures engaged { engaged sub.new ≡ engaged sub.old }
    ensures state { sub.new.state ≡ sub.old.state }
    ensures gives { giving_spec.GivesBoth sub.old «unit».old
        (report_spec.report_taken sub.old (unit_spec.leaving «unit».old «unit».old.own)) (plain_outcome result) sub.new «unit».new }
{
    let Some(path) = connected_path(unit.own()) else {
        return Err(Fault::NotNow);
    };
    if finds_up_full(sub, path) {
        return Err(Fault::WireFull);
    }
    let sent = unit.leave();
    send_any_up(sub, &lend_up(&sent));
    Ok(Reply::Done)
}

/// The program that is without a path asks for this one.
#[inline(never)]
fn ask(sub: &mut Subchannel, unit: &mut Unit, path: Path) -> Result<PlainReply, Fault>
    requires { CanUnitCount «unit».old }
    ensures engaged { engaged sub.new ≡ engaged sub.old }
    ensures state { sub.new.state ≡ sub.old.state }
    ensures gives { giving_spec.GivesBoth sub.old «unit».old
        (report_spec.report_taken sub.old (unit_spec.asking «unit».old «unit».old.own path)) (plain_outcome result) sub.new «unit».new }
{
    if !is_without_path(unit.own()) {
        return Err(Fault::NotNow);
    }
    if finds_up_full(sub, path) {
        return Err(Fault::WireFull);
    }
    let sent = unit.ask(path);
    send_any_up(sub, &lend_up(&sent));
    Ok(Reply::Done)
}

/// The unit, which no program holds, asks the side of the subchannel for attention.
#[inline(never)]
fn attend(sub: &mut Subchannel, unit: &mut Unit, path: Path) -> Result<PlainReply, Fault>
    requires { CanUnitCount «unit».old }
    ensures engaged { engaged sub.new ≡ engaged sub.old }
    ensures state { sub.new.state ≡ sub.old.state }
    ensures gives { giving_spec.GivesBoth sub.old «unit».old
        (report_spec.report_taken sub.old (unit_spec.attending «unit».old sub.old.setup.side path)) (plain_outcome result) sub.new «unit».new }
{
    let side = reached_side(sub);
    if !unit.is_idle() || side_of(unit.state(), side).fresh {
        return Err(Fault::NotNow);
    }
    if finds_up_full(sub, path) {
        return Err(Fault::WireFull);
    }
    let sent = unit.attention(side, path);
    send_any_up(sub, &lend_up(&sent));
    Ok(Reply::Done)
}

/// The side of the subchannel, which was not reset since the last restart, is told how often the unit was restarted.
#[inline(never)]
fn notice(sub: &mut Subchannel, unit: &Unit, path: Path) -> Result<PlainReply, Fault>
    ensures engaged { engaged sub.new ≡ engaged sub.old }
    ensures state { sub.new.state ≡ sub.old.state }
    ensures gives { giving_spec.GivesBoth sub.old «unit».now
        (report_spec.report_taken sub.old (unit_spec.noticing «unit».now sub.old.setup.side path)) (plain_outcome result) sub.new «unit».now }
{
    let side = reached_side(sub);
    if !side_of(unit.state(), side).fresh {
        return Err(Fault::NotNow);
    }
    if finds_up_full(sub, path) {
        return Err(Fault::WireFull);
    }
    let sent = unit.notice(side, path);
    send_any_up(sub, &lend_up(&sent));
    Ok(Reply::Done)
}

/// A unit acts at the subchannel of a side: what it does is sent by the path that is named, and Leave by that of its
/// program.
pub fn act_sub(sub: &mut Subchannel, unit: &mut Unit, act: UnitAct) -> Result<PlainReply, Fault>
    requires { CanUnitCount «unit».old }
    ensures engaged { engaged sub.new ≡ engaged sub.old }
    ensures state { sub.new.state ≡ sub.old.state }
    ensures gives { giving_spec.GivesBoth sub.old «unit».old (spec.act_sub sub.old «unit».old act)
        (plain_outcome result) sub.new «unit».new }
{
    let index = match act {
        UnitAct::Leave => return leave(sub, unit),
        UnitAct::Ask { path } | UnitAct::Attention { path, .. } | UnitAct::Notice { path, .. } =>
            path,
    };
    let Some(path) = path_of(sub, index) else {
        return Err(Fault::NoSuchPath);
    };
    match act {
        UnitAct::Leave | UnitAct::Ask { .. } => ask(sub, unit, path),
        UnitAct::Attention { .. } => attend(sub, unit, path),
        UnitAct::Notice { .. } => notice(sub, unit, path),
    }
}

/// The side that an act is told to: of an act of a program that of the program.
pub fn side_of_act(unit: &Unit, act: UnitAct) -> Option<Side>
    ensures { result ≡ spec.side_of_act «unit».now act }
{
    match act {
        UnitAct::Leave | UnitAct::Ask { .. } => match unit.own() {
            Own::Idle => None,
            Own::Owned { side, .. } => Some(side),
        },
        UnitAct::Attention { side, .. } | UnitAct::Notice { side, .. } => Some(side),
    }
}

/// Whether the subchannel of a side has a path of this index.
fn has_path_at(
    connections: &SubchannelIndex,
    unit: usize,
    side: Side,
    path: u32,
    subs: &[Subchannel],
) -> bool
    requires { Fits connections.now subs.now }
    ensures { result ≡ spec.has_path_at (index_spec.reached_sub «unit» side subs.now) path }
{
    match reached_sub(connections, unit, side, subs) {
        None => false,
        Some(sub) => (path as usize) < sub.state.setup().paths.as_slice().len(),
    }
}

/// Why an act of a program is refused where no program holds the device: a path to ask for must be one of some side.
pub fn not_held(
    connections: &SubchannelIndex,
    unit: usize,
    act: UnitAct,
    subs: &[Subchannel],
) -> Fault
    requires { Fits connections.now subs.now }
    ensures { result ≡ spec.not_held subs.now «unit» act }
{
    let UnitAct::Ask { path } = act else {
        return Fault::NotNow;
    };
    if has_path_at(connections, unit, Side::First, path, subs)
        || has_path_at(connections, unit, Side::Second, path, subs)
    {
        Fault::NotNow
    } else {
        Fault::NoSuchPath
    }
}
