//! Signals that are put on the wires of a subchannel: one that is sent on a path that is down vanishes.

ghost use Rattle.std.specs.Prelude.{◌≡◌, ◌<◌, Some, false, length};
ghost use Rattle.chan_model.specs.Lent.{lent_down, lent_up};
ghost use Rattle.chan_model.specs.Signals as signals;
ghost use Rattle.chan_model.specs.declared.signal.OnPath as on_path;
ghost use Rattle.machine_model.specs.ReportSteps as report_spec;
ghost use Rattle.signal_step.specs.Giving as giving_spec;
ghost use Rattle.subchannel_model.specs.Sending as spec;
ghost use Rattle.wires.specs.Queues.{first_of, queue};

use chan_model::lent::{LentDown, LentUp};
use chan_model::names::Path;
use chan_model::paths::PathSet;
use chan_model::signal::OnPath;
use functions::Subchannel;
use wires::Wires;

/// The signal that waits longest on the wire up of a path, where one waits.
#[inline(always)]
pub fn first_up(wires: &Wires, path: Path) -> LentUp<'_>
    requires { 0 < length (queue wires.now.up path) }
    ensures { first_of wires.now.up path ≡ Some (lent_up result) }
{
    match wires.front_up(path) {
        Some(front) => front,
        None => unreachable!(),
    }
}

/// The signal that waits longest on the wire down of a path, where one waits.
#[inline(always)]
pub fn first_down(wires: &Wires, path: Path) -> LentDown<'_>
    requires { 0 < length (queue wires.now.down path) }
    ensures { first_of wires.now.down path ≡ Some (lent_down result) }
{
    match wires.front_down(path) {
        Some(front) => front,
        None => unreachable!(),
    }
}

/// Whether a signal that is sent down on a path finds its wire full. On a path that is down it finds none.
pub fn finds_down_full(sub: &Subchannel, path: Path) -> bool
    ensures { (sent : on_path.OnPath signals.Down) → sent.path ≡ path →
        giving_spec.TellsFull sub.now.wires.down (spec.carried_by sub.now (Some sent)) result }
{
    sub.state.up().has(path) && sub.wires.down_is_full(path)
}

/// Sends a signal down, where there is one. `available`: the paths of its subchannel that are not down.
pub fn send_any_down(wires: &mut Wires, available: &PathSet, sent: &Option<OnPath<LentDown<'_>>>)
    requires { giving_spec.TellsFull wires.old.down (spec.carried available.now (signals.map_sent lent_down sent.now)) false }
    ensures { wires.new ≡ record wires.old { down = spec.with_any_sent wires.old.down (spec.carried available.now (signals.map_sent lent_down sent.now)) } }
{
    let Some(sent) = sent else {
        return;
    };
    if available.has(sent.path) {
        wires.send_down(sent.path, &sent.signal);
    }
}

/// Whether a signal that is sent up on a path finds its wire full. On a path that is down it finds none.
pub fn finds_up_full(sub: &Subchannel, path: Path) -> bool
    ensures { (sent : on_path.OnPath signals.Up) → sent.path ≡ path →
        giving_spec.TellsFull sub.now.wires.up (spec.carried_by sub.now (Some sent)) result }
{
    sub.state.up().has(path) && sub.wires.up_is_full(path)
}

/// Sends a signal up, where there is one.
pub fn send_any_up(sub: &mut Subchannel, sent: &Option<OnPath<LentUp<'_>>>)
    requires { giving_spec.TellsFull sub.old.wires.up (spec.carried_by sub.old (signals.map_sent lent_up sent.now)) false }
    ensures { sub.new ≡ report_spec.with_any_up sub.old (signals.map_sent lent_up sent.now) }
{
    let Some(sent) = sent else {
        return;
    };
    if sub.state.up().has(sent.path) {
        sub.wires.send_up(sent.path, &sent.signal);
    }
}
