//! What may come of a signal.

ghost use Rattle.std.specs.Prelude.{◌≡◌, None, Some};
ghost use Rattle.chan_model.specs.HoldTable.{outcome_of, hold_after, hold_takes};
ghost use Rattle.chan_model.specs.Lent.{lent_down, lent_up};
ghost use Rattle.active_program.specs.Sent.{outcome_with};
ghost use Rattle.subchannel_model.specs.Outcomes as outcomes;
ghost use Rattle.active_program.specs.Stepping.{not_taken, subchannel_stepped, taken_with};

use crate::met::Met;
use crate::sent::SentDown;
use chan_model::lent::{LentDown, LentUp};
use chan_model::lent_forms::lend_down;
use chan_model::names::Path;
use chan_model::signal::OnPath;
use functions::PackedState;
use hold::Hold;

pub fn ignored(sent: &mut SentDown) -> Met
    ensures { outcome_with result sent.new ≡ not_taken }
{
    sent.clear();
    Met::Ignored
}

pub fn quiet(sent: &mut SentDown) -> Met
    ensures { outcome_with result sent.new ≡ taken_with None }
{
    sent.clear();
    Met::Taken
}

pub(crate) fn send(sent: &mut SentDown, path: Path, signal: &LentDown<'_>) -> Met
    ensures { outcome_with result sent.new ≡ taken_with (Some (record { path = path; signal = lent_down signal.now })) }
{
    sent.put(path, signal);
    Met::Taken
}

/// The hold takes a signal, with what it sends in a slot.
pub fn take_by(
    hold: &mut Hold,
    path: Path,
    signal: &LentUp<'_>,
    may: bool,
    sent: &mut SentDown,
) -> Met
    ensures state { hold.new ≡ hold_after hold.old (hold_takes hold.old path (lent_up signal.now) may) }
    ensures outcome { outcome_with result sent.new ≡ outcome_of (hold_takes hold.old path (lent_up signal.now) may) }
{
    let outcome = hold.take(path, signal, may);
    match &outcome.sent {
        None => sent.clear(),
        Some(OnPath { path, signal }) => sent.put(*path, &signal.lend()),
    }
    Met::of(outcome.taken)
}

pub(crate) fn let_go(state: &mut PackedState, sent: &mut SentDown) -> Met
    ensures step { subchannel_stepped state.new.state (outcome_with result sent.new) ≡ outcomes.device_released state.old.state }
    ensures setup { state.new.setup ≡ state.old.setup }
{
    let mut hold = Hold::of(state.rest().hold);
    let released = hold.let_go();
    state.rest_mut().hold = hold.state();
    sent.put_any(&lend_down(&released));
    Met::Taken
}

/// What the hold does with a signal; `may`: it may be taken, as the hold's table asks.
pub fn by_hold(
    state: &mut PackedState,
    path: Path,
    signal: &LentUp<'_>,
    may: bool,
    sent: &mut SentDown,
) -> Met
    ensures step { subchannel_stepped state.new.state (outcome_with result sent.new) ≡ outcomes.hold_outcome state.old.state (hold_takes state.old.state.hold path (lent_up signal.now) may) }
    ensures setup { state.new.setup ≡ state.old.setup }
{
    let mut hold = Hold::of(state.rest().hold);
    let met = take_by(&mut hold, path, signal, may, sent);
    state.rest_mut().hold = hold.state();
    met
}
