//! A program that was away and comes back (own).

ghost use Rattle.std.specs.Prelude.{◌≡◌, Some};
ghost use Rattle.chan_model.specs.HoldTable.{hold_takes};
ghost use Rattle.chan_model.specs.Lent.{lent_up};
ghost use Rattle.active_program.specs.Sent.{outcome_with};
ghost use Rattle.subchannel_model.specs.Back as on_back;
ghost use Rattle.active_program.specs.Stepping.{subchannel_stepped};

use active_program::answers::by_hold;
use active_program::met::Met;
use active_program::sent::SentDown;
use chan_model::lent::LentUp;
use chan_model::names::Path;
use chan_model::signal::Down;
use functions::PackedState;

/// Back: the path of a Grant is the one that was used last (SA22-7832, chapter 15: last-path-used mask), and the one that was
/// chosen last.
pub(crate) fn come_back(
    state: &mut PackedState,
    path: Path,
    signal: &LentUp<'_>,
    returns: bool,
    sent: &mut SentDown,
) -> Met
    ensures step { subchannel_stepped state.new.state (outcome_with result sent.new) ≡ on_back.takes_back state.old.state path (hold_takes state.old.state.hold path (lent_up signal.now) returns) }
    ensures setup { state.new.setup ≡ state.old.setup }
{
    let met = by_hold(state, path, signal, returns, sent);
    if is_granted(sent) {
        state.mark_last_used(path);
        state.rest_mut().last_path = Some(path);
    }
    met
}

/// Whether an answer is a Grant.
fn is_granted(answer: &SentDown) -> bool
    ensures { result ≡ on_back.is_granted answer.now }
{
    match answer.get() {
        Some(sent) => matches!(sent.signal.kept, Down::Grant { .. }),
        None => false,
    }
}
