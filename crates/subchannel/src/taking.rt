//! What a subchannel does with a signal that came up by a path (own).

ghost use Rattle.std.specs.Prelude.{◌≡◌, ◌<◌, ◌^◌, false};
ghost use Rattle.chan_model.specs.HoldTable.{hold_takes};
ghost use Rattle.chan_model.specs.Lent.{lent_up};
ghost use Rattle.active_program.specs.Sent.{outcome_with};
ghost use Rattle.subchannel.specs.Answering.{is_data};
ghost use Rattle.active_program.specs.Stepping.{subchannel_stepped};
ghost use Rattle.subchannel_model.specs.Cleared as on_cleared;
ghost use Rattle.subchannel_model.specs.Notice as on_notice;
ghost use Rattle.subchannel_model.specs.Command as command;
ghost use Rattle.subchannel_model.specs.Outcomes as outcomes;
ghost use Rattle.subchannel_model.specs.Taking as spec;
ghost use Rattle.functions.specs.Unwired.{with_state};

use crate::attending::attend;
use crate::losing::reset_for;
use crate::returning::come_back;
use active_program::accepting::accept;
use active_program::answers::{by_hold, ignored, quiet, take_by};
use active_program::ending::end_command;
use active_program::met::Met;
use active_program::moving::take_data;
use active_program::sent::SentDown;
use chan_model::lent::LentUp;
use chan_model::names::Path;
use chan_model::signal::Up;
use functions::PackedState;
use hold::Hold;
use scsw_irb::bits::CLEAR_PENDING;
use status::make_pending;
use storage_keys::MainStorage;
use subchannel_model::cause::StatusCause;

/// A clear that is pending is performed.
fn do_clear(state: &mut PackedState)
    requires { state.old.state.serials.made < 2 ^ 63 }
    ensures { state.new ≡ with_state state.old (on_cleared.clear_performed state.old.state) }
{
    if state.scsw().any(CLEAR_PENDING) {
        make_pending(state, &StatusCause::ClearDone);
    }
}

/// Cleared: the device was reset.
fn reset_taken(state: &mut PackedState, path: Path, signal: &LentUp<'_>, sent: &mut SentDown) -> Met
    requires { state.old.state.serials.made < 2 ^ 63 }
    ensures step { subchannel_stepped state.new.state (outcome_with result sent.new) ≡ on_cleared.takes_cleared state.old.state (hold_takes state.old.state.hold path (lent_up signal.now) false) }
    ensures setup { state.new.setup ≡ state.old.setup }
{
    let mut hold = Hold::of(state.rest().hold);
    let met = take_by(&mut hold, path, signal, false, sent);
    if !met.is_taken() {
        return ignored(sent);
    }
    state.rest_mut().hold = hold.state();
    do_clear(state);
    met
}

/// Notice: the unit restarted. A count above the one known becomes known, and the hold is to be reset.
fn notice(state: &mut PackedState, restarts: u64, sent: &mut SentDown) -> Met
    requires made { state.old.state.serials.made < 2 ^ 63 }
    requires drawn { state.old.state.drawn < 2 ^ 63 }
    ensures step { subchannel_stepped state.new.state (outcome_with result sent.new) ≡ on_notice.takes_notice state.old.state restarts }
    ensures setup { state.new.setup ≡ state.old.setup }
{
    if restarts <= state.rest().hold.known_restarts {
        return ignored(sent);
    }
    state.rest_mut().hold.known_restarts = restarts;
    reset_for(state);
    quiet(sent)
}

/// A subchannel takes a signal that moves no bytes, so that storage stays: whether it was taken, with what is sent in a slot.
/// `returns`: a program that is away may come back by the path.
#[tactic(auto, using(crate::proofs::Working::end_takes))]
pub fn take_unmoved<M: MainStorage>(
    storage: &M,
    state: &mut PackedState,
    path: Path,
    signal: &LentUp<'_>,
    returns: bool,
    sent: &mut SentDown,
) -> Met
    requires made { state.old.state.serials.made < 2 ^ 63 }
    requires drawn { state.old.state.drawn < 2 ^ 63 }
    requires below { command.AreNumbersBelow state.old.state.begun }
    requires unmoved { is_data (lent_up signal.now) ≡ false }
    ensures met { outcomes.with_storage (M.contents storage.now) (subchannel_stepped state.new.state (outcome_with result sent.new)) ≡ spec.takes_up returns (M.contents storage.now) state.old.state path (lent_up signal.now) }
    ensures setup { state.new.setup ≡ state.old.setup }
{
    match *signal.kept {
        Up::Accept { .. } => accept(storage, state, path, signal, sent),
        Up::End { .. } => end_command(storage, state, path, signal, sent),
        Up::Cleared { .. } => reset_taken(state, path, signal, sent),
        Up::Back { .. } => come_back(state, path, signal, returns, sent),
        Up::Notice { restarts } => notice(state, restarts, sent),
        Up::Attn { status, .. } => attend(state, path, signal, status, sent),
        _ => by_hold(state, path, signal, false, sent),
    }
}

/// A subchannel takes a signal: whether it was taken, with what is sent in a slot. The bytes of a read are stored.
/// `returns`: a program that is away may come back by the path.
pub fn take_up<M: MainStorage>(
    storage: &mut M,
    state: &mut PackedState,
    path: Path,
    signal: &LentUp<'_>,
    returns: bool,
    sent: &mut SentDown,
) -> Met
    requires made { state.old.state.serials.made < 2 ^ 63 }
    requires drawn { state.old.state.drawn < 2 ^ 63 }
    requires below { command.AreNumbersBelow state.old.state.begun }
    ensures met { outcomes.with_storage (M.contents storage.new) (subchannel_stepped state.new.state (outcome_with result sent.new)) ≡ spec.takes_up returns (M.contents storage.old) state.old.state path (lent_up signal.now) }
    ensures setup { state.new.setup ≡ state.old.setup }
    ensures lender { M.lender storage.new ≡ M.lender storage.old }
{
    match *signal.kept {
        Up::Data { .. } => take_data(storage, state, path, signal, sent),
        _ => take_unmoved(storage, state, path, signal, returns, sent),
    }
}
