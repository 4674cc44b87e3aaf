//! Whether a signal is answered, and by which path, before anything is changed.

ghost use Rattle.std.specs.Prelude.{◌≡◌, ◌<◌, ◌^◌, false, is_some, ℕ, Bool};
ghost use Rattle.chan_model.specs.Lent.{lent_up};
ghost use Rattle.chan_model.specs.Signals as signals;
ghost use Rattle.active_program.specs.Sent.{sent_path};
ghost use Rattle.subchannel_model.specs.Taking as taking_spec;
ghost use Rattle.subchannel_model.specs.Command as command_spec;
ghost use Rattle.subchannel.specs.Answering as spec;
ghost use Rattle.active_program.specs.Working as working_spec;
ghost use Rattle.storage_keys.specs.Storage.{Contents};
ghost use Rattle.subchannel_model.specs.declared.state.SubchannelState.{SubchannelState};

use crate::taking::take_unmoved;
use active_program::moving::data_by;
use active_program::sent::SentDown;
use chan_model::hold_state::{HoldPhase, HoldState};
use chan_model::lent::LentUp;
use chan_model::names::Path;
use chan_model::signal::Up;
use data_move::chunks::is_answered;
use functions::PackedState;
use hold::Hold;
use storage_keys::MainStorage;

/// The path of the program that is offered or connected.
pub fn standing_path(hold: &HoldState) -> Option<Path>
    ensures { result ≡ spec.standing_path hold.now.phase }
{
    match hold.phase {
        HoldPhase::Offer { path, .. } | HoldPhase::On { path, .. } => Some(path),
        _ => None,
    }
}

/// An answer goes by the path of its signal, or by that of the program that is offered or connected. A law; the call does
/// nothing.
#[tactic(auto, using(crate::proofs::AnswerPaths::answer_goes))]
pub fn answer_paths()
    ensures { (returns : Bool) (storage : Contents) (s : SubchannelState) (path : ℕ) (signal : signals.Up) →
        spec.IsAnswerPath s.hold.phase path (sent_path (taking_spec.takes_up returns storage s path signal).step.outcome.sent) }
{}

/// Whether the program that is connected answers a Data of this path: one of its command, and not of a chunk before the last.
fn answers_data(state: &PackedState, path: Path, signal: &LentUp<'_>) -> bool
    requires { command_spec.AreNumbersBelow state.now.state.begun }
    ensures { result ≡ is_some (working_spec.moved_by state.now.state path (lent_up signal.now)) }
{
    let Some(data) = data_by(path, signal) else {
        return false;
    };
    if !Hold::of(state.rest().hold).is_connected(path, data.number, data.connection) {
        return false;
    }
    match &state.rest().begun {
        None => false,
        Some(begun) => is_answered(&begun.transfer, data.command, data.sequence),
    }
}

/// The path of the signal that is sent as this one is taken; None where none is sent. A Data is answered by its path, since its bytes
/// are not to be stored yet; any other signal is taken by a copy of the state.
#[tactic(auto, using(crate::proofs::Answered::data_answers))]
pub fn answer_path<M: MainStorage>(
    storage: &M,
    state: &PackedState,
    path: Path,
    signal: &LentUp<'_>,
    returns: bool,
) -> Option<Path>
    requires made { state.now.state.serials.made < 2 ^ 63 }
    requires drawn { state.now.state.drawn < 2 ^ 63 }
    requires below { command_spec.AreNumbersBelow state.now.state.begun }
    ensures { sent_path (taking_spec.takes_up returns (M.contents storage.now) state.now.state path (lent_up signal.now)).step.outcome.sent ≡ result }
{
    match *signal.kept {
        Up::Data { .. } if answers_data(state, path, signal) => Some(path),
        Up::Data { .. } => None,
        _ => unmoved_path(storage, state, path, signal, returns),
    }
}

/// The path of the signal that a copy of the state sends.
fn unmoved_path<M: MainStorage>(
    storage: &M,
    state: &PackedState,
    path: Path,
    signal: &LentUp<'_>,
    returns: bool,
) -> Option<Path>
    requires made { state.now.state.serials.made < 2 ^ 63 }
    requires drawn { state.now.state.drawn < 2 ^ 63 }
    requires below { command_spec.AreNumbersBelow state.now.state.begun }
    requires unmoved { spec.is_data (lent_up signal.now) ≡ false }
    ensures { sent_path (taking_spec.takes_up returns (M.contents storage.now) state.now.state path (lent_up signal.now)).step.outcome.sent ≡ result }
{
    let mut copy = state.copy();
    let mut sent = SentDown::new();
    let _ = take_unmoved(storage, &mut copy, path, signal, returns, &mut sent);
    sent.path()
}
