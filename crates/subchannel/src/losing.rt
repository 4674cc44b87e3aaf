//! What a subchannel loses as its unit restarts, or as a path of it is lost, and how its path-available mask follows (own).

ghost use Rattle.std.specs.Prelude.{◌≡◌, ◌<◌, ◌≤◌, ◌^◌, length};
ghost use Rattle.wires.specs.Queues.{lost};
ghost use Rattle.subchannel_model.specs.Losing as spec;
ghost use Rattle.subchannel_model.specs.Programs.{has_any};
ghost use Rattle.functions.specs.Unwired.{with_state};

use chan_model::hold_state::HoldPhase;
use chan_model::names::Path;
use functions::effects::draw_reset;
use functions::{PackedState, Rest, Subchannel};
use hold::Hold;
use status::make_pending;
use subchannel_model::cause::StatusCause;
use wires::Wires;

fn is_offered_or_held(phase: HoldPhase) -> bool
    ensures { result ≡ spec.is_offered_or_held phase }
{
    match phase {
        HoldPhase::Offer { .. } | HoldPhase::On { .. } | HoldPhase::Away { .. } => true,
        HoldPhase::Free | HoldPhase::Letting { .. } | HoldPhase::Reset { .. } => false,
    }
}

/// Whether some program of the subchannel is not over.
fn has_program(rest: &Rest) -> bool
    ensures { result ≡ has_any rest.now.waiting rest.now.begun rest.now.suspended }
{
    rest.waiting.is_some() || rest.begun.is_some() || rest.suspended.is_some()
}

/// The device of the subchannel is lost to it: its hold is to be reset, and where a program was offered or held there, the
/// interface-control check is made pending (SA22-7832, chapter 16).
pub fn reset_for(state: &mut PackedState)
    requires made { state.old.state.serials.made < 2 ^ 63 }
    requires drawn { state.old.state.drawn < 2 ^ 63 }
    ensures { state.new ≡ with_state state.old (spec.reset_for state.old.state) }
{
    let rest = state.rest();
    let shows = is_offered_or_held(rest.hold.phase) && has_program(rest);
    draw_reset(state);
    if shows {
        make_pending(state, &StatusCause::InterfaceControlCheck);
    }
}

/// Which path of these is the channel path of this identifier. None where none is.
pub fn path_index(chpid: u8, paths: &[u8]) -> Option<Path>
    requires { length paths.now ≤ 8 }
    ensures { result ≡ spec.path_index chpid paths.now }
{
    for (index, path) in paths.iter().enumerate() {
        if *path == chpid {
            return Path::new(index as u32);
        }
    }
    None
}

/// A path is lost: a hold that rests on it is to be reset.
fn lose_hold(state: &mut PackedState, path: Path)
    requires made { state.old.state.serials.made < 2 ^ 63 }
    requires drawn { state.old.state.drawn < 2 ^ 63 }
    ensures { state.new ≡ with_state state.old (spec.path_lost state.old.state path) }
{
    // Only the answer counts: `reset_for` draws the number, and resets the hold under it.
    let mut hold = Hold::of(state.rest().hold);
    if hold.path_down(path, state.rest().drawn + 1) {
        reset_for(state);
    }
}

/// A path is lost, with the signals on its wires.
fn lose_both(state: &mut PackedState, wires: &mut Wires, path: Path)
    requires made { state.old.state.serials.made < 2 ^ 63 }
    requires drawn { state.old.state.drawn < 2 ^ 63 }
    ensures state { state.new ≡ with_state state.old (spec.path_lost state.old.state path) }
    ensures wires { wires.new ≡ record { down = lost wires.old.down path; up = lost wires.old.up path } }
{
    lose_hold(state, path);
    wires.lose(path);
}

/// All that is on a channel path is lost: a hold that rests on it is to be reset, and the signals on its wires vanish. Where
/// the subchannel has no such path, nothing changes.
pub fn lose_path(sub: &mut Subchannel, chpid: u8)
    requires made { sub.old.state.serials.made < 2 ^ 63 }
    requires drawn { sub.old.state.drawn < 2 ^ 63 }
    ensures { sub.new ≡ spec.loses chpid sub.old }
{
    if let Some(path) = path_index(chpid, sub.state.setup().paths.as_slice()) {
        lose_both(&mut sub.state, &mut sub.wires, path);
    }
}

/// The path-available mask shows whether a channel path is up. Where the subchannel has no such path, nothing changes.
pub fn show_path(sub: &mut Subchannel, chpid: u8, up: bool)
    ensures { sub.new ≡ spec.shows_path chpid up sub.old }
{
    if let Some(path) = path_index(chpid, sub.state.setup().paths.as_slice()) {
        sub.state.show_path(path, up);
    }
}

/// A channel path goes down: it is lost, and no longer available.
pub fn go_down(sub: &mut Subchannel, chpid: u8)
    requires made { sub.old.state.serials.made < 2 ^ 63 }
    requires drawn { sub.old.state.drawn < 2 ^ 63 }
    ensures { sub.new ≡ spec.goes_down chpid sub.old }
{
    lose_path(sub, chpid);
    show_path(sub, chpid, false);
}
