//! What a hold sends for its program, and what of a program it takes.

ghost use Rattle.std.specs.Prelude.{◌≡◌};
ghost use Rattle.agree.specs.Replies as reply_spec;
ghost use Rattle.agreement_laws.specs.Sending as spec;
ghost use Rattle.chan_model.specs.HoldTable as table;
ghost use Rattle.chan_model.specs.Lent.{plain_down};
ghost use Rattle.chan_model.specs.Signals.{map_taken};

use chan_model::hold_state::HoldPhase;
use chan_model::lent::PlainDown;
use chan_model::names::Path;
use chan_model::signal::{Down, OnPath, Taken, Up};
use hold::Hold;

/// Whether the program of this number is connected on this path.
fn is_on_path(hold: &Hold, number: u64, path: Path) -> bool
    ensures { result ≡ spec.is_on_path hold.now.phase number path }
{
    let phase = hold.state().phase;
    match phase {
        HoldPhase::On {
            number: held,
            path: at,
            ..
        } => number == held && path.same(at),
        _ => false,
    }
}

/// Whether the program of this number holds the device and is not connected.
fn is_away(hold: &Hold, number: u64) -> bool
    ensures { result ≡ spec.is_away hold.now.phase number }
{
    match hold.state().phase {
        HoldPhase::Away { number: held } => number == held,
        _ => false,
    }
}

/// Whether a hold may send this signal on this path.
pub fn may_send(hold: &Hold, path: Path, signal: &Down) -> bool
    ensures { result ≡ spec.may_send hold.now.phase path signal.now }
{
    match signal {
        Down::Command { number, .. } => is_on_path(hold, *number, path),
        Down::Took { number, .. } => is_on_path(hold, *number, path),
        Down::Give {
            number,
            connection,
            ..
        } => hold.is_connected(path, *number, *connection),
        Down::Halt { number } => is_on_path(hold, *number, path) || is_away(hold, *number),
        _ => false,
    }
}

/// What comes of a signal that the hold takes.
pub fn met_by(hold: &mut Hold, signal: &OnPath<Up>, may: bool) -> Taken<PlainDown>
    ensures state { hold.new ≡ table.hold_after hold.old (table.hold_takes hold.old signal.now.path signal.now.signal may) }
    ensures outcome { map_taken plain_down result ≡ table.outcome_of (table.hold_takes hold.old signal.now.path signal.now.signal may) }
{
    let kept = signal.signal.keep();
    hold.take(signal.path, &kept.lend(signal.signal.bytes()), may)
}

/// Whether a signal is taken, by the hold or by its program. `may` says, at Data and End, that the program waits for it.
pub fn is_taken(hold: &Hold, signal: &OnPath<Up>, may: bool) -> bool
    ensures { result ≡ reply_spec.is_taken hold.now signal.now.path signal.now.signal may }
{
    match &signal.signal {
        Up::Data {
            number,
            connection,
            ..
        } => hold.is_connected(signal.path, *number, *connection) && may,
        Up::End { number, .. } => hold.is_on(*number) && may,
        _ => {
            let mut new = *hold;
            met_by(&mut new, signal, may).taken
        }
    }
}
