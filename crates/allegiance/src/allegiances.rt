//! Active, working and dedicated allegiance (SA22-7832, chapter 15).

ghost use Rattle.std.specs.Prelude.{◌≡◌, ℕ};
ghost use Rattle.chan_model.specs.ResetCauses.{engaged_path, rests_on};
ghost use Rattle.allegiance.specs.Allegiances as spec;

use chan_model::hold_state::{HoldPhase, HoldState};
use chan_model::names::Path;
use chan_model::paths::PathSet;

/// What may change a dedicated allegiance (own). `later` says of a signal that it is the first Data or End of the first
/// command of a program that was started after the one whose unit check brought the allegiance.
#[derive(Clone, Copy, Debug)]
pub enum AllegianceCause {
    /// A Data was taken.
    Data {
        later: bool,
    },
    /// An End was taken that came by this path; its status holds unit check or does not.
    End {
        path: Path,
        unit_check: bool,
        later: bool,
    },
    /// CLEAR SUBCHANNEL was accepted.
    Clear,
    /// The channel subsystem was reset.
    SystemReset,
}

/// The active allegiance: the path whose engine the subchannel engages, which STORE CHANNEL PATH STATUS shows. None where
/// the hold is free, away, or to be reset.
pub fn active(hold: &HoldState) -> Option<Path>
    ensures { result ≡ engaged_path hold.now.phase }
{
    match hold.phase {
        HoldPhase::Offer { path, .. }
        | HoldPhase::On { path, .. }
        | HoldPhase::Letting { path, .. } => Some(path),
        HoldPhase::Free | HoldPhase::Away { .. } | HoldPhase::Reset { .. } => None,
    }
}

/// The working allegiance, which stands while a program holds the device, connected or away: in single-path mode to the path
/// of its Accept, in multipath mode to the path on which it was connected last. `last_used` is the path of the last Accept or
/// granted reconnection, which the last-path-used mask shows; the hold alone does not keep it while the program is away.
pub fn working(hold: &HoldState, last_used: Option<Path>) -> Option<Path>
    ensures path { result ≡ spec.working_path hold.now last_used }
    ensures loss { (path : ℕ) → rests_on hold.now path ≡ spec.rests_by hold.now result path }
{
    match hold.phase {
        HoldPhase::On { .. } | HoldPhase::Away { .. } if hold.single_path => hold.first_path,
        HoldPhase::On { path, .. } => Some(path),
        HoldPhase::Away { .. } => last_used,
        _ => None,
    }
}

/// The dedicated allegiance after such a cause, where this one stood before: the path that the subchannel is bound to, or
/// None.
pub fn dedicated(before: Option<Path>, cause: AllegianceCause) -> Option<Path>
    ensures { result ≡ spec.dedicated_after before cause }
{
    match cause {
        AllegianceCause::Data { later } => unless_later(before, later),
        AllegianceCause::End {
            path,
            unit_check,
            later,
        } => {
            if unit_check {
                Some(path)
            } else {
                unless_later(before, later)
            }
        }
        AllegianceCause::Clear | AllegianceCause::SystemReset => None,
    }
}

/// The allegiance that stood before, unless a later program ended it.
fn unless_later(before: Option<Path>, later: bool) -> Option<Path>
    ensures { result ≡ spec.unless_later before later }
{
    if later { None } else { before }
}

/// Whether a program that is away may be granted its reconnection by this path: in single-path mode by the path of its Accept
/// alone, in multipath mode by each path that is available (PAM).
pub fn may_reconnect(hold: &HoldState, available: &PathSet, path: Path) -> bool
    ensures { result ≡ spec.may_reconnect hold.now available.now path }
{
    if !hold.single_path {
        return available.has(path);
    }
    match hold.first_path {
        None => false,
        Some(first) => first.same(path),
    }
}
