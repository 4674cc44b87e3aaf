//! What the hold does with each signal, and what its state says.

ghost use Rattle.std.specs.Prelude.{◌≡◌, None, Some, true};
ghost use Rattle.chan_model.specs.HoldTable as table;
ghost use Rattle.chan_model.specs.ResetCauses as causes;
ghost use Rattle.chan_model.specs.Lent.{lent_up, plain_down};
ghost use Rattle.chan_model.specs.Signals.{map_taken};

use chan_model::hold_state::{HoldPhase, HoldState};
use chan_model::lent::{LentUp, PlainDown};
use chan_model::names::Path;
use chan_model::signal::{Down, Taken, Up};

/// What came of a signal; none of those that the hold sends has bytes.
type Outcome = Taken<PlainDown>;

/// A signal that came by a path.
pub fn takes(hold: &mut HoldState, path: Path, signal: &LentUp<'_>, may: bool) -> Outcome
    ensures state { hold.new ≡ table.hold_after hold.old (table.hold_takes hold.old path (lent_up signal.now) may) }
    ensures outcome { map_taken plain_down result ≡ table.outcome_of (table.hold_takes hold.old path (lent_up signal.now) may) }
{
    match *signal.kept {
        Up::Accept { number } => accepted(hold, number, may),
        Up::Busy { number } => found_busy(hold, number),
        Up::Leave { number, connection } => left(hold, number, connection),
        Up::Back { number, connection } => asked_back(hold, path, number, connection, may),
        Up::Data { .. } | Up::End { .. } => Taken::ignored(),
        Up::Released { number } => released(hold, number),
        Up::Cleared { number } => cleared(hold, number),
        Up::Notice { restarts } => noticed(hold, restarts),
        Up::Attn { attention, .. } => attended(hold, path, attention, may),
    }
}

/// Accept of the number that is offered: the program goes on, or lets the device go at once.
fn accepted(hold: &mut HoldState, number: u64, goes_on: bool) -> Outcome
    ensures state { hold.new ≡ table.hold_after hold.old (table.offer_accepted hold.old hold.old.phase number goes_on) }
    ensures outcome { map_taken plain_down result ≡ table.outcome_of (table.offer_accepted hold.old hold.old.phase number goes_on) }
{
    let phase = hold.phase;
    match phase {
        HoldPhase::Offer {
            number: offered,
            path,
        } if number == offered => begun(hold, offered, path, goes_on),
        _ => Taken::ignored(),
    }
}

/// The program of this number was accepted on this path.
fn begun(hold: &mut HoldState, number: u64, path: Path, goes_on: bool) -> Outcome
    ensures state { hold.new ≡ (table.program_begun hold.old number path goes_on).state }
    ensures outcome { map_taken plain_down result ≡ table.outcome_of (Some (table.program_begun hold.old number path goes_on)) }
{
    hold.seen = 0;
    hold.first_path = Some(path);
    if goes_on {
        hold.phase = HoldPhase::On {
            number,
            path,
            connection: 0,
        };
        Taken::quietly()
    } else {
        hold.phase = HoldPhase::Letting { number, path };
        Taken::sending(path, PlainDown::of(Down::Release { number }))
    }
}

/// Busy at the number that is offered: the program waits again.
fn found_busy(hold: &mut HoldState, number: u64) -> Outcome
    ensures state { hold.new ≡ table.hold_after hold.old (table.found_busy hold.old hold.old.phase number) }
    ensures outcome { map_taken plain_down result ≡ table.outcome_of (table.found_busy hold.old hold.old.phase number) }
{
    match hold.phase {
        HoldPhase::Offer {
            number: offered,
            ..
        } if number == offered => {
            hold.phase = HoldPhase::Free;
            Taken::quietly()
        }
        _ => Taken::ignored(),
    }
}

/// Leave of the connection at hand.
fn left(hold: &mut HoldState, number: u64, connection: u64) -> Outcome
    ensures state { hold.new ≡ table.hold_after hold.old (table.left hold.old hold.old.phase number connection) }
    ensures outcome { map_taken plain_down result ≡ table.outcome_of (table.left hold.old hold.old.phase number connection) }
{
    match hold.phase {
        HoldPhase::On {
            number: held,
            connection: last,
            ..
        } if number == held && last == connection => {
            hold.phase = HoldPhase::Away { number: held };
            Taken::quietly()
        }
        _ => Taken::ignored(),
    }
}

/// Back under a connection above the last seen: granted where the program is away and may come, refused elsewhere.
fn asked_back(
    hold: &mut HoldState,
    path: Path,
    number: u64,
    connection: u64,
    path_allowed: bool,
) -> Outcome
    ensures state { hold.new ≡ table.hold_after hold.old (table.asked_back hold.old hold.old.phase path number connection path_allowed) }
    ensures outcome { map_taken plain_down result ≡ table.outcome_of (table.asked_back hold.old hold.old.phase path number connection path_allowed) }
{
    match hold.phase {
        HoldPhase::On { number: held, .. } if number == held && hold.seen < connection => {
            refusing(hold, path, held, connection)
        }
        HoldPhase::Away { number: held } if number == held && hold.seen < connection => {
            if path_allowed {
                granting(hold, path, held, connection)
            } else {
                refusing(hold, path, held, connection)
            }
        }
        _ => Taken::ignored(),
    }
}

/// A connection is refused on the path by which it came.
fn refusing(hold: &mut HoldState, path: Path, number: u64, connection: u64) -> Outcome
    ensures state { hold.new ≡ (table.refusing hold.old path number connection).state }
    ensures outcome { map_taken plain_down result ≡ table.outcome_of (Some (table.refusing hold.old path number connection)) }
{
    hold.seen = connection;
    Taken::sending(path, PlainDown::of(Down::Refuse { number, connection }))
}

/// A connection is granted on the path by which it came.
fn granting(hold: &mut HoldState, path: Path, number: u64, connection: u64) -> Outcome
    ensures state { hold.new ≡ (table.granting hold.old path number connection).state }
    ensures outcome { map_taken plain_down result ≡ table.outcome_of (Some (table.granting hold.old path number connection)) }
{
    hold.seen = connection;
    hold.phase = HoldPhase::On {
        number,
        path,
        connection,
    };
    Taken::sending(path, PlainDown::of(Down::Grant { number, connection }))
}

/// Released of the number that is let go.
fn released(hold: &mut HoldState, number: u64) -> Outcome
    ensures state { hold.new ≡ table.hold_after hold.old (table.released hold.old hold.old.phase number) }
    ensures outcome { map_taken plain_down result ≡ table.outcome_of (table.released hold.old hold.old.phase number) }
{
    match hold.phase {
        HoldPhase::Letting { number: let_go, .. } if number == let_go => {
            hold.phase = HoldPhase::Free;
            Taken::quietly()
        }
        _ => Taken::ignored(),
    }
}

/// Cleared of the Reset's number.
fn cleared(hold: &mut HoldState, number: u64) -> Outcome
    ensures state { hold.new ≡ table.hold_after hold.old (table.reset_cleared hold.old hold.old.phase number) }
    ensures outcome { map_taken plain_down result ≡ table.outcome_of (table.reset_cleared hold.old hold.old.phase number) }
{
    match hold.phase {
        HoldPhase::Reset { number: last } if number == last => {
            hold.phase = HoldPhase::Free;
            hold.reset_path = None;
            Taken::quietly()
        }
        _ => Taken::ignored(),
    }
}

/// Notice of more restarts than are known.
fn noticed(hold: &mut HoldState, restarts: u64) -> Outcome
    ensures state { hold.new ≡ table.hold_after hold.old (table.noticed hold.old restarts) }
    ensures outcome { map_taken plain_down result ≡ table.outcome_of (table.noticed hold.old restarts) }
{
    if hold.known_restarts < restarts {
        hold.known_restarts = restarts;
        Taken::quietly()
    } else {
        Taken::ignored()
    }
}

/// Attn where nothing holds the device: answered where the subchannel can show it.
fn attended(hold: &mut HoldState, path: Path, attention: u64, can_be_shown: bool) -> Outcome
    ensures state { hold.new ≡ table.hold_after hold.old (table.attended hold.old hold.old.phase path attention can_be_shown) }
    ensures outcome { map_taken plain_down result ≡ table.outcome_of (table.attended hold.old hold.old.phase path attention can_be_shown) }
{
    match hold.phase {
        HoldPhase::Free if can_be_shown => Taken::sending(
            path,
            PlainDown::of(Down::Got { attention }),
        ),
        _ => Taken::ignored(),
    }
}

/// The path of Offer, On or Letting.
pub fn engaged_path(hold: &HoldState) -> Option<Path>
    ensures { result ≡ causes.engaged_path hold.now.phase }
{
    match hold.phase {
        HoldPhase::Offer { path, .. }
        | HoldPhase::On { path, .. }
        | HoldPhase::Letting { path, .. } => Some(path),
        HoldPhase::Free | HoldPhase::Away { .. } | HoldPhase::Reset { .. } => None,
    }
}

/// Whether it rests on a path: engaged there, or dedicated to it in single-path mode, or waiting there for the answer to
/// a Reset.
pub fn rests_on(hold: &HoldState, path: Path) -> bool
    ensures { result ≡ causes.rests_on hold.now path }
{
    is_path(engaged_path(hold), path)
        || (is_held(hold) && hold.single_path && is_path(hold.first_path, path))
        || (is_reset(hold) && is_path(hold.reset_path, path))
}

/// Whether a program holds the device.
fn is_held(hold: &HoldState) -> bool
    ensures { result ≡ causes.is_held hold.now.phase }
{
    matches!(hold.phase, HoldPhase::On { .. } | HoldPhase::Away { .. })
}

/// Whether the device is to be reset.
fn is_reset(hold: &HoldState) -> bool
    ensures { result ≡ causes.is_reset hold.now.phase }
{
    matches!(hold.phase, HoldPhase::Reset { .. })
}

/// Whether there is a path, and it is this one.
fn is_path(path: Option<Path>, other: Path) -> bool
    ensures { result ≡ causes.is_path path other }
{
    path.is_some_and(|path| path.same(other))
}
