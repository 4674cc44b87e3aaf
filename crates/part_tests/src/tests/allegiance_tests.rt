//! The working allegiance.

use allegiance::allegiances::working;
use chan_model::hold_state::{HoldPhase, HoldState};
use chan_model::names::Path;
use chan_model::paths::mask_of_path;

/// A program that is connected on path 4.
fn on_path_4() -> HoldPhase {
    HoldPhase::On {
        number: 7,
        path: Path::new(4).unwrap(),
        connection: 2,
    }
}

/// A program that is away.
fn away() -> HoldPhase {
    HoldPhase::Away { number: 7 }
}

/// The mask of the path that a program works by, whose first path is 1 and whose last is 2.
fn mask_of_working(phase: HoldPhase, single_path: bool) -> u8 {
    let hold = HoldState {
        phase,
        seen: 2,
        known_restarts: 0,
        reset_path: None,
        first_path: Path::new(1),
        single_path,
    };
    mask_of_path(working(&hold, Path::new(2)))
}

#[test]
fn a_program_works_by_its_first_path_or_by_its_last(rt: HostRuntime) {
    let single = (
        mask_of_working(on_path_4(), true),
        mask_of_working(away(), true),
    );
    let multiple = (
        mask_of_working(on_path_4(), false),
        mask_of_working(away(), false),
    );
    assert!(rt; single == (0x40, 0x40) && multiple == (0x08, 0x20));
    assert!(rt; mask_of_working(HoldPhase::Free, true) == 0);
}
