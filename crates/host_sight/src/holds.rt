//! What the subsystem takes the device of a subchannel to be held by.

ghost use Rattle.std.specs.Prelude.{◌≡◌};
ghost use Rattle.host_sight.specs.Holds as spec;

use crate::told::{NO_PATH, flag_told, path_told};
use chan_model::hold_state::{HoldPhase, HoldState};
use chan_model::names::Path;

/// What the subsystem takes the device of a subchannel to be held by.
#[repr(C)]
#[derive(Clone, Copy)]
pub struct HostHold {
    /// The number under which a program is offered, holds the device or is let go, or the device is to be reset; 0 where it is free.
    pub number: u64,
    /// Of a program that is on: its connection, 0 for that of its Accept.
    pub connection: u64,
    /// The last connection number that was seen since the Accept.
    pub seen: u64,
    /// How often the unit was restarted, as far as the subsystem knows.
    pub restarts: u64,
    /// 0 free, 1 a program is offered, 2 it is on, 3 it is away, 4 the device is let go, 5 it is to be reset.
    pub phase: u32,
    /// The index of the path of a program that is offered, on or let go; 8 where there is none.
    pub path: u32,
    /// The index of the path on which the Reset was sent; 8 where none was.
    pub reset_path: u32,
    /// The index of the path of the last Accept; 8 where there was none.
    pub first_path: u32,
    /// Whether the program keeps to the path of its Accept: 1, else 0.
    pub single_path: u32,
}

impl HostHold {
    /// Nothing holds the device; the rest is that of a state.
    fn free_of(state: &HoldState) -> HostHold
        ensures { result ≡ spec.free_of state.now }
    {
        HostHold {
            number: 0,
            connection: 0,
            seen: state.seen,
            restarts: state.known_restarts,
            phase: 0,
            path: NO_PATH,
            reset_path: path_told(state.reset_path),
            first_path: path_told(state.first_path),
            single_path: flag_told(state.single_path),
        }
    }

    /// The same in a phase that names a number and no path.
    fn without_path(self, phase: u32, number: u64) -> HostHold
        ensures { result ≡ record self { phase = phase; number = number } }
    {
        HostHold {
            phase,
            number,
            ..self
        }
    }

    /// The same in a phase that names a number and a path.
    fn on_path(self, phase: u32, number: u64, path: Path) -> HostHold
        ensures { result ≡ record self { phase = phase; number = number; path = path } }
    {
        HostHold {
            path: path.index() as u32,
            ..self.without_path(phase, number)
        }
    }

    /// What a state says.
    pub fn of(state: &HoldState) -> HostHold
        ensures { result ≡ spec.hold_told state.now }
    {
        let free = HostHold::free_of(state);
        match state.phase {
            HoldPhase::Free => free,
            HoldPhase::Offer { number, path } => free.on_path(1, number, path),
            HoldPhase::On {
                number,
                path,
                connection,
            } => HostHold {
                connection,
                ..free.on_path(2, number, path)
            },
            HoldPhase::Away { number } => free.without_path(3, number),
            HoldPhase::Letting { number, path } => free.on_path(4, number, path),
            HoldPhase::Reset { number } => free.without_path(5, number),
        }
    }
}
