//! The programs of a subchannel.

ghost use Rattle.std.specs.Prelude.{◌≡◌};
ghost use Rattle.host_sight.specs.Programs as spec;

use functions::state::PackedState;
use subchannel_model::state::{ActiveProgram, Program, ProgramPosition};

/// The programs of a subchannel, each by the number of its start, which is counted from 1; 0 where there is none.
#[repr(C)]
#[derive(Clone, Copy)]
pub struct HostPrograms {
    /// How many starts were accepted.
    pub starts: u64,
    /// The program that waits to be begun.
    pub waiting: u64,
    /// The program that holds the device.
    pub holding: u64,
    /// The program that is suspended.
    pub suspended: u64,
    /// The program that was offered last.
    pub offered: u64,
    /// The last number that was drawn, for an offer or a Reset.
    pub drawn: u64,
}

/// The start of the program that waits.
fn waiting_start(program: Option<Program>) -> u64
    ensures { result ≡ spec.waiting_start program }
{
    match program {
        None => 0,
        Some(program) => program.start,
    }
}

/// The start of the program that holds the device.
fn holding_start(active: Option<ActiveProgram>) -> u64
    ensures { result ≡ spec.holding_start active }
{
    match active {
        None => 0,
        Some(active) => active.program.start,
    }
}

/// The start of the program that is suspended.
fn suspended_start(position: Option<ProgramPosition>) -> u64
    ensures { result ≡ spec.suspended_start position }
{
    match position {
        None => 0,
        Some(position) => position.program.start,
    }
}

impl HostPrograms {
    /// Those of a subchannel.
    pub fn of(state: &PackedState) -> HostPrograms
        ensures { result ≡ spec.programs_told state.now.state }
    {
        let rest = state.rest();
        HostPrograms {
            starts: rest.starts,
            waiting: waiting_start(rest.waiting),
            holding: holding_start(rest.begun),
            suspended: suspended_start(rest.suspended),
            offered: rest.offered,
            drawn: rest.drawn,
        }
    }
}
