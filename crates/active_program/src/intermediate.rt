//! Intermediate status: a program-controlled interruption (PCI), and a suspension.

ghost use Rattle.std.specs.Prelude.{◌≡◌, ◌<◌, ◌^◌, option_map};
ghost use Rattle.data_move.specs.Moving.{residual};
ghost use Rattle.subchannel_model.specs.declared.cause.StatusCause.TheVariants as cause;
ghost use Rattle.subchannel_model.specs.Pci as pci;
ghost use Rattle.subchannel_model.specs.Suspension as suspension_spec;
ghost use Rattle.functions.specs.Unwired.{with_state};

use ccw_walk::Walk;
use functions::{PackedState, Rest};
use scsw_irb::bits::{
    CLEAR_PENDING, DEVICE_ACTIVE, HALT_PENDING, RESUME_PENDING, START_PENDING, SUBCHANNEL_ACTIVE,
    SUSPENDED,
};
use scsw_irb::words::ScswWords;
use status::make_pending;
use subchannel_model::cause::StatusCause;
use subchannel_model::state::{ActiveProgram, Program, ProgramPosition};

fn drop_interruption(rest: &mut Rest)
    ensures { rest.new ≡ record rest.old { begun = option_map pci.without_pci rest.old.begun } }
{
    if let Some(begun) = &mut rest.begun {
        begun.transfer.pci_pending = false;
    }
}

fn interruption_of(begun: &ActiveProgram) -> StatusCause
    ensures { result ≡ cause.Pci begun.now.transfer.walk.tried (residual begun.now.transfer.moving) }
{
    StatusCause::Pci {
        tried: begun.transfer.walk.tried(),
        count: begun.transfer.moving.residual(),
    }
}

/// The block that took control last makes the interruption that it asks for.
pub(crate) fn interrupt(state: &mut PackedState)
    requires { state.old.state.serials.made < 2 ^ 63 }
    ensures { state.new ≡ with_state state.old (pci.with_pci state.old.state state.old.state.begun) }
{
    let Some(begun) = &state.rest().begun else {
        return;
    };
    if !begun.transfer.pci_pending {
        return;
    }
    let cause = interruption_of(begun);
    drop_interruption(state.rest_mut());
    make_pending(state, &cause);
}

/// The activity control, but for suspended.
const ACTIVE: u32 = RESUME_PENDING
    | START_PENDING
    | HALT_PENDING
    | CLEAR_PENDING
    | SUBCHANNEL_ACTIVE
    | DEVICE_ACTIVE;

/// Of the activity control, suspended alone is on.
fn suspend_alone(scsw: &mut ScswWords)
    ensures { scsw.new ≡ suspension_spec.suspended_alone scsw.old }
{
    scsw.change(ACTIVE, SUSPENDED);
}

fn stand_still(state: &mut PackedState, program: Program, walk: Walk, count: u16)
    ensures { state.new ≡ with_state state.old (suspension_spec.with_suspended_program state.old.state program walk count) }
{
    let rest = state.rest_mut();
    rest.waiting = None;
    rest.begun = None;
    rest.suspended = Some(ProgramPosition {
        program,
        walk,
        count,
    });
}

/// A program is suspended where it stands; of its last command `count` bytes were not moved.
pub(crate) fn suspend(state: &mut PackedState, program: Program, walk: Walk, count: u16)
    requires { state.old.state.serials.made < 2 ^ 63 }
    ensures { state.new ≡ with_state state.old (suspension_spec.program_suspended state.old.state program walk count) }
{
    stand_still(state, program, walk, count);
    if program.orb.suppress_suspended {
        suspend_alone(state.scsw_mut());
        return;
    }
    let tried = walk.tried();
    make_pending(state, &StatusCause::Suspension { tried, count });
}
