//! What each accepted instruction leaves of a subchannel (SA22-7832, chapter 14; own). What it changes of the status word are bits
//! of word 0; a start changes all of it.

ghost use Rattle.std.specs.Prelude.{◌≡◌, ◌<◌, ◌^◌, None};
ghost use Rattle.scsw_irb.specs.Empty.{zero_scsw};
ghost use Rattle.schib_block.specs.Reading.{pmcw_of_words};
ghost use Rattle.subchannel_model.specs.Status as status_spec;
ghost use Rattle.subchannel_model.specs.Resume as resume_spec;
ghost use Rattle.subchannel_model.specs.Losing as losing_spec;
ghost use Rattle.subchannel_model.specs.Halt as halt_spec;
ghost use Rattle.subchannel_model.specs.Clear as clear_spec;
ghost use Rattle.subchannel_model.specs.Cancel as cancel_spec;
ghost use Rattle.subchannel_model.specs.Modify as modify_spec;
ghost use Rattle.subchannel_model.specs.Start as start_spec;
ghost use Rattle.functions.specs.Unwired.{with_state};

use crate::codes::{is_intermediate_alone, is_pending};
use crate::{PackedState, Rest};
use allegiance::allegiances::{AllegianceCause, dedicated};
use hold::Hold;
use orb_block::Orb;
use scsw_irb::bits::{
    CLEAR_FUNCTION, CLEAR_PENDING, DEVICE_ACTIVE, FUNCTIONS, HALT_FUNCTION, HALT_PENDING,
    PATH_NOT_OPERATIONAL, RESUME_PENDING, START_PENDING, STATUS, SUBCHANNEL_ACTIVE, SUSPENDED,
};
use scsw_irb::scsw::Scsw;
use scsw_irb::serials::Serials;
use scsw_irb::words::ScswWords;
use subchannel_model::state::Program;

/// What START SUBCHANNEL leaves of a status word of zeros.
fn started_scsw(orb: &Orb) -> Scsw
    ensures { result ≡ start_spec.started_scsw zero_scsw orb.now }
{
    let mut scsw = Scsw::zero();
    scsw.key = orb.key;
    scsw.suspend = orb.suspend;
    scsw.format_one = orb.format_one;
    scsw.prefetch = orb.prefetch;
    scsw.initial_status = orb.initial_status;
    scsw.address_limit = orb.address_limit;
    scsw.suppress_suspended = orb.suppress_suspended;
    scsw.functions.start = true;
    scsw.activity.start_pending = true;
    scsw.command_address = orb.program;
    scsw
}

/// An earlier program's device active stays, and so does the status control.
fn start_scsw(scsw: &mut ScswWords, orb: &Orb)
    ensures { scsw.new ≡ start_spec.started_scsw scsw.old orb.now }
{
    scsw.replace(DEVICE_ACTIVE | STATUS, started_scsw(orb));
}

/// START SUBCHANNEL with code 0.
pub fn start(state: &mut PackedState, orb: &Orb)
    requires { state.old.state.starts < 2 ^ 63 }
    ensures { state.new ≡ with_state state.old (start_spec.started state.old.state orb.now) }
{
    let single_path = !state.is_multipath();
    state.start_paths(orb);
    start_scsw(state.scsw_mut(), orb);
    let rest = state.rest_mut();
    rest.starts += 1;
    rest.waiting = Some(Program {
        start: rest.starts,
        orb: *orb,
        single_path,
    });
    rest.suspended = None;
}

/// Resume pending is set.
fn resume_scsw(scsw: &mut ScswWords)
    ensures { scsw.new ≡ resume_spec.resumed_scsw scsw.old }
{
    scsw.change(0, RESUME_PENDING);
}

/// RESUME SUBCHANNEL with code 0.
pub(crate) fn resume(state: &mut PackedState)
    ensures { state.new ≡ with_state state.old (resume_spec.resumed state.old.state) }
{
    if state.scsw().any(SUSPENDED) {
        state.find_operational();
    }
    resume_scsw(state.scsw_mut());
}

fn drops_status(scsw: &ScswWords) -> bool
    ensures { result ≡ halt_spec.drops_status scsw.now }
{
    is_pending(scsw) && is_intermediate_alone(scsw) && scsw.any(SUBCHANNEL_ACTIVE)
}

/// The counts once all status that was made is cleared.
pub fn clear_serials(serials: &mut Serials)
    ensures { serials.new ≡ status_spec.serials_cleared serials.old }
{
    serials.cleared = serials.made;
}

/// The halt function and halt pending are set.
fn halt_scsw(scsw: &mut ScswWords)
    ensures { scsw.new ≡ halt_spec.halted_scsw scsw.old }
{
    scsw.change(0, HALT_FUNCTION | HALT_PENDING);
}

fn halting(state: &mut PackedState)
    ensures { state.new ≡ with_state state.old (halt_spec.halt_begun state.old.state) }
{
    state.find_operational();
    halt_scsw(state.scsw_mut());
}

/// Its status is no longer pending: the status control is cleared.
pub fn drop_scsw(scsw: &mut ScswWords)
    ensures { scsw.new ≡ status_spec.without_status scsw.old }
{
    scsw.change(STATUS, 0);
}

fn drop_status(state: &mut PackedState)
    ensures { state.new ≡ with_state state.old (halt_spec.status_dropped state.old.state) }
{
    drop_scsw(state.scsw_mut());
    clear_serials(&mut state.rest_mut().serials);
}

/// HALT SUBCHANNEL with code 0.
pub(crate) fn halt(state: &mut PackedState)
    ensures { state.new ≡ with_state state.old (halt_spec.halted state.old.state) }
{
    let drops = drops_status(state.scsw());
    halting(state);
    if drops {
        drop_status(state);
    }
}

/// The clear function and clear pending alone.
fn cleared_scsw() -> ScswWords
    ensures { result ≡ clear_spec.cleared_scsw }
{
    let mut scsw = ScswWords::zero();
    scsw.change(0, CLEAR_FUNCTION | CLEAR_PENDING);
    scsw
}

/// All its programs are over.
pub fn end_programs(rest: &mut Rest)
    ensures { rest.new ≡ record rest.old { waiting = None; begun = None; suspended = None } }
{
    rest.waiting = None;
    rest.begun = None;
    rest.suspended = None;
}

/// The hold is to be reset under a number of its own.
pub fn draw_reset(state: &mut PackedState)
    requires { state.old.state.drawn < 2 ^ 63 }
    ensures { state.new ≡ with_state state.old (losing_spec.reset_drawn state.old.state) }
{
    let rest = state.rest_mut();
    rest.drawn += 1;
    let mut hold = Hold::of(rest.hold);
    hold.reset(rest.drawn);
    rest.hold = hold.state();
}

/// CLEAR SUBCHANNEL with code 0.
pub(crate) fn clear(state: &mut PackedState)
    requires { state.old.state.drawn < 2 ^ 63 }
    ensures { state.new ≡ with_state state.old (clear_spec.cleared state.old.state) }
{
    state.clear_paths();
    *state.scsw_mut() = cleared_scsw();
    draw_reset(state);
    let rest = state.rest_mut();
    clear_serials(&mut rest.serials);
    end_programs(rest);
    rest.dedicated = dedicated(rest.dedicated, AllegianceCause::Clear);
}

/// What CANCEL SUBCHANNEL clears: N, the functions, resume pending, start pending and suspended.
const CANCELLED: u32 = PATH_NOT_OPERATIONAL
    | FUNCTIONS
    | RESUME_PENDING
    | START_PENDING
    | SUSPENDED;

fn cancel_scsw(scsw: &mut ScswWords)
    ensures { scsw.new ≡ cancel_spec.cancelled_scsw scsw.old }
{
    scsw.change(CANCELLED, 0);
}

/// CANCEL SUBCHANNEL with code 0.
pub(crate) fn cancel(state: &mut PackedState)
    ensures { state.new ≡ with_state state.old (cancel_spec.cancelled state.old.state) }
{
    cancel_scsw(state.scsw_mut());
    let rest = state.rest_mut();
    rest.waiting = None;
    rest.suspended = None;
}

/// MODIFY SUBCHANNEL with code 0.
pub fn write_pmcw(state: &mut PackedState, given: &[u32; 7])
    ensures { state.new ≡ with_state state.old (modify_spec.placed state.old.setup.concurrent_sense state.old.state (pmcw_of_words given.now)) }
{
    state.modify(given);
}
