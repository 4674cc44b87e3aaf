//! The condition codes of the instructions on a subchannel (SA22-7832, chapter 14): the table, a function for each row. What is
//! tested of the status word are bits of its word 0.

ghost use Rattle.std.specs.Prelude.{◌≡◌, Some};
ghost use Rattle.chan_model.specs.ConditionCodes as code_spec;
ghost use Rattle.subchannel_model.specs.Conditions as condition_spec;
ghost use Rattle.subchannel_model.specs.Conditions.{condition_of};
ghost use Rattle.subchannel_model.specs.Start as start_spec;
ghost use Rattle.subchannel_model.specs.Resume as resume_spec;
ghost use Rattle.subchannel_model.specs.Halt as halt_spec;
ghost use Rattle.subchannel_model.specs.Clear as clear_spec;
ghost use Rattle.subchannel_model.specs.Cancel as cancel_spec;
ghost use Rattle.subchannel_model.specs.Modify as modify_spec;
ghost use Rattle.subchannel_model.specs.Store as store_spec;
ghost use Rattle.subchannel_model.specs.Test as test_spec;
ghost use Rattle.subchannel_model.specs.Status as status_spec;

use crate::PackedState;
use chan_model::answer::ConditionCode;
use scsw_irb::bits::{
    ALERT, CLEAR_FUNCTION, FUNCTIONS, HALT_FUNCTION, INTERMEDIATE, PRIMARY, RESUME_PENDING,
    SECONDARY, START_FUNCTION, START_PENDING, STATUS_PENDING, SUBCHANNEL_ACTIVE, SUSPENDED,
};
use scsw_irb::words::ScswWords;

/// 3 where the subchannel is not operational, otherwise 1, otherwise 2, otherwise 0.
fn in_order(operational: bool, one: bool, two: bool) -> ConditionCode
    ensures { result ≡ code_spec.in_order operational one two }
{
    if !operational {
        ConditionCode::Three
    } else if one {
        ConditionCode::One
    } else if two {
        ConditionCode::Two
    } else {
        ConditionCode::Zero
    }
}

/// Whether status is pending.
pub fn is_pending(scsw: &ScswWords) -> bool
    ensures { result ≡ scsw.now.status.pending }
{
    scsw.any(STATUS_PENDING)
}

/// A function is specified.
fn any_function(scsw: &ScswWords) -> bool
    ensures { result ≡ condition_spec.any_function scsw.now.functions }
{
    scsw.any(FUNCTIONS)
}

/// Of these functions the start function, and no other.
fn is_start_alone(scsw: &ScswWords) -> bool
    ensures { result ≡ condition_spec.start_alone scsw.now.functions }
{
    scsw.shows(FUNCTIONS, START_FUNCTION)
}

/// START SUBCHANNEL.
pub fn ssch_code(state: &PackedState) -> ConditionCode
    ensures { result ≡ start_spec.ssch_code (condition_of (Some state.now.state)) }
{
    let scsw = state.scsw();
    in_order(state.is_enabled(), is_pending(scsw), any_function(scsw))
}

/// RESUME SUBCHANNEL.
pub fn rsch_code(state: &PackedState) -> ConditionCode
    ensures { result ≡ resume_spec.rsch_code (condition_of (Some state.now.state)) }
{
    let scsw = state.scsw();
    in_order(
        state.is_enabled(),
        is_pending(scsw),
        !is_start_alone(scsw) || scsw.any(RESUME_PENDING) || !scsw.may_suspend(),
    )
}

/// Status is pending that is not intermediate alone.
fn shows_end(scsw: &ScswWords) -> bool
    ensures { result ≡ halt_spec.shows_end scsw.now.status }
{
    is_pending(scsw) && (!scsw.any(INTERMEDIATE) || scsw.any(ALERT | PRIMARY | SECONDARY))
}

/// HALT SUBCHANNEL.
pub fn hsch_code(state: &PackedState) -> ConditionCode
    ensures { result ≡ halt_spec.hsch_code (condition_of (Some state.now.state)) }
{
    let scsw = state.scsw();
    in_order(
        state.is_enabled(),
        shows_end(scsw),
        scsw.any(HALT_FUNCTION | CLEAR_FUNCTION),
    )
}

/// CLEAR SUBCHANNEL.
pub fn csch_code(state: &PackedState) -> ConditionCode
    ensures { result ≡ clear_spec.csch_code (condition_of (Some state.now.state)) }
{
    in_order(state.is_enabled(), false, false)
}

/// A program waits to be begun or to go on.
fn waits(scsw: &ScswWords) -> bool
    ensures { result ≡ cancel_spec.waits scsw.now.activity }
{
    scsw.any(RESUME_PENDING | START_PENDING | SUSPENDED)
}

/// CANCEL SUBCHANNEL.
pub fn xsch_code(state: &PackedState) -> ConditionCode
    ensures { result ≡ cancel_spec.xsch_code (condition_of (Some state.now.state)) }
{
    let scsw = state.scsw();
    in_order(
        state.is_enabled(),
        is_pending(scsw),
        !is_start_alone(scsw) || !waits(scsw) || scsw.any(SUBCHANNEL_ACTIVE),
    )
}

/// MODIFY SUBCHANNEL. It needs no enabled subchannel.
pub fn msch_code(state: &PackedState) -> ConditionCode
    ensures { result ≡ modify_spec.msch_code (condition_of (Some state.now.state)) }
{
    let scsw = state.scsw();
    in_order(true, is_pending(scsw), any_function(scsw))
}

/// STORE SUBCHANNEL: always 0 where a subchannel is provided. It needs no enabled subchannel.
pub fn stsch_code(_state: &PackedState) -> ConditionCode
    ensures { result ≡ store_spec.stsch_code (condition_of (Some _state.now.state)) }
{
    in_order(true, false, false)
}

/// TEST SUBCHANNEL.
pub fn tsch_code(state: &PackedState) -> ConditionCode
    ensures { result ≡ test_spec.tsch_code (condition_of (Some state.now.state)) }
{
    in_order(state.is_enabled(), !is_pending(state.scsw()), false)
}

/// Whether intermediate status stands, and no alert, primary or secondary status beside it.
pub fn is_intermediate_alone(scsw: &ScswWords) -> bool
    ensures { result ≡ status_spec.intermediate_alone scsw.now.status }
{
    scsw.shows(ALERT | INTERMEDIATE | PRIMARY | SECONDARY, INTERMEDIATE)
}
