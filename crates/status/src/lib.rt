//! Status: what makes it pending at a subchannel, and what TEST SUBCHANNEL leaves of it (SA22-7832, chapters 14 and 16).
#![tactic(auto)]

ghost use Rattle.std.specs.Prelude.{◌≡◌, ◌<◌, ◌^◌, IfNone, IfSome, Some};
ghost use Rattle.subchannel_model.specs.Test as test_spec;
ghost use Rattle.subchannel_model.specs.Status as status_spec;
ghost use Rattle.subchannel_model.specs.Causes as cause_spec;
ghost use Rattle.subchannel_model.specs.declared.cause.StatusCause.TheVariants as ends_spec;
ghost use Rattle.subchannel_model.specs.Conditions as condition_spec;
ghost use Rattle.subchannel_model.specs.Conditions.{condition_of};
ghost use Rattle.functions.specs.Unwired.{with_state};

pub mod causes;
pub mod ends;
pub mod law;
pub mod shown;
pub mod testing;

use chan_model::answer::ConditionCode;
use functions::PackedState;
use functions::codes::tsch_code;
use scsw_irb::status::DeviceStatus;
use subchannel_model::cause::StatusCause;

/// Makes the status of a cause pending. A subchannel that is not enabled gets none (own), but its activity and its programs
/// change. The request for an interruption is the caller's.
pub fn make_pending(state: &mut PackedState, cause: &StatusCause)
    requires { state.old.state.serials.made < 2 ^ 63 }
    ensures state { state.new ≡ with_state state.old (cause_spec.with_cause state.old.state cause.now) }
    ensures made { state.new.state.serials ≡ status_spec.serials_made state.old.state.pmcw.enabled state.old.state.serials }
{
    causes::join(state, cause);
}

/// Makes the status of an End of the program at work pending, as `make_pending` does it, without a copy of the program.
/// Where no program is at work nothing changes.
pub fn make_end_pending(state: &mut PackedState, status: DeviceStatus, more: bool)
    requires { state.old.state.serials.made < 2 ^ 63 }
    ensures program { IfSome state.old.state.begun (λ b. state.new ≡ with_state state.old (cause_spec.with_cause state.old.state (ends_spec.End b status more))) }
    ensures none { IfNone state.old.state.begun (state.new ≡ state.old) }
{
    if state.rest().begun.is_some() {
        causes::join_end(state, status, more);
    }
}

/// TEST SUBCHANNEL: the status word that is stored is the one before.
pub fn tsch(state: &mut PackedState) -> ConditionCode
    ensures code { result ≡ test_spec.tsch_code (condition_of (Some state.old.state)) }
    ensures state { state.new ≡ with_state state.old (condition_spec.left_by result state.old.state (test_spec.tested_wholly state.old.state)) }
{
    let code = tsch_code(state);
    if code == ConditionCode::Zero {
        testing::test_wholly(state);
    }
    code
}
