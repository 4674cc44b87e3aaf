//! What TEST SUBCHANNEL leaves of a subchannel (SA22-7832, chapters 14 and 16). What it clears of the status word are bits of word 0.

ghost use Rattle.std.specs.Prelude.{◌≡◌};
ghost use Rattle.subchannel_model.specs.Test as test_spec;
ghost use Rattle.functions.specs.Unwired.{with_state};

use functions::PackedState;
use functions::codes::{is_intermediate_alone, is_pending};
use functions::effects::{clear_serials, drop_scsw, end_programs};
use scsw_irb::bits::{HALT_FUNCTION, SUSPENDED};
use scsw_irb::words::ScswWords;

/// What is cleared where status is pending that is not intermediate status alone, or where a suspended program is halted: the
/// deferred code, N, the functions, the status control, and of the activity all but subchannel active and device active.
const ENDED: u32 = 0x0301_7F3F;

/// What is cleared of a suspended program where intermediate status alone is pending: the deferred code, N, resume pending and the
/// status control.
const INTERMEDIATE_ENDED: u32 = 0x0301_081F;

/// Whether the program is suspended.
fn is_suspended(scsw: &ScswWords) -> bool
    ensures { result ≡ scsw.now.activity.suspended }
{
    scsw.any(SUSPENDED)
}

/// Whether the halt function is specified.
pub(crate) fn is_halted(scsw: &ScswWords) -> bool
    ensures { result ≡ scsw.now.functions.halt }
{
    scsw.any(HALT_FUNCTION)
}

fn clear_intermediate(scsw: &mut ScswWords)
    ensures { scsw.new ≡ test_spec.intermediate_cleared scsw.old }
{
    if !is_suspended(scsw) {
        drop_scsw(scsw);
    } else if is_halted(scsw) {
        scsw.change(ENDED, 0);
    } else {
        scsw.change(INTERMEDIATE_ENDED, 0);
    }
}

fn test_scsw(scsw: &mut ScswWords)
    ensures { scsw.new ≡ test_spec.tested_scsw scsw.old }
{
    if !is_pending(scsw) {
        return;
    }
    if is_intermediate_alone(scsw) {
        clear_intermediate(scsw);
    } else {
        scsw.change(ENDED, 0);
    }
}

/// TEST SUBCHANNEL with code 0: the status word and the counts.
pub(crate) fn clear_status(state: &mut PackedState)
    ensures { state.new ≡ with_state state.old (test_spec.tested state.old.state) }
{
    test_scsw(state.scsw_mut());
    clear_serials(&mut state.rest_mut().serials);
}

fn ends_suspended(scsw: &ScswWords) -> bool
    ensures { result ≡ test_spec.ends_suspended scsw.now }
{
    is_pending(scsw) && is_intermediate_alone(scsw) && is_suspended(scsw) && is_halted(scsw)
}

/// TEST SUBCHANNEL with code 0.
pub(crate) fn test_wholly(state: &mut PackedState)
    ensures { state.new ≡ with_state state.old (test_spec.tested_wholly state.old.state) }
{
    let ends = ends_suspended(state.scsw());
    clear_status(state);
    if ends {
        end_programs(state.rest_mut());
    }
}
