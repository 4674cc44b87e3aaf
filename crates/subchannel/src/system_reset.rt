//! What a reset of the channel subsystem leaves of a subchannel (SA22-7832, chapter 17; own).

ghost use Rattle.std.specs.Prelude.{◌≡◌, ◌<◌, ◌^◌};
ghost use Rattle.subchannel_model.specs.SystemReset as spec;
ghost use Rattle.functions.specs.Unwired.{with_state};

use allegiance::allegiances::{AllegianceCause, dedicated};
use functions::effects::{clear_serials, draw_reset, end_programs};
use functions::{PackedState, Subchannel};
use scsw_irb::bits::CONTROLS;
use scsw_irb::words::ScswWords;

/// Function, activity and status control are cleared.
fn reset_scsw(scsw: &mut ScswWords)
    ensures { scsw.new ≡ spec.scsw_reset scsw.old }
{
    scsw.change(CONTROLS, 0);
}

fn reset_state(state: &mut PackedState)
    requires { state.old.state.drawn < 2 ^ 63 }
    ensures { state.new ≡ with_state state.old (spec.state_reset state.old.state) }
{
    state.reset_paths();
    reset_scsw(state.scsw_mut());
    draw_reset(state);
    let rest = state.rest_mut();
    clear_serials(&mut rest.serials);
    end_programs(rest);
    rest.dedicated = dedicated(rest.dedicated, AllegianceCause::SystemReset);
}

/// The channel subsystem is reset. The Reset that is then due is not sent here.
pub fn reset_by_system(sub: &mut Subchannel)
    requires drawn { sub.old.state.drawn < 2 ^ 63 }
    ensures { sub.new ≡ spec.reset_by_system sub.old }
{
    reset_state(&mut sub.state);
}
