//! A device that asks for attention (own).

ghost use Rattle.std.specs.Prelude.{◌≡◌, ◌<◌, ◌^◌};
ghost use Rattle.chan_model.specs.HoldTable.{hold_takes};
ghost use Rattle.chan_model.specs.Lent.{lent_up};
ghost use Rattle.active_program.specs.Sent.{outcome_with};
ghost use Rattle.subchannel_model.specs.Attention as on_attention;
ghost use Rattle.active_program.specs.Stepping.{subchannel_stepped};

use active_program::answers::by_hold;
use active_program::met::Met;
use active_program::sent::SentDown;
use chan_model::lent::LentUp;
use chan_model::names::Path;
use functions::PackedState;
use scsw_irb::bits::{
    CLEAR_PENDING, DEVICE_ACTIVE, HALT_PENDING, RESUME_PENDING, STATUS_PENDING, SUBCHANNEL_ACTIVE,
    SUSPENDED,
};
use scsw_irb::status::DeviceStatus;
use scsw_irb::words::ScswWords;
use status::make_pending;
use subchannel_model::cause::StatusCause;

/// The activity control, but for start pending.
const BUSY: u32 = RESUME_PENDING
    | HALT_PENDING
    | CLEAR_PENDING
    | SUBCHANNEL_ACTIVE
    | DEVICE_ACTIVE
    | SUSPENDED;

/// Whether nothing goes on but a start that waits.
fn is_open(scsw: &ScswWords) -> bool
    ensures { result ≡ on_attention.is_idle_or_start_pending scsw.now.activity }
{
    !scsw.any(BUSY)
}

/// Whether an Attn may be taken: no status is pending, and nothing goes on but a start that waits.
pub fn may_attend(state: &PackedState) -> bool
    ensures { result ≡ on_attention.may_take_attention state.now.state }
{
    let scsw = state.scsw();
    !scsw.any(STATUS_PENDING) && is_open(scsw)
}

/// Attn: but for a control-unit end alone it makes status.
pub(crate) fn attend(
    state: &mut PackedState,
    path: Path,
    signal: &LentUp<'_>,
    status: DeviceStatus,
    sent: &mut SentDown,
) -> Met
    requires { state.old.state.serials.made < 2 ^ 63 }
    ensures step { subchannel_stepped state.new.state (outcome_with result sent.new) ≡ on_attention.takes_attention state.old.state status (hold_takes state.old.state.hold path (lent_up signal.now) (on_attention.may_take_attention state.old.state)) }
    ensures setup { state.new.setup ≡ state.old.setup }
{
    let may = may_attend(state);
    let met = by_hold(state, path, signal, may, sent);
    if met.is_taken() && status != DeviceStatus::CONTROL_UNIT_END {
        make_pending(state, &StatusCause::Attention);
    }
    met
}
