//! How a status joins what is pending, and what several causes of status show alike (SA22-7832, chapter 16).

ghost use Rattle.std.specs.Prelude.{◌≡◌, ◌<◌, ◌^◌};
ghost use Rattle.subchannel_model.specs.Causes as cause_spec;
ghost use Rattle.subchannel_model.specs.Status as spec;
ghost use Rattle.functions.specs.Unwired.{with_state};

use ccw_walk::check::Check;
use functions::PackedState;
use scsw_irb::bits::{CLEAR_FUNCTION, START_FUNCTION};
use scsw_irb::scsw::{Scsw, StatusControl};
use scsw_irb::status::{DeviceStatus, SubchannelStatus};
use scsw_irb::words::ScswWords;
use subchannel_model::status::StatusRow;

/// A status is made pending. A subchannel that is not enabled gets none, but its activity changes.
pub(crate) fn add_status(state: &mut PackedState, shown: &StatusRow)
    requires { state.old.state.serials.made < 2 ^ 63 }
    ensures { state.new ≡ with_state state.old (cause_spec.with_status state.old.state shown.now) }
{
    let enabled = state.is_enabled();
    make_scsw(enabled, state.scsw_mut(), shown);
    if enabled {
        state.rest_mut().serials.made += 1;
    }
}

/// The status word is read and written whole.
fn make_scsw(enabled: bool, scsw: &mut ScswWords, shown: &StatusRow)
    ensures { scsw.new ≡ spec.scsw_made enabled scsw.old shown.now }
{
    let mut word = scsw.scsw();
    make_word(enabled, &mut word, shown);
    *scsw = ScswWords::of(word);
}

fn make_word(enabled: bool, scsw: &mut Scsw, shown: &StatusRow)
    ensures { scsw.new ≡ spec.scsw_made enabled scsw.old shown.now }
{
    if !enabled {
        scsw.activity = shown.activity;
        return;
    }
    if scsw.status.pending {
        let conditions = scsw.status;
        let device = scsw.device_status;
        let subchannel = scsw.subchannel_status;
        join_scsw(scsw, conditions, device, subchannel, shown);
    } else {
        join_scsw(
            scsw,
            StatusControl::none(),
            DeviceStatus::empty(),
            SubchannelStatus::empty(),
            shown,
        );
    }
}

fn join_scsw(
    scsw: &mut Scsw,
    conditions: StatusControl,
    device: DeviceStatus,
    subchannel: SubchannelStatus,
    shown: &StatusRow,
)
    ensures { scsw.new ≡ spec.with_joined scsw.old conditions device subchannel shown.now }
{
    scsw.activity = shown.activity;
    scsw.status = joined_conditions(conditions, shown.conditions);
    scsw.device_status = device.joined(shown.device);
    scsw.subchannel_status = subchannel.joined(shown.subchannel);
    if let Some(deferred) = shown.deferred {
        scsw.deferred = deferred;
    }
    scsw.command_address = shown.command_address;
    scsw.count = shown.count;
}

fn joined_conditions(old: StatusControl, new: StatusControl) -> StatusControl
    ensures { result ≡ spec.joined_conditions old new }
{
    StatusControl {
        alert: old.alert | new.alert,
        intermediate: old.intermediate | new.intermediate,
        primary: old.primary | new.primary,
        secondary: old.secondary | new.secondary,
        pending: true,
    }
}

pub(crate) fn conditions(alert: bool, primary: bool, secondary: bool) -> StatusControl
    ensures { result ≡ spec.conditions alert primary secondary }
{
    StatusControl {
        alert,
        primary,
        secondary,
        ..StatusControl::none()
    }
}

/// The subchannel status of a check.
pub(crate) fn check_status(check: Option<Check>) -> SubchannelStatus
    ensures { result.0 ≡ spec.check_bits check }
{
    match check {
        None => SubchannelStatus::empty(),
        Some(Check::Program) => SubchannelStatus::PROGRAM_CHECK,
        Some(Check::Protection) => SubchannelStatus::PROTECTION_CHECK,
    }
}

/// Whether primary status is shown: once in a program, and not where its clear is in progress.
pub(crate) fn shows_primary(scsw: &ScswWords, shown_before: bool) -> bool
    ensures { result ≡ spec.shows_primary scsw.now.functions shown_before }
{
    scsw.shows(START_FUNCTION | CLEAR_FUNCTION, START_FUNCTION) && !shown_before
}
