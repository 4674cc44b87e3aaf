//! What an End of a command shows, and whether the next command is chained to (SA22-7832, chapter 16; own).

ghost use Rattle.std.specs.Prelude.{◌≡◌};
ghost use Rattle.chan_model.specs.UnitReports as report_spec;
ghost use Rattle.subchannel_model.specs.Ends as spec;

use crate::shown::{check_status, conditions, shows_primary};
use crate::testing::is_halted;
use functions::PackedState;
use scsw_irb::scsw::{ActivityControl, DeferredCode};
use scsw_irb::status::{DeviceStatus, SubchannelStatus};
use scsw_irb::words::ScswWords;
use subchannel_model::state::{ActiveProgram, Program};
use subchannel_model::status::StatusRow;

/// Whether an End is the last of its program: it has device end or unit check, or no channel end.
pub fn is_last_end(status: DeviceStatus) -> bool
    ensures { result ≡ report_spec.is_last_end status }
{
    !status.has_channel_end() || status.has_device_end() || status.has_check()
}

fn length_status(shows: bool) -> SubchannelStatus
    ensures { result.0 ≡ spec.length_bits shows }
{
    if shows {
        SubchannelStatus::INCORRECT_LENGTH
    } else {
        SubchannelStatus::empty()
    }
}

fn is_unit_check_alone(status: DeviceStatus) -> bool
    ensures { result ≡ spec.is_unit_check_alone status }
{
    status.has_check() && !status.has_channel_end() && !status.has_device_end()
}

fn is_channel_end_alone(status: DeviceStatus) -> bool
    ensures { result ≡ spec.is_channel_end_alone status }
{
    status.has_channel_end() && !status.has_device_end()
}

/// Whether an incorrect length of a command that ended at once is shown.
fn shows_immediate(begun: &ActiveProgram, status: DeviceStatus) -> bool
    ensures { result ≡ spec.shows_immediate begun.now status }
{
    !is_channel_end_alone(status)
        || (begun.program.orb.format_one && !begun.program.orb.suppress_length)
}

fn suppresses_length(begun: &ActiveProgram) -> bool
    ensures { result ≡ spec.suppresses_length begun.now }
{
    let ccw = begun.transfer.moving.ccw();
    ccw.suppress_length && !ccw.chain_data
}

fn shows_length(scsw: &ScswWords, begun: &ActiveProgram, status: DeviceStatus, more: bool) -> bool
    ensures { result ≡ spec.shows_length scsw.now begun.now status more }
{
    !begun.transfer.ended
        && begun.transfer.moving.is_incorrect(more)
        && !is_unit_check_alone(status)
        && !is_halted(scsw)
        && !suppresses_length(begun)
        && shows_immediate(begun, status)
}

fn end_status(
    scsw: &ScswWords,
    begun: &ActiveProgram,
    status: DeviceStatus,
    more: bool,
) -> SubchannelStatus
    ensures { result ≡ spec.end_bits scsw.now begun.now status more }
{
    length_status(shows_length(scsw, begun, status, more)).joined(check_status(
        begun.transfer.fault,
    ))
}

fn breaks_chain(scsw: &ScswWords, begun: &ActiveProgram, status: DeviceStatus, more: bool) -> bool
    ensures { result ≡ spec.breaks_chain scsw.now begun.now status more }
{
    status.has_check()
        || status.has_unit_exception()
        || shows_length(scsw, begun, status, more)
        || begun.transfer.fault.is_some()
        || is_halted(scsw)
}

/// Whether the next command is chained to after an End.
pub fn chains_command(
    scsw: &ScswWords,
    begun: &ActiveProgram,
    status: DeviceStatus,
    more: bool,
) -> bool
    ensures { result ≡ spec.chains_command scsw.now begun.now status more }
{
    let ccw = begun.transfer.moving.ccw();
    ccw.chain_command
        && !ccw.chain_data
        && !begun.transfer.unchained
        && !breaks_chain(scsw, begun, status, more)
}

fn is_alert(begun: &ActiveProgram, status: DeviceStatus) -> bool
    ensures { result ≡ spec.is_alert begun.now status }
{
    status.has_check() || begun.transfer.fault.is_some()
}

/// Channel end alone: the device works on.
fn channel_end_shown(
    scsw: &ScswWords,
    begun: &ActiveProgram,
    status: DeviceStatus,
    more: bool,
) -> StatusRow
    ensures { result ≡ spec.channel_end_shown scsw.now begun.now status more }
{
    StatusRow {
        conditions: conditions(
            is_alert(begun, status),
            shows_primary(scsw, begun.primary_shown),
            false,
        ),
        activity: ActivityControl {
            device_active: true,
            ..ActivityControl::none()
        },
        device: status,
        subchannel: end_status(scsw, begun, status, more),
        deferred: None,
        command_address: begun.transfer.walk.tried(),
        count: begun.transfer.moving.residual(),
    }
}

/// The last End of a program.
fn last_end_shown(
    scsw: &ScswWords,
    begun: &ActiveProgram,
    status: DeviceStatus,
    more: bool,
) -> StatusRow
    ensures { result ≡ spec.last_end_shown scsw.now begun.now status more }
{
    StatusRow {
        conditions: conditions(
            is_alert(begun, status),
            shows_primary(scsw, begun.primary_shown),
            true,
        ),
        activity: ActivityControl::none(),
        device: status,
        subchannel: end_status(scsw, begun, status, more),
        deferred: None,
        command_address: begun.transfer.walk.tried(),
        count: begun.transfer.moving.residual(),
    }
}

/// The last End of an earlier program while a start waits.
fn earlier_end_shown(
    scsw: &ScswWords,
    begun: &ActiveProgram,
    status: DeviceStatus,
    more: bool,
) -> StatusRow
    ensures { result ≡ spec.earlier_end_shown scsw.now begun.now status more }
{
    let before = scsw.scsw();
    StatusRow {
        conditions: conditions(true, false, false),
        activity: ActivityControl::none(),
        device: status,
        subchannel: end_status(scsw, begun, status, more),
        deferred: Some(DeferredCode::One),
        command_address: before.command_address,
        count: before.count,
    }
}

/// The last End of a program, or of an earlier one while a start waits.
fn last_shown(
    scsw: &ScswWords,
    begun: &ActiveProgram,
    waiting: Option<Program>,
    status: DeviceStatus,
    more: bool,
) -> StatusRow
    ensures { result ≡ spec.last_shown scsw.now begun.now waiting status more }
{
    match waiting {
        None => last_end_shown(scsw, begun, status, more),
        Some(_) => earlier_end_shown(scsw, begun, status, more),
    }
}

/// An End of a program where a start may wait.
pub(crate) fn end_shown(
    state: &PackedState,
    begun: &ActiveProgram,
    status: DeviceStatus,
    more: bool,
) -> StatusRow
    ensures { result ≡ spec.end_shown state.now.state begun.now status more }
{
    if is_last_end(status) {
        last_shown(state.scsw(), begun, state.rest().waiting, status, more)
    } else {
        channel_end_shown(state.scsw(), begun, status, more)
    }
}

/// A program that showed its primary status with channel end alone: nothing is chained to its command.
pub(crate) fn show_primary(begun: &mut ActiveProgram)
    ensures { begun.new ≡ spec.has_shown begun.old }
{
    begun.primary_shown = true;
    begun.transfer.ended = true;
    begun.transfer.unchained = true;
}
