//! The causes of status, in the order of their table: what each shows, which programs it leaves, and which status word its
//! status joins (SA22-7832, chapter 16; own).

ghost use Rattle.std.specs.Prelude.{◌≡◌, ◌<◌, ◌^◌, IfSome, Some};
ghost use Rattle.subchannel_model.specs.Ends as end_spec;
ghost use Rattle.subchannel_model.specs.declared.cause.StatusCause.TheVariants as cause_spec;
ghost use Rattle.subchannel_model.specs.Status as joined_spec;
ghost use Rattle.subchannel_model.specs.Causes as spec;
ghost use Rattle.functions.specs.Unwired.{with_state};
ghost use Rattle.status.specs.Ended.{rest_after_end};

use crate::ends::{end_shown, is_last_end, show_primary};
use crate::shown::{add_status, check_status, conditions, shows_primary};
use ccw_walk::check::Check;
use functions::effects::end_programs;
use functions::{PackedState, Rest};
use scsw_irb::bits::{CLEAR_FUNCTION, INTERMEDIATE};
use scsw_irb::scsw::{ActivityControl, DeferredCode, StatusControl};
use scsw_irb::status::{DeviceStatus, SubchannelStatus};
use scsw_irb::words::ScswWords;
use subchannel_model::cause::StatusCause;
use subchannel_model::state::{ActiveProgram, Program};
use subchannel_model::status::StatusRow;

/// Status is pending, and nothing else is shown.
fn plain_shown(command_address: u32, count: u16) -> StatusRow
    ensures { result ≡ spec.plain_shown command_address count }
{
    StatusRow {
        conditions: StatusControl::none(),
        activity: ActivityControl::none(),
        device: DeviceStatus::empty(),
        subchannel: SubchannelStatus::empty(),
        deferred: None,
        command_address,
        count,
    }
}

/// The command address of the program of which a status speaks.
fn address_shown(state: &PackedState) -> u32
    ensures { result ≡ spec.address_shown state.now.state }
{
    let rest = state.rest();
    if rest.waiting.is_some() {
        return state.scsw().scsw().command_address;
    }
    match (rest.begun, rest.suspended) {
        (Some(begun), _) => begun.transfer.walk.tried(),
        (None, Some(standing)) => standing.walk.tried(),
        (None, None) => state.scsw().scsw().command_address,
    }
}

/// The count of the program of which a status speaks.
fn count_shown(state: &PackedState) -> u16
    ensures { result ≡ spec.count_shown state.now.state }
{
    let rest = state.rest();
    if rest.waiting.is_some() {
        return state.scsw().scsw().count;
    }
    match (rest.begun, rest.suspended) {
        (Some(begun), _) => begun.transfer.moving.residual(),
        (None, Some(standing)) => standing.count,
        (None, None) => state.scsw().scsw().count,
    }
}

/// Nothing but the address and the count of the program of which a status speaks is shown.
fn program_shown(state: &PackedState) -> StatusRow
    ensures { result ≡ spec.program_shown state.now.state }
{
    plain_shown(address_shown(state), count_shown(state))
}

/// Whether the program of which a status speaks showed its primary status.
fn was_shown(rest: &Rest) -> bool
    ensures { result ≡ spec.was_shown rest.now.waiting rest.now.begun }
{
    match (rest.waiting, rest.begun) {
        (None, Some(begun)) => begun.primary_shown,
        _ => false,
    }
}

/// A command could not be fetched, or may not take control.
fn fetch_fault_shown(tried: u32, check: Check, count: u16) -> StatusRow
    ensures { result ≡ spec.fetch_fault_shown tried check count }
{
    StatusRow {
        conditions: conditions(true, true, true),
        subchannel: check_status(Some(check)),
        ..plain_shown(tried, count)
    }
}

fn attention_deferred(waiting: Option<Program>) -> Option<DeferredCode>
    ensures { result ≡ spec.attention_deferred waiting }
{
    match waiting {
        None => None,
        Some(_) => Some(DeferredCode::One),
    }
}

fn attention_shown(state: &PackedState) -> StatusRow
    ensures { result ≡ spec.attention_shown state.now.state }
{
    let before = state.scsw().scsw();
    StatusRow {
        conditions: conditions(true, false, false),
        device: DeviceStatus::ATTENTION,
        deferred: attention_deferred(state.rest().waiting),
        ..plain_shown(before.command_address, before.count)
    }
}

/// A program that is to be offered found no path.
fn no_path_shown(state: &PackedState) -> StatusRow
    ensures { result ≡ spec.no_path_shown state.now.state }
{
    StatusRow {
        conditions: conditions(true, true, true),
        deferred: Some(DeferredCode::Three),
        ..program_shown(state)
    }
}

fn interface_shown(state: &PackedState) -> StatusRow
    ensures { result ≡ spec.interface_shown state.now.state }
{
    let primary = shows_primary(state.scsw(), was_shown(state.rest()));
    StatusRow {
        conditions: conditions(true, primary, true),
        subchannel: SubchannelStatus::INTERFACE_CONTROL_CHECK,
        ..program_shown(state)
    }
}

fn intermediate() -> StatusControl
    ensures { result ≡ spec.intermediate }
{
    StatusControl {
        intermediate: true,
        ..StatusControl::none()
    }
}

fn pci_shown(state: &PackedState, tried: u32, count: u16) -> StatusRow
    ensures { result ≡ spec.pci_shown state.now.state tried count }
{
    StatusRow {
        conditions: intermediate(),
        activity: state.scsw().scsw().activity,
        subchannel: SubchannelStatus::PROGRAM_CONTROLLED,
        ..plain_shown(tried, count)
    }
}

fn suspension_shown(tried: u32, count: u16) -> StatusRow
    ensures { result ≡ spec.suspension_shown tried count }
{
    StatusRow {
        conditions: intermediate(),
        activity: ActivityControl {
            suspended: true,
            ..ActivityControl::none()
        },
        ..plain_shown(tried, count)
    }
}

/// What a cause shows.
pub fn shown_of(state: &PackedState, cause: &StatusCause) -> StatusRow
    ensures { result ≡ (spec.row_of state.now.state cause.now).shown }
{
    match cause {
        StatusCause::End {
            begun,
            status,
            more,
        } => end_shown(state, begun, *status, *more),
        StatusCause::FetchFault {
            tried,
            check,
            count,
        } => fetch_fault_shown(*tried, *check, *count),
        StatusCause::Attention => attention_shown(state),
        StatusCause::NoPath => no_path_shown(state),
        StatusCause::InterfaceControlCheck => interface_shown(state),
        StatusCause::Pci { tried, count } => pci_shown(state, *tried, *count),
        StatusCause::Suspension { tried, count } => suspension_shown(*tried, *count),
        StatusCause::ClearDone => plain_shown(0, 0),
        StatusCause::HaltDone => program_shown(state),
    }
}

/// The program that was begun is over, or where none was begun the one that was to be.
fn end_begun(state: &mut PackedState)
    ensures { state.new ≡ with_state state.old (spec.without_begun state.old.state.begun state.old.state) }
{
    if state.rest().begun.is_some() {
        state.rest_mut().begun = None;
    } else {
        let rest = state.rest_mut();
        rest.waiting = None;
        rest.suspended = None;
    }
}

/// The program that waits is over, or where none waits the suspended one.
fn end_waiting(state: &mut PackedState)
    ensures { state.new ≡ with_state state.old (spec.without_waiting state.old.state.waiting state.old.state) }
{
    if state.rest().waiting.is_some() {
        state.rest_mut().waiting = None;
    } else {
        state.rest_mut().suspended = None;
    }
}

fn leave_end(state: &mut PackedState, begun: &ActiveProgram, last: bool)
    ensures { state.new ≡ with_state state.old (spec.programs_after_end state.old.state begun.now last) }
{
    if last {
        end_programs(state.rest_mut());
        return;
    }
    let mut next = *begun;
    show_primary(&mut next);
    state.rest_mut().begun = Some(next);
}

/// The programs that are over with a cause end.
fn leave_programs(state: &mut PackedState, cause: &StatusCause)
    ensures state { state.new ≡ with_state state.old (spec.row_of state.old.state cause.now).left }
    ensures counts { state.new.state.serials ≡ state.old.state.serials }
    ensures enabled { state.new.state.pmcw.enabled ≡ state.old.state.pmcw.enabled }
    ensures word { state.new.state.scsw ≡ state.old.state.scsw }
{
    match cause {
        StatusCause::End { begun, status, .. } => leave_end(state, begun, is_last_end(*status)),
        StatusCause::FetchFault { .. } => end_begun(state),
        StatusCause::Attention => state.rest_mut().waiting = None,
        StatusCause::NoPath => end_waiting(state),
        StatusCause::InterfaceControlCheck => end_programs(state.rest_mut()),
        StatusCause::Pci { .. } | StatusCause::Suspension { .. } | StatusCause::ClearDone => {}
        StatusCause::HaltDone => end_programs(state.rest_mut()),
    }
}

/// The clear function alone.
fn clear_scsw() -> ScswWords
    ensures { result ≡ spec.clear_function_alone }
{
    let mut scsw = ScswWords::zero();
    scsw.change(0, CLEAR_FUNCTION);
    scsw
}

/// Intermediate status is turned off.
fn turn_off_intermediate(scsw: &mut ScswWords)
    ensures { scsw.new ≡ spec.without_intermediate scsw.old }
{
    scsw.change(INTERMEDIATE, 0);
}

/// The status word becomes the one that the status of a cause joins; that of a subchannel that is not enabled stays as it is.
fn prepare_scsw(enabled: bool, scsw: &mut ScswWords, cause: &StatusCause)
    ensures { scsw.new ≡ spec.scsw_joined enabled scsw.old (spec.scsw_before scsw.old cause.now) }
{
    match cause {
        StatusCause::ClearDone if enabled => *scsw = clear_scsw(),
        StatusCause::HaltDone if enabled => turn_off_intermediate(scsw),
        _ => {}
    }
}

fn primary_is_shown(rest: &mut Rest)
    ensures rest { IfSome rest.old.begun (λ b. rest.new ≡ record rest.old { begun = Some (end_spec.has_shown b) }) }
    ensures counts { rest.new.serials ≡ rest.old.serials }
{
    if let Some(begun) = &mut rest.begun {
        show_primary(begun);
    }
}

/// The programs that are over with an End of the program at work end.
fn leave_ended(rest: &mut Rest, last: bool)
    ensures rest { IfSome rest.old.begun (λ b. rest.new ≡ rest_after_end rest.old b last) }
    ensures counts { rest.new.serials ≡ rest.old.serials }
{
    if last {
        end_programs(rest);
    } else {
        primary_is_shown(rest);
    }
}

/// What an End of the program at work shows.
fn shown_at_end(state: &PackedState, status: DeviceStatus, more: bool) -> StatusRow
    ensures { IfSome state.now.state.begun (λ b. result ≡ (spec.row_of state.now.state (cause_spec.End b status more)).shown) }
{
    match &state.rest().begun {
        None => plain_shown(0, 0),
        Some(begun) => end_shown(state, begun, status, more),
    }
}

/// An End of the program at work.
pub(crate) fn join_end(state: &mut PackedState, status: DeviceStatus, more: bool)
    requires { state.old.state.serials.made < 2 ^ 63 }
    ensures { IfSome state.old.state.begun (λ b. state.new ≡ with_state state.old (spec.with_cause state.old.state (cause_spec.End b status more))) }
{
    let shown = shown_at_end(state, status, more);
    leave_ended(state.rest_mut(), is_last_end(status));
    add_status(state, &shown);
}

/// A cause of status.
pub(crate) fn join(state: &mut PackedState, cause: &StatusCause)
    requires { state.old.state.serials.made < 2 ^ 63 }
    ensures state { state.new ≡ with_state state.old (spec.with_cause state.old.state cause.now) }
    ensures made { state.new.state.serials ≡ joined_spec.serials_made state.old.state.pmcw.enabled state.old.state.serials }
{
    let shown = shown_of(state, cause);
    let enabled = state.is_enabled();
    leave_programs(state, cause);
    prepare_scsw(enabled, state.scsw_mut(), cause);
    add_status(state, &shown);
}
