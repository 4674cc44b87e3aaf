//! Whether status words and interruption codes are the same.

ghost use Rattle.std.specs.Prelude.{◌≡◌, ◌↔◌, IsTrue};
ghost use Rattle.chan_events.specs.Fields.{AreModesSame, IsPendingSame, IsRestSame};

use scsw_irb::code::IntCode;
use scsw_irb::scsw::{ActivityControl, FunctionControl, Scsw, StatusControl};

/// Whether both status words show the same modes.
fn same_modes(one: &Scsw, other: &Scsw) -> bool
    ensures { IsTrue result ↔ AreModesSame one.now other.now }
{
    one.suspend == other.suspend
        && one.deferred == other.deferred
        && one.format_one == other.format_one
        && one.prefetch == other.prefetch
        && one.initial_status == other.initial_status
        && one.address_limit == other.address_limit
        && one.suppress_suspended == other.suppress_suspended
        && one.path_not_operational == other.path_not_operational
}

/// Whether both are the same functions.
fn same_functions(one: FunctionControl, other: FunctionControl) -> bool
    ensures { IsTrue result ↔ (one ≡ other) }
{
    one == other
}

/// Whether the same functions are pending in both.
fn same_pending(one: ActivityControl, other: ActivityControl) -> bool
    ensures { IsTrue result ↔ IsPendingSame one other }
{
    one.resume_pending == other.resume_pending
        && one.start_pending == other.start_pending
        && one.halt_pending == other.halt_pending
        && one.clear_pending == other.clear_pending
}

/// Whether both are the same activity.
fn same_activity(one: ActivityControl, other: ActivityControl) -> bool
    ensures { IsTrue result ↔ (one ≡ other) }
{
    same_pending(one, other)
        && one.subchannel_active == other.subchannel_active
        && one.device_active == other.device_active
        && one.suspended == other.suspended
}

/// Whether both are the same status.
fn same_status(one: StatusControl, other: StatusControl) -> bool
    ensures { IsTrue result ↔ (one ≡ other) }
{
    one.alert == other.alert
        && one.intermediate == other.intermediate
        && one.primary == other.primary
        && one.secondary == other.secondary
        && one.pending == other.pending
}

/// Whether both status words show the same beside their keys and modes.
fn same_rest(one: &Scsw, other: &Scsw) -> bool
    ensures { IsTrue result ↔ IsRestSame one.now other.now }
{
    same_functions(one.functions, other.functions)
        && same_activity(one.activity, other.activity)
        && same_status(one.status, other.status)
        && one.command_address == other.command_address
        && one.device_status == other.device_status
        && one.subchannel_status == other.subchannel_status
        && one.count == other.count
}

/// Whether both status words are the same.
#[tactic(auto, using(crate::proofs::Fields::scsws_same))]
pub(crate) fn same_scsw(one: &Scsw, other: &Scsw) -> bool
    ensures { IsTrue result ↔ (one.now ≡ other.now) }
{
    one.key == other.key && same_modes(one, other) && same_rest(one, other)
}

/// Whether both codes are the same.
#[tactic(auto, using(crate::proofs::Fields::codes_same))]
fn same_interruption_code(one: &IntCode, other: &IntCode) -> bool
    ensures { IsTrue result ↔ (one.now ≡ other.now) }
{
    one.set == other.set
        && one.subchannel == other.subchannel
        && one.parameter == other.parameter
        && one.subclass == other.subclass
}

/// Whether both codes are the same, or neither is there.
pub(crate) fn same_interruption(one: &Option<IntCode>, other: &Option<IntCode>) -> bool
    ensures { IsTrue result ↔ (one.now ≡ other.now) }
{
    match (one, other) {
        (None, None) => true,
        (Some(a), Some(b)) => same_interruption_code(a, b),
        _ => false,
    }
}
