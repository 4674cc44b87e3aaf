//! The reports of units, each in a slot.

ghost use Rattle.std.specs.Prelude.{◌≡◌, Some, slice_get};
ghost use Rattle.chan_model.specs.Reports.{lent_call};
ghost use Rattle.machine_model.specs.UnitTurns.{lent_turn};
ghost use Rattle.script_runner.specs.Acting as spec;

use chan_model::fault::Fault;
use chan_model::report::{DeviceAnswer, LentCall, LentWork, Report};
use device_law::answering::answer_to;
use device_models::any_device::AnyDevice;
use machine_model::state::UnitTurn;
use unit_driver::reporting::{NextReport, next_report};
use unit_driver::waiting::WaitingReport;

/// The report that waits for a unit, else the one of its next work where this is its turn, written into a slot. Where there is
/// a call of its device, it is made.
pub(crate) fn reported_by(
    devices: &mut Vec<AnyDevice>,
    unit: u32,
    waiting: &Option<WaitingReport>,
    turn: &UnitTurn<LentWork<'_>>,
    report: &mut Report,
) -> Result<(), Fault>
    ensures report { spec.reported result report.new ≡ (spec.turn_by devices.old.items «unit» (Some waiting.now) (Some (lent_turn turn.now))).report }
    ensures calls { devices.new.items ≡ (spec.turn_by devices.old.items «unit» (Some waiting.now) (Some (lent_turn turn.now))).devices }
{
    match next_report(waiting, turn, report) {
        NextReport::Told(()) => Ok(()),
        NextReport::Asked(call) => {
            if called(devices, unit, &call, &mut report.answer) {
                Ok(())
            } else {
                Err(Fault::NoSuchUnit)
            }
        }
        NextReport::Nothing => Err(Fault::NotNow),
    }
}

/// Calls the device of a unit, whose answer is written into a slot; false where there is none.
fn called(
    devices: &mut Vec<AnyDevice>,
    unit: u32,
    call: &LentCall<'_>,
    slot: &mut DeviceAnswer,
) -> bool
    ensures answer { spec.answer_when result slot.new ≡ spec.answer_by (slice_get devices.old.items «unit») (lent_call call.now) }
    ensures calls { devices.new.items ≡
        spec.called devices.old.items «unit» (slice_get devices.old.items «unit») (lent_call call.now) }
{
    let Some(device) = devices.get_mut(unit as usize) else {
        return false;
    };
    answer_to(device, call, slot);
    true
}
