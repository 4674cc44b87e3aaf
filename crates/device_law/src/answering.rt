//! What a device answers to a call of its unit.

ghost use Rattle.std.specs.Prelude.{◌≡◌, ◌≤◌, length};
ghost use Rattle.device_law.specs.Laws.{IsAnswer};
ghost use Rattle.chan_model.specs.Reports.{lent_call};
ghost use Rattle.chan_model.specs.declared.report.Call.TheVariants as call_spec;

use crate::{Device, Finish};
use chan_model::names::CommandPath;
use chan_model::report::{Call, DeviceAnswer, LentCall};

/// Makes the call.
pub fn answer<D: Device>(device: &mut D, call: &Call) -> DeviceAnswer
    ensures law { IsAnswer call.now result }
    ensures answers { D.answers device.old call.now result device.new }
    ensures opening { D.opening device.new ≡ D.opening device.old }
{
    let mut slot = DeviceAnswer::Begins;
    answer_to(device, &call.lend(), &mut slot);
    slot
}

/// Makes the call, as `answer` does; its bytes are lent, and the answer is written into its slot.
pub fn answer_to<D: Device>(device: &mut D, call: &LentCall<'_>, slot: &mut DeviceAnswer)
    ensures law { IsAnswer (lent_call call.now) slot.new }
    ensures answers { D.answers device.old (lent_call call.now) slot.new device.new }
    ensures opening { D.opening device.new ≡ D.opening device.old }
{
    match call {
        Call::Initial { code, came_by } => initial_to(device, *code, *came_by, slot),
        Call::Absorb { bytes } => absorb_to(device, bytes.as_slice(), slot),
        Call::Supply { most } => supply_to(device, *most, slot),
        Call::Finish => {
            let Finish { status, more } = device.finish();
            *slot = DeviceAnswer::Ended { status, more };
        }
    }
}

/// The answer that bytes of a write were absorbed, written into its slot.
#[inline(never)]
fn absorb_to<D: Device>(device: &mut D, bytes: &[u8], slot: &mut DeviceAnswer)
    requires { length bytes.now ≤ 256 }
    ensures law { IsAnswer (call_spec.Absorb bytes.now) slot.new }
    ensures answers { D.answers device.old (call_spec.Absorb bytes.now) slot.new device.new }
    ensures opening { D.opening device.new ≡ D.opening device.old }
{
    let count = device.absorb(bytes) as u16;
    *slot = DeviceAnswer::Absorbed(count);
}

/// The answer that has bytes, written into its slot.
#[inline(never)]
fn supply_to<D: Device>(device: &mut D, most: u16, slot: &mut DeviceAnswer)
    ensures law { IsAnswer (call_spec.Supply most) slot.new }
    ensures answers { D.answers device.old (call_spec.Supply most) slot.new device.new }
    ensures opening { D.opening device.new ≡ D.opening device.old }
{
    *slot = DeviceAnswer::Supplied(device.supply(usize::from(most)));
}

/// The answer to an initial status, written into its slot: an empty one begins the command, any other ends it or its channel's part.
fn initial_to<D: Device>(device: &mut D, code: u8, came_by: CommandPath, slot: &mut DeviceAnswer)
    ensures law { IsAnswer (call_spec.Initial code came_by) slot.new }
    ensures answers { D.answers device.old (call_spec.Initial code came_by) slot.new device.new }
    ensures opening { D.opening device.new ≡ D.opening device.old }
{
    let status = device.initial(code, came_by);
    match status.bits() {
        0 => *slot = DeviceAnswer::Begins,
        _ => *slot = DeviceAnswer::Ended {
            status,
            more: false,
        },
    }
}
