//! The gate that a device worker passes before each call of a device.

ghost use Rattle.std.specs.Prelude.{ℕ};
ghost use Rattle.chan_model.specs.Reports.{Call};
ghost use Rattle.chan_model.specs.Reports.{DeviceAnswer};

use chan_model::report::{Call, DeviceAnswer};
use device_law::Device;
use device_law::answering::answer;

/// Passed outside the lock, before each call of a device.
pub trait Gate {
    // That it let a call of this unit's device pass, by this number. A contract for every gate has it from `pass` alone.
    ghost passes: { Self → ℕ → ℕ → Type 0 };

    /// Lets a call of this unit's device pass; the calls of one seat are counted from 1, and the greatest u64 stays.
    fn pass(&self, unit: u32, call: u64)
        ensures { passes self.now «unit» call };
}

/// A gate that is always open.
#[derive(Clone, Copy, Debug)]
pub struct Open;

impl Gate for Open {
    ghost passes = { λ _ _ _. Unit {0} };

    fn pass(&self, _unit: u32, _call: u64) {}
}

/// A device that is called through a gate alone.
pub trait Gated {
    // Of the device before a call, the call, its answer, and the device after it: so does the device answer.
    ghost answers: { Self → Call → DeviceAnswer → Self → Type 0 };

    /// Makes the call of this unit's device, which the gate let pass by this number.
    fn call_through<G: Gate>(
        &mut self,
        gate: &G,
        unit: u32,
        number: u64,
        call: &Call,
    ) -> DeviceAnswer
        requires passed { G.passes gate.now «unit» number }
        ensures answers { answers self.old call.now result self.new };
}

impl<D: Device> Gated for D {
    ghost answers = { D.answers };

    fn call_through<G: Gate>(
        &mut self,
        _gate: &G,
        _unit: u32,
        _number: u64,
        call: &Call,
    ) -> DeviceAnswer {
        answer(self, call)
    }
}
