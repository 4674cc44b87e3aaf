//! A device that rejects every command.

ghost use Rattle.std.specs.Prelude.{◌≡◌, ◌≤◌, length};
ghost use Rattle.ccw_codec.specs.Command.{class_of};
ghost use Rattle.ccw_codec.specs.declared.Class.TheVariants.{ReadBackward};
ghost use Rattle.chan_model.specs.declared.report.Call.TheVariants as call;
ghost use Rattle.chan_model.specs.declared.report.DeviceAnswer.TheVariants as answer;
ghost use Rattle.device_law.specs.Laws.{IsInitial, IsFinal};
ghost use Rattle.device_law.specs.Calls.{IsDeviceAnswer, answer_of_initial, answer_of_finish};
ghost use Rattle.device_models.specs.Rejects as spec;

use crate::giving::COMMAND_REJECT;
use chan_model::chunk::Chunk;
use chan_model::names::CommandPath;
use device_law::{Device, Finish};
use scsw_irb::status::DeviceStatus;
use std::marker::Model;

/// A device that rejects every command; no command reads its sense byte.
#[derive(Drop)]
pub struct Rejecting {
    sense: u8,
}

impl Model for Rejecting {
    ghost use Rattle.device_models.specs.Rejects.{Rejects};

    ghost Value = { Rejects };

    ghost view = { λ d. record { sense = d.sense } };
}

impl Rejecting {
    /// Such a device at its opening: the sense byte is zero.
    pub fn new() -> Self
        ensures { result ≡ spec.opening }
    {
        Rejecting { sense: 0 }
    }
}

impl Device for Rejecting {
    ghost answers = { IsDeviceAnswer spec.answer_of spec.after };

    ghost opening = { λ _. spec.opening };

    /// Any code is rejected: unit check, and the sense byte is 80 then.
    fn initial(&mut self, code: u8, _came_by: CommandPath) -> DeviceStatus {
        self.sense = COMMAND_REJECT;
        DeviceStatus::UNIT_CHECK
    }

    /// Gives nothing.
    fn supply(&mut self, _most: usize) -> Chunk {
        Chunk::new()
    }

    /// Takes nothing.
    fn absorb(&mut self, _bytes: &[u8]) -> usize {
        0
    }

    /// Ends with channel end and device end.
    fn finish(&mut self) -> Finish {
        Finish {
            status: DeviceStatus::end(),
            more: false,
        }
    }

    /// Puts the device back to its opening.
    fn restart(&mut self) {
        *self = Rejecting::new();
    }
}
