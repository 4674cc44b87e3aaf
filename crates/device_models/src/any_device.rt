//! The device of a unit, of whatever kind.

ghost use Rattle.std.specs.Prelude.{◌≡◌, ◌≤◌, length};
ghost use Rattle.ccw_codec.specs.Command.{class_of};
ghost use Rattle.ccw_codec.specs.declared.Class.TheVariants.{ReadBackward};
ghost use Rattle.chan_model.specs.declared.report.Call.TheVariants as call;
ghost use Rattle.chan_model.specs.declared.report.DeviceAnswer.TheVariants as answer;
ghost use Rattle.device_law.specs.Laws.{IsInitial, IsFinal};
ghost use Rattle.device_law.specs.Calls.{IsDeviceAnswer, answer_of_initial, answer_of_finish};
ghost use Rattle.device_models.specs.AnyDevices as spec;

use crate::block_store::BlockStore;
use crate::console::Console;
use crate::rejecting::Rejecting;
use chan_model::chunk::Chunk;
use chan_model::names::CommandPath;
use channel_config::parts::UnitKind;
use device_law::{Device, Finish};
use scsw_irb::status::DeviceStatus;

/// The device of a unit, by the unit's kind. Each call is handed on.
#[derive(Drop)]
pub enum AnyDevice {
    Block(BlockStore),
    Console(Console),
    Rejecting(Rejecting),
}

impl AnyDevice {
    /// The device of a unit of this kind, at its opening.
    pub fn of(kind: UnitKind) -> Self
        ensures { result ≡ spec.device_of kind }
    {
        match kind {
            UnitKind::Block => AnyDevice::Block(BlockStore::new()),
            UnitKind::Console => AnyDevice::Console(Console::new()),
            UnitKind::Rejecting => AnyDevice::Rejecting(Rejecting::new()),
        }
    }
}

impl Device for AnyDevice {
    ghost answers = { IsDeviceAnswer spec.answer_of spec.after };

    ghost opening = { spec.device_opening };

    fn initial(&mut self, code: u8, came_by: CommandPath) -> DeviceStatus {
        match self {
            AnyDevice::Block(store) => store.initial(code, came_by),
            AnyDevice::Console(console) => console.initial(code, came_by),
            AnyDevice::Rejecting(device) => device.initial(code, came_by),
        }
    }

    fn supply(&mut self, most: usize) -> Chunk {
        match self {
            AnyDevice::Block(store) => store.supply(most),
            AnyDevice::Console(console) => console.supply(most),
            AnyDevice::Rejecting(device) => device.supply(most),
        }
    }

    fn absorb(&mut self, bytes: &[u8]) -> usize {
        match self {
            AnyDevice::Block(store) => store.absorb(bytes),
            AnyDevice::Console(console) => console.absorb(bytes),
            AnyDevice::Rejecting(device) => device.absorb(bytes),
        }
    }

    fn finish(&mut self) -> Finish {
        match self {
            AnyDevice::Block(store) => store.finish(),
            AnyDevice::Console(console) => console.finish(),
            AnyDevice::Rejecting(device) => device.finish(),
        }
    }

    fn restart(&mut self) {
        match self {
            AnyDevice::Block(store) => store.restart(),
            AnyDevice::Console(console) => console.restart(),
            AnyDevice::Rejecting(device) => device.restart(),
        }
    }
}
