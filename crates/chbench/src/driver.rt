//! A unit's device, and the report of what it answers.

use chan_events::event::Event;
use chan_model::report::LentWork;
use channel_config::parts::UnitKind;
use device_law::answering::answer_to;
use device_models::any_device::AnyDevice;
use machine_model::state::UnitTurn;
use unit_driver::reporting::{NextReport, next_report, no_report};

/// A unit, its device, and a slot for its report, which is made once.
#[derive(Drop)]
pub struct Driver {
    unit: u32,
    device: AnyDevice,
    report: Event,
}

impl Driver {
    /// That of this unit, a store of blocks, with a report that no device gave.
    pub fn of(unit: u32) -> Self {
        Driver {
            unit,
            device: AnyDevice::of(UnitKind::Block),
            report: Event::Report {
                unit,
                report: no_report(),
            },
        }
    }

    /// The unit.
    pub fn unit(&self) -> u32 {
        self.unit
    }

    /// The event that hands in the report.
    pub fn event(&self) -> &Event {
        &self.report
    }

    /// Writes the report of the unit's next work, by its turn, the device having been called where the work is a call; false where
    /// it has none.
    pub fn reports(&mut self, turn: &UnitTurn<LentWork<'_>>) -> bool {
        let Event::Report { report, .. } = &mut self.report else {
            return false;
        };
        match next_report(&None, turn, report) {
            NextReport::Told(()) => true,
            NextReport::Asked(call) => {
                answer_to(&mut self.device, &call, &mut report.answer);
                true
            }
            NextReport::Nothing => false,
        }
    }
}
