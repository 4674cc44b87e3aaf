//! Looks at the holds, the programs, the units and the wires of a machine that runs, each told by a struct of numbers.

ghost use Rattle.host_machine.specs.Looks.{Finds, ShowsFound};
ghost use Rattle.host_sight.specs.Sights as spec;

use crate::answers::{AT_OTHER_STAGE, fault_number};
use crate::host_machine::HostMachine;
use chan_model::fault::Fault;
use host_sight::holds::HostHold;
use host_sight::programs::HostPrograms;
use host_sight::sights::{down_at, hold_at, programs_at, unit_at, up_at, wires_at};
use host_sight::signals::HostSignal;
use host_sight::units::HostUnit;
use host_sight::waiting::HostWires;

/// What is found is told: 0; or the number of why it is not there, and what is told stays.
fn tell<T: Copy + Drop>(found: Result<T, Fault>, told: &mut T) -> i32
    ensures { Finds found result told.old told.new }
{
    match found {
        Ok(found) => {
            *told = found;
            0
        }
        Err(fault) => fault_number(fault),
    }
}

impl HostMachine {
    /// What the subsystem takes the device of a subchannel to be held by.
    pub fn hold(&self, subchannel: u32, told: &mut HostHold) -> i32
        ensures { ShowsFound (λ s. spec.hold_at s subchannel) self.now result told.old told.new }
    {
        match self {
            HostMachine::SettingUp(_) => AT_OTHER_STAGE,
            HostMachine::Runs(running) => tell(hold_at(running.subsystem(), subchannel), told),
        }
    }

    /// The programs of a subchannel.
    pub fn programs(&self, subchannel: u32, told: &mut HostPrograms) -> i32
        ensures { ShowsFound (λ s. spec.programs_at s subchannel) self.now result told.old told.new }
    {
        match self {
            HostMachine::SettingUp(_) => AT_OTHER_STAGE,
            HostMachine::Runs(running) => tell(programs_at(running.subsystem(), subchannel), told),
        }
    }

    /// What a unit remembers.
    pub fn unit(&self, unit: u32, told: &mut HostUnit) -> i32
        ensures { ShowsFound (λ s. spec.unit_at s «unit») self.now result told.old told.new }
    {
        match self {
            HostMachine::SettingUp(_) => AT_OTHER_STAGE,
            HostMachine::Runs(running) => tell(unit_at(running.subsystem(), unit), told),
        }
    }

    /// How many signals wait on the wires of a subchannel.
    pub fn wires(&self, subchannel: u32, told: &mut HostWires) -> i32
        ensures { ShowsFound (λ s. spec.wires_at s subchannel) self.now result told.old told.new }
    {
        match self {
            HostMachine::SettingUp(_) => AT_OTHER_STAGE,
            HostMachine::Runs(running) => tell(wires_at(running.subsystem(), subchannel), told),
        }
    }

    /// The signal at an index of the wire down of a path of a subchannel, 0 for that which waits longest.
    pub fn signal_down(&self, subchannel: u32, path: u32, index: u32, told: &mut HostSignal) -> i32
        ensures { ShowsFound (λ s. spec.down_at s subchannel path index) self.now result told.old told.new }
    {
        match self {
            HostMachine::SettingUp(_) => AT_OTHER_STAGE,
            HostMachine::Runs(running) => {
                tell(down_at(running.subsystem(), subchannel, path, index), told)
            }
        }
    }

    /// The same of the wire up.
    pub fn signal_up(&self, subchannel: u32, path: u32, index: u32, told: &mut HostSignal) -> i32
        ensures { ShowsFound (λ s. spec.up_at s subchannel path index) self.now result told.old told.new }
    {
        match self {
            HostMachine::SettingUp(_) => AT_OTHER_STAGE,
            HostMachine::Runs(running) => {
                tell(up_at(running.subsystem(), subchannel, path, index), told)
            }
        }
    }
}
