//! A machine that is set up, and then runs.

ghost use Rattle.std.specs.Prelude.{◌≡◌, true};
ghost use Rattle.host_machine.specs.Answers.{below, no_memory};
ghost use Rattle.channel_config.specs.Setup.{no_setup};
ghost use Rattle.host_machine.specs.Hosts as spec;
ghost use Rattle.host_machine.specs.Hosts.{Performs, Starts};
ghost use Rattle.host_machine.specs.Works.{TurnsSubchannel, TurnsUnit};
ghost use Rattle.host_machine.specs.declared.host_machine.HostMachine.TheVariants as variant;

use crate::answers::{AT_OTHER_STAGE, BAD_ARGUMENT, NO_MEMORY};
use crate::running::Running;
use chan_events::event::Event;
use channel_config::config::Config;
use channel_subsystem::keeping::Keeping;
use memory::{Allocator, Supply};
use std::alloc::Global;
use std::mem::replace;

/// A machine, as far as it is.
#[derive(Drop)]
pub enum HostMachine {
    /// It is being set up.
    SettingUp(Config),
    /// It runs.
    Runs(Running),
}

impl HostMachine {
    /// A machine of which nothing is set up. It takes no memory.
    pub fn new(alloc: Global) -> HostMachine
        ensures { result ≡ variant.SettingUp no_setup }
    {
        HostMachine::SettingUp(Config::new(alloc))
    }

    /// One event on the storage that is lent, as `Running::enter` has it; `AT_OTHER_STAGE` where the machine does not run yet.
    pub fn perform(&mut self, bytes: &mut [u8], keys: &mut [u8], event: &Event) -> i32
        ensures { Performs self.old bytes.old keys.old event.now result self.new bytes.new keys.new }
    {
        match self {
            HostMachine::SettingUp(_) => AT_OTHER_STAGE,
            HostMachine::Runs(running) => running.enter(bytes, keys, event),
        }
    }

    /// A turn of a unit, as `Running::turn_unit` has it; `AT_OTHER_STAGE` where the machine does not run yet.
    pub fn turn_unit(&mut self, bytes: &mut [u8], keys: &mut [u8], unit: u32) -> i32
        ensures { TurnsUnit self.old bytes.old keys.old «unit» result self.new bytes.new keys.new }
    {
        match self {
            HostMachine::SettingUp(_) => AT_OTHER_STAGE,
            HostMachine::Runs(running) => running.turn_unit(bytes, keys, unit),
        }
    }

    /// A turn of a subchannel, as `Running::turn_subchannel` has it; `AT_OTHER_STAGE` where the machine does not run yet.
    pub fn turn_subchannel(&mut self, bytes: &mut [u8], keys: &mut [u8], subchannel: u32) -> i32
        ensures { TurnsSubchannel self.old bytes.old keys.old subchannel result self.new bytes.new keys.new }
    {
        match self {
            HostMachine::SettingUp(_) => AT_OTHER_STAGE,
            HostMachine::Runs(running) => running.turn_subchannel(bytes, keys, subchannel),
        }
    }

    /// The same as `start_with`, in what room the allocator has.
    pub fn start(&mut self, alloc: Global, blocks: u32, keeping: Keeping) -> i32
        ensures { Starts self.old blocks keeping result self.new }
    {
        self.start_with(alloc, &mut Allocator { refused: false }, blocks, keeping)
    }

    /// The machine that is set up runs, for storage of so many blocks of 4,096 bytes, with keys and prefixes of zero; 0 blocks are as
    /// many as a line of the set-up says of storage. `BAD_ARGUMENT` where the blocks are not 16 to 524,288, `NO_MEMORY` where the supply
    /// refused a growth: then it is set up as it was.
    pub fn start_with<S: Supply>(
        &mut self,
        alloc: Global,
        supply: &mut S,
        blocks: u32,
        keeping: Keeping,
    ) -> i32
        ensures starts { Starts self.old blocks keeping result self.new }
        ensures memory { result ≡ below no_memory → S.refused supply.new ≡ true }
    {
        let HostMachine::SettingUp(config) = self else {
            return AT_OTHER_STAGE;
        };
        let blocks = blocks_of(config, blocks);
        if blocks < 16 || blocks > 524_288 {
            return BAD_ARGUMENT;
        }
        let given = replace(config, Config::new(alloc));
        match Running::new_with(alloc, supply, given, blocks, keeping) {
            Ok(running) => {
                *self = HostMachine::Runs(running);
                0
            }
            Err(given) => {
                *self = HostMachine::SettingUp(given);
                NO_MEMORY
            }
        }
    }
}

/// How many blocks storage has: so many, or where that is 0 as many as the set-up says.
fn blocks_of(config: &Config, blocks: u32) -> u32
    ensures { result ≡ spec.blocks_of config.now blocks }
{
    if blocks == 0 {
        config.blocks().unwrap_or(0)
    } else {
        blocks
    }
}
