//! Setting a machine up, call by call.

ghost use Rattle.std.specs.Prelude.{◌≡◌, Err, map, true};
ghost use Rattle.channel_config.specs.Refusing.{Configures};
ghost use Rattle.channel_config.specs.declared.config.ConfigFault.TheVariants as config_fault;
ghost use Rattle.host_machine.specs.Answers.{below, no_memory};
ghost use Rattle.host_machine.specs.Hosts.{SetsUp};
ghost use Rattle.host_machine.specs.Settings as spec;
ghost use Rattle.host_machine.specs.SettingLines.{SetsUpLine, TakesLine, TakesWords};

use crate::answers::{AT_OTHER_STAGE, NO_MEMORY, config_number};
use crate::host_machine::HostMachine;
use crate::lines::line_number;
use channel_config::config::{Config, ConfigFault};
use channel_config::parts::{ConcurrentSense, PathReturn, UnitKind};
use event_lines::reading::words_of;
use memory::{Allocator, Supply};
use script_rows::settings::{self, setting_row};
use script_rows::words::{LineFault, LineRule};
use std::alloc::Global;

/// What a call says of the set-up.
#[derive(Clone, Copy)]
pub enum HostSetting<'a> {
    /// How many sets of subchannels there are, 1 to 4: said once, before any subchannel. One set where nothing is said.
    Sets(u32),
    /// One channel path more, by its identifier, 0 to 255.
    Path(u32),
    /// One unit more, of the next number, 0 to 1023. Its device is the host's.
    Unit(u32),
    /// These units share a control unit: one of them is served at a time.
    Share(&'a [u32]),
    /// One subchannel more: the subsystem-identification word that names it, its device number, its unit, and the identifiers of one
    /// to eight of the channel paths, by path index.
    Subchannel {
        word: u32,
        device: u32,
        unit: u32,
        chpids: &'a [u32],
    },
    /// What MODIFY SUBCHANNEL does with the concurrent-sense bit of the subchannels that come after this.
    ConcurrentSense(ConcurrentSense),
    /// How a channel path that is back is reported.
    PathReturn(PathReturn),
}

/// Takes a setting; one that is refused changes nothing.
fn configure<S: Supply>(
    supply: &mut S,
    config: &mut Config,
    setting: &HostSetting<'_>,
) -> Result<(), ConfigFault>
    ensures does { Configures config.old config.new result (spec.set config.old setting.now) }
    ensures memory { result ≡ Err config_fault.NoMemory → S.refused supply.new ≡ true }
{
    match setting {
        HostSetting::Sets(count) => config.sets(*count),
        HostSetting::Path(chpid) => config.path_with(supply, *chpid),
        HostSetting::Unit(number) => config.unit_with(supply, *number, UnitKind::Block),
        HostSetting::Share(units) => config.share(units),
        HostSetting::Subchannel {
            word,
            device,
            unit,
            chpids,
        } => config.subchannel_with(supply, *word, *device, *unit, chpids),
        HostSetting::ConcurrentSense(choice) => {
            config.set_concurrent_sense(*choice);
            Ok(())
        }
        HostSetting::PathReturn(choice) => {
            config.set_path_return(*choice);
            Ok(())
        }
    }
}

impl HostMachine {
    /// The same as `set_up_with`, in what room the allocator has.
    pub fn set_up(&mut self, setting: &HostSetting<'_>) -> i32
        ensures { SetsUp self.old (λ s. spec.set s setting.now) result self.new }
    {
        self.set_up_with(&mut Allocator { refused: false }, setting)
    }

    /// A setting: 0, or the rule that it breaks, `NO_MEMORY` where the supply refused a growth, or `AT_OTHER_STAGE` where the machine
    /// runs. A refused one changes nothing.
    pub fn set_up_with<S: Supply>(&mut self, supply: &mut S, setting: &HostSetting<'_>) -> i32
        ensures sets { SetsUp self.old (λ s. spec.set s setting.now) result self.new }
        ensures memory { result ≡ below no_memory → S.refused supply.new ≡ true }
    {
        match self {
            HostMachine::SettingUp(config) => config_number(configure(supply, config, setting)),
            HostMachine::Runs(_) => AT_OTHER_STAGE,
        }
    }
}

/// What the words of a line say of the set-up: 0, or less where the line or its setting is refused.
fn set_up_words<S: Supply>(
    alloc: Global,
    supply: &mut S,
    config: &mut Config,
    words: &[&[u8]],
) -> i32
    ensures takes { TakesWords (map (λ w. w.now) words.now) config.old result config.new }
    ensures memory { result ≡ below no_memory → S.refused supply.new ≡ true }
{
    let [first, others @ ..] = words else {
        return line_number(LineRule::UnknownWord);
    };
    match setting_row(alloc, supply, first, others) {
        Ok(Some(setting)) => config_number(settings::configure(supply, config, &setting)),
        Ok(None) => line_number(LineRule::UnknownWord),
        Err(LineFault::Rule(rule)) => line_number(rule),
        Err(LineFault::NoMemory) => NO_MEMORY,
    }
}

/// What a line says of the set-up; `NO_MEMORY` where the supply refused a growth.
fn set_up_line<S: Supply>(alloc: Global, supply: &mut S, config: &mut Config, line: &[u8]) -> i32
    ensures takes { TakesLine line.now config.old result config.new }
    ensures memory { result ≡ below no_memory → S.refused supply.new ≡ true }
{
    match words_of(alloc, supply, line) {
        Ok(words) => set_up_words(alloc, supply, config, words.as_slice()),
        Err(_) => NO_MEMORY,
    }
}

impl HostMachine {
    /// The same as `set_up_line_with`, in what room the allocator has.
    pub fn set_up_line(&mut self, alloc: Global, line: &[u8]) -> i32
        ensures { SetsUpLine line.now self.old result self.new }
    {
        self.set_up_line_with(alloc, &mut Allocator { refused: false }, line)
    }

    /// The first line of a text, which is one of a script that configures a machine: `storage`, `sets`, `path`, `unit`, `share` or
    /// `sub`. 0, or the rule that it breaks, as a line or as a setting, or `NO_MEMORY` where the supply refused a growth; the kind that
    /// a `unit` line names counts for nothing.
    pub fn set_up_line_with<S: Supply>(&mut self, alloc: Global, supply: &mut S, line: &[u8]) -> i32
        ensures sets { SetsUpLine line.now self.old result self.new }
        ensures memory { result ≡ below no_memory → S.refused supply.new ≡ true }
    {
        match self {
            HostMachine::SettingUp(config) => set_up_line(alloc, supply, config, line),
            HostMachine::Runs(_) => AT_OTHER_STAGE,
        }
    }
}
