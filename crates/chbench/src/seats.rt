//! What is performed at a core, by seats of it.

ghost use Rattle.std.specs.Prelude.{◌≡◌};
ghost use Rattle.machine_model.specs.State.{opening_of};
ghost use Rattle.subsystem.specs.Keeping.{all_serials};
ghost use Rattle.glance_directory.specs.Directory.{directory_of};

use crate::bench::{Count, Work, config_of, measured};
use crate::floor::Seated;
use crate::race::{Race, RaceCount, raced};
use channel_config::config::Config;
use core_lock::locked::Core;
use core_lock::naming::MachineBrand;
use core_lock::parts::Parts;
use path_select::Rotating;
use std::alloc::Global;
use std::marker::Brand;
use std::sync::Wait;
use std::thread::Threads;
use subsystem::subsystem::Subsystem;

/// What is to be performed at a core.
#[derive(Clone, Copy)]
pub enum Task {
    /// Cycles, by one seat.
    Cycles(Work),
    /// A race at one subchannel.
    Race(Race),
}

/// What came of it.
#[derive(Clone, Copy)]
pub enum Outcome {
    Count(Count),
    Race(RaceCount),
}

impl Task {
    /// The machine at whose core it is performed. None where there are not so many subchannels.
    fn config(self, alloc: Global) -> Option<Config> {
        match self {
            Task::Cycles(work) => work.config(alloc),
            Task::Race(_) => config_of(alloc, 1, 1),
        }
    }

    /// Performs it at a core.
    fn performed<J: MachineBrand + Send + Sync, R: Threads + Wait + Sync>(
        self,
        rt: &R,
        alloc: Global,
        core: Core<J, Rotating>,
    ) -> Option<Outcome> {
        match self {
            Task::Cycles(work) => match cycled(alloc, core, work) {
                Some(count) => Some(Outcome::Count(count)),
                None => None,
            },
            Task::Race(race) => match raced(rt, alloc, core, race) {
                Some(count) => Some(Outcome::Race(count)),
                None => None,
            },
        }
    }
}

/// Cycles at a core, by its first seat.
fn cycled<J: MachineBrand>(alloc: Global, core: Core<J, Rotating>, work: Work) -> Option<Count> {
    let mut core = core;
    let seat = core.seat();
    let (guarded, _stock) = core.split();
    match seat {
        Ok(seat) => measured(alloc, &mut Seated { guarded, seat }, work),
        Err(_) => None,
    }
}

/// Performs a task at a core of this name.
fn at_core<J: MachineBrand + Send + Sync, R: Threads + Wait + Sync>(
    rt: &R,
    alloc: Global,
    config: Config,
    parts: Parts,
    task: Task,
) -> Option<Outcome>
    requires named { parts.name ≡ J.name }
    requires set_up { J.setup ≡ config }
    requires directory { parts.name.directory ≡ directory_of (opening_of config) }
    requires serials { parts.serials ≡ all_serials (opening_of config) }
{
    let Ok(subsystem) = Subsystem::new(alloc, config, Rotating) else {
        return None;
    };
    match Core::<J, Rotating>::new(alloc, subsystem, parts) {
        Ok(core) => task.performed(rt, alloc, core),
        Err(_) => None,
    }
}

/// Performs a task at a core of its own; None where there are not so many subchannels, CPUs or seats, or no memory.
pub fn perform<R: Threads + Wait + Sync>(rt: &R, alloc: Global, task: Task) -> Option<Outcome> {
    let config = task.config(alloc)?;
    match Parts::new(alloc, &config) {
        Ok(parts) => at_core::<Brand, R>(rt, alloc, config, parts, task),
        Err(_) => None,
    }
}
