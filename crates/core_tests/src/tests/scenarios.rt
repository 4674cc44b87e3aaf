//! What the tests do, each with a machine of its own that nothing happened to.

ghost use Rattle.std.specs.Prelude.{◌≡◌};
ghost use Rattle.machine_model.specs.State.{opening_of};
ghost use Rattle.subsystem.specs.Keeping.{all_serials};
ghost use Rattle.glance_directory.specs.Directory.{directory_of};

use crate::tests::crowd_tests::{answered, are_enough, begins_crowd, crowds, has_been_disturbed};
use crate::tests::gate_tests::{begins_both, meets};
use crate::tests::idle_tests::{are_beside, begins_idle, idles};
use crate::tests::looking_tests::{begins_looks, has_made, looks};
use crate::tests::machines::{apart, config_of};
use crate::tests::racers::{Racer, seats_of};
use crate::tests::replaying::replays;
use crate::tests::seats_tests::{answers, fills, leaves_out, sees};
use crate::tests::stale_tests::{begins_late, comes_late, has_dropped, is_refused};
use crate::tests::workers_tests::{begins_work, has_roamed, roams};
use channel_config::config::Config;
use core_lock::locked::{Core, Seat, audit};
use core_lock::naming::MachineBrand;
use core_lock::parts::Parts;
use machine_lock::locked_machine::Machine;
use path_select::Rotating;
use std::alloc::Global;
use std::marker::Brand;
use std::sync::Wait;
use std::thread::Threads;
use subsystem::subsystem::Subsystem;

/// What one test does.
#[derive(Clone, Copy)]
pub enum Scenario {
    /// A seat sees what another made and cleared.
    Sees,
    /// A reply is lent, and an event refused after it.
    Answers,
    /// A seat is left out at the end.
    LeavesOut,
    /// There are as many seats as there can be.
    Fills,
    /// Calls of two devices meet.
    Meets,
    /// A device is called before a Reset, and its report comes after it.
    ComesLate,
    /// A thread looks while another makes and clears statuses.
    Looks,
    /// A unit goes from path to path.
    Roams,
    /// Many threads enter many events.
    Crowds,
    /// A CPU executes beside a worker that has nothing to do.
    Idles,
}

/// The machine of a scenario.
pub fn setting(alloc: Global, scenario: Scenario) -> Config {
    match scenario {
        Scenario::Sees
        | Scenario::Answers
        | Scenario::LeavesOut
        | Scenario::Fills
        | Scenario::Looks
        | Scenario::Idles
        | Scenario::ComesLate => config_of(alloc, 1, &[0x10]),
        Scenario::Meets => apart(alloc, 2),
        Scenario::Roams => config_of(alloc, 1, &[0x10, 0x11, 0x12, 0x13, 0x14, 0x15, 0x16, 0x17]),
        Scenario::Crowds => config_of(alloc, 64, &[0x10, 0x11, 0x12, 0x13, 0x14, 0x15, 0x16, 0x17]),
    }
}

/// Who takes part: the first seat, and racers with seats of their own.
#[derive(Drop)]
struct Cast<J: MachineBrand> {
    first: Seat<J>,
    racers: Vec<Racer<J>>,
}

/// What came of a scenario: whether it went as it is told, all seats, and how many entries were answered to racers.
#[derive(Drop)]
struct Acted<J: MachineBrand> {
    well: bool,
    seats: Vec<Seat<J>>,
    answered: u64,
}

/// What is entered at the beginning, from the first seat, and the racers that take part.
fn enters<J: MachineBrand>(
    alloc: Global,
    core: &mut Core<J, Rotating>,
    cast: &mut Cast<J>,
    scenario: Scenario,
) -> bool {
    let first = &mut cast.first;
    let racers = &mut cast.racers;
    match scenario {
        Scenario::Sees => sees(core, first, racers),
        Scenario::Answers => answers(core, first),
        Scenario::LeavesOut => leaves_out(core),
        Scenario::Fills => fills(core, racers),
        Scenario::Meets => begins_both(alloc, core, first, racers),
        Scenario::ComesLate => begins_late(alloc, core, first, racers),
        Scenario::Looks => begins_looks(core, first, racers),
        Scenario::Roams => begins_work(alloc, core, first, racers),
        Scenario::Crowds => begins_crowd(alloc, core, first, racers),
        Scenario::Idles => begins_idle(core, racers),
    }
}

/// Who takes part, where the beginning goes as it is told.
fn begins<J: MachineBrand>(
    alloc: Global,
    core: &mut Core<J, Rotating>,
    scenario: Scenario,
) -> Option<Cast<J>> {
    let mut cast = Cast {
        first: core.seat().ok()?,
        racers: Vec::new(alloc),
    };
    if enters(alloc, core, &mut cast, scenario) {
        Some(cast)
    } else {
        None
    }
}

/// What the racers do at once: they, where it goes as it is told.
fn plays<J: MachineBrand + Send + Sync, R: Threads + Wait + Sync>(
    rt: &R,
    machine: &Machine<J, Rotating>,
    first: &mut Seat<J>,
    racers: Vec<Racer<J>>,
    scenario: Scenario,
) -> Option<Vec<Racer<J>>> {
    match scenario {
        Scenario::Meets => meets(rt, machine, racers),
        Scenario::ComesLate => comes_late(rt, machine, first, racers),
        Scenario::Looks => looks(rt, machine, racers),
        Scenario::Roams => roams(rt, machine, first, racers),
        Scenario::Crowds => crowds(rt, machine, racers),
        Scenario::Idles => idles(rt, machine, racers),
        _ => Some(racers),
    }
}

/// All seats after it, and how many entries were answered to racers; None where it does not go as it is told.
fn seats_after<J: MachineBrand + Send + Sync, R: Threads + Wait + Sync>(
    rt: &R,
    alloc: Global,
    machine: &Machine<J, Rotating>,
    cast: Option<Cast<J>>,
    scenario: Scenario,
) -> Option<(Vec<Seat<J>>, u64)> {
    let Cast { mut first, racers } = cast?;
    let racers = plays(rt, machine, &mut first, racers, scenario)?;
    let sum = answered(racers.as_slice());
    let seats = seats_of(alloc, first, racers).ok()?;
    Some((seats, sum))
}

/// The same, with no seat where it does not go as it is told.
fn acts<J: MachineBrand + Send + Sync, R: Threads + Wait + Sync>(
    rt: &R,
    alloc: Global,
    machine: &Machine<J, Rotating>,
    cast: Option<Cast<J>>,
    scenario: Scenario,
) -> Acted<J> {
    match seats_after(rt, alloc, machine, cast, scenario) {
        Some((seats, answered)) => Acted {
            well: true,
            seats,
            answered,
        },
        None => Acted {
            well: false,
            seats: Vec::new(alloc),
            answered: 0,
        },
    }
}

/// Whether the history has the log of each seat, and shows what it must.
fn is_shown<J: MachineBrand>(
    alloc: Global,
    core: &Core<J, Rotating>,
    seats: &[Seat<J>],
    scenario: Scenario,
) -> bool {
    let history = core.subsystem().history();
    audit(core, seats)
        && match scenario {
            Scenario::Roams => has_roamed(&history),
            Scenario::ComesLate => has_dropped(&history),
            Scenario::Crowds => {
                has_been_disturbed(&history) && replays(alloc, setting(alloc, scenario), &history)
            }
            _ => true,
        }
}

/// Whether the history has as many entries as it must in the end; None where a seat is left out.
fn are_due(scenario: Scenario, answered: u64, entries: Option<u64>) -> bool {
    match scenario {
        Scenario::Sees => entries == Some(5),
        Scenario::Answers => entries == Some(1),
        Scenario::LeavesOut => entries.is_none(),
        Scenario::Fills => entries == Some(0),
        Scenario::Meets | Scenario::Roams | Scenario::ComesLate => entries.is_some(),
        Scenario::Looks => has_made(entries),
        Scenario::Crowds => are_enough(answered, entries),
        Scenario::Idles => are_beside(answered, entries),
    }
}

/// Whether what is entered in the end, from the first seat, is answered as it must be.
fn enters_last<J: MachineBrand>(
    core: &mut Core<J, Rotating>,
    seats: &mut Vec<Seat<J>>,
    scenario: Scenario,
) -> bool {
    match (scenario, seats.get_mut(0)) {
        (Scenario::ComesLate, Some(first)) => is_refused(core, first),
        _ => true,
    }
}

/// Whether it went as it is told in the end, when core and seats are given up.
fn ends<J: MachineBrand>(
    alloc: Global,
    core: Core<J, Rotating>,
    acted: Acted<J>,
    scenario: Scenario,
) -> bool {
    let mut core = core;
    let Acted {
        well,
        mut seats,
        answered,
    } = acted;
    let entered = enters_last(&mut core, &mut seats, scenario);
    let shown = is_shown(alloc, &core, seats.as_slice(), scenario);
    let entries = core.close(seats);
    well && entered && shown && are_due(scenario, answered, entries)
}

/// Whether a scenario goes as it is told, on this core.
fn tell<J: MachineBrand + Send + Sync, R: Threads + Wait + Sync>(
    rt: &R,
    alloc: Global,
    core: Core<J, Rotating>,
    scenario: Scenario,
) -> bool {
    let mut core = core;
    let cast = begins(alloc, &mut core, scenario);
    let (machine, stock) = Machine::new(core);
    let acted = acts(rt, alloc, &machine, cast, scenario);
    ends(alloc, machine.into_core(stock), acted, scenario)
}

/// The same, on a core of this configuration that is made with these parts.
fn make_and_tell<J: MachineBrand + Send + Sync, R: Threads + Wait + Sync>(
    rt: &R,
    alloc: Global,
    config: Config,
    parts: Parts,
    scenario: Scenario,
) -> bool
    requires named { parts.name ≡ J.name }
    requires set_up { J.setup ≡ config }
    requires directory { parts.name.directory ≡ directory_of (opening_of config) }
    requires serials { parts.serials ≡ all_serials (opening_of config) }
{
    let Ok(subsystem) = Subsystem::new(alloc, config, Rotating) else {
        return false;
    };
    match Core::<J, Rotating>::new(alloc, subsystem, parts) {
        Ok(core) => tell(rt, alloc, core, scenario),
        Err(_) => false,
    }
}

/// Whether a scenario goes as it is told.
pub fn goes<R: Threads + Wait + Sync>(rt: &R, alloc: Global, scenario: Scenario) -> bool {
    let config = setting(alloc, scenario);
    let Ok(parts) = Parts::new(alloc, &config) else {
        return false;
    };
    make_and_tell::<Brand, R>(rt, alloc, config, parts, scenario)
}
