//! `chbench`: performs cycles of channel programs at a channel subsystem, without a script, so that what a cycle costs can be
//! counted from outside, as the difference of two lengths.
//!
//! Its words are any number of groups of four, each performed at a machine of its own; all numbers are decimal:
//!
//! - `step KIND SUBCHANNELS CYCLES`: so many cycles by `Subsystem::step`, at the last of so many subchannels. The kind is
//!   `write`, `read`, `chain`, `reconnect`, `start`, which is a START SUBCHANNEL that a CANCEL SUBCHANNEL takes back, or `test`,
//!   which is one TEST SUBCHANNEL.
//! - `perform KIND SUBCHANNELS CYCLES`: the same by `Subsystem::perform`, whose answers stay in the history.
//! - `look KIND SUBCHANNELS CYCLES`: the same, and each answer is looked at where it stands, by `Subsystem::last_reply`.
//! - `lent-step`, `lent-perform` and `lent-look KIND SUBCHANNELS CYCLES`: the same three by `ChannelSubsystem`, which keeps no
//!   history, on 64 MiB of storage that is lent to it for all of them.
//! - `enter KIND SUBCHANNELS CYCLES`: the same by `Guarded::enter`, from the first seat of a core that no lock guards; `Core::enter`
//!   does the same with an event that it takes.
//! - `race CPUS LOOKERS TIMES`: so many CPUs, each on a thread of its own, execute TEST SUBCHANNEL under the lock, so many times
//!   each, while so many lookers look at the serials of the same subchannel, 64 times as often.
//!
//! For each group it prints how many events were accepted and refused and how many statuses were cleared; of a race how many
//! instructions and looks were answered, and whether the audit answers yes.
#![tactic(auto)]

mod bench;
mod cycle;
mod driver;
mod floor;
mod race;
mod seats;
mod taking;

use crate::bench::{Count, Work, measured};
use crate::cycle::Kind;
use crate::floor::{Lent, Own};
use crate::race::{Race, RaceCount};
use crate::seats::{Outcome, Task};
use crate::taking::{Leaving, Looking, Owning, Taking};
use channel_subsystem::hosted::ChannelSubsystem;
use channel_subsystem::keeping::Keeping;
use path_select::Rotating;
use std::alloc::Global;
use std::process::ExitCode;
use std::sync::Wait;
use std::thread::Threads;
use std::{env, io};
use storage_keys::LentStorage;
use subsystem::subsystem::Subsystem;

/// How many blocks of 4,096 bytes are lent to a channel subsystem: 64 MiB.
const BLOCKS: u32 = 0x4000;

/// What is done with the answers of a subsystem by itself.
#[derive(Clone, Copy)]
enum Answers {
    /// Each is a value, and is read.
    AreOwned,
    /// Each stays where it is.
    Stay,
    /// Each is looked at where it stands.
    AreLent,
}

/// Whose storage it is.
#[derive(Clone, Copy)]
enum Owner {
    /// The subsystem's, which keeps a history.
    Subsystem,
    /// The benchmark's, which lends it.
    Host,
}

impl Answers {
    /// By the word of a group; None where it is none of these.
    fn named(name: &str) -> Option<Answers> {
        if name == "step" {
            Some(Answers::AreOwned)
        } else if name == "perform" {
            Some(Answers::Stay)
        } else if name == "look" {
            Some(Answers::AreLent)
        } else {
            None
        }
    }

    /// The same of a subsystem that is lent storage.
    fn of_lent(name: &str) -> Option<Answers> {
        if name == "lent-step" {
            Some(Answers::AreOwned)
        } else if name == "lent-perform" {
            Some(Answers::Stay)
        } else if name == "lent-look" {
            Some(Answers::AreLent)
        } else {
            None
        }
    }
}

/// What a group of words asks for.
#[derive(Clone, Copy)]
enum Wanted {
    /// Cycles at a subsystem by itself.
    Step {
        owner: Owner,
        answers: Answers,
        work: Work,
    },
    /// A task at a core.
    AtCore(Task),
}

fn number(word: &str) -> Option<u32> {
    word.parse::<u32>().ok()
}

/// The cycles of a group: its kind by name, how many subchannels there are, and how many cycles.
fn work_of(kind: &str, subchannels: u32, cycles: u64) -> Option<Work> {
    Some(Work {
        kind: Kind::named(kind)?,
        subchannels,
        cycles,
    })
}

impl Wanted {
    /// What these words ask for; None where they are none of those above.
    fn of(words: &[String]) -> Option<Wanted> {
        match words {
            [name, second, third, times] => {
                let times = times.as_str().parse::<u64>().ok()?;
                Wanted::named(
                    name.as_str(),
                    second.as_str(),
                    number(third.as_str())?,
                    times,
                )
            }
            _ => None,
        }
    }

    /// What is asked for by its name.
    fn named(name: &str, second: &str, third: u32, times: u64) -> Option<Wanted> {
        if name == "enter" {
            Some(Wanted::AtCore(Task::Cycles(work_of(second, third, times)?)))
        } else if name == "race" {
            Some(Wanted::AtCore(Task::Race(Race {
                cpus: number(second)?,
                lookers: third,
                times,
            })))
        } else {
            let (owner, answers) = step_named(name)?;
            let work = work_of(second, third, times)?;
            Some(Wanted::Step {
                owner,
                answers,
                work,
            })
        }
    }

    /// Performs it at a machine of its own; None where there are not so many subchannels, CPUs or seats, or no memory.
    fn perform<R: Threads + Wait + Sync>(self, rt: &R, alloc: Global) -> Option<Outcome> {
        match self {
            Wanted::Step {
                owner,
                answers,
                work,
            } => counted_by(alloc, owner, answers, work).map(Outcome::Count),
            Wanted::AtCore(task) => seats::perform(rt, alloc, task),
        }
    }
}

/// Whose storage it is, and what is done with the answers, by the word of a group; None where it is none of these.
fn step_named(name: &str) -> Option<(Owner, Answers)> {
    match Answers::named(name) {
        Some(answers) => Some((Owner::Subsystem, answers)),
        None => Some((Owner::Host, Answers::of_lent(name)?)),
    }
}

/// Cycles at a subsystem by itself.
fn counted_by(alloc: Global, owner: Owner, answers: Answers, work: Work) -> Option<Count> {
    match owner {
        Owner::Subsystem => at_subsystem(alloc, answers, work),
        Owner::Host => on_lent(alloc, answers, work),
    }
}

/// Cycles at a subsystem of so many subchannels with the paths of this kind, which keeps their history.
fn at_subsystem(alloc: Global, answers: Answers, work: Work) -> Option<Count> {
    let config = work.config(alloc)?;
    match Subsystem::new(alloc, config, Rotating) {
        Ok(subsystem) => at_own(alloc, subsystem, answers, work),
        Err(_) => None,
    }
}

/// Cycles at this subsystem.
fn at_own(
    alloc: Global,
    subsystem: Subsystem<Rotating>,
    answers: Answers,
    work: Work,
) -> Option<Count> {
    match answers {
        Answers::AreOwned => taken_at_own(alloc, subsystem, Owning, work),
        Answers::Stay => taken_at_own(alloc, subsystem, Leaving, work),
        Answers::AreLent => taken_at_own(alloc, subsystem, Looking, work),
    }
}

/// The same, where its answers are taken so.
fn taken_at_own<T: Taking>(
    alloc: Global,
    subsystem: Subsystem<Rotating>,
    taking: T,
    work: Work,
) -> Option<Count> {
    measured(alloc, &mut Own { subsystem, taking }, work)
}

/// Cycles at one that keeps no history, on 64 MiB that are lent to it.
fn on_lent(alloc: Global, answers: Answers, work: Work) -> Option<Count> {
    let mut bytes = vec![in alloc; 0; 0x1000 * BLOCKS as usize].ok()?;
    match vec![in alloc; 0; BLOCKS as usize] {
        Ok(mut keys) => on_storage(
            alloc,
            bytes.as_mut_slice(),
            keys.as_mut_slice(),
            answers,
            work,
        ),
        Err(_) => None,
    }
}

/// Cycles at one that keeps no history, on storage of these bytes and keys.
fn on_storage(
    alloc: Global,
    bytes: &mut [u8],
    keys: &mut [u8],
    answers: Answers,
    work: Work,
) -> Option<Count> {
    match answers {
        Answers::AreOwned => taken_on_storage(alloc, bytes, keys, Owning, work),
        Answers::Stay => taken_on_storage(alloc, bytes, keys, Leaving, work),
        Answers::AreLent => taken_on_storage(alloc, bytes, keys, Looking, work),
    }
}

/// The same, where its answers are taken so.
fn taken_on_storage<T: Taking>(
    alloc: Global,
    bytes: &mut [u8],
    keys: &mut [u8],
    taking: T,
    work: Work,
) -> Option<Count> {
    let mut prefixes = [0; 16];
    if !LentStorage::fits(bytes.len(), keys.len(), &prefixes) {
        return None;
    }
    let config = work.config(alloc)?;
    let subsystem = ChannelSubsystem::new(
        alloc,
        config,
        BLOCKS,
        Keeping::LastEntry,
        Rotating,
    ).ok()?;
    let storage = LentStorage::new(bytes, keys, &mut prefixes);
    measured(alloc, &mut Lent::of(subsystem, storage, taking), work)
}

/// Prints the words of a group.
fn show_words(rt: &HostRuntime, words: &[String]) -> io::Result<()> {
    for word in words {
        print!(rt; "{} ", word.as_str())?;
    }
    Ok(())
}

/// Prints what came of a group.
fn show(rt: &HostRuntime, outcome: Outcome) -> io::Result<()> {
    match outcome {
        Outcome::Count(
            Count {
                accepted,
                refused,
                cleared,
            },
        ) => println!(rt;
            "- {} events accepted, {} refused, {} statuses cleared",
            accepted, refused, cleared
        ),
        Outcome::Race(
            RaceCount {
                instructions,
                looks,
                audited,
            },
        ) => {
            let audit = if audited { "yes" } else { "no" };
            println!(rt;
                "- {} instructions, {} looks, audit {}",
                instructions, looks, audit
            )
        }
    }
}

/// The words of the program, behind its name.
fn add_words(rt: &HostRuntime, words: &mut Vec<String>) -> io::Result<()> {
    let mut args = env::args(rt)?;
    let _ = args.next();
    for word in args {
        words.push(word)?;
    }
    Ok(())
}

/// Prints what came of a group: the exit status, where it ends the program.
fn tell(
    rt: &HostRuntime,
    group: &[String],
    wanted: Option<Wanted>,
    outcome: Option<Outcome>,
) -> io::Result<Option<u8>> {
    if wanted.is_none() {
        println!(rt;
            "chbench: [lent-]step|perform|look KIND SUBCHANNELS CYCLES | enter KIND SUBCHANNELS CYCLES | race CPUS LOOKERS TIMES .."
        )?;
        return Ok(Some(2));
    }
    let Some(outcome) = outcome else {
        println!(rt; "chbench: no such subchannel, too many CPUs or seats, or no memory")?;
        return Ok(Some(1));
    };
    show_words(rt, group)?;
    show(rt, outcome)?;
    Ok(None)
}

fn main(rt: HostRuntime) -> io::Result<ExitCode> {
    let mut words = Vec::new(rt.alloc());
    add_words(&rt, &mut words)?;
    for group in words.as_slice().chunks(4) {
        let wanted = Wanted::of(group);
        let outcome = match wanted {
            Some(wanted) => wanted.perform(&rt, rt.alloc()),
            None => None,
        };
        if let Some(status) = tell(&rt, group, wanted, outcome)? {
            return Ok(ExitCode::from(status));
        }
    }
    Ok(ExitCode::SUCCESS)
}
