//! Running a script that was read, and racing CPUs at its end.

ghost use Rattle.std.specs.Prelude.{◌≡◌, ◌≢◌, Bool, true};
ghost use Rattle.machine_model.specs.State.{opening_of};
ghost use Rattle.subsystem.specs.Keeping.{all_serials};
ghost use Rattle.glance_directory.specs.Directory.{directory_of};
ghost use Rattle.script_runner.specs.Race.{AreMade};
ghost use Rattle.script_runner.specs.Serving as spec;
ghost use Rattle.script_runner.specs.declared.Ending.TheVariants as ending;
ghost use Rattle.script_runner.specs.Serving.{EndsBy, IsForMemory, IsRun, IsRunOf, IsRunOrRaced, IsRaceOf, PerformsAll, Races};

use crate::performing::{PerformedLines, perform};
use crate::racers::Racers;
use crate::scripted_machine::ScriptedMachine;
use crate::{Ending, no_memory};
use channel_config::config::Config;
use core_lock::naming::MachineBrand;
use core_lock::parts::Parts;
use core_lock::supplies::CoreSupply;
use script::lines::Lines;
use script::{RaceLine, Script};
use script_text::{ActionResult, put_event_line};
use std::alloc::Global;
use std::marker::Brand;
use std::sync::Wait;
use std::thread::Threads;
use streams::Sink;

/// What a machine is made of: its configuration, and the parts that were made for it.
#[derive(Drop)]
struct SetUp {
    config: Config,
    parts: Parts,
}

/// The actions of a script, and its last line, which is a race.
#[derive(Drop)]
struct RacingLines<'a> {
    lines: &'a Lines,
    last: RaceLine,
}

/// Performs a good script.
#[tactic(auto, using(crate::proofs::Failing::no_memory_fails))]
pub fn run_script<M: CoreSupply, S: Sink>(
    alloc: Global,
    supply: &mut M,
    script: Script,
    sink: &mut S,
) -> Ending
    ensures ends { IsRun (M.refused supply.new) script (S.seen sink.old) (S.seen sink.new) result }
    ensures memory { IsForMemory result → M.refused supply.new ≡ true }
    ensures audited { (whole : Bool) → result ≢ ending.AuditFailed whole }
{
    let (config, lines) = script.into_parts();
    let Ok(parts) = Parts::new_with(alloc, supply, &config) else {
        return no_memory(sink);
    };
    run_named::<Brand, M, S>(alloc, supply, SetUp { config, parts }, &lines, sink)
}

/// Performs a good script, with the race of its last line where it asks for one.
pub fn race_script<T: Threads + Wait + Sync, M: CoreSupply, S: Sink>(
    rt: &T,
    alloc: Global,
    supply: &mut M,
    script: Script,
    sink: &mut S,
) -> Ending
    ensures ends { IsRunOrRaced (M.refused supply.new) script (S.seen sink.old) (S.seen sink.new) result }
    ensures memory { IsForMemory result → M.refused supply.new ≡ true }
{
    let race = script.race();
    let (config, lines) = script.into_parts();
    let Ok(parts) = Parts::new_with(alloc, supply, &config) else {
        return no_memory(sink);
    };
    match race {
        Some(last) => {
            let asked = RacingLines {
                lines: &lines,
                last,
            };
            let set_up = SetUp { config, parts };
            race_named::<Brand, T, M, S>(rt, alloc, supply, set_up, &asked, sink)
        }
        None => run_named::<Brand, M, S>(alloc, supply, SetUp { config, parts }, &lines, sink),
    }
}

/// Performs lines at a machine of this name.
#[tactic(auto, using(crate::proofs::Endings::runs_from))]
fn run_named<J: MachineBrand, M: CoreSupply, S: Sink>(
    alloc: Global,
    supply: &mut M,
    set_up: SetUp,
    lines: &Lines,
    sink: &mut S,
) -> Ending
    requires named { set_up.parts.name ≡ J.name }
    requires set_up { J.setup ≡ set_up.config }
    requires directory { set_up.parts.name.directory ≡ directory_of (opening_of set_up.config) }
    requires serials { set_up.parts.serials ≡ all_serials (opening_of set_up.config) }
    ensures ends { IsRunOf (M.refused supply.new) set_up.config lines.now (S.seen sink.old) (S.seen sink.new) result }
    ensures memory { IsForMemory result → M.refused supply.new ≡ true }
{
    match ScriptedMachine::<J>::new(alloc, supply, set_up.config, set_up.parts, 0) {
        Ok((installation, _)) => perform_all(installation, supply, lines, sink),
        Err(_) => no_memory(sink),
    }
}

/// Performs lines at a machine of this name, and then a race.
#[tactic(auto, using(crate::proofs::Endings::races_from))]
fn race_named<J: MachineBrand + Send + Sync, T: Threads + Wait + Sync, M: CoreSupply, S: Sink>(
    rt: &T,
    alloc: Global,
    supply: &mut M,
    set_up: SetUp,
    asked: &RacingLines<'_>,
    sink: &mut S,
) -> Ending
    requires named { set_up.parts.name ≡ J.name }
    requires set_up { J.setup ≡ set_up.config }
    requires directory { set_up.parts.name.directory ≡ directory_of (opening_of set_up.config) }
    requires serials { set_up.parts.serials ≡ all_serials (opening_of set_up.config) }
    ensures ends { IsRaceOf (M.refused supply.new) set_up.config asked.now.lines.now asked.now.last (S.seen sink.old) (S.seen sink.new) result }
    ensures memory { IsForMemory result → M.refused supply.new ≡ true }
{
    let cpus = asked.last.race.cpus;
    match ScriptedMachine::<J>::new(alloc, supply, set_up.config, set_up.parts, cpus) {
        Ok((installation, racers)) => {
            perform_race(rt, installation, supply, racers, asked, sink)
        }
        Err(_) => no_memory(sink),
    }
}

/// Performs lines, with room for what is entered from a supply, and audits.
fn perform_all<J: MachineBrand, M: CoreSupply, S: Sink>(
    installation: ScriptedMachine<J>,
    supply: &mut M,
    lines: &Lines,
    sink: &mut S,
) -> Ending
    ensures { PerformsAll (M.refused supply.new) installation lines.now (S.seen sink.old) (S.seen sink.new) result }
{
    let mut installation = installation;
    let done = perform(&mut installation, supply, lines, sink);
    end(installation.audited(), done, sink)
}

/// Performs lines, with room for what is entered from a supply, and then a race, which asks the allocator; audits.
fn perform_race<J: MachineBrand + Send + Sync, T: Threads + Wait + Sync, M: CoreSupply, S: Sink>(
    rt: &T,
    installation: ScriptedMachine<J>,
    supply: &mut M,
    racers: Racers<J>,
    asked: &RacingLines<'_>,
    sink: &mut S,
) -> Ending
    requires { AreMade asked.now.last.race.cpus racers }
    ensures { Races (M.refused supply.new) installation asked.now.lines.now asked.now.last (S.seen sink.old) (S.seen sink.new) result }
{
    let mut installation = installation;
    let done = perform(&mut installation, supply, asked.lines, sink);
    if !done.whole {
        return end(installation.audited(), done, sink);
    }
    let (count, refused) = installation.race(rt, asked.last.race, racers);
    let whole = put_event_line(sink, asked.last.number, &Ok(ActionResult::Race(count)));
    ending_of(count.audited, whole, done.refused | refused)
}

/// How the program ends where these lines were performed. Where the audit failed, that is written after the last of them.
fn end<S: Sink>(audited: bool, done: PerformedLines, sink: &mut S) -> Ending
    ensures { EndsBy audited done.whole done.refused (S.seen sink.old) (S.seen sink.new) result }
{
    if audited || !done.whole {
        return ending_of(audited, done.whole, done.refused);
    }
    let whole = sink.put(b"audit failed\n");
    Ending::AuditFailed { whole }
}

/// How the program ends where all was written, or where the sink failed.
fn ending_of(audited: bool, whole: bool, refused: bool) -> Ending
    ensures { result ≡ spec.ending_of audited whole refused }
{
    match (audited, whole) {
        (false, _) => Ending::AuditFailed { whole },
        (true, true) => Ending::Done { refused },
        (true, false) => Ending::Stopped { refused },
    }
}
