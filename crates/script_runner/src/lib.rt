//! Serving a script: its actions are performed at a channel subsystem with devices, and what each prints is written.
//! CPUs may race at its end; then the books are audited.
#![tactic(auto)]

ghost use Rattle.std.specs.Prelude.{◌≡◌, ◌≢◌, Bool, true, false, IfOk, OnOk, IfErr, IfSome};
ghost use Rattle.script.specs.Pieces.{lines_of};
ghost use Rattle.script.specs.Scripts.{IsScript};
ghost use Rattle.script_runner.specs.declared.Ending.TheVariants as ending;
ghost use Rattle.script_runner.specs.Serving.{Serves, ServesRace, Checks, HasNoScript, IsForMemory, IsApproved};
ghost use Rattle.script_runner.specs.Serving.{IsBadLineOutput, TellsNoMemoryBy, status_of};

pub mod buffers;
pub mod law;
mod opening;
pub mod performing;
pub mod racers;
mod reports;
mod running;
pub mod scripted_machine;
pub mod tally;

use core_lock::supplies::CoreSupply;
use memory::Supply;
use script::{Script, ScriptBad};
use script_rows::words::LineRule;
use script_text::put_bad_line;
use std::alloc::Global;
use std::sync::Wait;
use std::thread::Threads;
use streams::{NoText, Sink, Source};

/// How the program ended.
#[derive(Clone, Copy, PartialEq, Eq)]
pub enum Ending {
    /// The text could not be read; nothing was written.
    NotRead,
    /// The text is no script; `whole` says that the line that tells so was written whole, or else the sink failed.
    Bad { whole: bool },
    /// There was no memory before the first event.
    NoMemory { whole: bool },
    /// All was done and written; `refused` says that some event was refused.
    Done { refused: bool },
    /// The sink failed, within the print of the last action that was performed.
    Stopped { refused: bool },
    /// The audit found other books than the history has; `whole` says that all was written, its last line being the one that tells
    /// so, or else the sink failed.
    AuditFailed { whole: bool },
}

impl Ending {
    /// The exit status.
    pub fn status(self) -> u8
        ensures { result ≡ status_of self }
    {
        match self {
            Ending::NotRead | Ending::Bad { .. } => 2,
            Ending::Done { refused: false } => 0,
            Ending::AuditFailed { .. } => 3,
            Ending::NoMemory { .. } | Ending::Done { refused: true } | Ending::Stopped { .. } => 1,
        }
    }
}

/// Reads a script and performs its actions from one seat, each of which prints one line. Where there is no memory before the first
/// event, and only where the supply refused a growth, `refused 1` is written alone, without a line's number. Room for each entry is
/// asked of the same supply: where it refuses, the line says `refused 1` and the next is performed; no line says so but where the
/// supply refused a growth, or no number is left. At the end the seat's
/// log is compared with the history: `audit failed` would be written where it is another, which never comes.
#[tactic(auto, using(crate::proofs::Failing::no_text_fails))]
pub fn serve_script_with<M: CoreSupply, R: Source, S: Sink>(
    alloc: Global,
    supply: &mut M,
    reader: &mut R,
    sink: &mut S,
) -> Ending
    ensures ends { Serves (M.refused supply.new) (R.left reader.old) (S.seen sink.old) (S.seen sink.new) result }
    ensures read { result ≡ ending.NotRead → R.broken reader.new ≡ true }
    ensures memory { IsForMemory result → M.refused supply.new ≡ true }
    ensures audited { (whole : Bool) → result ≢ ending.AuditFailed whole }
{
    match read_script(alloc, supply, false, reader, sink) {
        Ok(script) => running::run_script(alloc, supply, script, sink),
        Err(ending) => ending,
    }
}

/// Reads a script and performs its actions as `serve_script_with` does. Where the last line is a race, the subsystem is then put
/// under its lock, as many CPUs execute TEST SUBCHANNEL as often as that line says, each on a thread and from a seat of its own,
/// and the audit is of all seats; its line is the last. Threads share no supply: room for what they enter is the allocator's.
pub fn race_script_with<T: Threads + Wait + Sync, M: CoreSupply, R: Source, S: Sink>(
    rt: &T,
    alloc: Global,
    supply: &mut M,
    reader: &mut R,
    sink: &mut S,
) -> Ending
    ensures ends { ServesRace (M.refused supply.new) (R.left reader.old) (S.seen sink.old) (S.seen sink.new) result }
    ensures read { result ≡ ending.NotRead → R.broken reader.new ≡ true }
    ensures memory { IsForMemory result → M.refused supply.new ≡ true }
{
    match read_script(alloc, supply, true, reader, sink) {
        Ok(script) => running::race_script(rt, alloc, supply, script, sink),
        Err(ending) => ending,
    }
}

/// Reads a script and performs nothing: `script ok` is written where it is good. There is no memory only where the
/// supply refused a growth.
pub fn check_script_with<M: Supply, R: Source, S: Sink>(
    alloc: Global,
    supply: &mut M,
    reader: &mut R,
    sink: &mut S,
) -> Ending
    ensures ends { Checks (R.left reader.old) (S.seen sink.old) (S.seen sink.new) result }
    ensures read { result ≡ ending.NotRead → R.broken reader.new ≡ true }
    ensures memory { IsForMemory result → M.refused supply.new ≡ true }
{
    match read_script(alloc, supply, false, reader, sink) {
        Ok(_) => approve(sink),
        Err(ending) => ending,
    }
}

/// Reads a script; `races`: its last line may be a race. Where there is none, what tells so is written, and the program ends.
fn read_script<M: Supply, R: Source, S: Sink>(
    alloc: Global,
    supply: &mut M,
    races: bool,
    reader: &mut R,
    sink: &mut S,
) -> Result<Script, Ending>
    ensures script { IfOk result (λ s. IfSome (R.left reader.old) (λ text. IsScript races (lines_of text) s)) }
    ensures unwritten { OnOk result (S.seen sink.new ≡ S.seen sink.old) }
    ensures none { IfErr result (λ e. HasNoScript races (R.left reader.old) (S.seen sink.old) (S.seen sink.new) e) }
    ensures read { IfErr result (λ e. e ≡ ending.NotRead → R.broken reader.new ≡ true) }
    ensures memory { IfErr result (λ e. IsForMemory e → M.refused supply.new ≡ true) }
{
    let text = match reader.all_with(alloc, supply) {
        Ok(text) => text,
        Err(NoText::ReadFailed) => return Err(Ending::NotRead),
        Err(NoText::OutOfMemory) => return Err(no_memory(sink)),
    };
    match Script::read_with(alloc, supply, races, text.as_slice()) {
        Ok(script) => Ok(script),
        Err(ScriptBad::NoMemory) => Err(no_memory(sink)),
        Err(ScriptBad::Bad { line, rule }) => Err(tell_bad(line, rule, sink)),
    }
}

/// Writes that a script is good.
fn approve<S: Sink>(sink: &mut S) -> Ending
    ensures { IsApproved (S.seen sink.old) (S.seen sink.new) result }
{
    if sink.put(b"script ok\n") {
        Ending::Done { refused: false }
    } else {
        Ending::Stopped { refused: false }
    }
}

/// Writes the line of a bad script.
fn tell_bad<S: Sink>(line: u64, rule: LineRule, sink: &mut S) -> Ending
    ensures { IsBadLineOutput line rule (S.seen sink.old) (S.seen sink.new) result }
{
    let whole = put_bad_line(sink, line, rule.number());
    Ending::Bad { whole }
}

/// Writes that there is no memory.
pub(crate) fn no_memory<S: Sink>(sink: &mut S) -> Ending
    ensures { TellsNoMemoryBy (S.seen sink.old) (S.seen sink.new) result }
{
    let whole = sink.put(b"refused 1\n");
    Ending::NoMemory { whole }
}
