//! `chsim`: simulates a channel subsystem by a script on standard input.
#![tactic(auto)]

ghost use Rattle.std.specs.IoError.{error_kind};
ghost use Rattle.std.specs.Prelude.{◌≡◌, ◌⊎◌, map, is_none, IsTrue, None, true};
ghost use Rattle.std.specs.Process as process_spec;
ghost use Rattle.command_words.specs.Plain.{plain};
ghost use Rattle.chsim.specs.Outcomes as outcome_spec;
ghost use Rattle.chsim.specs.Program.{IsServed, LacksMemory, ShowsRefusal};

pub mod outcome;

use crate::outcome::Outcome;
use command_words::{Refused, TextSupply, Wanted, command_of};
use core_lock::supplies::CoreSupply;
use memory::Allocator;
use script_runner::{check_script_with, race_script_with, serve_script_with};
use std::alloc::Global;
use std::io::ErrorKind;
use std::process::ExitCode;
use std::sync::Wait;
use std::thread::Threads;
use std::{env, io};
use streams::{CheckedReader, CheckedWriter, Sink, Source};

/// Serves the program's words, its own name being the first of them, and answers how it ended. Words that name no command
/// write the text about them, which is help where they ask for it, before anything is read; nothing where there is no memory
/// for it. It ends for want of memory only where the supply refused some.
pub fn serve<'a, T: Threads + Wait + Sync, M: CoreSupply + TextSupply, R: Source, S: Sink>(
    rt: &T,
    alloc: Global,
    supply: &mut M,
    words: &'a [&'a str],
    reader: &mut R,
    sink: &mut S,
) -> Outcome
    ensures served { IsServed (M.refused supply.new) M.tells (map (λ w. w.now) words.now) (R.left reader.old) (S.seen sink.old) (S.seen sink.new) result }
    ensures unread { IsTrue (is_none (plain (map (λ w. w.now) words.now))) → R.left reader.new ≡ R.left reader.old }
    ensures memory { LacksMemory result → M.refused supply.new ≡ true }
    ensures status { plain (map (λ w. w.now) words.now) ≡ None → (outcome_spec.exit_status result ≡ 2) ⊎ (M.refused supply.new ≡ true) }
{
    match command_of(alloc, supply, words) {
        Ok(Wanted::Run) => Outcome::Ended(serve_script_with(alloc, supply, reader, sink)),
        Ok(Wanted::Race) => Outcome::Ended(race_script_with(rt, alloc, supply, reader, sink)),
        Ok(Wanted::Check) => Outcome::Ended(check_script_with(alloc, supply, reader, sink)),
        Err(refused) => show(refused, sink),
    }
}

/// Shows the text for words that name no command.
fn show<S: Sink>(refused: Refused, sink: &mut S) -> Outcome
    ensures { ShowsRefusal refused (S.seen sink.old) (S.seen sink.new) result }
{
    match refused {
        Refused::NoMemory => Outcome::NoMemory,
        Refused::Text(text) => {
            let whole = sink.put(text.as_str().as_bytes());
            Outcome::NoCommand { whole }
        }
    }
}

/// The program's words, or how it ends where it cannot have them.
fn words_of(rt: &HostRuntime) -> Result<Vec<String>, Outcome> {
    let mut words = Vec::new(rt.alloc());
    for word in env::args(rt).map_err(without_words)? {
        words.push(word).map_err(|_| Outcome::NoMemory)?;
    }
    Ok(words)
}

/// How the program ends for want of its words.
pub fn without_words(error: io::Error) -> Outcome
    ensures kind { result ≡ outcome_spec.without_words (error_kind error) }
{
    match error.kind() {
        ErrorKind::InvalidData => Outcome::NotUtf8,
        _ => Outcome::NoMemory,
    }
}

/// Serves the program's words over standard input and standard output, with threads for a race and in what memory a supply
/// has.
fn run<T: Threads + Wait + Sync, M: CoreSupply + TextSupply>(
    threads: &T,
    rt: &HostRuntime,
    supply: &mut M,
) -> Result<Outcome, Outcome> {
    let owned = words_of(rt)?;
    let mut words = Vec::new(rt.alloc());
    for word in owned.iter() {
        words.push(word.as_str()).map_err(|_| Outcome::NoMemory)?;
    }
    let mut reader = CheckedReader::new(rt.reader());
    let mut sink = CheckedWriter::new(io::writer(rt));
    Ok(serve(
        threads,
        rt.alloc(),
        supply,
        words.as_slice(),
        &mut reader,
        &mut sink,
    ))
}

/// The line on standard error, where there is one. It has nowhere else to write, and where that fails too nothing is told.
fn complain<E: Eprint>(rt: &E, outcome: Outcome) {
    if let Some(line) = outcome.complaint() {
        let _ = rt.eprintln(line);
    }
}

/// What the process answers.
pub fn code_of(outcome: Outcome) -> ExitCode
    ensures { process_spec.exit_status result ≡ outcome_spec.exit_status outcome }
{
    ExitCode::from(outcome.status())
}

fn main(rt: HostRuntime) -> ExitCode {
    let mut supply = Allocator { refused: false };
    let outcome = match run(&rt, &rt, &mut supply) {
        Ok(outcome) | Err(outcome) => outcome,
    };
    complain(&rt, outcome);
    code_of(outcome)
}
