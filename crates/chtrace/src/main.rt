//! `chtrace`: explains a script for a channel subsystem, which it reads from standard input.
#![tactic(auto)]

ghost use Rattle.std.specs.IoError.{error_kind};
ghost use Rattle.std.specs.Prelude.{◌≡◌};
ghost use Rattle.std.specs.Process as process_spec;
ghost use Rattle.chtrace.specs.Outcomes as outcome_spec;

mod outcome;
mod views;

use crate::outcome::Outcome;
use crate::views::{show_due, show_script, show_words, talk_on};
use memory::Allocator;
use std::io::ErrorKind;
use std::process::ExitCode;
use std::{env, io};
use trace_words::{Refused, View, read_words};

/// The program's words, or how it ends where it cannot have them.
fn words_of(rt: &HostRuntime) -> Result<Vec<String>, Outcome> {
    let mut words = Vec::new(rt.alloc());
    for word in env::args(rt).map_err(without_words)? {
        words.push(word).map_err(|_| Outcome::NoMemory)?;
    }
    Ok(words)
}

/// How the program ends for want of its words.
fn without_words(error: io::Error) -> Outcome
    ensures kind { result ≡ outcome_spec.without_words (error_kind error) }
{
    match error.kind() {
        ErrorKind::InvalidData => Outcome::NotUtf8,
        _ => Outcome::NoMemory,
    }
}

/// What is told in place of a view: help on standard output, what is wrong with the words on standard error.
fn tell(rt: &HostRuntime, refused: &Refused) -> Outcome {
    match refused {
        Refused::Told(text) => match rt.print(text) {
            Ok(()) => Outcome::Done { refused: false },
            Err(_) => Outcome::Unwritten,
        },
        Refused::Wrong(text) => {
            let _ = rt.eprint(text);
            Outcome::WrongWords
        }
        Refused::NoMemory => Outcome::NoMemory,
    }
}

/// Serves the program's words.
fn serve(rt: &HostRuntime) -> Result<Outcome, Outcome> {
    let owned = words_of(rt)?;
    let mut words = Vec::new(rt.alloc());
    for word in owned.iter() {
        words.push(word.as_str()).map_err(|_| Outcome::NoMemory)?;
    }
    let asked = match read_words(rt.alloc(), words.as_slice()) {
        Ok(asked) => asked,
        Err(refused) => return Ok(tell(rt, &refused)),
    };
    let mut supply = Allocator { refused: false };
    match asked.view {
        View::Words => show_words(rt, &mut supply),
        View::Talk => talk_on(rt, &mut supply),
        View::Due { most } => show_due(rt, &mut supply, most),
        _ => show_script(rt, &mut supply, &asked),
    }
}

/// What the process answers.
fn code_of(outcome: Outcome) -> ExitCode
    ensures { process_spec.exit_status result ≡ outcome_spec.exit_status outcome }
{
    ExitCode::from(outcome.status())
}

fn main(rt: HostRuntime) -> ExitCode {
    let outcome = match serve(&rt) {
        Ok(outcome) | Err(outcome) => outcome,
    };
    if let Some(line) = outcome.complaint() {
        let _ = rt.eprintln(line);
    }
    code_of(outcome)
}
