//! The program's words: the command that they name, and the text for words that name none.
#![tactic(auto)]

ghost use Rattle.std.specs.Prelude.{◌≡◌, map, Err, Ok, Some, IfErr, IfOk, OnErr, OnOk, true};
ghost use Rattle.std.specs.String.{string_bytes};
ghost use Rattle.command_words.specs.Plain as spec;
ghost use Rattle.command_words.specs.Texts.{IsTold};
ghost use Rattle.command_words.specs.declared.Refused.TheVariants as refused_spec;
ghost use Rattle.command_words.specs.declared.Wanted.{Wanted};

use clap::Command;
use clap::error::{Error, ErrorKind};
use memory::{Allocator, FailingMemory, Supply};
use std::alloc::{AllocError, Global};

/// What the words ask for.
#[derive(Clone, Copy, PartialEq, Eq)]
pub enum Wanted {
    /// Perform a script's events.
    Run,
    /// Perform a script's events, and the race of its last line.
    Race,
    /// Read a script alone.
    Check,
}

/// Why no command was found.
#[derive(Drop)]
pub enum Refused {
    /// The words name none: `clap`'s text, which is help where they ask for it and otherwise says
    /// what is wrong with them.
    Text(String),
    /// There was no memory for that text.
    NoMemory,
}

/// Memory for the text about words that name no command. That it refused some can be seen from then on.
pub trait TextSupply: Supply {
    ghost use Rattle.command_words.specs.Texts.{Telling};

    // What a text may be, by the words that it is about.
    ghost tells: { Telling };

    /// The text about these words. There is none only where memory for it was refused.
    fn text<'a>(&mut self, alloc: Global, words: &'a [&'a str]) -> Result<String, AllocError>
        ensures told { IfOk result (λ text. tells (map (λ word. word.now) words.now) (string_bytes text)) }
        ensures unrefused { OnOk result (Self.refused self.new ≡ Self.refused self.old) }
        ensures taken { OnErr result (Self.refused self.new ≡ true) };
}

impl TextSupply for Allocator {
    ghost use Rattle.command_words.specs.Texts.{SaysAnything};

    ghost tells = { SaysAnything };

    fn text<'a>(&mut self, alloc: Global, words: &'a [&'a str]) -> Result<String, AllocError> {
        let result = text_for(alloc, words);
        if result.is_err() {
            self.refused = true;
        }
        result
    }
}

impl TextSupply for FailingMemory {
    ghost use Rattle.command_words.specs.Texts.{SaysAnything};

    ghost tells = { SaysAnything };

    fn text<'a>(&mut self, alloc: Global, words: &'a [&'a str]) -> Result<String, AllocError> {
        if self.left == 0 {
            self.refused = true;
            return Err(AllocError);
        }
        self.left -= 1;
        let result = text_for(alloc, words);
        if result.is_err() {
            self.refused = true;
        }
        result
    }
}

/// Which command the words name, the program's own name being the first of them. They name `run`,
/// `race` or `check` where that is the second word and there is no third; all other words, `--help`
/// among them, are refused with the text about them, and with `NoMemory` only where the supply
/// refused memory for that text.
pub fn command_of<'a, M: TextSupply>(
    alloc: Global,
    supply: &mut M,
    words: &'a [&'a str],
) -> Result<Wanted, Refused>
    ensures named { (wanted : Wanted) → spec.plain (map (λ word. word.now) words.now) ≡ Some wanted → result ≡ Ok wanted }
    ensures alone { IfOk result (λ wanted. spec.plain (map (λ word. word.now) words.now) ≡ Some wanted) }
    ensures told { IfErr result (λ refused. IsTold M.tells (map (λ word. word.now) words.now) refused) }
    ensures memory { result ≡ Err refused_spec.NoMemory → M.refused supply.new ≡ true }
{
    if let Some(wanted) = plain(words) {
        return Ok(wanted);
    }
    match supply.text(alloc, words) {
        Ok(text) => Err(Refused::Text(text)),
        Err(_) => Err(Refused::NoMemory),
    }
}

fn plain(words: &[&str]) -> Option<Wanted>
    ensures { result ≡ spec.plain (map (λ word. word.now) words.now) }
{
    match words {
        [] => None,
        [_] => None,
        [_, word] => named(word),
        [_, _, _, ..] => None,
    }
}

fn named(word: &str) -> Option<Wanted>
    ensures { result ≡ spec.named word.now }
{
    if word == "run" {
        return Some(Wanted::Run);
    }
    if word == "race" {
        return Some(Wanted::Race);
    }
    if word == "check" {
        return Some(Wanted::Check);
    }
    None
}

/// What `clap` says of words that name no command; its help where it would take them, as `run --`.
fn text_for<'a>(alloc: Global, words: &'a [&'a str]) -> Result<String, AllocError> {
    let mut command = the_command(alloc)?;
    text_by(alloc, &mut command, words)
}

/// What a command of `clap` says of words.
fn text_by<'a>(
    alloc: Global,
    command: &mut Command<'a>,
    words: &'a [&'a str],
) -> Result<String, AllocError> {
    match command.try_get_matches_from_mut(words) {
        Ok(_) => command.render_help(),
        Err(error) => text_of(alloc, &error),
    }
}

/// What `clap` found wrong, in words.
fn text_of(alloc: Global, error: &Error) -> Result<String, AllocError> {
    if error.kind() == ErrorKind::OutOfMemory {
        Err(AllocError)
    } else {
        error.to_string(alloc)
    }
}

fn the_command<'a>(alloc: Global) -> Result<Command<'a>, AllocError> {
    Command::new(alloc, "chsim")
        .about("Simulates a channel subsystem by a script on standard input")
        .subcommand_required(true)
        .subcommand(Command::new(alloc, "run").about("Performs a script's events"))?
        .subcommand(Command::new(alloc, "race").about(
            "Performs a script's events, and the race of its last line",
        ))?
        .subcommand(Command::new(alloc, "check").about("Reads a script alone"))
}
