//! The words of `chtrace`: the view that they ask for, what of a script is shown, and how it is drawn.
#![tactic(auto)]

mod command;

use crate::command::the_command;
use clap::error::{Error, ErrorKind};
use clap::{ArgMatches, Command};
use script_rows::words::number;
use std::alloc::{AllocError, Global};
use step_records::style::{Drawing, StorageLines, Style, Widths};
use trace_selection::Selection;

/// A view.
#[derive(Clone, Copy, PartialEq, Eq)]
pub enum View {
    Explain,
    Ladder,
    States,
    Driver,
    Page,
    Records,
    Words,
    Check,
    Talk,
    /// The lines that are due after the script, so many at most.
    Due { most: u64 },
}

/// What the words ask for.
#[derive(Drop)]
pub struct Asked {
    pub view: View,
    pub selection: Selection,
    pub style: Style,
}

/// Why nothing is shown.
#[derive(Drop)]
pub enum Refused {
    /// The words ask for help or for the version, which this text is.
    Told(String),
    /// The words are wrong: the text says how.
    Wrong(String),
    /// There was no memory.
    NoMemory,
}

impl From<AllocError> for Refused {
    fn from(_: AllocError) -> Self {
        Refused::NoMemory
    }
}

/// What the words ask for, the program's own name being the first of them. Words that are wrong, and words that ask for help or for
/// the version, are refused with `clap`'s text about them.
pub fn read_words<'a>(alloc: Global, words: &'a [&'a str]) -> Result<Asked, Refused> {
    let mut command = the_command(alloc)?;
    match command.try_get_matches_from_mut(words) {
        Ok(matches) => asked_by(alloc, &mut command, &matches),
        Err(error) => Err(told(alloc, &error)),
    }
}

/// What `clap` says.
fn told(alloc: Global, error: &Error) -> Refused {
    if error.kind() == ErrorKind::OutOfMemory {
        return Refused::NoMemory;
    }
    let wrong = error.use_stderr();
    match error.to_string(alloc) {
        Ok(text) if wrong => Refused::Wrong(text),
        Ok(text) => Refused::Told(text),
        Err(_) => Refused::NoMemory,
    }
}

/// What matches ask for.
fn asked_by<'a>(
    alloc: Global,
    command: &mut Command<'a>,
    matches: &ArgMatches<'a>,
) -> Result<Asked, Refused> {
    let Some((name, options)) = matches.subcommand() else {
        return Err(Refused::Told(command.render_help()?));
    };
    Ok(Asked {
        view: view_named(name, options),
        selection: selection_of(alloc, options)?,
        style: style_of(options),
    })
}

/// The view of a name that `clap` has taken.
fn view_named(name: &str, options: &ArgMatches<'_>) -> View {
    match name {
        "explain" => View::Explain,
        "ladder" => View::Ladder,
        "states" => View::States,
        "driver" => View::Driver,
        "page" => View::Page,
        "records" => View::Records,
        "words" => View::Words,
        "talk" => View::Talk,
        "due" => View::Due {
            most: options.get_one::<u64>("most").unwrap_or(0),
        },
        _ => View::Check,
    }
}

/// What of a script is shown.
fn selection_of(alloc: Global, options: &ArgMatches<'_>) -> Result<Selection, Refused> {
    let mut subchannels = Vec::new(alloc);
    for word in options.get_strs("sub").unwrap_or(&[]) {
        match subchannel_named(word) {
            Some(subchannel) => keep(&mut subchannels, subchannel)?,
            None => return Err(no_subchannel(alloc, word)),
        }
    }
    Ok(Selection {
        first: options.get_one::<u64>("from").unwrap_or(1),
        last: options.get_one::<u64>("to").unwrap_or(u64::MAX),
        subchannels,
    })
}

/// One word more.
fn keep(words: &mut Vec<u32>, word: u32) -> Result<(), AllocError> {
    words.push(word).map_err(|_| AllocError)
}

/// The subsystem-identification word that a word is, as scripts write it: up to 4 hexadecimal digits are its right half, 5 to 8
/// digits the whole.
pub fn subchannel_named(word: &str) -> Option<u32> {
    let value = number(word.as_bytes())?;
    if word.len() <= 4 {
        Some(0x1_0000 + value)
    } else {
        Some(value)
    }
}

/// That a word names no subchannel.
fn no_subchannel(alloc: Global, word: &str) -> Refused {
    match format!(in alloc; "error: '{word}' is no subchannel: 1 to 8 hexadecimal digits\n") {
        Ok(text) => Refused::Wrong(text),
        Err(_) => Refused::NoMemory,
    }
}

/// How the view is drawn.
fn style_of(options: &ArgMatches<'_>) -> Style {
    Style {
        drawing: if options.get_flag("ascii") {
            Drawing::Ascii
        } else {
            Drawing::Drawn
        },
        widths: if options.get_flag("wide") {
            Widths::Whole
        } else {
            Widths::Cut
        },
        storage_lines: if options.get_flag("puts") {
            StorageLines::Each
        } else {
            StorageLines::Together
        },
    }
}
