//! The commands, as `clap` knows them.

use clap::{Arg, ArgAction, Command, value_parser};
use std::alloc::{AllocError, Global};

/// The version that `--version` tells.
const VERSION: &str = "0.1.0";

/// What an option says that takes a line number.
fn line_option<'a>(alloc: Global, name: &'a str, help: &'a str) -> Arg<'a> {
    Arg::new(alloc, name)
        .long(name)
        .value_name("LINE")
        .value_parser(value_parser!(u64))
        .help(help)
}

/// An option that is there or not.
fn flag<'a>(alloc: Global, name: &'a str, help: &'a str) -> Arg<'a> {
    Arg::new(alloc, name)
        .long(name)
        .action(ArgAction::SetTrue)
        .help(help)
}

/// What is said of a command.
#[derive(Clone, Copy)]
struct CommandTexts {
    name: &'static str,
    /// What it does.
    about: &'static str,
    example: &'static str,
}

/// The views of a script that was performed.
const VIEWS: [CommandTexts; 6] = [
    CommandTexts {
        name: "explain",
        about: "Each line with its answer, what it took and sent, and what changed, in words",
        example: "Example: chtrace explain --from 12 --to 16 < examples/lesson-1-one-write.chs",
    },
    CommandTexts {
        name: "ladder",
        about: "A ladder of the CPU, the subchannel, the wires and the unit",
        example: "Example: chtrace ladder --sub 0 < examples/lost-path.chs",
    },
    CommandTexts {
        name: "states",
        about: "Bits and states over the lines, as a logic analyser draws them",
        example: "Example: chtrace states --ascii < examples/lesson-1-one-write.chs",
    },
    CommandTexts {
        name: "driver",
        about: "Only what a program on a CPU can see",
        example: "Example: chtrace driver < examples/lesson-3-poll.chs",
    },
    CommandTexts {
        name: "page",
        about: "One HTML page with both drawings and each line explained",
        example: "Example: chtrace page < examples/lesson-1-one-write.chs > lesson-1.html",
    },
    CommandTexts {
        name: "records",
        about: "One fact a line, parted by tabs",
        example: "Example: chtrace records < examples/lost-path.chs | grep lose",
    },
];

/// The commands that take no option.
const PLAIN: [CommandTexts; 3] = [
    CommandTexts {
        name: "words",
        about: "Words of control blocks by their names, one block a line",
        example: "Example: echo 'scsw 00804007 00001008 0C000000' | chtrace words",
    },
    CommandTexts {
        name: "check",
        about: "Each bad line of a script, with the word and the reason",
        example: "Example: chtrace check < examples/bad-line.chs",
    },
    CommandTexts {
        name: "talk",
        about: "Performs each line as it is read, and answers it",
        example: "Example: (cat examples/lesson-3-poll.chs; echo '?') | chtrace talk",
    },
];

/// The command that takes how many lines are wanted at most.
const DUE: CommandTexts = CommandTexts {
    name: "due",
    about: "The script, and after it the lines that are due until nothing is",
    example: "Example: chtrace due 100 < examples/lesson-1-one-write.chs | chsim run",
};

/// A command without its options.
fn plain<'a>(alloc: Global, texts: &CommandTexts) -> Command<'a> {
    Command::new(alloc, texts.name)
        .about(texts.about)
        .after_help(texts.example)
}

/// The subchannels that are shown.
fn subchannels<'a>(alloc: Global) -> Arg<'a> {
    Arg::new(alloc, "sub")
        .long("sub")
        .value_name("S")
        .action(ArgAction::Append)
        .help("Only this subchannel, its unit and its paths; may be given again")
}

/// A view, with the options of all such views.
fn view<'a>(alloc: Global, texts: &CommandTexts) -> Result<Command<'a>, AllocError> {
    plain(alloc, texts)
        .arg(line_option(alloc, "from", "Only lines from this one on"))?
        .arg(line_option(alloc, "to", "Only lines up to this one"))?
        .arg(subchannels(alloc))?
        .arg(flag(alloc, "ascii", "Draw with the characters of ASCII"))?
        .arg(flag(alloc, "puts", "Show each line of put, key and prefix"))?
        .arg(flag(alloc, "wide", "Cut no words"))
}

/// The command that says how many lines are wanted.
fn due<'a>(alloc: Global) -> Result<Command<'a>, AllocError> {
    let most = Arg::new(alloc, "most")
        .value_name("N")
        .required(true)
        .value_parser(value_parser!(u64))
        .help("At most so many lines");
    plain(alloc, &DUE).arg(most)
}

/// A command with a view more.
fn with_view<'a>(
    alloc: Global,
    command: Command<'a>,
    texts: &CommandTexts,
) -> Result<Command<'a>, AllocError> {
    let more = view(alloc, texts)?;
    command.subcommand(more)
}

/// A command with all views of a script that was performed.
fn with_views<'a>(alloc: Global, command: Command<'a>) -> Result<Command<'a>, AllocError> {
    let mut command = command;
    for texts in &VIEWS {
        command = with_view(alloc, command, texts)?;
    }
    Ok(command)
}

/// A command with those that take no option.
fn with_plain<'a>(alloc: Global, command: Command<'a>) -> Result<Command<'a>, AllocError> {
    let mut command = command;
    for texts in &PLAIN {
        command = command.subcommand(plain(alloc, texts))?;
    }
    Ok(command)
}

/// A command with the one that says how many lines are wanted.
fn with_due<'a>(alloc: Global, command: Command<'a>) -> Result<Command<'a>, AllocError> {
    let more = due(alloc)?;
    command.subcommand(more)
}

/// All commands.
pub(crate) fn the_command<'a>(alloc: Global) -> Result<Command<'a>, AllocError> {
    let command = Command::new(alloc, "chtrace")
        .version(VERSION)
        .about("Explains a script for a channel subsystem, which it reads from standard input")
        .after_help("Example: chtrace explain < examples/lesson-1-one-write.chs")
        .subcommand_required(true);
    let command = with_views(alloc, command)?;
    let command = with_plain(alloc, command)?;
    with_due(alloc, command)
}
