//! Performing the actions of a script, line by line.

ghost use Rattle.std.specs.Prelude.{◌≡◌, ◌≤◌, Ok, false, is_err, length};
ghost use Rattle.event_log.specs.Logs.{last_reply};
ghost use Rattle.script_rows.specs.Slots.{action_in, action_length};
ghost use Rattle.script_text.specs.Text.{event_line};
ghost use Rattle.script_text.specs.declared.ActionResult.TheVariants as told;
ghost use Rattle.script_runner.specs.Acting.{outcome_of};
ghost use Rattle.script_runner.specs.Performing.{IsDone, PerformsLines};
ghost use Rattle.streams.specs.Sinks.{Puts};

use crate::buffers::EventBuffers;
use crate::scripted_machine::{Acted, ScriptedMachine};
use chan_events::reply::Reply;
use chan_model::fault::Fault;
use core_lock::naming::MachineBrand;
use memory::Supply;
use script::lines::{LentLine, Lines};
use script_text::held::Held;
use script_text::{ActionResult, put_event_line_at_once, put_reply_line_at_once};
use streams::Sink;

/// What came of the line of an action.
#[derive(Clone, Copy)]
pub struct Written {
    /// It was written whole; otherwise the sink failed within it.
    pub whole: bool,
    /// The action was refused.
    pub refused: bool,
}

/// What came of the lines that were performed.
#[derive(Clone, Copy)]
pub struct PerformedLines {
    /// All of them were performed and written; otherwise the sink failed within the print of the last that was
    /// performed.
    pub whole: bool,
    /// Some action was refused.
    pub refused: bool,
}

/// Writes what an action came to that was refused or was a look, through a slot of its own: apart, as it is rare.
#[cold]
#[inline(never)]
fn write_outcome<S: Sink>(
    outcome: &Result<ActionResult, Fault>,
    number: u64,
    held: &mut Held,
    sink: &mut S,
) -> Written
    ensures refused { result.refused ≡ is_err outcome.now }
    ensures prints { Puts (S.seen sink.old) (event_line number outcome.now) (S.seen sink.new) result.whole }
{
    Written {
        whole: put_event_line_at_once(sink, held, number, outcome),
        refused: outcome.is_err(),
    }
}

/// Writes what an event came to that was accepted, through a slot of its own: its reply is that of the last entry.
fn write_reply<J: MachineBrand, S: Sink>(
    installation: &ScriptedMachine<J>,
    number: u64,
    held: &mut Held,
    sink: &mut S,
) -> Written
    ensures refused { result.refused ≡ false }
    ensures prints { Puts (S.seen sink.old) (event_line number (Ok (told.Reply (last_reply installation.now.past.history)))) (S.seen sink.new) result.whole }
{
    match installation.last_reply() {
        Some(reply) => Written {
            whole: put_reply_line_at_once(sink, held, number, &reply),
            refused: false,
        },
        None => write_outcome(&Ok(ActionResult::Reply(Reply::Done)), number, held, sink),
    }
}

/// Writes what an action came to, through a slot of its own.
fn write<J: MachineBrand, S: Sink>(
    installation: &ScriptedMachine<J>,
    acted: Result<Acted, Fault>,
    number: u64,
    held: &mut Held,
    sink: &mut S,
) -> Written
    ensures refused { result.refused ≡ is_err (outcome_of acted installation.now.past.history) }
    ensures prints { Puts (S.seen sink.old) (event_line number (outcome_of acted installation.now.past.history)) (S.seen sink.new) result.whole }
{
    match acted {
        Ok(Acted::Replied) => write_reply(installation, number, held, sink),
        Ok(Acted::Looked(found)) => {
            write_outcome(&Ok(ActionResult::Serials(found)), number, held, sink)
        }
        Err(fault) => write_outcome(&Err(fault), number, held, sink),
    }
}

/// Performs one line and writes what it prints, through buffers of its own.
fn perform_one<J: MachineBrand, M: Supply, S: Sink>(
    installation: &mut ScriptedMachine<J>,
    supply: &mut M,
    line: &LentLine<'_>,
    buffers: &mut EventBuffers,
    sink: &mut S,
) -> Written
    requires { action_length line.now.action.now ≤ length line.now.bytes.now }
    ensures { IsDone (M.refused supply.old) (M.refused supply.new) installation.old (record { number = line.now.number; action = action_in line.now.action.now line.now.bytes.now })
        (S.seen sink.old) (S.seen sink.new) result installation.new }
{
    let acted = installation.act(supply, line.action, line.bytes, buffers);
    write(installation, acted, line.number, &mut buffers.held, sink)
}

/// Performs the lines in order, up to the first whose print is not written whole. Room for what is entered is from a supply: a line
/// is refused NoMemory only where the supply refused it, or no number is left, and those after it are performed all the same.
pub fn perform<J: MachineBrand, M: Supply, S: Sink>(
    installation: &mut ScriptedMachine<J>,
    supply: &mut M,
    lines: &Lines,
    sink: &mut S,
) -> PerformedLines
    ensures performs { PerformsLines (M.refused supply.new) installation.old lines.now (S.seen sink.old) (S.seen sink.new) result installation.new }
    ensures unrefused { result.refused ≡ false → M.refused supply.new ≡ M.refused supply.old }
{
    let mut buffers = EventBuffers::new();
    let mut refused = false;
    for index in 0..lines.len() {
        let Some(line) = lines.kept(index) else {
            break;
        };
        let written = perform_one(installation, supply, &line, &mut buffers, sink);
        refused = refused | written.refused;
        if !written.whole {
            return PerformedLines {
                whole: false,
                refused,
            };
        }
    }
    PerformedLines {
        whole: true,
        refused,
    }
}
