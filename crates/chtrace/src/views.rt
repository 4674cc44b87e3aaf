//! The views, each from standard input to standard output.

use crate::outcome::Outcome;
use line_reasons::printing::put_reasons;
use line_reasons::whole::bad_lines;
use memory::Allocator;
use record_rows::put_records;
use std::io::{self, Printer, Write};
use step_records::record::{Fact, Record};
use step_records::trace::Trace;
use streams::gathered::Gathered;
use streams::{CheckedReader, CheckedWriter, NoText, Sink, Source};
use trace_driver::put_driver;
use trace_explain::put_explained;
use trace_ladder::put_ladder;
use trace_page::put_page;
use trace_runs::{TraceFault, trace_script};
use trace_states::put_states;
use trace_talk::talk::run_talk;
use trace_talk::whole::put_whole;
use trace_words::{Asked, View};
use word_lines::{WordsEnd, put_words};

/// All that standard input has.
fn read_input(rt: &HostRuntime, supply: &mut Allocator) -> Result<Vec<u8>, Outcome> {
    let mut source = CheckedReader::new(rt.reader());
    match source.all_with(rt.alloc(), supply) {
        Ok(text) => Ok(text),
        Err(NoText::OutOfMemory) => Err(Outcome::NoMemory),
        Err(NoText::ReadFailed) => Err(Outcome::Unread),
    }
}

/// Standard output, to which much is written at once.
fn output(rt: &HostRuntime) -> Gathered<Printer<'_, HostRuntime>> {
    Gathered::new(io::writer(rt))
}

/// How a view ended, of which all was put or not: what is left of it is written out.
fn written<W: Write + Drop>(sink: &mut Gathered<W>, whole: bool, refused: bool) -> Outcome {
    ended(whole && sink.finish(), refused)
}

/// How a view ended, of which all was written or not.
fn ended(whole: bool, refused: bool) -> Outcome {
    if whole {
        Outcome::Done { refused }
    } else {
        Outcome::Unwritten
    }
}

/// Decodes the words of control blocks.
pub fn show_words(rt: &HostRuntime, supply: &mut Allocator) -> Result<Outcome, Outcome> {
    let text = read_input(rt, supply)?;
    let mut sink = output(rt);
    match put_words(&mut sink, text.as_slice()) {
        WordsEnd::Decoded => Ok(written(&mut sink, true, false)),
        WordsEnd::SomeBad => match written(&mut sink, true, false) {
            Outcome::Done { .. } => Ok(Outcome::Bad),
            other => Ok(other),
        },
        WordsEnd::Unwritten => Ok(Outcome::Unwritten),
    }
}

/// Tells on standard error what is wrong with a script.
fn tell_reasons(rt: &HostRuntime, supply: &mut Allocator, text: &[u8]) -> Result<Outcome, Outcome> {
    let found = bad_lines(rt.alloc(), supply, text).map_err(|_| Outcome::NoMemory)?;
    let error = rt.stderr();
    let mut sink = CheckedWriter::new(io::writer(&error));
    let _ = put_reasons(&mut sink, found.as_slice());
    Ok(if found.is_empty() {
        Outcome::Done { refused: false }
    } else {
        Outcome::Bad
    })
}

/// How the program ends where a script has no trace: of a bad one, what is wrong with it is told.
fn untraced(
    rt: &HostRuntime,
    supply: &mut Allocator,
    text: &[u8],
    fault: TraceFault,
) -> Result<Outcome, Outcome> {
    match fault {
        TraceFault::Bad { .. } => tell_reasons(rt, supply, text),
        other => Err(Outcome::from(other)),
    }
}

/// Shows a script by a view.
pub fn show_script(
    rt: &HostRuntime,
    supply: &mut Allocator,
    asked: &Asked,
) -> Result<Outcome, Outcome> {
    let text = read_input(rt, supply)?;
    if asked.view == View::Check {
        return tell_reasons(rt, supply, text.as_slice());
    }
    let own = text.clone().map_err(|_| Outcome::NoMemory)?;
    match trace_script(rt.alloc(), supply, own) {
        Ok(trace) => show_trace(rt, supply, asked, trace),
        Err(fault) => untraced(rt, supply, text.as_slice(), fault),
    }
}

/// Shows a script that was performed by a view.
fn show_trace(
    rt: &HostRuntime,
    supply: &mut Allocator,
    asked: &Asked,
    mut trace: Trace,
) -> Result<Outcome, Outcome> {
    let refused = trace.records.iter().any(is_refusal);
    asked.selection.select(&mut trace);
    let mut sink = output(rt);
    let whole = put_view(rt, supply, &mut sink, asked, &trace)?;
    Ok(written(&mut sink, whole, refused))
}

/// Whether a record tells that an action was refused.
fn is_refusal(record: &Record) -> bool {
    matches!(&record.fact, Fact::Answer(Err(_)))
}

/// Writes a view of the records.
fn put_view<S: Sink>(
    rt: &HostRuntime,
    supply: &mut Allocator,
    sink: &mut S,
    asked: &Asked,
    trace: &Trace,
) -> Result<bool, Outcome> {
    Ok(match asked.view {
        View::Explain => put_explained(sink, trace, asked.style),
        View::Ladder => put_ladder(sink, trace, asked.style),
        View::States => put_states(sink, trace, asked.style),
        View::Driver => put_driver(sink, trace, asked.style),
        View::Records => put_records(sink, trace),
        View::Page => match put_page(rt.alloc(), supply, sink, trace, asked.style) {
            Ok(whole) => whole,
            Err(_) => return Err(Outcome::NoMemory),
        },
        View::Words | View::Check | View::Talk | View::Due { .. } => true,
    })
}

/// Performs each line as it is read, and answers it, with nothing held back.
pub fn talk_on(rt: &HostRuntime, supply: &mut Allocator) -> Result<Outcome, Outcome> {
    let mut sink = CheckedWriter::new(io::writer(rt));
    let talked = run_talk(rt.alloc(), supply, rt.reader(), &mut sink)?;
    let whole = talked.whole && sink.writer.flush().is_ok();
    match ended(whole, talked.refused) {
        Outcome::Done { .. } if talked.unread => Ok(Outcome::Unread),
        Outcome::Done { .. } if talked.bad => Ok(Outcome::Bad),
        other => Ok(other),
    }
}

/// Shows a script with the lines that are due after it, so many at most.
pub fn show_due(rt: &HostRuntime, supply: &mut Allocator, most: u64) -> Result<Outcome, Outcome> {
    let text = read_input(rt, supply)?;
    let mut sink = output(rt);
    match put_whole(rt.alloc(), supply, text.as_slice(), most, &mut sink) {
        Ok(put) => Ok(written(&mut sink, put.whole, put.refused)),
        Err(fault) => untraced(rt, supply, text.as_slice(), fault),
    }
}
