//! The lines of a script that act, in their order.

ghost use Rattle.std.specs.Prelude.{◌≤◌, length};

use crate::layout::Layout;
use crate::line::{put_line, put_storage};
use record_text::line_words::first_word;
use step_records::record::{Fact, Record};
use step_records::style::StorageLines;
use streams::Sink;

/// A line that only sets storage, by its first word.
#[derive(Clone, Copy, PartialEq, Eq)]
enum StorageWord {
    Put,
    Key,
    Prefix,
}

/// The rows of all lines that act.
pub fn put_steps<S: Sink>(sink: &mut S, layout: &Layout<'_>) -> bool {
    let mut rest = layout.trace.records.as_slice();
    for _ in 0..rest.len() {
        if rest.is_empty() {
            return true;
        }
        let (now, later) = rest.split_at(group_end(layout, rest));
        if !put_group(sink, layout, now) {
            return false;
        }
        rest = later;
    }
    true
}

/// The rows of one line, or of several that are shown together.
fn put_group<S: Sink>(sink: &mut S, layout: &Layout<'_>, facts: &[Record]) -> bool {
    let (Some(first), Some(last)) = (facts.first(), facts.last()) else {
        return true;
    };
    if first.line != last.line || storage_word(layout, facts).is_some() {
        return put_storage(sink, layout, first.line, last.line);
    }
    put_line(sink, layout, first.line, facts)
}

/// How many of the records are of the first line.
fn step_end(records: &[Record]) -> usize
    ensures { result ≤ length records.now }
{
    let mut end = 0;
    while end < records.len() && records[end].line == records[0].line {
        end += 1;
    }
    end
}

/// How many of the records are of the lines that are shown together, from the first on.
fn group_end(layout: &Layout<'_>, records: &[Record]) -> usize
    ensures { result ≤ length records.now }
{
    let mut taken = step_end(records);
    if layout.style.storage_lines == StorageLines::Each {
        return taken;
    }
    let Some(word) = storage_word(layout, &records[..taken]) else {
        return taken;
    };
    for _ in 0..records.len() {
        let more = step_end(&records[taken..]);
        if storage_word(layout, &records[taken..taken + more]) != Some(word) {
            return taken;
        }
        taken += more;
    }
    taken
}

/// The first word of a line that only sets storage, and was performed; None for another.
fn storage_word(layout: &Layout<'_>, facts: &[Record]) -> Option<StorageWord> {
    let first = facts.first()?;
    if is_refused(facts) {
        return None;
    }
    match first_word(layout.trace.text.line(first.line)) {
        b"put" => Some(StorageWord::Put),
        b"key" => Some(StorageWord::Key),
        b"prefix" => Some(StorageWord::Prefix),
        _ => None,
    }
}

/// Whether a line was refused.
fn is_refused(facts: &[Record]) -> bool {
    facts
        .iter()
        .any(|record| matches!(record.fact, Fact::Answer(Err(_))))
}
