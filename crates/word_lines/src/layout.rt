//! How blocks are laid out.

ghost use Rattle.std.specs.Prelude.{◌≤◌, length};

use crate::block::{Block, IRB_WORDS, SCHIB_WORDS};
use streams::Sink;
use word_names::{
    put_activity, put_ccw_0, put_ccw_1, put_command_address, put_count, put_crw, put_device_status,
    put_extended, put_functions, put_interruption_code, put_orb, put_pmcw, put_scsw_control,
    put_status_control, put_subchannel_status,
};
use word_parts::number::put_hex;

/// How many words of a subchannel-information block the path-management-control word is.
const PMCW_WORDS: usize = 7;

/// How many words a subchannel-status word has.
const SCSW_WORDS: usize = 3;

/// How many digits a word has.
const WORD_DIGITS: u8 = 8;

/// What a block says.
pub fn put_block<S: Sink>(sink: &mut S, block: &Block) -> bool {
    match block {
        Block::Scsw(words) => put_scsw(sink, words),
        Block::Orb(words) => put_indent(sink) && put_orb(sink, words) && put_end(sink),
        Block::CcwZero([first, second]) => {
            put_indent(sink) && put_ccw_0(sink, *first, *second) && put_end(sink)
        }
        Block::CcwOne([first, second]) => {
            put_indent(sink) && put_ccw_1(sink, *first, *second) && put_end(sink)
        }
        Block::Report(word) => put_word(sink, *word) && put_crw(sink, *word) && put_end(sink),
        Block::Code(words) => put_code(sink, words),
        Block::Schib(words) => put_schib(sink, words),
        Block::Irb(words) => put_irb(sink, words),
    }
}

fn put_indent<S: Sink>(sink: &mut S) -> bool {
    sink.put(b"    ")
}

fn put_end<S: Sink>(sink: &mut S) -> bool {
    sink.put(b"\n")
}

/// A word in digits, before what it says.
fn put_word<S: Sink>(sink: &mut S, word: u32) -> bool {
    put_indent(sink) && put_hex(sink, word, WORD_DIGITS) && sink.put(b"  ")
}

/// A subchannel-status word: four lines.
pub fn put_scsw<S: Sink>(sink: &mut S, words: &[u32; SCSW_WORDS]) -> bool {
    let [control, address, statuses] = *words;
    put_control(sink, control)
        && put_fields(sink, control)
        && put_word(sink, address)
        && put_command_address(sink, control, address)
        && put_end(sink)
        && put_statuses(sink, statuses)
}

fn put_control<S: Sink>(sink: &mut S, control: u32) -> bool {
    put_word(sink, control) && put_scsw_control(sink, control) && put_end(sink)
}

fn put_fields<S: Sink>(sink: &mut S, control: u32) -> bool {
    sink.put(b"              function ")
        && put_functions(sink, control)
        && sink.put(b" | activity ")
        && put_activity(sink, control)
        && sink.put(b" | status ")
        && put_status_control(sink, control)
        && put_end(sink)
}

fn put_statuses<S: Sink>(sink: &mut S, statuses: u32) -> bool {
    let [device, subchannel, _, _] = statuses.to_be_bytes();
    put_word(sink, statuses)
        && sink.put(b"device ")
        && put_device_status(sink, device)
        && sink.put(b" | subchannel ")
        && put_subchannel_status(sink, subchannel)
        && sink.put(b" | ")
        && put_count(sink, statuses)
        && put_end(sink)
}

fn put_code<S: Sink>(sink: &mut S, words: &[u32; 3]) -> bool {
    for (index, word) in words.iter().enumerate() {
        if !(put_word(sink, *word) && put_interruption_code(sink, index, *word) && put_end(sink)) {
            return false;
        }
    }
    true
}

/// A subchannel-information block: the path-management-control word, the subchannel-status word, and three words that are
/// reserved.
fn put_schib<S: Sink>(sink: &mut S, words: &[u32; SCHIB_WORDS]) -> bool {
    put_path_words(sink, 0, &words[..PMCW_WORDS])
        && put_scsw(sink, &[words[7], words[8], words[9]])
        && put_path_words(sink, PMCW_WORDS, &words[PMCW_WORDS + SCSW_WORDS..])
}

/// Words of a path-management-control word, from an index on; beyond it all bits are reserved.
fn put_path_words<S: Sink>(sink: &mut S, first: usize, words: &[u32]) -> bool
    requires { first ≤ 7 }
{
    for (index, word) in words.iter().enumerate() {
        if !(put_word(sink, *word) && put_pmcw(sink, first + index, *word) && put_end(sink)) {
            return false;
        }
    }
    true
}

/// An interruption-response block: the subchannel-status word, the extended status and the extended control.
fn put_irb<S: Sink>(sink: &mut S, words: &[u32; IRB_WORDS]) -> bool {
    put_scsw(sink, &[words[0], words[1], words[2]])
        && put_extended_words(sink, &words[SCSW_WORDS..])
}

fn put_extended_words<S: Sink>(sink: &mut S, words: &[u32]) -> bool {
    for (index, word) in words.iter().enumerate() {
        if !(put_word(sink, *word) && put_extended(sink, index, *word) && put_end(sink)) {
            return false;
        }
    }
    true
}
