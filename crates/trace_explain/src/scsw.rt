//! The three words of a subchannel-status word, each with what it says (SA22-7832, chapter 16).

use script_text::put_word;
use streams::Sink;
use word_names::{
    put_activity, put_command_address, put_count, put_device_status, put_functions,
    put_scsw_control, put_status_control, put_subchannel_status,
};
use zbits::field;

/// How far the words stand in.
#[derive(Clone, Copy, PartialEq, Eq)]
pub(crate) enum Indent {
    Four,
    Six,
}

/// The three words.
pub(crate) fn put_scsw<S: Sink>(sink: &mut S, words: &[u32; 3], indent: Indent) -> bool {
    let [control, address, statuses] = *words;
    put_control(sink, control, indent)
        && put_indented_word(sink, address, indent)
        && put_command_address(sink, control, address)
        && sink.put(b"\n")
        && put_statuses(sink, statuses, indent)
}

/// A word behind its indent, and two blanks.
pub(crate) fn put_indented_word<S: Sink>(sink: &mut S, word: u32, indent: Indent) -> bool {
    sink.put(match indent {
        Indent::Four => b"   ",
        Indent::Six => b"     ",
    }) && put_word(sink, word)
        && sink.put(b"  ")
}

/// The first word in two lines.
fn put_control<S: Sink>(sink: &mut S, control: u32, indent: Indent) -> bool {
    put_indented_word(sink, control, indent)
        && put_scsw_control(sink, control)
        && sink.put(match indent {
            Indent::Four => b"\n              function ",
            Indent::Six => b"\n                function ",
        })
        && put_functions(sink, control)
        && sink.put(b" | activity ")
        && put_activity(sink, control)
        && sink.put(b" | status ")
        && put_status_control(sink, control)
        && sink.put(b"\n")
}

/// The third word.
fn put_statuses<S: Sink>(sink: &mut S, word: u32, indent: Indent) -> bool {
    put_indented_word(sink, word, indent)
        && sink.put(b"device ")
        && put_device_status(sink, field(word, 0, 7) as u8)
        && sink.put(b" | subchannel ")
        && put_subchannel_status(sink, field(word, 8, 15) as u8)
        && sink.put(b" | ")
        && put_count(sink, word)
        && sink.put(b"\n")
}
