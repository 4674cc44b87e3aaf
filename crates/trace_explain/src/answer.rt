//! What a line came to, with what it means and each word that was stored.

use crate::codes::put_code_note;
use crate::scsw::{Indent, put_indented_word, put_scsw};
use chan_events::reply::Reply;
use chan_model::fault::Fault;
use record_text::codes::{code_name, code_of};
use record_text::number::put_eight_digits;
use script_text::{ActionResult, put_outcome};
use scsw_irb::code::IntCode;
use scsw_irb::crw::Crw;
use streams::Sink;
use word_names::{Found, put_crw, put_interruption_code};

/// What a line came to, in one line or with the words that were stored: its instruction found this of its subchannel.
pub(crate) fn put_answer<S: Sink>(
    sink: &mut S,
    line: &[u8],
    found: Option<Found>,
    outcome: &Result<ActionResult, Fault>,
) -> bool {
    sink.put(b"    ")
        && match outcome {
            Ok(ActionResult::Reply(reply)) => put_reply(sink, line, found, reply),
            _ => put_outcome(sink, outcome) && sink.put(b"\n"),
        }
}

/// A reply: the condition code with what it says, and the words that were stored.
fn put_reply<S: Sink>(sink: &mut S, line: &[u8], found: Option<Found>, reply: &Reply) -> bool {
    match reply {
        Reply::ChannelReport(Some(crw)) => put_report(sink, *crw),
        Reply::Status { scsw, .. } => {
            put_meant(sink, line, found, reply) && put_scsw(sink, &scsw.words(), Indent::Four)
        }
        Reply::Interruption(Some(code)) => {
            put_meant(sink, line, found, reply) && put_request(sink, code)
        }
        _ => put_meant(sink, line, found, reply),
    }
}

/// The condition code of a reply, with what it says; of a reply that tells none, the words of a script's run.
fn put_meant<S: Sink>(sink: &mut S, line: &[u8], found: Option<Found>, reply: &Reply) -> bool {
    let told = match code_of(reply) {
        Some(code) => sink.put(code_name(code)) && put_code_note(sink, line, found, reply),
        None => script_text::put_reply(sink, reply),
    };
    told && sink.put(b"\n")
}

/// The words of the interruption code that TEST PENDING INTERRUPTION stored.
fn put_request<S: Sink>(sink: &mut S, code: &IntCode) -> bool {
    let [identification, parameter, interruption] = code.words();
    put_code_word(sink, 0, identification)
        && put_code_word(sink, 1, parameter)
        && put_code_word(sink, 2, interruption)
}

fn put_code_word<S: Sink>(sink: &mut S, index: usize, word: u32) -> bool {
    put_indented_word(sink, word, Indent::Four)
        && put_interruption_code(sink, index, word)
        && sink.put(b"\n")
}

/// The report that STORE CHANNEL REPORT WORD took out.
fn put_report<S: Sink>(sink: &mut S, crw: Crw) -> bool {
    sink.put(b"cc 0  ")
        && put_eight_digits(sink, crw.word())
        && sink.put(b"  ")
        && put_crw(sink, crw.word())
        && sink.put(b"\n")
}
