//! What an act answered, in the few words of the view `driver`.

ghost use Rattle.std.specs.Prelude.{◌≡◌, ◌++◌, codes};
ghost use Rattle.script_text.specs.Text.{code_text, answer_text};
ghost use Rattle.record_text.specs.Names.{subchannel_name};
ghost use Rattle.record_text.specs.Numbers.{hexadecimal, eight_digits};
ghost use Rattle.streams.specs.Sinks.{Puts};
ghost use Rattle.seen_answers.specs.Seen as spec;

use crate::instruction::CpuAct;
use crate::seen_words::put_scsw_seen;
use chan_events::reply::Reply;
use chan_model::answer::{Answer, ConditionCode};
use chan_model::fault::Fault;
use channel_config::names::SubchannelId;
use record_text::codes::code_name;
use record_text::fields::put_named;
use record_text::names::put_subchannel_id;
use record_text::number::{put_eight_digits, put_two_digits};
use script_text::{ActionResult, put_outcome, put_reply};
use scsw_irb::code::IntCode;
use scsw_irb::crw::{Crw, PathReport};
use scsw_irb::scsw::Scsw;
use streams::{Sink, put_both};
use word_names::Instruction;

/// What a condition code of an act that shows no words says.
fn meaning(act: CpuAct, code: ConditionCode) -> &'static [u8]
    ensures { result.now ≡ spec.meaning act code }
{
    match code {
        ConditionCode::Zero => zero_meaning(act),
        ConditionCode::One => b"  status pending",
        ConditionCode::Two => two_meaning(act),
        ConditionCode::Three => b"  not operational",
    }
}

/// What condition code 0 says: of a start, that it was accepted.
fn zero_meaning(act: CpuAct) -> &'static [u8]
    ensures { result.now ≡ spec.zero_meaning act }
{
    match act {
        CpuAct::Executes(Instruction::Start) => b"  accepted",
        _ => b"",
    }
}

/// What condition code 2 says.
fn two_meaning(act: CpuAct) -> &'static [u8]
    ensures { result.now ≡ spec.two_meaning act }
{
    match act {
        CpuAct::Executes(Instruction::Resume | Instruction::Cancel) => b"  not applicable",
        _ => b"  busy",
    }
}

/// A condition code, and what it says.
#[tactic(auto, using(streams::proofs::Sinking::takes_then, streams::proofs::Sinking::fails_then))]
fn put_meant<S: Sink>(sink: &mut S, act: CpuAct, code: ConditionCode) -> bool
    ensures { Puts (S.seen sink.old) (spec.meant_text act code) (S.seen sink.new) result }
{
    put_both(sink, code_name(code), meaning(act, code))
}

/// The condition code, and the status word that was stored.
#[tactic(auto, using(streams::proofs::Sinking::takes_then, streams::proofs::Sinking::fails_then))]
fn put_status<S: Sink>(sink: &mut S, answer: Answer, scsw: &Scsw) -> bool
    ensures { Puts (S.seen sink.old) (spec.status_seen answer scsw.now) (S.seen sink.new) result }
{
    sink.put(code_name(answer.code())) && put_scsw(sink, &scsw.words())
}

fn put_scsw<S: Sink>(sink: &mut S, words: &[u32; 3]) -> bool
    ensures { Puts (S.seen sink.old) (spec.words_text words.now) (S.seen sink.new) result }
{
    put_scsw_seen(sink, words[0], words[1], words[2])
}

/// What TEST PENDING INTERRUPTION answered.
fn put_interruption<S: Sink>(sink: &mut S, found: &Option<IntCode>) -> bool
    ensures { Puts (S.seen sink.old) (spec.interruption_seen found.now) (S.seen sink.new) result }
{
    match found {
        None => sink.put(b"cc 0  no request"),
        Some(code) => put_request(sink, code),
    }
}

/// The request that was taken out: its subchannel, its parameter and its subclass.
#[tactic(auto, using(streams::proofs::Sinking::takes_then, streams::proofs::Sinking::fails_then))]
fn put_request<S: Sink>(sink: &mut S, code: &IntCode) -> bool
    ensures { Puts (S.seen sink.old) (spec.request_seen code.now) (S.seen sink.new) result }
{
    put_subchannel(sink, code) && put_parameter(sink, code)
}

fn put_subchannel<S: Sink>(sink: &mut S, code: &IntCode) -> bool
    ensures { Puts (S.seen sink.old) (spec.request_subchannel code.now) (S.seen sink.new) result }
{
    let id = SubchannelId {
        set: code.set,
        number: code.subchannel,
    };
    sink.put(b"cc 1  subchannel ") && put_subchannel_id(sink, id)
}

#[tactic(auto, using(streams::proofs::Sinking::takes_then, streams::proofs::Sinking::fails_then))]
fn put_parameter<S: Sink>(sink: &mut S, code: &IntCode) -> bool
    ensures { Puts (S.seen sink.old) (spec.request_parameter code.now) (S.seen sink.new) result }
{
    put_titled_word(sink, b", parameter ", code.parameter)
        && put_named(sink, b", subclass ", u64::from(code.subclass))
}

/// A title, and the eight digits of a word.
#[tactic(auto, using(streams::proofs::Sinking::takes_then, streams::proofs::Sinking::fails_then))]
fn put_titled_word<S: Sink>(sink: &mut S, title: &[u8], word: u32) -> bool
    ensures { Puts (S.seen sink.old) (title.now ++ eight_digits word) (S.seen sink.new) result }
{
    sink.put(title) && put_eight_digits(sink, word)
}

/// What STORE CHANNEL REPORT WORD answered.
fn put_report<S: Sink>(sink: &mut S, found: Option<Crw>) -> bool
    ensures { Puts (S.seen sink.old) (spec.report_seen found) (S.seen sink.new) result }
{
    match found {
        None => sink.put(b"cc 1  no report"),
        Some(crw) => put_path(sink, crw),
    }
}

/// What is reported of a channel path.
fn report_meaning(report: PathReport) -> &'static [u8]
    ensures { result.now ≡ spec.report_meaning report }
{
    match report {
        PathReport::Lost => b" was lost",
        PathReport::Back => b" is back",
        PathReport::Initialized => b" is back, initialized",
        PathReport::ResetDone => b" was reset",
    }
}

#[tactic(auto, using(streams::proofs::Sinking::takes_then, streams::proofs::Sinking::fails_then))]
fn put_path<S: Sink>(sink: &mut S, crw: Crw) -> bool
    ensures { Puts (S.seen sink.old) (spec.path_seen crw) (S.seen sink.new) result }
{
    put_path_name(sink, crw.path)
        && put_both(
            sink,
            report_meaning(crw.report),
            overflow_meaning(crw.overflow),
        )
}

/// Whether later reports were lost.
fn overflow_meaning(overflow: bool) -> &'static [u8]
    ensures { result.now ≡ spec.overflow_meaning overflow }
{
    if overflow {
        b"; later reports were lost"
    } else {
        b""
    }
}

fn put_path_name<S: Sink>(sink: &mut S, path: u8) -> bool
    ensures { Puts (S.seen sink.old) (spec.path_name path) (S.seen sink.new) result }
{
    sink.put(b"cc 0  channel path ") && put_two_digits(sink, path)
}

/// What an act answered: its condition code, where it has one, and what it stored in few words; a refusal and what was
/// loaded stand behind where the code would.
#[tactic(auto, unfolding(crate::specs::Seen::outcome_seen))]
pub fn put_seen<S: Sink>(sink: &mut S, act: CpuAct, outcome: &Result<ActionResult, Fault>) -> bool
    ensures { Puts (S.seen sink.old) (spec.outcome_seen act outcome.now) (S.seen sink.new) result }
{
    match outcome {
        Ok(ActionResult::Reply(reply)) => put_reply_seen(sink, act, reply),
        Ok(ActionResult::Serials(_)) => put_uncoded(sink, outcome),
        Ok(ActionResult::Race(_)) => put_uncoded(sink, outcome),
        Err(_) => put_uncoded(sink, outcome),
    }
}

fn put_reply_seen<S: Sink>(sink: &mut S, act: CpuAct, reply: &Reply) -> bool
    ensures { Puts (S.seen sink.old) (spec.reply_seen act reply.now) (S.seen sink.new) result }
{
    match reply {
        Reply::Code(answer) => put_meant(sink, act, answer.code()),
        Reply::PathReset(code) => put_meant(sink, act, *code),
        Reply::Status { answer, scsw } => put_status(sink, *answer, scsw),
        Reply::Interruption(found) => put_interruption(sink, found),
        Reply::ChannelReport(found) => put_report(sink, *found),
        _ => put_uncoded_reply(sink, reply),
    }
}

/// What has no condition code, as it is printed.
fn put_uncoded_reply<S: Sink>(sink: &mut S, reply: &Reply) -> bool
    ensures { Puts (S.seen sink.old) (spec.uncoded_reply reply.now) (S.seen sink.new) result }
{
    sink.put(b"      ") && put_reply(sink, reply)
}

/// The same of what is no reply.
fn put_uncoded<S: Sink>(sink: &mut S, outcome: &Result<ActionResult, Fault>) -> bool
    ensures { Puts (S.seen sink.old) (spec.uncoded_text outcome.now) (S.seen sink.new) result }
{
    sink.put(b"      ") && put_outcome(sink, outcome)
}
