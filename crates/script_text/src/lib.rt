//! The texts that are printed. Each goes into a sink as it is made, so that printing takes no memory; a call answers
//! whether the whole of its text went in, and a sink that fails has a beginning of it.
#![tactic(auto)]

ghost use Rattle.std.specs.Prelude.{◌≡◌, ◌<◌, ◌++◌, ◌∷◌, decimal, map};
ghost use Rattle.std.specs.List.{flat_map};
ghost use Rattle.zbits.specs.Layout.{word_of};
ghost use Rattle.scsw_irb.specs.CodeTable.{code_tables};
ghost use Rattle.chan_model.specs.ConditionCodes as codes_spec;
ghost use Rattle.chan_model.specs.Lent.{lent_down, lent_up};
ghost use Rattle.script_text.specs.Text as spec;
ghost use Rattle.streams.specs.Sinks.{Puts};

mod answered;
pub mod held;
mod number;
mod race;

pub use crate::answered::put_reply_line_at_once;
use crate::held::Held;
use crate::race::put_race;
use chan_events::reply::{PATH_STATUS_BYTES, Reply, report_word};
use chan_model::answer::{Answer, ConditionCode};
use chan_model::fault::Fault;
use chan_model::lent::{LentDown, LentUp};
use chan_model::signal::{Down, Up};
use itoa::Buffer;
pub use race::RaceCount;
use scsw_irb::code::IntCode;
use scsw_irb::crw::Crw;
use scsw_irb::scsw::Scsw;
use scsw_irb::serials::Serials;
use storage_keys::StorageFault;
use streams::Sink;
use zbits::flag;

/// What an action that is not refused comes to.
#[derive(Drop)]
pub enum ActionResult {
    /// The reply of an event.
    Reply(Reply),
    /// How many statuses a subchannel made, and how many of these are cleared.
    Serials(Serials),
    /// What a race came to.
    Race(RaceCount),
}

/// How many identifiers of channel paths there are.
const PATH_IDENTIFIERS: u16 = 256;

pub fn hex_digit(digit: u8) -> u8
    requires { digit < 16 }
    ensures { result ≡ spec.hex_digit digit }
{
    if digit < 10 {
        b'0' + digit
    } else {
        b'A' - 10 + digit
    }
}

/// A number in decimal digits.
pub(crate) fn put_decimal<S: Sink>(sink: &mut S, number: u64) -> bool
    ensures { Puts (S.seen sink.old) (decimal number) (S.seen sink.new) result }
{
    sink.put(Buffer::new().format(number).as_bytes())
}

/// A name and a number.
#[tactic(auto, using(streams::proofs::Sinking::takes_then, streams::proofs::Sinking::fails_then))]
pub(crate) fn put_named<S: Sink>(sink: &mut S, name: &[u8], number: u64) -> bool
    ensures { Puts (S.seen sink.old) (name.now ++ decimal number) (S.seen sink.new) result }
{
    sink.put(name) && put_decimal(sink, number)
}

/// The two hexadecimal digits of a byte.
fn put_byte<S: Sink>(sink: &mut S, byte: u8) -> bool
    ensures { Puts (S.seen sink.old) (spec.byte_text byte) (S.seen sink.new) result }
{
    let digits = [hex_digit(byte / 0x10 % 16), hex_digit(byte % 16)];
    sink.put(&digits)
}

pub fn put_bytes<S: Sink>(sink: &mut S, bytes: &[u8]) -> bool
    ensures { Puts (S.seen sink.old) (flat_map spec.byte_text bytes.now) (S.seen sink.new) result }
{
    for byte in bytes {
        if !put_byte(sink, *byte) {
            return false;
        }
    }
    true
}

/// A space and the eight hexadecimal digits of a word.
pub fn put_word<S: Sink>(sink: &mut S, word: u32) -> bool
    ensures { Puts (S.seen sink.old) (spec.word_text word) (S.seen sink.new) result }
{
    let digits = [
        b' ',
        hex_digit((word / 0x1000_0000 % 16) as u8),
        hex_digit((word / 0x100_0000 % 16) as u8),
        hex_digit((word / 0x10_0000 % 16) as u8),
        hex_digit((word / 0x1_0000 % 16) as u8),
        hex_digit((word / 0x1000 % 16) as u8),
        hex_digit((word / 0x100 % 16) as u8),
        hex_digit((word / 0x10 % 16) as u8),
        hex_digit((word % 16) as u8),
    ];
    sink.put(&digits)
}

pub fn put_words<S: Sink>(sink: &mut S, words: &[u32]) -> bool
    ensures { Puts (S.seen sink.old) (flat_map spec.word_text words.now) (S.seen sink.new) result }
{
    for word in words {
        if !put_word(sink, *word) {
            return false;
        }
    }
    true
}

fn put_scsw<S: Sink>(sink: &mut S, scsw: &Scsw) -> bool
    ensures { Puts (S.seen sink.old) (spec.scsw_text scsw.now) (S.seen sink.new) result }
{
    put_words(sink, &scsw.words())
}

pub(crate) fn put_code<S: Sink>(sink: &mut S, code: ConditionCode) -> bool
    ensures { Puts (S.seen sink.old) (spec.code_text code) (S.seen sink.new) result }
{
    match code {
        ConditionCode::Zero => sink.put(b"cc 0"),
        ConditionCode::One => sink.put(b"cc 1"),
        ConditionCode::Two => sink.put(b"cc 2"),
        ConditionCode::Three => sink.put(b"cc 3"),
    }
}

pub(crate) fn put_answer<S: Sink>(sink: &mut S, answer: Answer) -> bool
    ensures { Puts (S.seen sink.old) (spec.answer_text answer) (S.seen sink.new) result }
{
    put_code(sink, answer.code())
}

fn put_int_code<S: Sink>(sink: &mut S, code: &IntCode) -> bool
    ensures { Puts (S.seen sink.old) (flat_map spec.word_text (map word_of (code_tables code.now))) (S.seen sink.new) result }
{
    put_words(sink, &code.words())
}

/// The condition code 1, and the code of the request that was taken out.
fn put_request<S: Sink>(sink: &mut S, code: &IntCode) -> bool
    ensures { Puts (S.seen sink.old) (spec.request_text code.now) (S.seen sink.new) result }
{
    put_code(sink, ConditionCode::One) && put_int_code(sink, code)
}

/// What TEST PENDING INTERRUPTION answered.
pub(crate) fn put_interruption<S: Sink>(sink: &mut S, found: &Option<IntCode>) -> bool
    ensures { Puts (S.seen sink.old) (spec.interruption_text found.now) (S.seen sink.new) result }
{
    match found {
        None => put_code(sink, ConditionCode::Zero),
        Some(code) => put_request(sink, code),
    }
}

fn stcrw_code(report: Option<Crw>) -> ConditionCode
    ensures { result ≡ codes_spec.stcrw_code report }
{
    match report {
        None => ConditionCode::One,
        Some(_) => ConditionCode::Zero,
    }
}

/// What STORE CHANNEL REPORT WORD answered: its condition code, and the word that it stored.
#[tactic(auto, using(streams::proofs::Sinking::takes_then, streams::proofs::Sinking::fails_then))]
pub(crate) fn put_report<S: Sink>(sink: &mut S, report: Option<Crw>) -> bool
    ensures { Puts (S.seen sink.old) (spec.report_text report) (S.seen sink.new) result }
{
    put_code(sink, stcrw_code(report)) && put_word(sink, report_word(report))
}

fn is_engaged(engaged: &[u8; PATH_STATUS_BYTES], path: u8) -> bool
    ensures { result ≡ spec.is_engaged engaged.now path }
{
    flag(
        u32::from(engaged[usize::from(path / 8)]),
        24 + u32::from(path % 8),
    )
}

/// A space and the two hexadecimal digits of a byte.
pub fn put_spaced_byte<S: Sink>(sink: &mut S, byte: u8) -> bool
    ensures { Puts (S.seen sink.old) (32 ∷ spec.byte_text byte) (S.seen sink.new) result }
{
    let digits = [b' ', hex_digit(byte / 0x10 % 16), hex_digit(byte % 16)];
    sink.put(&digits)
}

/// A channel path, where it is engaged.
fn put_path<S: Sink>(sink: &mut S, engaged: &[u8; PATH_STATUS_BYTES], path: u8) -> bool
    ensures { Puts (S.seen sink.old) (spec.path_text engaged.now path) (S.seen sink.new) result }
{
    if is_engaged(engaged, path) {
        put_spaced_byte(sink, path)
    } else {
        true
    }
}

fn put_engaged<S: Sink>(sink: &mut S, engaged: &[u8; PATH_STATUS_BYTES]) -> bool
    ensures { Puts (S.seen sink.old) (spec.engaged_text engaged.now 256) (S.seen sink.new) result }
{
    for path in 0..PATH_IDENTIFIERS {
        if !put_path(sink, engaged, path as u8) {
            return false;
        }
    }
    true
}

/// The engaged channel paths, of which there are some.
fn put_named_paths<S: Sink>(sink: &mut S, engaged: &[u8; PATH_STATUS_BYTES]) -> bool
    ensures { Puts (S.seen sink.old) (spec.named_paths_text engaged.now) (S.seen sink.new) result }
{
    sink.put(b"paths") && put_engaged(sink, engaged)
}

fn is_none_engaged(engaged: &[u8; PATH_STATUS_BYTES]) -> bool
    ensures { result ≡ spec.is_none_engaged engaged.now }
{
    engaged.iter().all(|byte| *byte == 0)
}

/// What STORE CHANNEL PATH STATUS answered: the engaged channel paths.
pub(crate) fn put_paths<S: Sink>(sink: &mut S, engaged: &[u8; PATH_STATUS_BYTES]) -> bool
    ensures { Puts (S.seen sink.old) (spec.paths_text engaged.now) (S.seen sink.new) result }
{
    if is_none_engaged(engaged) {
        sink.put(b"paths -")
    } else {
        put_named_paths(sink, engaged)
    }
}

fn put_down_name<S: Sink>(sink: &mut S, signal: &LentDown<'_>) -> bool
    ensures { Puts (S.seen sink.old) (spec.down_name (lent_down signal.now)) (S.seen sink.new) result }
{
    sink.put(match signal.kept {
        Down::Select { .. } => b"select",
        Down::Command { .. } => b"command",
        Down::Grant { .. } => b"grant",
        Down::Refuse { .. } => b"refuse",
        Down::Took { .. } => b"took",
        Down::Give { .. } => b"give",
        Down::Halt { .. } => b"halt",
        Down::Release { .. } => b"release",
        Down::Reset { .. } => b"reset",
        Down::Got { .. } => b"got",
    })
}

fn put_up_name<S: Sink>(sink: &mut S, signal: &LentUp<'_>) -> bool
    ensures { Puts (S.seen sink.old) (spec.up_name (lent_up signal.now)) (S.seen sink.new) result }
{
    sink.put(match signal.kept {
        Up::Accept { .. } => b"accept",
        Up::Busy { .. } => b"busy",
        Up::Leave { .. } => b"leave",
        Up::Back { .. } => b"back",
        Up::Data { .. } => b"data",
        Up::End { .. } => b"end",
        Up::Released { .. } => b"released",
        Up::Cleared { .. } => b"cleared",
        Up::Notice { .. } => b"notice",
        Up::Attn { .. } => b"attn",
    })
}

/// Whether a signal that was met was taken.
fn put_taken<S: Sink>(sink: &mut S, taken: bool) -> bool
    ensures { Puts (S.seen sink.old) (spec.taken_text taken) (S.seen sink.new) result }
{
    if taken {
        sink.put(b"took ")
    } else {
        sink.put(b"ignored ")
    }
}

/// An answer and a status word.
#[tactic(auto, using(streams::proofs::Sinking::takes_then, streams::proofs::Sinking::fails_then))]
pub(crate) fn put_status<S: Sink>(sink: &mut S, answer: Answer, scsw: &Scsw) -> bool
    ensures { Puts (S.seen sink.old) (spec.answer_text answer ++ spec.scsw_text scsw.now) (S.seen sink.new) result }
{
    put_answer(sink, answer) && put_scsw(sink, scsw)
}

/// A signal that was met on its way up.
#[tactic(auto, using(streams::proofs::Sinking::takes_then, streams::proofs::Sinking::fails_then))]
pub(crate) fn put_up<S: Sink>(sink: &mut S, taken: bool, signal: &LentUp<'_>) -> bool
    ensures { Puts (S.seen sink.old) (spec.taken_text taken ++ spec.up_name (lent_up signal.now)) (S.seen sink.new) result }
{
    put_taken(sink, taken) && put_up_name(sink, signal)
}

/// A signal that was met on its way down.
#[tactic(auto, using(streams::proofs::Sinking::takes_then, streams::proofs::Sinking::fails_then))]
pub(crate) fn put_down<S: Sink>(sink: &mut S, taken: bool, signal: &LentDown<'_>) -> bool
    ensures { Puts (S.seen sink.old) (spec.taken_text taken ++ spec.down_name (lent_down signal.now)) (S.seen sink.new) result }
{
    put_taken(sink, taken) && put_down_name(sink, signal)
}

/// What a reply prints.
pub fn put_reply<S: Sink>(sink: &mut S, reply: &Reply) -> bool
    ensures { Puts (S.seen sink.old) (spec.reply_text reply.now) (S.seen sink.new) result }
{
    match reply {
        Reply::Done => sink.put(b"done"),
        Reply::Shown { bytes } => put_bytes(sink, bytes.as_slice()),
        Reply::Code(answer) => put_answer(sink, *answer),
        Reply::Status { answer, scsw } => put_status(sink, *answer, scsw),
        Reply::Interruption(found) => put_interruption(sink, found),
        Reply::PathReset(code) => put_code(sink, *code),
        Reply::ChannelReport(report) => put_report(sink, *report),
        Reply::Paths { engaged } => put_paths(sink, engaged),
        Reply::Offered { path, .. } => put_named(sink, b"offer ", path.index() as u64),
        Reply::ResetSent { path, .. } => put_named(sink, b"reset ", path.index() as u64),
        Reply::HaltSent { path, .. } => put_named(sink, b"halt ", path.index() as u64),
        Reply::Pending => sink.put(b"status"),
        Reply::Idle => sink.put(b"idle"),
        Reply::Up { signal, taken, .. } => {
            let kept = signal.keep();
            put_up(sink, *taken, &kept.lend(signal.bytes()))
        }
        Reply::Down { signal, taken, .. } => {
            let kept = signal.keep();
            put_down(sink, *taken, &kept.lend(signal.bytes()))
        }
    }
}

fn put_storage_fault<S: Sink>(sink: &mut S, kind: StorageFault) -> bool
    ensures { Puts (S.seen sink.old) (spec.storage_text kind) (S.seen sink.new) result }
{
    match kind {
        StorageFault::Addressing => sink.put(b"refused 10 addressing"),
        StorageFault::Protection => sink.put(b"refused 10 protection"),
        StorageFault::Specification => sink.put(b"refused 10 specification"),
    }
}

/// What a refusal prints: `refused` and its number, 1 to 11 in the order of `Fault`, and for storage its kind.
pub fn put_refusal<S: Sink>(sink: &mut S, refusal: &Fault) -> bool
    ensures { Puts (S.seen sink.old) (spec.refusal_text refusal.now) (S.seen sink.new) result }
{
    sink.put(match refusal {
        Fault::NoMemory => b"refused 1",
        Fault::WireFull => b"refused 2",
        Fault::NotSent => b"refused 3",
        Fault::NoSuchSubchannel => b"refused 4",
        Fault::NoSuchPath => b"refused 5",
        Fault::NoSuchUnit => b"refused 6",
        Fault::NotNow => b"refused 7",
        Fault::ConfigBad(_) => b"refused 8",
        Fault::ScriptBad(_, _) => b"refused 9",
        Fault::Storage(kind) => return put_storage_fault(sink, *kind),
        Fault::Operand => b"refused 11",
    })
}

/// A name, its number, and another name.
#[tactic(auto, using(streams::proofs::Sinking::takes_then, streams::proofs::Sinking::fails_then))]
pub(crate) fn put_between<S: Sink>(sink: &mut S, first: &[u8], number: u64, second: &[u8]) -> bool
    ensures { Puts (S.seen sink.old) (first.now ++ decimal number ++ second.now) (S.seen sink.new) result }
{
    put_named(sink, first, number) && sink.put(second)
}

/// Two names, each with its number.
#[tactic(auto, using(streams::proofs::Sinking::takes_then, streams::proofs::Sinking::fails_then))]
pub(crate) fn put_numbers<S: Sink>(
    sink: &mut S,
    first: &[u8],
    a: u64,
    second: &[u8],
    b: u64,
) -> bool
    ensures { Puts (S.seen sink.old) (first.now ++ decimal a ++ second.now ++ decimal b) (S.seen sink.new) result }
{
    put_between(sink, first, a, second) && put_decimal(sink, b)
}

/// `made` and `cleared`, each with its serial in decimal.
fn put_serials<S: Sink>(sink: &mut S, serials: Serials) -> bool
    ensures { Puts (S.seen sink.old) (spec.serials_text serials) (S.seen sink.new) result }
{
    put_numbers(sink, b"made ", serials.made, b" cleared ", serials.cleared)
}

fn put_told<S: Sink>(sink: &mut S, told: &ActionResult) -> bool
    ensures { Puts (S.seen sink.old) (spec.told_text told.now) (S.seen sink.new) result }
{
    match told {
        ActionResult::Reply(reply) => put_reply(sink, reply),
        ActionResult::Serials(serials) => put_serials(sink, *serials),
        ActionResult::Race(race) => put_race(sink, race),
    }
}

pub fn put_outcome<S: Sink>(sink: &mut S, outcome: &Result<ActionResult, Fault>) -> bool
    ensures { Puts (S.seen sink.old) (spec.outcome_text outcome.now) (S.seen sink.new) result }
{
    match outcome {
        Ok(told) => put_told(sink, told),
        Err(refusal) => put_refusal(sink, refusal),
    }
}

/// What an action came to, after a space.
fn put_spaced<S: Sink>(sink: &mut S, outcome: &Result<ActionResult, Fault>) -> bool
    ensures { Puts (S.seen sink.old) (32 ∷ spec.outcome_text outcome.now) (S.seen sink.new) result }
{
    sink.put(b" ") && put_outcome(sink, outcome)
}

/// The number of a line before that.
#[tactic(auto, using(streams::proofs::Sinking::takes_then, streams::proofs::Sinking::fails_then))]
fn put_numbered<S: Sink>(sink: &mut S, line: u64, outcome: &Result<ActionResult, Fault>) -> bool
    ensures { Puts (S.seen sink.old) (decimal line ++ 32 ∷ spec.outcome_text outcome.now) (S.seen sink.new) result }
{
    put_decimal(sink, line) && put_spaced(sink, outcome)
}

/// The line of one action, piece by piece.
fn put_pieces<S: Sink>(sink: &mut S, line: u64, outcome: &Result<ActionResult, Fault>) -> bool
    ensures { Puts (S.seen sink.old) (spec.event_line line outcome.now) (S.seen sink.new) result }
{
    put_numbered(sink, line, outcome) && sink.put(b"\n")
}

/// The line of one action: the decimal number of its line, what it came to, and a line feed.
pub fn put_event_line<S: Sink>(
    sink: &mut S,
    line: u64,
    outcome: &Result<ActionResult, Fault>,
) -> bool
    ensures { Puts (S.seen sink.old) (spec.event_line line outcome.now) (S.seen sink.new) result }
{
    put_event_line_at_once(sink, &mut Held::new(), line, outcome)
}

/// The same, through a slot where the line waits until it is whole: it goes into the sink at once, where it is no
/// longer than 640 bytes. What the slot held before is forgotten.
pub fn put_event_line_at_once<S: Sink>(
    sink: &mut S,
    held: &mut Held,
    line: u64,
    outcome: &Result<ActionResult, Fault>,
) -> bool
    ensures { Puts (S.seen sink.old) (spec.event_line line outcome.now) (S.seen sink.new) result }
{
    held.clear();
    if put_pieces(held, line, outcome) {
        sink.put(held.bytes())
    } else {
        put_pieces(sink, line, outcome)
    }
}

/// The line of a bad script: the number of the line and that of the rule, in decimal.
pub fn put_bad_line<S: Sink>(sink: &mut S, line: u64, rule: u8) -> bool
    ensures { Puts (S.seen sink.old) (spec.bad_text line rule) (S.seen sink.new) result }
{
    put_numbers(sink, b"bad line ", line, b" rule ", u64::from(rule)) && sink.put(b"\n")
}
