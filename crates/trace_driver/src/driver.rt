//! The view `driver`: what a program on the CPUs can see, and nothing else.

ghost use Rattle.std.specs.Prelude.{◌≡◌, ◌<◌, ◌^◌, ◌++◌, ◌∷◌, [], decimal};
ghost use Rattle.streams.specs.Sinks.{Puts};
ghost use Rattle.trace_driver.specs.Driver as spec;
ghost use Rattle.seen_answers.specs.Seen.{outcome_seen};
ghost use Rattle.trace_driver.specs.Visible as visible_spec;

use crate::visible::is_visible;
use chan_model::fault::Fault;
use itoa::Buffer;
use record_text::fields::put_named;
use record_text::names::put_subchannel;
use record_text::number::{put_blanks, put_decimal};
use script_text::ActionResult;
use seen_answers::instruction::{CpuAct, act_of};
use seen_answers::put_seen;
use step_records::parties::Parties;
use step_records::record::{Fact, Record};
use step_records::style::{Drawing, Style};
use step_records::trace::Trace;
use streams::{Sink, put_both};

/// How wide the number of a line is.
const NUMBER_WIDTH: usize = 5;

/// How wide a line of a script is, before what it came to.
const LINE_WIDTH: usize = 14;

/// How many events a program could not see since the last that it could: those of the lines before the last line, and whether
/// nothing was seen of the last line yet.
#[derive(Clone, Copy)]
struct Unseen {
    before: u64,
    waits: bool,
}

impl Unseen {
    /// How many there are.
    fn count(self) -> u64
        requires { spec.count self < 2 ^ 64 }
        ensures { result ≡ spec.count self }
    {
        if self.waits {
            self.before + 1
        } else {
            self.before
        }
    }

    /// The same after a record, which is an event or not, and which a program sees or not.
    fn after(self, event: bool, visible: bool) -> Unseen
        requires { spec.count self < 2 ^ 64 }
        ensures { result ≡ spec.after self event visible }
    {
        if visible {
            Unseen {
                before: 0,
                waits: false,
            }
        } else if event {
            Unseen {
                before: self.count(),
                waits: true,
            }
        } else {
            self
        }
    }
}

/// Whether a fact is that a line acts.
fn is_event(fact: &Fact) -> bool
    ensures { result ≡ spec.is_event fact.now }
{
    matches!(fact, Fact::Event)
}

/// What stands for what is left out.
fn ellipsis(drawing: Drawing) -> &'static [u8]
    ensures { result.now ≡ spec.ellipsis drawing }
{
    match drawing {
        Drawing::Drawn => b"\xE2\x80\xA6",
        Drawing::Ascii => b"..",
    }
}

/// What stands before what interrupts a program.
fn bolt(drawing: Drawing) -> &'static [u8]
    ensures { result.now ≡ spec.bolt drawing }
{
    match drawing {
        Drawing::Drawn => b"\xE2\x9A\xA1",
        Drawing::Ascii => b"!",
    }
}

/// The number of a line in five columns, and two blanks.
#[tactic(auto, using(streams::proofs::Sinking::takes_then, streams::proofs::Sinking::fails_then))]
fn put_number<S: Sink>(sink: &mut S, line: u64) -> bool
    ensures { Puts (S.seen sink.old) (spec.number_text line) (S.seen sink.new) result }
{
    let mut buffer = Buffer::new();
    let digits = buffer.format(line).as_bytes();
    put_blanks(sink, NUMBER_WIDTH.saturating_sub(digits.len())) && put_both(sink, digits, b"  ")
}

/// How many events a program could not see, where there were some.
fn put_gap<S: Sink>(sink: &mut S, drawing: Drawing, count: u64) -> bool
    ensures { Puts (S.seen sink.old) (spec.gap_text drawing count) (S.seen sink.new) result }
{
    if count == 0 {
        true
    } else {
        put_some_gap(sink, drawing, count)
    }
}

#[tactic(auto, using(streams::proofs::Sinking::takes_then, streams::proofs::Sinking::fails_then))]
fn put_some_gap<S: Sink>(sink: &mut S, drawing: Drawing, count: u64) -> bool
    ensures { Puts (S.seen sink.old) (spec.some_gap_text drawing count) (S.seen sink.new) result }
{
    put_both(sink, b"       ", ellipsis(drawing)) && put_events(sink, count)
}

#[tactic(auto, using(streams::proofs::Sinking::takes_then, streams::proofs::Sinking::fails_then))]
fn put_events<S: Sink>(sink: &mut S, count: u64) -> bool
    ensures { Puts (S.seen sink.old) (spec.events_text count) (S.seen sink.new) result }
{
    put_spaced(sink, count) && sink.put(events_name(count))
}

/// A blank and a number.
fn put_spaced<S: Sink>(sink: &mut S, count: u64) -> bool
    ensures { Puts (S.seen sink.old) (32 ∷ decimal count) (S.seen sink.new) result }
{
    sink.put(b" ") && put_decimal(sink, count)
}

fn events_name(count: u64) -> &'static [u8]
    ensures { result.now ≡ spec.events_name count }
{
    if count == 1 {
        b" event that no program sees\n"
    } else {
        b" events that no program sees\n"
    }
}

/// A line of the script, in fifteen columns or more, before what it came to.
#[tactic(auto, using(streams::proofs::Sinking::takes_then, streams::proofs::Sinking::fails_then))]
fn put_padded<S: Sink>(sink: &mut S, line: &[u8]) -> bool
    ensures { Puts (S.seen sink.old) (spec.padded_text line.now) (S.seen sink.new) result }
{
    sink.put(line) && put_blanks(sink, LINE_WIDTH.saturating_sub(line.len()) + 1)
}

/// The line that made something seen, and a line feed.
#[tactic(auto, using(streams::proofs::Sinking::takes_then, streams::proofs::Sinking::fails_then))]
fn put_by<S: Sink>(sink: &mut S, line: &[u8]) -> bool
    ensures { Puts (S.seen sink.old) (spec.by_text line.now) (S.seen sink.new) result }
{
    put_both(sink, b"   (by: ", line) && sink.put(b")\n")
}

/// An instruction with what it answered.
fn put_answer<S: Sink>(sink: &mut S, line: &[u8], outcome: &Result<ActionResult, Fault>) -> bool
    ensures { Puts (S.seen sink.old) (spec.answer_text line.now outcome.now) (S.seen sink.new) result }
{
    match act_of(line) {
        None => true,
        Some(act) => put_acted(sink, line, act, outcome),
    }
}

#[tactic(auto, using(streams::proofs::Sinking::takes_then, streams::proofs::Sinking::fails_then))]
fn put_acted<S: Sink>(
    sink: &mut S,
    line: &[u8],
    act: CpuAct,
    outcome: &Result<ActionResult, Fault>,
) -> bool
    ensures { Puts (S.seen sink.old) (spec.acted_text line.now act outcome.now) (S.seen sink.new) result }
{
    put_padded(sink, line) && put_ended(sink, act, outcome)
}

#[tactic(auto, using(streams::proofs::Sinking::takes_then, streams::proofs::Sinking::fails_then))]
fn put_ended<S: Sink>(sink: &mut S, act: CpuAct, outcome: &Result<ActionResult, Fault>) -> bool
    ensures { Puts (S.seen sink.old) (outcome_seen act outcome.now ++ 10 ∷ []) (S.seen sink.new) result }
{
    put_seen(sink, act, outcome) && sink.put(b"\n")
}

/// A request that was posted.
#[tactic(auto, using(streams::proofs::Sinking::takes_then, streams::proofs::Sinking::fails_then))]
fn put_request<S: Sink>(
    sink: &mut S,
    parties: &Parties,
    drawing: Drawing,
    subchannel: usize,
    subclass: u8,
) -> bool
    ensures { Puts (S.seen sink.old) (spec.request_text parties.now drawing subchannel subclass) (S.seen sink.new) result }
{
    put_requesting(sink, parties, drawing, subchannel)
        && put_named(sink, b", subclass ", u64::from(subclass))
}

#[tactic(auto, using(streams::proofs::Sinking::takes_then, streams::proofs::Sinking::fails_then))]
fn put_requesting<S: Sink>(
    sink: &mut S,
    parties: &Parties,
    drawing: Drawing,
    subchannel: usize,
) -> bool
    ensures { Puts (S.seen sink.old) (spec.requesting_text parties.now drawing subchannel) (S.seen sink.new) result }
{
    put_both(
        sink,
        bolt(drawing),
        b" a request for an I/O interruption, subchannel ",
    ) && put_subchannel(sink, parties, subchannel)
}

/// A report that waits.
fn put_report<S: Sink>(sink: &mut S, drawing: Drawing) -> bool
    ensures { Puts (S.seen sink.old) (spec.report_text drawing) (S.seen sink.new) result }
{
    put_both(
        sink,
        bolt(drawing),
        b" a channel report waits: machine-check interruption condition",
    )
}

/// A request that was posted, and by which line.
#[tactic(auto, using(streams::proofs::Sinking::takes_then, streams::proofs::Sinking::fails_then))]
fn put_requested<S: Sink>(
    sink: &mut S,
    parties: &Parties,
    drawing: Drawing,
    subchannel: usize,
    subclass: u8,
    line: &[u8],
) -> bool
    ensures { Puts (S.seen sink.old) (spec.requested_text parties.now drawing subchannel subclass line.now) (S.seen sink.new) result }
{
    put_request(sink, parties, drawing, subchannel, subclass) && put_by(sink, line)
}

/// A report that waits, and since which line.
#[tactic(auto, using(streams::proofs::Sinking::takes_then, streams::proofs::Sinking::fails_then))]
fn put_reported<S: Sink>(sink: &mut S, drawing: Drawing, line: &[u8]) -> bool
    ensures { Puts (S.seen sink.old) (spec.reported_text drawing line.now) (S.seen sink.new) result }
{
    put_report(sink, drawing) && put_by(sink, line)
}

/// A fact that a program sees of a line.
fn put_fact<S: Sink>(
    sink: &mut S,
    parties: &Parties,
    drawing: Drawing,
    line: &[u8],
    fact: &Fact,
) -> bool
    ensures { Puts (S.seen sink.old) (spec.told_text parties.now drawing line.now fact.now) (S.seen sink.new) result }
{
    match fact {
        Fact::Answer(outcome) => put_answer(sink, line, outcome),
        Fact::Request {
            subchannel,
            subclass,
            ..
        } => put_requested(sink, parties, drawing, *subchannel, *subclass, line),
        Fact::Report { .. } => put_reported(sink, drawing, line),
        _ => true,
    }
}

/// The same of a record, without the number of its line.
fn put_record_fact<S: Sink>(sink: &mut S, trace: &Trace, drawing: Drawing, told: &Record) -> bool
    ensures { Puts (S.seen sink.old) (spec.fact_text trace.now drawing told.now) (S.seen sink.new) result }
{
    let line = trace.text.line(told.line);
    put_fact(sink, &trace.parties, drawing, line, &told.fact)
}

/// A record that a program sees.
fn put_visible_record<S: Sink>(sink: &mut S, trace: &Trace, drawing: Drawing, told: &Record) -> bool
    ensures { Puts (S.seen sink.old) (spec.visible_text trace.now drawing told.now) (S.seen sink.new) result }
{
    put_number(sink, told.line) && put_record_fact(sink, trace, drawing, told)
}

/// How many events a program could not see, and then a record that it sees.
#[tactic(auto, using(streams::proofs::Sinking::takes_then, streams::proofs::Sinking::fails_then))]
fn put_after_gap<S: Sink>(
    sink: &mut S,
    trace: &Trace,
    drawing: Drawing,
    told: &Record,
    unseen: u64,
) -> bool
    ensures { Puts (S.seen sink.old) (spec.after_gap_text trace.now drawing told.now unseen) (S.seen sink.new) result }
{
    put_gap(sink, drawing, unseen) && put_visible_record(sink, trace, drawing, told)
}

/// What a record shows: nothing, where no program sees it.
fn put_row<S: Sink>(
    sink: &mut S,
    trace: &Trace,
    drawing: Drawing,
    told: &Record,
    unseen: Unseen,
) -> bool
    ensures { Puts (S.seen sink.old) (spec.row_text trace.now drawing told.now unseen) (S.seen sink.new) result }
{
    if is_visible(&trace.text, told) {
        put_after_gap(sink, trace, drawing, told, unseen.before)
    } else {
        true
    }
}

/// How many events a program could not see, after a record more.
fn next_unseen(trace: &Trace, told: &Record, unseen: Unseen) -> Unseen
    requires { spec.count unseen < 2 ^ 64 }
    ensures { result ≡ spec.after unseen (spec.is_event told.now.fact) (visible_spec.is_visible trace.now.text told.now) }
{
    unseen.after(is_event(&told.fact), is_visible(&trace.text, told))
}

/// How many events a program could not see after the last record that it could.
fn put_last_gap<S: Sink>(sink: &mut S, drawing: Drawing, unseen: Unseen) -> bool
    requires { spec.count unseen < 2 ^ 64 }
    ensures { Puts (S.seen sink.old) (spec.gap_text drawing (spec.count unseen)) (S.seen sink.new) result }
{
    put_gap(sink, drawing, unseen.count())
}

/// The rows of these records.
fn put_rows<S: Sink>(sink: &mut S, trace: &Trace, drawing: Drawing, records: &[Record]) -> bool
    ensures { Puts (S.seen sink.old) (spec.rows_text trace.now drawing spec.none records.now) (S.seen sink.new) result }
{
    let mut unseen = Unseen {
        before: 0,
        waits: false,
    };
    for told in records {
        if !put_row(sink, trace, drawing, told, unseen) {
            return false;
        }
        unseen = next_unseen(trace, told, unseen);
    }
    put_last_gap(sink, drawing, unseen)
}

/// The rows of all records.
fn put_all_rows<S: Sink>(sink: &mut S, trace: &Trace, drawing: Drawing) -> bool
    ensures { Puts (S.seen sink.old) (spec.rows_text trace.now drawing spec.none trace.now.records.items) (S.seen sink.new) result }
{
    put_rows(sink, trace, drawing, trace.records.as_slice())
}

/// What a program on the CPUs can see, in order: the answer to each instruction, each request for an interruption that is posted
/// and each channel report that waits, and between them how many events it cannot see. The numbers of lines are decimal.
pub fn put_driver<S: Sink>(sink: &mut S, trace: &Trace, style: Style) -> bool
    ensures { Puts (S.seen sink.old) (spec.driver_text trace.now style.drawing) (S.seen sink.new) result }
{
    sink.put(b"what a program on the CPUs can see\n\n") && put_all_rows(sink, trace, style.drawing)
}
