//! Records of a line, behind those before.

ghost use Rattle.chan_events.specs.Replies.{reply_in, reply_length};
ghost use Rattle.chan_events.specs.declared.reply.Reply.TheVariants as reply_spec;
ghost use Rattle.std.specs.Prelude.{◌≤◌, ◌<◌, length, vec_capacity, vec_len, ◌≡◌, ◌++◌, ◌∷◌, [], Ok, Err, OnOk, OnErr, true};
ghost use Rattle.machine_sight.specs.Finding.{found_of};
ghost use Rattle.script_text.specs.declared.ActionResult.TheVariants as result_spec;
ghost use Rattle.step_facts.specs.Told.{line_record};
ghost use Rattle.step_records.specs.declared.record.Fact.TheVariants as fact_spec;
ghost use Rattle.trace_runs.specs.Tracing as spec;

use chan_events::reply::Reply;
use chan_model::answer::Answer;
use chan_model::fault::Fault;
use chan_model::names::Path;
use chan_model::signal::{KeptDown, KeptUp, OnPath};
use event_log::history::LentReply;
use machine_sight::sight::Sight;
use memory::{Supply, ensure_room};
use script_text::ActionResult;
use scsw_irb::serials::Serials;
use std::alloc::AllocError;
use step_records::record::{Fact, Record};

/// One record more of this line.
pub(crate) fn add_fact<S: Supply>(
    supply: &mut S,
    line: u64,
    fact: Fact,
    records: &mut Vec<Record>,
) -> Result<(), AllocError>
    ensures added { OnOk result (records.new.items ≡ records.old.items ++ line_record line fact ∷ []) }
    ensures unrefused { OnOk result (S.refused supply.new ≡ S.refused supply.old) }
    ensures memory { OnErr result (S.refused supply.new ≡ true) }
{
    ensure_room(supply, records, 1)?;
    records.push_reserved(Record { line, fact });
    Ok(())
}

/// The line itself.
#[inline(never)]
pub(crate) fn add_event<S: Supply>(
    supply: &mut S,
    line: u64,
    records: &mut Vec<Record>,
) -> Result<(), AllocError>
    ensures added { OnOk result (records.new.items ≡ records.old.items ++ line_record line fact_spec.Event ∷ []) }
    ensures unrefused { OnOk result (S.refused supply.new ≡ S.refused supply.old) }
    ensures memory { OnErr result (S.refused supply.new ≡ true) }
{
    add_fact(supply, line, Fact::Event, records)
}

/// What an instruction finds of a subchannel, where it is there.
#[inline(never)]
pub(crate) fn add_found<S: Supply>(
    supply: &mut S,
    line: u64,
    sight: &Sight,
    subchannel: usize,
    records: &mut Vec<Record>,
) -> Result<(), AllocError>
    ensures added { OnOk result (records.new.items ≡ records.old.items ++ spec.found_records line (found_of sight.now subchannel)) }
    ensures unrefused { OnOk result (S.refused supply.new ≡ S.refused supply.old) }
    ensures memory { OnErr result (S.refused supply.new ≡ true) }
{
    match sight.found(subchannel) {
        Some(found) => add_fact(supply, line, found, records),
        None => Ok(()),
    }
}

/// The line, and what its instruction finds of the subchannel that it names.
pub(crate) fn add_beginning<S: Supply>(
    supply: &mut S,
    line: u64,
    sight: &Sight,
    subchannel: Option<usize>,
    records: &mut Vec<Record>,
) -> Result<(), AllocError>
    ensures added { OnOk result (records.new.items ≡ records.old.items ++ spec.beginning line (spec.found_where sight.now subchannel)) }
    ensures unrefused { OnOk result (S.refused supply.new ≡ S.refused supply.old) }
    ensures memory { OnErr result (S.refused supply.new ≡ true) }
{
    add_event(supply, line, records)?;
    match subchannel {
        Some(subchannel) => add_found(supply, line, sight, subchannel, records),
        None => Ok(()),
    }
}

/// The reply to a signal up that was met. Its signals are copied once, to where they are to stand.
#[inline(never)]
fn push_met_up(
    line: u64,
    signal: &KeptUp,
    taken: bool,
    sent: &Option<OnPath<KeptDown>>,
    bytes: &[u8],
    records: &mut Vec<Record>,
)
    requires room { vec_len records.old < vec_capacity records.old }
    requires whole { reply_length (reply_spec.Up signal.now taken sent.now) ≤ length bytes.now }
    ensures { records.new.items ≡ records.old.items ++ spec.replied line (reply_in (reply_spec.Up signal.now taken sent.now) bytes.now) ∷ [] }
{
    match sent {
        None => records.push_reserved(Record {
            line,
            fact: Fact::Answer(Ok(ActionResult::Reply(Reply::Up {
                signal: signal.lend(bytes).own(),
                taken,
                sent: None,
            }))),
        }),
        Some(sent) => records.push_reserved(Record {
            line,
            fact: Fact::Answer(Ok(ActionResult::Reply(Reply::Up {
                signal: signal.lend(bytes).own(),
                taken,
                sent: Some(OnPath {
                    path: sent.path,
                    signal: sent.signal.lend(&bytes[signal.length()..]).own(),
                }),
            }))),
        }),
    }
}

/// The same to a signal down.
#[inline(never)]
fn push_met_down(
    line: u64,
    signal: &KeptDown,
    taken: bool,
    sent: &Option<OnPath<KeptUp>>,
    bytes: &[u8],
    records: &mut Vec<Record>,
)
    requires room { vec_len records.old < vec_capacity records.old }
    requires whole { reply_length (reply_spec.Down signal.now taken sent.now) ≤ length bytes.now }
    ensures { records.new.items ≡ records.old.items ++ spec.replied line (reply_in (reply_spec.Down signal.now taken sent.now) bytes.now) ∷ [] }
{
    match sent {
        None => records.push_reserved(Record {
            line,
            fact: Fact::Answer(Ok(ActionResult::Reply(Reply::Down {
                signal: signal.lend(bytes).own(),
                taken,
                sent: None,
            }))),
        }),
        Some(sent) => records.push_reserved(Record {
            line,
            fact: Fact::Answer(Ok(ActionResult::Reply(Reply::Down {
                signal: signal.lend(bytes).own(),
                taken,
                sent: Some(OnPath {
                    path: sent.path,
                    signal: sent.signal.lend(&bytes[signal.length()..]).own(),
                }),
            }))),
        }),
    }
}

/// The reply that says no more than that the event was accepted.
#[inline(never)]
fn push_done(line: u64, records: &mut Vec<Record>)
    requires { vec_len records.old < vec_capacity records.old }
    ensures { records.new.items ≡ records.old.items ++ spec.replied line reply_spec.Done ∷ [] }
{
    records.push_reserved(Record {
        line,
        fact: Fact::Answer(Ok(ActionResult::Reply(Reply::Done))),
    });
}

/// The condition code of an instruction.
#[inline(never)]
fn push_code(line: u64, answer: Answer, records: &mut Vec<Record>)
    requires { vec_len records.old < vec_capacity records.old }
    ensures { records.new.items ≡ records.old.items ++ spec.replied line (reply_spec.Code answer) ∷ [] }
{
    records.push_reserved(Record {
        line,
        fact: Fact::Answer(Ok(ActionResult::Reply(Reply::Code(answer)))),
    });
}

/// A program that was offered.
#[inline(never)]
fn push_offered(line: u64, number: u64, path: Path, resumed: bool, records: &mut Vec<Record>)
    requires { vec_len records.old < vec_capacity records.old }
    ensures { records.new.items ≡ records.old.items ++ spec.replied line (reply_spec.Offered number path resumed) ∷ [] }
{
    records.push_reserved(Record {
        line,
        fact: Fact::Answer(Ok(ActionResult::Reply(Reply::Offered {
            number,
            path,
            resumed,
        }))),
    });
}

/// Another reply.
#[inline(never)]
fn push_reply(line: u64, reply: &LentReply<'_>, records: &mut Vec<Record>)
    requires { vec_len records.old < vec_capacity records.old }
    ensures { records.new.items ≡ records.old.items ++ spec.replied line reply.now ∷ [] }
{
    records.push_reserved(Record {
        line,
        fact: Fact::Answer(Ok(ActionResult::Reply(reply.own()))),
    });
}

/// What an event that was accepted came to.
pub(crate) fn add_reply<S: Supply>(
    supply: &mut S,
    line: u64,
    reply: &LentReply<'_>,
    records: &mut Vec<Record>,
) -> Result<(), AllocError>
    ensures added { OnOk result (records.new.items ≡ records.old.items ++ spec.replied line reply.now ∷ []) }
    ensures unrefused { OnOk result (S.refused supply.new ≡ S.refused supply.old) }
    ensures memory { OnErr result (S.refused supply.new ≡ true) }
{
    ensure_room(supply, records, 1)?;
    match reply.parts() {
        (
            Reply::Up {
                signal,
                taken,
                sent,
            },
            bytes,
        ) => push_met_up(line, signal, *taken, sent, bytes, records),
        (
            Reply::Down {
                signal,
                taken,
                sent,
            },
            bytes,
        ) => push_met_down(line, signal, *taken, sent, bytes, records),
        (Reply::Done, _) => push_done(line, records),
        (Reply::Code(answer), _) => push_code(line, *answer, records),
        (
            Reply::Offered {
                number,
                path,
                resumed,
            },
            _,
        ) => push_offered(line, *number, *path, *resumed, records),
        _ => push_reply(line, reply, records),
    }
    Ok(())
}

/// What a look came to.
#[inline(never)]
pub(crate) fn add_looked<S: Supply>(
    supply: &mut S,
    line: u64,
    found: Serials,
    records: &mut Vec<Record>,
) -> Result<(), AllocError>
    ensures added { OnOk result (records.new.items ≡ records.old.items ++ spec.answer_record line (Ok (result_spec.Serials found)) ∷ []) }
    ensures unrefused { OnOk result (S.refused supply.new ≡ S.refused supply.old) }
    ensures memory { OnErr result (S.refused supply.new ≡ true) }
{
    add_fact(
        supply,
        line,
        Fact::Answer(Ok(ActionResult::Serials(found))),
        records,
    )
}

/// That an action was refused.
#[inline(never)]
pub(crate) fn add_refusal<S: Supply>(
    supply: &mut S,
    line: u64,
    fault: Fault,
    records: &mut Vec<Record>,
) -> Result<(), AllocError>
    ensures added { OnOk result (records.new.items ≡ records.old.items ++ spec.answer_record line (Err fault) ∷ []) }
    ensures unrefused { OnOk result (S.refused supply.new ≡ S.refused supply.old) }
    ensures memory { OnErr result (S.refused supply.new ≡ true) }
{
    add_fact(supply, line, Fact::Answer(Err(fault)), records)
}
