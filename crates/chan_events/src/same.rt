//! Whether events and replies are kept with the same numbers, wherever their bytes stand.

ghost use Rattle.std.specs.Prelude.{◌≡◌, ◌↔◌, IsTrue};

use crate::event::{Event, Instruction, KeptEvent, OtherInstruction, UnitAct};
use crate::reply::{KeptReply, Reply};
use crate::words::{same_interruption, same_scsw};
use chan_model::answer::Answer;
use chan_model::report::KeptReport;
use chan_model::signal::{KeptDown, KeptUp, OnPath};
use scsw_irb::crw::Crw;
use storage_keys::key::Key;

fn same_down(one: &KeptDown, other: &KeptDown) -> bool
    ensures { IsTrue result ↔ (one.now ≡ other.now) }
{
    *one == *other
}

fn same_up(one: &KeptUp, other: &KeptUp) -> bool
    ensures { IsTrue result ↔ (one.now ≡ other.now) }
{
    *one == *other
}

fn same_answer(one: &Answer, other: &Answer) -> bool
    ensures { IsTrue result ↔ (one.now ≡ other.now) }
{
    *one == *other
}

fn same_sent_down(one: &Option<OnPath<KeptDown>>, other: &Option<OnPath<KeptDown>>) -> bool
    ensures { IsTrue result ↔ (one.now ≡ other.now) }
{
    *one == *other
}

fn same_sent_up(one: &Option<OnPath<KeptUp>>, other: &Option<OnPath<KeptUp>>) -> bool
    ensures { IsTrue result ↔ (one.now ≡ other.now) }
{
    *one == *other
}

fn same_report(one: &Option<Crw>, other: &Option<Crw>) -> bool
    ensures { IsTrue result ↔ (one.now ≡ other.now) }
{
    *one == *other
}

fn same_key(one: &Key, other: &Key) -> bool
    ensures { IsTrue result ↔ (one.now ≡ other.now) }
{
    *one == *other
}

fn same_instruction(one: &Instruction, other: &Instruction) -> bool
    ensures { IsTrue result ↔ (one.now ≡ other.now) }
{
    *one == *other
}

fn same_other_instruction(one: &OtherInstruction, other: &OtherInstruction) -> bool
    ensures { IsTrue result ↔ (one.now ≡ other.now) }
{
    *one == *other
}

fn same_answered(one: &KeptReport, other: &KeptReport) -> bool
    ensures { IsTrue result ↔ (one.now ≡ other.now) }
{
    *one == *other
}

fn same_act(one: &UnitAct, other: &UnitAct) -> bool
    ensures { IsTrue result ↔ (one.now ≡ other.now) }
{
    *one == *other
}

/// Whether both are kept as the same event.
pub fn same_event(one: &KeptEvent, other: &KeptEvent) -> bool
    ensures { IsTrue result ↔ (one.now ≡ other.now) }
{
    match (one, other) {
        (
            Event::Put {
                address: a,
                bytes: x,
            },
            Event::Put {
                address: b,
                bytes: y,
            },
        ) => *a == *b && *x == *y,
        (Event::SetKey { address: a, key: x }, Event::SetKey { address: b, key: y }) => *a == *b
            && same_key(x, y),
        (Event::SetPrefix { cpu: a, address: x }, Event::SetPrefix { cpu: b, address: y }) => *a
            == *b
            && *x == *y,
        (
            Event::Show {
                address: a,
                length: x,
            },
            Event::Show {
                address: b,
                length: y,
            },
        ) => *a == *b && *x == *y,
        (
            Event::Execute {
                cpu: a,
                instruction: x,
            },
            Event::Execute {
                cpu: b,
                instruction: y,
            },
        ) => *a == *b && same_instruction(x, y),
        (
            Event::ExecuteOther {
                cpu: a,
                instruction: x,
            },
            Event::ExecuteOther {
                cpu: b,
                instruction: y,
            },
        ) => *a == *b && same_other_instruction(x, y),
        (Event::Choose { subchannel: a }, Event::Choose { subchannel: b }) => *a == *b,
        (
            Event::Up {
                subchannel: a,
                path: x,
            },
            Event::Up {
                subchannel: b,
                path: y,
            },
        ) => *a == *b && *x == *y,
        (
            Event::Down {
                subchannel: a,
                path: x,
            },
            Event::Down {
                subchannel: b,
                path: y,
            },
        ) => *a == *b && *x == *y,
        (Event::Report { unit: a, report: x }, Event::Report { unit: b, report: y }) => *a == *b
            && same_answered(x, y),
        (Event::Act { unit: a, act: x }, Event::Act { unit: b, act: y }) => *a == *b
            && same_act(x, y),
        (Event::Restart { unit: a }, Event::Restart { unit: b }) => *a == *b,
        (Event::PathDown { chpid: a }, Event::PathDown { chpid: b }) => *a == *b,
        (Event::PathUp { chpid: a }, Event::PathUp { chpid: b }) => *a == *b,
        (Event::PathReset { chpid: a }, Event::PathReset { chpid: b }) => *a == *b,
        (Event::SystemReset, Event::SystemReset) => true,
        _ => false,
    }
}

/// Whether both are kept as the same reply.
pub fn same_reply(one: &KeptReply, other: &KeptReply) -> bool
    ensures { IsTrue result ↔ (one.now ≡ other.now) }
{
    match (one, other) {
        (Reply::Done, Reply::Done) => true,
        (Reply::Shown { bytes: a }, Reply::Shown { bytes: b }) => *a == *b,
        (Reply::Code(a), Reply::Code(b)) => same_answer(a, b),
        (Reply::Status { answer: a, scsw: x }, Reply::Status { answer: b, scsw: y }) => same_answer(
            a, b,
        ) && same_scsw(x, y),
        (Reply::Interruption(a), Reply::Interruption(b)) => same_interruption(a, b),
        (Reply::PathReset(a), Reply::PathReset(b)) => *a == *b,
        (Reply::ChannelReport(a), Reply::ChannelReport(b)) => same_report(a, b),
        (Reply::Paths { engaged: a }, Reply::Paths { engaged: b }) => *a == *b,
        (
            Reply::Offered {
                path: p,
                resumed: r,
                number: t,
            },
            Reply::Offered {
                path: q,
                resumed: s,
                number: u,
            },
        ) => *p == *q && *r == *s && *t == *u,
        (Reply::ResetSent { path: p, number: t }, Reply::ResetSent { path: q, number: u }) => *p
            == *q
            && *t == *u,
        (Reply::HaltSent { path: p, number: t }, Reply::HaltSent { path: q, number: u }) => *p == *q
            && *t == *u,
        (Reply::Pending, Reply::Pending) => true,
        (Reply::Idle, Reply::Idle) => true,
        (
            Reply::Up {
                taken: t,
                signal: a,
                sent: x,
            },
            Reply::Up {
                taken: u,
                signal: b,
                sent: y,
            },
        ) => *t == *u && same_up(a, b) && same_sent_down(x, y),
        (
            Reply::Down {
                taken: t,
                signal: a,
                sent: x,
            },
            Reply::Down {
                taken: u,
                signal: b,
                sent: y,
            },
        ) => *t == *u && same_down(a, b) && same_sent_up(x, y),
        _ => false,
    }
}
