//! What moved on the wires.

ghost use Rattle.machine_sight.specs.declared.looking.SightFault.TheVariants as fault_spec;
ghost use Rattle.std.specs.Prelude.{◌≡◌, ◌≢◌, ◌++◌, ◌∷◌, [], ℕ, Some, IfOk, OnOk, false, true, OnErr, Err};
ghost use Rattle.chan_model.specs.Lent.{lent_down, lent_up};
ghost use Rattle.chan_model.specs.declared.signal.Down.TheVariants as down_spec;
ghost use Rattle.step_facts.specs.Moves as spec;
ghost use Rattle.step_facts.specs.Told.{OnlyMoved, with_moves};
ghost use Rattle.step_records.specs.declared.record.Fact.TheVariants as fact_spec;
ghost use Rattle.step_records.specs.declared.record.Signal.TheVariants as signal_spec;

use crate::step::{Step, StepFacts};
use chan_events::event::Event;
use chan_events::reply::Reply;
use chan_model::lent::{LentDown, LentUp, PlainDown};
use chan_model::names::Path;
use chan_model::signal::Down;
use machine::looks::Looks;
use machine_sight::looking::SightFault;
use machine_sight::waiting::{is_past, signal_at};
use memory::Supply;
use std::alloc::AllocError;
use step_records::parties::word_of;
use step_records::record::{Moved, Signal, Way, Wire};
use wires::Wires;

/// How many signals a wire holds at most.
pub(crate) const WIRE_ROOM: usize = 8;

/// The wire of a path of a subchannel. Neither need be there.
fn wire_at(subchannel: Option<usize>, path: u32, way: Way) -> Result<Wire, SightFault>
    ensures named { IfOk result (λ wire. subchannel ≡ Some wire.subchannel) }
    ensures path { IfOk result (λ wire. wire.path ≡ path) }
    ensures way { IfOk result (λ wire. wire.way ≡ way) }
    ensures memory { result ≢ Err fault_spec.NoMemory }
{
    match (subchannel, Path::new(path)) {
        (Some(subchannel), Some(path)) => Ok(Wire {
            subchannel,
            path,
            way,
        }),
        _ => Err(SightFault::NotThere),
    }
}

/// A signal down that moved.
#[inline(never)]
fn push_down<S: Supply>(
    supply: &mut S,
    wire: Wire,
    moved: Moved,
    signal: &LentDown<'_>,
    facts: &mut StepFacts,
) -> Result<(), AllocError>
    ensures told { OnOk result (facts.new ≡ with_moves facts.old (fact_spec.Signal wire moved (signal_spec.Down (lent_down signal.now)) ∷ [])) }
    ensures only { OnlyMoved facts.old facts.new }
    ensures unrefused { OnOk result (S.refused supply.new ≡ S.refused supply.old) }
    ensures memory { OnErr result (S.refused supply.new ≡ true) }
{
    facts.push_signal(supply, wire, moved, Signal::Down(signal.own()))
}

/// A signal up that moved.
#[inline(never)]
fn push_up<S: Supply>(
    supply: &mut S,
    wire: Wire,
    moved: Moved,
    signal: &LentUp<'_>,
    facts: &mut StepFacts,
) -> Result<(), AllocError>
    ensures told { OnOk result (facts.new ≡ with_moves facts.old (fact_spec.Signal wire moved (signal_spec.Up (lent_up signal.now)) ∷ [])) }
    ensures only { OnlyMoved facts.old facts.new }
    ensures unrefused { OnOk result (S.refused supply.new ≡ S.refused supply.old) }
    ensures memory { OnErr result (S.refused supply.new ≡ true) }
{
    facts.push_signal(supply, wire, moved, Signal::Up(signal.own()))
}

/// The signal that was met at its end of the wire that the event names.
#[tactic(auto, using(crate::proofs::Telling::no_moves, crate::proofs::Telling::same_some))]
pub(crate) fn add_met<S: Supply>(
    supply: &mut S,
    step: &Step<'_>,
    facts: &mut StepFacts,
) -> Result<(), SightFault>
    ensures told { OnOk result ((sub : ℕ) → step.now.subchannel ≡ Some sub → facts.new ≡ with_moves facts.old (spec.met_of sub step.now.event.now step.now.reply.now)) }
    ensures only { OnOk result (OnlyMoved facts.old facts.new) }
    ensures unrefused { OnOk result (S.refused supply.new ≡ S.refused supply.old) }
    ensures memory { result ≡ Err fault_spec.NoMemory → S.refused supply.new ≡ true }
{
    match step.event() {
        (Event::Up { path, .. }, _) => match step.reply() {
            (Reply::Up { signal, taken, .. }, bytes) => {
                let wire = wire_at(step.subchannel, *path, Way::Up)?;
                push_up(supply, wire, Moved::met(*taken), &signal.lend(bytes), facts)?;
                Ok(())
            }
            _ => Ok(()),
        },
        (Event::Down { path, .. }, _) => match step.reply() {
            (Reply::Down { signal, taken, .. }, bytes) => {
                let wire = wire_at(step.subchannel, *path, Way::Down)?;
                push_down(supply, wire, Moved::met(*taken), &signal.lend(bytes), facts)?;
                Ok(())
            }
            _ => Ok(()),
        },
        _ => Ok(()),
    }
}

/// The wire of a path of a subchannel.
pub(crate) fn wire_of(subchannel: usize, path: Path, way: Way) -> Wire
    ensures { result ≡ record { subchannel = subchannel; path = path; way = way } }
{
    Wire {
        subchannel,
        path,
        way,
    }
}

/// The signal that was sent: that of the reply, or for a report and an act of a unit that which is new on a wire.
#[tactic(auto, using(crate::proofs::Telling::no_moves, crate::proofs::Telling::same_some))]
pub(crate) fn add_sent<S: Supply, L: Looks>(
    supply: &mut S,
    step: &Step<'_>,
    looks: &L,
    facts: &mut StepFacts,
) -> Result<(), SightFault>
    ensures told { OnOk result ((sub : ℕ) → step.now.subchannel ≡ Some sub → spec.is_told_by_reply step.now.event.now ≡ true →
        facts.new ≡ with_moves facts.old (spec.sent_of step.now.before.now sub step.now.reply.now)) }
    ensures only { OnOk result (OnlyMoved facts.old facts.new) }
    ensures unrefused { OnOk result (S.refused supply.new ≡ S.refused supply.old) }
    ensures memory { result ≡ Err fault_spec.NoMemory → S.refused supply.new ≡ true }
{
    match step.event() {
        (Event::Report { unit, .. } | Event::Act { unit, .. }, _) => {
            add_new(supply, step, looks, *unit as usize, facts)?;
            Ok(())
        }
        (Event::Choose { .. } | Event::Up { .. } | Event::Down { .. }, _) => match step.subchannel {
            Some(subchannel) => {
                add_replied(supply, step, subchannel, facts)?;
                Ok(())
            }
            None => Err(SightFault::NotThere),
        },
        _ => Ok(()),
    }
}

/// The signal that the reply says was sent for a subchannel.
#[tactic(auto, using(crate::proofs::Telling::no_moves))]
fn add_replied<S: Supply>(
    supply: &mut S,
    step: &Step<'_>,
    subchannel: usize,
    facts: &mut StepFacts,
) -> Result<(), AllocError>
    ensures told { OnOk result (facts.new ≡ with_moves facts.old (spec.sent_of step.now.before.now subchannel step.now.reply.now)) }
    ensures only { OnlyMoved facts.old facts.new }
    ensures unrefused { OnOk result (S.refused supply.new ≡ S.refused supply.old) }
    ensures memory { OnErr result (S.refused supply.new ≡ true) }
{
    match step.reply() {
        (Reply::Offered { number, path, .. }, _) => {
            send_select(supply, step, subchannel, *number, *path, facts)
        }
        (Reply::ResetSent { number, path }, _) => {
            send_reset(supply, step, subchannel, *number, *path, facts)
        }
        (Reply::HaltSent { number, path }, _) => {
            send_halt(supply, step, subchannel, *number, *path, facts)
        }
        (
            Reply::Up {
                signal,
                sent: Some(on),
                ..
            },
            bytes,
        ) => {
            let sent = on.signal.lend(&bytes[signal.length()..]);
            send_down(supply, step, subchannel, on.path, &sent, facts)
        }
        (
            Reply::Down {
                signal,
                sent: Some(on),
                ..
            },
            bytes,
        ) => {
            let sent = on.signal.lend(&bytes[signal.length()..]);
            send_up(supply, step, subchannel, on.path, &sent, facts)
        }
        _ => Ok(()),
    }
}

/// A program that was offered.
#[inline(never)]
fn send_select<S: Supply>(
    supply: &mut S,
    step: &Step<'_>,
    subchannel: usize,
    number: u64,
    path: Path,
    facts: &mut StepFacts,
) -> Result<(), AllocError>
    ensures told { OnOk result (facts.new ≡ with_moves facts.old (spec.sent_down step.now.before.now subchannel path (down_spec.Select number))) }
    ensures only { OnlyMoved facts.old facts.new }
    ensures unrefused { OnOk result (S.refused supply.new ≡ S.refused supply.old) }
    ensures memory { OnErr result (S.refused supply.new ≡ true) }
{
    let signal = PlainDown::of(Down::Select { number });
    send_down(supply, step, subchannel, path, &signal.lend(), facts)
}

/// A Reset.
#[inline(never)]
fn send_reset<S: Supply>(
    supply: &mut S,
    step: &Step<'_>,
    subchannel: usize,
    number: u64,
    path: Path,
    facts: &mut StepFacts,
) -> Result<(), AllocError>
    ensures told { OnOk result (facts.new ≡ with_moves facts.old (spec.sent_down step.now.before.now subchannel path (down_spec.Reset number (spec.known_restarts step.now.before.now subchannel)))) }
    ensures only { OnlyMoved facts.old facts.new }
    ensures unrefused { OnOk result (S.refused supply.new ≡ S.refused supply.old) }
    ensures memory { OnErr result (S.refused supply.new ≡ true) }
{
    let restarts = known_restarts(step, subchannel);
    let signal = PlainDown::of(Down::Reset { number, restarts });
    send_down(supply, step, subchannel, path, &signal.lend(), facts)
}

/// A Halt.
#[inline(never)]
fn send_halt<S: Supply>(
    supply: &mut S,
    step: &Step<'_>,
    subchannel: usize,
    number: u64,
    path: Path,
    facts: &mut StepFacts,
) -> Result<(), AllocError>
    ensures told { OnOk result (facts.new ≡ with_moves facts.old (spec.sent_down step.now.before.now subchannel path (down_spec.Halt number))) }
    ensures only { OnlyMoved facts.old facts.new }
    ensures unrefused { OnOk result (S.refused supply.new ≡ S.refused supply.old) }
    ensures memory { OnErr result (S.refused supply.new ≡ true) }
{
    let signal = PlainDown::of(Down::Halt { number });
    send_down(supply, step, subchannel, path, &signal.lend(), facts)
}

/// A signal that was sent down.
fn send_down<S: Supply>(
    supply: &mut S,
    step: &Step<'_>,
    subchannel: usize,
    path: Path,
    signal: &LentDown<'_>,
    facts: &mut StepFacts,
) -> Result<(), AllocError>
    ensures told { OnOk result (facts.new ≡ with_moves facts.old (spec.sent_down step.now.before.now subchannel path (lent_down signal.now))) }
    ensures only { OnlyMoved facts.old facts.new }
    ensures unrefused { OnOk result (S.refused supply.new ≡ S.refused supply.old) }
    ensures memory { OnErr result (S.refused supply.new ≡ true) }
{
    let moved = Moved::sent(step.before.is_available(subchannel, path));
    let wire = wire_of(subchannel, path, Way::Down);
    push_down(supply, wire, moved, signal, facts)
}

/// A signal that was sent up.
fn send_up<S: Supply>(
    supply: &mut S,
    step: &Step<'_>,
    subchannel: usize,
    path: Path,
    signal: &LentUp<'_>,
    facts: &mut StepFacts,
) -> Result<(), AllocError>
    ensures told { OnOk result (facts.new ≡ with_moves facts.old (spec.sent_up step.now.before.now subchannel path (lent_up signal.now))) }
    ensures only { OnlyMoved facts.old facts.new }
    ensures unrefused { OnOk result (S.refused supply.new ≡ S.refused supply.old) }
    ensures memory { OnErr result (S.refused supply.new ≡ true) }
{
    let moved = Moved::sent(step.before.is_available(subchannel, path));
    let wire = wire_of(subchannel, path, Way::Up);
    push_up(supply, wire, moved, signal, facts)
}

/// The restart count of its unit that a subchannel knew before.
fn known_restarts(step: &Step<'_>, subchannel: usize) -> u64
    ensures { result ≡ spec.known_restarts step.now.before.now subchannel }
{
    match step.before.subchannels.as_slice().get(subchannel) {
        Some(sub) => sub.rest().hold.known_restarts,
        None => 0,
    }
}

/// The signals that are new on the wires up from a unit.
fn add_new<S: Supply, L: Looks>(
    supply: &mut S,
    step: &Step<'_>,
    looks: &L,
    unit: usize,
    facts: &mut StepFacts,
) -> Result<(), AllocError>
    ensures only { OnlyMoved facts.old facts.new }
    ensures unrefused { OnOk result (S.refused supply.new ≡ S.refused supply.old) }
    ensures memory { OnErr result (S.refused supply.new ≡ true) }
{
    for subchannel in 0..step.parties.subchannels.len() {
        let setup = &step.parties.subchannels[subchannel];
        if usize::from(setup.unit) == unit {
            if let Some(sub) = looks.subchannel(word_of(setup.id)) {
                add_new_of(supply, step, subchannel, &sub.wires, facts)?;
            }
        }
    }
    Ok(())
}

/// Those of a subchannel.
fn add_new_of<S: Supply>(
    supply: &mut S,
    step: &Step<'_>,
    subchannel: usize,
    wires: &Wires,
    facts: &mut StepFacts,
) -> Result<(), AllocError>
    ensures only { OnlyMoved facts.old facts.new }
    ensures unrefused { OnOk result (S.refused supply.new ≡ S.refused supply.old) }
    ensures memory { OnErr result (S.refused supply.new ≡ true) }
{
    for index in 0..8u32 {
        if let Some(path) = Path::new(index) {
            add_new_on(
                supply,
                step,
                &wire_of(subchannel, path, Way::Up),
                wires,
                facts,
            )?;
        }
    }
    Ok(())
}

/// Those of a wire: the latest, as many as wait more.
fn add_new_on<S: Supply>(
    supply: &mut S,
    step: &Step<'_>,
    wire: &Wire,
    wires: &Wires,
    facts: &mut StepFacts,
) -> Result<(), AllocError>
    ensures only { OnlyMoved facts.old facts.new }
    ensures unrefused { OnOk result (S.refused supply.new ≡ S.refused supply.old) }
    ensures memory { OnErr result (S.refused supply.new ≡ true) }
{
    for index in step.waiting.signals(wire).len()..WIRE_ROOM {
        if is_past(wires, wire.way, wire.path, index) {
            return Ok(());
        }
        push_new(supply, wire, wires, index, facts)?;
    }
    Ok(())
}

/// The signal of this index, which is new on a wire.
#[inline(never)]
fn push_new<S: Supply>(
    supply: &mut S,
    wire: &Wire,
    wires: &Wires,
    index: usize,
    facts: &mut StepFacts,
) -> Result<(), AllocError>
    ensures only { OnlyMoved facts.old facts.new }
    ensures unrefused { OnOk result (S.refused supply.new ≡ S.refused supply.old) }
    ensures memory { OnErr result (S.refused supply.new ≡ true) }
{
    match signal_at(wires, wire.way, wire.path, index) {
        Some(signal) => facts.push_signal(supply, *wire, Moved::Sent, signal),
        None => Ok(()),
    }
}
