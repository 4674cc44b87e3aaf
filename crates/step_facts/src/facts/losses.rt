//! What was lost on the wires.

ghost use Rattle.std.specs.Prelude.{◌≡◌, ℕ, List, false, true, OnErr, OnOk};
ghost use Rattle.chan_events.specs.Events.{event_in};
ghost use Rattle.step_facts.specs.Moves as spec;
ghost use Rattle.step_facts.specs.Told.{OnlyMoved};

use crate::facts::moves::{WIRE_ROOM, wire_of};
use crate::step::{Step, StepFacts};
use chan_events::event::{Event, KeptEvent};
use chan_model::names::Path;
use machine::looks::Looks;
use machine_sight::waiting::is_past;
use memory::Supply;
use std::alloc::AllocError;
use step_records::parties::word_of;
use step_records::record::{Moved, Way, Wire};
use wires::Wires;

/// Whether an event may lose what waits on wires: a path goes down or is reset, or the subsystem is.
fn loses(event: &KeptEvent) -> bool
    ensures { (bytes : List ℕ) → spec.is_told_by_reply (event_in event.now bytes) ≡ true → result ≡ false }
{
    matches!(
        event,
        Event::PathDown { .. } | Event::PathReset { .. } | Event::SystemReset
    )
}

/// The signals that were lost on the wires: what waited before and waits no more.
pub(crate) fn add_lost<S: Supply, L: Looks>(
    supply: &mut S,
    step: &Step<'_>,
    looks: &L,
    facts: &mut StepFacts,
) -> Result<(), AllocError>
    ensures only { OnlyMoved facts.old facts.new }
    ensures none { spec.is_told_by_reply step.now.event.now ≡ true → facts.new ≡ facts.old }
    ensures unrefused { OnOk result (S.refused supply.new ≡ S.refused supply.old) }
    ensures memory { OnErr result (S.refused supply.new ≡ true) }
{
    if loses(step.event().0) {
        add_all_lost(supply, step, looks, facts)
    } else {
        Ok(())
    }
}

/// Those of all subchannels.
fn add_all_lost<S: Supply, L: Looks>(
    supply: &mut S,
    step: &Step<'_>,
    looks: &L,
    facts: &mut StepFacts,
) -> Result<(), AllocError>
    ensures only { OnlyMoved facts.old facts.new }
    ensures unrefused { OnOk result (S.refused supply.new ≡ S.refused supply.old) }
    ensures memory { OnErr result (S.refused supply.new ≡ true) }
{
    for subchannel in 0..step.parties.subchannels.len() {
        let word = word_of(step.parties.subchannels[subchannel].id);
        if let Some(sub) = looks.subchannel(word) {
            add_lost_of(supply, step, subchannel, &sub.wires, facts)?;
        }
    }
    Ok(())
}

/// Those of a subchannel.
fn add_lost_of<S: Supply>(
    supply: &mut S,
    step: &Step<'_>,
    subchannel: usize,
    wires: &Wires,
    facts: &mut StepFacts,
) -> Result<(), AllocError>
    ensures only { OnlyMoved facts.old facts.new }
    ensures unrefused { OnOk result (S.refused supply.new ≡ S.refused supply.old) }
    ensures memory { OnErr result (S.refused supply.new ≡ true) }
{
    for index in 0..8u32 {
        if let Some(path) = Path::new(index) {
            add_lost_on(
                supply,
                step,
                &wire_of(subchannel, path, Way::Down),
                wires,
                facts,
            )?;
            add_lost_on(
                supply,
                step,
                &wire_of(subchannel, path, Way::Up),
                wires,
                facts,
            )?;
        }
    }
    Ok(())
}

/// How many signals wait on a wire.
fn count_on(wires: &Wires, wire: &Wire) -> usize {
    for count in 0..WIRE_ROOM {
        if is_past(wires, wire.way, wire.path, count) {
            return count;
        }
    }
    WIRE_ROOM
}

/// Those of a wire: the oldest, as many as wait no more.
fn add_lost_on<S: Supply>(
    supply: &mut S,
    step: &Step<'_>,
    wire: &Wire,
    wires: &Wires,
    facts: &mut StepFacts,
) -> Result<(), AllocError>
    ensures only { OnlyMoved facts.old facts.new }
    ensures unrefused { OnOk result (S.refused supply.new ≡ S.refused supply.old) }
    ensures memory { OnErr result (S.refused supply.new ≡ true) }
{
    let before = step.waiting.signals(wire);
    let left = count_on(wires, wire);
    for index in 0..before.len() {
        if left < before.len() - index {
            facts.push_signal(supply, *wire, Moved::Lost, before[index].copy())?;
        }
    }
    Ok(())
}
