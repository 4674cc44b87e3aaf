//! How units changed, and what their devices did.

ghost use Rattle.std.specs.Prelude.{◌≡◌, ◌≤◌, OnErr, OnOk, length, true};
ghost use Rattle.chan_model.specs.Reports.{answer_length};

use crate::step::{Step, StepFacts};
use chan_events::event::Event;
use chan_events::reply::Reply;
use chan_model::chunk::{Chunk, ChunkLength};
use chan_model::report::DeviceAnswer;
use chan_model::signal::Down;
use chan_model::unit_state::{Connection, CurrentCommand, Own, Progress, UnitState};
use memory::Supply;
use std::alloc::AllocError;
use step_records::parties::Parties;
use step_records::record::{CommandAtHand, DeviceAct, Fact, Holder, Owner, Place};

fn place_of(connection: Connection) -> Place {
    match connection {
        Connection::On { path, .. } => Place::On(path),
        Connection::Ask { path, .. } => Place::Asks(path),
        Connection::Away { .. } => Place::Away,
    }
}

/// Whom a unit is held by, with the greatest number that it took of either side.
pub fn owner_of(parties: &Parties, unit: usize, seen: &UnitState) -> Owner {
    let holder = match seen.own {
        Own::Idle => None,
        Own::Owned {
            side,
            number,
            connection,
        } => match parties.subchannel_of(unit, side) {
            Some(subchannel) => Some(Holder {
                number,
                subchannel,
                place: place_of(connection),
            }),
            None => None,
        },
    };
    Owner {
        holder,
        floor: seen.first.floor.max(seen.second.floor),
    }
}

/// The command that a unit has at hand; None where it ended.
pub fn command_of(seen: &UnitState) -> Option<CommandAtHand> {
    match &seen.current {
        Some(
            CurrentCommand {
                progress: Progress::Ended,
                ..
            },
        )
        | None => None,
        Some(current) => Some(CommandAtHand {
            number: seen.last_command,
            code: current.code,
        }),
    }
}

/// The units whose owner, floor or command changed, and those that learned that their attention was taken.
pub(crate) fn add_units<S: Supply>(
    supply: &mut S,
    step: &Step<'_>,
    facts: &mut StepFacts,
) -> Result<(), AllocError>
    ensures kept { facts.new ≡ facts.old }
    ensures unrefused { OnOk result (S.refused supply.new ≡ S.refused supply.old) }
    ensures memory { OnErr result (S.refused supply.new ≡ true) }
{
    let count = step.before.units.len();
    for unit in 0..count.min(step.after.units.len()) {
        let before = owner_of(step.parties, unit, &step.before.units[unit]);
        let after = owner_of(step.parties, unit, &step.after.units[unit]);
        if before != after {
            push_owner(supply, unit, before, after, facts)?;
        }
        add_command(
            supply,
            unit,
            &step.before.units[unit],
            &step.after.units[unit],
            facts,
        )?;
    }
    add_attention(supply, step, facts)
}

#[inline(never)]
fn push_owner<S: Supply>(
    supply: &mut S,
    unit: usize,
    before: Owner,
    after: Owner,
    facts: &mut StepFacts,
) -> Result<(), AllocError>
    ensures kept { facts.new ≡ facts.old }
    ensures unrefused { OnOk result (S.refused supply.new ≡ S.refused supply.old) }
    ensures memory { OnErr result (S.refused supply.new ≡ true) }
{
    facts.push(
        supply,
        Fact::Owner {
            unit,
            before,
            after,
        },
    )
}

/// The command at hand of a unit, where it changed.
fn add_command<S: Supply>(
    supply: &mut S,
    unit: usize,
    before: &UnitState,
    after: &UnitState,
    facts: &mut StepFacts,
) -> Result<(), AllocError>
    ensures kept { facts.new ≡ facts.old }
    ensures unrefused { OnOk result (S.refused supply.new ≡ S.refused supply.old) }
    ensures memory { OnErr result (S.refused supply.new ≡ true) }
{
    let before = command_of(before);
    let after = command_of(after);
    if before == after {
        return Ok(());
    }
    push_command(supply, unit, before, after, facts)
}

#[inline(never)]
fn push_command<S: Supply>(
    supply: &mut S,
    unit: usize,
    before: Option<CommandAtHand>,
    after: Option<CommandAtHand>,
    facts: &mut StepFacts,
) -> Result<(), AllocError>
    ensures kept { facts.new ≡ facts.old }
    ensures unrefused { OnOk result (S.refused supply.new ≡ S.refused supply.old) }
    ensures memory { OnErr result (S.refused supply.new ≡ true) }
{
    facts.push(
        supply,
        Fact::Command {
            unit,
            before,
            after,
        },
    )
}

/// The unit that learned that its attention was taken.
fn add_attention<S: Supply>(
    supply: &mut S,
    step: &Step<'_>,
    facts: &mut StepFacts,
) -> Result<(), AllocError>
    ensures kept { facts.new ≡ facts.old }
    ensures unrefused { OnOk result (S.refused supply.new ≡ S.refused supply.old) }
    ensures memory { OnErr result (S.refused supply.new ≡ true) }
{
    let (
        Reply::Down {
            signal: Down::Got { attention },
            taken: true,
            ..
        },
        Some(subchannel),
    ) = (step.reply().0, step.subchannel)
    else {
        return Ok(());
    };
    match step.parties.subchannels.as_slice().get(subchannel) {
        Some(setup) => push_attention(supply, usize::from(setup.unit), *attention, facts),
        None => Ok(()),
    }
}

#[inline(never)]
fn push_attention<S: Supply>(
    supply: &mut S,
    unit: usize,
    attention: u64,
    facts: &mut StepFacts,
) -> Result<(), AllocError>
    ensures kept { facts.new ≡ facts.old }
    ensures unrefused { OnOk result (S.refused supply.new ≡ S.refused supply.old) }
    ensures memory { OnErr result (S.refused supply.new ≡ true) }
{
    facts.push(supply, Fact::AttentionTaken { unit, attention })
}

/// The bytes of a write that a device absorbed: so many of those that it had.
fn absorbed(step: &Step<'_>, unit: usize, count: u16) -> Chunk {
    match step.before.units.as_slice().get(unit) {
        Some(
            UnitState {
                current: Some(
                    CurrentCommand {
                        unabsorbed: Some(bytes),
                        ..
                    },
                ),
                ..
            },
        ) => {
            let bytes = bytes.as_slice();
            Chunk::of(&bytes[..bytes.len().min(usize::from(count))])
        }
        _ => Chunk::new(),
    }
}

/// Whether a unit that began a command asks for the bytes of a write.
fn asks(step: &Step<'_>, unit: usize) -> bool {
    match step.after.units.as_slice().get(unit) {
        Some(
            UnitState {
                current: Some(current),
                ..
            },
        ) => current.unanswered.is_some(),
        _ => false,
    }
}

/// What a device did before its unit sent a signal: bytes that moved, or nothing yet; or that it was restarted.
pub(crate) fn add_first_acts<S: Supply>(
    supply: &mut S,
    step: &Step<'_>,
    facts: &mut StepFacts,
) -> Result<(), AllocError>
    ensures kept { facts.new ≡ facts.old }
    ensures unrefused { OnOk result (S.refused supply.new ≡ S.refused supply.old) }
    ensures memory { OnErr result (S.refused supply.new ≡ true) }
{
    match step.event() {
        (Event::Report { unit, report }, bytes) => {
            add_first_act(supply, step, *unit as usize, (&report.answer, bytes), facts)
        }
        (Event::Restart { unit }, _) => {
            push_act(supply, *unit as usize, DeviceAct::Restarted, facts)
        }
        _ => Ok(()),
    }
}

/// A device did this.
#[inline(never)]
fn push_act<S: Supply>(
    supply: &mut S,
    unit: usize,
    act: DeviceAct,
    facts: &mut StepFacts,
) -> Result<(), AllocError>
    ensures kept { facts.new ≡ facts.old }
    ensures unrefused { OnOk result (S.refused supply.new ≡ S.refused supply.old) }
    ensures memory { OnErr result (S.refused supply.new ≡ true) }
{
    facts.push(supply, Fact::Device { unit, act })
}

/// What a device answered before its unit sent a signal.
#[inline(never)]
fn add_first_act<S: Supply>(
    supply: &mut S,
    step: &Step<'_>,
    unit: usize,
    answer: (&DeviceAnswer<ChunkLength>, &[u8]),
    facts: &mut StepFacts,
) -> Result<(), AllocError>
    requires { answer_length answer.0.now ≤ length answer.1.now }
    ensures kept { facts.new ≡ facts.old }
    ensures unrefused { OnOk result (S.refused supply.new ≡ S.refused supply.old) }
    ensures memory { OnErr result (S.refused supply.new ≡ true) }
{
    match first_act(step, unit, answer) {
        Some(act) => push_act(supply, unit, act, facts),
        None => Ok(()),
    }
}

fn first_act(
    step: &Step<'_>,
    unit: usize,
    answer: (&DeviceAnswer<ChunkLength>, &[u8]),
) -> Option<DeviceAct>
    requires { answer_length answer.0.now ≤ length answer.1.now }
{
    match answer.0 {
        DeviceAnswer::Begins if asks(step, unit) => None,
        DeviceAnswer::Begins => Some(DeviceAct::Nothing),
        DeviceAnswer::Absorbed(count) => Some(DeviceAct::Absorbed(absorbed(step, unit, *count))),
        DeviceAnswer::Supplied(count) => Some(DeviceAct::Gave(Chunk::first(*count, answer.1))),
        DeviceAnswer::Again => Some(DeviceAct::Again),
        DeviceAnswer::Ended { .. } => None,
    }
}

/// What a device did as its unit sent a signal: it asks for the bytes of a write, or ended the command.
pub(crate) fn add_last_acts<S: Supply>(
    supply: &mut S,
    step: &Step<'_>,
    facts: &mut StepFacts,
) -> Result<(), AllocError>
    ensures kept { facts.new ≡ facts.old }
    ensures unrefused { OnOk result (S.refused supply.new ≡ S.refused supply.old) }
    ensures memory { OnErr result (S.refused supply.new ≡ true) }
{
    match step.event() {
        (Event::Report { unit, report }, _) => {
            add_last_act(supply, step, *unit as usize, &report.answer, facts)
        }
        _ => Ok(()),
    }
}

/// What a device answered as its unit sent a signal.
#[inline(never)]
fn add_last_act<S: Supply>(
    supply: &mut S,
    step: &Step<'_>,
    unit: usize,
    answer: &DeviceAnswer<ChunkLength>,
    facts: &mut StepFacts,
) -> Result<(), AllocError>
    ensures kept { facts.new ≡ facts.old }
    ensures unrefused { OnOk result (S.refused supply.new ≡ S.refused supply.old) }
    ensures memory { OnErr result (S.refused supply.new ≡ true) }
{
    match answer {
        DeviceAnswer::Begins if asks(step, unit) => {
            push_act(supply, unit, DeviceAct::Asks, facts)
        }
        DeviceAnswer::Ended { status, more } => push_act(
            supply,
            unit,
            DeviceAct::Ended {
                status: *status,
                more: *more,
            },
            facts,
        ),
        _ => Ok(()),
    }
}
