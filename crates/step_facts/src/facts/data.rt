//! The blocks of a program that took control, and the bytes that moved between storage and the wires.

ghost use Rattle.std.specs.Prelude.{◌≡◌, ◌≤◌, length, IfSome, OnErr, OnOk, true};

use crate::step::{Step, StepFacts};
use ccw_codec::Format;
use ccw_walk::program::Latest;
use chan_events::reply::Reply;
use chan_model::chunk::{Bytes, Chunk};
use chan_model::signal::{Down, Load, Up};
use data_move::transfer::Transfer;
use functions::state::PackedState;
use memory::Supply;
use std::alloc::AllocError;
use step_records::record::{Direction, Fact};
use subchannel_model::state::ActiveProgram;

/// The program that holds the device of the subchannel that a step names, before it and after it.
#[derive(Drop)]
struct AtWork<'a> {
    subchannel: usize,
    before: Option<&'a ActiveProgram>,
    after: Option<&'a ActiveProgram>,
}

/// A program that holds the device, lent.
fn begun_of(seen: &PackedState) -> Option<&ActiveProgram> {
    match &seen.rest().begun {
        Some(begun) => Some(begun),
        None => None,
    }
}

fn at_work<'a>(step: &Step<'a>) -> Option<AtWork<'a>> {
    let subchannel = step.subchannel?;
    let before = step.before.subchannels.as_slice().get(subchannel)?;
    let after = step.after.subchannels.as_slice().get(subchannel)?;
    Some(AtWork {
        subchannel,
        before: begun_of(before),
        after: begun_of(after),
    })
}

/// What a signal brought that was taken: how many bytes of a write were absorbed, or the bytes of a read.
fn brought<'a>(step: &'a Step<'_>) -> Option<Load<Bytes<'a>>> {
    match step.reply() {
        (
            Reply::Up {
                signal: Up::Data { load, .. },
                taken: true,
                ..
            },
            bytes,
        ) => Some(load.lend(bytes)),
        _ => None,
    }
}

/// The bytes of a read that were stored, the block that took control, and the bytes of a write that were fetched.
pub(crate) fn add_data<S: Supply>(
    supply: &mut S,
    step: &Step<'_>,
    facts: &mut StepFacts,
) -> Result<(), AllocError>
    ensures kept { facts.new ≡ facts.old }
    ensures unrefused { OnOk result (S.refused supply.new ≡ S.refused supply.old) }
    ensures memory { OnErr result (S.refused supply.new ≡ true) }
{
    let Some(work) = at_work(step) else {
        return Ok(());
    };
    add_stored(supply, step, &work, facts)?;
    add_block(supply, step, &work, facts)?;
    add_fetched(supply, step, &work, facts)
}

/// Whether the last chunk that a program moved was refused by storage: a check was found by the step.
fn is_refused(work: &AtWork<'_>) -> bool {
    match (work.before, work.after) {
        (Some(before), Some(after)) => {
            before.transfer.fault.is_some()
                || after.transfer.moving.residual() == before.transfer.moving.residual()
                    && after.transfer.fault.is_some()
        }
        _ => true,
    }
}

/// The bytes of a read that were stored: as many as there was room for, where they are not skipped.
fn add_stored<S: Supply>(
    supply: &mut S,
    step: &Step<'_>,
    work: &AtWork<'_>,
    facts: &mut StepFacts,
) -> Result<(), AllocError>
    ensures kept { facts.new ≡ facts.old }
    ensures unrefused { OnOk result (S.refused supply.new ≡ S.refused supply.old) }
    ensures memory { OnErr result (S.refused supply.new ≡ true) }
{
    let (Some(Load::Bytes(bytes)), Some(before)) = (brought(step), work.before) else {
        return Ok(());
    };
    let Some(address) = before.transfer.moving.place() else {
        return Ok(());
    };
    let room = usize::from(before.transfer.moving.room());
    let bytes = bytes.as_slice();
    let stored = &bytes[..bytes.len().min(room)];
    if stored.is_empty() || is_refused(work) || !is_new_chunk(work) {
        return Ok(());
    }
    push_copy(
        supply,
        work.subchannel,
        Direction::Stored,
        (address, stored),
        facts,
    )
}

/// Bytes that moved, and the address of the first.
#[inline(never)]
fn push_copy<S: Supply>(
    supply: &mut S,
    subchannel: usize,
    direction: Direction,
    copied: (u32, &[u8]),
    facts: &mut StepFacts,
) -> Result<(), AllocError>
    requires { length copied.1.now ≤ 256 }
    ensures kept { facts.new ≡ facts.old }
    ensures unrefused { OnOk result (S.refused supply.new ≡ S.refused supply.old) }
    ensures memory { OnErr result (S.refused supply.new ≡ true) }
{
    facts.push(
        supply,
        Fact::Copy {
            subchannel,
            direction,
            address: copied.0,
            bytes: Chunk::of(copied.1),
        },
    )
}

/// Whether the step went on by a chunk.
fn is_new_chunk(work: &AtWork<'_>) -> bool {
    match (work.before, work.after) {
        (Some(before), Some(after)) => before.transfer.sequence != after.transfer.sequence,
        _ => false,
    }
}

/// The block that took control.
fn add_block<S: Supply>(
    supply: &mut S,
    step: &Step<'_>,
    work: &AtWork<'_>,
    facts: &mut StepFacts,
) -> Result<(), AllocError>
    ensures kept { facts.new ≡ facts.old }
    ensures unrefused { OnOk result (S.refused supply.new ≡ S.refused supply.old) }
    ensures memory { OnErr result (S.refused supply.new ≡ true) }
{
    let Some(after) = work.after else {
        return Ok(());
    };
    let Some(latest) = after.transfer.walk.latest() else {
        return Ok(());
    };
    let same_command = is_same_command(work);
    if same_command && is_same_block(step, work) {
        return Ok(());
    }
    push_block(
        supply,
        work.subchannel,
        &latest,
        (format_of(after), same_command),
        facts,
    )
}

/// A block that took control: its format, and whether it goes on with the data of the one before.
#[inline(never)]
fn push_block<S: Supply>(
    supply: &mut S,
    subchannel: usize,
    latest: &Latest,
    taken: (Format, bool),
    facts: &mut StepFacts,
) -> Result<(), AllocError>
    ensures kept { facts.new ≡ facts.old }
    ensures unrefused { OnOk result (S.refused supply.new ≡ S.refused supply.old) }
    ensures memory { OnErr result (S.refused supply.new ≡ true) }
{
    facts.push(
        supply,
        Fact::Ccw {
            subchannel,
            address: latest.address,
            format: taken.0,
            ccw: latest.ccw,
            goes_on: taken.1,
        },
    )
}

fn format_of(begun: &ActiveProgram) -> Format {
    if begun.program.orb.format_one {
        Format::One
    } else {
        Format::Zero
    }
}

/// Whether the command at work is that of before.
fn is_same_command(work: &AtWork<'_>) -> bool {
    match (work.before, work.after) {
        (Some(before), Some(after)) => {
            before.program.start == after.program.start
                && before.transfer.command == after.transfer.command
        }
        _ => false,
    }
}

/// Whether the block whose data is moved is that of before: it stands at the same address, and as much less of its count is to be
/// moved as a new chunk moved.
fn is_same_block(step: &Step<'_>, work: &AtWork<'_>) -> bool {
    match (work.before, work.after) {
        (Some(before), Some(after)) => {
            before.transfer.walk.latest() == after.transfer.walk.latest()
                && is_moved_on(step, work, &before.transfer, &after.transfer)
        }
        _ => false,
    }
}

/// How many bytes a load stands for.
fn moved_by(load: &Load<Bytes<'_>>) -> usize {
    match load {
        Load::Absorbed(count) => usize::from(*count),
        Load::Bytes(bytes) => bytes.as_slice().len(),
    }
}

fn is_moved_on(step: &Step<'_>, work: &AtWork<'_>, before: &Transfer, after: &Transfer) -> bool {
    let left = before.moving.residual();
    let moved = match brought(step) {
        Some(load) if is_new_chunk(work) && before.fault.is_none() => {
            moved_by(&load).min(usize::from(before.moving.room())) as u16
        }
        _ => 0,
    };
    after.moving.residual() == left - moved.min(left)
        || after.fault.is_some() && after.moving.residual() == left
}

/// The bytes of a write that were sent to the unit; None where none were.
fn given<'a>(step: &'a Step<'_>) -> Option<&'a [u8]>
    ensures { IfSome result (λ bytes. length bytes.now ≤ 256) }
{
    let (
        Reply::Up {
            signal,
            sent: Some(on),
            ..
        },
        bytes,
    ) = step.reply()
    else {
        return None;
    };
    match on.signal {
        Down::Give { .. } => Some(on.signal.lend(&bytes[signal.length()..]).bytes()),
        _ => None,
    }
}

/// The bytes of a write that were fetched, and given.
fn add_fetched<S: Supply>(
    supply: &mut S,
    step: &Step<'_>,
    work: &AtWork<'_>,
    facts: &mut StepFacts,
) -> Result<(), AllocError>
    ensures kept { facts.new ≡ facts.old }
    ensures unrefused { OnOk result (S.refused supply.new ≡ S.refused supply.old) }
    ensures memory { OnErr result (S.refused supply.new ≡ true) }
{
    let (Some(bytes), Some(after)) = (given(step), work.after) else {
        return Ok(());
    };
    match after.transfer.moving.place() {
        Some(address) if !bytes.is_empty() => push_copy(
            supply,
            work.subchannel,
            Direction::Fetched,
            (address, bytes),
            facts,
        ),
        _ => Ok(()),
    }
}
