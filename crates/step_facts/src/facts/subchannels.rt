//! How the words and the programs of a subchannel changed.

ghost use Rattle.std.specs.Prelude.{◌≡◌, OnErr, OnOk, true};

use crate::step::{Step, StepFacts};
use functions::rest::Rest;
use functions::state::PackedState;
use memory::Supply;
use std::alloc::AllocError;
use step_records::record::{Fact, Mask, ProgramStage};
use subchannel_model::state::Program;
use zbits::flag;

/// The resume-pending bit of word 0 of a subchannel-status word (SA22-7832, chapter 16).
const RESUME_PENDING: u32 = 20;

/// A subchannel before a step and after it.
#[derive(Drop)]
struct Change<'a> {
    subchannel: usize,
    before: &'a PackedState,
    after: &'a PackedState,
}

/// What changed of each subchannel.
pub(crate) fn add_changes<S: Supply>(
    supply: &mut S,
    step: &Step<'_>,
    facts: &mut StepFacts,
) -> Result<(), AllocError>
    ensures kept { facts.new ≡ facts.old }
    ensures unrefused { OnOk result (S.refused supply.new ≡ S.refused supply.old) }
    ensures memory { OnErr result (S.refused supply.new ≡ true) }
{
    let count = step.before.subchannels.len();
    for subchannel in 0..count.min(step.after.subchannels.len()) {
        let change = Change {
            subchannel,
            before: &step.before.subchannels[subchannel],
            after: &step.after.subchannels[subchannel],
        };
        add_orb(supply, &change, facts)?;
        add_enabled(supply, &change, facts)?;
        add_functions(supply, &change, facts)?;
        add_masks(supply, &change, facts)?;
        add_programs(supply, &change, facts)?;
    }
    Ok(())
}

/// The ORB of a start that was accepted.
fn add_orb<S: Supply>(
    supply: &mut S,
    change: &Change<'_>,
    facts: &mut StepFacts,
) -> Result<(), AllocError>
    ensures kept { facts.new ≡ facts.old }
    ensures unrefused { OnOk result (S.refused supply.new ≡ S.refused supply.old) }
    ensures memory { OnErr result (S.refused supply.new ≡ true) }
{
    let after = change.after.rest();
    match &after.waiting {
        Some(program) if change.before.rest().starts < after.starts => {
            push_orb(supply, change.subchannel, program, facts)
        }
        _ => Ok(()),
    }
}

#[inline(never)]
fn push_orb<S: Supply>(
    supply: &mut S,
    subchannel: usize,
    program: &Program,
    facts: &mut StepFacts,
) -> Result<(), AllocError>
    ensures kept { facts.new ≡ facts.old }
    ensures unrefused { OnOk result (S.refused supply.new ≡ S.refused supply.old) }
    ensures memory { OnErr result (S.refused supply.new ≡ true) }
{
    facts.push(
        supply,
        Fact::Orb {
            subchannel,
            orb: program.orb,
        },
    )
}

/// The enabled bit, the interruption subclass and the multipath mode, where one of them changed.
fn add_enabled<S: Supply>(
    supply: &mut S,
    change: &Change<'_>,
    facts: &mut StepFacts,
) -> Result<(), AllocError>
    ensures kept { facts.new ≡ facts.old }
    ensures unrefused { OnOk result (S.refused supply.new ≡ S.refused supply.old) }
    ensures memory { OnErr result (S.refused supply.new ≡ true) }
{
    let before = change.before;
    let after = change.after;
    if before.is_enabled() == after.is_enabled()
        && before.subclass() == after.subclass()
        && before.is_multipath() == after.is_multipath()
    {
        return Ok(());
    }
    push_enabled(supply, change.subchannel, after, facts)
}

#[inline(never)]
fn push_enabled<S: Supply>(
    supply: &mut S,
    subchannel: usize,
    after: &PackedState,
    facts: &mut StepFacts,
) -> Result<(), AllocError>
    ensures kept { facts.new ≡ facts.old }
    ensures unrefused { OnOk result (S.refused supply.new ≡ S.refused supply.old) }
    ensures memory { OnErr result (S.refused supply.new ≡ true) }
{
    facts.push(
        supply,
        Fact::Enabled {
            subchannel,
            enabled: after.is_enabled(),
            subclass: after.subclass(),
            multipath: after.is_multipath(),
        },
    )
}

/// The first word of the status word, where it changed.
fn add_functions<S: Supply>(
    supply: &mut S,
    change: &Change<'_>,
    facts: &mut StepFacts,
) -> Result<(), AllocError>
    ensures kept { facts.new ≡ facts.old }
    ensures unrefused { OnOk result (S.refused supply.new ≡ S.refused supply.old) }
    ensures memory { OnErr result (S.refused supply.new ≡ true) }
{
    let before = change.before.scsw_words()[0];
    let after = change.after.scsw_words()[0];
    if before == after {
        return Ok(());
    }
    push_functions(supply, change.subchannel, before, after, facts)
}

#[inline(never)]
fn push_functions<S: Supply>(
    supply: &mut S,
    subchannel: usize,
    before: u32,
    after: u32,
    facts: &mut StepFacts,
) -> Result<(), AllocError>
    ensures kept { facts.new ≡ facts.old }
    ensures unrefused { OnOk result (S.refused supply.new ≡ S.refused supply.old) }
    ensures memory { OnErr result (S.refused supply.new ≡ true) }
{
    facts.push(
        supply,
        Fact::Functions {
            subchannel,
            before,
            after,
        },
    )
}

/// A mask of a subchannel.
fn mask_of(seen: &PackedState, mask: Mask) -> u8 {
    match mask {
        Mask::Logical => seen.logical().mask(),
        Mask::NotOperational => seen.not_operational().mask(),
        Mask::LastUsed => seen.last_used_mask(),
        Mask::Operational => seen.operational().mask(),
        Mask::Available => seen.available().mask(),
    }
}

/// The masks that changed.
fn add_masks<S: Supply>(
    supply: &mut S,
    change: &Change<'_>,
    facts: &mut StepFacts,
) -> Result<(), AllocError>
    ensures kept { facts.new ≡ facts.old }
    ensures unrefused { OnOk result (S.refused supply.new ≡ S.refused supply.old) }
    ensures memory { OnErr result (S.refused supply.new ≡ true) }
{
    for mask in [
        Mask::Logical,
        Mask::NotOperational,
        Mask::LastUsed,
        Mask::Operational,
        Mask::Available,
    ] {
        let before = mask_of(change.before, mask);
        let after = mask_of(change.after, mask);
        if before != after {
            push_mask(supply, change.subchannel, mask, (before, after), facts)?;
        }
    }
    Ok(())
}

/// A mask, as it was before and as it is after.
#[inline(never)]
fn push_mask<S: Supply>(
    supply: &mut S,
    subchannel: usize,
    mask: Mask,
    seen: (u8, u8),
    facts: &mut StepFacts,
) -> Result<(), AllocError>
    ensures kept { facts.new ≡ facts.old }
    ensures unrefused { OnOk result (S.refused supply.new ≡ S.refused supply.old) }
    ensures memory { OnErr result (S.refused supply.new ≡ true) }
{
    facts.push(
        supply,
        Fact::Mask {
            subchannel,
            mask,
            before: seen.0,
            after: seen.1,
        },
    )
}

/// The starts of which there is a program: that which holds the device, that which waits, that which is suspended.
fn starts_of(rest: &Rest) -> [Option<u64>; 3] {
    [
        match &rest.begun {
            Some(begun) => Some(begun.program.start),
            None => None,
        },
        match &rest.waiting {
            Some(waiting) => Some(waiting.start),
            None => None,
        },
        match &rest.suspended {
            Some(suspended) => Some(suspended.program.start),
            None => None,
        },
    ]
}

/// How far the program of a start is.
pub fn stage_of(seen: &PackedState, start: u64) -> ProgramStage {
    let [begun, waiting, suspended] = starts_of(seen.rest());
    if begun == Some(start) {
        ProgramStage::Holds
    } else if waiting == Some(start) {
        ProgramStage::Waits
    } else if suspended == Some(start) {
        if flag(seen.scsw_words()[0], RESUME_PENDING) {
            ProgramStage::Waits
        } else {
            ProgramStage::Suspended
        }
    } else {
        ProgramStage::Over
    }
}

/// The programs that went on.
fn add_programs<S: Supply>(
    supply: &mut S,
    change: &Change<'_>,
    facts: &mut StepFacts,
) -> Result<(), AllocError>
    ensures kept { facts.new ≡ facts.old }
    ensures unrefused { OnOk result (S.refused supply.new ≡ S.refused supply.old) }
    ensures memory { OnErr result (S.refused supply.new ≡ true) }
{
    let known = starts_of(change.before.rest());
    for start in known {
        add_program(supply, change, start, facts)?;
    }
    for start in starts_of(change.after.rest()) {
        if !known.contains(&start) {
            add_program(supply, change, start, facts)?;
        }
    }
    Ok(())
}

/// The program of a start, where it went on.
fn add_program<S: Supply>(
    supply: &mut S,
    change: &Change<'_>,
    start: Option<u64>,
    facts: &mut StepFacts,
) -> Result<(), AllocError>
    ensures kept { facts.new ≡ facts.old }
    ensures unrefused { OnOk result (S.refused supply.new ≡ S.refused supply.old) }
    ensures memory { OnErr result (S.refused supply.new ≡ true) }
{
    let Some(start) = start else {
        return Ok(());
    };
    let stage = stage_of(change.after, start);
    if stage == stage_of(change.before, start) {
        return Ok(());
    }
    push_program(supply, change.subchannel, start, stage, facts)
}

#[inline(never)]
fn push_program<S: Supply>(
    supply: &mut S,
    subchannel: usize,
    start: u64,
    stage: ProgramStage,
    facts: &mut StepFacts,
) -> Result<(), AllocError>
    ensures kept { facts.new ≡ facts.old }
    ensures unrefused { OnOk result (S.refused supply.new ≡ S.refused supply.old) }
    ensures memory { OnErr result (S.refused supply.new ≡ true) }
{
    facts.push(
        supply,
        Fact::Program {
            subchannel,
            start,
            stage,
        },
    )
}
