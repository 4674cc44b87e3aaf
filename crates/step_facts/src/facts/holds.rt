//! How the subsystem's side of a subchannel changed.

ghost use Rattle.std.specs.Prelude.{◌≡◌, ◌++◌, OnOk, length, slice_get, OnErr, true};
ghost use Rattle.step_facts.specs.Holds as spec;
ghost use Rattle.step_facts.specs.Told.{OnlyHeld, with_holds};

use crate::step::{Step, StepFacts};
use chan_model::hold_state::{HoldPhase, HoldState};
use chan_model::names::Path;
use functions::state::PackedState;
use memory::Supply;
use std::alloc::AllocError;

/// Whether both are the same path, or both are none.
fn same_path(one: Option<Path>, other: Option<Path>) -> bool
    ensures { result ≡ spec.same_path one other }
{
    match (one, other) {
        (None, None) => true,
        (Some(one), Some(other)) => one.same(other),
        _ => false,
    }
}

fn same_phase(one: &HoldPhase, other: &HoldPhase) -> bool
    ensures { result ≡ spec.same_phase one.now other.now }
{
    match (one, other) {
        (HoldPhase::Free, HoldPhase::Free) => true,
        (HoldPhase::Offer { number: a, path: p }, HoldPhase::Offer { number: b, path: q }) => *a
            == *b
            && p.same(*q),
        (
            HoldPhase::On {
                number: a,
                path: p,
                connection: c,
            },
            HoldPhase::On {
                number: b,
                path: q,
                connection: d,
            },
        ) => *a == *b && p.same(*q) && *c == *d,
        (HoldPhase::Away { number: a }, HoldPhase::Away { number: b }) => *a == *b,
        (HoldPhase::Letting { number: a, path: p }, HoldPhase::Letting { number: b, path: q }) => *a
            == *b
            && p.same(*q),
        (HoldPhase::Reset { number: a }, HoldPhase::Reset { number: b }) => *a == *b,
        _ => false,
    }
}

/// Whether both are the same.
pub fn same_hold(one: &HoldState, other: &HoldState) -> bool
    ensures { result ≡ spec.same_hold one.now other.now }
{
    same_phase(&one.phase, &other.phase)
        && one.seen == other.seen
        && one.known_restarts == other.known_restarts
        && same_path(one.reset_path, other.reset_path)
        && same_path(one.first_path, other.first_path)
        && same_bool(one.single_path, other.single_path)
}

fn same_bool(one: bool, other: bool) -> bool
    ensures { result ≡ spec.same_bool one other }
{
    if one { other } else { !other }
}

/// Whether the device is let go or to be reset.
fn is_ending(phase: &HoldPhase) -> bool
    ensures { result ≡ spec.is_ending phase.now }
{
    matches!(phase, HoldPhase::Letting { .. } | HoldPhase::Reset { .. })
}

/// The hold of a subchannel, where it changed and what it became is such a one as is asked for.
#[tactic(auto, using(crate::proofs::Telling::no_holds))]
fn add_hold<S: Supply>(
    supply: &mut S,
    subchannel: usize,
    seen: (&PackedState, &PackedState),
    ending: bool,
    facts: &mut StepFacts,
) -> Result<(), AllocError>
    ensures told { OnOk result (facts.new ≡ with_holds facts.old (spec.hold_change ending subchannel seen.entry.0.now.state.hold seen.entry.1.now.state.hold)) }
    ensures only { OnlyHeld facts.old facts.new }
    ensures unrefused { OnOk result (S.refused supply.new ≡ S.refused supply.old) }
    ensures memory { OnErr result (S.refused supply.new ≡ true) }
{
    let before = &seen.0.rest().hold;
    let after = &seen.1.rest().hold;
    if same_bool(is_ending(&after.phase), ending) && !same_hold(before, after) {
        facts.push_hold(supply, subchannel, *before, *after)
    } else {
        Ok(())
    }
}

/// The same for a subchannel that was seen before and after.
#[tactic(auto, using(crate::proofs::Telling::no_holds))]
fn add_hold_at<S: Supply>(
    supply: &mut S,
    step: &Step<'_>,
    subchannel: usize,
    ending: bool,
    facts: &mut StepFacts,
) -> Result<(), AllocError>
    ensures told { OnOk result (facts.new ≡ with_holds facts.old (spec.hold_change_at ending subchannel (slice_get step.now.before.now.subchannels.items subchannel) (slice_get step.now.after.now.subchannels.items subchannel))) }
    ensures only { OnlyHeld facts.old facts.new }
    ensures unrefused { OnOk result (S.refused supply.new ≡ S.refused supply.old) }
    ensures memory { OnErr result (S.refused supply.new ≡ true) }
{
    match step.before.subchannel(subchannel) {
        None => Ok(()),
        Some(before) => match step.after.subchannel(subchannel) {
            None => Ok(()),
            Some(after) => {
                add_hold(supply, subchannel, (before, after), ending, facts)?;
                Ok(())
            }
        },
    }
}

/// The holds that changed, where what each became is one that lets the device go or resets it, or is none of these.
pub(crate) fn add_holds<S: Supply>(
    supply: &mut S,
    step: &Step<'_>,
    ending: bool,
    facts: &mut StepFacts,
) -> Result<(), AllocError>
    ensures told { OnOk result (facts.new ≡ with_holds facts.old (spec.hold_changes ending step.now.before.now.subchannels.items step.now.after.now.subchannels.items (length step.now.before.now.subchannels.items))) }
    ensures only { OnlyHeld facts.old facts.new }
    ensures unrefused { OnOk result (S.refused supply.new ≡ S.refused supply.old) }
    ensures memory { OnErr result (S.refused supply.new ≡ true) }
{
    for subchannel in 0..step.before.subchannels.len() {
        add_hold_at(supply, step, subchannel, ending, facts)?;
    }
    Ok(())
}
