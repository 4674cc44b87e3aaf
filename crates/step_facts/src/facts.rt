//! The facts of one step.

ghost use Rattle.machine_sight.specs.declared.looking.SightFault.TheVariants as fault_spec;
ghost use Rattle.std.specs.Prelude.{◌≡◌, ◌++◌, ℕ, OnOk, Some, true, OnErr, Err};
ghost use Rattle.step_facts.specs.Holds.{all_hold_changes};
ghost use Rattle.step_facts.specs.Moves.{is_told_by_reply, met_of, sent_of};
ghost use Rattle.step_facts.specs.Told.{OnlyHeld, with_holds};

mod channel_paths;
mod data;
pub mod holds;
mod losses;
mod moves;
pub mod statuses;
pub mod subchannels;
pub mod units;

use crate::requests::Requests;
use crate::step::{Step, StepFacts};
use machine::looks::Looks;
use machine_sight::looking::SightFault;
use memory::Supply;
use std::alloc::AllocError;

/// Adds the facts of a step, in the order of what it does: what came in, what became of it, and what went out. The machine is as the
/// step left it.
pub fn add_facts<S: Supply, L: Looks>(
    supply: &mut S,
    step: &Step<'_>,
    looks: &L,
    requests: &mut Requests,
    facts: &mut StepFacts,
) -> Result<(), SightFault>
    ensures moves { OnOk result ((sub : ℕ) → step.now.subchannel ≡ Some sub → is_told_by_reply step.now.event.now ≡ true →
        facts.new.moves ≡ facts.old.moves ++ (met_of sub step.now.event.now step.now.reply.now ++ sent_of step.now.before.now sub step.now.reply.now)) }
    ensures holds { OnOk result (facts.new.holds ≡ facts.old.holds ++ all_hold_changes step.now.before.now.subchannels.items step.now.after.now.subchannels.items) }
    ensures answers { OnOk result (facts.new.answers ≡ facts.old.answers) }
    ensures line { OnOk result (facts.new.line ≡ facts.old.line) }
    ensures before { OnOk result (facts.new.before ≡ facts.old.before) }
    ensures unrefused { OnOk result (S.refused supply.new ≡ S.refused supply.old) }
    ensures memory { result ≡ Err fault_spec.NoMemory → S.refused supply.new ≡ true }
{
    channel_paths::add_paths(supply, step, facts)?;
    moves::add_met(supply, step, facts)?;
    losses::add_lost(supply, step, looks, facts)?;
    add_inner_facts(supply, step, requests, facts)?;
    moves::add_sent(supply, step, looks, facts)?;
    units::add_last_acts(supply, step, facts)?;
    Ok(())
}

/// What became of the machine between what came in and what went out.
#[tactic(auto, using(crate::proofs::Telling::two_holds))]
fn add_inner_facts<S: Supply>(
    supply: &mut S,
    step: &Step<'_>,
    requests: &mut Requests,
    facts: &mut StepFacts,
) -> Result<(), AllocError>
    ensures holds { OnOk result (facts.new ≡ with_holds facts.old (all_hold_changes step.now.before.now.subchannels.items step.now.after.now.subchannels.items)) }
    ensures only { OnlyHeld facts.old facts.new }
    ensures unrefused { OnOk result (S.refused supply.new ≡ S.refused supply.old) }
    ensures memory { OnErr result (S.refused supply.new ≡ true) }
{
    holds::add_holds(supply, step, false, facts)?;
    units::add_first_acts(supply, step, facts)?;
    subchannels::add_changes(supply, step, facts)?;
    data::add_data(supply, step, facts)?;
    statuses::add_made(supply, step, facts)?;
    statuses::add_cleared(supply, step, facts)?;
    requests.add_changes(supply, step, facts)?;
    holds::add_holds(supply, step, true, facts)?;
    units::add_units(supply, step, facts)?;
    channel_paths::add_reports(supply, step, facts)
}
