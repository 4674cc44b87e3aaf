//! Status that was made and cleared, and why.

ghost use Rattle.std.specs.Prelude.{◌≡◌, OnErr, OnOk, true};

use crate::step::{Step, StepFacts};
use chan_events::event::{Event, KeptEvent};
use chan_events::reply::{KeptReply, Reply};
use chan_model::signal::Up;
use functions::state::PackedState;
use memory::Supply;
use std::alloc::AllocError;
use step_records::record::{Cause, Fact};
use zbits::{field, flag};

/// What made status pending, as the event, the signal that was met and the status word tell it (SA22-7832, chapter 16).
fn cause_of(event: &KeptEvent, reply: &KeptReply, words: &[u32; 3]) -> Cause {
    match (event, reply) {
        (Event::Choose { .. }, _) => chosen_cause(words),
        (
            _,
            Reply::Up {
                signal: Up::Attn { .. },
                ..
            },
        ) => Cause::Attention,
        _ if flag(words[0], 19) => Cause::ClearDone,
        _ if flag(words[2], 14) => Cause::InterfaceControlCheck,
        _ => program_cause(words),
    }
}

/// What choosing made: a program found no path, or the clear or the halt function was performed.
fn chosen_cause(words: &[u32; 3]) -> Cause {
    if field(words[0], 6, 7) == 3 {
        Cause::NoPath
    } else if flag(words[0], 19) {
        Cause::ClearDone
    } else {
        Cause::HaltDone
    }
}

/// What a program shows: without primary and secondary status that it goes on or is suspended, and without device status that
/// no block could be fetched.
fn program_cause(words: &[u32; 3]) -> Cause {
    let ended = flag(words[0], 29) || flag(words[0], 30);
    if !ended && flag(words[0], 26) {
        Cause::Suspension
    } else if !ended {
        Cause::ProgramControlled
    } else if field(words[2], 0, 7) == 0 {
        Cause::FetchFault
    } else {
        Cause::End
    }
}

/// The statuses that were made.
pub(crate) fn add_made<S: Supply>(
    supply: &mut S,
    step: &Step<'_>,
    facts: &mut StepFacts,
) -> Result<(), AllocError>
    ensures kept { facts.new ≡ facts.old }
    ensures unrefused { OnOk result (S.refused supply.new ≡ S.refused supply.old) }
    ensures memory { OnErr result (S.refused supply.new ≡ true) }
{
    let count = step.before.subchannels.len();
    for subchannel in 0..count.min(step.after.subchannels.len()) {
        let before = step.before.subchannels[subchannel].rest().serials;
        let after = &step.after.subchannels[subchannel];
        if before.made < after.rest().serials.made {
            push_made(supply, step, subchannel, after, facts)?;
        }
    }
    Ok(())
}

/// The last status that was made.
#[inline(never)]
fn push_made<S: Supply>(
    supply: &mut S,
    step: &Step<'_>,
    subchannel: usize,
    after: &PackedState,
    facts: &mut StepFacts,
) -> Result<(), AllocError>
    ensures kept { facts.new ≡ facts.old }
    ensures unrefused { OnOk result (S.refused supply.new ≡ S.refused supply.old) }
    ensures memory { OnErr result (S.refused supply.new ≡ true) }
{
    let words = *after.scsw_words();
    facts.push(
        supply,
        Fact::StatusMade {
            subchannel,
            words,
            serial: after.rest().serials.made,
            cause: cause_of(step.event().0, step.reply().0, &words),
        },
    )
}

/// The statuses that were cleared.
pub(crate) fn add_cleared<S: Supply>(
    supply: &mut S,
    step: &Step<'_>,
    facts: &mut StepFacts,
) -> Result<(), AllocError>
    ensures kept { facts.new ≡ facts.old }
    ensures unrefused { OnOk result (S.refused supply.new ≡ S.refused supply.old) }
    ensures memory { OnErr result (S.refused supply.new ≡ true) }
{
    let count = step.before.subchannels.len();
    for subchannel in 0..count.min(step.after.subchannels.len()) {
        let before = step.before.subchannels[subchannel].rest().serials;
        let after = step.after.subchannels[subchannel].rest().serials;
        if before.cleared < after.cleared {
            push_cleared(supply, subchannel, after.cleared, facts)?;
        }
    }
    Ok(())
}

#[inline(never)]
fn push_cleared<S: Supply>(
    supply: &mut S,
    subchannel: usize,
    serial: u64,
    facts: &mut StepFacts,
) -> Result<(), AllocError>
    ensures kept { facts.new ≡ facts.old }
    ensures unrefused { OnOk result (S.refused supply.new ≡ S.refused supply.old) }
    ensures memory { OnErr result (S.refused supply.new ≡ true) }
{
    facts.push(supply, Fact::StatusCleared { subchannel, serial })
}
