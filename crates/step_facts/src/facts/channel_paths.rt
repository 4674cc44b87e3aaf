//! Channel paths that came up or went down, and what is reported of them.

ghost use Rattle.std.specs.Prelude.{◌≡◌, OnErr, OnOk, true};

use crate::step::{Step, StepFacts};
use chan_events::event::{Event, KeptEvent};
use chan_events::reply::Reply;
use channel_config::parts::PathReturn;
use memory::Supply;
use scsw_irb::crw::{Crw, PathReport};
use std::alloc::AllocError;
use step_records::record::{Fact, ReportChange};

/// The channel paths whose state changed.
pub(crate) fn add_paths<S: Supply>(
    supply: &mut S,
    step: &Step<'_>,
    facts: &mut StepFacts,
) -> Result<(), AllocError>
    ensures kept { facts.new ≡ facts.old }
    ensures unrefused { OnOk result (S.refused supply.new ≡ S.refused supply.old) }
    ensures memory { OnErr result (S.refused supply.new ≡ true) }
{
    for index in 0..step
        .before
        .up
        .len()
        .min(step.after.up.len())
        .min(step.parties.paths.len())
    {
        let up = step.after.up[index];
        if step.before.up[index] != up {
            push_path(supply, step.parties.paths[index], up, facts)?;
        }
    }
    Ok(())
}

#[inline(never)]
fn push_path<S: Supply>(
    supply: &mut S,
    chpid: u8,
    up: bool,
    facts: &mut StepFacts,
) -> Result<(), AllocError>
    ensures kept { facts.new ≡ facts.old }
    ensures unrefused { OnOk result (S.refused supply.new ≡ S.refused supply.old) }
    ensures memory { OnErr result (S.refused supply.new ≡ true) }
{
    facts.push(supply, Fact::PathState { chpid, up })
}

/// What the event reports of which channel path.
fn reported(event: &KeptEvent, path_return: PathReturn) -> Option<(PathReport, u32)> {
    match event {
        Event::PathDown { chpid } => Some((PathReport::Lost, *chpid)),
        Event::PathUp { chpid } => Some((path_return.report(), *chpid)),
        Event::PathReset { chpid } => Some((PathReport::ResetDone, *chpid)),
        _ => None,
    }
}

/// The report that the event makes, which waits where more wait than before; or that STORE CHANNEL REPORT WORD took out.
pub(crate) fn add_reports<S: Supply>(
    supply: &mut S,
    step: &Step<'_>,
    facts: &mut StepFacts,
) -> Result<(), AllocError>
    ensures kept { facts.new ≡ facts.old }
    ensures unrefused { OnOk result (S.refused supply.new ≡ S.refused supply.old) }
    ensures memory { OnErr result (S.refused supply.new ≡ true) }
{
    if let Reply::ChannelReport(Some(crw)) = step.reply().0 {
        return push_report(supply, ReportChange::TakenOut, *crw, facts);
    }
    let Some((report, chpid)) = reported(step.event().0, step.path_return) else {
        return Ok(());
    };
    let change = if step.before.reports < step.after.reports {
        ReportChange::Waits
    } else {
        ReportChange::Lost
    };
    let crw = Crw {
        report,
        overflow: false,
        path: (chpid % 256) as u8,
    };
    push_report(supply, change, crw, facts)
}

#[inline(never)]
fn push_report<S: Supply>(
    supply: &mut S,
    change: ReportChange,
    crw: Crw,
    facts: &mut StepFacts,
) -> Result<(), AllocError>
    ensures kept { facts.new ≡ facts.old }
    ensures unrefused { OnOk result (S.refused supply.new ≡ S.refused supply.old) }
    ensures memory { OnErr result (S.refused supply.new ≡ true) }
{
    facts.push(supply, Fact::Report { change, crw })
}
