//! Scripts performed step by step, with the facts of each step.
#![tactic(auto)]

ghost use Rattle.std.specs.Prelude.{◌≡◌, [], IfErr, IfOk, OnOk, Some};
ghost use Rattle.machine_model.specs.State.{opening_of};
ghost use Rattle.subsystem.specs.Keeping.{all_serials};
ghost use Rattle.glance_directory.specs.Directory.{directory_of};
ghost use Rattle.script_runner.specs.Acting.{Installed, IsAudited, IsOpening};
ghost use Rattle.trace_runs.specs.Faults.{IsFaultIn, IsFaultOf, IsScriptFault};
ghost use Rattle.trace_runs.specs.Tracing.{HasPerformedAt, HasTraced, IsSeen, IsTraced};

mod adding;
pub mod tracer;

use crate::tracer::Tracer;
use channel_config::config::Config;
use core_lock::naming::MachineBrand;
use core_lock::parts::Parts;
use core_lock::supplies::CoreSupply;
use memory::Supply;
use script::lines::Lines;
use script::{Script, ScriptBad};
use script_rows::words::LineRule;
use std::alloc::{AllocError, Global};
use std::marker::Brand;
use step_records::parties::Parties;
use step_records::record::Record;
use step_records::script_lines::ScriptLines;
use step_records::trace::Trace;

/// Why there is no trace.
#[derive(Clone, Copy, PartialEq, Eq)]
pub enum TraceFault {
    /// A growth was refused.
    NoMemory,
    /// This line, from 1, breaks this rule.
    Bad { line: u64, rule: LineRule },
    /// The facts of this line do not account for what waits on the wires, or for the requests for interruptions.
    Unbalanced(u64),
    /// The audit found other books than the history has.
    AuditFailed,
}

impl From<AllocError> for TraceFault {
    ghost use Rattle.std.specs.Prelude.{◌≡◌};
    ghost use Rattle.trace_runs.specs.declared.TraceFault.TheVariants.{NoMemory};

    ghost from_gives = { λ _ fault. fault ≡ NoMemory };

    fn from(_: AllocError) -> Self {
        TraceFault::NoMemory
    }
}

impl From<ScriptBad> for TraceFault {
    ghost use Rattle.trace_runs.specs.Faults.{IsToldAs};

    ghost from_gives = { IsToldAs };

    fn from(bad: ScriptBad) -> Self {
        match bad {
            ScriptBad::NoMemory => TraceFault::NoMemory,
            ScriptBad::Bad { line, rule } => TraceFault::Bad { line, rule },
        }
    }
}

/// A machine that is set up, and what it did.
#[derive(Drop)]
struct Performed {
    parties: Parties,
    records: Vec<Record>,
}

/// Performs the script that a text is, as `chsim run` does, and keeps the facts of each step. A script that ends in a race is bad.
#[tactic(auto, using(crate::proofs::Faulting::want_is_fault, crate::proofs::Faulting::bad_is_fault))]
pub fn trace_script<M: CoreSupply>(
    alloc: Global,
    supply: &mut M,
    text: Vec<u8>,
) -> Result<Trace, TraceFault>
    ensures traced { IfOk result (λ trace. IsTraced text.items trace.records.items) }
    ensures fault { IfErr result (λ fault. IsScriptFault text.items (M.refused supply.new) fault) }
{
    let text = ScriptLines::of(alloc, supply, text)?;
    let script = Script::read_with(alloc, supply, false, text.text())?;
    let (config, lines) = script.into_parts();
    let parts = Parts::new_with(alloc, supply, &config)?;
    let done = perform_named::<Brand, M>(alloc, supply, config, parts, &lines)?;
    Ok(Trace {
        text,
        parties: done.parties,
        records: done.records,
    })
}

/// Performs lines at a machine of this name, and audits.
#[tactic(auto, using(crate::proofs::Faulting::fault_among, crate::proofs::Faulting::fault_before))]
fn perform_named<J: MachineBrand, M: CoreSupply>(
    alloc: Global,
    supply: &mut M,
    config: Config,
    parts: Parts,
    lines: &Lines,
) -> Result<Performed, TraceFault>
    requires named { parts.name ≡ J.name }
    requires set_up { J.setup ≡ config }
    requires directory { parts.name.directory ≡ directory_of (opening_of config) }
    requires serials { parts.serials ≡ all_serials (opening_of config) }
    ensures performed { IfOk result (λ done. HasPerformedAt config lines.now done.records.items) }
    ensures fault { IfErr result (λ fault. IsFaultOf lines.now (M.refused supply.new) fault) }
{
    let mut tracer = Tracer::<J>::new(alloc, supply, config, parts)?;
    let mut records = Vec::new(alloc);
    if let Err(fault) = perform(&mut tracer, supply, lines, &mut records) {
        return Err(fault);
    }
    let (parties, audited) = tracer.finish();
    if audited {
        Ok(Performed { parties, records })
    } else {
        Err(TraceFault::AuditFailed)
    }
}

/// Performs lines in order.
fn perform<J: MachineBrand, M: Supply>(
    tracer: &mut Tracer<J>,
    supply: &mut M,
    lines: &Lines,
    records: &mut Vec<Record>,
) -> Result<(), TraceFault>
    requires none { records.old.items ≡ [] }
    requires seen { IsSeen tracer.old }
    ensures traced { OnOk result (HasTraced tracer.old.parties tracer.old.machine lines.now records.new.items tracer.new.machine) }
    ensures parties { OnOk result (tracer.new.parties ≡ tracer.old.parties) }
    ensures fault { IfErr result (λ fault. IsFaultIn lines.now (M.refused supply.new) fault) }
{
    for index in 0..lines.len() {
        let Some(line) = lines.kept(index) else {
            break;
        };
        let _ = tracer.step(supply, line.number, line.action, line.bytes, records)?;
    }
    Ok(())
}
