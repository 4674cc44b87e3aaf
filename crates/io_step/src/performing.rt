//! Any I/O instruction, on all that it is lent.

ghost use Rattle.std.specs.Prelude.{◌≡◌, IfSome, Some};
ghost use Rattle.machine_model.specs.Bounds.{CanCount};
ghost use Rattle.chan_events.specs.Replies.{plain_outcome};
ghost use Rattle.io_step.specs.Performing as spec;
ghost use Rattle.machine_model.specs.OtherSteps.{lent_whole};
ghost use Rattle.machine_model.specs.Requests as requests_spec;

use crate::absent::execute_absent;
use crate::others::{ChannelPaths, rchp, stcps, stcrw, tpi};
use crate::provided::execute;
use chan_events::event::{Instruction, OtherInstruction};
use chan_events::reply::{PlainReply, Reply};
use chan_model::answer::ConditionCode;
use chan_model::fault::Fault;
use chan_model::names::Cpu;
use channel_reports::Reports;
use functions::Subchannel;
use interruptions::Pending;
use storage_keys::MainStorage;

/// Whether an instruction that set this code drops the request of its subchannel.
pub fn drops(instruction: Instruction, code: Option<ConditionCode>) -> bool
    ensures { result ≡ requests_spec.drops instruction code }
{
    match instruction {
        Instruction::Tsch { .. } => {
            matches!(code, Some(ConditionCode::Zero | ConditionCode::One))
        }
        Instruction::Csch { .. } => matches!(code, Some(ConditionCode::Zero)),
        Instruction::Ssch { .. }
        | Instruction::Stsch { .. }
        | Instruction::Msch { .. }
        | Instruction::Rsch { .. }
        | Instruction::Hsch { .. }
        | Instruction::Xsch { .. }
        | Instruction::Enable { .. } => false,
    }
}

/// Performs an instruction on a subchannel that is provided. A refusal changes nothing.
pub fn perform_provided<M: MainStorage>(
    storage: &mut M,
    sub: &mut Subchannel,
    pending: &mut Pending,
    cpu: Cpu,
    instruction: Instruction,
) -> Result<PlainReply, Fault>
    requires { CanCount sub.old }
    ensures done { spec.Performed (spec.lent (M.contents storage.old) (Some sub.old) pending.old) cpu instruction
        (plain_outcome result) (spec.lent (M.contents storage.new) (Some sub.new) pending.new) }
    ensures setup { sub.new.setup ≡ sub.old.setup }
    ensures numbers { pending.new.numbers ≡ pending.old.numbers }
    ensures lender { M.lender storage.new ≡ M.lender storage.old }
{
    let id = sub.state.setup().id;
    let reply = execute(storage, sub, cpu, instruction)?;
    if drops(instruction, reply.code()) {
        pending.drop_request(id.set, id.number);
    }
    Ok(reply)
}

/// Performs an instruction on a subchannel: `sub`, or one that is not provided. A refusal changes nothing.
pub fn perform<M: MainStorage>(
    storage: &mut M,
    sub: Option<&mut Subchannel>,
    pending: &mut Pending,
    cpu: Cpu,
    instruction: Instruction,
) -> Result<PlainReply, Fault>
    requires { IfSome (spec.sub_lent sub) (λ s. CanCount s) }
    ensures done { spec.Performed (spec.lent (M.contents storage.old) (spec.sub_lent sub.entry) pending.old) cpu instruction
        (plain_outcome result) (spec.lent (M.contents storage.new) (spec.sub_left sub.exit) pending.new) }
    ensures lender { M.lender storage.new ≡ M.lender storage.old }
{
    match sub {
        Some(sub) => perform_provided(storage, sub, pending, cpu, instruction),
        None => execute_absent(storage, cpu, instruction),
    }
}

/// Performs an instruction that names no subchannel. A refusal changes nothing.
pub fn perform_other<M: MainStorage>(
    storage: &mut M,
    pending: &mut Pending,
    reports: &mut Reports,
    paths: &ChannelPaths,
    cpu: Cpu,
    instruction: OtherInstruction,
) -> Result<PlainReply, Fault>
    ensures done { spec.Performed_other (lent_whole (M.contents storage.old) pending.old reports.old) paths.now cpu instruction
        (plain_outcome result) (lent_whole (M.contents storage.new) pending.new reports.new) }
    ensures lender { M.lender storage.new ≡ M.lender storage.old }
{
    match instruction {
        OtherInstruction::Tpi { mask, address } => {
            let found = tpi(storage, pending, cpu, mask, address)?;
            Ok(Reply::Interruption(found))
        }
        OtherInstruction::Rchp { path } => {
            let code = rchp(reports, &paths.up, path)?;
            Ok(Reply::PathReset(code))
        }
        OtherInstruction::Stcrw { address } => {
            let report = stcrw(storage, reports, cpu, address)?;
            Ok(Reply::ChannelReport(report))
        }
        OtherInstruction::Stcps { address } => {
            let engaged = stcps(storage, &paths.engaged, cpu, address)?;
            Ok(Reply::Paths { engaged })
        }
    }
}
