//! Addresses that storage refuses.

ghost use Rattle.std.specs.Prelude.{◌≡◌, ℕ, List};
ghost use Rattle.machine_model.specs.State.{State};
ghost use Rattle.channel_config.specs.declared.parts.SubchannelSetup.{SubchannelSetup};
ghost use Rattle.chan_model.specs.declared.fault.Fault.TheVariants as fault_spec;
ghost use Rattle.script_rows.specs.Slots.{action_in};
ghost use Rattle.step_records.specs.Refusing.{fault_of, storage_fault};
ghost use Rattle.step_records.specs.declared.parties.Parties.{Parties};
ghost use Rattle.storage_keys.specs.Storage.{Contents};
ghost use Rattle.refusal_reasons.specs.Actions as spec;
ghost use Rattle.refusal_reasons.specs.Naming.{IsBoundaryOf, IsNamed};
ghost use Rattle.refusal_reasons.specs.Standing.{IsSo};

use chan_events::event::{Event, Instruction, OtherInstruction};
use chan_model::fault::Fault;
use script_rows::slots::KeptAction;
use step_records::refusal::{Boundary, Refusal, StorageRefusal};
use storage_keys::StorageFault;

/// Where `enable` has its subchannel-information block.
const ENABLE_ADDRESS: u32 = 0xF00;

/// The address that an instruction names.
fn instruction_address(instruction: Instruction) -> Option<u32>
    ensures { result ≡ spec.instruction_address instruction }
{
    match instruction {
        Instruction::Ssch { address, .. }
        | Instruction::Tsch { address, .. }
        | Instruction::Stsch { address, .. }
        | Instruction::Msch { address, .. } => Some(address),
        Instruction::Enable { .. } => Some(ENABLE_ADDRESS),
        Instruction::Rsch { .. }
        | Instruction::Hsch { .. }
        | Instruction::Csch { .. }
        | Instruction::Xsch { .. } => None,
    }
}

/// The address that an instruction without a subchannel names.
fn other_address(instruction: OtherInstruction) -> Option<u32>
    ensures { result ≡ spec.other_address instruction }
{
    match instruction {
        OtherInstruction::Tpi { address, .. }
        | OtherInstruction::Stcrw { address }
        | OtherInstruction::Stcps { address } => Some(address),
        OtherInstruction::Rchp { .. } => None,
    }
}

/// The address that an action names.
fn address_of(action: &KeptAction) -> Option<u32>
    ensures { (bytes : List ℕ) → result ≡ spec.address_named (action_in action.now bytes) }
{
    match action {
        KeptAction::Event(
            Event::Put { address, .. }
            | Event::SetKey { address, .. }
            | Event::SetPrefix { address, .. }
            | Event::Show { address, .. },
        ) => Some(*address),
        KeptAction::Event(Event::Execute { instruction, .. }) => instruction_address(*instruction),
        KeptAction::Event(Event::ExecuteOther { instruction, .. }) => other_address(*instruction),
        _ => None,
    }
}

/// The boundary that the address of an action must be on.
fn boundary_of(action: &KeptAction) -> Boundary
    ensures { (bytes : List ℕ) → result ≡ spec.boundary_wanted (action_in action.now bytes) }
{
    match action {
        KeptAction::Event(Event::SetPrefix { .. }) => Boundary::Prefix,
        KeptAction::Event(
            Event::ExecuteOther {
                instruction: OtherInstruction::Stcps { .. },
                ..
            },
        ) => Boundary::PathStatus,
        _ => Boundary::Word,
    }
}

/// What storage refuses the address of an action for.
fn reason_of(action: &KeptAction, kind: StorageFault) -> StorageRefusal
    ensures fault { storage_fault result ≡ fault_spec.Storage kind }
    ensures boundary { (bytes : List ℕ) → IsBoundaryOf (action_in action.now bytes) result }
{
    match kind {
        StorageFault::Addressing => StorageRefusal::Addressing,
        StorageFault::Protection => StorageRefusal::Protection,
        StorageFault::Specification => StorageRefusal::Specification(boundary_of(action)),
    }
}

/// Why storage refuses an action.
#[tactic(auto, unfolding(crate::specs::Naming::IsNamed))]
pub(crate) fn storage_refusal(action: &KeptAction, kind: StorageFault) -> Refusal
    ensures fault { fault_of result ≡ fault_spec.Storage kind }
    ensures so { (state : State) (setups : List SubchannelSetup) → IsSo state setups result }
    ensures named { (state : State) (storage : Contents) (parties : Parties) (bytes : List ℕ) → IsNamed state storage parties (action_in action.now bytes) result }
{
    match address_of(action) {
        Some(address) => Refusal::Storage {
            address,
            why: reason_of(action, kind),
        },
        None => Refusal::Bare(Fault::Storage(kind)),
    }
}
