//! Operands that are refused.

ghost use Rattle.std.specs.Prelude.{◌≡◌, ℕ, IfNone, IfSome, List, Ok, true};
ghost use Rattle.orb_block.specs.OrbTable.{IsAllowedOrb};
ghost use Rattle.machine_model.specs.State.{State};
ghost use Rattle.channel_config.specs.declared.parts.SubchannelSetup.{SubchannelSetup};
ghost use Rattle.chan_model.specs.declared.fault.Fault.TheVariants as fault_spec;
ghost use Rattle.chan_events.specs.declared.event.Event.TheVariants as event_spec;
ghost use Rattle.script_rows.specs.Slots.{action_in};
ghost use Rattle.script_rows.specs.declared.Action.TheVariants as action_spec;
ghost use Rattle.step_records.specs.Refusing.{fault_of};
ghost use Rattle.storage_keys.specs.Storage.{operand_at};
ghost use Rattle.refusal_reasons.specs.Naming as spec;
ghost use Rattle.refusal_reasons.specs.Naming.{HasNoWrongOperand, IsNamed, IsOfSet, IsOperandOf, IsWordWrong};
ghost use Rattle.refusal_reasons.specs.Standing.{IsOneIn, IsSo};

use chan_events::event::{Event, Instruction, OtherInstruction};
use chan_model::fault::Fault;
use chan_model::names::Cpu;
use channel_config::names::subchannel_named;
use channel_config::parts::SubchannelSetup;
use orb_block::ORB_BYTES;
use script_rows::slots::KeptAction;
use step_records::parties::Parties;
use step_records::refusal::{OperandRefusal, OrbBit, Refusal};
use storage_keys::MainStorage;
use zbits::{be_words, field};

/// The most sets of subchannels.
const MOST_SETS: u8 = 4;

/// The boundary of an operation-request block.
const WORD: u32 = 4;

/// A bit of an operation-request block that must be zero and is one; None where there is none.
fn orb_bit(image: &[u8; ORB_BYTES]) -> Option<OrbBit>
    ensures one { IfSome result (λ bit. IsOneIn image.now bit) }
    ensures none { IfNone result (IsAllowedOrb image.now) }
{
    let [_, control, address] = be_words::<3>(image);
    if field(control, 13, 13) != 0 {
        Some(OrbBit::ChannelProgramType)
    } else if field(control, 31, 31) != 0 {
        Some(OrbBit::Extension)
    } else if field(control, 26, 31) != 0 {
        Some(OrbBit::Reserved)
    } else if field(address, 0, 0) != 0 {
        Some(OrbBit::ProgramAddress)
    } else {
        None
    }
}

/// What is wrong with the operation-request block at a real address of a CPU; None where it cannot be fetched, or nothing is.
fn orb_refusal<M: MainStorage>(storage: &M, cpu: Cpu, address: u32) -> Option<OrbBit>
    ensures one { IfSome result (λ bit. (image : List ℕ) × (operand_at (M.contents storage.now) cpu address 12 4 ≡ Ok image) × IsOneIn image bit) }
    ensures none { IfNone result ((image : List ℕ) → operand_at (M.contents storage.now) cpu address 12 4 ≡ Ok image → IsAllowedOrb image) }
{
    match storage.operand::<ORB_BYTES>(cpu.number(), address, WORD) {
        Ok(image) => orb_bit(&image),
        Err(_) => None,
    }
}

/// Whether there is a subchannel of this set, or of one behind it.
fn has_set(setups: &[SubchannelSetup], set: u8) -> bool
    ensures { result ≡ spec.has_set setups.now set }
{
    setups.iter().any(|setup| set <= setup.id.set)
}

/// What is wrong with a subsystem-identification word; None where a subchannel of its set is configured.
fn word_refusal(parties: &Parties, word: u32) -> Option<OperandRefusal>
    ensures some { IfSome result (λ why. IsWordWrong parties.now.subchannels.items word why) }
    ensures none { IfNone result (IsOfSet parties.now.subchannels.items word true) }
{
    match subchannel_named(MOST_SETS, word) {
        None => Some(OperandRefusal::Identification { word }),
        Some(id) if has_set(parties.subchannels.as_slice(), id.set) => None,
        Some(_) => Some(OperandRefusal::EmptySet { word }),
    }
}

/// What is wrong with the operand of an instruction.
fn instruction_refusal<M: MainStorage>(
    storage: &M,
    parties: &Parties,
    cpu: Cpu,
    instruction: Instruction,
) -> Option<OperandRefusal>
    ensures some { IfSome result (λ why. IsOperandOf (M.contents storage.now) parties.now.subchannels.items (action_spec.Event (event_spec.Execute cpu instruction)) why) }
    ensures none { IfNone result (HasNoWrongOperand (M.contents storage.now) parties.now.subchannels.items (action_spec.Event (event_spec.Execute cpu instruction))) }
{
    if let Some(why) = word_refusal(parties, instruction.subchannel_word()) {
        return Some(why);
    }
    match instruction {
        Instruction::Ssch { address, .. } => match orb_refusal(storage, cpu, address) {
            Some(bit) => Some(OperandRefusal::Orb(bit)),
            None => None,
        },
        Instruction::Msch { .. } => Some(OperandRefusal::Schib),
        _ => None,
    }
}

/// Which operand of an action is not allowed; None where none is known to be.
fn refused_operand<M: MainStorage>(
    storage: &M,
    parties: &Parties,
    action: &KeptAction,
) -> Option<OperandRefusal>
    ensures some { IfSome result (λ why. (bytes : List ℕ) → IsOperandOf (M.contents storage.now) parties.now.subchannels.items (action_in action.now bytes) why) }
    ensures none { IfNone result ((bytes : List ℕ) → HasNoWrongOperand (M.contents storage.now) parties.now.subchannels.items (action_in action.now bytes)) }
{
    match action {
        KeptAction::Event(Event::Execute { cpu, instruction }) => {
            instruction_refusal(storage, parties, *cpu, *instruction)
        }
        KeptAction::Event(
            Event::ExecuteOther {
                instruction: OtherInstruction::Rchp { path },
                ..
            },
        ) => Some(OperandRefusal::ChannelPath { chpid: *path }),
        _ => None,
    }
}

/// Why an operand is not allowed.
#[tactic(auto, unfolding(crate::specs::Naming::IsNamed))]
pub(crate) fn operand_refusal<M: MainStorage>(
    storage: &M,
    parties: &Parties,
    action: &KeptAction,
) -> Refusal
    ensures fault { fault_of result ≡ fault_spec.Operand }
    ensures so { (state : State) (setups : List SubchannelSetup) → IsSo state setups result }
    ensures named { (state : State) (bytes : List ℕ) → IsNamed state (M.contents storage.now) parties.now (action_in action.now bytes) result }
{
    match refused_operand(storage, parties, action) {
        Some(why) => Refusal::Operand(why),
        None => Refusal::Bare(Fault::Operand),
    }
}
