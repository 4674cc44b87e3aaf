//! Instructions whose operand is given by value: no storage is lent to them, and what they would store is left to the caller.

ghost use Rattle.std.specs.Prelude.{◌≡◌, ◌≤◌, ℕ, Bool, List, Ok, Some, length};
ghost use Rattle.io_step.specs.Executing as spec;
ghost use Rattle.io_step.specs.GivenOperands as given_spec;
ghost use Rattle.io_step.specs.Performing as performing_spec;
ghost use Rattle.chan_events.specs.Replies.{plain_outcome, reply_of};
ghost use Rattle.chan_events.specs.declared.event.Instruction.TheVariants as instruction_spec;
ghost use Rattle.machine_model.specs.Bounds.{CanCount};
ghost use Rattle.machine_model.specs.InstructionSteps as steps;
ghost use Rattle.machine_model.specs.OtherSteps as other_spec;
ghost use Rattle.machine_model.specs.State.{State};
ghost use Rattle.machine_model.specs.State as state_spec;
ghost use Rattle.subchannel_model.specs.Test.{tsch_code};
ghost use Rattle.storage_keys.specs.Storage.{Contents, cleared_storage, operand_at, operand_check};

use crate::effects::{modify_sub, start_sub, store_reply, stores_irb, test_code_of, test_sub};
use crate::operands::{allowed_orb, allowed_word};
use crate::others::{PathTable, engaged_bytes};
use crate::performing::drops;
use chan_events::event::{Instruction, OtherInstruction};
use chan_events::reply::{PlainReply, Reply};
use chan_model::fault::Fault;
use channel_reports::Reports;
use functions::Subchannel;
use interruptions::Pending;
use orb_block::ORB_BYTES;
use schib_block::SCHIB_BYTES;
use scsw_irb::irb::IRB_BYTES;

/// An instruction on a subchannel, with its operand by value.
#[derive(Clone, Copy)]
pub enum ByValue {
    /// START SUBCHANNEL with this ORB.
    Ssch { orb: [u8; ORB_BYTES] },
    /// MODIFY SUBCHANNEL with this SCHIB.
    Msch { schib: [u8; SCHIB_BYTES] },
    /// STORE SUBCHANNEL, which leaves a SCHIB with code 0.
    Stsch,
    /// TEST SUBCHANNEL, which leaves an IRB with code 0 and 1.
    Tsch,
}

/// A block that an instruction leaves to be stored at its operand.
#[derive(Clone, Copy)]
pub enum Block {
    Schib([u8; SCHIB_BYTES]),
    Irb([u8; IRB_BYTES]),
}

/// What an instruction with its operand by value answers, and the block that it leaves to be stored, where it stores one.
#[derive(Clone, Copy)]
pub struct Answered {
    pub reply: PlainReply,
    pub block: Option<Block>,
}

/// An instruction that names no subchannel, with its operand by value: its reply tells all that is to be stored.
#[derive(Clone, Copy)]
pub enum OtherByValue {
    /// TEST PENDING INTERRUPTION. `mask` is the byte of control register 6: hexadecimal 80 is subclass 0.
    Tpi { mask: u8 },
    /// STORE CHANNEL REPORT WORD.
    Stcrw,
    /// STORE CHANNEL PATH STATUS.
    Stcps,
}

impl ByValue {
    /// The instruction that it is with its operand at an address. `subchannel` is general register 1.
    pub fn at(&self, subchannel: u32, address: u32) -> Instruction
        ensures { result ≡ given_spec.instruction_at self.now subchannel address }
    {
        match self {
            ByValue::Ssch { .. } => Instruction::Ssch {
                subchannel,
                address,
            },
            ByValue::Msch { .. } => Instruction::Msch {
                subchannel,
                address,
            },
            ByValue::Stsch => Instruction::Stsch {
                subchannel,
                address,
            },
            ByValue::Tsch => Instruction::Tsch {
                subchannel,
                address,
            },
        }
    }

    /// There is storage that has its operand, at address 0.
    pub fn is_somewhere(&self)
        ensures { (blocks cpu : ℕ) → 16 ≤ blocks → given_spec.HasOperand self.now (given_spec.storage_with self.now blocks) cpu 0 }
    {
        match self {
            ByValue::Ssch { orb } => is_whole(orb),
            ByValue::Msch { schib } => is_whole(schib),
            ByValue::Stsch => {}
            ByValue::Tsch => {}
        }
    }
}

/// A block has as many bytes as its type says.
fn is_whole<const BYTES: usize>(block: &[u8; BYTES])
    ensures { length block.now ≡ BYTES }
{
    let _ = block;
}

impl OtherByValue {
    /// The instruction that it is with its operand at an address.
    pub fn at(self, address: u32) -> OtherInstruction
        ensures { result ≡ given_spec.other_at self address }
    {
        match self {
            OtherByValue::Tpi { mask } => OtherInstruction::Tpi { mask, address },
            OtherByValue::Stcrw => OtherInstruction::Stcrw { address },
            OtherByValue::Stcps => OtherInstruction::Stcps { address },
        }
    }

    /// There is storage that has room for what it stores, at address 0.
    pub fn is_somewhere(self)
        ensures { (blocks cpu : ℕ) → 16 ≤ blocks → given_spec.HasRoom self (cleared_storage blocks) cpu 0 }
    {}
}

impl Answered {
    /// What is answered where nothing is left to be stored.
    pub fn alone(answer: Result<PlainReply, Fault>) -> Result<Answered, Fault>
        ensures answer { given_spec.outcome result ≡ plain_outcome answer }
        ensures stored { (storage : Contents) (cpu address : ℕ) → given_spec.storage_after storage cpu address result ≡ storage }
    {
        match answer {
            Ok(reply) => Ok(Answered { reply, block: None }),
            Err(fault) => Err(fault),
        }
    }
}

/// START SUBCHANNEL with an ORB.
pub fn start(sub: &mut Subchannel, orb: &[u8; ORB_BYTES]) -> Result<PlainReply, Fault>
    requires { CanCount sub.old }
    ensures done { (storage : Contents) (cpu word address : ℕ) → operand_at storage cpu address 12 4 ≡ Ok orb.now →
        spec.Executed storage sub.old cpu (instruction_spec.Ssch word address) (plain_outcome result) storage sub.new }
    ensures setup { sub.new.setup ≡ sub.old.setup }
{
    let orb = allowed_orb(orb)?;
    Ok(start_sub(sub, orb))
}

/// MODIFY SUBCHANNEL with a SCHIB.
pub fn modify(sub: &mut Subchannel, schib: &[u8; SCHIB_BYTES]) -> Result<PlainReply, Fault>
    ensures done { (storage : Contents) (cpu word address : ℕ) → operand_at storage cpu address 52 4 ≡ Ok schib.now →
        spec.Executed storage sub.old cpu (instruction_spec.Msch word address) (plain_outcome result) storage sub.new }
    ensures setup { sub.new.setup ≡ sub.old.setup }
{
    let given = allowed_word(schib)?;
    Ok(modify_sub(sub, &given))
}

/// STORE SUBCHANNEL, which leaves the SCHIB.
pub fn store(sub: &Subchannel) -> Answered
    ensures done { (storage : Contents) (cpu word address : ℕ) → operand_check storage cpu address 52 4 ≡ Ok tt →
        spec.Executed storage sub.now cpu (instruction_spec.Stsch word address) (Ok (reply_of result.reply))
        (given_spec.with_block storage cpu address result.block) sub.now }
    ensures size { length (given_spec.block_bytes result.block) ≤ 52 }
{
    Answered {
        reply: store_reply(sub),
        block: Some(Block::Schib(sub.state.schib())),
    }
}

/// The IRB that TEST SUBCHANNEL stores, where it stores one.
fn irb_to_store(sub: &Subchannel) -> Option<Block>
    ensures stored { (s : State) (storage : Contents) (cpu address : ℕ) → state_spec.lent s (given_spec.with_block storage cpu address result) ≡
        steps.with_irb (state_spec.lent s storage) cpu address sub.now (steps.stores_irb (steps.code_at tsch_code sub.now)) }
    ensures size { length (given_spec.block_bytes result) ≤ 64 }
{
    if stores_irb(test_code_of(sub)) {
        Some(Block::Irb(sub.state.irb()))
    } else {
        None
    }
}

/// TEST SUBCHANNEL, which leaves the IRB with code 0 and 1.
pub fn test(sub: &mut Subchannel) -> Answered
    ensures done { (storage : Contents) (cpu word address : ℕ) → operand_check storage cpu address 64 4 ≡ Ok tt →
        spec.Executed storage sub.old cpu (instruction_spec.Tsch word address) (Ok (reply_of result.reply))
        (given_spec.with_block storage cpu address result.block) sub.new }
    ensures setup { sub.new.setup ≡ sub.old.setup }
    ensures size { length (given_spec.block_bytes result.block) ≤ 64 }
{
    let block = irb_to_store(sub);
    let reply = test_sub(sub);
    Answered { reply, block }
}

/// Executes an instruction with its operand by value on a subchannel that is provided: for every storage that has the operand,
/// at any address, what it answers and leaves is what the machine's definitions give, once the block is stored there. It is
/// refused where the contents of the operand are not allowed, and then changes nothing.
pub fn execute_by_value(sub: &mut Subchannel, instruction: &ByValue) -> Result<Answered, Fault>
    requires { CanCount sub.old }
    ensures done { (storage : Contents) (cpu word address : ℕ) → given_spec.HasOperand instruction.now storage cpu address →
        spec.Executed storage sub.old cpu (given_spec.instruction_at instruction.now word address) (given_spec.outcome result)
        (given_spec.storage_after storage cpu address result) sub.new }
    ensures setup { sub.new.setup ≡ sub.old.setup }
{
    match instruction {
        ByValue::Ssch { orb } => Answered::alone(start(sub, orb)),
        ByValue::Msch { schib } => Answered::alone(modify(sub, schib)),
        ByValue::Stsch => Ok(store(sub)),
        ByValue::Tsch => Ok(test(sub)),
    }
}

/// Performs an instruction with its operand by value on a subchannel that is provided. A refusal changes nothing.
pub fn perform_by_value(
    sub: &mut Subchannel,
    pending: &mut Pending,
    instruction: &ByValue,
) -> Result<Answered, Fault>
    requires { CanCount sub.old }
    ensures done { (storage : Contents) (cpu word address : ℕ) → given_spec.HasOperand instruction.now storage cpu address →
        performing_spec.Performed (performing_spec.lent storage (Some sub.old) pending.old) cpu (given_spec.instruction_at instruction.now word address)
        (given_spec.outcome result) (performing_spec.lent (given_spec.storage_after storage cpu address result) (Some sub.new) pending.new) }
    ensures setup { sub.new.setup ≡ sub.old.setup }
    ensures numbers { pending.new.numbers ≡ pending.old.numbers }
{
    let id = sub.state.setup().id;
    let answered = execute_by_value(sub, instruction)?;
    if drops(instruction.at(0, 0), answered.reply.code()) {
        pending.drop_request(id.set, id.number);
    }
    Ok(answered)
}

/// Performs an instruction that names no subchannel, with its operand by value: what its reply tells is left to be stored.
/// `engaged` has the channel paths whose bit STORE CHANNEL PATH STATUS stores as one. None is refused.
pub fn perform_other_by_value(
    pending: &mut Pending,
    reports: &mut Reports,
    engaged: &PathTable,
    instruction: OtherByValue,
) -> PlainReply
    ensures { (storage : Contents) (up : List Bool) (cpu address : ℕ) → given_spec.HasRoom instruction storage cpu address →
        other_spec.other_result (other_spec.lent_whole storage pending.old reports.old) up engaged.now cpu (given_spec.other_at instruction address) ≡
        other_spec.answers (reply_of result) (other_spec.lent_whole (given_spec.with_reply storage cpu address (reply_of result)) pending.new reports.new) }
{
    match instruction {
        OtherByValue::Tpi { mask } => Reply::Interruption(pending.tpi(mask)),
        OtherByValue::Stcrw => Reply::ChannelReport(reports.stcrw()),
        OtherByValue::Stcps => Reply::Paths {
            engaged: engaged_bytes(engaged),
        },
    }
}
