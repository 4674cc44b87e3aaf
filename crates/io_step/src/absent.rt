//! An instruction on a subchannel that is not provided: its operand is tested, then the condition code is 3.

ghost use Rattle.std.specs.Prelude.{◌≡◌, ℕ, Ok};
ghost use Rattle.io_step.specs.Executing as spec;
ghost use Rattle.io_step.specs.GivenOperands as given_spec;
ghost use Rattle.storage_keys.specs.Storage.{Contents, operand_at};
ghost use Rattle.chan_events.specs.Replies.{plain_outcome};
ghost use Rattle.chan_events.specs.declared.event.Instruction.TheVariants as instruction_spec;

use crate::by_value::ByValue;
use crate::operands::{
    ENABLE_BLOCK, ENABLE_WORD, WORD, allowed_orb, allowed_word, check_operand, operand, word_in,
};
use chan_events::event::Instruction;
use chan_events::reply::{PlainReply, Reply};
use chan_model::answer::Answer;
use chan_model::fault::Fault;
use chan_model::names::Cpu;
use functions::blocks::enabling_word;
use orb_block::ORB_BYTES;
use schib_block::SCHIB_BYTES;
use schib_block::words::PmcwWords;
use scsw_irb::irb::IRB_BYTES;
use storage_keys::MainStorage;
use zbits::be_bytes;

fn start_by_value(orb: &[u8; ORB_BYTES]) -> Result<PlainReply, Fault>
    ensures { (storage : Contents) (cpu word address : ℕ) → operand_at storage cpu address 12 4 ≡ Ok orb.now →
        spec.Executed_absent storage cpu (instruction_spec.Ssch word address) (plain_outcome result) storage }
{
    allowed_orb(orb)?;
    Ok(Reply::Code(Answer::Three))
}

fn modify_by_value(schib: &[u8; SCHIB_BYTES]) -> Result<PlainReply, Fault>
    ensures { (storage : Contents) (cpu word address : ℕ) → operand_at storage cpu address 52 4 ≡ Ok schib.now →
        spec.Executed_absent storage cpu (instruction_spec.Msch word address) (plain_outcome result) storage }
{
    allowed_word(schib)?;
    Ok(Reply::Code(Answer::Three))
}

/// Executes an instruction with its operand by value on a subchannel that is not provided: nothing is left to be stored.
/// Operand where the contents of the operand are not allowed.
pub fn absent_by_value(instruction: &ByValue) -> Result<PlainReply, Fault>
    ensures { (storage : Contents) (cpu word address : ℕ) → given_spec.HasOperand instruction.now storage cpu address →
        spec.Executed_absent storage cpu (given_spec.instruction_at instruction.now word address) (plain_outcome result) storage }
{
    match instruction {
        ByValue::Ssch { orb } => start_by_value(orb),
        ByValue::Msch { schib } => modify_by_value(schib),
        ByValue::Stsch | ByValue::Tsch => Ok(Reply::Code(Answer::Three)),
    }
}

fn start<M: MainStorage>(storage: &M, cpu: Cpu, address: u32) -> Result<PlainReply, Fault>
    ensures { (word : ℕ) →
        spec.Executed_absent (M.contents storage.now) cpu (instruction_spec.Ssch word address) (plain_outcome result) (M.contents storage.now) }
{
    let orb = operand::<M, ORB_BYTES>(storage, cpu, address)?;
    start_by_value(&orb)
}

fn test<M: MainStorage>(storage: &M, cpu: Cpu, address: u32) -> Result<PlainReply, Fault>
    ensures { (word : ℕ) →
        spec.Executed_absent (M.contents storage.now) cpu (instruction_spec.Tsch word address) (plain_outcome result) (M.contents storage.now) }
{
    check_operand(storage, cpu, address, IRB_BYTES, WORD)?;
    Ok(Reply::Code(Answer::Three))
}

fn store<M: MainStorage>(storage: &M, cpu: Cpu, address: u32) -> Result<PlainReply, Fault>
    ensures { (word : ℕ) →
        spec.Executed_absent (M.contents storage.now) cpu (instruction_spec.Stsch word address) (plain_outcome result) (M.contents storage.now) }
{
    check_operand(storage, cpu, address, SCHIB_BYTES, WORD)?;
    Ok(Reply::Code(Answer::Three))
}

fn modify<M: MainStorage>(storage: &M, cpu: Cpu, address: u32) -> Result<PlainReply, Fault>
    ensures { (word : ℕ) →
        spec.Executed_absent (M.contents storage.now) cpu (instruction_spec.Msch word address) (plain_outcome result) (M.contents storage.now) }
{
    let schib = operand::<M, SCHIB_BYTES>(storage, cpu, address)?;
    modify_by_value(&schib)
}

/// The bits are placed in the block that stands there, where MODIFY SUBCHANNEL takes it.
fn enable<M: MainStorage>(
    storage: &mut M,
    cpu: Cpu,
    subclass: u8,
    multipath: bool,
) -> Result<PlainReply, Fault>
    ensures done { (word : ℕ) →
        spec.Executed_absent (M.contents storage.old) cpu (instruction_spec.Enable word subclass multipath)
        (plain_outcome result) (M.contents storage.new) }
    ensures lender { M.lender storage.new ≡ M.lender storage.old }
{
    check_operand(storage, cpu, ENABLE_BLOCK, SCHIB_BYTES, WORD)?;
    let image = operand::<M, SCHIB_BYTES>(storage, cpu, ENABLE_BLOCK)?;
    let words = word_in(&image);
    if !PmcwWords::is_allowed(&words) {
        return Err(Fault::Operand);
    }
    let placed = be_bytes::<4>(&[enabling_word(words[1], subclass, multipath)]);
    storage.store_operand(cpu.number(), ENABLE_WORD, &placed);
    Ok(Reply::Code(Answer::Three))
}

/// Executes an instruction on a subchannel that is not provided. A refusal changes nothing.
pub fn execute_absent<M: MainStorage>(
    storage: &mut M,
    cpu: Cpu,
    instruction: Instruction,
) -> Result<PlainReply, Fault>
    ensures done { spec.Executed_absent (M.contents storage.old) cpu instruction (plain_outcome result) (M.contents storage.new) }
    ensures lender { M.lender storage.new ≡ M.lender storage.old }
{
    match instruction {
        Instruction::Ssch { address, .. } => start(storage, cpu, address),
        Instruction::Tsch { address, .. } => test(storage, cpu, address),
        Instruction::Stsch { address, .. } => store(storage, cpu, address),
        Instruction::Msch { address, .. } => modify(storage, cpu, address),
        Instruction::Enable {
            subclass,
            multipath,
            ..
        } => enable(storage, cpu, subclass, multipath),
        Instruction::Rsch { .. }
        | Instruction::Hsch { .. }
        | Instruction::Csch { .. }
        | Instruction::Xsch { .. } => Ok(Reply::Code(Answer::Three)),
    }
}
