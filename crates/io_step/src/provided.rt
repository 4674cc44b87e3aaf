//! An instruction on a subchannel that is provided.

ghost use Rattle.std.specs.Prelude.{◌≡◌, ◌≤◌, ◌+◌, ℕ, length};
ghost use Rattle.io_step.specs.Executing as spec;
ghost use Rattle.chan_events.specs.Replies.{plain_outcome};
ghost use Rattle.io_step.specs.GivenOperands as given_spec;
ghost use Rattle.machine_model.specs.Bounds.{CanCount};
ghost use Rattle.chan_events.specs.declared.event.Instruction.TheVariants as instruction_spec;

use crate::by_value::{self, Block};
use crate::effects::{cancel_sub, clear_sub, halt_sub, modify_sub, resume_sub};
use crate::enabling::enabling;
use crate::operands::{ENABLE_BLOCK, WORD, check_operand, operand};
use chan_events::event::Instruction;
use chan_events::reply::PlainReply;
use chan_model::fault::Fault;
use chan_model::names::Cpu;
use functions::Subchannel;
use orb_block::ORB_BYTES;
use schib_block::SCHIB_BYTES;
use schib_block::words::block_of;
use scsw_irb::irb::IRB_BYTES;
use storage_keys::MainStorage;

fn start<M: MainStorage>(
    storage: &M,
    sub: &mut Subchannel,
    cpu: Cpu,
    address: u32,
) -> Result<PlainReply, Fault>
    requires { CanCount sub.old }
    ensures done { (word : ℕ) →
        spec.Executed (M.contents storage.now) sub.old cpu (instruction_spec.Ssch word address)
        (plain_outcome result) (M.contents storage.now) sub.new }
    ensures setup { sub.new.setup ≡ sub.old.setup }
{
    let orb = operand::<M, ORB_BYTES>(storage, cpu, address)?;
    by_value::start(sub, &orb)
}

/// The block that an instruction leaves is stored at its operand.
fn store_block<M: MainStorage>(storage: &mut M, cpu: Cpu, address: u32, block: &Option<Block>)
    requires inside { address + length (given_spec.block_bytes block.now) ≤ length (M.contents storage.old).bytes }
    ensures stored { M.contents storage.new ≡ given_spec.with_block (M.contents storage.old) cpu address block.now }
    ensures lender { M.lender storage.new ≡ M.lender storage.old }
{
    match block {
        None => {}
        Some(Block::Schib(schib)) => storage.store_operand(cpu.number(), address, schib),
        Some(Block::Irb(irb)) => storage.store_operand(cpu.number(), address, irb),
    }
}

fn test<M: MainStorage>(
    storage: &mut M,
    sub: &mut Subchannel,
    cpu: Cpu,
    address: u32,
) -> Result<PlainReply, Fault>
    ensures done { (word : ℕ) →
        spec.Executed (M.contents storage.old) sub.old cpu (instruction_spec.Tsch word address)
        (plain_outcome result) (M.contents storage.new) sub.new }
    ensures setup { sub.new.setup ≡ sub.old.setup }
    ensures lender { M.lender storage.new ≡ M.lender storage.old }
{
    check_operand(storage, cpu, address, IRB_BYTES, WORD)?;
    let answered = by_value::test(sub);
    store_block(storage, cpu, address, &answered.block);
    Ok(answered.reply)
}

fn store<M: MainStorage>(
    storage: &mut M,
    sub: &Subchannel,
    cpu: Cpu,
    address: u32,
) -> Result<PlainReply, Fault>
    ensures done { (word : ℕ) →
        spec.Executed (M.contents storage.old) sub.now cpu (instruction_spec.Stsch word address)
        (plain_outcome result) (M.contents storage.new) sub.now }
    ensures lender { M.lender storage.new ≡ M.lender storage.old }
{
    check_operand(storage, cpu, address, SCHIB_BYTES, WORD)?;
    let answered = by_value::store(sub);
    store_block(storage, cpu, address, &answered.block);
    Ok(answered.reply)
}

fn modify<M: MainStorage>(
    storage: &M,
    sub: &mut Subchannel,
    cpu: Cpu,
    address: u32,
) -> Result<PlainReply, Fault>
    ensures done { (word : ℕ) →
        spec.Executed (M.contents storage.now) sub.old cpu (instruction_spec.Msch word address)
        (plain_outcome result) (M.contents storage.now) sub.new }
    ensures setup { sub.new.setup ≡ sub.old.setup }
{
    let schib = operand::<M, SCHIB_BYTES>(storage, cpu, address)?;
    by_value::modify(sub, &schib)
}

fn enable<M: MainStorage>(
    storage: &mut M,
    sub: &mut Subchannel,
    cpu: Cpu,
    subclass: u8,
    multipath: bool,
) -> Result<PlainReply, Fault>
    ensures done { (word : ℕ) →
        spec.Executed (M.contents storage.old) sub.old cpu (instruction_spec.Enable word subclass multipath)
        (plain_outcome result) (M.contents storage.new) sub.new }
    ensures setup { sub.new.setup ≡ sub.old.setup }
    ensures lender { M.lender storage.new ≡ M.lender storage.old }
{
    check_operand(storage, cpu, ENABLE_BLOCK, SCHIB_BYTES, WORD)?;
    let given = enabling(sub.state.pmcw(), subclass, multipath);
    let image = block_of(&given, sub.state.scsw());
    storage.store_operand(cpu.number(), ENABLE_BLOCK, &image);
    Ok(modify_sub(sub, given.words()))
}

/// Executes an instruction on a subchannel that is provided: what it answers, and what is left of storage and of the
/// subchannel, is what the machine's definitions give for every machine that has both. A refusal changes nothing. That
/// general register 1 names this subchannel is the caller's test, and so are the interruption requests.
pub fn execute<M: MainStorage>(
    storage: &mut M,
    sub: &mut Subchannel,
    cpu: Cpu,
    instruction: Instruction,
) -> Result<PlainReply, Fault>
    requires { CanCount sub.old }
    ensures done { spec.Executed (M.contents storage.old) sub.old cpu instruction (plain_outcome result) (M.contents storage.new) sub.new }
    ensures setup { sub.new.setup ≡ sub.old.setup }
    ensures lender { M.lender storage.new ≡ M.lender storage.old }
{
    match instruction {
        Instruction::Ssch { address, .. } => start(storage, sub, cpu, address),
        Instruction::Tsch { address, .. } => test(storage, sub, cpu, address),
        Instruction::Stsch { address, .. } => store(storage, sub, cpu, address),
        Instruction::Msch { address, .. } => modify(storage, sub, cpu, address),
        Instruction::Enable {
            subclass,
            multipath,
            ..
        } => enable(storage, sub, cpu, subclass, multipath),
        Instruction::Rsch { .. } => Ok(resume_sub(sub)),
        Instruction::Hsch { .. } => Ok(halt_sub(sub)),
        Instruction::Csch { .. } => Ok(clear_sub(sub)),
        Instruction::Xsch { .. } => Ok(cancel_sub(sub)),
    }
}
