//! Which instruction a line of a script asks for.

ghost use Rattle.std.specs.Prelude.{◌≡◌};
ghost use Rattle.seen_answers.specs.Instructions as spec;

use record_text::line_words::{first_word, other_words, without_cpu};
use script_rows::words::number;
use word_names::Instruction;

/// What a program on a CPU does by a line.
#[derive(Clone, Copy)]
pub enum CpuAct {
    /// It executes an instruction; `enable` stands for STORE SUBCHANNEL and MODIFY SUBCHANNEL, of which the last is told.
    Executes(Instruction),
    /// It looks at storage by `show`, which stands for what it loads.
    Loads,
}

/// What a program on a CPU does by this line, if a program on a CPU does it at all: the line is an instruction, or one with
/// `cpu N` before it, or a `show`.
#[tactic(auto, unfolding(crate::specs::Instructions::act_of))]
pub fn act_of(line: &[u8]) -> Option<CpuAct>
    ensures { result ≡ spec.act_of line.now }
{
    let words = without_cpu(line);
    act_named(first_word(words), other_words(words))
}

/// The act of this name and these operands.
fn act_named(name: &[u8], operands: &[u8]) -> Option<CpuAct>
    ensures { result ≡ spec.act_named name.now operands.now }
{
    if name == b"show".as_slice() {
        return Some(CpuAct::Loads);
    }
    match instruction_named(name, operands) {
        Some(instruction) => Some(CpuAct::Executes(instruction)),
        None => None,
    }
}

/// The instruction of this name and these operands.
fn instruction_named(name: &[u8], operands: &[u8]) -> Option<Instruction>
    ensures { result ≡ spec.instruction_named name.now operands.now }
{
    if name == b"enable".as_slice() {
        Some(Instruction::Modify)
    } else if name == b"ssch".as_slice() {
        Some(Instruction::Start)
    } else if name == b"tsch".as_slice() {
        Some(Instruction::Test)
    } else if name == b"stsch".as_slice() {
        Some(Instruction::Store)
    } else if name == b"msch".as_slice() {
        Some(Instruction::Modify)
    } else if name == b"rsch".as_slice() {
        Some(Instruction::Resume)
    } else if name == b"hsch".as_slice() {
        Some(Instruction::Halt)
    } else {
        named_otherwise(name, operands)
    }
}

/// The others.
fn named_otherwise(name: &[u8], operands: &[u8]) -> Option<Instruction>
    ensures { result ≡ spec.named_otherwise name.now operands.now }
{
    if name == b"csch".as_slice() {
        Some(Instruction::Clear)
    } else if name == b"xsch".as_slice() {
        Some(Instruction::Cancel)
    } else if name == b"tpi".as_slice() {
        Some(test_pending(operands))
    } else if name == b"rchp".as_slice() {
        Some(Instruction::ResetPath)
    } else if name == b"stcrw".as_slice() {
        Some(Instruction::StoreReport)
    } else if name == b"stcps".as_slice() {
        Some(Instruction::StorePaths)
    } else {
        None
    }
}

/// TEST PENDING INTERRUPTION with its operands.
fn test_pending(operands: &[u8]) -> Instruction
    ensures { result ≡ spec.test_pending operands.now }
{
    Instruction::TestPending {
        subclasses: (operand(first_word(operands)) % 0x100) as u8,
        address: operand(first_word(other_words(operands))),
    }
}

/// The number that a word is; 0 where it is none.
fn operand(word: &[u8]) -> u32
    ensures { result ≡ spec.operand word.now }
{
    match number(word) {
        Some(value) => value,
        None => 0,
    }
}
