//! The lines that drive a machine.

ghost use Rattle.std.specs.Prelude.{◌≡◌, IfSome, is_some, codes, true, false, map, Some, None, Ok, Err};
ghost use Rattle.std.specs.Result.{result_transpose};
ghost use Rattle.std.specs.Str.{bytes_eq};
ghost use Rattle.chan_events.specs.declared.event.Event.TheVariants as event_spec;
ghost use Rattle.chan_events.specs.declared.event.Instruction.TheVariants.{Ssch, Tsch};
ghost use Rattle.script_rows.specs.Words.{number, number_up_to, row_of, subchannel, with_two};
ghost use Rattle.script_rows.specs.Actions as spec;
ghost use Rattle.script_rows.specs.Slots.{action_at, rows_at};
ghost use Rattle.script_rows.specs.Settings.{setting_row};

use crate::acts::act_row;
use crate::paths::path_row;
use crate::slots::{ActionSlot, KeptAction};
use crate::words::{
    LineRule, hex_bytes, is_name, number, number_up_to, only_number, only_subchannel, subchannel,
    subchannel_and_number, three, two,
};
use chan_events::event::{Event, Instruction, OtherInstruction};
use chan_model::chunk::ChunkLength;
use chan_model::names::Cpu;
use storage_keys::key::Key;

fn enable_row(words: &[&[u8]]) -> Result<Instruction, LineRule>
    ensures { result ≡ spec.enable_row (map (λ w. w.now) words.now) }
{
    let (word, subclass, multipath) = three(words).ok_or(LineRule::WrongCount)?;
    let subchannel = subchannel(word).ok_or(LineRule::BadWord)?;
    let subclass = number_up_to(7, subclass).ok_or(LineRule::BadWord)?;
    let multipath = number_up_to(1, multipath).ok_or(LineRule::BadWord)?;
    Ok(Instruction::Enable {
        subchannel,
        subclass: subclass as u8,
        multipath: multipath == 1,
    })
}

#[inline(always)]
fn ssch_row(words: &[&[u8]]) -> Result<Instruction, LineRule>
    ensures { result ≡ with_two subchannel number Ssch (map (λ w. w.now) words.now) }
{
    let (subchannel, address) = subchannel_and_number(words)?;
    Ok(Instruction::Ssch {
        subchannel,
        address,
    })
}

#[inline(always)]
fn tsch_row(words: &[&[u8]]) -> Result<Instruction, LineRule>
    ensures { result ≡ with_two subchannel number Tsch (map (λ w. w.now) words.now) }
{
    let (subchannel, address) = subchannel_and_number(words)?;
    Ok(Instruction::Tsch {
        subchannel,
        address,
    })
}

/// The instruction that a line's words ask for, where its first word names one.
fn instruction_row(word: &[u8], words: &[&[u8]]) -> Result<Option<Instruction>, LineRule>
    ensures { result_transpose result ≡ row_of spec.instruction_rows word.now (map (λ w. w.now) words.now) }
{
    let instruction = if is_name(word, b"enable".as_slice()) {
        enable_row(words)?
    } else if is_name(word, b"ssch".as_slice()) {
        ssch_row(words)?
    } else if is_name(word, b"tsch".as_slice()) {
        tsch_row(words)?
    } else if is_name(word, b"stsch".as_slice()) {
        let (subchannel, address) = subchannel_and_number(words)?;
        Instruction::Stsch {
            subchannel,
            address,
        }
    } else if is_name(word, b"msch".as_slice()) {
        let (subchannel, address) = subchannel_and_number(words)?;
        Instruction::Msch {
            subchannel,
            address,
        }
    } else if is_name(word, b"rsch".as_slice()) {
        let subchannel = only_subchannel(words)?;
        Instruction::Rsch { subchannel }
    } else if is_name(word, b"hsch".as_slice()) {
        let subchannel = only_subchannel(words)?;
        Instruction::Hsch { subchannel }
    } else if is_name(word, b"csch".as_slice()) {
        let subchannel = only_subchannel(words)?;
        Instruction::Csch { subchannel }
    } else if is_name(word, b"xsch".as_slice()) {
        let subchannel = only_subchannel(words)?;
        Instruction::Xsch { subchannel }
    } else {
        return Ok(None);
    };
    Ok(Some(instruction))
}

/// The instruction without a subchannel that a line's words ask for, where its first word names one.
fn other_row(word: &[u8], words: &[&[u8]]) -> Result<Option<OtherInstruction>, LineRule>
    ensures { result_transpose result ≡ row_of spec.other_rows word.now (map (λ w. w.now) words.now) }
{
    let instruction = if is_name(word, b"tpi".as_slice()) {
        let (mask, address) = two(words).ok_or(LineRule::WrongCount)?;
        let mask = number_up_to(0xFF, mask).ok_or(LineRule::BadWord)?;
        let address = number(address).ok_or(LineRule::BadWord)?;
        OtherInstruction::Tpi {
            mask: mask as u8,
            address,
        }
    } else if is_name(word, b"rchp".as_slice()) {
        let path = only_number(words)?;
        OtherInstruction::Rchp { path }
    } else if is_name(word, b"stcrw".as_slice()) {
        let address = only_number(words)?;
        OtherInstruction::Stcrw { address }
    } else if is_name(word, b"stcps".as_slice()) {
        let address = only_number(words)?;
        OtherInstruction::Stcps { address }
    } else {
        return Ok(None);
    };
    Ok(Some(instruction))
}

fn cpu_named(word: &[u8]) -> Option<Cpu>
    ensures { result ≡ number_up_to 0xF word.now }
{
    Cpu::new(number(word)?)
}

/// Has a CPU execute an instruction; a bad word names no CPU.
#[inline(always)]
fn on_cpu(
    slot: &mut ActionSlot,
    cpu: Option<Cpu>,
    instruction: Instruction,
) -> Result<bool, LineRule>
    ensures { rows_at result (action_at slot.new) ≡ Some (spec.on_cpu event_spec.Execute cpu (Ok instruction)) }
{
    let cpu = cpu.ok_or(LineRule::BadWord)?;
    slot.kept = KeptAction::Event(Event::Execute { cpu, instruction });
    Ok(true)
}

/// What a CPU executes, where a line's first word names an instruction.
#[tactic(auto, unfolding(crate::specs::Actions::executed_row))]
fn executed_row(
    slot: &mut ActionSlot,
    cpu: Option<Cpu>,
    word: &[u8],
    words: &[&[u8]],
) -> Result<bool, LineRule>
    ensures { rows_at result (action_at slot.new) ≡ spec.executed_row cpu word.now (map (λ w. w.now) words.now) }
{
    if let Some(instruction) = instruction_row(word, words)? {
        return on_cpu(slot, cpu, instruction);
    }
    let Some(instruction) = other_row(word, words)? else {
        return Ok(false);
    };
    let cpu = cpu.ok_or(LineRule::BadWord)?;
    slot.kept = KeptAction::Event(Event::ExecuteOther { cpu, instruction });
    Ok(true)
}

/// An instruction of a CPU, after its number.
fn cpu_row(slot: &mut ActionSlot, words: &[&[u8]]) -> Result<bool, LineRule>
    ensures { rows_at result (action_at slot.new) ≡ Some (spec.cpu_row (map (λ w. w.now) words.now)) }
{
    let [cpu, word, others @ ..] = words else {
        return Err(LineRule::UnknownWord);
    };
    if executed_row(slot, cpu_named(cpu), word, others)? {
        Ok(true)
    } else {
        Err(LineRule::UnknownWord)
    }
}

fn key_named(word: &[u8]) -> Option<Key>
    ensures { result ≡ spec.key_named word.now }
{
    let byte = number_up_to(0xFF, word)?;
    if byte % 2 == 0 {
        Some(Key::of_byte(byte as u8))
    } else {
        None
    }
}

/// 1 to 40 (hexadecimal) bytes.
fn show_length(word: &[u8]) -> Option<ChunkLength>
    ensures { result ≡ spec.show_length word.now }
{
    let count = number(word)?;
    if 1 <= count && count <= 0x40 {
        ChunkLength::new(count)
    } else {
        None
    }
}

/// The lines that set and show storage.
fn storage_row(slot: &mut ActionSlot, word: &[u8], words: &[&[u8]]) -> Result<bool, LineRule>
    ensures { rows_at result (action_at slot.new) ≡ row_of spec.storage_rows word.now (map (λ w. w.now) words.now) }
{
    if is_name(word, b"put".as_slice()) {
        let (address, bytes) = two(words).ok_or(LineRule::WrongCount)?;
        let address = number(address).ok_or(LineRule::BadWord)?;
        let bytes = hex_bytes(bytes).ok_or(LineRule::BadWord)?;
        slot.put(address, &bytes);
    } else if is_name(word, b"key".as_slice()) {
        let (address, key) = two(words).ok_or(LineRule::WrongCount)?;
        let address = number(address).ok_or(LineRule::BadWord)?;
        let key = key_named(key).ok_or(LineRule::BadWord)?;
        slot.kept = KeptAction::Event(Event::SetKey { address, key });
    } else if is_name(word, b"prefix".as_slice()) {
        let (cpu, address) = two(words).ok_or(LineRule::WrongCount)?;
        let cpu = cpu_named(cpu).ok_or(LineRule::BadWord)?;
        let address = number(address).ok_or(LineRule::BadWord)?;
        slot.kept = KeptAction::Event(Event::SetPrefix { cpu, address });
    } else if is_name(word, b"show".as_slice()) {
        let (address, length) = two(words).ok_or(LineRule::WrongCount)?;
        let address = number(address).ok_or(LineRule::BadWord)?;
        let length = show_length(length).ok_or(LineRule::BadWord)?;
        slot.kept = KeptAction::Event(Event::Show { address, length });
    } else {
        return Ok(false);
    }
    Ok(true)
}

/// The lines of the subsystem and its devices.
fn subsystem_row(slot: &mut ActionSlot, word: &[u8], words: &[&[u8]]) -> Result<bool, LineRule>
    ensures { rows_at result (action_at slot.new) ≡ row_of spec.subsystem_rows word.now (map (λ w. w.now) words.now) }
{
    if is_name(word, b"cpu".as_slice()) {
        return cpu_row(slot, words);
    }
    if is_name(word, b"choose".as_slice()) {
        let subchannel = only_subchannel(words)?;
        slot.kept = KeptAction::Event(Event::Choose { subchannel });
    } else if is_name(word, b"up".as_slice()) {
        let (subchannel, path) = subchannel_and_number(words)?;
        slot.kept = KeptAction::Event(Event::Up { subchannel, path });
    } else if is_name(word, b"down".as_slice()) {
        let (subchannel, path) = subchannel_and_number(words)?;
        slot.kept = KeptAction::Event(Event::Down { subchannel, path });
    } else if is_name(word, b"dev".as_slice()) {
        slot.kept = KeptAction::Dev(only_number(words)?);
    } else if is_name(word, b"glance".as_slice()) {
        slot.kept = KeptAction::Glance(only_subchannel(words)?);
    } else {
        return Ok(false);
    }
    Ok(true)
}

/// Writes to a slot what a line's words ask the machine for; false where its first word is unknown. An instruction without `cpu` is
/// of CPU 0.
#[tactic(auto, unfolding(crate::specs::Actions::action_row))]
pub fn action_row(slot: &mut ActionSlot, word: &[u8], words: &[&[u8]]) -> Result<bool, LineRule>
    ensures { rows_at result (action_at slot.new) ≡ spec.action_row word.now (map (λ w. w.now) words.now) }
{
    Ok(
        executed_row(slot, Cpu::new(0), word, words)?
            || storage_row(slot, word, words)?
            || subsystem_row(slot, word, words)?
            || act_row(slot, word, words)?
            || path_row(slot, word, words)?,
    )
}

/// Writes to a slot what the words of a line ask the machine for, where it is one of those of a start, of its signals, of its
/// device's turns and of its end: most lines are such, and their names are told from all others at one look. False where it is
/// another line.
#[inline(always)]
#[tactic(auto, unfolding(crate::specs::Actions::action_row, crate::specs::Actions::executed_row, crate::specs::Settings::setting_row))]
pub fn common_row(slot: &mut ActionSlot, word: &[u8], words: &[&[u8]]) -> Result<bool, LineRule>
    ensures known { is_some (rows_at result (action_at slot.new)) ≡ spec.is_common word.now }
    ensures says { IfSome (rows_at result (action_at slot.new)) (λ said. spec.action_row word.now (map (λ w. w.now) words.now) ≡ Some said) }
    ensures sole { IfSome (rows_at result (action_at slot.new)) (λ said. (setting_row word.now (map (λ w. w.now) words.now) ≡ None) × (bytes_eq word.now (codes "race") ≡ false)) }
{
    match word {
        [b'u', b'p'] => {
            let (subchannel, path) = subchannel_and_number(words)?;
            slot.kept = KeptAction::Event(Event::Up { subchannel, path });
        }
        [b'd', b'o', b'w', b'n'] => {
            let (subchannel, path) = subchannel_and_number(words)?;
            slot.kept = KeptAction::Event(Event::Down { subchannel, path });
        }
        [b'd', b'e', b'v'] => slot.kept = KeptAction::Dev(only_number(words)?),
        [b's', b's', b'c', b'h'] => return on_cpu(slot, Cpu::new(0), ssch_row(words)?),
        [b't', b's', b'c', b'h'] => return on_cpu(slot, Cpu::new(0), tsch_row(words)?),
        _ if is_name(word, b"choose".as_slice()) => {
            let subchannel = only_subchannel(words)?;
            slot.kept = KeptAction::Event(Event::Choose { subchannel });
        }
        _ => return Ok(false),
    }
    Ok(true)
}
