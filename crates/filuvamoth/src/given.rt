//! The I/O instructions with their operand by value, for hosts that translate addresses themselves (SA22-7832, chapter 14). No storage
//! is lent to them.

ghost use Rattle.filuvamoth.specs.Calls.{ClearsAt, ModifiesAt, StartsAt, StoresAt, TellsAt, WhereGood};
ghost use Rattle.host_machine.specs.Given as given_spec;
ghost use Rattle.io_step.specs.declared.by_value.OtherByValue.TheVariants as other_spec;
ghost use Rattle.std.specs.Prelude.{◌≡◌, length, nat_le};

use crate::calls::{give, give_bytes, give_words};
use crate::handle::Handle;
use chan_model::names::Cpu;
use host_machine::answers::BAD_ARGUMENT;
use io_step::{ByValue, OtherByValue};
use std::alloc::Global;

/// A block of as many bytes as are given.
fn block_of<const BYTES: usize>(bytes: &[u8]) -> [u8; BYTES]
    requires { length bytes.now ≡ BYTES }
    ensures { result ≡ bytes.now }
{
    let mut block = [0; BYTES];
    block.copy_from_slice(bytes);
    block
}

/// START SUBCHANNEL with the 12 bytes of an ORB.
#[unsafe(no_mangle)]
pub extern "C" fn fm_ssch_orb(
    alloc: Global,
    handle: &mut Handle,
    cpu: u32,
    subchannel: u32,
    orb: &[u8],
) -> i32
    ensures { StartsAt handle.old.held.inside cpu subchannel orb.now result handle.new.held.inside }
{
    match Cpu::new(cpu) {
        Some(cpu) if orb.len() == 12 => {
            let instruction = ByValue::Ssch { orb: block_of(orb) };
            give(alloc, handle, cpu, subchannel, &instruction, &mut [])
        }
        _ => BAD_ARGUMENT,
    }
}

/// MODIFY SUBCHANNEL with the 52 bytes of a SCHIB.
#[unsafe(no_mangle)]
pub extern "C" fn fm_msch_schib(
    alloc: Global,
    handle: &mut Handle,
    cpu: u32,
    subchannel: u32,
    schib: &[u8],
) -> i32
    ensures { ModifiesAt handle.old.held.inside cpu subchannel schib.now result handle.new.held.inside }
{
    match Cpu::new(cpu) {
        Some(cpu) if schib.len() == 52 => {
            let instruction = ByValue::Msch {
                schib: block_of(schib),
            };
            give(alloc, handle, cpu, subchannel, &instruction, &mut [])
        }
        _ => BAD_ARGUMENT,
    }
}

/// STORE SUBCHANNEL, which leaves a SCHIB in 52 bytes with code 0.
#[unsafe(no_mangle)]
pub extern "C" fn fm_stsch_schib(
    alloc: Global,
    handle: &mut Handle,
    cpu: u32,
    subchannel: u32,
    schib: &mut [u8],
) -> i32
    ensures { StoresAt handle.old.held.inside cpu subchannel result handle.new.held.inside schib.old schib.new }
{
    match Cpu::new(cpu) {
        Some(cpu) if schib.len() == 52 => {
            give(alloc, handle, cpu, subchannel, &ByValue::Stsch, schib)
        }
        _ => BAD_ARGUMENT,
    }
}

/// TEST SUBCHANNEL, which leaves an IRB in 64 bytes with codes 0 and 1.
#[unsafe(no_mangle)]
pub extern "C" fn fm_tsch_irb(
    alloc: Global,
    handle: &mut Handle,
    cpu: u32,
    subchannel: u32,
    irb: &mut [u8],
) -> i32
    ensures { ClearsAt handle.old.held.inside cpu subchannel result handle.new.held.inside irb.old irb.new }
{
    match Cpu::new(cpu) {
        Some(cpu) if irb.len() == 64 => {
            give(alloc, handle, cpu, subchannel, &ByValue::Tsch, irb)
        }
        _ => BAD_ARGUMENT,
    }
}

/// TEST PENDING INTERRUPTION, which leaves the three words of an interruption code with code 1. `mask` is the byte of control register
/// 6, 0 to 255, of which hexadecimal 80 is subclass 0.
#[unsafe(no_mangle)]
pub extern "C" fn fm_tpi_code(
    alloc: Global,
    handle: &mut Handle,
    cpu: u32,
    mask: u32,
    code: &mut [u32],
) -> i32
    ensures { WhereGood (nat_le mask 0xFF) (TellsAt given_spec.words_told 3 handle.old.held.inside cpu (other_spec.Tpi mask) result handle.new.held.inside code.old code.new)
        (code.new ≡ code.old) handle.old.held.inside result handle.new.held.inside }
{
    if mask > 0xFF {
        return BAD_ARGUMENT;
    }
    match Cpu::new(cpu) {
        Some(cpu) if code.len() == 3 => {
            let instruction = OtherByValue::Tpi { mask: mask as u8 };
            give_words(alloc, handle, cpu, instruction, code)
        }
        _ => BAD_ARGUMENT,
    }
}

/// STORE CHANNEL REPORT WORD, which leaves one word: a report with code 0, zero with code 1.
#[unsafe(no_mangle)]
pub extern "C" fn fm_stcrw_word(
    alloc: Global,
    handle: &mut Handle,
    cpu: u32,
    report: &mut [u32],
) -> i32
    ensures { TellsAt given_spec.words_told 1 handle.old.held.inside cpu other_spec.Stcrw result handle.new.held.inside report.old report.new }
{
    match Cpu::new(cpu) {
        Some(cpu) if report.len() == 1 => {
            give_words(alloc, handle, cpu, OtherByValue::Stcrw, report)
        }
        _ => BAD_ARGUMENT,
    }
}

/// STORE CHANNEL PATH STATUS, which leaves 32 bytes: a bit for each channel path, from the left.
#[unsafe(no_mangle)]
pub extern "C" fn fm_stcps_bytes(
    alloc: Global,
    handle: &mut Handle,
    cpu: u32,
    paths: &mut [u8],
) -> i32
    ensures { TellsAt given_spec.bytes_told 32 handle.old.held.inside cpu other_spec.Stcps result handle.new.held.inside paths.old paths.new }
{
    match Cpu::new(cpu) {
        Some(cpu) if paths.len() == 32 => {
            give_bytes(alloc, handle, cpu, OtherByValue::Stcps, paths)
        }
        _ => BAD_ARGUMENT,
    }
}
