//! The I/O instructions with the real address of their operand (SA22-7832, chapter 14). `subchannel` is general register 1, the
//! subsystem-identification word. The condition code, or a refusal: a program interruption with code n is -256 - n.

ghost use Rattle.chan_events.specs.declared.event.Event.TheVariants as event_spec;
ghost use Rattle.chan_events.specs.declared.event.Instruction.TheVariants as instruction_spec;
ghost use Rattle.chan_events.specs.declared.event.OtherInstruction.TheVariants as other_spec;
ghost use Rattle.filuvamoth.specs.Calls.{ExecutesAt, TestsAt, WhereGood};
ghost use Rattle.std.specs.Prelude.{◌≡◌, ◌==◌, nat_le, not};

use crate::calls::{execute, execute_other};
use crate::handle::Handle;
use chan_events::event::{Instruction, OtherInstruction};
use host_machine::answers::BAD_ARGUMENT;
use std::alloc::Global;

/// START SUBCHANNEL with the ORB at an address.
#[unsafe(no_mangle)]
pub extern "C" fn fm_ssch(
    alloc: Global,
    handle: &mut Handle,
    bytes: &mut [u8],
    keys: &mut [u8],
    cpu: u32,
    subchannel: u32,
    address: u32,
) -> i32
    ensures { ExecutesAt handle.old.held.inside bytes.old keys.old cpu (event_spec.Execute cpu (instruction_spec.Ssch subchannel address)) result handle.new.held.inside bytes.new keys.new }
{
    let instruction = Instruction::Ssch {
        subchannel,
        address,
    };
    execute(alloc, handle, bytes, keys, cpu, instruction)
}

/// TEST SUBCHANNEL, which stores an IRB at an address.
#[unsafe(no_mangle)]
pub extern "C" fn fm_tsch(
    alloc: Global,
    handle: &mut Handle,
    bytes: &mut [u8],
    keys: &mut [u8],
    cpu: u32,
    subchannel: u32,
    address: u32,
) -> i32
    ensures { ExecutesAt handle.old.held.inside bytes.old keys.old cpu (event_spec.Execute cpu (instruction_spec.Tsch subchannel address)) result handle.new.held.inside bytes.new keys.new }
{
    let instruction = Instruction::Tsch {
        subchannel,
        address,
    };
    execute(alloc, handle, bytes, keys, cpu, instruction)
}

/// STORE SUBCHANNEL, which stores a SCHIB at an address.
#[unsafe(no_mangle)]
pub extern "C" fn fm_stsch(
    alloc: Global,
    handle: &mut Handle,
    bytes: &mut [u8],
    keys: &mut [u8],
    cpu: u32,
    subchannel: u32,
    address: u32,
) -> i32
    ensures { ExecutesAt handle.old.held.inside bytes.old keys.old cpu (event_spec.Execute cpu (instruction_spec.Stsch subchannel address)) result handle.new.held.inside bytes.new keys.new }
{
    let instruction = Instruction::Stsch {
        subchannel,
        address,
    };
    execute(alloc, handle, bytes, keys, cpu, instruction)
}

/// MODIFY SUBCHANNEL with the SCHIB at an address.
#[unsafe(no_mangle)]
pub extern "C" fn fm_msch(
    alloc: Global,
    handle: &mut Handle,
    bytes: &mut [u8],
    keys: &mut [u8],
    cpu: u32,
    subchannel: u32,
    address: u32,
) -> i32
    ensures { ExecutesAt handle.old.held.inside bytes.old keys.old cpu (event_spec.Execute cpu (instruction_spec.Msch subchannel address)) result handle.new.held.inside bytes.new keys.new }
{
    let instruction = Instruction::Msch {
        subchannel,
        address,
    };
    execute(alloc, handle, bytes, keys, cpu, instruction)
}

/// RESUME SUBCHANNEL.
#[unsafe(no_mangle)]
pub extern "C" fn fm_rsch(
    alloc: Global,
    handle: &mut Handle,
    bytes: &mut [u8],
    keys: &mut [u8],
    cpu: u32,
    subchannel: u32,
) -> i32
    ensures { ExecutesAt handle.old.held.inside bytes.old keys.old cpu (event_spec.Execute cpu (instruction_spec.Rsch subchannel)) result handle.new.held.inside bytes.new keys.new }
{
    let instruction = Instruction::Rsch { subchannel };
    execute(alloc, handle, bytes, keys, cpu, instruction)
}

/// HALT SUBCHANNEL.
#[unsafe(no_mangle)]
pub extern "C" fn fm_hsch(
    alloc: Global,
    handle: &mut Handle,
    bytes: &mut [u8],
    keys: &mut [u8],
    cpu: u32,
    subchannel: u32,
) -> i32
    ensures { ExecutesAt handle.old.held.inside bytes.old keys.old cpu (event_spec.Execute cpu (instruction_spec.Hsch subchannel)) result handle.new.held.inside bytes.new keys.new }
{
    let instruction = Instruction::Hsch { subchannel };
    execute(alloc, handle, bytes, keys, cpu, instruction)
}

/// CLEAR SUBCHANNEL.
#[unsafe(no_mangle)]
pub extern "C" fn fm_csch(
    alloc: Global,
    handle: &mut Handle,
    bytes: &mut [u8],
    keys: &mut [u8],
    cpu: u32,
    subchannel: u32,
) -> i32
    ensures { ExecutesAt handle.old.held.inside bytes.old keys.old cpu (event_spec.Execute cpu (instruction_spec.Csch subchannel)) result handle.new.held.inside bytes.new keys.new }
{
    let instruction = Instruction::Csch { subchannel };
    execute(alloc, handle, bytes, keys, cpu, instruction)
}

/// CANCEL SUBCHANNEL.
#[unsafe(no_mangle)]
pub extern "C" fn fm_xsch(
    alloc: Global,
    handle: &mut Handle,
    bytes: &mut [u8],
    keys: &mut [u8],
    cpu: u32,
    subchannel: u32,
) -> i32
    ensures { ExecutesAt handle.old.held.inside bytes.old keys.old cpu (event_spec.Execute cpu (instruction_spec.Xsch subchannel)) result handle.new.held.inside bytes.new keys.new }
{
    let instruction = Instruction::Xsch { subchannel };
    execute(alloc, handle, bytes, keys, cpu, instruction)
}

/// RESET CHANNEL PATH: `path` is general register 1.
#[unsafe(no_mangle)]
pub extern "C" fn fm_rchp(
    alloc: Global,
    handle: &mut Handle,
    bytes: &mut [u8],
    keys: &mut [u8],
    cpu: u32,
    path: u32,
) -> i32
    ensures { ExecutesAt handle.old.held.inside bytes.old keys.old cpu (event_spec.ExecuteOther cpu (other_spec.Rchp path)) result handle.new.held.inside bytes.new keys.new }
{
    let instruction = OtherInstruction::Rchp { path };
    execute_other(alloc, handle, bytes, keys, cpu, instruction)
}

/// STORE CHANNEL REPORT WORD at an address.
#[unsafe(no_mangle)]
pub extern "C" fn fm_stcrw(
    alloc: Global,
    handle: &mut Handle,
    bytes: &mut [u8],
    keys: &mut [u8],
    cpu: u32,
    address: u32,
) -> i32
    ensures { ExecutesAt handle.old.held.inside bytes.old keys.old cpu (event_spec.ExecuteOther cpu (other_spec.Stcrw address)) result handle.new.held.inside bytes.new keys.new }
{
    let instruction = OtherInstruction::Stcrw { address };
    execute_other(alloc, handle, bytes, keys, cpu, instruction)
}

/// STORE CHANNEL PATH STATUS, 32 bytes at an address.
#[unsafe(no_mangle)]
pub extern "C" fn fm_stcps(
    alloc: Global,
    handle: &mut Handle,
    bytes: &mut [u8],
    keys: &mut [u8],
    cpu: u32,
    address: u32,
) -> i32
    ensures { ExecutesAt handle.old.held.inside bytes.old keys.old cpu (event_spec.ExecuteOther cpu (other_spec.Stcps address)) result handle.new.held.inside bytes.new keys.new }
{
    let instruction = OtherInstruction::Stcps { address };
    execute_other(alloc, handle, bytes, keys, cpu, instruction)
}

/// TEST PENDING INTERRUPTION, which stores the code at an address, or at 184 where that is 0. `mask` is the byte of control register 6,
/// 0 to 255, of which hexadecimal 80 is subclass 0.
#[unsafe(no_mangle)]
pub extern "C" fn fm_tpi(
    alloc: Global,
    handle: &mut Handle,
    bytes: &mut [u8],
    keys: &mut [u8],
    cpu: u32,
    mask: u32,
    address: u32,
) -> i32
    ensures { TestsAt handle.old.held.inside bytes.old keys.old cpu mask address result handle.new.held.inside bytes.new keys.new }
{
    if mask > 0xFF {
        return BAD_ARGUMENT;
    }
    let instruction = OtherInstruction::Tpi {
        mask: mask as u8,
        address,
    };
    execute_other(alloc, handle, bytes, keys, cpu, instruction)
}

/// STORE SUBCHANNEL to real address F00 (hexadecimal); then the interruption subclass, the multipath mode (0 is off) and the enabled bit,
/// which is one, are placed in the bytes there; then MODIFY SUBCHANNEL from F00. Of `subclass`, 0 to 255, the three rightmost bits are
/// placed.
#[unsafe(no_mangle)]
pub extern "C" fn fm_enable(
    alloc: Global,
    handle: &mut Handle,
    bytes: &mut [u8],
    keys: &mut [u8],
    cpu: u32,
    subchannel: u32,
    subclass: u32,
    multipath: u32,
) -> i32
    ensures { WhereGood (nat_le subclass 0xFF) (ExecutesAt handle.old.held.inside bytes.old keys.old cpu (event_spec.Execute cpu (instruction_spec.Enable subchannel subclass (not (multipath == 0)))) result handle.new.held.inside bytes.new keys.new)
        ((bytes.new ≡ bytes.old) × (keys.new ≡ keys.old)) handle.old.held.inside result handle.new.held.inside }
{
    if subclass > 0xFF {
        return BAD_ARGUMENT;
    }
    let instruction = Instruction::Enable {
        subchannel,
        subclass: subclass as u8,
        multipath: multipath != 0,
    };
    execute(alloc, handle, bytes, keys, cpu, instruction)
}
