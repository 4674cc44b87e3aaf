//! Instructions with their operand by value.

ghost use Rattle.std.specs.Prelude.{◌≡◌, ℕ, List, [], length, map};
ghost use Rattle.chan_events.specs.ReportWords as word_spec;
ghost use Rattle.host_machine.specs.Given as spec;
ghost use Rattle.host_machine.specs.Given.{Gives, GivesOther, IsGiven, IsOtherGiven};
ghost use Rattle.io_step.specs.GivenOperands.{block_bytes};

use crate::answers::{AT_OTHER_STAGE, refusal_number, reply_number};
use crate::host_machine::HostMachine;
use crate::running::Running;
use chan_events::reply::{PlainReply, Reply};
use chan_model::names::Cpu;
use io_step::{Answered, Block, ByValue, OtherByValue};
use scsw_irb::crw::Crw;

/// As many of these items as fit are written first into a room.
pub fn write_first<T: Copy + Drop>(items: &[T], room: &mut [T])
    ensures { room.new ≡ spec.written items.now room.old }
{
    let count = items.len().min(room.len());
    room[..count].copy_from_slice(&items[..count]);
}

/// The bytes of a block that an instruction left are written into a room.
fn write_block(block: &Option<Block>, room: &mut [u8])
    ensures { room.new ≡ spec.written (block_bytes block.now) room.old }
{
    match block {
        None => {}
        Some(Block::Schib(schib)) => write_first(schib, room),
        Some(Block::Irb(irb)) => write_first(irb, room),
    }
}

/// The word of a report, or zero where there is none.
pub fn report_word(report: Option<Crw>) -> u32
    ensures { result ≡ word_spec.report_word report }
{
    match report {
        Some(report) => report.word(),
        None => 0,
    }
}

/// The words that a reply tells which are to be stored are written into a room.
fn write_words(reply: &PlainReply, room: &mut [u32])
    ensures { room.new ≡ spec.written (spec.words_told reply.now) room.old }
{
    match reply {
        Reply::Interruption(Some(code)) => write_first(&code.words(), room),
        Reply::ChannelReport(report) => write_first(&[report_word(*report)], room),
        _ => {}
    }
}

/// The bytes that a reply tells which are to be stored are written into a room.
fn write_bytes(reply: &PlainReply, room: &mut [u8])
    ensures { room.new ≡ spec.written (spec.bytes_told reply.now) room.old }
{
    match reply {
        Reply::Paths { engaged } => write_first(engaged, room),
        _ => {}
    }
}

impl Running {
    fn give(&mut self, cpu: Cpu, subchannel: u32, instruction: &ByValue, room: &mut [u8]) -> i32
        ensures { IsGiven self.old cpu subchannel instruction.now result self.new room.old room.new }
    {
        match self.execute_by_value(cpu, subchannel, instruction) {
            Ok(Answered { reply, block }) => {
                write_block(&block, room);
                reply_number(&reply)
            }
            Err(fault) => refusal_number(fault),
        }
    }

    fn give_words(&mut self, cpu: Cpu, instruction: OtherByValue, room: &mut [u32]) -> i32
        ensures { IsOtherGiven spec.words_told self.old cpu instruction result self.new room.old room.new }
    {
        match self.execute_other_by_value(cpu, instruction) {
            Ok(reply) => {
                write_words(&reply, room);
                reply_number(&reply)
            }
            Err(fault) => refusal_number(fault),
        }
    }

    fn give_bytes(&mut self, cpu: Cpu, instruction: OtherByValue, room: &mut [u8]) -> i32
        ensures { IsOtherGiven spec.bytes_told self.old cpu instruction result self.new room.old room.new }
    {
        match self.execute_other_by_value(cpu, instruction) {
            Ok(reply) => {
                write_bytes(&reply, room);
                reply_number(&reply)
            }
            Err(fault) => refusal_number(fault),
        }
    }
}

impl HostMachine {
    /// A CPU executes an instruction on the subchannel that a subsystem-identification word names, with its operand by value. The
    /// block that it leaves is written into the room, as far as it fits: 52 bytes of STORE SUBCHANNEL with code 0, 64 of TEST
    /// SUBCHANNEL with codes 0 and 1.
    pub fn give(&mut self, cpu: Cpu, subchannel: u32, instruction: &ByValue, room: &mut [u8]) -> i32
        ensures { Gives self.old cpu subchannel instruction.now result self.new room.old room.new }
    {
        match self {
            HostMachine::SettingUp(_) => AT_OTHER_STAGE,
            HostMachine::Runs(running) => running.give(cpu, subchannel, instruction, room),
        }
    }

    /// A CPU executes an instruction that names no subchannel. The words that are to be stored are written into the room, as far as
    /// they fit: three of TEST PENDING INTERRUPTION with code 1, one of STORE CHANNEL REPORT WORD.
    pub fn give_words(&mut self, cpu: Cpu, instruction: OtherByValue, room: &mut [u32]) -> i32
        ensures { GivesOther spec.words_told self.old cpu instruction result self.new room.old room.new }
    {
        match self {
            HostMachine::SettingUp(_) => AT_OTHER_STAGE,
            HostMachine::Runs(running) => running.give_words(cpu, instruction, room),
        }
    }

    /// The same, with the bytes that are to be stored: 32 of STORE CHANNEL PATH STATUS.
    pub fn give_bytes(&mut self, cpu: Cpu, instruction: OtherByValue, room: &mut [u8]) -> i32
        ensures { GivesOther spec.bytes_told self.old cpu instruction result self.new room.old room.new }
    {
        match self {
            HostMachine::SettingUp(_) => AT_OTHER_STAGE,
            HostMachine::Runs(running) => running.give_bytes(cpu, instruction, room),
        }
    }
}
