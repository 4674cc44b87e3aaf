//! An emulator in small, as an example of how to use the channel subsystem: a guest of 64 MiB reads a clock by channel programs that
//! stand above 16 MiB. `docs/EMBEDDING.md` goes through it.
#![tactic(auto)]

mod clock;
mod guest;
mod host;

use crate::clock::Clock;
use crate::guest::{BLOCKS, GuestStorage};
use crate::host::{Host, SUBCHANNEL, Turn, program_interruption};
use chan_events::event::{Event, Instruction, OtherInstruction};
use chan_events::reply::Reply;
use chan_model::names::Cpu;
use channel_subsystem::host_fault::HostFault;
use std::alloc::Global;
use std::io;

/// Where the guest has its operation-request block, above 48 MiB.
const ORB_AT: u32 = 0x0300_0500;

/// Where its interruption-response block is stored.
const IRB_AT: u32 = 0x0300_0600;

/// Where its channel program stands.
const PROGRAM_AT: u32 = 0x0300_1000;

/// Where that reads to and writes from.
const DATA_AT: u32 = 0x0300_2000;

/// The guest's operation-request block: its parameter, format 1 and every path, and the address of its program.
const ORB: [u8; 12] = [0, 0xC1, 0x0C, 0, 0, 0x80, 0xFF, 0, 0x03, 0, 0x10, 0];

/// The guest's programs, of one command each: the time is read; bytes are written, which no clock takes; the sense byte is read.
const PROGRAMS: [[u8; 8]; 3] = [
    [0x02, 0, 0, 4, 0x03, 0, 0x20, 0],
    [0x01, 0, 0, 4, 0x03, 0, 0x20, 0],
    [0x04, 0, 0, 1, 0x03, 0, 0x20, 0],
];

/// The guest's storage, and the channel subsystem that it is lent to.
#[derive(Drop)]
struct Emulator {
    storage: GuestStorage,
    host: Host,
}

impl Emulator {
    /// The emulator with a clock at time 0; None where there is no memory.
    fn new(alloc: Global) -> Option<Emulator> {
        let storage = GuestStorage::new(alloc).ok()?;
        let host = Host::new(alloc, BLOCKS, Clock::new())?;
        Some(Emulator { storage, host })
    }

    /// One event on what the guest's storage holds.
    fn perform(&mut self, event: &Event) -> Result<Reply, HostFault> {
        match self.storage.lend() {
            Some(mut lent) => self.host.perform(&mut lent, event),
            None => Err(HostFault::OtherSize),
        }
    }

    /// CPU 0 executes an instruction.
    fn execute(&mut self, instruction: Instruction) -> Result<Reply, HostFault> {
        let cpu = Cpu::new(0).unwrap();
        self.perform(&Event::Execute { cpu, instruction })
    }

    /// CPU 0 executes TEST PENDING INTERRUPTION for all subclasses.
    fn test_interruption(&mut self) -> Result<Reply, HostFault> {
        let cpu = Cpu::new(0).unwrap();
        let instruction = OtherInstruction::Tpi {
            mask: 0xFF,
            address: 0x800,
        };
        self.perform(&Event::ExecuteOther { cpu, instruction })
    }

    /// Turns the subchannel and its unit until nothing is due.
    fn turn_until_quiet(&mut self) -> Turn {
        match self.storage.lend() {
            Some(mut lent) => self.host.turn_until_quiet(&mut lent, 100),
            None => Turn::Refused(HostFault::OtherSize),
        }
    }
}

fn main(rt: HostRuntime) -> io::Result<()> {
    match Emulator::new(rt.alloc()) {
        Some(mut emulator) => run_all(&rt, &mut emulator),
        None => println!(rt; "there is no memory"),
    }
}

/// The clock goes on by three; the guest enables its subchannel and runs its programs, and then starts one whose block does
/// not stand at a word.
fn run_all(rt: &HostRuntime, emulator: &mut Emulator) -> io::Result<()> {
    emulator.host.time_goes_on(3);
    let enable = Instruction::Enable {
        subchannel: SUBCHANNEL,
        subclass: 3,
        multipath: false,
    };
    show_reply(rt, "enable", emulator.execute(enable))?;
    for program in PROGRAMS {
        run(rt, emulator, program)?;
    }
    show_reply(rt, "start", emulator.execute(start(ORB_AT + 2)))
}

/// Runs one of the guest's programs: its CPU stores its blocks and starts it; it is turned until nothing is due, and the guest takes its
/// interruption, its status and its data.
fn run(rt: &HostRuntime, emulator: &mut Emulator, program: [u8; 8]) -> io::Result<()> {
    emulator.storage.store(ORB_AT, &ORB);
    emulator.storage.store(PROGRAM_AT, &program);
    show_reply(rt, "start", emulator.execute(start(ORB_AT)))?;
    if !matches!(emulator.turn_until_quiet(), Turn::Quiet) {
        return println!(rt; "something is due still");
    }
    show_reply(rt, "interruption", emulator.test_interruption())?;
    let test = Instruction::Tsch {
        subchannel: SUBCHANNEL,
        address: IRB_AT,
    };
    show_reply(rt, "status", emulator.execute(test))?;
    match emulator.storage.load(DATA_AT, 4) {
        Some(bytes) => show_bytes(rt, "data", bytes),
        None => println!(rt; "data: not in storage"),
    }
}

/// The guest's START SUBCHANNEL with the operation-request block at this address.
fn start(address: u32) -> Instruction {
    Instruction::Ssch {
        subchannel: SUBCHANNEL,
        address,
    }
}

/// Shows what an event answered, or the program interruption that its refusal means.
fn show_reply(rt: &HostRuntime, name: &str, outcome: Result<Reply, HostFault>) -> io::Result<()> {
    match outcome {
        Ok(Reply::Code(answer)) => println!(rt; "{name}: condition code {:?}", answer.code()),
        Ok(Reply::Status { scsw, .. }) => show_words(rt, name, scsw.words()),
        Ok(Reply::Interruption(Some(code))) => show_words(rt, name, code.words()),
        Ok(_) => println!(rt; "{name}: done"),
        Err(fault) => match program_interruption(fault) {
            Some(code) => println!(rt; "{name}: program interruption {code:04X}"),
            None => println!(rt; "{name}: {fault}"),
        },
    }
}

fn show_words(rt: &HostRuntime, name: &str, words: [u32; 3]) -> io::Result<()> {
    let [first, second, third] = words;
    println!(rt; "{name}: {first:08X} {second:08X} {third:08X}")
}

fn show_bytes(rt: &HostRuntime, name: &str, bytes: &[u8]) -> io::Result<()> {
    print!(rt; "{name}: ")?;
    for byte in bytes {
        print!(rt; "{byte:02X}")?;
    }
    println!(rt)
}
