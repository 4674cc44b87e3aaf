//! Events: what may happen to a channel subsystem, one at a time.

ghost use Rattle.std.specs.Prelude.{◌≡◌, ◌≤◌, ◌++◌, ⊤, ℕ, List, length};
ghost use Rattle.chan_events.specs.Events as spec;
ghost use Rattle.chan_events.specs.Instructions as instructions;

use chan_model::chunk::{Chunk, ChunkLength};
use chan_model::names::{Cpu, Side};
use chan_model::report::{DeviceAnswer, KeptReport, Report};
use std::alloc::AllocError;
use storage_keys::key::Key;

/// An I/O instruction (SA22-7832, chapter 14). `subchannel` is general register 1: the subsystem-identification word.
#[derive(Clone, Copy, Debug, PartialEq, Eq)]
pub enum Instruction {
    /// START SUBCHANNEL with the ORB at this real address.
    Ssch {
        subchannel: u32,
        address: u32,
    },
    /// TEST SUBCHANNEL, which stores an IRB at this real address.
    Tsch {
        subchannel: u32,
        address: u32,
    },
    /// STORE SUBCHANNEL, which stores a SCHIB at this real address.
    Stsch {
        subchannel: u32,
        address: u32,
    },
    /// MODIFY SUBCHANNEL with the SCHIB at this real address.
    Msch {
        subchannel: u32,
        address: u32,
    },
    /// RESUME SUBCHANNEL.
    Rsch {
        subchannel: u32,
    },
    /// HALT SUBCHANNEL.
    Hsch {
        subchannel: u32,
    },
    /// CLEAR SUBCHANNEL.
    Csch {
        subchannel: u32,
    },
    /// CANCEL SUBCHANNEL.
    Xsch {
        subchannel: u32,
    },
    /// STORE SUBCHANNEL to real F00 (hexadecimal); then the interruption subclass, the multipath mode and the enabled bit,
    /// which is one, are placed in the bytes there; then MODIFY SUBCHANNEL from F00. They are executed as one instruction
    /// (own), with MODIFY SUBCHANNEL's condition code. Of `subclass` the three rightmost bits are placed.
    Enable {
        subchannel: u32,
        subclass: u8,
        multipath: bool,
    },
}

impl Instruction {
    /// General register 1: the word that names its subchannel.
    pub fn subchannel_word(self) -> u32
        ensures { result ≡ instructions.subchannel_word self }
    {
        match self {
            Instruction::Ssch { subchannel, .. }
            | Instruction::Tsch { subchannel, .. }
            | Instruction::Stsch { subchannel, .. }
            | Instruction::Msch { subchannel, .. }
            | Instruction::Rsch { subchannel }
            | Instruction::Hsch { subchannel }
            | Instruction::Csch { subchannel }
            | Instruction::Xsch { subchannel }
            | Instruction::Enable { subchannel, .. } => subchannel,
        }
    }
}

/// An I/O instruction that names no subchannel (SA22-7832, chapter 14). Addresses are real.
#[derive(Clone, Copy, Debug, PartialEq, Eq)]
pub enum OtherInstruction {
    /// TEST PENDING INTERRUPTION. `mask` is the byte of control register 6: hexadecimal 80 is subclass 0. With address
    /// 0 the code is stored at 184.
    Tpi { mask: u8, address: u32 },
    /// RESET CHANNEL PATH. `path` is general register 1.
    Rchp { path: u32 },
    /// STORE CHANNEL REPORT WORD.
    Stcrw { address: u32 },
    /// STORE CHANNEL PATH STATUS.
    Stcps { address: u32 },
}

/// An act of a unit of itself, told to the subchannel of a side. `path` is the index of a path of that subchannel.
#[derive(Clone, Copy, Debug, PartialEq, Eq)]
pub enum UnitAct {
    /// The program that is connected leaves its path and works on.
    Leave,
    /// The program that is without a path asks for one.
    Ask { path: u32 },
    /// The unit, which no program holds, asks a side for attention.
    Attention { path: u32, side: Side },
    /// A side that was not reset since the last restart is told how often the unit was restarted.
    Notice { path: u32, side: Side },
}

/// An event, over what stands for its bytes and for a report. `subchannel` is a subsystem-identification word, `path` the index
/// of a path of that subchannel.
#[derive(Copy, Drop)]
pub enum Event<B = Chunk, R = Report> {
    /// Bytes are put into storage at an absolute address.
    Put {
        address: u32,
        bytes: B,
    },
    /// The key of the block in which an absolute address lies is set.
    SetKey {
        address: u32,
        key: Key,
    },
    /// The prefix of a CPU is set.
    SetPrefix {
        cpu: Cpu,
        address: u32,
    },
    /// Bytes of storage are shown from an absolute address on.
    Show {
        address: u32,
        length: ChunkLength,
    },
    /// A CPU executes an instruction.
    Execute {
        cpu: Cpu,
        instruction: Instruction,
    },
    /// A CPU executes an instruction that names no subchannel.
    ExecuteOther {
        cpu: Cpu,
        instruction: OtherInstruction,
    },
    /// The subsystem does what it must for a subchannel.
    Choose {
        subchannel: u32,
    },
    /// The subchannel takes the signal that waits longest on the wire up of a path.
    Up {
        subchannel: u32,
        path: u32,
    },
    /// The unit takes the signal that waits longest on the wire down of a path.
    Down {
        subchannel: u32,
        path: u32,
    },
    /// A device answered.
    Report {
        unit: u32,
        report: R,
    },
    /// A unit acts of itself.
    Act {
        unit: u32,
        act: UnitAct,
    },
    /// A unit is restarted.
    Restart {
        unit: u32,
    },
    /// A channel path goes down. `chpid` is its identifier, here and below.
    PathDown {
        chpid: u32,
    },
    /// A channel path that was down comes up.
    PathUp {
        chpid: u32,
    },
    /// A channel path whose reset was asked for is reset.
    PathReset {
        chpid: u32,
    },
    /// The channel subsystem is reset.
    SystemReset,
}

impl<B: Copy, R: Copy> Clone for Event<B, R> {
    ghost is_clone = { λ x y. y ≡ x };

    ghost is_infallible = { λ _. ⊤ };

    fn clone(&self) -> Result<Self, AllocError> {
        Ok(*self)
    }
}

/// An event whose bytes stand elsewhere.
pub type KeptEvent = Event<ChunkLength, KeptReport>;

impl Event {
    /// Its bytes; most events have none.
    pub fn bytes(&self) -> &[u8]
        ensures value { result.now ≡ spec.event_bytes self.now }
        ensures bound { length result.now ≤ 256 }
    {
        match self {
            Event::Put { bytes, .. } => bytes.as_slice(),
            Event::Report { report, .. } => match &report.answer {
                DeviceAnswer::Supplied(bytes) => bytes.as_slice(),
                _ => &[],
            },
            _ => &[],
        }
    }

    /// Writes it there, its bytes standing elsewhere.
    pub fn keep_in(&self, slot: &mut KeptEvent)
        ensures kept { (rest : List ℕ) → spec.event_in slot.new (spec.event_bytes self.now ++ rest) ≡ self.now }
        ensures length { spec.event_length slot.new ≡ length (spec.event_bytes self.now) }
        ensures bound { length (spec.event_bytes self.now) ≤ 256 }
    {
        match self {
            Event::Put { address, bytes } => *slot = Event::Put {
                address: *address,
                bytes: bytes.length(),
            },
            Event::SetKey { address, key } => *slot = Event::SetKey {
                address: *address,
                key: *key,
            },
            Event::SetPrefix { cpu, address } => *slot = Event::SetPrefix {
                cpu: *cpu,
                address: *address,
            },
            Event::Show { address, length } => *slot = Event::Show {
                address: *address,
                length: *length,
            },
            Event::Execute { cpu, instruction } => *slot = Event::Execute {
                cpu: *cpu,
                instruction: *instruction,
            },
            Event::ExecuteOther { cpu, instruction } => *slot = Event::ExecuteOther {
                cpu: *cpu,
                instruction: *instruction,
            },
            Event::Choose { subchannel } => *slot = Event::Choose {
                subchannel: *subchannel,
            },
            Event::Up { subchannel, path } => *slot = Event::Up {
                subchannel: *subchannel,
                path: *path,
            },
            Event::Down { subchannel, path } => *slot = Event::Down {
                subchannel: *subchannel,
                path: *path,
            },
            Event::Report { unit, report } => *slot = Event::Report {
                unit: *unit,
                report: report.keep(),
            },
            Event::Act { unit, act } => *slot = Event::Act {
                unit: *unit,
                act: *act,
            },
            Event::Restart { unit } => *slot = Event::Restart { unit: *unit },
            Event::PathDown { chpid } => *slot = Event::PathDown { chpid: *chpid },
            Event::PathUp { chpid } => *slot = Event::PathUp { chpid: *chpid },
            Event::PathReset { chpid } => *slot = Event::PathReset { chpid: *chpid },
            Event::SystemReset => *slot = Event::SystemReset,
        }
    }

    /// The same event, its bytes standing elsewhere.
    pub fn keep(&self) -> KeptEvent
        ensures kept { (rest : List ℕ) → spec.event_in result (spec.event_bytes self.now ++ rest) ≡ self.now }
        ensures length { spec.event_length result ≡ length (spec.event_bytes self.now) }
        ensures bound { length (spec.event_bytes self.now) ≤ 256 }
    {
        let mut kept = Event::SystemReset;
        self.keep_in(&mut kept);
        kept
    }

    /// The same event; it takes no memory.
    pub fn copy(&self) -> Self
        ensures { result ≡ self.now }
    {
        self.keep().own(self.bytes())
    }
}

impl KeptEvent {
    /// How many bytes it has.
    pub fn length(&self) -> usize
        ensures value { result ≡ spec.event_length self.now }
        ensures bound { result ≤ 256 }
    {
        match self {
            Event::Put { bytes, .. } => bytes.get(),
            Event::Report { report, .. } => report.answer.length(),
            _ => 0,
        }
    }

    /// The event with the first of these bytes, which become its own.
    pub fn own(&self, given: &[u8]) -> Event
        requires { spec.event_length self.now ≤ length given.now }
        ensures { result ≡ spec.event_in self.now given.now }
    {
        match self {
            Event::Put { address, bytes } => Event::Put {
                address: *address,
                bytes: Chunk::first(*bytes, given),
            },
            Event::SetKey { address, key } => Event::SetKey {
                address: *address,
                key: *key,
            },
            Event::SetPrefix { cpu, address } => Event::SetPrefix {
                cpu: *cpu,
                address: *address,
            },
            Event::Show { address, length } => Event::Show {
                address: *address,
                length: *length,
            },
            Event::Execute { cpu, instruction } => Event::Execute {
                cpu: *cpu,
                instruction: *instruction,
            },
            Event::ExecuteOther { cpu, instruction } => Event::ExecuteOther {
                cpu: *cpu,
                instruction: *instruction,
            },
            Event::Choose { subchannel } => Event::Choose {
                subchannel: *subchannel,
            },
            Event::Up { subchannel, path } => Event::Up {
                subchannel: *subchannel,
                path: *path,
            },
            Event::Down { subchannel, path } => Event::Down {
                subchannel: *subchannel,
                path: *path,
            },
            Event::Report { unit, report } => Event::Report {
                unit: *unit,
                report: report.own(given),
            },
            Event::Act { unit, act } => Event::Act {
                unit: *unit,
                act: *act,
            },
            Event::Restart { unit } => Event::Restart { unit: *unit },
            Event::PathDown { chpid } => Event::PathDown { chpid: *chpid },
            Event::PathUp { chpid } => Event::PathUp { chpid: *chpid },
            Event::PathReset { chpid } => Event::PathReset { chpid: *chpid },
            Event::SystemReset => Event::SystemReset,
        }
    }
}

const _: () = prove!(size_of::<KeptEvent>() == 40);
