//! What a CPU executes among many, what an operator does beside it, and what both see.

ghost use Rattle.std.specs.Prelude.{◌≡◌, None};

use crate::tests::machines::{ORB, enable, word_of};
use chan_events::event::{Event, Instruction, OtherInstruction, UnitAct};
use chan_model::names::{Cpu, Side};
use core_lock::executing::CpuInstruction;
use core_lock::locked::Seat;
use core_lock::naming::MachineBrand;

/// How many subchannels a CPU has.
pub const EACH: u32 = 4;

/// The real address at which a CPU stores.
fn index_of(cpu: Cpu) -> u32 {
    0x4000 + 0x100 * u32::from(cpu.number())
}

/// The subchannel of a CPU in a round: each for eight instructions.
fn subchannel_of(cpu: Cpu, round: u64) -> u32 {
    word_of(EACH * u32::from(cpu.number()) + ((round / 8) % 4) as u32)
}

/// How many kinds of events an operator enters: a path that goes down, one that comes up, a restart, a notice, an attention.
pub const KINDS: usize = 5;

/// How many of each kind there are to be at least: an operator among so many comes to the lock seldom.
pub const LEAST: u64 = 2;

/// What a racer keeps in mind: of a CPU what was seen last of each of its subchannels, how many statuses were made and how many
/// cleared; of an operator how many events of each kind were accepted.
#[derive(Drop)]
pub struct Mind {
    last: [(u64, u64); EACH as usize],
    accepted: [u64; KINDS],
}

impl Mind {
    /// Nothing.
    pub fn new() -> Self {
        Mind {
            last: [(0, 0); EACH as usize],
            accepted: [0; KINDS],
        }
    }

    /// One event more that was accepted.
    pub fn accepts(&mut self, event: &Event) {
        let Some(kind) = kind_of(event) else {
            return;
        };
        if let Some(count) = self.accepted.get_mut(kind) {
            *count = count.saturating_add(1);
        }
    }

    /// Of how many kinds there are enough.
    pub fn kinds(&self) -> u64 {
        let mut kinds = 0u64;
        for count in self.accepted {
            if count >= LEAST {
                kinds = kinds.saturating_add(1);
            }
        }
        kinds
    }
}

/// Of which kind an event of an operator is.
pub fn kind_of(event: &Event) -> Option<usize> {
    match event {
        Event::PathDown { .. } => Some(0),
        Event::PathUp { .. } => Some(1),
        Event::Restart { .. } => Some(2),
        Event::Act {
            act: UnitAct::Notice { .. },
            ..
        } => Some(3),
        Event::Act {
            act: UnitAct::Attention { .. },
            ..
        } => Some(4),
        _ => None,
    }
}

/// Whether a glance at the subchannel of a CPU is in order: of what was seen before nothing falls, and no status is seen cleared
/// that is not seen made.
pub fn glances_in_order<J: MachineBrand>(
    seat: &mut Seat<J>,
    cpu: Cpu,
    round: u64,
    mind: &mut Mind,
) -> bool
    requires { seat.old.value.owed ≡ None }
    ensures { seat.new.value.owed ≡ None }
{
    let Ok(glance) = seat.glance(subchannel_of(cpu, round)) else {
        return false;
    };
    let Some(last) = mind.last.get_mut(((round / 8) % 4) as usize) else {
        return false;
    };
    let in_order = last.0 <= glance.made
        && last.1 <= glance.cleared
        && glance.cleared <= glance.made;
    *last = (glance.made, glance.cleared);
    in_order
}

/// What an operator does in a round: a path goes down, a unit of another number is restarted, asks for attention or tells of its
/// restarts, and the path comes up.
pub fn disturbance_of(round: u64) -> Event {
    let turn = round / 8;
    let chpid = 0x10 + (turn % 8) as u32;
    let unit = ((turn / 8) % 64) as u32;
    let path = ((turn % 8 + 1) % 8) as u32;
    let side = Side::First;
    match round % 8 {
        0 => Event::PathDown { chpid },
        1 => Event::Restart { unit },
        2 => Event::PathUp { chpid },
        3 | 4 => Event::Act {
            unit,
            act: UnitAct::Notice { path, side },
        },
        _ => Event::Act {
            unit,
            act: UnitAct::Attention { path, side },
        },
    }
}

/// An instruction that only some CPUs execute.
fn rare(cpu: Cpu, subchannel: u32) -> Instruction {
    match cpu.number() % 4 {
        0 => Instruction::Hsch { subchannel },
        1 => Instruction::Csch { subchannel },
        2 => Instruction::Xsch { subchannel },
        _ => Instruction::Rsch { subchannel },
    }
}

/// TEST PENDING INTERRUPTION and STORE CHANNEL PATH STATUS.
fn other(cpu: Cpu, round: u64) -> CpuInstruction {
    let address = index_of(cpu);
    if round % 16 < 8 {
        return CpuInstruction::OfSubsystem(OtherInstruction::Tpi {
            mask: 0x80,
            address,
        });
    }
    CpuInstruction::OfSubsystem(OtherInstruction::Stcps { address })
}

/// What a CPU executes in a round.
pub fn instruction_of(cpu: Cpu, round: u64) -> CpuInstruction {
    let subchannel = subchannel_of(cpu, round);
    let address = index_of(cpu);
    let instruction = match round % 8 {
        0 => Instruction::Ssch {
            subchannel,
            address: ORB,
        },
        1 => return other(cpu, round),
        2 => Instruction::Stsch {
            subchannel,
            address,
        },
        3 if round % 64 >= 32 => rare(cpu, subchannel),
        4 => enable(subchannel, false),
        _ => Instruction::Tsch {
            subchannel,
            address,
        },
    };
    CpuInstruction::OnSubchannel(instruction)
}
