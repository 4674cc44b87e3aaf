//! A machine of one path, and a write from its start to its status.

use chan_events::event::{Event, Instruction};
use chan_model::chunk::Chunk;
use chan_model::names::{Cpu, Side};
use chan_model::report::{DeviceAnswer, Report};
use channel_config::config::Config;
use channel_config::parts::UnitKind;
use scsw_irb::status::DeviceStatus;
use std::alloc::Global;

pub const WORD: u32 = 0x0001_0000;

/// Storage of 16 blocks, one path, and one subchannel with a unit of its own.
pub fn one_path(alloc: Global) -> Config {
    let mut config = Config::new(alloc);
    let _ = config.storage(0x10);
    let _ = config.path(0x10);
    let _ = config.unit(0, UnitKind::Block);
    let _ = config.subchannel(WORD, 0x100, 0, &[0x10]);
    config
}

/// The unit takes a signal.
const DOWN: Event = Event::Down {
    subchannel: WORD,
    path: 0,
};

/// The subchannel takes a signal.
const UP: Event = Event::Up {
    subchannel: WORD,
    path: 0,
};

/// What the device answers, after so many chunks.
fn report(sequence: u64, answer: DeviceAnswer) -> Event {
    Event::Report {
        unit: 0,
        report: Report {
            side: Side::First,
            number: 1,
            command: 1,
            sequence,
            answer,
        },
    }
}

/// CPU 0 executes an instruction.
fn execute(instruction: Instruction) -> Event {
    Event::Execute {
        cpu: Cpu::new(0).unwrap(),
        instruction,
    }
}

/// How many events a write has.
pub const EVENTS: usize = 17;

/// A write of four bytes, from what is put into storage to the status that its subchannel has.
pub fn script() -> [Event; EVENTS] {
    [
        Event::Put {
            address: 0x500,
            bytes: Chunk::of(&[0, 0, 0, 0, 0, 0x80, 0xFF, 0, 0, 0, 0x10, 0]),
        },
        Event::Put {
            address: 0x1000,
            bytes: Chunk::of(&[1, 0x20, 0, 4, 0, 0, 0x20, 0]),
        },
        Event::Put {
            address: 0x2000,
            bytes: Chunk::of(&[0xC1, 0xC2, 0xC3, 0xC4]),
        },
        execute(Instruction::Enable {
            subchannel: WORD,
            subclass: 0,
            multipath: false,
        }),
        execute(Instruction::Ssch {
            subchannel: WORD,
            address: 0x500,
        }),
        Event::Choose { subchannel: WORD },
        DOWN,
        UP,
        DOWN,
        report(0, DeviceAnswer::Begins),
        UP,
        DOWN,
        report(1, DeviceAnswer::Absorbed(4)),
        UP,
        DOWN,
        report(
            2,
            DeviceAnswer::Ended {
                status: DeviceStatus::end(),
                more: false,
            },
        ),
        UP,
    ]
}
