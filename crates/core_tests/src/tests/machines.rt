//! Machines of alike subchannels, and their events.

use chan_events::event::{Event, Instruction};
use chan_model::chunk::Chunk;
use chan_model::names::Cpu;
use channel_config::config::Config;
use channel_config::parts::UnitKind;
use core_lock::locked::{Core, Seat};
use core_lock::naming::MachineBrand;
use path_select::Rotating;
use std::alloc::Global;

/// The subsystem-identification word of subchannel 0.
pub const WORD: u32 = 0x0001_0000;

/// Where the ORB lies that `loads` puts.
pub const ORB: u32 = 0x500;

/// The subsystem-identification word of a subchannel.
pub fn word_of(subchannel: u32) -> u32 {
    WORD | (subchannel & 0xFFFF)
}

/// Storage of 10 blocks (hexadecimal), and so many subchannels, each with the unit of its number, a store of blocks, on these
/// channel paths.
pub fn config_of(alloc: Global, subchannels: u32, chpids: &[u32]) -> Config {
    let mut config = Config::new(alloc);
    let _ = config.storage(0x10);
    for chpid in chpids {
        let _ = config.path(*chpid);
    }
    for number in 0..subchannels {
        let _ = config.unit(number, UnitKind::Block);
        let _ = config.subchannel(word_of(number), number & 0xFFFF, number, chpids);
    }
    config
}

/// The same, each subchannel on a channel path of its own, from 10 (hexadecimal) on.
pub fn apart(alloc: Global, subchannels: u32) -> Config {
    let mut config = Config::new(alloc);
    let _ = config.storage(0x10);
    for number in 0..subchannels.min(0x80) {
        let chpid = 0x10 + number;
        let _ = config.path(chpid);
        let _ = config.unit(number, UnitKind::Block);
        let _ = config.subchannel(word_of(number), number, number, &[chpid]);
    }
    config
}

/// Bytes are put into storage.
fn put(address: u32, bytes: &[u8]) -> Event {
    let mut chunk = Chunk::new();
    for byte in bytes {
        if chunk.len() < 256 {
            chunk.push(*byte);
        }
    }
    Event::Put {
        address,
        bytes: chunk,
    }
}

/// A channel program that writes four bytes is put into storage, with its ORB: format 1, all paths.
pub fn loads() -> [Event; 3] {
    [
        put(ORB, &[0, 0, 0, 0, 0, 0x80, 0xFF, 0, 0, 0, 0x10, 0]),
        put(0x1000, &[1, 0x20, 0, 4, 0, 0, 0x20, 0]),
        put(0x2000, &[0xC1, 0xC2, 0xC3, 0xC4]),
    ]
}

/// The subchannel is enabled.
pub fn enable(subchannel: u32, multipath: bool) -> Instruction {
    Instruction::Enable {
        subchannel,
        subclass: 0,
        multipath,
    }
}

/// START SUBCHANNEL with the program that `loads` puts.
pub fn ssch(subchannel: u32) -> Instruction {
    Instruction::Ssch {
        subchannel,
        address: ORB,
    }
}

/// TEST SUBCHANNEL.
pub fn tsch(subchannel: u32) -> Instruction {
    Instruction::Tsch {
        subchannel,
        address: 0x600,
    }
}

/// Whether all these instructions of a CPU are accepted, one after another.
pub fn accepts<J: MachineBrand>(
    core: &mut Core<J, Rotating>,
    seat: &mut Seat<J>,
    cpu: Cpu,
    instructions: &[Instruction],
) -> bool {
    for instruction in instructions {
        let event = Event::Execute {
            cpu,
            instruction: *instruction,
        };
        if core.enter(seat, event).is_err() {
            return false;
        }
    }
    true
}

/// Whether all these events are accepted, one after another.
pub fn accepts_all<J: MachineBrand>(
    core: &mut Core<J, Rotating>,
    seat: &mut Seat<J>,
    events: &[Event],
) -> bool {
    for event in events {
        if core.enter(seat, event.copy()).is_err() {
            return false;
        }
    }
    true
}
