//! Cycles at the last subchannel of a channel subsystem.

use crate::cycle::{Beat, IRB, Kind, ORB, data, orb};
use crate::driver::Driver;
use crate::floor::Floor;
use chan_events::event::{Event, Instruction, UnitAct};
use chan_model::names::Cpu;
use channel_config::config::Config;
use channel_config::parts::UnitKind;
use std::alloc::{AllocError, Global};

/// The channel paths of each subchannel, the first of them or all.
const CHPIDS: [u32; 8] = [0x10, 0x11, 0x12, 0x13, 0x14, 0x15, 0x16, 0x17];

/// The most subchannels that there are: 256 in each of four sets.
const MOST_SUBCHANNELS: u32 = 0x400;

/// So many cycles of this kind, at the last of so many subchannels.
#[derive(Clone, Copy)]
pub struct Work {
    pub kind: Kind,
    pub subchannels: u32,
    pub cycles: u64,
}

/// What came of the cycles.
#[derive(Clone, Copy)]
pub struct Count {
    /// How many events were accepted.
    pub accepted: u64,
    /// How many were refused.
    pub refused: u64,
    /// How many statuses were made and cleared.
    pub cleared: u64,
}

/// The subchannel that is measured, its unit, and the CPU whose instructions are executed on it.
#[derive(Clone, Copy)]
pub struct Place {
    cpu: Cpu,
    subchannel: u32,
    unit: u32,
}

/// The subsystem-identification word of the subchannel of this index.
pub fn word_of(index: u32) -> u32 {
    0x0001_0000 | ((index >> 8) << 17) | (index & 0xFF)
}

/// So many subchannels, 1 to 1,024, with so many paths, each with a unit of its own. None where there are not so many.
pub fn config_of(alloc: Global, subchannels: u32, paths: usize) -> Option<Config> {
    if subchannels == 0 || subchannels > MOST_SUBCHANNELS {
        return None;
    }
    let mut config = Config::new(alloc);
    let _ = config.storage(0x10);
    let _ = config.sets(4);
    let chpids = &CHPIDS[..paths.min(8)];
    for chpid in chpids {
        let _ = config.path(*chpid);
    }
    for index in 0..subchannels {
        let _ = config.unit(index, UnitKind::Block);
        let _ = config.subchannel(word_of(index), index & 0xFFFF, index, chpids);
    }
    Some(config)
}

impl Work {
    /// The machine at which it is done. None where there are not so many subchannels.
    pub fn config(self, alloc: Global) -> Option<Config> {
        config_of(alloc, self.subchannels, self.kind.paths())
    }
}

impl Place {
    /// The last of so many subchannels; None where there are none.
    pub fn last_of(subchannels: u32) -> Option<Place> {
        let last = subchannels.checked_sub(1)?;
        Some(Place {
            cpu: Cpu::new(0)?,
            subchannel: word_of(last),
            unit: last,
        })
    }

    /// The event of an instruction.
    fn instruction(&self, instruction: Instruction) -> Event {
        Event::Execute {
            cpu: self.cpu,
            instruction,
        }
    }

    /// The event of an act of the unit.
    fn act(&self, act: UnitAct) -> Event {
        Event::Act {
            unit: self.unit,
            act,
        }
    }

    /// The event that enables the subchannel.
    pub fn enabling(&self) -> Event {
        self.instruction(Instruction::Enable {
            subchannel: self.subchannel,
            subclass: 0,
            multipath: true,
        })
    }

    /// The event of a beat; None where it is the report of what the device answers then.
    fn event(&self, beat: Beat) -> Option<Event> {
        let subchannel = self.subchannel;
        match beat {
            Beat::Start => Some(self.instruction(Instruction::Ssch {
                subchannel,
                address: ORB,
            })),
            Beat::Choose => Some(Event::Choose { subchannel }),
            Beat::Down(path) => Some(Event::Down { subchannel, path }),
            Beat::Up(path) => Some(Event::Up { subchannel, path }),
            Beat::Device => None,
            Beat::Leave => Some(self.act(UnitAct::Leave)),
            Beat::Ask(path) => Some(self.act(UnitAct::Ask { path })),
            Beat::Test => Some(self.instruction(Instruction::Tsch {
                subchannel,
                address: IRB,
            })),
            Beat::Cancel => Some(self.instruction(Instruction::Xsch { subchannel })),
        }
    }

    /// Adds the events of these beats, which are made once for all cycles.
    fn add_events(
        &self,
        beats: &[Beat],
        events: &mut Vec<Option<Event>>,
    ) -> Result<(), AllocError> {
        for beat in beats {
            events.push(self.event(*beat))?;
        }
        Ok(())
    }
}

/// Whether the program is put into storage, and the subchannel enabled.
fn begins<F: Floor>(floor: &mut F, place: &Place, kind: Kind) -> bool {
    let loaded = floor.accepts(&orb()) && floor.accepts(&data()) && floor.accepts(&kind.program());
    let whole = match kind.rest() {
        Some(rest) => floor.accepts(&rest),
        None => true,
    };
    loaded && whole && floor.accepts(&place.enabling())
}

/// Whether an event is accepted; where it is none, the report of the device's answer.
fn performs<F: Floor>(floor: &mut F, driver: &mut Driver, event: &Option<Event>) -> bool {
    match event {
        Some(event) => floor.accepts(event),
        None => floor.has_report(driver) && floor.accepts(driver.event()),
    }
}

/// One cycle: how many of its events were refused.
fn refused_in<F: Floor>(floor: &mut F, driver: &mut Driver, events: &[Option<Event>]) -> u64 {
    let mut refused = 0u64;
    for event in events {
        if !performs(floor, driver, event) {
            refused = refused.saturating_add(1);
        }
    }
    refused
}

/// So many cycles of these events: what came of them.
fn counted<F: Floor>(floor: &mut F, place: &Place, events: &[Option<Event>], cycles: u64) -> Count {
    let mut driver = Driver::of(place.unit);
    let before = floor.accepted();
    let mut refused = 0u64;
    for _ in 0..cycles {
        refused = refused.saturating_add(refused_in(floor, &mut driver, events));
    }
    Count {
        accepted: floor.accepted().saturating_sub(before),
        refused,
        cleared: floor.cleared(place.subchannel),
    }
}

/// So many cycles of this kind, whose beats and events are kept in these lists.
fn measured_in<F: Floor>(
    floor: &mut F,
    place: &Place,
    kind: Kind,
    cycles: u64,
    beats: &mut Vec<Beat>,
    events: &mut Vec<Option<Event>>,
) -> Result<Count, AllocError> {
    kind.add_beats(beats)?;
    place.add_events(beats.as_slice(), events)?;
    Ok(counted(floor, place, events.as_slice(), cycles))
}

/// A program of this kind is put into storage, the last subchannel enabled, and so many cycles performed. None where that is
/// refused, or no memory is left.
pub fn measured<F: Floor>(alloc: Global, floor: &mut F, work: Work) -> Option<Count> {
    let place = Place::last_of(work.subchannels)?;
    if !begins(floor, &place, work.kind) {
        return None;
    }
    let mut beats = Vec::new(alloc);
    let mut events = Vec::new(alloc);
    measured_in(
        floor,
        &place,
        work.kind,
        work.cycles,
        &mut beats,
        &mut events,
    )
    .ok()
}
