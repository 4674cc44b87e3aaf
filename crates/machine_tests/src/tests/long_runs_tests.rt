//! A history, a log, a run and a configuration beyond each size at which a body could stop unasked.

use chan_events::event::Event;
use chan_model::chunk::Chunk;
use channel_config::config::Config;
use channel_config::parts::UnitKind;
use event_log::logs::Log;
use path_select::Lowest;
use std::alloc::Global;
use subsystem::subsystem::Subsystem;

/// As many entries as a history and a log are to keep.
const ENTRIES: usize = 300_000;

/// As many events as one run is to answer.
const EVENTS: usize = 5_000;

/// Four bytes are put into storage.
fn put() -> Event {
    Event::Put {
        address: 0x500,
        bytes: Chunk::of(&[1, 2, 3, 4]),
    }
}

/// As many of them.
fn puts(alloc: Global) -> Vec<Event> {
    let event = put();
    let mut events = Vec::new(alloc);
    for _event in 0..EVENTS {
        let _ = events.push(event.copy());
    }
    events
}

/// Whether these events are answered in one run, and the history grows on after it.
fn grows(alloc: Global, subsystem: &mut Subsystem<Lowest>, events: &[Event]) -> bool {
    let event = put();
    let answered = events.len() == EVENTS && subsystem.run(alloc, events).is_ok();
    for _entry in EVENTS..ENTRIES {
        if subsystem.step(&event).is_err() {
            return false;
        }
    }
    answered && subsystem.history().len() == ENTRIES
}

/// The same, of a subsystem without subchannels.
fn has_grown(alloc: Global, events: &[Event]) -> bool {
    let mut config = Config::new(alloc);
    let _ = config.storage(0x10);
    match Subsystem::new(alloc, config, Lowest {}) {
        Ok(mut subsystem) => grows(alloc, &mut subsystem, events),
        Err(_) => false,
    }
}

#[test]
fn a_run_answers_5000_events_and_a_history_has_300000_entries(rt: HostRuntime) {
    let events = puts(rt.alloc());
    let grown = has_grown(rt.alloc(), events.as_slice());
    drop(events);
    assert!(rt; grown);
}

/// Whether a log keeps so many entries.
fn is_kept(log: &mut Log) -> bool {
    let event = put();
    for _entry in 0..ENTRIES {
        if log.make_room().is_ok() {
            log.finish(&event);
        }
    }
    log.len() == ENTRIES
}

#[test]
fn a_log_has_300000_entries(rt: HostRuntime) {
    let kept = is_kept(&mut Log::new(rt.alloc()));
    assert!(rt; kept);
}

/// 1,024 subchannels in four sets, each with a unit of its own.
fn four_sets(alloc: Global) -> Config {
    let mut config = Config::new(alloc);
    let _ = config.storage(0x10);
    let _ = config.sets(4);
    let _ = config.path(0x10);
    for unit in 0..0x400u32 {
        let word = 0x0001_0000 | (unit & 3) << 17 | unit >> 2;
        let _ = config.unit(unit, UnitKind::Block);
        let _ = config.subchannel(word, unit, unit, &[0x10]);
    }
    config
}

/// How many subchannels a subsystem of these has; none where it is not made.
fn count(alloc: Global) -> usize {
    match Subsystem::new(alloc, four_sets(alloc), Lowest {}) {
        Ok(subsystem) => subsystem.count(),
        Err(_) => 0,
    }
}

#[test]
fn a_subsystem_of_1024_subchannels_is_made(rt: HostRuntime) {
    assert!(rt; count(rt.alloc()) == 0x400);
}
