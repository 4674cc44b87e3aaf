//! Buffers for the events that are entered and for the lines that are written, made once.

ghost use Rattle.std.specs.Prelude.{◌≡◌, ◌≤◌, length};
ghost use Rattle.chan_events.specs.declared.event.Event.TheVariants as event_spec;

use chan_events::event::{Event, Instruction};
use chan_model::names::Cpu;
use script_text::held::Held;
use unit_driver::reporting::no_report;

/// Buffers for the events of lines, by what is common among them, one for the event of a report, and one for the line that is
/// written. An event that is of the kind that stood in its place moves no more than its numbers.
#[derive(Drop)]
pub struct EventBuffers {
    pub up: Event,
    pub down: Event,
    pub choose: Event,
    pub execute: Event,
    pub event: Event,
    pub report: Event,
    pub held: Held,
}

impl EventBuffers {
    /// Buffers, with a reset of the subsystem, or a report that no one made, where no event stands yet.
    pub fn new() -> Self {
        EventBuffers {
            up: Event::SystemReset,
            down: Event::SystemReset,
            choose: Event::SystemReset,
            execute: Event::SystemReset,
            event: Event::SystemReset,
            report: Event::Report {
                unit: 0,
                report: no_report(),
            },
            held: Held::new(),
        }
    }
}

/// Writes to its slot that a subchannel takes a signal.
pub(crate) fn write_up(slot: &mut Event, word: u32, index: u32)
    ensures { slot.new ≡ event_spec.Up word index }
{
    match slot {
        Event::Up { subchannel, path } => {
            *subchannel = word;
            *path = index;
        }
        _ => *slot = Event::Up {
            subchannel: word,
            path: index,
        },
    }
}

/// Writes to its slot that a unit takes a signal.
pub(crate) fn write_down(slot: &mut Event, word: u32, index: u32)
    ensures { slot.new ≡ event_spec.Down word index }
{
    match slot {
        Event::Down { subchannel, path } => {
            *subchannel = word;
            *path = index;
        }
        _ => *slot = Event::Down {
            subchannel: word,
            path: index,
        },
    }
}

/// Writes to its slot that a path is chosen for a subchannel.
pub(crate) fn write_choose(slot: &mut Event, word: u32)
    ensures { slot.new ≡ event_spec.Choose word }
{
    match slot {
        Event::Choose { subchannel } => *subchannel = word,
        _ => *slot = Event::Choose { subchannel: word },
    }
}

/// Writes to its slot that a CPU executes an instruction.
pub(crate) fn write_execute(slot: &mut Event, by: Cpu, given: Instruction)
    ensures { slot.new ≡ event_spec.Execute by given }
{
    match slot {
        Event::Execute { cpu, instruction } => {
            *cpu = by;
            *instruction = given;
        }
        _ => *slot = Event::Execute {
            cpu: by,
            instruction: given,
        },
    }
}
