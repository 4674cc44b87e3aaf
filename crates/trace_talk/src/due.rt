//! The lines that are due: nothing moves by itself.

ghost use Rattle.std.specs.Prelude.{◌≡◌};
ghost use Rattle.script_rows.specs.Slots.{action_length};

use chan_events::event::Event;
use chan_model::report::Work;
use machine_model::state::UnitTurn;
use memory::{Supply, push};
use path_select::Rotating;
use record_text::number::put_hexadecimal;
use script_rows::slots::KeptAction;
use std::alloc::{AllocError, Global};
use step_records::parties::Parties;
use streams::Sink;
use subsystem::subsystem::Subsystem;
use unit_driver::turns::word_of;

/// A line of a script that is due.
#[derive(Clone, Copy, PartialEq, Eq)]
pub enum DueLine {
    /// The subsystem has something to do for a subchannel.
    Choose { subchannel: u32 },
    /// A unit is to take the signal that waits longest on the wire down of a path.
    Down { subchannel: u32, path: u32 },
    /// The device of a unit is to act.
    Dev { unit: u32 },
    /// A subchannel is to take the signal that waits longest on the wire up of a path.
    Up { subchannel: u32, path: u32 },
}

impl DueLine {
    /// What it asks the machine for.
    pub fn action(self) -> KeptAction
        ensures { action_length result ≡ 0 }
    {
        match self {
            DueLine::Choose { subchannel } => KeptAction::Event(Event::Choose { subchannel }),
            DueLine::Down { subchannel, path } => {
                KeptAction::Event(Event::Down { subchannel, path })
            }
            DueLine::Dev { unit } => KeptAction::Dev(unit),
            DueLine::Up { subchannel, path } => KeptAction::Event(Event::Up { subchannel, path }),
        }
    }

    /// Whether it is for a subchannel of this subsystem-identification word, or for its unit.
    pub(crate) fn is_for(self, parties: &Parties, word: u32) -> bool {
        match self {
            DueLine::Choose { subchannel }
            | DueLine::Down { subchannel, .. }
            | DueLine::Up { subchannel, .. } => subchannel == word,
            DueLine::Dev { unit } => match parties.subchannel_named(word) {
                Some(index) => u32::from(parties.subchannels[index].unit) == unit,
                None => false,
            },
        }
    }

    /// The line, without its line feed.
    pub fn put<S: Sink>(self, sink: &mut S) -> bool {
        match self {
            DueLine::Choose { subchannel } => {
                sink.put(b"choose ") && put_subchannel_word(sink, subchannel)
            }
            DueLine::Down { subchannel, path } => {
                sink.put(b"down ") && put_place(sink, subchannel, path)
            }
            DueLine::Dev { unit } => sink.put(b"dev ") && put_hexadecimal(sink, u64::from(unit)),
            DueLine::Up { subchannel, path } => {
                sink.put(b"up ") && put_place(sink, subchannel, path)
            }
        }
    }
}

/// A subchannel as a script names it: its number where its set is 0, else the whole subsystem-identification word.
pub(crate) fn put_subchannel_word<S: Sink>(sink: &mut S, word: u32) -> bool {
    let number = if word / 0x1_0000 == 1 {
        word % 0x1_0000
    } else {
        word
    };
    put_hexadecimal(sink, u64::from(number))
}

/// A subchannel and a path of it.
fn put_place<S: Sink>(sink: &mut S, subchannel: u32, path: u32) -> bool {
    put_subchannel_word(sink, subchannel)
        && sink.put(b" ")
        && put_hexadecimal(sink, u64::from(path))
}

/// What is due for a subchannel on one of its channel paths.
fn due_on(subsystem: &Subsystem<Rotating>, word: u32, chpid: u8) -> Option<DueLine> {
    match subsystem.path_turn(word, chpid)? {
        Event::Choose { subchannel } => Some(DueLine::Choose { subchannel }),
        Event::Up { subchannel, path } => Some(DueLine::Up { subchannel, path }),
        _ => None,
    }
}

/// What is due for a unit.
fn due_of_unit(subsystem: &Subsystem<Rotating>, unit: u32) -> Option<DueLine> {
    match subsystem.lent_turn(unit) {
        Some(UnitTurn::Takes { subchannel, path }) => Some(DueLine::Down {
            subchannel: word_of(subchannel),
            path,
        }),
        Some(UnitTurn::Works(Work::Report(_))) => Some(DueLine::Dev { unit }),
        Some(UnitTurn::Works(Work::Call { .. })) => Some(DueLine::Dev { unit }),
        Some(UnitTurn::Away { .. } | UnitTurn::Rests) | None => None,
    }
}

/// Adds what is due for a subchannel on its paths, in their order; a choice stands there once.
fn add_paths<S: Supply>(
    supply: &mut S,
    subsystem: &Subsystem<Rotating>,
    word: u32,
    chpids: &[u8],
    lines: &mut Vec<DueLine>,
) -> Result<(), AllocError> {
    for chpid in chpids {
        if let Some(line) = due_on(subsystem, word, *chpid) {
            if !lines.iter().any(|other| *other == line) {
                push(supply, lines, line)?;
            }
        }
    }
    Ok(())
}

/// Adds what is due for the units.
fn add_units<S: Supply>(
    supply: &mut S,
    subsystem: &Subsystem<Rotating>,
    count: usize,
    lines: &mut Vec<DueLine>,
) -> Result<(), AllocError> {
    for unit in 0..count.min(0x1_0000) {
        if let Some(line) = due_of_unit(subsystem, unit as u32) {
            push(supply, lines, line)?;
        }
    }
    Ok(())
}

/// All lines that are due: of each subchannel, on each of its paths, what it or the subsystem is to do; then of each unit.
pub fn due_lines<S: Supply>(
    alloc: Global,
    supply: &mut S,
    subsystem: &Subsystem<Rotating>,
    parties: &Parties,
) -> Result<Vec<DueLine>, AllocError> {
    let mut lines = Vec::new(alloc);
    for setup in &parties.subchannels {
        add_paths(
            supply,
            subsystem,
            word_of(setup.id),
            setup.paths.as_slice(),
            &mut lines,
        )?;
    }
    add_units(supply, subsystem, parties.units.len(), &mut lines)?;
    Ok(lines)
}
