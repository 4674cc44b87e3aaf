//! The states of a script: a row for each bit and state, a column for each line, as a logic analyser draws them.
#![tactic(auto)]

mod chart;
mod draw;
mod events;
mod holders;
mod numbers;
mod section;

use crate::chart::Chart;
use crate::events::{put_events, put_legend};
use crate::numbers::put_numbers;
use crate::section::put_sections;
use step_records::style::Style;
use step_records::trace::Trace;
use streams::Sink;

/// Puts the states of a script into a sink, and answers whether all of it went in.
///
/// At the head stand the numbers of the lines that act, their digits one above the other, and a letter for what each does. For
/// each subchannel and each unit a row follows for every bit and state that is on after at least one of the lines: its
/// functions, activities and status as the subchannel-status word has them, what the subsystem takes the device to be held by,
/// its request for an interruption, which of its paths are down and how many signals wait on each of its wires; by which program
/// a unit is held, and whether it has a command at hand.
pub fn put_states<S: Sink>(sink: &mut S, trace: &Trace, style: Style) -> bool {
    let chart = Chart { trace, style };
    put_numbers(sink, trace)
        && put_events(sink, trace, style)
        && put_sections(sink, &chart)
        && put_legend(sink, style)
}
