//! A ladder of a script: row by row what its subchannels and units did, and the signals on the wires between them.
#![tactic(auto)]

mod glyphs;
mod head;
mod lanes;
mod layout;
mod line;
mod names;
mod steps;
mod subchannel_text;
mod unit_text;
mod wire_columns;

use crate::head::put_head;
use crate::layout::Layout;
use crate::steps::put_steps;
use step_records::style::Style;
use step_records::trace::Trace;
use streams::Sink;

/// Puts the ladder of a script into a sink, and answers whether all of it went in.
///
/// At the head stand what the script says of itself in its first comment, its subchannels, and the names of the columns: the
/// number of a line; the line and its condition code; its subchannels; the wires; the units. A row follows for each line
/// that acts, or several, where more than one thing is to be said. A signal is drawn from the left into the middle of the
/// wires as a subchannel sends it, and from the middle to the right as the unit takes it; so also from the right to the left.
/// The middle has the index of its path; where there are several subchannels, that of the subchannel before it.
pub fn put_ladder<S: Sink>(sink: &mut S, trace: &Trace, style: Style) -> bool {
    let layout = Layout::of(trace, style);
    put_head(sink, &layout) && put_steps(sink, &layout)
}
