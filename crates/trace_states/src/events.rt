//! The row of letters for what each line does, and what they mean.

use crate::draw::{NAMES, cross, down, off, up};
use record_text::line_words::{first_word, without_cpu};
use step_records::record::Fact;
use step_records::style::{Drawing, Style};
use step_records::trace::Trace;
use streams::Sink;
use text_cells::row::put_times;

/// The name of the row.
const NAME: &[u8] = b"event";

/// The row of letters.
pub fn put_events<S: Sink>(sink: &mut S, trace: &Trace, style: Style) -> bool {
    if !(sink.put(NAME) && put_times(sink, b" ", NAMES.saturating_sub(NAME.len()))) {
        return false;
    }
    for record in &trace.records {
        if matches!(record.fact, Fact::Event)
            && !sink.put(letter(trace.text.line(record.line), style.drawing))
        {
            return false;
        }
    }
    sink.put(b"\n")
}

/// The letter of a line.
fn letter(line: &[u8], drawing: Drawing) -> &'static [u8] {
    match first_word(without_cpu(line)) {
        b"ssch" => b"s",
        b"stsch" => b"t",
        b"tsch" => b"T",
        b"choose" => b"c",
        b"down" => down(drawing),
        b"up" => up(drawing),
        b"dev" => b"d",
        b"tpi" => b"i",
        b"enable" => b"e",
        b"attn" => b"a",
        b"pathdown" => cross(drawing),
        b"pathup" => b"+",
        b"stcrw" => b"r",
        b"put" | b"key" | b"prefix" | b"show" | b"glance" => off(drawing),
        _ => b"?",
    }
}

/// What the letters mean.
pub fn put_legend<S: Sink>(sink: &mut S, style: Style) -> bool {
    let drawing = style.drawing;
    put_times(sink, b" ", NAMES)
        && sink.put(b"event: s ssch, t stsch, T tsch, c choose, ")
        && sink.put(down(drawing))
        && sink.put(b" down, ")
        && sink.put(up(drawing))
        && sink.put(b" up, d dev, i tpi, e enable, a attn, ")
        && sink.put(cross(drawing))
        && sink.put(b" pathdown, ")
        && sink.put(off(drawing))
        && sink.put(b" other\n")
}
