//! The signals of a page, each a line with its name.

use crate::labels::Label;
use chan_model::names::Path;
use memory::Supply;
use page_layout::flights::{Flight, Outcome, signal_of};
use page_layout::layout::Layout;
use page_layout::strokes::{Stroke, stroke_of};
use page_text::marks::{Attribute, Mark, Tag};
use page_text::page::Page;
use record_text::names::{kind_of, put_subchannel, put_way};
use record_text::number::{put_decimal, put_hexadecimal};
use record_text::{put_signal, put_signal_fields};
use step_records::record::Signal;
use streams::Sink;

/// All lines of signals.
pub fn put_lines<M: Supply>(page: &mut Page<'_, M>, layout: &Layout<'_>) {
    for flight in layout.flights.as_slice() {
        if let Some(stroke) = stroke_of(layout, flight) {
            put_line(page, layout, flight, stroke);
            put_end(page, flight, stroke);
        }
    }
}

/// All names of signals, where they stand.
pub fn put_labels<M: Supply>(
    page: &mut Page<'_, M>,
    layout: &Layout<'_>,
    labels: &[Option<Label>],
) {
    for (flight, label) in layout.flights.as_slice().iter().zip(labels) {
        if let Some(label) = label {
            put_label(page, layout, flight, label);
        }
    }
}

/// The line of a signal.
fn put_line<M: Supply>(
    page: &mut Page<'_, M>,
    layout: &Layout<'_>,
    flight: &Flight,
    stroke: Stroke,
) {
    page.begin(Tag::Line);
    put_class(page, flight);
    page.measure(Attribute::X1, stroke.x1);
    page.measure(Attribute::Y1, stroke.y1);
    page.measure(Attribute::X2, stroke.x2);
    page.measure(Attribute::Y2, stroke.y2);
    page.inside();
    put_title(page, layout, flight);
    page.end(Tag::Line);
}

/// How a line is drawn: by its path, and by what became of the signal.
fn put_class<M: Supply>(page: &mut Page<'_, M>, flight: &Flight) {
    page.mark(Mark::Attribute(Attribute::Class));
    page.show(match flight.outcome {
        Outcome::Taken(_) => b"signal p",
        Outcome::Waits => b"signal waits p",
        Outcome::Ignored(_) => b"signal ignored p",
        Outcome::Lost(_) | Outcome::Vanished => b"signal lost p",
    });
    put_path(page, flight.wire.path);
    page.mark(Mark::Quote);
}

/// The index of a path.
fn put_path<S: Sink>(sink: &mut S, path: Path) -> bool {
    put_hexadecimal(sink, u64::from(path.index() as u32))
}

/// A cross, where a signal is lost.
fn put_end<M: Supply>(page: &mut Page<'_, M>, flight: &Flight, stroke: Stroke) {
    match flight.outcome {
        Outcome::Lost(_) | Outcome::Vanished => {
            page.begin(Tag::Text);
            page.attribute(Attribute::Class, b"cross");
            page.measure(Attribute::X, stroke.x2);
            page.measure(Attribute::Y, stroke.y2.saturating_add(6));
            page.inside();
            page.show("✕".as_bytes());
            page.end(Tag::Text);
        }
        _ => {}
    }
}

/// All that is known of a signal.
fn put_title<M: Supply>(page: &mut Page<'_, M>, layout: &Layout<'_>, flight: &Flight) {
    page.begin(Tag::Title);
    page.inside();
    if let Some(signal) = signal_of(layout.trace.records.as_slice(), flight) {
        put_signal_fields(page, signal);
    }
    page.show(b"; subchannel ");
    put_subchannel(page, &layout.trace.parties, flight.wire.subchannel);
    page.show(b", path ");
    put_path(page, flight.wire.path);
    page.show(b", ");
    put_way(page, flight.wire.way);
    page.show(b"; sent in line ");
    page.number(layout.line_of(flight.row));
    page.show(b", ");
    put_outcome(page, layout, flight.outcome);
    page.end(Tag::Title);
}

/// What became of a signal, and in which line.
pub fn put_outcome<S: Sink>(sink: &mut S, layout: &Layout<'_>, outcome: Outcome) -> bool {
    match outcome {
        Outcome::Waits => sink.put(b"still waits"),
        Outcome::Taken(row) => put_met(sink, b"taken in line ", layout.line_of(row)),
        Outcome::Ignored(row) => put_met(sink, b"ignored in line ", layout.line_of(row)),
        Outcome::Lost(row) => put_met(sink, b"lost in line ", layout.line_of(row)),
        Outcome::Vanished => sink.put(b"lost at once: the path is down"),
    }
}

/// What became of it, and a line.
fn put_met<S: Sink>(sink: &mut S, name: &[u8], line: u64) -> bool {
    sink.put(name) && put_decimal(sink, line)
}

/// The name of a signal, where it stands.
fn put_label<M: Supply>(
    page: &mut Page<'_, M>,
    layout: &Layout<'_>,
    flight: &Flight,
    label: &Label,
) {
    page.begin(Tag::Text);
    page.attribute(
        Attribute::Class,
        match flight.outcome {
            Outcome::Taken(_) | Outcome::Waits => b"label",
            _ => b"label bad",
        },
    );
    page.measure(Attribute::X, label.x);
    page.measure(Attribute::Y, label.y);
    page.inside();
    if let Some(signal) = signal_of(layout.trace.records.as_slice(), flight) {
        put_label_text(page, layout, flight, signal);
    }
    page.end(Tag::Text);
}

/// The name of a signal, its path where its subchannel has several, and what became of it where it was not taken.
pub fn put_label_text<S: Sink>(
    sink: &mut S,
    layout: &Layout<'_>,
    flight: &Flight,
    signal: &Signal,
) -> bool {
    put_signal(
        sink,
        signal,
        kind_of(&layout.trace.parties, flight.wire.subchannel),
    ) && (!has_paths(layout, flight.wire.subchannel)
        || (sink.put(b" (path ") && put_path(sink, flight.wire.path) && sink.put(b")")))
        && sink.put(match flight.outcome {
            Outcome::Taken(_) => b"",
            Outcome::Waits => b" still waits",
            Outcome::Ignored(_) => b" ignored",
            Outcome::Lost(_) | Outcome::Vanished => b" lost",
        })
}

/// Whether a subchannel has several paths.
fn has_paths(layout: &Layout<'_>, subchannel: usize) -> bool {
    match layout.trace.parties.subchannels.as_slice().get(subchannel) {
        Some(setup) => setup.paths.as_slice().len() > 1,
        None => false,
    }
}
