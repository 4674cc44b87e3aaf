//! The signals as a table, which says the same as the diagram.

use crate::begin_box;
use crate::signals::put_outcome;
use chan_model::names::Path;
use memory::Supply;
use page_layout::flights::{Flight, signal_of};
use page_layout::layout::Layout;
use page_text::marks::{Attribute, Tag};
use page_text::page::Page;
use record_text::names::{kind_of, put_subchannel};
use record_text::number::put_hexadecimal;
use record_text::put_signal;
use step_records::record::Way;

/// The table, which is shown where one asks for it.
pub fn put_table<M: Supply>(page: &mut Page<'_, M>, layout: &Layout<'_>) {
    page.begin(Tag::Details);
    page.inside();
    page.element(Tag::Summary, b"The signals as a table");
    begin_box(page, b"The signals as a table");
    page.begin(Tag::Table);
    page.inside();
    put_heads(page);
    page.begin(Tag::TableBody);
    page.inside();
    for flight in layout.flights.as_slice() {
        put_row(page, layout, flight);
    }
    page.end(Tag::TableBody);
    page.end(Tag::Table);
    page.end(Tag::Division);
    page.end(Tag::Details);
}

/// The heads of the columns.
fn put_heads<M: Supply>(page: &mut Page<'_, M>) {
    page.begin(Tag::TableHead);
    page.inside();
    page.begin(Tag::TableRow);
    page.inside();
    put_column(page, b"Line");
    put_column(page, b"From");
    put_column(page, b"To");
    put_column(page, b"Path");
    put_column(page, b"Signal");
    put_column(page, b"What became of it");
    page.end(Tag::TableRow);
    page.end(Tag::TableHead);
}

/// The head of a column.
fn put_column<M: Supply>(page: &mut Page<'_, M>, name: &[u8]) {
    page.begin(Tag::HeadCell);
    page.attribute(Attribute::Scope, b"col");
    page.inside();
    page.show(name);
    page.end(Tag::HeadCell);
}

/// The row of a signal.
fn put_row<M: Supply>(page: &mut Page<'_, M>, layout: &Layout<'_>, flight: &Flight) {
    page.begin(Tag::TableRow);
    page.inside();
    put_number(page, layout.line_of(flight.row));
    put_parties(page, layout, flight);
    put_path(page, flight.wire.path);
    put_name(page, layout, flight);
    begin_cell(page);
    put_outcome(page, layout, flight.outcome);
    page.end(Tag::Cell);
    page.end(Tag::TableRow);
}

/// A cell begins.
fn begin_cell<M: Supply>(page: &mut Page<'_, M>) {
    page.begin(Tag::Cell);
    page.inside();
}

/// A cell with a number.
fn put_number<M: Supply>(page: &mut Page<'_, M>, number: u64) {
    begin_cell(page);
    page.number(number);
    page.end(Tag::Cell);
}

/// The cells of who sends a signal and to whom.
fn put_parties<M: Supply>(page: &mut Page<'_, M>, layout: &Layout<'_>, flight: &Flight) {
    let subchannel = flight.wire.subchannel;
    match flight.wire.way {
        Way::Down => {
            put_subchannel_cell(page, layout, subchannel);
            put_unit_cell(page, layout, subchannel);
        }
        Way::Up => {
            put_unit_cell(page, layout, subchannel);
            put_subchannel_cell(page, layout, subchannel);
        }
    }
}

/// The cell of a subchannel.
fn put_subchannel_cell<M: Supply>(page: &mut Page<'_, M>, layout: &Layout<'_>, subchannel: usize) {
    begin_cell(page);
    page.show(b"subchannel ");
    put_subchannel(page, &layout.trace.parties, subchannel);
    page.end(Tag::Cell);
}

/// The cell of a subchannel's unit.
fn put_unit_cell<M: Supply>(page: &mut Page<'_, M>, layout: &Layout<'_>, subchannel: usize) {
    begin_cell(page);
    if let Some(setup) = layout.trace.parties.subchannels.as_slice().get(subchannel) {
        page.show(b"unit ");
        put_hexadecimal(page, u64::from(setup.unit));
    }
    page.end(Tag::Cell);
}

/// The cell of a path.
fn put_path<M: Supply>(page: &mut Page<'_, M>, path: Path) {
    begin_cell(page);
    put_hexadecimal(page, u64::from(path.index() as u32));
    page.end(Tag::Cell);
}

/// The cell of a signal's name.
fn put_name<M: Supply>(page: &mut Page<'_, M>, layout: &Layout<'_>, flight: &Flight) {
    begin_cell(page);
    if let Some(signal) = signal_of(layout.trace.records.as_slice(), flight) {
        put_signal(
            page,
            signal,
            kind_of(&layout.trace.parties, flight.wire.subchannel),
        );
    }
    page.end(Tag::Cell);
}
