//! The signals as a space-time diagram: lanes from left to right, the lines of the script from top to bottom.

use crate::bars::put_bars;
use crate::labels::Label;
use crate::notes::{put_note, put_second};
use crate::script_lane::put_script_line;
use crate::signals::{put_labels, put_lines};
use memory::Supply;
use page_layout::lanes::{Lane, NoteSide, Party};
use page_layout::layout::{Layout, SCRIPT};
use page_layout::noted::{lines_for, party_of};
use page_layout::pictures::{begin_picture, put_name};
use page_layout::rows::{NOTE, Row};
use page_text::marks::{Attribute, Tag};
use page_text::page::Page;
use record_text::names::{kind_name, put_device_number, unit_kind};
use step_records::record::{Fact, Record};
use streams::Sink;

/// The diagram.
pub fn put_diagram<M: Supply>(
    page: &mut Page<'_, M>,
    layout: &Layout<'_>,
    labels: &[Option<Label>],
) {
    begin_picture(page, layout.width, layout.height());
    page.attribute(
        Attribute::Label,
        b"Space-time diagram of the signals; the table below says the same",
    );
    page.inside();
    put_arrowheads(page);
    put_head(page, SCRIPT, b"start", b"Script", b"and what it answers");
    for row in layout.rows.as_slice() {
        put_script_line(page, layout, row);
        put_path_state(page, layout, row);
    }
    for lane in layout.lanes.as_slice() {
        put_lane(page, layout, *lane);
    }
    put_lines(page, layout);
    for row in layout.rows.as_slice() {
        put_notes(page, layout, row);
    }
    put_labels(page, layout, labels);
    page.end(Tag::Svg);
}

/// The heads of the arrows, one for each path and one for what is ignored.
fn put_arrowheads<M: Supply>(page: &mut Page<'_, M>) {
    page.begin(Tag::Definitions);
    page.inside();
    for name in [
        b"h0", b"h1", b"h2", b"h3", b"h4", b"h5", b"h6", b"h7", b"hx",
    ] {
        put_arrowhead(page, name);
    }
    page.end(Tag::Definitions);
}

/// The head of an arrow.
fn put_arrowhead<M: Supply>(page: &mut Page<'_, M>, name: &[u8]) {
    page.begin(Tag::Marker);
    page.attribute(Attribute::Identifier, name);
    page.attribute(Attribute::ViewBox, b"0 0 10 10");
    page.measure(Attribute::ReferenceX, 9);
    page.measure(Attribute::ReferenceY, 5);
    page.measure(Attribute::MarkerWidth, 6);
    page.measure(Attribute::MarkerHeight, 6);
    page.attribute(Attribute::Orientation, b"auto");
    page.inside();
    page.begin(Tag::Shape);
    page.attribute(Attribute::Class, name);
    page.attribute(Attribute::Outline, b"M0 0L10 5L0 10z");
    page.inside();
    page.end(Tag::Shape);
    page.end(Tag::Marker);
}

/// The head of a lane: a name, and what it is.
fn put_head<M: Supply>(page: &mut Page<'_, M>, x: u64, anchor: &[u8], name: &[u8], what: &[u8]) {
    begin_head(page, x, 24, anchor, b"head");
    page.show(name);
    page.end(Tag::Text);
    begin_head(page, x, 42, anchor, b"soft");
    page.show(what);
    page.end(Tag::Text);
}

/// A text at the head of a lane begins.
fn begin_head<M: Supply>(page: &mut Page<'_, M>, x: u64, y: u64, anchor: &[u8], class: &[u8]) {
    page.begin(Tag::Text);
    page.attribute(Attribute::Class, class);
    page.measure(Attribute::X, x);
    page.measure(Attribute::Y, y);
    page.attribute(Attribute::Anchor, anchor);
    page.inside();
}

/// A lane with its head and its bars.
fn put_lane<M: Supply>(page: &mut Page<'_, M>, layout: &Layout<'_>, lane: Lane) {
    page.begin(Tag::Line);
    page.attribute(Attribute::Class, b"lane");
    page.measure(Attribute::X1, lane.x);
    page.measure(Attribute::Y1, 52);
    page.measure(Attribute::X2, lane.x);
    page.measure(Attribute::Y2, layout.height());
    page.inside();
    page.end(Tag::Line);
    begin_head(page, lane.x, 24, b"middle", b"head");
    put_name(page, layout, lane.party);
    page.end(Tag::Text);
    begin_head(page, lane.x, 42, b"middle", b"soft");
    put_kind(page, layout, lane.party);
    page.end(Tag::Text);
    put_bars(page, layout, lane);
}

/// What a party is: the device number of a subchannel, and the kind of a unit.
fn put_kind<M: Supply>(page: &mut Page<'_, M>, layout: &Layout<'_>, party: Party) {
    match party {
        Party::Script => {}
        Party::Subchannel(subchannel) => {
            if let Some(setup) = layout.trace.parties.subchannels.as_slice().get(subchannel) {
                page.show(b"device ");
                put_device_number(page, setup.device);
            }
        }
        Party::Unit(unit) => {
            page.show(kind_name(unit_kind(&layout.trace.parties, unit)));
        }
    }
}

/// A line across, where a channel path went down or came up.
fn put_path_state<M: Supply>(page: &mut Page<'_, M>, layout: &Layout<'_>, row: &Row) {
    for record in row.records(layout.trace) {
        if let Fact::PathState { chpid, up } = &record.fact {
            page.begin(Tag::Line);
            page.attribute(
                Attribute::Class,
                if *up { b"path-up" } else { b"path-down" },
            );
            page.measure(Attribute::X1, SCRIPT);
            page.measure(Attribute::Y1, row.bottom().saturating_sub(2));
            page.measure(Attribute::X2, layout.width);
            page.measure(Attribute::Y2, row.bottom().saturating_sub(2));
            page.inside();
            page.begin(Tag::Title);
            page.inside();
            record_text::told::put_path_state(page, *chpid, *up);
            page.end(Tag::Title);
            page.end(Tag::Line);
        }
    }
}

/// The notes of a row, lane by lane.
fn put_notes<M: Supply>(page: &mut Page<'_, M>, layout: &Layout<'_>, row: &Row) {
    let script = Lane {
        party: Party::Script,
        x: SCRIPT,
        notes: NoteSide::Right,
    };
    put_lane_notes(page, layout, row, script, script_notes(layout, row));
    for lane in layout.lanes.as_slice() {
        put_lane_notes(page, layout, row, *lane, row.baseline());
    }
}

/// Where the notes of the script begin in a row: they are its last.
fn script_notes(layout: &Layout<'_>, row: &Row) -> u64 {
    let others = lines_for(row.records(layout.trace), Party::Script).saturating_sub(2);
    row.bottom()
        .saturating_sub(10)
        .saturating_sub(others.saturating_mul(NOTE))
}

/// The notes of a row beside a lane, from a baseline down.
fn put_lane_notes<M: Supply>(
    page: &mut Page<'_, M>,
    layout: &Layout<'_>,
    row: &Row,
    lane: Lane,
    baseline: u64,
) {
    let mut y = baseline;
    for record in row.records(layout.trace) {
        if party_of(&record.fact) == Some(lane.party) {
            begin_note(page, lane, y, record);
            put_note(page, &layout.trace.parties, &record.fact);
            page.end(Tag::Text);
            y = y.saturating_add(NOTE);
            if let Fact::StatusMade { .. } = &record.fact {
                begin_note(page, lane, y, record);
                put_second(page, &record.fact);
                page.end(Tag::Text);
                y = y.saturating_add(NOTE);
            }
        }
    }
}

/// A note begins, beside its lane.
fn begin_note<M: Supply>(page: &mut Page<'_, M>, lane: Lane, y: u64, record: &Record) {
    let (x, anchor): (u64, &[u8]) = match (lane.party, lane.notes) {
        (Party::Script, _) => (lane.x, b"start"),
        (_, NoteSide::Left) => (lane.x.saturating_sub(13), b"end"),
        (_, NoteSide::Right) => (lane.x.saturating_add(13), b"start"),
    };
    let class: &[u8] = match &record.fact {
        Fact::StatusMade { .. } => b"note strong",
        _ => b"note",
    };
    begin_head(page, x, y, anchor, class);
}
