//! The states as a picture: a row for each bit and state that is ever on, a column for each line of the script.

ghost use Rattle.std.specs.Prelude.{◌≡◌, OnErr, true};

use crate::colours::class_of;
use chan_model::names::Path;
use memory::{Supply, push};
use page_layout::lanes::Party;
use page_layout::layout::Layout;
use page_layout::pictures::{begin_picture, put_name};
use page_text::marks::{Attribute, Tag};
use page_text::page::Page;
use record_text::number::{put_hexadecimal, put_two_digits};
use state_tracks::names::{FIRST_BIT, HOLD_NAMES, LAST_BIT, bit_name};
use state_tracks::track::Track;
use std::alloc::{AllocError, Global};
use step_records::record::{Record, Way, Wire};

/// How wide a column is.
const COLUMN: u64 = 24;

/// How high a row is.
const ROW: u64 = 22;

/// How high a bar is.
const BAR: u64 = 16;

/// Where the columns begin.
const LEFT: u64 = 190;

/// Where the rows begin.
const TOP: u64 = 30;

/// A row of the picture: the name of a party, or a bit or state of it.
#[derive(Clone, Copy)]
pub enum StateRow {
    Head(Party),
    Track(Track),
}

/// The rows of the picture.
pub fn state_rows<M: Supply>(
    alloc: Global,
    supply: &mut M,
    layout: &Layout<'_>,
) -> Result<Vec<StateRow>, AllocError>
    ensures memory { OnErr result (M.refused supply.new ≡ true) }
{
    let mut rows = Vec::new(alloc);
    for subchannel in 0..layout.trace.parties.subchannels.len() {
        push(
            supply,
            &mut rows,
            StateRow::Head(Party::Subchannel(subchannel)),
        )?;
        add_bits(supply, &mut rows, layout, subchannel)?;
        add_holds(supply, &mut rows, layout, subchannel)?;
        add_paths(supply, &mut rows, layout, subchannel)?;
        drop_bare_head(&mut rows);
    }
    for unit in 0..layout.trace.parties.units.len() {
        push(supply, &mut rows, StateRow::Head(Party::Unit(unit)))?;
        for subchannel in 0..layout.trace.parties.subchannels.len() {
            let track = Track::HeldBy {
                unit,
                subchannel,
                number: None,
            };
            add(supply, &mut rows, layout, track)?;
        }
        add(supply, &mut rows, layout, Track::Command { unit })?;
        drop_bare_head(&mut rows);
    }
    Ok(rows)
}

/// Takes the name of a party away again of which nothing is ever on.
fn drop_bare_head(rows: &mut Vec<StateRow>) {
    if let Some(StateRow::Head(_)) = rows.last() {
        rows.pop();
    }
}

/// Adds the bits of a subchannel.
fn add_bits<M: Supply>(
    supply: &mut M,
    rows: &mut Vec<StateRow>,
    layout: &Layout<'_>,
    subchannel: usize,
) -> Result<(), AllocError>
    ensures memory { OnErr result (M.refused supply.new ≡ true) }
{
    for bit in FIRST_BIT..LAST_BIT + 1 {
        add(supply, rows, layout, Track::Bit { subchannel, bit })?;
    }
    Ok(())
}

/// Adds the states of a subchannel's hold, and its request.
fn add_holds<M: Supply>(
    supply: &mut M,
    rows: &mut Vec<StateRow>,
    layout: &Layout<'_>,
    subchannel: usize,
) -> Result<(), AllocError>
    ensures memory { OnErr result (M.refused supply.new ≡ true) }
{
    for at in HOLD_NAMES {
        add(supply, rows, layout, Track::Hold { subchannel, at })?;
    }
    add(supply, rows, layout, Track::Request { subchannel })
}

/// Adds the paths of a subchannel and their wires.
fn add_paths<M: Supply>(
    supply: &mut M,
    rows: &mut Vec<StateRow>,
    layout: &Layout<'_>,
    subchannel: usize,
) -> Result<(), AllocError>
    ensures memory { OnErr result (M.refused supply.new ≡ true) }
{
    let Some(setup) = layout.trace.parties.subchannels.as_slice().get(subchannel) else {
        return Ok(());
    };
    for (index, chpid) in setup.paths.as_slice().iter().enumerate() {
        add(supply, rows, layout, Track::PathDown { chpid: *chpid })?;
        if let Some(path) = Path::new(index as u32) {
            add_wires(supply, rows, layout, subchannel, path)?;
        }
    }
    Ok(())
}

/// Adds the two wires of a path.
fn add_wires<M: Supply>(
    supply: &mut M,
    rows: &mut Vec<StateRow>,
    layout: &Layout<'_>,
    subchannel: usize,
    path: Path,
) -> Result<(), AllocError>
    ensures memory { OnErr result (M.refused supply.new ≡ true) }
{
    for way in [Way::Down, Way::Up] {
        let wire = Wire {
            subchannel,
            path,
            way,
        };
        add(supply, rows, layout, Track::Waiting { wire })?;
    }
    Ok(())
}

/// Adds a bit or state, where it is ever on.
fn add<M: Supply>(
    supply: &mut M,
    rows: &mut Vec<StateRow>,
    layout: &Layout<'_>,
    track: Track,
) -> Result<(), AllocError>
    ensures memory { OnErr result (M.refused supply.new ≡ true) }
{
    if is_ever_on(layout, &track) {
        push(supply, rows, StateRow::Track(track))?;
    }
    Ok(())
}

/// Whether a bit or state is on after one of the rows.
fn is_ever_on(layout: &Layout<'_>, track: &Track) -> bool {
    let mut level = 0;
    for row in layout.rows.as_slice() {
        level = level_after(track, level, row.records(layout.trace));
        if level > 0 {
            return true;
        }
    }
    false
}

/// The level after some records.
fn level_after(track: &Track, before: u64, records: &[Record]) -> u64 {
    let mut level = before;
    for record in records {
        level = track.after(level, &record.fact);
    }
    level
}

/// The picture.
pub fn put_states<M: Supply>(page: &mut Page<'_, M>, layout: &Layout<'_>, rows: &[StateRow]) {
    let width = x_of(layout.rows.len()).saturating_add(12);
    let height = y_of(rows.len()).saturating_add(4);
    begin_picture(page, width, height);
    page.attribute(
        Attribute::Label,
        b"States over the lines of the script, a row for each bit and state",
    );
    page.inside();
    put_columns(page, layout, height);
    for (index, row) in rows.iter().enumerate() {
        match row {
            StateRow::Head(party) => put_section(page, layout, *party, y_of(index)),
            StateRow::Track(track) => put_track(page, layout, track, y_of(index)),
        }
    }
    page.end(Tag::Svg);
}

/// Where a column begins.
fn x_of(column: usize) -> u64 {
    (column as u64).saturating_mul(COLUMN).saturating_add(LEFT)
}

/// Where a row begins.
fn y_of(row: usize) -> u64 {
    (row as u64).saturating_mul(ROW).saturating_add(TOP)
}

/// The columns, each with the number of its line.
fn put_columns<M: Supply>(page: &mut Page<'_, M>, layout: &Layout<'_>, height: u64) {
    for (index, row) in layout.rows.as_slice().iter().enumerate() {
        page.begin(Tag::Line);
        page.attribute(Attribute::Class, b"rule");
        page.measure(Attribute::X1, x_of(index));
        page.measure(Attribute::Y1, TOP - 6);
        page.measure(Attribute::X2, x_of(index));
        page.measure(Attribute::Y2, height);
        page.inside();
        page.end(Tag::Line);
        begin_text(
            page,
            b"column",
            x_of(index).saturating_add(COLUMN / 2),
            TOP - 12,
        );
        page.number(row.line);
        page.end(Tag::Text);
    }
}

/// A text begins.
fn begin_text<M: Supply>(page: &mut Page<'_, M>, class: &[u8], x: u64, y: u64) {
    page.begin(Tag::Text);
    page.attribute(Attribute::Class, class);
    page.measure(Attribute::X, x);
    page.measure(Attribute::Y, y);
    page.inside();
}

/// The name of a party.
fn put_section<M: Supply>(page: &mut Page<'_, M>, layout: &Layout<'_>, party: Party, y: u64) {
    begin_text(page, b"head", 8, y.saturating_add(BAR));
    put_name(page, layout, party);
    page.end(Tag::Text);
}

/// The row of a bit or state: its name, and a bar for each run of lines after which it is on.
fn put_track<M: Supply>(page: &mut Page<'_, M>, layout: &Layout<'_>, track: &Track, y: u64) {
    begin_text(page, b"track", LEFT - 8, y.saturating_add(13));
    put_track_name(page, track);
    page.end(Tag::Text);
    let mut level = 0;
    let mut from = 0;
    for (index, row) in layout.rows.as_slice().iter().enumerate() {
        let after = level_after(track, level, row.records(layout.trace));
        if after != level {
            put_run(
                page,
                layout,
                track,
                Run {
                    level,
                    from,
                    to: index,
                    y,
                },
            );
            from = index;
        }
        level = after;
    }
    put_run(
        page,
        layout,
        track,
        Run {
            level,
            from,
            to: layout.rows.len(),
            y,
        },
    );
}

/// The name of a bit or a state.
fn put_track_name<M: Supply>(page: &mut Page<'_, M>, track: &Track) {
    match track {
        Track::Bit { bit, .. } => {
            page.show(bit_name(*bit));
        }
        Track::Hold { at, .. } => {
            page.show(b"hold: ");
            page.show(at.text());
        }
        Track::Request { .. } => {
            page.show(b"interruption request");
        }
        Track::PathDown { chpid } => {
            page.show(b"channel path down ");
            put_two_digits(page, *chpid);
        }
        Track::Waiting { wire } => {
            page.show(b"path ");
            put_hexadecimal(page, u64::from(wire.path.index() as u32));
            page.show(match wire.way {
                Way::Down => " ▼ signals wait".as_bytes(),
                Way::Up => " ▲ signals wait".as_bytes(),
            });
        }
        Track::HeldBy { subchannel, .. } => {
            page.show(b"held by subchannel ");
            put_hexadecimal(page, *subchannel as u64);
        }
        Track::Command { .. } => {
            page.show(b"command at hand");
        }
    }
}

/// The same level after each row from one up to another.
#[derive(Clone, Copy)]
struct Run {
    level: u64,
    from: usize,
    to: usize,
    y: u64,
}

/// The bar of a run, where there is one.
fn put_run<M: Supply>(page: &mut Page<'_, M>, layout: &Layout<'_>, track: &Track, run: Run) {
    if run.level == 0 {
        return;
    }
    page.begin(Tag::Rectangle);
    page.attribute(Attribute::Class, class_of(track));
    page.measure(Attribute::X, x_of(run.from));
    page.measure(Attribute::Y, run.y);
    page.measure(
        Attribute::Width,
        x_of(run.to).saturating_sub(x_of(run.from)),
    );
    page.measure(Attribute::Height, BAR);
    page.inside();
    page.begin(Tag::Title);
    page.inside();
    put_track_name(page, track);
    put_lines(page, layout, run);
    page.end(Tag::Title);
    page.end(Tag::Rectangle);
    put_level(page, run);
}

/// After which lines a run is.
fn put_lines<M: Supply>(page: &mut Page<'_, M>, layout: &Layout<'_>, run: Run) {
    page.show(b"; after line ");
    page.number(layout.line_of(run.from));
    page.show(b" to ");
    page.number(layout.line_of(run.to.saturating_sub(1)));
}

/// How many signals wait, where they are several.
fn put_level<M: Supply>(page: &mut Page<'_, M>, run: Run) {
    if run.level > 1 {
        begin_text(
            page,
            b"level",
            x_of(run.from).saturating_add(COLUMN / 2),
            run.y.saturating_add(13),
        );
        page.number(run.level);
        page.end(Tag::Text);
    }
}
