//! The bars on the lanes: what the subsystem takes a device to be held by, and whom a unit is held by.

use memory::Supply;
use page_layout::lanes::{Lane, Party};
use page_layout::layout::Layout;
use page_layout::rows::Row;
use page_states::colours::hold_class;
use page_text::marks::{Attribute, Tag};
use page_text::page::Page;
use record_text::hold_text::put_hold;
use record_text::told::put_owner;
use state_tracks::names::HoldName;
use step_records::record::{Fact, Place};
use streams::Sink;

/// How wide a bar is.
const WIDTH: u64 = 12;

/// A bar that has begun: the fact that began it, in which line and how far down.
#[derive(Clone, Copy)]
struct Begun<'a> {
    fact: &'a Fact,
    line: u64,
    top: u64,
}

/// The bars of a lane.
pub fn put_bars<M: Supply>(page: &mut Page<'_, M>, layout: &Layout<'_>, lane: Lane) {
    let mut begun: Option<Begun<'_>> = None;
    for row in layout.rows.as_slice() {
        if let Some(fact) = change_in(layout, row, lane.party) {
            put_begun(page, layout, lane, begun, row.change());
            begun = Some(Begun {
                fact,
                line: row.line,
                top: row.change(),
            });
        }
    }
    put_begun(page, layout, lane, begun, layout.foot);
}

/// What a party's state is after a row, where it changed there.
fn change_in<'a>(layout: &Layout<'a>, row: &Row, party: Party) -> Option<&'a Fact> {
    let mut found = None;
    for record in row.records(layout.trace) {
        if is_change_of(&record.fact, party) {
            found = Some(&record.fact);
        }
    }
    found
}

/// Whether a fact changes the state that a lane shows.
fn is_change_of(fact: &Fact, party: Party) -> bool {
    match (fact, party) {
        (Fact::Hold { subchannel, .. }, Party::Subchannel(index)) => *subchannel == index,
        (
            Fact::Owner {
                unit,
                before,
                after,
            },
            Party::Unit(index),
        ) => *unit == index && before.holder != after.holder,
        _ => false,
    }
}

/// The colour of a state; None where there is no bar.
fn class_of(fact: &Fact) -> Option<&'static [u8]> {
    match fact {
        Fact::Hold { after, .. } => Some(hold_class(HoldName::of(after.phase)?)),
        Fact::Owner { after, .. } => match after.holder {
            None => None,
            Some(holder) => match holder.place {
                Place::On(_) => Some(b"connected"),
                Place::Asks(_) | Place::Away => Some(b"away"),
            },
        },
        _ => None,
    }
}

/// The bar that ends here, where one had begun.
fn put_begun<M: Supply>(
    page: &mut Page<'_, M>,
    layout: &Layout<'_>,
    lane: Lane,
    begun: Option<Begun<'_>>,
    bottom: u64,
) {
    if let Some(begun) = begun {
        if let Some(class) = class_of(begun.fact) {
            put_bar(page, class, lane.x, begun.top, bottom);
            put_title(page, layout, begun);
            page.end(Tag::Rectangle);
        }
    }
}

/// A bar, which is to be ended.
fn put_bar<M: Supply>(page: &mut Page<'_, M>, class: &[u8], x: u64, top: u64, bottom: u64) {
    page.begin(Tag::Rectangle);
    page.attribute(Attribute::Class, class);
    page.measure(Attribute::X, x.saturating_sub(WIDTH / 2));
    page.measure(Attribute::Y, top);
    page.measure(Attribute::Width, WIDTH);
    page.measure(
        Attribute::Height,
        bottom.saturating_sub(top).saturating_sub(2),
    );
    page.inside();
}

/// What a bar shows, in full.
fn put_title<M: Supply>(page: &mut Page<'_, M>, layout: &Layout<'_>, begun: Begun<'_>) {
    page.begin(Tag::Title);
    page.inside();
    match begun.fact {
        Fact::Hold { after, .. } => {
            put_hold(page, after);
        }
        Fact::Owner { after, .. } => {
            put_owner(page, &layout.trace.parties, after);
        }
        _ => {}
    }
    page.show(b"; from line ");
    page.number(begun.line);
    page.end(Tag::Title);
}
