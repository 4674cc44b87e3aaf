//! A script as one page of HTML, for a reader of a hand-out or of a web site.
#![tactic(auto)]

ghost use Rattle.std.specs.Prelude.{◌≡◌, IfOk, OnErr, true};
ghost use Rattle.page_text.specs.Pages.{PutsPage};

mod bars;
mod diagram;
mod head;
mod labels;
mod legend;
mod lines;
mod measured;
mod notes;
mod script_lane;
mod signals;
mod style_sheet;
mod table;

use crate::diagram::put_diagram;
use crate::head::{put_comments, put_head};
use crate::labels::{Label, labels_of};
use crate::legend::put_legend;
use crate::lines::put_script_lines;
use crate::table::put_table;
use memory::Supply;
use page_layout::layout::Layout;
use page_states::states::{StateRow, put_states, state_rows};
use page_text::marks::{Attribute, Tag};
use page_text::page::Page;
use std::alloc::{AllocError, Global};
use step_records::style::Style;
use step_records::trace::Trace;
use streams::Sink;

/// Puts the page of a script into a sink, and answers whether all of it went in. Without memory for it nothing goes in.
///
/// It has the lines of comment that the script begins with; the signals as a space-time diagram and as a table; the states as
/// a logic analyser draws them; and the script line by line, each with all that it did.
pub fn put_page<M: Supply, S: Sink>(
    alloc: Global,
    supply: &mut M,
    sink: &mut S,
    trace: &Trace,
    style: Style,
) -> Result<bool, AllocError>
    ensures page { IfOk result (λ whole. PutsPage (S.seen sink.old) (S.seen sink.new) whole) }
    ensures kept { OnErr result (S.seen sink.new ≡ S.seen sink.old) }
{
    let layout = Layout::of(alloc, supply, trace, style)?;
    let labels = labels_of(alloc, supply, &layout)?;
    let states = state_rows(alloc, supply, &layout)?;
    let mut page = Page::new(alloc, supply);
    put_all(&mut page, &layout, labels.as_slice(), states.as_slice());
    page.put_into(sink)
}

/// The whole of a page.
fn put_all<M: Supply>(
    page: &mut Page<'_, M>,
    layout: &Layout<'_>,
    labels: &[Option<Label>],
    states: &[StateRow],
) {
    put_head(page, &layout.trace.text);
    page.begin(Tag::Body);
    page.inside();
    page.begin(Tag::Main);
    page.inside();
    put_comments(page, &layout.trace.text);
    page.element(Tag::Heading, b"Signals");
    put_legend(page);
    begin_box(page, b"Signals");
    put_diagram(page, layout, labels);
    page.end(Tag::Division);
    put_table(page, layout);
    page.element(Tag::Heading, b"States");
    begin_box(page, b"States");
    put_states(page, layout, states);
    page.end(Tag::Division);
    page.element(Tag::Heading, b"Line by line");
    put_script_lines(page, layout);
    page.end(Tag::Main);
    page.end(Tag::Body);
    page.end(Tag::Html);
    page.show(b"\n");
}

/// A box begins, in which what is wider than the screen is moved.
pub(crate) fn begin_box<M: Supply>(page: &mut Page<'_, M>, name: &[u8]) {
    page.begin(Tag::Division);
    page.attribute(Attribute::Class, b"box");
    page.attribute(Attribute::Role, b"region");
    page.attribute(Attribute::Label, name);
    page.attribute(Attribute::TabIndex, b"0");
    page.inside();
}
