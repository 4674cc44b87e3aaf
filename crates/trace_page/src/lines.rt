//! The script line by line, each with all that it did.

use memory::Supply;
use page_layout::layout::Layout;
use page_layout::rows::Row;
use page_text::marks::{Attribute, Mark, Tag};
use page_text::page::Page;
use trace_explain::put_line_explained;

/// Each line that acts, and below it what it did, which is shown where one asks for it.
pub fn put_script_lines<M: Supply>(page: &mut Page<'_, M>, layout: &Layout<'_>) {
    for row in layout.rows.as_slice() {
        put_line(page, layout, row);
    }
}

/// A line, and what it did.
fn put_line<M: Supply>(page: &mut Page<'_, M>, layout: &Layout<'_>, row: &Row) {
    page.begin(Tag::Details);
    page.mark(Mark::Attribute(Attribute::Identifier));
    page.show(b"l");
    page.number(row.line);
    page.mark(Mark::Quote);
    page.inside();
    page.begin(Tag::Summary);
    page.inside();
    page.number(row.line);
    put_last(page, row);
    page.show(b" ");
    page.show(layout.trace.text.line(row.line));
    page.end(Tag::Summary);
    page.begin(Tag::Preformatted);
    page.inside();
    put_line_explained(page, layout.trace, row.records(layout.trace));
    page.end(Tag::Preformatted);
    page.end(Tag::Details);
    page.show(b"\n");
}

/// The last line of a row that has several.
fn put_last<M: Supply>(page: &mut Page<'_, M>, row: &Row) {
    if row.last > row.line {
        page.show(b" to ");
        page.number(row.last);
    }
}
