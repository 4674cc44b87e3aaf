//! What the colours of the diagram say.

use memory::Supply;
use page_text::marks::{Attribute, Tag};
use page_text::page::Page;
use streams::Sink;

/// The colours of the bars and of what is lost.
pub fn put_legend<M: Supply>(page: &mut Page<'_, M>) {
    page.begin(Tag::Paragraph);
    page.attribute(Attribute::Class, b"legend");
    page.inside();
    put_entry(page, b"key offered", b"offered");
    put_entry(page, b"key connected", b"connected, or held");
    put_entry(page, b"key away", b"away");
    put_entry(page, b"key letting", b"letting go");
    put_entry(page, b"key reset", b"to be reset");
    put_entry(page, b"key lost", b"lost or ignored");
    page.end(Tag::Paragraph);
}

/// A colour, and what it says.
fn put_entry<M: Supply>(page: &mut Page<'_, M>, class: &[u8], text: &[u8]) {
    page.begin(Tag::Span);
    page.attribute(Attribute::Class, b"entry");
    page.inside();
    page.begin(Tag::Span);
    page.attribute(Attribute::Class, class);
    page.inside();
    page.end(Tag::Span);
    page.show(text);
    page.end(Tag::Span);
    page.show(b" ");
}
