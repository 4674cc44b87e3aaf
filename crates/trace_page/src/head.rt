//! The head of a page: its title, how it looks, and the lines of comment that its script begins with.

use crate::style_sheet::STYLE_SHEET;
use memory::Supply;
use page_text::marks::{Attribute, Mark, Tag};
use page_text::page::Page;
use step_records::script_lines::ScriptLines;
use streams::Sink;

/// What a page is called whose script begins with no comment.
const NO_TITLE: &[u8] = b"A script, line by line";

/// The head of a page, and what it begins with.
pub fn put_head<M: Supply>(page: &mut Page<'_, M>, text: &ScriptLines) {
    page.mark(Mark::Doctype);
    page.show(b"\n");
    page.begin(Tag::Html);
    page.attribute(Attribute::Language, b"en");
    page.inside();
    page.begin(Tag::Head);
    page.inside();
    put_meta(page);
    page.element(Tag::Title, title_of(text));
    page.element(Tag::Style, STYLE_SHEET.as_bytes());
    page.end(Tag::Head);
    page.show(b"\n");
}

/// How the page is read: as UTF-8, and as wide as the screen.
fn put_meta<M: Supply>(page: &mut Page<'_, M>) {
    page.begin(Tag::Meta);
    page.attribute(Attribute::Charset, b"utf-8");
    page.inside();
    page.begin(Tag::Meta);
    page.attribute(Attribute::Name, b"viewport");
    page.attribute(Attribute::Content, b"width=device-width, initial-scale=1");
    page.inside();
    page.begin(Tag::Meta);
    page.attribute(Attribute::Name, b"color-scheme");
    page.attribute(Attribute::Content, b"light dark");
    page.inside();
}

/// The lines of comment that a script begins with: the first as a heading, the others below it.
pub fn put_comments<M: Supply>(page: &mut Page<'_, M>, text: &ScriptLines) {
    page.element(Tag::MainHeading, title_of(text));
    for number in 2..text.count().saturating_add(1) {
        match comment_of(text.line(number)) {
            Some(comment) => {
                page.element(Tag::Paragraph, comment);
            }
            None => return,
        }
    }
}

/// The first line of a script, where it is a comment.
fn title_of(text: &ScriptLines) -> &[u8] {
    match comment_of(text.line(1)) {
        Some(comment) => comment,
        None => NO_TITLE,
    }
}

/// What a line of comment says.
fn comment_of(line: &[u8]) -> Option<&[u8]> {
    match line {
        [b'#', b' ', comment @ ..] => Some(comment),
        [b'#', comment @ ..] => Some(comment),
        _ => None,
    }
}
