//! The lane of the script: the numbers of its lines, the lines, and what they came to.

use chan_events::reply::Reply;
use chan_model::answer::ConditionCode;
use chan_model::fault::Fault;
use memory::Supply;
use page_layout::layout::{Layout, SCRIPT};
use page_layout::rows::Row;
use page_text::marks::{Attribute, Mark, Tag};
use page_text::page::Page;
use record_text::codes::{code_name, code_of};
use record_text::line_words::first_word;
use script_text::ActionResult;
use step_records::record::Fact;
use streams::Sink;

/// What a line came to, in a word.
#[derive(Clone, Copy)]
enum Verdict {
    Code(ConditionCode),
    Ignored,
    Refused,
    Plain,
}

/// The line of a row: its number, which leads to what it did, its words and what it came to.
pub fn put_script_line<M: Supply>(page: &mut Page<'_, M>, layout: &Layout<'_>, row: &Row) {
    put_rule(page, layout, row);
    put_number(page, row);
    put_words(page, layout, row);
    put_verdict(page, layout, row);
}

/// The rule below a row.
fn put_rule<M: Supply>(page: &mut Page<'_, M>, layout: &Layout<'_>, row: &Row) {
    page.begin(Tag::Line);
    page.attribute(Attribute::Class, b"rule");
    page.measure(Attribute::X1, 0);
    page.measure(Attribute::Y1, row.bottom());
    page.measure(Attribute::X2, layout.width);
    page.measure(Attribute::Y2, row.bottom());
    page.inside();
    page.end(Tag::Line);
}

/// The number of a row's line.
fn put_number<M: Supply>(page: &mut Page<'_, M>, row: &Row) {
    page.begin(Tag::Link);
    page.mark(Mark::Attribute(Attribute::Target));
    page.show(b"#l");
    page.number(row.line);
    page.mark(Mark::Quote);
    page.inside();
    page.begin(Tag::Text);
    page.attribute(Attribute::Class, b"number");
    page.measure(Attribute::X, SCRIPT - 12);
    page.measure(Attribute::Y, row.baseline());
    page.inside();
    page.number(row.line);
    page.end(Tag::Text);
    page.end(Tag::Link);
}

/// The words of a row's line, as many as there is room for; of several lines in a row the first word, and where they end.
fn put_words<M: Supply>(page: &mut Page<'_, M>, layout: &Layout<'_>, row: &Row) {
    let line = layout.trace.text.line(row.line);
    page.begin(Tag::Text);
    page.attribute(Attribute::Class, b"words");
    page.measure(Attribute::X, SCRIPT);
    page.measure(Attribute::Y, row.baseline());
    page.inside();
    put_title(page, line, row);
    if row.last > row.line {
        put_until(page, line, row.last);
    } else {
        put_cut(page, line, layout.characters);
    }
    page.end(Tag::Text);
}

/// The first word of a line, and the last line that is like it.
fn put_until<M: Supply>(page: &mut Page<'_, M>, line: &[u8], last: u64) {
    page.show(first_word(line));
    page.show(b" to line ");
    page.number(last);
}

/// The whole of a line, and the last of several in its row.
fn put_title<M: Supply>(page: &mut Page<'_, M>, line: &[u8], row: &Row) {
    page.begin(Tag::Title);
    page.inside();
    page.show(b"line ");
    page.number(row.line);
    if row.last > row.line {
        page.show(b" to ");
        page.number(row.last);
    }
    page.show(b": ");
    page.show(line);
    page.end(Tag::Title);
}

/// A line, as many characters of it as there is room for.
fn put_cut<M: Supply>(page: &mut Page<'_, M>, line: &[u8], characters: usize) {
    if line.len() <= characters {
        page.show(line);
    } else {
        page.show(&line[..characters.saturating_sub(1)]);
        page.show("…".as_bytes());
    }
}

/// What the line of a row came to.
fn put_verdict<M: Supply>(page: &mut Page<'_, M>, layout: &Layout<'_>, row: &Row) {
    for record in row.records(layout.trace) {
        if let Fact::Answer(answer) = &record.fact {
            match verdict_of(answer) {
                Verdict::Code(code) => put_answer(page, layout, row, b"code", code_name(code)),
                Verdict::Ignored => put_answer(page, layout, row, b"bad", b"ignored"),
                Verdict::Refused => put_answer(page, layout, row, b"bad", b"refused"),
                Verdict::Plain => {}
            }
        }
    }
}

/// A word beside a row's line.
fn put_answer<M: Supply>(
    page: &mut Page<'_, M>,
    layout: &Layout<'_>,
    row: &Row,
    class: &[u8],
    text: &[u8],
) {
    page.begin(Tag::Text);
    page.attribute(Attribute::Class, class);
    page.measure(Attribute::X, layout.answers);
    page.measure(Attribute::Y, row.baseline());
    page.inside();
    page.show(text);
    page.end(Tag::Text);
}

/// What an answer comes to.
fn verdict_of(answer: &Result<ActionResult, Fault>) -> Verdict {
    match answer {
        Err(_) => Verdict::Refused,
        Ok(ActionResult::Reply(reply)) => reply_verdict(reply),
        Ok(_) => Verdict::Plain,
    }
}

/// What a reply comes to.
fn reply_verdict(reply: &Reply) -> Verdict {
    match reply {
        Reply::Up { taken: false, .. } | Reply::Down { taken: false, .. } => Verdict::Ignored,
        _ => match code_of(reply) {
            Some(code) => Verdict::Code(code),
            None => Verdict::Plain,
        },
    }
}
