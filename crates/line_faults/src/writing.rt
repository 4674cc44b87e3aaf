//! Words that are wrong by how they are written: by blanks, tabs, line ends and comments.

ghost use Rattle.std.specs.Prelude.{◌≡◌};

use crate::reason::{Reason, Writing};

/// What is wrong with a line, and with which of its words, by its place from 1.
#[derive(Clone, Copy)]
pub struct Remark {
    pub word: Option<usize>,
    pub reason: Reason,
}

/// A remark on the word at this index, from 0.
pub fn at(index: usize, reason: Reason) -> Remark
    ensures { result.reason ≡ reason }
{
    Remark {
        word: index.checked_add(1),
        reason,
    }
}

/// A remark on the line as a whole.
pub fn whole(reason: Reason) -> Remark
    ensures { result.reason ≡ reason }
{
    Remark { word: None, reason }
}

/// What an empty word before the first word is.
fn blank_before(words: &[&[u8]]) -> Writing {
    for word in words {
        match word {
            [] => {}
            [b'#', ..] => return Writing::BlankBeforeComment,
            [_, ..] => return Writing::BlankBefore,
        }
    }
    Writing::OnlyBlanks
}

/// What an empty word is, which stands at this index.
fn blank(words: &[&[u8]], index: usize) -> Writing {
    if index == 0 {
        return blank_before(words);
    }
    if words.len() <= index.saturating_add(1) {
        Writing::BlankAtEnd
    } else {
        Writing::TwoBlanks
    }
}

/// How the word at this index, from 0, is written, where that is what is wrong with it.
pub fn writing_of(words: &[&[u8]], index: usize) -> Option<Writing> {
    let word = words.get(index)?;
    match word {
        [] => Some(blank(words, index)),
        [b'#', ..] if index != 0 => Some(Writing::Comment),
        [.., b'\r'] => Some(Writing::CarriageReturn),
        _ if word.contains(&b'\t') => Some(Writing::Tab),
        _ => None,
    }
}

/// Whether a writing is of the line as a whole, and not of one of its words.
pub fn is_of_line(writing: Writing) -> bool {
    match writing {
        Writing::OnlyBlanks
        | Writing::BlankBefore
        | Writing::BlankBeforeComment
        | Writing::BlankAtEnd => true,
        Writing::TwoBlanks | Writing::Tab | Writing::CarriageReturn | Writing::Comment => false,
    }
}

/// A remark on how the word at this index is written.
pub fn written(index: usize, writing: Writing, reason: Reason) -> Remark
    ensures { result.reason ≡ reason }
{
    if is_of_line(writing) {
        whole(reason)
    } else {
        at(index, reason)
    }
}
