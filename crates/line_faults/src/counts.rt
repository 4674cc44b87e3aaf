//! Lines that have not as many words as they should.

ghost use Rattle.std.specs.Prelude.{◌≡◌};
ghost use Rattle.line_faults.specs.Reasons.{rule_of};

use crate::reason::{CountReason, Reason, Writing};
use crate::rows::{Operand, Row, instruction_row, line_row};
use crate::writing::{Remark, at, whole, writing_of, written};
use script_rows::words::{LineRule, hex_bytes};

/// The row of a line, and its words behind that of its name: those of an instruction behind `cpu` are its own.
pub fn row_and_words<'w, 'a>(words: &'w [&'a [u8]]) -> Option<(&'static Row, &'w [&'a [u8]])> {
    match words {
        [b"cpu", _, word, others @ ..] => Some((instruction_row(word)?, others)),
        [first, others @ ..] => Some((line_row(first)?, others)),
        [] => None,
    }
}

/// Whether these words are bytes that blanks part: of a row whose last word is bytes.
fn is_in_pieces(row: &Row, words: &[&[u8]]) -> bool {
    match (row.words(), words) {
        ([_, Operand::Bytes], [_, pieces @ ..]) => {
            pieces.len() > 1 && pieces.iter().all(|piece| hex_bytes(piece).is_some())
        }
        _ => false,
    }
}

/// How a word behind the first is written, and its index, where that is what makes them too few or too many.
fn parted(words: &[&[u8]]) -> Option<(usize, Writing)> {
    for index in 1..words.len() {
        match writing_of(words, index) {
            Some(Writing::CarriageReturn) if words[index].len() > 1 => {}
            Some(writing) => return Some((index, writing)),
            None => {}
        }
    }
    None
}

/// Why there are not as many words as there should be.
fn count_reason(words: &[&[u8]]) -> Reason
    ensures { rule_of result ≡ LineRule.WrongCount }
{
    match row_and_words(words) {
        None => Reason::Other(LineRule::WrongCount),
        Some((row, others)) => Reason::WrongCount(CountReason::Count {
            row,
            found: others.len(),
            in_pieces: is_in_pieces(row, others),
        }),
    }
}

/// A remark on a line that has not as many words as it should.
pub fn wrong_count(words: &[&[u8]]) -> Remark
    ensures { rule_of result.reason ≡ LineRule.WrongCount }
{
    match parted(words) {
        Some((index, writing)) => written(
            index,
            writing,
            Reason::WrongCount(CountReason::Writing(writing)),
        ),
        None => whole(count_reason(words)),
    }
}
