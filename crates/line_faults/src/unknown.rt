//! Words that begin no line, and first lines that are no `storage` line.

ghost use Rattle.std.specs.Prelude.{◌≡◌};
ghost use Rattle.line_faults.specs.Reasons.{rule_of};

use crate::reason::{FirstReason, Guess, NameReason, Reason};
use crate::rows::{Row, instruction_row, line_row, near_instruction, near_line};
use crate::spelling::{SmallLetters, is_near};
use crate::writing::{Remark, at, whole, writing_of, written};
use script_rows::words::LineRule;

/// The bytes of a byte-order mark.
const MARK: [u8; 3] = [0xEF, 0xBB, 0xBF];

/// By how many letters at most a word may differ from a name that is meant: one, of a word of five letters or more two.
fn letters_of(word: &[u8]) -> u8 {
    match word.len() {
        0 | 1 => 0,
        2..=4 => 1,
        _ => 2,
    }
}

/// Whether a word begins with a byte-order mark.
fn is_marked(word: &[u8]) -> bool {
    match word {
        [a, b, c, ..] => [*a, *b, *c] == MARK,
        _ => false,
    }
}

/// Whether a word begins a comment elsewhere.
fn is_other_comment(word: &[u8]) -> bool {
    matches!(
        word,
        [b'/', b'/', ..] | [b'/', b'*', ..] | [b'-', b'-', ..] | [b';', ..] | [b'*', ..]
    )
}

/// The line that a word in small letters begins, where it has others.
fn small_line(word: &[u8]) -> Option<&'static Row> {
    line_row(SmallLetters::of(word)?.letters())
}

/// The instruction that a word in small letters is, where it has others.
fn small_instruction(word: &[u8]) -> Option<&'static Row> {
    instruction_row(SmallLetters::of(word)?.letters())
}

/// The line that may be meant by a word.
fn guessed_line(word: &[u8]) -> Guess {
    if let Some(row) = small_line(word) {
        return Guess::SmallLetters(row);
    }
    for letters in 1..=letters_of(word) {
        if let Some(row) = near_line(word, letters) {
            return Guess::Near(row);
        }
    }
    Guess::Nothing
}

/// The instruction that may be meant by a word.
fn guessed_instruction(word: &[u8]) -> Guess {
    if let Some(row) = small_instruction(word) {
        return Guess::SmallLetters(row);
    }
    for letters in 1..=letters_of(word) {
        if let Some(row) = near_instruction(word, letters) {
            return Guess::Near(row);
        }
    }
    Guess::Nothing
}

/// Why a word begins no line.
fn line_reason(word: &[u8]) -> NameReason {
    if is_marked(word) {
        NameReason::ByteOrderMark
    } else if is_other_comment(word) {
        NameReason::OtherComment
    } else {
        NameReason::NoLine(guessed_line(word))
    }
}

/// Why a word is no instruction.
fn instruction_reason(word: &[u8]) -> NameReason {
    if line_row(word).is_some() {
        NameReason::NotExecuted
    } else {
        NameReason::NoInstruction(guessed_instruction(word))
    }
}

/// A remark on the first word.
fn of_first(words: &[&[u8]], first: &[u8]) -> Remark
    ensures { rule_of result.reason ≡ LineRule.UnknownWord }
{
    match writing_of(words, 0) {
        Some(writing) => written(
            0,
            writing,
            Reason::UnknownWord(NameReason::Writing(writing)),
        ),
        None => at(0, Reason::UnknownWord(line_reason(first))),
    }
}

/// A remark on what a CPU is to execute.
fn of_executed(words: &[&[u8]], cpu: &[u8], word: &[u8]) -> Remark
    ensures { rule_of result.reason ≡ LineRule.UnknownWord }
{
    if let Some(row) = instruction_row(cpu) {
        return at(1, Reason::UnknownWord(NameReason::NoCpu(row)));
    }
    match writing_of(words, 2) {
        Some(writing) => written(
            2,
            writing,
            Reason::UnknownWord(NameReason::Writing(writing)),
        ),
        None => at(2, Reason::UnknownWord(instruction_reason(word))),
    }
}

/// A remark on a line whose first word is unknown, or that has no instruction behind `cpu`.
pub fn unknown(words: &[&[u8]]) -> Remark
    ensures { rule_of result.reason ≡ LineRule.UnknownWord }
{
    match words {
        [b"cpu", cpu, word, ..] => of_executed(words, cpu, word),
        [b"cpu", ..] => whole(Reason::UnknownWord(NameReason::NothingToExecute)),
        [first, ..] => of_first(words, first),
        [] => whole(Reason::UnknownWord(NameReason::NoLine(Guess::Nothing))),
    }
}

/// Why a word is not `storage`.
fn storage_reason(word: &[u8]) -> FirstReason {
    if is_marked(word) {
        return FirstReason::ByteOrderMark;
    }
    if is_near(word, b"storage", 2) {
        return FirstReason::Misspelt;
    }
    match SmallLetters::of(word) {
        Some(small) if small.letters() == b"storage".as_slice() => FirstReason::InCapitals,
        _ => FirstReason::OtherWord,
    }
}

/// A remark on a first line with words that is no `storage` line.
pub fn not_storage(words: &[&[u8]]) -> Remark
    ensures { rule_of result.reason ≡ LineRule.StorageNotFirst }
{
    match (words, writing_of(words, 0)) {
        (_, Some(writing)) => written(
            0,
            writing,
            Reason::StorageNotFirst(FirstReason::Writing(writing)),
        ),
        ([first, ..], None) => at(0, Reason::StorageNotFirst(storage_reason(first))),
        ([], None) => whole(Reason::StorageNotFirst(FirstReason::OtherWord)),
    }
}
