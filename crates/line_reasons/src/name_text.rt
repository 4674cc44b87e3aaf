//! Words that are no name, as they are told of.

use crate::numbers::{put_name, put_of_word, put_quoted};
use crate::printing::put_writing;
use crate::word_text::put_syntax;
use line_faults::reason::{FirstReason, Guess, NameReason};
use line_faults::rows::Row;
use streams::Sink;

/// Which name may be meant.
fn put_guess<S: Sink>(sink: &mut S, guess: Guess) -> bool {
    match guess {
        Guess::SmallLetters(row) => {
            put_name(sink, b"; words are in small letters: ", row.name())
        }
        Guess::Near(row) => put_name(sink, b"; is ", row.name()) && sink.put(b" meant?"),
        Guess::Nothing => true,
    }
}

/// A byte-order mark before a word.
fn put_mark<S: Sink>(sink: &mut S) -> bool {
    sink.put(b"a byte-order mark before the word: save the file without it")
}

/// An instruction where the number of a CPU should be.
fn put_no_cpu<S: Sink>(sink: &mut S, row: &Row) -> bool {
    put_of_word(
        sink,
        row.name(),
        b" stands where the number of a CPU should: cpu N ",
    ) && sink.put(row.name())
        && sink.put(b" ")
        && put_syntax(sink, row)
}

/// Why a word is no name that it could be.
pub fn put_name_reason<S: Sink>(sink: &mut S, word: &[u8], reason: NameReason) -> bool {
    match reason {
        NameReason::Writing(writing) => put_writing(sink, writing),
        NameReason::ByteOrderMark => put_mark(sink),
        NameReason::OtherComment => {
            put_of_word(sink, word, b" begins no line; a comment begins with #")
        }
        NameReason::NoLine(guess) => {
            put_of_word(sink, word, b" begins no line") && put_guess(sink, guess)
        }
        NameReason::NoCpu(row) => put_no_cpu(sink, row),
        NameReason::NothingToExecute => {
            sink.put(b"cpu has the number of a CPU and an instruction after it, N INSTRUCTION ..")
        }
        NameReason::NotExecuted => put_of_word(sink, word, b" is no instruction of a CPU"),
        NameReason::NoInstruction(guess) => {
            put_of_word(sink, word, b" is no instruction") && put_guess(sink, guess)
        }
    }
}

/// Why the first line with words is no `storage` line.
pub fn put_first_reason<S: Sink>(sink: &mut S, word: &[u8], reason: FirstReason) -> bool {
    match reason {
        FirstReason::Writing(writing) => put_writing(sink, writing),
        FirstReason::ByteOrderMark => put_mark(sink),
        FirstReason::InCapitals => put_of_word(
            sink,
            word,
            b" begins no line; words are in small letters: 'storage'",
        ),
        FirstReason::Misspelt => {
            put_quoted(sink, word) && sink.put(b" begins no line; is 'storage' meant?")
        }
        FirstReason::OtherWord => {
            put_of_word(sink, word, b" stands first; a script begins with storage N")
        }
        FirstReason::NoWords => sink.put(b"no line has words; a script begins with storage N"),
    }
}
