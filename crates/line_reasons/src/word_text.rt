//! Words that are too few, too many or not what they should be, as they are told of.

use crate::numbers::{put_between, put_count, put_in_words, put_of_word, put_quoted, put_word};
use crate::printing::put_writing;
use line_faults::reason::{CountReason, WordFault, WordReason};
use line_faults::rows::{Operand, Row, Tail};
use line_faults::spelling::SmallLetters;
use streams::Sink;

/// The words of a row behind its name, as the syntax of lines has them.
pub fn put_syntax<S: Sink>(sink: &mut S, row: &Row) -> bool {
    for (index, operand) in row.words().iter().enumerate() {
        if index != 0 && !sink.put(b" ") {
            return false;
        }
        if !sink.put(operand.syntax()) {
            return false;
        }
    }
    sink.put(row.tail().syntax())
}

/// How many words stand behind the name of a row.
fn put_needed<S: Sink>(sink: &mut S, row: &Row) -> bool {
    let most = row.words().len();
    match row.tail() {
        Tail::Ended | Tail::Instruction if most == 1 => sink.put(b"one word"),
        Tail::Ended | Tail::Instruction if most == 0 => sink.put(b"no word"),
        Tail::Ended | Tail::Instruction => put_in_words(sink, most) && sink.put(b" words"),
        Tail::LastMayMiss => {
            put_in_words(sink, most.saturating_sub(1))
                && sink.put(b" or ")
                && put_in_words(sink, most)
                && sink.put(b" words")
        }
        Tail::Chpids | Tail::Units => put_in_words(sink, most) && sink.put(b" words or more"),
    }
}

/// How many words there are.
fn put_found<S: Sink>(sink: &mut S, found: usize) -> bool {
    match found {
        0 => sink.put(b"; here is none"),
        1 => sink.put(b"; here is 1"),
        _ => sink.put(b"; here are ") && put_count(sink, found),
    }
}

/// The name of a row, and what stands behind it.
fn put_row<S: Sink>(sink: &mut S, row: &Row) -> bool {
    sink.put(row.name())
        && sink.put(b" has ")
        && put_needed(sink, row)
        && sink.put(b" after it")
        && (row.words().is_empty() || (sink.put(b", ") && put_syntax(sink, row)))
}

/// Why there are not as many words as there should be.
pub fn put_count_reason<S: Sink>(sink: &mut S, reason: CountReason) -> bool {
    match reason {
        CountReason::Writing(writing) => put_writing(sink, writing),
        CountReason::Count {
            row,
            found,
            in_pieces,
        } => {
            put_row(sink, row)
                && put_found(sink, found)
                && (!in_pieces || sink.put(b". Bytes are written without blanks"))
        }
    }
}

/// Which numbers a word may be.
fn range_text(operand: Operand) -> &'static [u8] {
    match operand {
        Operand::Key => b"; a key is an even byte, 0 to FE",
        Operand::Cpu => b"; a CPU is 0 to F",
        Operand::Length => b" (hexadecimal) bytes; show takes 1 to 40",
        Operand::Subclass => b"; an interruption subclass is 0 to 7",
        Operand::Multipath => b"; the multipath mode is 0 or 1",
        Operand::Mask => b"; a mask of subclasses is at most FF",
        Operand::Side => b"; a side is 0 or 1",
        Operand::Cpus => b" CPUs; a race has 1 to 16, in decimal",
        Operand::Times => b" times; a race has 1 to 10000, in decimal",
        _ => b" is out of its range",
    }
}

/// What a name is to be.
fn name_text(operand: Operand) -> &'static [u8] {
    match operand {
        Operand::Kind => b" is no kind of unit",
        _ => b" is not raced",
    }
}

/// Which names there are.
fn names_text(operand: Operand) -> &'static [u8] {
    match operand {
        Operand::Kind => b": block, console, reject",
        _ => b"; a race is of tsch",
    }
}

/// A name in small letters.
fn put_small<S: Sink>(sink: &mut S, word: &[u8]) -> bool {
    match SmallLetters::of(word) {
        Some(small) => put_quoted(sink, small.letters()),
        None => true,
    }
}

/// A word that is no number.
fn put_no_number<S: Sink>(sink: &mut S, operand: Operand, word: &[u8]) -> bool {
    match operand {
        Operand::Cpus | Operand::Times => put_of_word(sink, word, b" is no decimal number"),
        _ => put_of_word(sink, word, b" is no hexadecimal number"),
    }
}

/// A number with a mark before it.
fn put_marked<S: Sink>(sink: &mut S, operand: Operand, word: &[u8]) -> bool {
    match operand {
        Operand::Bytes => put_of_word(
            sink,
            word,
            b": bytes are hexadecimal without a mark before them",
        ),
        _ => put_of_word(
            sink,
            word,
            b": numbers are hexadecimal without a mark before them",
        ),
    }
}

/// What is wrong with a word.
fn put_word_fault<S: Sink>(sink: &mut S, operand: Operand, word: &[u8], fault: WordFault) -> bool {
    match fault {
        WordFault::Marked => put_marked(sink, operand, word),
        WordFault::NoNumber => put_no_number(sink, operand, word),
        WordFault::TooManyDigits(digits) => {
            put_count(sink, digits) && sink.put(b" digits; a number has 1 to 8")
        }
        WordFault::NoDigit(byte) => put_of_word(sink, &[byte], b" is no hexadecimal digit"),
        WordFault::OddDigits(digits) => {
            put_count(sink, digits) && sink.put(b" hexadecimal digits; bytes have two each")
        }
        WordFault::TooManyBytes(bytes) => {
            put_count(sink, bytes) && sink.put(b" bytes; put takes 1 to 256")
        }
        WordFault::OutOfRange => put_word(sink, word) && sink.put(range_text(operand)),
        WordFault::OtherName => {
            put_of_word(sink, word, name_text(operand)) && sink.put(names_text(operand))
        }
        WordFault::CapitalName => {
            put_of_word(sink, word, name_text(operand))
                && sink.put(b"; words are in small letters: ")
                && put_small(sink, word)
        }
    }
}

/// Why a word is not what it should be, or a line can't be read.
pub fn put_word_reason<S: Sink>(sink: &mut S, word: &[u8], reason: WordReason) -> bool {
    match reason {
        WordReason::LineTooLong(bytes) => {
            put_count(sink, bytes) && sink.put(b" bytes; a line has at most 1024")
        }
        WordReason::NotUtf8 => sink.put(b"the line is not UTF-8"),
        WordReason::Writing(writing) => put_writing(sink, writing),
        WordReason::Word { operand, fault } => put_word_fault(sink, operand, word, fault),
    }
}
