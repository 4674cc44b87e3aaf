//! Words that are not what they should be, and lines that can't be read.

ghost use Rattle.std.specs.Prelude.{◌≡◌, IfSome};
ghost use Rattle.line_faults.specs.Reasons.{rule_of};

use crate::counts::row_and_words;
use crate::reason::{Reason, WordFault, WordReason};
use crate::rows::{Operand, Row};
use crate::spelling::SmallLetters;
use crate::writing::{Remark, at, whole, writing_of, written};
use script_rows::words::{LineRule, hex_bytes, is_name, number};
use std::str::from_utf8;

/// The most bytes that a line has.
const LINE_BYTES: usize = 1024;

/// The most digits that a number has.
const NUMBER_DIGITS: usize = 8;

/// The most bytes that a `put` line has, two digits each.
const MOST_BYTES: usize = 256;

fn is_hex(byte: u8) -> bool {
    matches!(byte, b'0'..=b'9' | b'A'..=b'F' | b'a'..=b'f')
}

fn is_decimal(byte: u8) -> bool {
    matches!(byte, b'0'..=b'9')
}

/// Whether a mark of hexadecimal numbers stands before a word.
fn is_marked(word: &[u8]) -> bool {
    matches!(
        word,
        [b'0', b'x' | b'X', ..] | [b'$', ..] | [b'x' | b'X', b'\'', ..]
    )
}

/// What is wrong with a word that is no hexadecimal number.
fn number_fault(word: &[u8]) -> WordFault {
    if is_marked(word) {
        WordFault::Marked
    } else if word.iter().all(|byte| is_hex(*byte)) {
        WordFault::TooManyDigits(word.len())
    } else {
        WordFault::NoNumber
    }
}

/// What is wrong with a word that is to be at most a number.
fn limit_fault(most: u32, word: &[u8]) -> Option<WordFault> {
    match number(word) {
        None => Some(number_fault(word)),
        Some(n) if n > most => Some(WordFault::OutOfRange),
        Some(_) => None,
    }
}

/// What is wrong with a word that is to be the key of a block.
fn key_fault(word: &[u8]) -> Option<WordFault> {
    match number(word) {
        Some(n) if n > 0xFF || n % 2 == 1 => Some(WordFault::OutOfRange),
        _ => limit_fault(0xFF, word),
    }
}

/// What is wrong with a word that is to be how many bytes are shown.
fn length_fault(word: &[u8]) -> Option<WordFault> {
    match number(word) {
        Some(0) => Some(WordFault::OutOfRange),
        _ => limit_fault(0x40, word),
    }
}

/// What is wrong with a word that is to be bytes.
fn bytes_fault(word: &[u8]) -> Option<WordFault> {
    if hex_bytes(word).is_some() {
        return None;
    }
    if is_marked(word) {
        return Some(WordFault::Marked);
    }
    for byte in word {
        if !is_hex(*byte) {
            return Some(WordFault::NoDigit(*byte));
        }
    }
    if word.len() % 2 == 1 {
        Some(WordFault::OddDigits(word.len()))
    } else {
        Some(WordFault::TooManyBytes(word.len() / 2))
    }
}

/// What is wrong with a word that is to be one of some names.
fn name_fault(names: &[&[u8]], word: &[u8]) -> Option<WordFault> {
    if names.iter().any(|name| is_name(word, name)) {
        return None;
    }
    match SmallLetters::of(word) {
        Some(small) if names.iter().any(|name| is_name(small.letters(), name)) => {
            Some(WordFault::CapitalName)
        }
        _ => Some(WordFault::OtherName),
    }
}

/// The number that decimal digits are; None where there are more than eight of them, or none.
fn decimal(word: &[u8]) -> Option<u32> {
    if word.is_empty() || word.len() > NUMBER_DIGITS || !word.iter().all(|byte| is_decimal(*byte)) {
        return None;
    }
    let mut value: u32 = 0;
    for byte in word {
        value = value
            .wrapping_mul(10)
            .wrapping_add(u32::from(byte.wrapping_sub(b'0')));
    }
    Some(value)
}

/// What is wrong with a word that is to be a decimal number from 1 to `most`.
fn times_fault(most: u32, word: &[u8]) -> Option<WordFault> {
    match decimal(word) {
        Some(n) if 1 <= n && n <= most => None,
        Some(_) => Some(WordFault::OutOfRange),
        None => Some(WordFault::NoNumber),
    }
}

/// What is wrong with a word that is to be this.
fn fault_of(operand: Operand, word: &[u8]) -> Option<WordFault> {
    match operand {
        Operand::Kind => name_fault(&[b"block", b"console", b"reject"], word),
        Operand::Bytes => bytes_fault(word),
        Operand::Key => key_fault(word),
        Operand::Cpu => limit_fault(0xF, word),
        Operand::Length => length_fault(word),
        Operand::Subclass => limit_fault(7, word),
        Operand::Multipath | Operand::Side => limit_fault(1, word),
        Operand::Mask => limit_fault(0xFF, word),
        Operand::Cpus => times_fault(16, word),
        Operand::Times => times_fault(10_000, word),
        Operand::Tested => name_fault(&[b"tsch"], word),
        Operand::Blocks
        | Operand::Sets
        | Operand::Chpid
        | Operand::Unit
        | Operand::OtherUnit
        | Operand::Subchannel
        | Operand::Device
        | Operand::Address
        | Operand::Register
        | Operand::Path => limit_fault(u32::MAX, word),
    }
}

/// A remark on the word at this index, from 0, where it is not what it should be.
fn of_word(words: &[&[u8]], index: usize, operand: Operand, word: &[u8]) -> Option<Remark>
    ensures { IfSome result (λ remark. rule_of remark.reason ≡ LineRule.BadWord) }
{
    let fault = fault_of(operand, word)?;
    Some(match writing_of(words, index) {
        Some(writing) => written(
            index,
            writing,
            Reason::BadWord(WordReason::Writing(writing)),
        ),
        None => at(index, Reason::BadWord(WordReason::Word { operand, fault })),
    })
}

/// A remark on the first of a row's words that is not what it should be; the first of them stands at this index.
fn of_row(words: &[&[u8]], first: usize, row: &Row, others: &[&[u8]]) -> Option<Remark>
    ensures { IfSome result (λ remark. rule_of remark.reason ≡ LineRule.BadWord) }
{
    for (place, word) in others.iter().enumerate() {
        let operand = row.operand(place)?;
        if let Some(remark) = of_word(words, first.wrapping_add(place), operand, word) {
            return Some(remark);
        }
    }
    None
}

/// A remark on a line's words, the first that is not what it should be.
fn of_words(words: &[&[u8]]) -> Option<Remark>
    ensures { IfSome result (λ remark. rule_of remark.reason ≡ LineRule.BadWord) }
{
    if let [b"cpu", cpu, ..] = words
        && let Some(remark) = of_word(words, 1, Operand::Cpu, cpu)
    {
        return Some(remark);
    }
    let (row, others) = row_and_words(words)?;
    of_row(words, words.len().saturating_sub(others.len()), row, others)
}

/// A remark on a line that can't be read, or of whose words one is not what it should be.
pub fn bad_word(line: &[u8], words: &[&[u8]]) -> Remark
    ensures { rule_of result.reason ≡ LineRule.BadWord }
{
    if line.len() > LINE_BYTES {
        return whole(Reason::BadWord(WordReason::LineTooLong(line.len())));
    }
    if from_utf8(line).is_err() {
        return whole(Reason::BadWord(WordReason::NotUtf8));
    }
    match of_words(words) {
        Some(remark) => remark,
        None => whole(Reason::Other(LineRule::BadWord)),
    }
}
