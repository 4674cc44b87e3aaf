//! Numbers and words as they are printed.

use itoa::Buffer;
use streams::Sink;

/// How many bytes of a word are printed at least, where it has them.
const SHOWN: usize = 24;

/// A number in decimal digits.
pub fn put_decimal<S: Sink>(sink: &mut S, number: u64) -> bool {
    sink.put(Buffer::new().format(number).as_bytes())
}

/// How many there are, in decimal digits.
pub fn put_count<S: Sink>(sink: &mut S, count: usize) -> bool {
    put_decimal(sink, count as u64)
}

/// The byte of a hexadecimal digit.
fn digit(value: u32) -> u8 {
    match value % 16 {
        small @ 0..=9 => b'0' + small as u8,
        great => b'A' - 10 + great as u8,
    }
}

/// A number in hexadecimal digits, without zeros before them.
pub fn put_hex<S: Sink>(sink: &mut S, number: u32) -> bool {
    for place in 0..8u32 {
        let high = number >> (28 - 4 * place);
        if (high != 0 || place == 7) && !sink.put(&[digit(high)]) {
            return false;
        }
    }
    true
}

/// A number of words, in words up to nine.
pub fn put_in_words<S: Sink>(sink: &mut S, count: usize) -> bool {
    sink.put(match count {
        0 => b"no",
        1 => b"one",
        2 => b"two",
        3 => b"three",
        4 => b"four",
        5 => b"five",
        6 => b"six",
        7 => b"seven",
        8 => b"eight",
        9 => b"nine",
        _ => return put_count(sink, count),
    })
}

/// Whether a byte goes on with a character.
fn goes_on(byte: u8) -> bool {
    matches!(byte, 0x80..=0xBF)
}

/// A byte as it is printed: a control character as a question mark.
fn shown(byte: u8) -> u8 {
    match byte {
        0..=31 | 127 => b'?',
        _ => byte,
    }
}

/// The beginning of a word, of whole characters where it is UTF-8; two points behind it where it has more.
pub fn put_word<S: Sink>(sink: &mut S, word: &[u8]) -> bool {
    for (index, byte) in word.iter().enumerate() {
        if index >= SHOWN && !goes_on(*byte) {
            return sink.put(b"..");
        }
        if !sink.put(&[shown(*byte)]) {
            return false;
        }
    }
    true
}

/// The same in quotes.
pub fn put_quoted<S: Sink>(sink: &mut S, word: &[u8]) -> bool {
    sink.put(b"'") && put_word(sink, word) && sink.put(b"'")
}

/// A quoted word, and a text behind it.
pub fn put_of_word<S: Sink>(sink: &mut S, word: &[u8], text: &[u8]) -> bool {
    put_quoted(sink, word) && sink.put(text)
}

/// A text, and a quoted name behind it.
pub fn put_name<S: Sink>(sink: &mut S, text: &[u8], name: &[u8]) -> bool {
    sink.put(text) && put_quoted(sink, name)
}

/// A word as it stands between two texts.
pub fn put_between<S: Sink>(sink: &mut S, before: &[u8], word: &[u8], behind: &[u8]) -> bool {
    sink.put(before) && put_word(sink, word) && sink.put(behind)
}
