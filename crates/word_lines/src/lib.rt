//! Words of control blocks, line by line, and what they say (SA22-7832, chapters 15 to 17).
//!
//! A line has the name of a block and its words, each of 1 to 8 hexadecimal digits: `scsw W W W`, `orb W W W`, `ccw0 W W` and
//! `ccw1 W W` (format 0 and format 1), `crw W`, `code W W W`; or the name and all digits of the block without blanks:
//! `schib HEX` of 52 bytes, `irb HEX` of 64. What the line says follows it, four blanks in. Empty lines and lines that begin
//! with `#` are passed over.
#![tactic(auto)]

mod block;
mod layout;

use crate::block::{LineFault, read_line};
use crate::layout::put_block;
use streams::Sink;

/// How the decoding of lines ended.
#[derive(Clone, Copy, PartialEq, Eq)]
pub enum WordsEnd {
    /// Each line has a block.
    Decoded,
    /// A line has none, and what follows it says why.
    SomeBad,
    /// The sink failed.
    Unwritten,
}

impl WordsEnd {
    /// The exit status: 0 where each line has a block, 2 where one has none, 1 where the sink failed.
    pub fn status(self) -> u8 {
        match self {
            WordsEnd::Decoded => 0,
            WordsEnd::SomeBad => 2,
            WordsEnd::Unwritten => 1,
        }
    }

    /// How it ended once a further line ended so.
    fn then(self, next: WordsEnd) -> WordsEnd {
        match (self, next) {
            (WordsEnd::Unwritten, _) | (_, WordsEnd::Unwritten) => WordsEnd::Unwritten,
            (WordsEnd::SomeBad, _) | (_, WordsEnd::SomeBad) => WordsEnd::SomeBad,
            (WordsEnd::Decoded, WordsEnd::Decoded) => WordsEnd::Decoded,
        }
    }
}

/// Decodes each line of a text.
pub fn put_words<S: Sink>(sink: &mut S, text: &[u8]) -> WordsEnd {
    let mut end = WordsEnd::Decoded;
    for line in text.split(|byte| *byte == b'\n') {
        end = end.then(put_line(sink, line));
    }
    end
}

/// Decodes one line.
fn put_line<S: Sink>(sink: &mut S, line: &[u8]) -> WordsEnd {
    if let [] | [b'#', ..] = line {
        return WordsEnd::Decoded;
    }
    if !(sink.put(line) && sink.put(b"\n")) {
        return WordsEnd::Unwritten;
    }
    match read_line(line) {
        Ok(block) => ended(put_block(sink, &block), WordsEnd::Decoded),
        Err(fault) => ended(put_fault(sink, fault), WordsEnd::SomeBad),
    }
}

fn ended(whole: bool, end: WordsEnd) -> WordsEnd {
    if whole { end } else { WordsEnd::Unwritten }
}

/// Why a line has no block.
fn put_fault<S: Sink>(sink: &mut S, fault: LineFault) -> bool {
    sink.put(match fault {
        LineFault::NoName => {
            b"    no name of a block begins the line: scsw, orb, ccw0, ccw1, crw, code, schib, irb\n"
        }
        LineFault::OneWord => b"    one word stands after the name, of 1 to 8 hexadecimal digits\n",
        LineFault::TwoWords =>
            b"    two words stand after the name, each of 1 to 8 hexadecimal digits\n",
        LineFault::ThreeWords => {
            b"    three words stand after the name, each of 1 to 8 hexadecimal digits\n"
        }
        LineFault::SchibDigits =>
            b"    104 hexadecimal digits stand after the name, without blanks\n",
        LineFault::IrbDigits =>
            b"    128 hexadecimal digits stand after the name, without blanks\n",
    })
}
