//! A line as a block of words.

ghost use Rattle.std.specs.Prelude.{◌≤◌, ◌<◌, length};

use script_rows::words::number;

/// How many words a subchannel-information block has, and an interruption-response block.
pub const SCHIB_WORDS: usize = 13;

pub const IRB_WORDS: usize = 16;

/// A block that a line has.
#[derive(Drop)]
pub enum Block {
    /// A subchannel-status word.
    Scsw([u32; 3]),
    /// An operation-request block.
    Orb([u32; 3]),
    /// A channel-command word of format 0.
    CcwZero([u32; 2]),
    /// A channel-command word of format 1.
    CcwOne([u32; 2]),
    /// A channel-report word.
    Report(u32),
    /// An interruption code.
    Code([u32; 3]),
    /// A subchannel-information block.
    Schib([u32; SCHIB_WORDS]),
    /// An interruption-response block.
    Irb([u32; IRB_WORDS]),
}

/// Why a line has no block.
#[derive(Clone, Copy)]
pub enum LineFault {
    NoName,
    OneWord,
    TwoWords,
    ThreeWords,
    SchibDigits,
    IrbDigits,
}

/// The block of a line.
pub fn read_line(line: &[u8]) -> Result<Block, LineFault> {
    let (name, rest) = split_word(line);
    match name {
        b"scsw" => Ok(Block::Scsw(three(rest)?)),
        b"orb" => Ok(Block::Orb(three(rest)?)),
        b"ccw0" => Ok(Block::CcwZero(two(rest)?)),
        b"ccw1" => Ok(Block::CcwOne(two(rest)?)),
        b"crw" => Ok(Block::Report(number(rest).ok_or(LineFault::OneWord)?)),
        b"code" => Ok(Block::Code(three(rest)?)),
        b"schib" => Ok(Block::Schib(digits(rest).ok_or(LineFault::SchibDigits)?)),
        b"irb" => Ok(Block::Irb(digits(rest).ok_or(LineFault::IrbDigits)?)),
        _ => Err(LineFault::NoName),
    }
}

/// The first word of a line, and what stands behind the blank that ends it.
fn split_word(line: &[u8]) -> (&[u8], &[u8]) {
    match line.iter().position(|byte| *byte == b' ') {
        Some(index) => (&line[..index], &line[index + 1..]),
        None => (line, &[]),
    }
}

fn two(rest: &[u8]) -> Result<[u32; 2], LineFault> {
    let (first, second) = split_word(rest);
    match (number(first), number(second)) {
        (Some(first), Some(second)) => Ok([first, second]),
        _ => Err(LineFault::TwoWords),
    }
}

fn three(rest: &[u8]) -> Result<[u32; 3], LineFault> {
    let (first, rest) = split_word(rest);
    let (second, third) = split_word(rest);
    match (number(first), number(second), number(third)) {
        (Some(first), Some(second), Some(third)) => Ok([first, second, third]),
        _ => Err(LineFault::ThreeWords),
    }
}

/// As many words as an image of so many words has, each of eight digits.
fn digits<const WORDS: usize>(text: &[u8]) -> Option<[u32; WORDS]>
    requires { WORDS < 100 }
{
    if text.len() != 8 * WORDS {
        return None;
    }
    let mut words = [0; WORDS];
    for index in 0..WORDS {
        words[index] = number(&text[8 * index..8 * index + 8])?;
    }
    Some(words)
}
