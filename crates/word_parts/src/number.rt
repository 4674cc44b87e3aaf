//! Numbers in hexadecimal digits.

ghost use Rattle.std.specs.Prelude.{◌≡◌, ◌<◌, ◌++◌};
ghost use Rattle.streams.specs.Sinks.{Puts};
ghost use Rattle.word_parts.specs.Numbers as spec;

use streams::Sink;

/// How many digits a word has.
const DIGITS: usize = 8;

fn hex_digit(digit: u8) -> u8
    requires { digit < 16 }
    ensures { result ≡ spec.hex_digit digit }
{
    if digit < 10 {
        b'0' + digit
    } else {
        b'A' - 10 + digit
    }
}

fn hex_digits(number: u32) -> [u8; DIGITS]
    ensures { result ≡ spec.hex_digits number }
{
    [
        hex_digit((number / 0x1000_0000 % 16) as u8),
        hex_digit((number / 0x100_0000 % 16) as u8),
        hex_digit((number / 0x10_0000 % 16) as u8),
        hex_digit((number / 0x1_0000 % 16) as u8),
        hex_digit((number / 0x1000 % 16) as u8),
        hex_digit((number / 0x100 % 16) as u8),
        hex_digit((number / 0x10 % 16) as u8),
        hex_digit((number % 16) as u8),
    ]
}

/// How many digits a number needs.
fn digit_count(number: u32) -> u8
    ensures { result ≡ spec.digit_count number }
{
    match number {
        0..=0xF => 1,
        0x10..=0xFF => 2,
        0x100..=0xFFF => 3,
        0x1000..=0xFFFF => 4,
        0x1_0000..=0xF_FFFF => 5,
        0x10_0000..=0xFF_FFFF => 6,
        0x100_0000..=0xFFF_FFFF => 7,
        _ => 8,
    }
}

/// A number in hexadecimal digits: as many as it needs, and so many at least, up to eight.
pub fn put_hex<S: Sink>(sink: &mut S, number: u32, least: u8) -> bool
    ensures { Puts (S.seen sink.old) (spec.hex_text least number) (S.seen sink.new) result }
{
    let digits = hex_digits(number);
    let count = usize::from(least.max(digit_count(number)));
    sink.put(&digits[DIGITS.saturating_sub(count)..])
}

/// A text and a number.
#[tactic(auto, using(streams::proofs::Sinking::takes_then, streams::proofs::Sinking::fails_then))]
pub fn put_hex_after<S: Sink>(sink: &mut S, text: &[u8], number: u32, least: u8) -> bool
    ensures { Puts (S.seen sink.old) (text.now ++ spec.hex_text least number) (S.seen sink.new) result }
{
    sink.put(text) && put_hex(sink, number, least)
}

/// Two texts and a number between them.
#[tactic(auto, using(streams::proofs::Sinking::takes_then, streams::proofs::Sinking::fails_then))]
pub fn put_hex_between<S: Sink>(
    sink: &mut S,
    first: &[u8],
    number: u32,
    least: u8,
    second: &[u8],
) -> bool
    ensures { Puts (S.seen sink.old) ((first.now ++ spec.hex_text least number) ++ second.now) (S.seen sink.new) result }
{
    put_hex_after(sink, first, number, least) && sink.put(second)
}

/// Two texts, each with its number.
#[tactic(auto, using(streams::proofs::Sinking::takes_then, streams::proofs::Sinking::fails_then))]
pub fn put_hex_pair<S: Sink>(sink: &mut S, first: &[u8], a: u32, second: &[u8], b: u32) -> bool
    ensures { Puts (S.seen sink.old) ((first.now ++ spec.hex_text 1 a) ++ (second.now ++ spec.hex_text 1 b)) (S.seen sink.new) result }
{
    put_hex_after(sink, first, a, 1) && put_hex_after(sink, second, b, 1)
}
