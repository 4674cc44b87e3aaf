//! Numbers and bytes as they are told.

ghost use Rattle.std.specs.Prelude.{◌≡◌, ◌≤◌, ◌<◌, ◌++◌, ◌∷◌, [], decimal, drop, replicate, length};
ghost use Rattle.std.specs.List.{flat_map};
ghost use Rattle.script_text.specs.Text.{byte_text};
ghost use Rattle.record_text.specs.Numbers as spec;
ghost use Rattle.streams.specs.Sinks.{Puts};

use itoa::Buffer;
use script_text::hex_digit;
use streams::Sink;

/// How many blanks are put at once.
const BLANKS: usize = 64;

/// A number in decimal digits.
pub fn put_decimal<S: Sink>(sink: &mut S, number: u64) -> bool
    ensures { Puts (S.seen sink.old) (decimal number) (S.seen sink.new) result }
{
    sink.put(Buffer::new().format(number).as_bytes())
}

/// How many hexadecimal digits a number has that has at most four.
fn few_digits(number: u64) -> usize
    requires { number < 0x10000 }
    ensures value { result ≡ spec.digit_count number }
    ensures some { 1 ≤ result }
    ensures most { result ≤ 4 }
{
    if number < 0x10 {
        1
    } else if number < 0x100 {
        2
    } else if number < 0x1000 {
        3
    } else {
        4
    }
}

/// How many hexadecimal digits a number has that has more than four.
fn many_digits(number: u64) -> usize
    requires { 0x10000 ≤ number }
    ensures value { result ≡ spec.digit_count number }
    ensures most { result ≤ 16 }
{
    if number < 0x10_0000 {
        5
    } else if number < 0x100_0000 {
        6
    } else if number < 0x1000_0000 {
        7
    } else if number < 0x1_0000_0000 {
        8
    } else if number < 0x10_0000_0000 {
        9
    } else if number < 0x100_0000_0000 {
        10
    } else if number < 0x1000_0000_0000 {
        11
    } else if number < 0x1_0000_0000_0000 {
        12
    } else if number < 0x10_0000_0000_0000 {
        13
    } else if number < 0x100_0000_0000_0000 {
        14
    } else if number < 0x1000_0000_0000_0000 {
        15
    } else {
        16
    }
}

/// The last hexadecimal digit of a number.
fn one_digit(number: u64) -> [u8; 1]
    ensures { result ≡ drop 15 (spec.sixteen_digits number) }
{
    [hex_digit((number % 16) as u8)]
}

/// The four last hexadecimal digits of a number.
fn four_digits(number: u64) -> [u8; 4]
    ensures { result ≡ drop 12 (spec.sixteen_digits number) }
{
    [
        hex_digit((number / 0x1000 % 16) as u8),
        hex_digit((number / 0x100 % 16) as u8),
        hex_digit((number / 0x10 % 16) as u8),
        hex_digit((number % 16) as u8),
    ]
}

/// The sixteen hexadecimal digits of a number.
fn sixteen_digits(number: u64) -> [u8; 16]
    ensures { result ≡ spec.sixteen_digits number }
{
    [
        hex_digit((number / 0x1000_0000_0000_0000 % 16) as u8),
        hex_digit((number / 0x100_0000_0000_0000 % 16) as u8),
        hex_digit((number / 0x10_0000_0000_0000 % 16) as u8),
        hex_digit((number / 0x1_0000_0000_0000 % 16) as u8),
        hex_digit((number / 0x1000_0000_0000 % 16) as u8),
        hex_digit((number / 0x100_0000_0000 % 16) as u8),
        hex_digit((number / 0x10_0000_0000 % 16) as u8),
        hex_digit((number / 0x1_0000_0000 % 16) as u8),
        hex_digit((number / 0x1000_0000 % 16) as u8),
        hex_digit((number / 0x100_0000 % 16) as u8),
        hex_digit((number / 0x10_0000 % 16) as u8),
        hex_digit((number / 0x1_0000 % 16) as u8),
        hex_digit((number / 0x1000 % 16) as u8),
        hex_digit((number / 0x100 % 16) as u8),
        hex_digit((number / 0x10 % 16) as u8),
        hex_digit((number % 16) as u8),
    ]
}

/// A number of one hexadecimal digit.
#[inline(always)]
fn put_one_digit<S: Sink>(sink: &mut S, number: u64) -> bool
    requires { number < 0x10 }
    ensures { Puts (S.seen sink.old) (spec.hexadecimal number) (S.seen sink.new) result }
{
    sink.put(&one_digit(number))
}

/// A number of at most four hexadecimal digits.
fn put_few_digits<S: Sink>(sink: &mut S, number: u64) -> bool
    requires { number < 0x10000 }
    ensures { Puts (S.seen sink.old) (spec.hexadecimal number) (S.seen sink.new) result }
{
    let digits = four_digits(number);
    sink.put(&digits[4 - few_digits(number)..])
}

/// A number of more than four hexadecimal digits.
fn put_many_digits<S: Sink>(sink: &mut S, number: u64) -> bool
    requires { 0x10000 ≤ number }
    ensures { Puts (S.seen sink.old) (spec.hexadecimal number) (S.seen sink.new) result }
{
    let digits = sixteen_digits(number);
    sink.put(&digits[16 - many_digits(number)..])
}

/// A number in hexadecimal digits, with no zeros before it: most have one digit.
pub fn put_hexadecimal<S: Sink>(sink: &mut S, number: u64) -> bool
    ensures { Puts (S.seen sink.old) (spec.hexadecimal number) (S.seen sink.new) result }
{
    if number < 0x10 {
        put_one_digit(sink, number)
    } else if number < 0x1_0000 {
        put_few_digits(sink, number)
    } else {
        put_many_digits(sink, number)
    }
}

/// The eight hexadecimal digits of a word.
fn digits_of(word: u32) -> [u8; 8]
    ensures { result ≡ drop 8 (spec.sixteen_digits word) }
{
    [
        hex_digit((word / 0x1000_0000 % 16) as u8),
        hex_digit((word / 0x100_0000 % 16) as u8),
        hex_digit((word / 0x10_0000 % 16) as u8),
        hex_digit((word / 0x1_0000 % 16) as u8),
        hex_digit((word / 0x1000 % 16) as u8),
        hex_digit((word / 0x100 % 16) as u8),
        hex_digit((word / 0x10 % 16) as u8),
        hex_digit((word % 16) as u8),
    ]
}

/// The eight hexadecimal digits of a word.
#[tactic(auto, unfolding(crate::specs::Numbers::eight_digits))]
pub fn put_eight_digits<S: Sink>(sink: &mut S, word: u32) -> bool
    ensures { Puts (S.seen sink.old) (spec.eight_digits word) (S.seen sink.new) result }
{
    sink.put(&digits_of(word))
}

/// The two hexadecimal digits of a byte.
pub fn put_two_digits<S: Sink>(sink: &mut S, byte: u8) -> bool
    ensures { Puts (S.seen sink.old) (byte_text byte) (S.seen sink.new) result }
{
    let digits = [hex_digit(byte / 0x10 % 16), hex_digit(byte % 16)];
    sink.put(&digits)
}

/// So many blanks, at most 64.
pub fn put_blanks<S: Sink>(sink: &mut S, count: usize) -> bool
    requires { count ≤ 64 }
    ensures { Puts (S.seen sink.old) (replicate count 32) (S.seen sink.new) result }
{
    let blanks = [b' '; BLANKS];
    sink.put(&blanks[..count])
}
