//! What a word of a line stands for.

ghost use Rattle.std.specs.Prelude.{◌≡◌, ◌<◌, ◌≤◌, [], ◌∷◌, ◌++◌, map, length, ok_or, true, IfSome, OnOk, IfErr, MatchOption, MatchResult, Some, None, Ok, Err};
ghost use Rattle.std.specs.Str.{bytes_eq};
ghost use Rattle.script_rows.specs.Words as spec;
ghost use Rattle.script_rows.specs.Faults.{FaultOf, rule_number};

use chan_model::chunk::Chunk;
use memory::{Supply, push};
use std::alloc::{AllocError, Global};
use std::marker::Model;

/// The rules of lines (own), each named by what breaks it, in the order of their numbers.
#[derive(Clone, Copy, Debug, PartialEq, Eq)]
pub enum LineRule {
    /// The first word is unknown.
    UnknownWord,
    /// There are not as many words as there should be.
    WrongCount,
    /// A number or another word is not what it should be, or the line is too long or not of UTF-8.
    BadWord,
    /// A configuration line stands after an action.
    SettingAfterAction,
    /// A rule of configurations is broken.
    BreaksConfiguration,
    /// The first line with words is no `storage` line.
    StorageNotFirst,
    /// A race stands where none is allowed, or before a line with words.
    MisplacedRace,
}

impl LineRule {
    /// The number by which it is printed.
    pub fn number(self) -> u8
        ensures { result ≡ rule_number self }
    {
        match self {
            LineRule::UnknownWord => 1,
            LineRule::WrongCount => 2,
            LineRule::BadWord => 3,
            LineRule::SettingAfterAction => 4,
            LineRule::BreaksConfiguration => 5,
            LineRule::StorageNotFirst => 6,
            LineRule::MisplacedRace => 7,
        }
    }
}

/// Why a line is not taken.
#[derive(Clone, Copy, Debug, PartialEq, Eq)]
pub enum LineFault {
    /// A growth was refused.
    NoMemory,
    /// This rule is broken.
    Rule(LineRule),
}

impl From<AllocError> for LineFault {
    ghost use Rattle.std.specs.Prelude.{◌≡◌};
    ghost use Rattle.script_rows.specs.declared.words.LineFault.TheVariants.{NoMemory};

    ghost from_gives = { λ _ fault. fault ≡ NoMemory };

    fn from(_: AllocError) -> Self {
        LineFault::NoMemory
    }
}

impl From<LineRule> for LineFault {
    ghost use Rattle.std.specs.Prelude.{◌≡◌};
    ghost use Rattle.script_rows.specs.declared.words.LineFault.TheVariants.{Rule};

    ghost from_gives = { λ rule fault. fault ≡ Rule rule };

    fn from(rule: LineRule) -> Self {
        LineFault::Rule(rule)
    }
}

/// The numbers of a line's last words.
#[derive(Drop)]
pub struct Numbers {
    numbers: Vec<u32>,
}

impl Model for Numbers {
    ghost use Rattle.std.specs.Prelude.{ℕ, List};

    ghost Value = { List ℕ };

    ghost view = { λ n. n.numbers.items };
}

impl Numbers {
    /// No numbers.
    pub fn new(alloc: Global) -> Self
        ensures { result ≡ [] }
    {
        Numbers {
            numbers: Vec::new(alloc),
        }
    }

    /// One number more.
    pub fn push<S: Supply>(&mut self, supply: &mut S, number: u32) -> Result<(), LineFault>
        ensures ok { OnOk result (self.new ≡ self.old ++ number ∷ []) }
        ensures err { IfErr result (λ f. (f ≡ LineFault.NoMemory) × (self.new ≡ self.old)) }
        ensures unrefused { OnOk result (S.refused supply.new ≡ S.refused supply.old) }
        ensures memory { result ≡ Err LineFault.NoMemory → S.refused supply.new ≡ true }
    {
        push(supply, &mut self.numbers, number)?;
        Ok(())
    }

    /// The numbers in order.
    pub fn as_slice(&self) -> &[u32]
        ensures { result.now ≡ self.now }
    {
        self.numbers.as_slice()
    }
}

/// Whether the bytes of a word are those of a name that is as long.
fn is_same(word: &[u8], name: &[u8]) -> bool
    requires { length word.now ≡ length name.now }
    ensures { result ≡ bytes_eq word.now name.now }
{
    for (i, byte) in word.iter().enumerate() {
        if *byte != name[i] {
            return false;
        }
    }
    true
}

/// Whether a word is this name: its length and its first byte tell most others apart.
#[inline(always)]
pub fn is_name(word: &[u8], name: &[u8]) -> bool
    ensures { result ≡ bytes_eq word.now name.now }
{
    match (word, name) {
        ([first, ..], [letter, ..]) => {
            word.len() == name.len() && *first == *letter && is_same(word, name)
        }
        _ => word == name,
    }
}

fn hex_value(byte: u8) -> Option<u8>
    ensures value { result ≡ spec.hex_value byte }
    ensures small { IfSome result (λ d. d < 16) }
{
    match byte {
        b'0'..=b'9' => Some(byte - b'0'),
        b'A'..=b'F' => Some(byte - b'A' + 10),
        b'a'..=b'f' => Some(byte - b'a' + 10),
        _ => None,
    }
}

fn hex_from(word: &[u8]) -> Option<u32>
    requires { length word.now ≤ 8 }
    ensures value { result ≡ spec.hex_from 0 word.now }
    ensures short { IfSome result (λ n. length word.now ≤ 4 → n < 0x10000) }
{
    let mut value = 0;
    for byte in word {
        match hex_value(*byte) {
            Some(digit) => value = value * 16 + u32::from(digit),
            None => return None,
        }
    }
    Some(value)
}

/// A number of 1 to 8 hexadecimal digits, of which most that come here have several.
#[inline(never)]
fn long_number(word: &[u8]) -> Option<u32>
    ensures value { result ≡ spec.number word.now }
    ensures short { IfSome result (λ n. length word.now ≤ 4 → n < 0x10000) }
{
    if word.is_empty() || word.len() > 8 {
        return None;
    }
    hex_from(word)
}

/// A number of 1 to 8 hexadecimal digits; most have one, which is decimal.
#[inline(always)]
pub fn number(word: &[u8]) -> Option<u32>
    ensures value { result ≡ spec.number word.now }
    ensures short { IfSome result (λ n. length word.now ≤ 4 → n < 0x10000) }
{
    match word {
        [digit @ b'0'..=b'9'] => Some(u32::from(*digit - b'0')),
        _ => long_number(word),
    }
}

/// A number that is at most `most`.
pub fn number_up_to(most: u32, word: &[u8]) -> Option<u32>
    ensures value { result ≡ spec.number_up_to most word.now }
    ensures bound { IfSome result (λ n. n ≤ most) }
{
    match number(word) {
        Some(n) if n <= most => Some(n),
        _ => None,
    }
}

fn decimal_value(byte: u8) -> Option<u8>
    ensures value { result ≡ spec.decimal_value byte }
    ensures small { IfSome result (λ d. d < 10) }
{
    match byte {
        b'0'..=b'9' => Some(byte - b'0'),
        _ => None,
    }
}

fn decimal_from(word: &[u8]) -> Option<u32>
    requires { length word.now ≤ 8 }
    ensures { result ≡ spec.decimal_from 0 word.now }
{
    let mut value = 0;
    for byte in word {
        match decimal_value(*byte) {
            Some(digit) => value = value * 10 + u32::from(digit),
            None => return None,
        }
    }
    Some(value)
}

/// A number of 1 to 8 decimal digits.
fn decimal_number(word: &[u8]) -> Option<u32>
    ensures { result ≡ spec.decimal_number word.now }
{
    if word.is_empty() || word.len() > 8 {
        return None;
    }
    decimal_from(word)
}

/// How often: a decimal number from 1 to `most`.
pub(crate) fn times_up_to(most: u32, word: &[u8]) -> Option<u32>
    ensures { result ≡ spec.times_up_to most word.now }
{
    match decimal_number(word) {
        Some(n) if 1 <= n && n <= most => Some(n),
        _ => None,
    }
}

/// The numbers of all these words, or that one of them is none.
pub(crate) fn numbers_of<S: Supply>(
    alloc: Global,
    supply: &mut S,
    words: &[&[u8]],
) -> Result<Numbers, LineFault>
    ensures says { MatchResult result (λ ns. spec.numbers_of (map (λ w. w.now) words.now) ≡ Some ns)
        (λ f. FaultOf f (ok_or (spec.numbers_of (map (λ w. w.now) words.now)) LineRule.BadWord)) }
    ensures unrefused { OnOk result (S.refused supply.new ≡ S.refused supply.old) }
    ensures memory { result ≡ Err LineFault.NoMemory → S.refused supply.new ≡ true }
{
    let mut found = Numbers::new(alloc);
    for word in words {
        match number(word) {
            Some(n) => found.push(supply, n)?,
            None => return Err(LineFault::Rule(LineRule::BadWord)),
        }
    }
    Ok(found)
}

fn pair(high: u8, low: u8) -> Option<u8>
    ensures { result ≡ spec.pair_value high low }
{
    let high = hex_value(high)?;
    let low = hex_value(low)?;
    Some(high * 16 + low)
}

fn bytes_from(word: &[u8]) -> Option<Chunk>
    requires { length word.now ≤ 512 }
    ensures { result ≡ spec.bytes_from word.now }
{
    let mut chunk = Chunk::new();
    let mut rest = word;
    'pairs: loop {
        match rest {
            [] => return Some(chunk),
            [_] => return None,
            [high, low, others @ ..] => {
                match pair(*high, *low) {
                    Some(byte) => chunk.push(byte),
                    None => return None,
                }
                rest = others;
            }
        }
    }
}

/// 1 to 256 bytes of two hexadecimal digits each.
pub fn hex_bytes(word: &[u8]) -> Option<Chunk>
    ensures { result ≡ spec.hex_bytes word.now }
{
    if word.is_empty() || word.len() > 512 {
        return None;
    }
    bytes_from(word)
}

/// The subsystem-identification word of a subchannel, of which most that come here have several digits.
#[inline(never)]
fn long_subchannel(word: &[u8]) -> Option<u32>
    ensures { result ≡ spec.subchannel word.now }
{
    match long_number(word) {
        Some(n) if word.len() <= 4 => Some(0x1_0000 + n),
        other => other,
    }
}

/// The subsystem-identification word of a subchannel: 5 to 8 digits are the whole word, up to 4 digits its right half.
#[inline(always)]
pub(crate) fn subchannel(word: &[u8]) -> Option<u32>
    ensures { result ≡ spec.subchannel word.now }
{
    match word {
        [digit @ b'0'..=b'9'] => Some(0x1_0000 + u32::from(*digit - b'0')),
        _ => long_subchannel(word),
    }
}

/// The only word.
pub(crate) fn one<'a>(words: &[&'a [u8]]) -> Option<&'a [u8]>
    ensures { MatchOption result (spec.one_of (map (λ w. w.now) words.now) ≡ None)
        (λ w. spec.one_of (map (λ w. w.now) words.now) ≡ Some w.now) }
{
    match words {
        [first] => Some(*first),
        _ => None,
    }
}

/// The only two words.
pub(crate) fn two<'a>(words: &[&'a [u8]]) -> Option<(&'a [u8], &'a [u8])>
    ensures { MatchOption result (spec.two_of (map (λ w. w.now) words.now) ≡ None)
        (λ p. spec.two_of (map (λ w. w.now) words.now) ≡ Some (p.0.now, p.1.now)) }
{
    match words {
        [first, second] => Some((*first, *second)),
        _ => None,
    }
}

/// The only three words.
pub(crate) fn three<'a>(words: &[&'a [u8]]) -> Option<(&'a [u8], &'a [u8], &'a [u8])>
    ensures { MatchOption result (spec.three_of (map (λ w. w.now) words.now) ≡ None)
        (λ p. spec.three_of (map (λ w. w.now) words.now) ≡ Some (p.0.now, p.1.now, p.2.now)) }
{
    match words {
        [first, second, third] => Some((*first, *second, *third)),
        _ => None,
    }
}

/// The only four words.
pub(crate) fn four<'a>(words: &[&'a [u8]]) -> Option<(&'a [u8], &'a [u8], &'a [u8], &'a [u8])>
    ensures { MatchOption result (spec.four_of (map (λ w. w.now) words.now) ≡ None)
        (λ p. spec.four_of (map (λ w. w.now) words.now) ≡ Some (p.0.now, p.1.now, p.2.now, p.3.now)) }
{
    match words {
        [first, second, third, fourth] => Some((*first, *second, *third, *fourth)),
        _ => None,
    }
}

/// The number that is the only word.
#[inline(always)]
pub(crate) fn only_number(words: &[&[u8]]) -> Result<u32, LineRule>
    ensures { result ≡ spec.with_one spec.number (λ n. n) (map (λ w. w.now) words.now) }
{
    let word = one(words).ok_or(LineRule::WrongCount)?;
    number(word).ok_or(LineRule::BadWord)
}

/// The subchannel that the only word names.
#[inline(always)]
pub(crate) fn only_subchannel(words: &[&[u8]]) -> Result<u32, LineRule>
    ensures { result ≡ spec.with_one spec.subchannel (λ s. s) (map (λ w. w.now) words.now) }
{
    let word = one(words).ok_or(LineRule::WrongCount)?;
    subchannel(word).ok_or(LineRule::BadWord)
}

/// The subchannel and the number that the only two words name.
#[inline(always)]
pub(crate) fn subchannel_and_number(words: &[&[u8]]) -> Result<(u32, u32), LineRule>
    ensures { result ≡ spec.with_two spec.subchannel spec.number (λ s n. (s, n)) (map (λ w. w.now) words.now) }
{
    let (word, other) = two(words).ok_or(LineRule::WrongCount)?;
    let subchannel = subchannel(word).ok_or(LineRule::BadWord)?;
    let number = number(other).ok_or(LineRule::BadWord)?;
    Ok((subchannel, number))
}
