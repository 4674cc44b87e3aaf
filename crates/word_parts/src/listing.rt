//! What is printed of the parts of a word, by a table of them.

ghost use Rattle.std.specs.Prelude.{◌≡◌, ◌≤◌, ◌<◌, ◌++◌, IfSome, IfNone, map};
ghost use Rattle.std.specs.List.{list_any};
ghost use Rattle.streams.specs.Sinks.{FailsIn, Puts, TakesText};
ghost use Rattle.word_parts.specs.Parts as spec;
ghost use Rattle.word_parts.specs.Parts.{part_of};

use crate::meanings::{recovery_name, source_name};
use crate::number::put_hex_after;
use crate::part::{Part, Shown};
use crate::paths::put_paths_after;
use streams::Sink;
use zbits::field;

/// A part of one bit.
pub fn flag(bit: u32, name: &[u8]) -> Part<'_>
    requires { bit < 32 }
    ensures { part_of result ≡ spec.flag bit name.now }
{
    bits(bit, bit, Shown::Flag, name)
}

pub fn bits(first: u32, last: u32, shown: Shown, name: &[u8]) -> Part<'_>
    requires ordered { first ≤ last }
    requires within { last < 32 }
    ensures { part_of result ≡ spec.bits first last shown name.now }
{
    Part {
        first,
        last,
        shown,
        name,
    }
}

impl Part<'_> {
    /// What stands at the bits of the part.
    fn number(&self, word: u32) -> u32
        ensures { result ≡ spec.number_of (part_of self.now) word }
    {
        field(word, self.first, self.last)
    }

    /// Whether the part is printed.
    fn is_shown(&self, word: u32) -> bool
        ensures { result ≡ spec.is_shown (part_of self.now) word }
    {
        match self.shown {
            Shown::Flag | Shown::NotZero(_) => self.number(word) != 0,
            _ => true,
        }
    }

    /// What is printed of it.
    fn put<S: Sink>(&self, sink: &mut S, number: u32) -> bool
        ensures { Puts (S.seen sink.old) (spec.item_text (part_of self.now) number) (S.seen sink.new) result }
    {
        match self.shown {
            Shown::Flag => sink.put(self.name),
            Shown::Format => put_format(sink, self.name, number),
            Shown::NotZero(digits) | Shown::Always(digits) => {
                put_number(sink, self.name, digits, number)
            }
            Shown::Paths => put_mask(sink, self.name, number),
            Shown::Source => put_meant(sink, self.name, 1, number, source_name(number)),
            Shown::Recovery => put_meant(sink, self.name, 2, number, recovery_name(number)),
        }
    }
}

/// The name where the bit is one, and `format 0` where it is zero.
fn put_format<S: Sink>(sink: &mut S, name: &[u8], number: u32) -> bool
    ensures { Puts (S.seen sink.old) (spec.format_text name.now number) (S.seen sink.new) result }
{
    if number == 0 {
        sink.put(b"format 0")
    } else {
        sink.put(name)
    }
}

/// A name and a number.
#[tactic(auto, using(streams::proofs::Sinking::takes_then, streams::proofs::Sinking::fails_then))]
fn put_number<S: Sink>(sink: &mut S, name: &[u8], digits: u8, number: u32) -> bool
    ensures { Puts (S.seen sink.old) (spec.number_text name.now digits number) (S.seen sink.new) result }
{
    sink.put(name) && put_hex_after(sink, b" ", number, digits)
}

/// A name, a number and what this stands for.
#[tactic(auto, using(streams::proofs::Sinking::takes_then, streams::proofs::Sinking::fails_then))]
fn put_meant<S: Sink>(sink: &mut S, name: &[u8], digits: u8, number: u32, meaning: &[u8]) -> bool
    ensures { Puts (S.seen sink.old) (spec.number_text name.now digits number ++ meaning.now) (S.seen sink.new) result }
{
    put_number(sink, name, digits, number) && sink.put(meaning)
}

/// A mask of paths: its name, two digits, and the paths.
#[tactic(auto, using(streams::proofs::Sinking::takes_then, streams::proofs::Sinking::fails_then))]
fn put_mask<S: Sink>(sink: &mut S, name: &[u8], number: u32) -> bool
    ensures { Puts (S.seen sink.old) (spec.mask_text name.now number) (S.seen sink.new) result }
{
    put_number(sink, name, 2, number) && put_paths_after(sink, b": ", (number % 0x100) as u8)
}

/// A part of a list, after the separator where another went before it.
#[tactic(auto, using(streams::proofs::Sinking::takes_then, streams::proofs::Sinking::fails_then))]
fn put_item<S: Sink>(
    sink: &mut S,
    begun: bool,
    separator: &[u8],
    part: &Part<'_>,
    number: u32,
) -> bool
    ensures { Puts (S.seen sink.old) (spec.after begun separator.now (spec.item_text (part_of part.now) number)) (S.seen sink.new) result }
{
    if begun {
        sink.put(separator) && part.put(sink, number)
    } else {
        part.put(sink, number)
    }
}

/// Puts a part of a list, where it is shown. Answers whether the list is begun by then; nothing where the sink fails.
fn put_next<S: Sink>(
    sink: &mut S,
    begun: bool,
    separator: &[u8],
    part: &Part<'_>,
    word: u32,
) -> Option<bool>
    ensures whole { IfSome result (λ now. TakesText (S.seen sink.old) (spec.listed begun separator.now (spec.part_texts (part_of part.now) word)) (S.seen sink.new)) }
    ensures begun { IfSome result (λ now. now ≡ spec.begun_after begun (spec.part_texts (part_of part.now) word)) }
    ensures failed { IfNone result (FailsIn (S.seen sink.old) (spec.listed begun separator.now (spec.part_texts (part_of part.now) word)) (S.seen sink.new)) }
{
    if !part.is_shown(word) {
        return Some(begun);
    }
    if put_item(sink, begun, separator, part, part.number(word)) {
        Some(true)
    } else {
        None
    }
}

/// The parts of a word that are shown, parted by a separator, which stands before the first too where the list is begun.
pub fn put_parts<S: Sink>(
    sink: &mut S,
    begun: bool,
    separator: &[u8],
    parts: &[Part<'_>],
    word: u32,
) -> bool
    ensures { Puts (S.seen sink.old) (spec.listed begun separator.now (spec.texts_of (map part_of parts.now) word)) (S.seen sink.new) result }
{
    let mut now = begun;
    for part in parts {
        match put_next(sink, now, separator, part, word) {
            Some(next) => now = next,
            None => return false,
        }
    }
    true
}

/// Whether any part of a word is shown.
fn shows_any(parts: &[Part<'_>], word: u32) -> bool
    ensures { result ≡ list_any (λ p. spec.is_shown (part_of p) word) parts.now }
{
    parts.iter().any(|part| part.is_shown(word))
}

/// The same, and `none` where no part is shown.
pub fn put_names<S: Sink>(sink: &mut S, separator: &[u8], parts: &[Part<'_>], word: u32) -> bool
    ensures { Puts (S.seen sink.old) (spec.names_text separator.now (map part_of parts.now) word) (S.seen sink.new) result }
{
    if shows_any(parts, word) {
        put_parts(sink, false, separator, parts, word)
    } else {
        sink.put(b"none")
    }
}
