//! Interruption codes (SA22-7832, chapter 16).

ghost use Rattle.std.specs.Prelude.{◌≡◌, codes, map};
ghost use Rattle.streams.specs.Sinks.{Puts};
ghost use Rattle.word_parts.specs.Parts.{names_text, part_of};
ghost use Rattle.word_parts.specs.CodeNames as spec;

use streams::Sink;
use word_parts::listing::{bits, flag, put_names};
use word_parts::number::put_hex_pair;
use word_parts::part::{Part, Shown};
use zbits::field;

/// The subsystem-identification word, where it is none that names a subchannel.
fn identification_parts() -> [Part<'static>; 4]
    ensures { map part_of result ≡ spec.word_0 }
{
    [
        bits(0, 12, Shown::Always(4), b"bits 0-12"),
        bits(13, 14, Shown::Always(1), b"set"),
        bits(15, 15, Shown::Always(1), b"bit 15"),
        bits(16, 31, Shown::Always(1), b"subchannel"),
    ]
}

fn interruption_parts() -> [Part<'static>; 3]
    ensures { map part_of result ≡ spec.word_2 }
{
    [
        bits(0, 1, Shown::NotZero(1), b"reserved bits 0-1"),
        bits(2, 4, Shown::Always(1), b"interruption subclass"),
        bits(5, 31, Shown::NotZero(1), b"reserved bits 5-31"),
    ]
}

/// Whether a word names a subchannel.
fn names_subchannel(word: u32) -> bool
    ensures { result ≡ spec.names_subchannel word }
{
    field(word, 0, 12) == 0 && field(word, 15, 15) == 1
}

/// A subchannel of a set.
fn put_subchannel<S: Sink>(sink: &mut S, word: u32) -> bool
    ensures { Puts (S.seen sink.old) (spec.subchannel_text word) (S.seen sink.new) result }
{
    put_hex_pair(
        sink,
        b"subchannel ",
        field(word, 16, 31),
        b" of set ",
        field(word, 13, 14),
    )
}

/// The parts of a word that names no subchannel.
fn put_unnamed<S: Sink>(sink: &mut S, word: u32) -> bool
    ensures { Puts (S.seen sink.old) (names_text (codes "; ") spec.word_0 word) (S.seen sink.new) result }
{
    put_names(sink, b"; ", &identification_parts(), word)
}

/// The subsystem-identification word: `subchannel 1 of set 0`; its parts, where a bit is not as in each that names a subchannel.
fn put_identification<S: Sink>(sink: &mut S, word: u32) -> bool
    ensures { Puts (S.seen sink.old) (spec.identification_text word) (S.seen sink.new) result }
{
    if names_subchannel(word) {
        put_subchannel(sink, word)
    } else {
        put_unnamed(sink, word)
    }
}

fn put_subclass<S: Sink>(sink: &mut S, word: u32) -> bool
    ensures { Puts (S.seen sink.old) (names_text (codes "; ") spec.word_2 word) (S.seen sink.new) result }
{
    put_names(sink, b"; ", &interruption_parts(), word)
}

/// The word of this index, 0 to 2, of an interruption code: `subchannel 1 of set 0`, `interruption parameter`, and
/// `interruption subclass 1`.
pub fn put_interruption_code<S: Sink>(sink: &mut S, index: usize, word: u32) -> bool
    ensures { Puts (S.seen sink.old) (spec.code_text index word) (S.seen sink.new) result }
{
    match index {
        0 => put_identification(sink, word),
        1 => sink.put(b"interruption parameter"),
        _ => put_subclass(sink, word),
    }
}
