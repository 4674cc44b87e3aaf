//! Channel-report words (SA22-7832, chapter 17).

ghost use Rattle.std.specs.Prelude.{◌≡◌, codes, map};
ghost use Rattle.streams.specs.Sinks.{Puts};
ghost use Rattle.word_parts.specs.Parts.{part_of, names_text};
ghost use Rattle.word_parts.specs.Reports as spec;

use streams::Sink;
use word_parts::listing::{bits, flag, put_names};
use word_parts::part::{Part, Shown};

fn report_parts() -> [Part<'static>; 9]
    ensures { map part_of result ≡ spec.report }
{
    [
        flag(0, b"reserved bit 0"),
        flag(1, b"S solicited"),
        flag(2, b"R overflow"),
        flag(3, b"C chaining"),
        bits(4, 7, Shown::Source, b"RSC"),
        flag(8, b"A ancillary report"),
        flag(9, b"reserved bit 9"),
        bits(10, 15, Shown::Recovery, b"ERC"),
        bits(16, 31, Shown::Always(2), b"RSID"),
    ]
}

/// A channel-report word.
pub fn put_crw<S: Sink>(sink: &mut S, word: u32) -> bool
    ensures { Puts (S.seen sink.old) (names_text (codes "; ") spec.report word) (S.seen sink.new) result }
{
    put_names(sink, b"; ", &report_parts(), word)
}
