//! Subchannel-information blocks (SA22-7832, chapter 15), and what follows the status word in an interruption-response block
//! (chapter 16).

ghost use Rattle.std.specs.Prelude.{◌≡◌, codes, map};
ghost use Rattle.streams.specs.Sinks.{Puts};
ghost use Rattle.word_parts.specs.Parts.{names_text, part_of};
ghost use Rattle.word_parts.specs.SchibNames as spec;

use streams::Sink;
use word_parts::listing::{bits, flag, put_names};
use word_parts::part::{Part, Shown};

fn parameter_parts() -> [Part<'static>; 1]
    ensures { map part_of result ≡ spec.word_0 }
{
    [bits(0, 31, Shown::Always(8), b"interruption parameter")]
}

fn control_parts() -> [Part<'static>; 10]
    ensures { map part_of result ≡ spec.word_1 }
{
    [
        bits(0, 1, Shown::NotZero(1), b"reserved bits 0-1"),
        bits(2, 4, Shown::Always(1), b"ISC"),
        bits(5, 7, Shown::NotZero(1), b"reserved bits 5-7"),
        flag(8, b"E enabled"),
        bits(9, 10, Shown::NotZero(1), b"LM limit mode"),
        bits(11, 12, Shown::NotZero(1), b"MM measurement-mode enable"),
        flag(13, b"D multipath mode"),
        flag(14, b"T timing facility"),
        flag(15, b"V device number valid"),
        bits(16, 31, Shown::Always(4), b"device number"),
    ]
}

fn mask_parts() -> [Part<'static>; 4]
    ensures { map part_of result ≡ spec.word_2 }
{
    [
        bits(0, 7, Shown::Paths, b"LPM"),
        bits(8, 15, Shown::Paths, b"PNOM"),
        bits(16, 23, Shown::Paths, b"LPUM"),
        bits(24, 31, Shown::Paths, b"PIM"),
    ]
}

fn measurement_parts() -> [Part<'static>; 3]
    ensures { map part_of result ≡ spec.word_3 }
{
    [
        bits(0, 15, Shown::NotZero(4), b"MBI"),
        bits(16, 23, Shown::Paths, b"POM"),
        bits(24, 31, Shown::Paths, b"PAM"),
    ]
}

fn low_chpid_parts() -> [Part<'static>; 4]
    ensures { map part_of result ≡ spec.word_4 }
{
    [
        bits(0, 7, Shown::Always(2), b"CHPID 0"),
        bits(8, 15, Shown::Always(2), b"CHPID 1"),
        bits(16, 23, Shown::Always(2), b"CHPID 2"),
        bits(24, 31, Shown::Always(2), b"CHPID 3"),
    ]
}

fn high_chpid_parts() -> [Part<'static>; 4]
    ensures { map part_of result ≡ spec.word_5 }
{
    [
        bits(0, 7, Shown::Always(2), b"CHPID 4"),
        bits(8, 15, Shown::Always(2), b"CHPID 5"),
        bits(16, 23, Shown::Always(2), b"CHPID 6"),
        bits(24, 31, Shown::Always(2), b"CHPID 7"),
    ]
}

fn sense_parts() -> [Part<'static>; 2]
    ensures { map part_of result ≡ spec.word_6 }
{
    [
        bits(0, 30, Shown::NotZero(1), b"reserved bits 0-30"),
        flag(31, b"S concurrent sense"),
    ]
}

fn reserved_parts() -> [Part<'static>; 1]
    ensures { map part_of result ≡ spec.reserved }
{
    [bits(0, 31, Shown::NotZero(8), b"reserved bits 0-31")]
}

fn extended_parts() -> [Part<'static>; 3]
    ensures { map part_of result ≡ spec.extended }
{
    [
        bits(0, 7, Shown::NotZero(2), b"reserved bits 0-7"),
        bits(8, 15, Shown::Paths, b"LPUM"),
        bits(16, 31, Shown::NotZero(4), b"reserved bits 16-31"),
    ]
}

/// The word of this index, 0 to 6, of a path-management-control word; of a greater index a word of which all bits are
/// reserved.
pub fn put_pmcw<S: Sink>(sink: &mut S, index: usize, word: u32) -> bool
    ensures { Puts (S.seen sink.old) (names_text (codes "; ") (spec.pmcw_parts index) word) (S.seen sink.new) result }
{
    match index {
        0 => put_names(sink, b"; ", &parameter_parts(), word),
        1 => put_names(sink, b"; ", &control_parts(), word),
        2 => put_names(sink, b"; ", &mask_parts(), word),
        3 => put_names(sink, b"; ", &measurement_parts(), word),
        4 => put_names(sink, b"; ", &low_chpid_parts(), word),
        5 => put_names(sink, b"; ", &high_chpid_parts(), word),
        6 => put_names(sink, b"; ", &sense_parts(), word),
        _ => put_names(sink, b"; ", &reserved_parts(), word),
    }
}

/// The word of this index, 0 to 12, of the extended status and the extended control of an interruption-response block.
pub fn put_extended<S: Sink>(sink: &mut S, index: usize, word: u32) -> bool
    ensures { Puts (S.seen sink.old) (names_text (codes "; ") (spec.extended_by index) word) (S.seen sink.new) result }
{
    match index {
        0 => put_names(sink, b"; ", &extended_parts(), word),
        _ => put_names(sink, b"; ", &reserved_parts(), word),
    }
}
