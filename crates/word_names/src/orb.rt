//! Operation-request blocks (SA22-7832, chapter 15).

ghost use Rattle.std.specs.Prelude.{◌≡◌, ◌++◌, codes, map};
ghost use Rattle.streams.specs.Sinks.{Puts};
ghost use Rattle.word_parts.specs.Parts.{names_text, part_of};
ghost use Rattle.word_parts.specs.OrbNames as spec;

use streams::Sink;
use word_parts::listing::{bits, flag, put_names};
use word_parts::part::{Part, Shown};

fn parameter_parts() -> [Part<'static>; 1]
    ensures { map part_of result ≡ spec.word_0 }
{
    [bits(0, 31, Shown::Always(8), b"parameter")]
}

fn control_parts() -> [Part<'static>; 18]
    ensures { map part_of result ≡ spec.word_1 }
{
    [
        bits(0, 3, Shown::Always(1), b"key"),
        flag(4, b"S suspend control"),
        flag(5, b"C streaming-mode control"),
        flag(6, b"M modification control"),
        flag(7, b"Y synchronization control"),
        bits(8, 8, Shown::Format, b"F CCW format 1"),
        flag(9, b"P prefetch control"),
        flag(10, b"I initial-status-interruption control"),
        flag(11, b"A address-limit-checking control"),
        flag(12, b"U suppress-suspended-interruption control"),
        flag(13, b"B channel-program-type control"),
        flag(14, b"H format-2-IDAW control"),
        flag(15, b"T 2K-IDAW control"),
        bits(16, 23, Shown::Always(2), b"LPM"),
        flag(24, b"L incorrect-length-suppression mode"),
        flag(25, b"D modified-CCW-indirect-data-addressing control"),
        bits(26, 30, Shown::NotZero(1), b"reserved bits 26-30"),
        flag(31, b"X ORB-extension control"),
    ]
}

fn program_parts() -> [Part<'static>; 2]
    ensures { map part_of result ≡ spec.word_2 }
{
    [
        flag(0, b"reserved bit 0"),
        bits(1, 31, Shown::Always(1), b"program at"),
    ]
}

/// A word, and the separator after it.
#[tactic(auto, using(streams::proofs::Sinking::takes_then, streams::proofs::Sinking::fails_then))]
fn put_word<S: Sink>(sink: &mut S, parts: &[Part<'_>], word: u32) -> bool
    ensures { Puts (S.seen sink.old) (names_text (codes "; ") (map part_of parts.now) word ++ codes "; ") (S.seen sink.new) result }
{
    put_names(sink, b"; ", parts, word) && sink.put(b"; ")
}

fn put_parameter<S: Sink>(sink: &mut S, word: u32) -> bool
    ensures { Puts (S.seen sink.old) (spec.word_text spec.word_0 word) (S.seen sink.new) result }
{
    put_word(sink, &parameter_parts(), word)
}

fn put_control<S: Sink>(sink: &mut S, word: u32) -> bool
    ensures { Puts (S.seen sink.old) (spec.word_text spec.word_1 word) (S.seen sink.new) result }
{
    put_word(sink, &control_parts(), word)
}

fn put_program<S: Sink>(sink: &mut S, word: u32) -> bool
    ensures { Puts (S.seen sink.old) (names_text (codes "; ") spec.word_2 word) (S.seen sink.new) result }
{
    put_names(sink, b"; ", &program_parts(), word)
}

/// Its words 1 and 2.
#[tactic(auto, using(streams::proofs::Sinking::takes_then, streams::proofs::Sinking::fails_then))]
fn put_rest<S: Sink>(sink: &mut S, control: u32, program: u32) -> bool
    ensures { Puts (S.seen sink.old) (spec.rest_text control program) (S.seen sink.new) result }
{
    put_control(sink, control) && put_program(sink, program)
}

#[tactic(auto, using(streams::proofs::Sinking::takes_then, streams::proofs::Sinking::fails_then))]
fn put_three<S: Sink>(sink: &mut S, parameter: u32, control: u32, program: u32) -> bool
    ensures { Puts (S.seen sink.old) (spec.three_text parameter control program) (S.seen sink.new) result }
{
    put_parameter(sink, parameter) && put_rest(sink, control, program)
}

/// The three words of an operation-request block: `parameter 0000CAFE; key 0; F CCW format 1; LPM FF; program at 1000`.
pub fn put_orb<S: Sink>(sink: &mut S, words: &[u32; 3]) -> bool
    ensures { Puts (S.seen sink.old) (spec.orb_text words.now) (S.seen sink.new) result }
{
    let [parameter, control, program] = *words;
    put_three(sink, parameter, control, program)
}
