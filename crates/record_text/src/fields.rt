//! Numbers that are told with a name before them.

ghost use Rattle.std.specs.Prelude.{◌≡◌, ◌++◌};
ghost use Rattle.std.specs.List.{flat_map};
ghost use Rattle.script_text.specs.Text.{byte_text};
ghost use Rattle.record_text.specs.Numbers.{hexadecimal};
ghost use Rattle.streams.specs.Sinks.{Puts};

use crate::number::put_hexadecimal;
use script_text::put_bytes;
use streams::Sink;

/// A name and a number in hexadecimal digits.
#[tactic(auto, using(streams::proofs::Sinking::takes_then, streams::proofs::Sinking::fails_then))]
pub fn put_named<S: Sink>(sink: &mut S, name: &[u8], number: u64) -> bool
    ensures { Puts (S.seen sink.old) (name.now ++ hexadecimal number) (S.seen sink.new) result }
{
    sink.put(name) && put_hexadecimal(sink, number)
}

/// A name, its number, and another name.
#[tactic(auto, using(streams::proofs::Sinking::takes_then, streams::proofs::Sinking::fails_then))]
pub fn put_between<S: Sink>(sink: &mut S, first: &[u8], number: u64, second: &[u8]) -> bool
    ensures { Puts (S.seen sink.old) (first.now ++ hexadecimal number ++ second.now) (S.seen sink.new) result }
{
    put_named(sink, first, number) && sink.put(second)
}

/// Two names, each with its number.
#[tactic(auto, using(streams::proofs::Sinking::takes_then, streams::proofs::Sinking::fails_then))]
pub fn put_two<S: Sink>(sink: &mut S, first: &[u8], a: u64, second: &[u8], b: u64) -> bool
    ensures { Puts (S.seen sink.old) (first.now ++ hexadecimal a ++ second.now ++ hexadecimal b) (S.seen sink.new) result }
{
    put_between(sink, first, a, second) && put_hexadecimal(sink, b)
}

/// A name and its number.
#[derive(Clone, Copy)]
pub struct Field<'a>(pub &'a [u8], pub u64);

/// Two names, each with its number.
pub fn put_pair<S: Sink>(sink: &mut S, first: Field<'_>, second: Field<'_>) -> bool
    ensures { Puts (S.seen sink.old) (first.entry.0.now ++ hexadecimal first.entry.1 ++ second.entry.0.now ++ hexadecimal second.entry.1) (S.seen sink.new) result }
{
    put_two(sink, first.0, first.1, second.0, second.1)
}

/// Three names, each with its number.
#[tactic(auto, using(streams::proofs::Sinking::takes_then, streams::proofs::Sinking::fails_then))]
pub fn put_three<S: Sink>(
    sink: &mut S,
    first: Field<'_>,
    second: Field<'_>,
    third: Field<'_>,
) -> bool
    ensures { Puts (S.seen sink.old) (first.entry.0.now ++ hexadecimal first.entry.1 ++ second.entry.0.now ++ hexadecimal second.entry.1
        ++ (third.entry.0.now ++ hexadecimal third.entry.1)) (S.seen sink.new) result }
{
    put_pair(sink, first, second) && put_named(sink, third.0, third.1)
}

/// Four names, each with its number.
#[tactic(auto, using(streams::proofs::Sinking::takes_then, streams::proofs::Sinking::fails_then))]
pub fn put_four<S: Sink>(
    sink: &mut S,
    first: Field<'_>,
    second: Field<'_>,
    third: Field<'_>,
    fourth: Field<'_>,
) -> bool
    ensures { Puts (S.seen sink.old) (first.entry.0.now ++ hexadecimal first.entry.1 ++ second.entry.0.now ++ hexadecimal second.entry.1
        ++ (third.entry.0.now ++ hexadecimal third.entry.1 ++ fourth.entry.0.now ++ hexadecimal fourth.entry.1)) (S.seen sink.new) result }
{
    put_pair(sink, first, second) && put_pair(sink, third, fourth)
}

/// A name and bytes.
#[tactic(auto, using(streams::proofs::Sinking::takes_then, streams::proofs::Sinking::fails_then))]
pub fn put_named_bytes<S: Sink>(sink: &mut S, name: &[u8], bytes: &[u8]) -> bool
    ensures { Puts (S.seen sink.old) (name.now ++ flat_map byte_text bytes.now) (S.seen sink.new) result }
{
    sink.put(name) && put_bytes(sink, bytes)
}

/// A name, its number, another name, and bytes.
#[tactic(auto, using(streams::proofs::Sinking::takes_then, streams::proofs::Sinking::fails_then))]
pub fn put_number_and_bytes<S: Sink>(
    sink: &mut S,
    first: &[u8],
    number: u64,
    second: &[u8],
    bytes: &[u8],
) -> bool
    ensures { Puts (S.seen sink.old) (first.now ++ hexadecimal number ++ second.now ++ flat_map byte_text bytes.now) (S.seen sink.new) result }
{
    put_between(sink, first, number, second) && put_bytes(sink, bytes)
}
