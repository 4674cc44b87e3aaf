//! Channel-command words (SA22-7832, chapter 15).

ghost use Rattle.std.specs.Prelude.{◌≡◌, ◌*◌, codes, map, true};
ghost use Rattle.streams.specs.Sinks.{Puts};
ghost use Rattle.word_parts.specs.Parts.{listed, part_of, texts_of};
ghost use Rattle.word_parts.specs.CcwNames as spec;

use ccw_codec::Class;
use ccw_codec::command::class;
use channel_config::parts::UnitKind;
use streams::Sink;
use word_parts::listing::{bits, flag, put_parts};
use word_parts::number::{put_hex, put_hex_after, put_hex_between};
use word_parts::part::{Part, Shown};
use zbits::field;

/// What the byte of flags is worth at the left end of a word.
const FLAGS: u32 = 0x100_0000;

/// The flags, at the left end of a word.
fn flag_parts() -> [Part<'static>; 8]
    ensures { map part_of result ≡ spec.flags }
{
    [
        flag(0, b"CD"),
        flag(1, b"CC"),
        flag(2, b"SLI"),
        flag(3, b"SKIP"),
        flag(4, b"PCI"),
        flag(5, b"IDA"),
        flag(6, b"S"),
        flag(7, b"MIDA"),
    ]
}

/// What format 0 ignores of its second word.
fn ignored_parts() -> [Part<'static>; 1]
    ensures { map part_of result ≡ spec.ignored }
{
    [bits(8, 15, Shown::NotZero(2), b"ignored byte 5")]
}

/// The bit that is zero in the second word of format 1.
fn address_bit_parts() -> [Part<'static>; 1]
    ensures { map part_of result ≡ spec.address_bit }
{
    [flag(0, b"bit 32")]
}

/// The flags, each after a comma and a blank: `, CC, SLI`.
pub fn put_ccw_flags<S: Sink>(sink: &mut S, flags: u8) -> bool
    ensures { Puts (S.seen sink.old) (listed true (codes ", ") (texts_of spec.flags (flags * 0x1000000))) (S.seen sink.new) result }
{
    put_parts(sink, true, b", ", &flag_parts(), u32::from(flags) * FLAGS)
}

/// The name of a class of commands, and a blank.
fn class_name(class: Class) -> &'static [u8]
    ensures { result.now ≡ spec.class_name class }
{
    match class {
        Class::Write => b"write ",
        Class::Read => b"read ",
        Class::Control => b"control ",
        Class::Sense => b"sense ",
        Class::ReadBackward => b"read backward ",
        Class::Transfer => b"transfer in channel ",
        Class::Invalid => b"invalid ",
    }
}

/// A command by its class and its code: `control 17`.
pub fn put_command_class<S: Sink>(sink: &mut S, code: u8) -> bool
    ensures { Puts (S.seen sink.old) (spec.class_text code) (S.seen sink.new) result }
{
    put_hex_after(sink, class_name(class(code)), u32::from(code), 2)
}

/// The name of a command of a store of blocks; empty where it rejects the code.
fn block_name(code: u8) -> &'static [u8]
    ensures { result.now ≡ spec.block_name code }
{
    match code {
        0x01 => b"write",
        0x02 => b"read",
        0x03 => b"no operation",
        0x04 => b"sense",
        0x07 => b"seek",
        0x0B => b"recalibrate",
        0x31 => b"search",
        _ => b"",
    }
}

/// The name of a command of a console; empty where it rejects the code.
fn console_name(code: u8) -> &'static [u8]
    ensures { result.now ≡ spec.console_name code }
{
    match code {
        0x01 => b"write",
        0x03 => b"no operation",
        0x04 => b"sense",
        0x0A => b"read",
        _ => b"",
    }
}

fn is_name(name: &[u8]) -> bool
    ensures { result ≡ spec.is_name name.now }
{
    match name {
        [] => false,
        [_, ..] => true,
    }
}

/// A command by its name, where it has one.
fn put_known<S: Sink>(sink: &mut S, name: &[u8], code: u8) -> bool
    ensures { Puts (S.seen sink.old) (spec.known_text name.now code) (S.seen sink.new) result }
{
    if is_name(name) {
        sink.put(name)
    } else {
        put_command_class(sink, code)
    }
}

/// The name of a command that a unit of this kind has, by its code: `write`, `seek`; of any other code its class and the
/// code: `control 17`.
pub fn put_command_name<S: Sink>(sink: &mut S, kind: UnitKind, code: u8) -> bool
    ensures { Puts (S.seen sink.old) (spec.command_text kind code) (S.seen sink.new) result }
{
    match kind {
        UnitKind::Block => put_known(sink, block_name(code), code),
        UnitKind::Console => put_known(sink, console_name(code), code),
        UnitKind::Rejecting => put_command_class(sink, code),
    }
}

/// What is printed around the numbers of a block: `write 01, 4 bytes at 2000`.
#[tactic(auto, using(streams::proofs::Sinking::takes_then, streams::proofs::Sinking::fails_then))]
fn put_count<S: Sink>(sink: &mut S, code: u8, count: u32) -> bool
    ensures { Puts (S.seen sink.old) (spec.count_text code count) (S.seen sink.new) result }
{
    put_command_class(sink, code) && put_hex_between(sink, b", ", count, 1, b" bytes at ")
}

#[tactic(auto, using(streams::proofs::Sinking::takes_then, streams::proofs::Sinking::fails_then))]
fn put_area<S: Sink>(sink: &mut S, address: u32, flags: u8) -> bool
    ensures { Puts (S.seen sink.old) (spec.area_text address flags) (S.seen sink.new) result }
{
    put_hex(sink, address, 1) && put_ccw_flags(sink, flags)
}

#[tactic(auto, using(streams::proofs::Sinking::takes_then, streams::proofs::Sinking::fails_then))]
fn put_block<S: Sink>(sink: &mut S, code: u8, count: u32, address: u32, flags: u8) -> bool
    ensures { Puts (S.seen sink.old) (spec.block_of code count address flags) (S.seen sink.new) result }
{
    put_count(sink, code, count) && put_area(sink, address, flags)
}

/// The two words of a channel-command word of format 0, without the unit that it is for, by class and code: `read 02, 6 bytes
/// at 3100, SLI, IDA`. What is ignored there follows where it is not zero.
#[tactic(auto, using(streams::proofs::Sinking::takes_then, streams::proofs::Sinking::fails_then))]
pub fn put_ccw_0<S: Sink>(sink: &mut S, first: u32, second: u32) -> bool
    ensures { Puts (S.seen sink.old) (spec.ccw_0_text first second) (S.seen sink.new) result }
{
    put_block(
        sink,
        field(first, 0, 7) as u8,
        field(second, 16, 31),
        field(first, 8, 31),
        field(second, 0, 7) as u8,
    ) && put_parts(sink, true, b"; ", &ignored_parts(), second)
}

/// The same of format 1.
#[tactic(auto, using(streams::proofs::Sinking::takes_then, streams::proofs::Sinking::fails_then))]
pub fn put_ccw_1<S: Sink>(sink: &mut S, first: u32, second: u32) -> bool
    ensures { Puts (S.seen sink.old) (spec.ccw_1_text first second) (S.seen sink.new) result }
{
    put_block(
        sink,
        field(first, 0, 7) as u8,
        field(first, 16, 31),
        field(second, 1, 31),
        field(first, 8, 15) as u8,
    ) && put_parts(sink, true, b"; ", &address_bit_parts(), second)
}
