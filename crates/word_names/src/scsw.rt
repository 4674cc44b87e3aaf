//! Subchannel-status words (SA22-7832, chapter 16).

ghost use Rattle.std.specs.Prelude.{◌≡◌, ◌+◌, ◌*◌, codes, false, map};
ghost use Rattle.streams.specs.Sinks.{Puts};
ghost use Rattle.word_parts.specs.Parts.{listed, names_text, part_of, texts_of};
ghost use Rattle.word_parts.specs.ScswNames as spec;

use streams::Sink;
use word_parts::listing::{bits, flag, put_names, put_parts};
use word_parts::part::{Part, Shown};

/// What a device status is worth in word 2.
const DEVICE: u32 = 0x100_0000;

/// What a subchannel status is worth in word 2.
const SUBCHANNEL: u32 = 0x1_0000;

/// Word 0 left of the function field.
fn control_parts() -> [Part<'static>; 13]
    ensures { map part_of result ≡ spec.control }
{
    [
        bits(0, 3, Shown::NotZero(1), b"key"),
        flag(4, b"S suspend control"),
        flag(5, b"L ESW format"),
        bits(6, 7, Shown::NotZero(1), b"deferred condition code"),
        bits(8, 8, Shown::Format, b"F CCW format 1"),
        flag(9, b"P prefetch control"),
        flag(10, b"I initial-status-interruption control"),
        flag(11, b"A address-limit-checking control"),
        flag(12, b"U suppress-suspended-interruption control"),
        flag(13, b"Z zero condition code"),
        flag(14, b"E extended control"),
        flag(15, b"N path not operational"),
        flag(16, b"reserved bit 16"),
    ]
}

/// FC.
fn function_parts() -> [Part<'static>; 3]
    ensures { map part_of result ≡ spec.functions }
{
    [flag(17, b"start"), flag(18, b"halt"), flag(19, b"clear")]
}

/// AC.
fn activity_parts() -> [Part<'static>; 7]
    ensures { map part_of result ≡ spec.activity }
{
    [
        flag(20, b"resume pending"),
        flag(21, b"start pending"),
        flag(22, b"halt pending"),
        flag(23, b"clear pending"),
        flag(24, b"subchannel active"),
        flag(25, b"device active"),
        flag(26, b"suspended"),
    ]
}

/// SC, but for the bit that says that status is pending.
fn status_parts() -> [Part<'static>; 4]
    ensures { map part_of result ≡ spec.status_names }
{
    [
        flag(27, b"alert"),
        flag(28, b"intermediate"),
        flag(29, b"primary"),
        flag(30, b"secondary"),
    ]
}

/// SC.
fn status_control_parts() -> [Part<'static>; 5]
    ensures { map part_of result ≡ spec.status_control }
{
    let [alert, intermediate, primary, secondary] = status_parts();
    [
        alert,
        intermediate,
        primary,
        secondary,
        flag(31, b"status pending"),
    ]
}

/// Device status: the first byte of word 2.
fn device_parts() -> [Part<'static>; 8]
    ensures { map part_of result ≡ spec.device }
{
    [
        flag(0, b"attention"),
        flag(1, b"status modifier"),
        flag(2, b"control-unit end"),
        flag(3, b"busy"),
        flag(4, b"channel end"),
        flag(5, b"device end"),
        flag(6, b"unit check"),
        flag(7, b"unit exception"),
    ]
}

/// Subchannel status: the second byte of word 2.
fn subchannel_parts() -> [Part<'static>; 8]
    ensures { map part_of result ≡ spec.subchannel }
{
    [
        flag(8, b"program-controlled interruption"),
        flag(9, b"incorrect length"),
        flag(10, b"program check"),
        flag(11, b"protection check"),
        flag(12, b"channel-data check"),
        flag(13, b"channel-control check"),
        flag(14, b"interface-control check"),
        flag(15, b"chaining check"),
    ]
}

fn count_parts() -> [Part<'static>; 1]
    ensures { map part_of result ≡ spec.count }
{
    [bits(16, 31, Shown::Always(1), b"count")]
}

/// Both, by abbreviations where there are usual ones.
fn short_parts() -> [Part<'static>; 16]
    ensures { map part_of result ≡ spec.short }
{
    [
        flag(0, b"attention"),
        flag(1, b"status modifier"),
        flag(2, b"control-unit end"),
        flag(3, b"busy"),
        flag(4, b"CE"),
        flag(5, b"DE"),
        flag(6, b"UC"),
        flag(7, b"unit exception"),
        flag(8, b"PCI"),
        flag(9, b"IL"),
        flag(10, b"program check"),
        flag(11, b"protection check"),
        flag(12, b"channel-data check"),
        flag(13, b"channel-control check"),
        flag(14, b"IFCC"),
        flag(15, b"chaining check"),
    ]
}

/// Word 0 left of the function field: `F CCW format 1; N path not operational`, or `format 0`.
pub fn put_scsw_control<S: Sink>(sink: &mut S, word: u32) -> bool
    ensures { Puts (S.seen sink.old) (names_text (codes "; ") spec.control word) (S.seen sink.new) result }
{
    put_names(sink, b"; ", &control_parts(), word)
}

/// Function control, of word 0: `start, halt`, or `none`.
pub fn put_functions<S: Sink>(sink: &mut S, word: u32) -> bool
    ensures { Puts (S.seen sink.old) (names_text (codes ", ") spec.functions word) (S.seen sink.new) result }
{
    put_names(sink, b", ", &function_parts(), word)
}

/// Activity control, of word 0: `subchannel active, device active`, or `none`.
pub fn put_activity<S: Sink>(sink: &mut S, word: u32) -> bool
    ensures { Puts (S.seen sink.old) (names_text (codes ", ") spec.activity word) (S.seen sink.new) result }
{
    put_names(sink, b", ", &activity_parts(), word)
}

/// Status control, of word 0: `primary, secondary, status pending`, or `none`.
pub fn put_status_control<S: Sink>(sink: &mut S, word: u32) -> bool
    ensures { Puts (S.seen sink.old) (names_text (codes ", ") spec.status_control word) (S.seen sink.new) result }
{
    put_names(sink, b", ", &status_control_parts(), word)
}

/// The same, but for `status pending`: `primary, secondary`, or `none`.
pub fn put_status_names<S: Sink>(sink: &mut S, word: u32) -> bool
    ensures { Puts (S.seen sink.old) (names_text (codes ", ") spec.status_names word) (S.seen sink.new) result }
{
    put_names(sink, b", ", &status_parts(), word)
}

/// A device status: `channel end, device end`, or `none`.
pub fn put_device_status<S: Sink>(sink: &mut S, status: u8) -> bool
    ensures { Puts (S.seen sink.old) (names_text (codes ", ") spec.device (status * 0x1000000)) (S.seen sink.new) result }
{
    put_names(sink, b", ", &device_parts(), u32::from(status) * DEVICE)
}

/// A subchannel status: `interface-control check`, or `none`.
pub fn put_subchannel_status<S: Sink>(sink: &mut S, status: u8) -> bool
    ensures { Puts (S.seen sink.old) (names_text (codes ", ") spec.subchannel (status * 0x10000)) (S.seen sink.new) result }
{
    put_names(
        sink,
        b", ",
        &subchannel_parts(),
        u32::from(status) * SUBCHANNEL,
    )
}

/// Both, by abbreviations where there are usual ones: `CE, DE`, `IFCC`; nothing where there is none.
pub fn put_short_status<S: Sink>(sink: &mut S, device: u8, subchannel: u8) -> bool
    ensures { Puts (S.seen sink.old) (listed false (codes ", ") (texts_of spec.short (device * 0x1000000 + subchannel * 0x10000))) (S.seen sink.new) result }
{
    let word = u32::from(device) * DEVICE + u32::from(subchannel) * SUBCHANNEL;
    put_parts(sink, false, b", ", &short_parts(), word)
}

/// What is left of the count: `count 4`, in hexadecimal digits.
pub fn put_count<S: Sink>(sink: &mut S, word: u32) -> bool
    ensures { Puts (S.seen sink.old) (names_text (codes ", ") spec.count word) (S.seen sink.new) result }
{
    put_names(sink, b", ", &count_parts(), word)
}
