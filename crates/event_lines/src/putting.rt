//! The line of a script that asks for an event, put.

ghost use Rattle.std.specs.Prelude.{◌++◌, ◌∷◌, [], codes};
ghost use Rattle.std.specs.List.{flat_map};
ghost use Rattle.event_lines.specs.EventLines as spec;
ghost use Rattle.script_text.specs.Text.{byte_text, word_text};
ghost use Rattle.streams.specs.Sinks.{Puts};

use chan_events::event::{Event, Instruction, OtherInstruction, UnitAct};
use chan_model::names::{Cpu, Side};
use chan_model::report::{DeviceAnswer, Report};
use script_text::{hex_digit, put_bytes, put_spaced_byte, put_word, put_words};
use streams::Sink;

/// The eight digits of a word.
fn put_eight<S: Sink>(sink: &mut S, word: u32) -> bool
    ensures { Puts (S.seen sink.old) (spec.eight_digits word) (S.seen sink.new) result }
{
    let digits = [
        hex_digit((word / 0x1000_0000 % 16) as u8),
        hex_digit((word / 0x100_0000 % 16) as u8),
        hex_digit((word / 0x10_0000 % 16) as u8),
        hex_digit((word / 0x1_0000 % 16) as u8),
        hex_digit((word / 0x1000 % 16) as u8),
        hex_digit((word / 0x100 % 16) as u8),
        hex_digit((word / 0x10 % 16) as u8),
        hex_digit((word % 16) as u8),
    ];
    sink.put(&digits)
}

/// A space and the sixteen digits of a doubleword.
fn put_sixteen<S: Sink>(sink: &mut S, number: u64) -> bool
    ensures { Puts (S.seen sink.old) (spec.spaced (spec.sixteen_digits number ∷ [])) (S.seen sink.new) result }
{
    put_word(sink, (number / 0x1_0000_0000) as u32)
        && put_eight(sink, (number % 0x1_0000_0000) as u32)
}

/// A space and the digit of a CPU.
fn put_cpu_digit<S: Sink>(sink: &mut S, cpu: Cpu) -> bool
    ensures { Puts (S.seen sink.old) (spec.spaced (spec.digit_word cpu ∷ [])) (S.seen sink.new) result }
{
    sink.put(&[b' ', hex_digit(cpu.number())])
}

/// A space and the digits of bytes, `-` for none.
fn put_spaced_bytes<S: Sink>(sink: &mut S, bytes: &[u8]) -> bool
    ensures { Puts (S.seen sink.old) (spec.spaced (spec.bytes_word bytes.now ∷ [])) (S.seen sink.new) result }
{
    match bytes {
        [] => sink.put(b" -"),
        bytes => sink.put(b" ") && put_bytes(sink, bytes),
    }
}

fn put_side<S: Sink>(sink: &mut S, side: Side) -> bool
    ensures { Puts (S.seen sink.old) (spec.spaced (spec.side_word side ∷ [])) (S.seen sink.new) result }
{
    match side {
        Side::First => sink.put(b" 0"),
        Side::Second => sink.put(b" 1"),
    }
}

fn put_flag<S: Sink>(sink: &mut S, flag: bool) -> bool
    ensures { Puts (S.seen sink.old) (spec.spaced (spec.flag_word flag ∷ [])) (S.seen sink.new) result }
{
    if flag {
        sink.put(b" 1")
    } else {
        sink.put(b" 0")
    }
}

/// A name, and words of eight digits.
#[tactic(auto, using(streams::proofs::Sinking::takes_then, streams::proofs::Sinking::fails_then))]
fn put_named<S: Sink>(sink: &mut S, name: &[u8], words: &[u32]) -> bool
    ensures { Puts (S.seen sink.old) (name.now ++ flat_map word_text words.now) (S.seen sink.new) result }
{
    sink.put(name) && put_words(sink, words)
}

/// A name, words of eight digits, and a byte of two.
#[tactic(auto, using(streams::proofs::Sinking::takes_then, streams::proofs::Sinking::fails_then))]
fn put_named_byte<S: Sink>(sink: &mut S, name: &[u8], words: &[u32], byte: u8) -> bool
    ensures { Puts (S.seen sink.old) (name.now ++ flat_map word_text words.now ++ spec.spaced (byte_text byte ∷ [])) (S.seen sink.new) result }
{
    put_named(sink, name, words) && put_spaced_byte(sink, byte)
}

/// A name, words of eight digits, and bytes.
#[tactic(auto, using(streams::proofs::Sinking::takes_then, streams::proofs::Sinking::fails_then))]
fn put_named_bytes<S: Sink>(sink: &mut S, name: &[u8], words: &[u32], bytes: &[u8]) -> bool
    ensures { Puts (S.seen sink.old) (name.now ++ flat_map word_text words.now ++ spec.spaced (spec.bytes_word bytes.now ∷ [])) (S.seen sink.new) result }
{
    put_named(sink, name, words) && put_spaced_bytes(sink, bytes)
}

/// A name, words of eight digits, and a side.
#[tactic(auto, using(streams::proofs::Sinking::takes_then, streams::proofs::Sinking::fails_then))]
fn put_named_side<S: Sink>(sink: &mut S, name: &[u8], words: &[u32], side: Side) -> bool
    ensures { Puts (S.seen sink.old) (name.now ++ flat_map word_text words.now ++ spec.spaced (spec.side_word side ∷ [])) (S.seen sink.new) result }
{
    put_named(sink, name, words) && put_side(sink, side)
}

/// A subchannel that is enabled, with its interruption subclass and its multipath mode.
fn put_enable<S: Sink>(sink: &mut S, subchannel: u32, subclass: u8, multipath: bool) -> bool
    ensures { Puts (S.seen sink.old) (spec.spaced (spec.instruction_words (Instruction.Enable subchannel subclass multipath))) (S.seen sink.new) result }
{
    put_named_byte(sink, b" enable", &[subchannel], subclass) && put_flag(sink, multipath)
}

/// What a CPU executes.
fn put_instruction<S: Sink>(sink: &mut S, instruction: &Instruction) -> bool
    ensures { Puts (S.seen sink.old) (spec.spaced (spec.instruction_words instruction.now)) (S.seen sink.new) result }
{
    match instruction {
        Instruction::Ssch {
            subchannel,
            address,
        } => put_named(sink, b" ssch", &[*subchannel, *address]),
        Instruction::Tsch {
            subchannel,
            address,
        } => put_named(sink, b" tsch", &[*subchannel, *address]),
        Instruction::Stsch {
            subchannel,
            address,
        } => put_named(sink, b" stsch", &[*subchannel, *address]),
        Instruction::Msch {
            subchannel,
            address,
        } => put_named(sink, b" msch", &[*subchannel, *address]),
        Instruction::Rsch { subchannel } => put_named(sink, b" rsch", &[*subchannel]),
        Instruction::Hsch { subchannel } => put_named(sink, b" hsch", &[*subchannel]),
        Instruction::Csch { subchannel } => put_named(sink, b" csch", &[*subchannel]),
        Instruction::Xsch { subchannel } => put_named(sink, b" xsch", &[*subchannel]),
        Instruction::Enable {
            subchannel,
            subclass,
            multipath,
        } => put_enable(sink, *subchannel, *subclass, *multipath),
    }
}

/// TEST PENDING INTERRUPTION, with its mask.
fn put_tpi<S: Sink>(sink: &mut S, mask: u8, address: u32) -> bool
    ensures { Puts (S.seen sink.old) (spec.spaced (spec.other_words (OtherInstruction.Tpi mask address))) (S.seen sink.new) result }
{
    put_named_byte(sink, b" tpi", &[], mask) && put_word(sink, address)
}

/// What a CPU executes that names no subchannel.
fn put_other<S: Sink>(sink: &mut S, instruction: &OtherInstruction) -> bool
    ensures { Puts (S.seen sink.old) (spec.spaced (spec.other_words instruction.now)) (S.seen sink.new) result }
{
    match instruction {
        OtherInstruction::Tpi { mask, address } => put_tpi(sink, *mask, *address),
        OtherInstruction::Rchp { path } => put_named(sink, b" rchp", &[*path]),
        OtherInstruction::Stcrw { address } => put_named(sink, b" stcrw", &[*address]),
        OtherInstruction::Stcps { address } => put_named(sink, b" stcps", &[*address]),
    }
}

/// What a unit does of itself.
fn put_act<S: Sink>(sink: &mut S, unit: u32, act: &UnitAct) -> bool
    ensures { Puts (S.seen sink.old) (spec.joined (spec.act_words «unit» act.now)) (S.seen sink.new) result }
{
    match act {
        UnitAct::Leave => put_named(sink, b"leave", &[unit]),
        UnitAct::Ask { path } => put_named(sink, b"ask", &[unit, *path]),
        UnitAct::Attention { path, side } => {
            put_named_side(sink, b"attn", &[unit, *path], *side)
        }
        UnitAct::Notice { path, side } => put_named_side(sink, b"notice", &[unit, *path], *side),
    }
}

/// The command ended, and whether there was more.
fn put_ended<S: Sink>(sink: &mut S, status: u8, more: bool) -> bool
    ensures { Puts (S.seen sink.old) (spec.spaced (spec.answer_words (DeviceAnswer.Ended (record { 0 = status }) more))) (S.seen sink.new) result }
{
    if more {
        put_named_byte(sink, b" ended", &[], status) && sink.put(b" more")
    } else {
        put_named_byte(sink, b" ended", &[], status)
    }
}

/// What a device answered.
fn put_answer<S: Sink>(sink: &mut S, answer: &DeviceAnswer) -> bool
    ensures { Puts (S.seen sink.old) (spec.spaced (spec.answer_words answer.now)) (S.seen sink.new) result }
{
    match answer {
        DeviceAnswer::Begins => sink.put(b" begins"),
        DeviceAnswer::Absorbed(count) => put_named(sink, b" absorbed", &[u32::from(*count)]),
        DeviceAnswer::Supplied(bytes) => {
            put_named_bytes(sink, b" supplied", &[], bytes.as_slice())
        }
        DeviceAnswer::Again => sink.put(b" again"),
        DeviceAnswer::Ended { status, more } => put_ended(sink, status.bits(), *more),
    }
}

/// The side of a report, and the number of its program.
fn put_program<S: Sink>(sink: &mut S, side: Side, program: u64) -> bool
    ensures { Puts (S.seen sink.old) (spec.spaced (spec.side_word side ∷ spec.sixteen_digits program ∷ [])) (S.seen sink.new) result }
{
    put_side(sink, side) && put_sixteen(sink, program)
}

/// The numbers of a command and of a chunk.
fn put_chunk<S: Sink>(sink: &mut S, command: u64, chunk: u64) -> bool
    ensures { Puts (S.seen sink.old) (spec.spaced (spec.sixteen_digits command ∷ spec.sixteen_digits chunk ∷ [])) (S.seen sink.new) result }
{
    put_sixteen(sink, command) && put_sixteen(sink, chunk)
}

/// Where an answer belongs.
fn put_place<S: Sink>(sink: &mut S, report: &Report) -> bool
    ensures { Puts (S.seen sink.old) (spec.spaced (spec.place_words report.now)) (S.seen sink.new) result }
{
    put_program(sink, report.side, report.number)
        && put_chunk(sink, report.command, report.sequence)
}

/// `report`, the unit, and where an answer belongs.
fn put_report_place<S: Sink>(sink: &mut S, unit: u32, report: &Report) -> bool
    ensures { Puts (S.seen sink.old) (spec.joined (codes "report" ∷ spec.eight_digits «unit» ∷ spec.place_words report.now)) (S.seen sink.new) result }
{
    put_named(sink, b"report", &[unit]) && put_place(sink, report)
}

/// What a device answered, and where it belongs.
fn put_report<S: Sink>(sink: &mut S, unit: u32, report: &Report) -> bool
    ensures { Puts (S.seen sink.old) (spec.event_text (Event.Report «unit» report.now)) (S.seen sink.new) result }
{
    put_report_place(sink, unit, report) && put_answer(sink, &report.answer)
}

/// A name, and the number of a CPU.
#[tactic(auto, using(streams::proofs::Sinking::takes_then, streams::proofs::Sinking::fails_then))]
fn put_with_cpu<S: Sink>(sink: &mut S, name: &[u8], cpu: Cpu) -> bool
    ensures { Puts (S.seen sink.old) (name.now ++ spec.spaced (spec.digit_word cpu ∷ [])) (S.seen sink.new) result }
{
    sink.put(name) && put_cpu_digit(sink, cpu)
}

/// The prefix of a CPU is set.
fn put_prefix<S: Sink>(sink: &mut S, cpu: Cpu, address: u32) -> bool
    ensures { Puts (S.seen sink.old) (spec.event_text (Event.SetPrefix cpu address)) (S.seen sink.new) result }
{
    put_with_cpu(sink, b"prefix", cpu) && put_word(sink, address)
}

/// A CPU executes an instruction.
fn put_execute<S: Sink>(sink: &mut S, cpu: Cpu, instruction: &Instruction) -> bool
    ensures { Puts (S.seen sink.old) (spec.event_text (Event.Execute cpu instruction.now)) (S.seen sink.new) result }
{
    put_with_cpu(sink, b"cpu", cpu) && put_instruction(sink, instruction)
}

/// A CPU executes an instruction that names no subchannel.
fn put_execute_other<S: Sink>(sink: &mut S, cpu: Cpu, instruction: &OtherInstruction) -> bool
    ensures { Puts (S.seen sink.old) (spec.event_text (Event.ExecuteOther cpu instruction.now)) (S.seen sink.new) result }
{
    put_with_cpu(sink, b"cpu", cpu) && put_other(sink, instruction)
}

/// The line of a script that asks for an event; a device's report is a `report` line. What no line can ask for is put in the same
/// form and read back as an error: bytes that are put and are none, a length that is shown of none or above hexadecimal 40, and an
/// interruption subclass above 7.
pub fn put_event<S: Sink>(sink: &mut S, event: &Event) -> bool
    ensures { Puts (S.seen sink.old) (spec.event_text event.now) (S.seen sink.new) result }
{
    match event {
        Event::Put { address, bytes } => {
            put_named_bytes(sink, b"put", &[*address], bytes.as_slice())
        }
        Event::SetKey { address, key } => { put_named_byte(sink, b"key", &[*address], key.byte()) }
        Event::SetPrefix { cpu, address } => put_prefix(sink, *cpu, *address),
        Event::Show { address, length } => {
            put_named(sink, b"show", &[*address, length.get() as u32])
        }
        Event::Execute { cpu, instruction } => put_execute(sink, *cpu, instruction),
        Event::ExecuteOther { cpu, instruction } => put_execute_other(sink, *cpu, instruction),
        Event::Choose { subchannel } => put_named(sink, b"choose", &[*subchannel]),
        Event::Up { subchannel, path } => put_named(sink, b"up", &[*subchannel, *path]),
        Event::Down { subchannel, path } => put_named(sink, b"down", &[*subchannel, *path]),
        Event::Report { unit, report } => put_report(sink, *unit, report),
        Event::Act { unit, act } => put_act(sink, *unit, act),
        Event::Restart { unit } => put_named(sink, b"restart", &[*unit]),
        Event::PathDown { chpid } => put_named(sink, b"pathdown", &[*chpid]),
        Event::PathUp { chpid } => put_named(sink, b"pathup", &[*chpid]),
        Event::PathReset { chpid } => put_named(sink, b"pathreset", &[*chpid]),
        Event::SystemReset => sink.put(b"sysreset"),
    }
}
