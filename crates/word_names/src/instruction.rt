//! What an instruction says by its condition code (SA22-7832, chapter 14).

ghost use Rattle.std.specs.Prelude.{◌≡◌, ◌*◌, ◌++◌, codes, map};
ghost use Rattle.streams.specs.Sinks.{Puts};
ghost use Rattle.word_parts.specs.Parts.{names_text, part_of};
ghost use Rattle.word_names.specs.CodeWords as spec;

use crate::scsw::put_status_control;
use chan_model::answer::ConditionCode;
use streams::Sink;
use word_parts::listing::{flag, put_names};
use word_parts::number::{put_hex_after, put_hex_between};
use word_parts::part::Part;
use zbits::flag as bit;

/// An I/O instruction.
#[derive(Clone, Copy)]
pub enum Instruction {
    /// START SUBCHANNEL.
    Start,
    /// RESUME SUBCHANNEL.
    Resume,
    /// HALT SUBCHANNEL.
    Halt,
    /// CLEAR SUBCHANNEL.
    Clear,
    /// CANCEL SUBCHANNEL.
    Cancel,
    /// MODIFY SUBCHANNEL.
    Modify,
    /// STORE SUBCHANNEL.
    Store,
    /// TEST SUBCHANNEL.
    Test,
    /// TEST PENDING INTERRUPTION, of the subclasses of a mask, subclass 0 leftmost, with its operand at an address.
    TestPending { subclasses: u8, address: u32 },
    /// RESET CHANNEL PATH.
    ResetPath,
    /// STORE CHANNEL REPORT WORD.
    StoreReport,
    /// STORE CHANNEL PATH STATUS.
    StorePaths,
}

/// What an instruction on a subchannel found of it.
#[derive(Clone, Copy)]
pub struct Found {
    /// The subchannel, as it is named.
    pub subchannel: u32,
    /// Word 0 of its subchannel-status word.
    pub control: u32,
    /// Its enabled bit.
    pub enabled: bool,
}

/// What a mask of a word worth a byte at its left end is worth.
const LEFTMOST: u32 = 0x100_0000;

/// The subclasses of a mask, at the left end of a word.
fn subclass_parts() -> [Part<'static>; 8]
    ensures { map part_of result ≡ spec.subclasses }
{
    [
        flag(0, b"0"),
        flag(1, b"1"),
        flag(2, b"2"),
        flag(3, b"3"),
        flag(4, b"4"),
        flag(5, b"5"),
        flag(6, b"6"),
        flag(7, b"7"),
    ]
}

/// What is in progress, by word 0 of a subchannel-status word.
fn progress_parts() -> [Part<'static>; 10]
    ensures { map part_of result ≡ spec.progress }
{
    [
        flag(17, b"start function"),
        flag(18, b"halt function"),
        flag(19, b"clear function"),
        flag(20, b"resume pending"),
        flag(21, b"start pending"),
        flag(22, b"halt pending"),
        flag(23, b"clear pending"),
        flag(24, b"subchannel active"),
        flag(25, b"device active"),
        flag(26, b"suspended"),
    ]
}

fn control_of(found: Option<Found>) -> u32
    ensures { result ≡ spec.control_of found }
{
    match found {
        Some(found) => found.control,
        None => 0,
    }
}

/// A text, and what is in progress.
#[tactic(auto, using(streams::proofs::Sinking::takes_then, streams::proofs::Sinking::fails_then))]
fn put_opened_progress<S: Sink>(sink: &mut S, text: &[u8], control: u32) -> bool
    ensures { Puts (S.seen sink.old) (text.now ++ names_text (codes ", ") spec.progress control) (S.seen sink.new) result }
{
    sink.put(text) && put_names(sink, b", ", &progress_parts(), control)
}

/// A text that opens a bracket, what is in progress, and the bracket that closes.
#[tactic(auto, using(streams::proofs::Sinking::takes_then, streams::proofs::Sinking::fails_then))]
fn put_progress<S: Sink>(sink: &mut S, text: &[u8], control: u32) -> bool
    ensures { Puts (S.seen sink.old) (spec.progress_text text.now control) (S.seen sink.new) result }
{
    put_opened_progress(sink, text, control) && sink.put(b")")
}

/// A text, and the status that is pending.
#[tactic(auto, using(streams::proofs::Sinking::takes_then, streams::proofs::Sinking::fails_then))]
fn put_opened_status<S: Sink>(sink: &mut S, text: &[u8], control: u32) -> bool
    ensures { Puts (S.seen sink.old) (text.now ++ spec.status_text control) (S.seen sink.new) result }
{
    sink.put(text) && put_status_control(sink, control)
}

#[tactic(auto, using(streams::proofs::Sinking::takes_then, streams::proofs::Sinking::fails_then))]
fn put_pending<S: Sink>(sink: &mut S, control: u32) -> bool
    ensures { Puts (S.seen sink.old) (spec.pending_text control) (S.seen sink.new) result }
{
    put_opened_status(sink, b"  status is pending (", control) && sink.put(b")")
}

/// Whether the start function alone is in progress.
fn is_start_alone(control: u32) -> bool
    ensures { result ≡ spec.is_start_alone control }
{
    bit(control, 17) && !bit(control, 18) && !bit(control, 19)
}

/// Whether anything waits that can be cancelled.
fn waits(control: u32) -> bool
    ensures { result ≡ spec.waits control }
{
    bit(control, 20) || bit(control, 21) || bit(control, 26)
}

/// Why code 2 is answered to RESUME: the first of its causes, as a text that opens a bracket.
fn resume_cause(control: u32) -> &'static [u8]
    ensures { result.now ≡ spec.resume_cause control }
{
    if !is_start_alone(control) {
        b"  not the start function alone is in progress ("
    } else if bit(control, 20) {
        b"  a resume is pending already ("
    } else {
        b"  the program may not be suspended ("
    }
}

/// The same to CANCEL.
fn cancel_cause(control: u32) -> &'static [u8]
    ensures { result.now ≡ spec.cancel_cause control }
{
    if !is_start_alone(control) {
        b"  not the start function alone is in progress ("
    } else if !waits(control) {
        b"  no start or resume is pending, and no program is suspended ("
    } else {
        b"  the subchannel is active ("
    }
}

/// TEST PENDING INTERRUPTION that found no request.
#[tactic(auto, using(streams::proofs::Sinking::takes_then, streams::proofs::Sinking::fails_then))]
fn put_subclasses<S: Sink>(sink: &mut S, text: &[u8], subclasses: u8) -> bool
    ensures { Puts (S.seen sink.old) (text.now ++ names_text (codes ", ") spec.subclasses (subclasses * 0x1000000)) (S.seen sink.new) result }
{
    sink.put(text)
        && put_names(
            sink,
            b", ",
            &subclass_parts(),
            u32::from(subclasses) * LEFTMOST,
        )
}

/// Where an interruption code was stored: at the operand, or in the area that is assigned for it.
fn put_stored<S: Sink>(sink: &mut S, address: u32) -> bool
    ensures { Puts (S.seen sink.old) (spec.stored_text address) (S.seen sink.new) result }
{
    if is_assigned(address) {
        put_text(sink, assigned_words())
    } else {
        put_operand(sink, address)
    }
}

fn put_operand<S: Sink>(sink: &mut S, address: u32) -> bool
    ensures { Puts (S.seen sink.old) (spec.operand_text address) (S.seen sink.new) result }
{
    put_hex_between(sink, stored_words(), address, 1, b", two words")
}

/// Whether an operand of TEST PENDING INTERRUPTION stands for the area that is assigned for the code.
fn is_assigned(address: u32) -> bool
    ensures { result ≡ spec.is_assigned address }
{
    address == 0
}

fn assigned_words() -> &'static [u8]
    ensures { result.now ≡ spec.assigned_words }
{
    b"  an interruption code is stored at real B8, three words"
}

fn stored_words() -> &'static [u8]
    ensures { result.now ≡ spec.stored_words }
{
    b"  an interruption code is stored at real "
}

fn put_text<S: Sink>(sink: &mut S, text: &[u8]) -> bool
    ensures { Puts (S.seen sink.old) text.now (S.seen sink.new) result }
{
    sink.put(text)
}

/// A subchannel that is not operational.
fn put_disabled<S: Sink>(sink: &mut S, found: Found) -> bool
    ensures { Puts (S.seen sink.old) (spec.disabled_text found) (S.seen sink.new) result }
{
    put_hex_between(
        sink,
        operational_words(),
        found.subchannel,
        1,
        enabled_words(found.enabled),
    )
}

fn operational_words() -> &'static [u8]
    ensures { result.now ≡ spec.operational_words }
{
    b"  not operational: subchannel "
}

fn enabled_words(enabled: bool) -> &'static [u8]
    ensures { result.now ≡ spec.enabled_words enabled }
{
    if enabled {
        b" is not provided"
    } else {
        b" is not enabled"
    }
}

fn absent_words() -> &'static [u8]
    ensures { result.now ≡ spec.absent_words }
{
    b"  not operational: there is no such subchannel"
}

fn put_not_operational<S: Sink>(sink: &mut S, found: Option<Found>) -> bool
    ensures { Puts (S.seen sink.old) (spec.not_operational_text found) (S.seen sink.new) result }
{
    match found {
        Some(found) => put_disabled(sink, found),
        None => put_text(sink, absent_words()),
    }
}

fn zero_words(instruction: Instruction) -> &'static [u8]
    ensures { result.now ≡ spec.zero_words instruction }
{
    match instruction {
        Instruction::Store => b"  stored",
        Instruction::Test => b"  status was pending: stored and cleared",
        _ => b"",
    }
}

fn put_zero<S: Sink>(sink: &mut S, instruction: Instruction) -> bool
    ensures { Puts (S.seen sink.old) (spec.zero_text instruction) (S.seen sink.new) result }
{
    match instruction {
        Instruction::TestPending { subclasses, .. } => {
            put_subclasses(sink, b"  no request of these subclasses: ", subclasses)
        }
        _ => put_text(sink, zero_words(instruction)),
    }
}

fn one_words(instruction: Instruction) -> &'static [u8]
    ensures { result.now ≡ spec.one_words instruction }
{
    match instruction {
        Instruction::Test => b"  no status was pending: stored, nothing cleared",
        Instruction::StoreReport => b"  no report waits",
        _ => b"",
    }
}

/// Whether an instruction is not performed where status is pending or functions are in progress.
fn tests_state(instruction: Instruction) -> bool
    ensures { result ≡ spec.tests_state instruction }
{
    matches!(
        instruction,
        Instruction::Start
            | Instruction::Resume
            | Instruction::Halt
            | Instruction::Cancel
            | Instruction::Modify
    )
}

fn put_one<S: Sink>(sink: &mut S, instruction: Instruction, control: u32) -> bool
    ensures { Puts (S.seen sink.old) (spec.one_text instruction control) (S.seen sink.new) result }
{
    if tests_state(instruction) {
        put_pending(sink, control)
    } else {
        put_other_one(sink, instruction)
    }
}

fn put_other_one<S: Sink>(sink: &mut S, instruction: Instruction) -> bool
    ensures { Puts (S.seen sink.old) (spec.other_one_text instruction) (S.seen sink.new) result }
{
    match instruction {
        Instruction::TestPending { address, .. } => put_stored(sink, address),
        _ => put_text(sink, one_words(instruction)),
    }
}

fn two_words(instruction: Instruction, control: u32) -> &'static [u8]
    ensures { result.now ≡ spec.two_words instruction control }
{
    match instruction {
        Instruction::Start | Instruction::Modify => {
            b"  a start, halt or clear function is in progress ("
        }
        Instruction::Resume => resume_cause(control),
        Instruction::Halt => b"  a halt or clear function is in progress (",
        Instruction::Cancel => cancel_cause(control),
        Instruction::ResetPath => b"  a reset of this path is asked for and not done",
        _ => b"",
    }
}

fn put_two<S: Sink>(sink: &mut S, instruction: Instruction, control: u32) -> bool
    ensures { Puts (S.seen sink.old) (spec.two_text instruction control) (S.seen sink.new) result }
{
    let words = two_words(instruction, control);
    if tests_state(instruction) {
        put_progress(sink, words, control)
    } else {
        put_text(sink, words)
    }
}

fn three_words(instruction: Instruction) -> &'static [u8]
    ensures { result.now ≡ spec.three_words instruction }
{
    match instruction {
        Instruction::Modify | Instruction::Store => b"  not provided: there is no such subchannel",
        Instruction::ResetPath => {
            b"  not operational: the channel path is not configured, or it is down"
        }
        _ => b"",
    }
}

fn put_three<S: Sink>(sink: &mut S, instruction: Instruction, found: Option<Found>) -> bool
    ensures { Puts (S.seen sink.old) (spec.three_text instruction found) (S.seen sink.new) result }
{
    match instruction {
        Instruction::Start
        | Instruction::Resume
        | Instruction::Halt
        | Instruction::Clear
        | Instruction::Cancel
        | Instruction::Test => put_not_operational(sink, found),
        _ => put_text(sink, three_words(instruction)),
    }
}

/// What is printed after `cc` and the number of a condition code: two blanks and what the code says by the instruction, and
/// nothing where it says no more. `found` is what the instruction found of its subchannel; of an instruction that names none,
/// and where there is no such subchannel, nothing.
pub fn put_code_words<S: Sink>(
    sink: &mut S,
    instruction: Instruction,
    code: ConditionCode,
    found: Option<Found>,
) -> bool
    ensures { Puts (S.seen sink.old) (spec.code_words instruction code found) (S.seen sink.new) result }
{
    match code {
        ConditionCode::Zero => put_zero(sink, instruction),
        ConditionCode::One => put_one(sink, instruction, control_of(found)),
        ConditionCode::Two => put_two(sink, instruction, control_of(found)),
        ConditionCode::Three => put_three(sink, instruction, found),
    }
}
