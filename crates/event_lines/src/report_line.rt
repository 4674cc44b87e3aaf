//! The line that hands in what a device answered.

ghost use Rattle.std.specs.Prelude.{◌≡◌, ◌≤◌, MatchOption, None, Some, map};
ghost use Rattle.script_rows.specs.Words.{one_of, with_none};
ghost use Rattle.event_lines.specs.ReportLines as spec;

use crate::side_numbers::side_numbered;
use chan_events::event::Event;
use chan_model::chunk::Chunk;
use chan_model::names::Side;
use chan_model::report::{DeviceAnswer, Report};
use script_rows::words::{LineRule, hex_bytes, is_name, number, number_up_to};
use scsw_irb::status::DeviceStatus;

/// A number of 1 to 16 digits.
fn long_number(word: &[u8]) -> Option<u64>
    ensures { result ≡ spec.long_number word.now }
{
    if word.len() <= 8 {
        return Some(u64::from(number(word)?));
    }
    let middle = word.len() - 8;
    let high = number(&word[..middle])?;
    let low = number(&word[middle..])?;
    Some(u64::from(high) * 0x1_0000_0000 + u64::from(low))
}

fn side_named(word: &[u8]) -> Option<Side>
    ensures { result ≡ spec.side_named word.now }
{
    side_numbered(number(word)?)
}

/// 1 to 256 bytes, or `-` for none.
fn bytes_supplied(word: &[u8]) -> Option<Chunk>
    ensures { result ≡ spec.bytes_supplied word.now }
{
    if is_name(word, b"-") {
        return Some(Chunk::new());
    }
    hex_bytes(word)
}

/// An answer of one word.
fn alone(answer: DeviceAnswer, words: &[&[u8]]) -> Result<DeviceAnswer, LineRule>
    ensures { result ≡ with_none answer (map (λ w. w.now) words.now) }
{
    match words {
        [] => Ok(answer),
        [_, ..] => Err(LineRule::WrongCount),
    }
}

/// The only word.
fn only<'a>(words: &[&'a [u8]]) -> Option<&'a [u8]>
    ensures { MatchOption result (one_of (map (λ w. w.now) words.now) ≡ None) (λ w. one_of (map (λ w. w.now) words.now) ≡ Some w.now) }
{
    match words {
        [word] => Some(*word),
        _ => None,
    }
}

fn absorbed_row(words: &[&[u8]]) -> Result<DeviceAnswer, LineRule>
    ensures { result ≡ spec.absorbed_row (map (λ w. w.now) words.now) }
{
    let word = only(words).ok_or(LineRule::WrongCount)?;
    let count = number_up_to(0xFFFF, word).ok_or(LineRule::BadWord)?;
    Ok(DeviceAnswer::Absorbed(count as u16))
}

fn supplied_row(words: &[&[u8]]) -> Result<DeviceAnswer, LineRule>
    ensures { result ≡ spec.supplied_row (map (λ w. w.now) words.now) }
{
    let word = only(words).ok_or(LineRule::WrongCount)?;
    let bytes = bytes_supplied(word).ok_or(LineRule::BadWord)?;
    Ok(DeviceAnswer::Supplied(bytes))
}

fn ended(status: u32, more: bool) -> DeviceAnswer
    requires { status ≤ 0xFF }
    ensures { result ≡ spec.ended status more }
{
    DeviceAnswer::Ended {
        status: DeviceStatus::of_bits(status as u8),
        more,
    }
}

fn ended_row(words: &[&[u8]]) -> Result<DeviceAnswer, LineRule>
    ensures { result ≡ spec.ended_row (map (λ w. w.now) words.now) }
{
    match words {
        [status] => {
            let status = number_up_to(0xFF, status).ok_or(LineRule::BadWord)?;
            Ok(ended(status, false))
        }
        [status, more] => {
            let status = number_up_to(0xFF, status).ok_or(LineRule::BadWord)?;
            if is_name(more, b"more") {
                Ok(ended(status, true))
            } else {
                Err(LineRule::BadWord)
            }
        }
        _ => Err(LineRule::WrongCount),
    }
}

/// What a device answered, by its first word and those behind it: `begins`, `absorbed COUNT`, `supplied BYTES` (`-` for none),
/// `again`, `ended STATUS` or `ended STATUS more`.
fn answer_row(word: &[u8], words: &[&[u8]]) -> Result<DeviceAnswer, LineRule>
    ensures { result ≡ spec.answer_row word.now (map (λ w. w.now) words.now) }
{
    if is_name(word, b"begins") {
        alone(DeviceAnswer::Begins, words)
    } else if is_name(word, b"absorbed") {
        absorbed_row(words)
    } else if is_name(word, b"supplied") {
        supplied_row(words)
    } else if is_name(word, b"again") {
        alone(DeviceAnswer::Again, words)
    } else if is_name(word, b"ended") {
        ended_row(words)
    } else {
        Err(LineRule::BadWord)
    }
}

/// The words of where an answer belongs.
#[derive(Clone, Copy)]
struct PlaceWords<'a> {
    unit: &'a [u8],
    side: &'a [u8],
    program: &'a [u8],
    command: &'a [u8],
    chunk: &'a [u8],
}

/// An answer is handed in for a unit and a side, with the numbers of the program, of the command and of the chunk.
fn report_with(place: PlaceWords<'_>, answer: DeviceAnswer) -> Option<Event>
    ensures { result ≡ spec.report_with place.entry.unit.now place.entry.side.now place.entry.program.now place.entry.command.now place.entry.chunk.now answer }
{
    let unit = number(place.unit)?;
    let side = side_named(place.side)?;
    let number = long_number(place.program)?;
    let command = long_number(place.command)?;
    let sequence = long_number(place.chunk)?;
    Some(Event::Report {
        unit,
        report: Report {
            side,
            answer,
            number,
            command,
            sequence,
        },
    })
}

/// The same of words that say what the device answered, or break a rule.
fn report_of(
    place: PlaceWords<'_>,
    answer: Result<DeviceAnswer, LineRule>,
) -> Result<Event, LineRule>
    ensures { result ≡ spec.report_of place.entry.unit.now place.entry.side.now place.entry.program.now place.entry.command.now place.entry.chunk.now answer }
{
    match answer {
        Ok(answer) => report_with(place, answer).ok_or(LineRule::BadWord),
        Err(rule) => Err(rule),
    }
}

/// What a line asks for behind `report`: `UNIT SIDE PROGRAM COMMAND CHUNK` and what the device answered, all numbers hexadecimal.
pub fn report_row(words: &[&[u8]]) -> Result<Event, LineRule>
    ensures { result ≡ spec.report_row (map (λ w. w.now) words.now) }
{
    let [unit, side, program, command, chunk, word, words @ ..] = words else {
        return Err(LineRule::WrongCount);
    };
    let place = PlaceWords {
        unit: *unit,
        side: *side,
        program: *program,
        command: *command,
        chunk: *chunk,
    };
    report_of(place, answer_row(word, words))
}
