//! The numbers of the lines, their digits one above the other.

ghost use Rattle.std.specs.Prelude.{◌≤◌};

use crate::draw::NAMES;
use step_records::record::{Fact, Record};
use step_records::trace::Trace;
use streams::Sink;
use text_cells::row::put_times;

/// The power of 10 of the first digit, where there are as few rows as there may be: two.
const LEAST: u64 = 10;

/// A row for each digit of the greatest of the numbers, two at least.
pub fn put_numbers<S: Sink>(sink: &mut S, trace: &Trace) -> bool {
    let records = trace.records.as_slice();
    let mut divisor = greatest_divisor(records);
    let mut name: &[u8] = b"line";
    for _ in 0..u64::BITS {
        if !put_digits(sink, name, records, divisor) {
            return false;
        }
        if divisor < 10 {
            return true;
        }
        divisor /= 10;
        name = b"";
    }
    true
}

/// The power of 10 of the first digit of the greatest of the numbers.
fn greatest_divisor(records: &[Record]) -> u64
    ensures { 1 ≤ result }
{
    let greatest = match records.last() {
        Some(record) => record.line,
        None => 0,
    };
    let mut divisor = LEAST;
    for _ in 0..u64::BITS {
        if greatest / divisor < 10 || divisor > u64::MAX / 10 {
            return divisor;
        }
        divisor *= 10;
    }
    divisor
}

/// A row of digits: those of this power of 10.
fn put_digits<S: Sink>(sink: &mut S, name: &[u8], records: &[Record], divisor: u64) -> bool
    requires { 1 ≤ divisor }
{
    if !(sink.put(name) && put_times(sink, b" ", NAMES.saturating_sub(name.len()))) {
        return false;
    }
    for record in records {
        if matches!(record.fact, Fact::Event) && !put_digit(sink, record.line / divisor) {
            return false;
        }
    }
    sink.put(b"\n")
}

/// The last decimal digit of a number.
fn put_digit<S: Sink>(sink: &mut S, number: u64) -> bool {
    sink.put(&[b'0' + (number % 10) as u8])
}
