//! The programs that hold a unit.

use step_records::record::{Fact, Owner, Record};

/// The least number above this one of the programs of a subchannel that hold a unit; None where there is none.
pub fn next_holder(
    records: &[Record],
    unit: usize,
    subchannel: usize,
    above: Option<u64>,
) -> Option<u64> {
    let mut least = None;
    for record in records {
        if let Fact::Owner { unit: u, after, .. } = &record.fact
            && *u == unit
        {
            least = lesser(least, held_number(after, subchannel, above));
        }
    }
    least
}

/// The number of the program of a subchannel that holds a unit, where it is above this one.
fn held_number(owner: &Owner, subchannel: usize, above: Option<u64>) -> Option<u64> {
    match owner.holder {
        Some(holder) if holder.subchannel == subchannel && is_above(holder.number, above) => {
            Some(holder.number)
        }
        _ => None,
    }
}

/// Whether a number is above another, where there is one.
fn is_above(number: u64, other: Option<u64>) -> bool {
    match other {
        Some(other) => number > other,
        None => true,
    }
}

/// The lesser of two numbers, of those that there are.
fn lesser(one: Option<u64>, other: Option<u64>) -> Option<u64> {
    match (one, other) {
        (Some(a), Some(b)) => Some(a.min(b)),
        (Some(a), None) => Some(a),
        (None, b) => b,
    }
}
