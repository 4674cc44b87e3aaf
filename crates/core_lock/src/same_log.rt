//! Whether a log is what a history has of a seat.

ghost use Rattle.std.specs.Prelude.{◌≡◌, ◌==◌, ◌↔◌, IsTrue, length};
ghost use Rattle.std.specs.List.{list_all};
ghost use Rattle.core_lock.specs.Seats.{entries_by};

use event_log::history::History;

/// Whether the log is what the history has of the seat of this number: where this seat made all entries, the whole history.
#[tactic(auto, using(crate::proofs::Auditing::of_one_seat))]
pub(crate) fn is_log(number: u16, by: &[u16], history: &History, log: &History) -> bool
    requires { length by.now ≡ length history.now }
    ensures { IsTrue result ↔ (entries_by number by.now history.now ≡ log.now) }
{
    if made_all(number, by) {
        return log.is_same(history);
    }
    is_part(number, by, history, log)
}

/// Whether the seat of this number made all entries.
fn made_all(number: u16, by: &[u16]) -> bool
    ensures { result ≡ list_all (λ n. n == number) by.now }
{
    by.iter().all(|seat| *seat == number)
}

/// Whether the log is what the history has of the seat of this number, which others may stand between: apart, as a machine of one
/// seat has none.
#[inline(never)]
fn is_part(number: u16, by: &[u16], history: &History, log: &History) -> bool
    requires { length by.now ≡ length history.now }
    ensures { IsTrue result ↔ (entries_by number by.now history.now ≡ log.now) }
{
    let mut next = 0;
    for index in 0..by.len() {
        if by[index] != number {
            continue;
        }
        if !log.has_same(next, history, index) {
            return false;
        }
        next += 1;
    }
    next == log.len()
}
