//! Whether two signals are the same.

ghost use Rattle.std.specs.Prelude.{◌≡◌, ◌↔◌, IsTrue};
ghost use Rattle.chan_model.specs.Lent.{lent_down, lent_up};

use chan_model::lent::{LentDown, LentUp};
use chan_model::signal::{Down, KeptDown, KeptUp, Up};
use step_records::record::Signal;

fn same_kept_down(one: &KeptDown, other: &KeptDown) -> bool
    ensures { IsTrue result ↔ (one.now ≡ other.now) }
{
    *one == *other
}

fn same_kept_up(one: &KeptUp, other: &KeptUp) -> bool
    ensures { IsTrue result ↔ (one.now ≡ other.now) }
{
    *one == *other
}

/// Whether both are the same bytes.
fn same_bytes(one: &[u8], other: &[u8]) -> bool
    ensures { IsTrue result ↔ (one.now ≡ other.now) }
{
    one == other
}

/// Whether a signal down whose bytes are lent is the same as this one.
#[tactic(auto, using(crate::proofs::Sameness::downs_same, crate::proofs::Sameness::downs_kept))]
pub(crate) fn is_same_down(lent: &LentDown<'_>, other: &Down) -> bool
    ensures { IsTrue result ↔ (lent_down lent.now ≡ other.now) }
{
    let one = lent.keep();
    let two = other.keep();
    let first = lent.bytes();
    let second = other.bytes();
    same_kept_down(&one, &two) && same_bytes(first, second)
}

/// Whether a signal up whose bytes are lent is the same as this one.
#[tactic(auto, using(crate::proofs::Sameness::ups_same, crate::proofs::Sameness::ups_kept))]
pub(crate) fn is_same_up(lent: &LentUp<'_>, other: &Up) -> bool
    ensures { IsTrue result ↔ (lent_up lent.now ≡ other.now) }
{
    let one = lent.keep();
    let two = other.keep();
    let first = lent.bytes();
    let second = other.bytes();
    same_kept_up(&one, &two) && same_bytes(first, second)
}

/// Whether both are the same down.
#[tactic(auto, using(crate::proofs::Sameness::downs_same, crate::proofs::Sameness::downs_kept))]
fn are_same_down(one: &Down, other: &Down) -> bool
    ensures { IsTrue result ↔ (one.now ≡ other.now) }
{
    let kept = one.keep();
    let two = other.keep();
    let first = one.bytes();
    let second = other.bytes();
    same_kept_down(&kept, &two) && same_bytes(first, second)
}

/// Whether both are the same up.
#[tactic(auto, using(crate::proofs::Sameness::ups_same, crate::proofs::Sameness::ups_kept))]
fn are_same_up(one: &Up, other: &Up) -> bool
    ensures { IsTrue result ↔ (one.now ≡ other.now) }
{
    let kept = one.keep();
    let two = other.keep();
    let first = one.bytes();
    let second = other.bytes();
    same_kept_up(&kept, &two) && same_bytes(first, second)
}

/// Whether both are the same, with the same bytes.
pub(crate) fn is_same(one: &Signal, other: &Signal) -> bool
    ensures { IsTrue result ↔ (one.now ≡ other.now) }
{
    match (one, other) {
        (Signal::Down(one), Signal::Down(other)) => are_same_down(one, other),
        (Signal::Up(one), Signal::Up(other)) => are_same_up(one, other),
        _ => false,
    }
}
