//! What waits on the wires follows the facts of a step.

ghost use Rattle.std.specs.Prelude.{◌≡◌, ◌↔◌, IfOk, IsTrue, OnErr, OnOk, true};
ghost use Rattle.std.specs.Bool.{OnFalse};
ghost use Rattle.machine_sight.specs.Balance as spec;
ghost use Rattle.machine_sight.specs.Balance.{CanFollow, IsBalanced, IsFollowed, IsStuck};

use crate::waiting::Waiting;
use memory::Supply;
use std::alloc::AllocError;
use step_records::record::{Fact, Moved, Record};

/// What a move of a signal is to its wire.
#[derive(Clone, Copy, PartialEq, Eq)]
pub enum Course {
    /// The signal comes onto it.
    Onto,
    /// The signal goes off it: it is met at its end, or lost.
    Off,
    /// The signal never was on it.
    Aside,
}

/// What a move is to the wire.
fn course_of(moved: Moved) -> Course
    ensures { result ≡ spec.course_of moved }
{
    match moved {
        Moved::Sent => Course::Onto,
        Moved::Taken | Moved::Ignored | Moved::Lost => Course::Off,
        Moved::Vanished => Course::Aside,
    }
}

impl Waiting {
    /// Follows a fact, and answers whether that could be: a signal that goes off its wire waited there longest.
    #[tactic(auto, using(crate::proofs::Following::followed_put, crate::proofs::Following::followed_taken, crate::proofs::Following::followed_aside))]
    fn follow_one<S: Supply>(&mut self, supply: &mut S, fact: &Fact) -> Result<bool, AllocError>
        ensures can { IfOk result (λ followed. IsTrue followed ↔ CanFollow self.old fact.now) }
        ensures followed { IfOk result (λ followed. IsTrue followed → IsFollowed self.old fact.now self.new) }
        ensures kept { IfOk result (λ followed. OnFalse followed (self.new ≡ self.old)) }
        ensures unrefused { OnOk result (S.refused supply.new ≡ S.refused supply.old) }
        ensures memory { OnErr result (S.refused supply.new ≡ true) }
    {
        match fact {
            Fact::Signal {
                wire,
                moved,
                signal,
            } => match course_of(*moved) {
                Course::Onto => self.put(supply, wire, signal),
                Course::Off => Ok(self.take(wire, signal)),
                Course::Aside => Ok(true),
            },
            _ => Ok(true),
        }
    }

    /// Follows the facts of a step, and answers whether that could be: on each wire what waited, and then what came onto it, is what
    /// went off it, and then what waits now.
    #[tactic(auto, using(crate::proofs::Following::balanced_none, crate::proofs::Following::balanced_more))]
    pub fn follow<S: Supply>(
        &mut self,
        supply: &mut S,
        records: &[Record],
    ) -> Result<bool, AllocError>
        ensures balanced { IfOk result (λ followed. IsTrue followed → IsBalanced self.old records.now self.new) }
        ensures stuck { IfOk result (λ followed. OnFalse followed (IsStuck self.old records.now self.new)) }
        ensures unrefused { OnOk result (S.refused supply.new ≡ S.refused supply.old) }
        ensures memory { OnErr result (S.refused supply.new ≡ true) }
    {
        for record in records {
            if !self.follow_one(supply, &record.fact)? {
                return Ok(false);
            }
        }
        Ok(true)
    }
}
