//! The seats that can still be made at a machine: the rest of its ledgers, which no lock guards.

ghost use Rattle.std.specs.Prelude.{◌≡◌, ◌+◌, ◌<◌, ◌≤◌};

use crate::naming::{Entries, MachineBrand, Turns};
use std::alloc::Global;
use std::marker::Model;
use std::sync::ledger::Share;

/// The seats that can still be made at a machine. Contracts see how many were made.
#[derive(Drop)]
pub struct SeatStock<J: MachineBrand> {
    alloc: Global,
    made: u16,
    entries: Share<Entries<J>>,
    turns: Share<Turns<J>>,
}

impl<J: MachineBrand> Model for SeatStock<J> {
    ghost use Rattle.std.specs.Prelude.{ℕ};
    ghost use Rattle.core_lock.specs.Keeping.{IsStock};

    ghost Value = { ℕ };

    ghost view = { λ s. s.made };

    ghost invariant = { λ s. IsStock s.made (record { parts = s.entries.parts; amount = s.entries.amount }) (record { parts = s.turns.parts; amount = s.turns.amount }) };
}

impl<J: MachineBrand> SeatStock<J> {
    /// All seats: none was made.
    pub(crate) fn new(alloc: Global, entries: Share<Entries<J>>, turns: Share<Turns<J>>) -> Self
        requires entries { (entries.parts ≡ 1025) × (entries.amount ≡ 0) }
        requires turns { (turns.parts ≡ 1025) × (turns.amount ≡ 0) }
        ensures { result ≡ 0 }
    {
        SeatStock {
            alloc,
            made: 0,
            entries,
            turns,
        }
    }

    /// The allocator of the machine.
    pub(crate) fn alloc(&self) -> Global {
        self.alloc
    }

    /// How many were made.
    pub(crate) fn made(&self) -> u16
        ensures made { result ≡ self.now }
        ensures most { result ≤ 1024 }
    {
        self.made
    }

    /// The shares of one seat more.
    pub(crate) fn take(&mut self) -> (Share<Entries<J>>, Share<Turns<J>>)
        requires { self.old < 1024 }
        ensures made { self.new ≡ self.old + 1 }
        ensures entries { (result.0.parts ≡ 1) × (result.0.amount ≡ 0) }
        ensures turns { (result.1.parts ≡ 1) × (result.1.amount ≡ 0) }
    {
        let entries = self.entries.split_off(1, 0);
        let turns = self.turns.split_off(1, 0);
        self.made += 1;
        (entries, turns)
    }

    /// What no seat has of the ledger of entries.
    pub(crate) fn into_rest(self) -> Share<Entries<J>>
        ensures parts { result.parts + self ≡ 1025 }
        ensures amount { result.amount ≡ 0 }
    {
        let SeatStock {
            alloc: _,
            made: _,
            entries,
            turns: _,
        } = self;
        entries
    }
}
