//! The signals that wait on the way down of one path.

ghost use Rattle.std.specs.Prelude.{◌≡◌, ◌<◌, ◌↔◌, [], ◌∷◌, ◌++◌, None, Some, IfOk, IsTrue, IsSome, MatchOption, OnErr, OnOk, length, replicate, slice_get, drop, true};
ghost use Rattle.std.specs.Bool.{OnFalse};
ghost use Rattle.chan_model.specs.Lent.{lent_down};

use chan_model::lent::LentDown;
use chan_model::slots::DownSlot;
use memory::{Supply, make_room, push};
use std::alloc::{AllocError, Global};
use std::marker::Model;

/// A ring of eight slots, which stay where they are: sending writes the one behind the last signal, and nothing else is
/// touched.
#[derive(Drop)]
pub(crate) struct Downs {
    slots: [DownSlot; 8],
    oldest: usize,
    count: usize,
}

impl Model for Downs {
    ghost use Rattle.std.specs.Prelude.{List, ◌<◌, ◌≤◌, ◌≡◌, length};
    ghost use Rattle.chan_model.specs.Signals.{Down};
    ghost use Rattle.wires.specs.Windows.{window};

    ghost Value = { List Down };

    ghost view = { λ r. window r.oldest r.count r.slots };

    ghost invariant = { λ r. (length r.slots ≡ 8) × (r.oldest < 8) × (r.count ≤ 8) };
}

impl Downs {
    /// No signal waits.
    pub fn new() -> Self
        ensures { result ≡ [] }
    {
        Downs {
            slots: [
                DownSlot::new(),
                DownSlot::new(),
                DownSlot::new(),
                DownSlot::new(),
                DownSlot::new(),
                DownSlot::new(),
                DownSlot::new(),
                DownSlot::new(),
            ],
            oldest: 0,
            count: 0,
        }
    }

    /// A ring for each of the eight paths, where no signal waits. Each is made where it stays. It is refused only where the supply
    /// refuses a growth.
    pub fn on_each_path<S: Supply>(alloc: Global, supply: &mut S) -> Result<Vec<Downs>, AllocError>
        ensures made { IfOk result (λ rings. rings.items ≡ replicate 8 []) }
        ensures unrefused { OnOk result (S.refused supply.new ≡ S.refused supply.old) }
        ensures memory { OnErr result (S.refused supply.new ≡ true) }
    {
        let mut rings = Vec::new(alloc);
        make_room(supply, &mut rings, 8)?;
        for _path in 0..8usize {
            push(supply, &mut rings, Downs::new())?;
        }
        Ok(rings)
    }

    /// Whether there is no room.
    pub fn is_full(&self) -> bool
        ensures full { IsTrue result ↔ (length self.now ≡ 8) }
        ensures room { OnFalse result (length self.now < 8) }
    {
        self.count == 8
    }

    /// The signal goes to the end.
    pub fn send(&mut self, signal: &LentDown<'_>)
        requires { length self.old < 8 }
        ensures { self.new ≡ self.old ++ lent_down signal.now ∷ [] }
    {
        self.slots[(self.oldest + self.count) % 8].put(signal);
        self.count += 1;
    }

    /// The signal that waits longest; None where none waits.
    pub fn front(&self) -> Option<LentDown<'_>>
        ensures waits { IsSome result ↔ (0 < length self.now) }
        ensures first { MatchOption result (slice_get self.now 0 ≡ None) (λ signal. slice_get self.now 0 ≡ Some (lent_down signal)) }
    {
        if self.count == 0 {
            return None;
        }
        Some(self.slots[self.oldest].lend())
    }

    /// The signal at an index, 0 for that which waits longest; None where fewer wait.
    pub fn at(&self, index: usize) -> Option<LentDown<'_>>
        ensures { MatchOption result (slice_get self.now index ≡ None) (λ signal. slice_get self.now index ≡ Some (lent_down signal)) }
    {
        if index >= self.count {
            return None;
        }
        Some(self.slots[(self.oldest + index) % 8].lend())
    }

    /// Lets the signal go that waits longest.
    pub fn drop_front(&mut self)
        requires { 0 < length self.old }
        ensures { self.new ≡ drop 1 self.old }
    {
        self.oldest = (self.oldest + 1) % 8;
        self.count -= 1;
    }

    /// Lets all signals go.
    pub fn lose(&mut self)
        ensures { self.new ≡ [] }
    {
        self.count = 0;
    }
}
