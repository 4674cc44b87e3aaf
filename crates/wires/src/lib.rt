//! The wires between one subchannel and its unit (own).
//!
//! Used alone, this crate promises: each of the eight paths has a queue down and a queue up, of at most 8 signals each. A
//! signal that is sent goes to the end of its queue and the one that is let go was its front, so signals arrive in the order
//! in which they were sent, once each; only `lose` makes signals vanish, and then all of one path, both ways. No call changes a
//! queue but those that it names. Sending has the condition that there is room, and letting go that a signal waits;
//! `down_is_full` and `front_down` tell that beforehand, and so do their like for the way up. A queue is a ring of slots that
//! are made with the wires and stay where they are, also where the wires are moved: sending writes one slot, and a signal is
//! read where it stands. Only the making takes memory.
#![tactic(auto)]

mod downs;
mod ups;

ghost use Rattle.std.specs.Prelude.{◌≡◌, ◌<◌, ◌↔◌, None, Some, IfOk, IsTrue, IsSome, MatchOption, OnErr, OnOk, length, slice_get, true};
ghost use Rattle.std.specs.Bool.{OnFalse};
ghost use Rattle.chan_model.specs.Lent.{lent_down, lent_up};
ghost use Rattle.wires.specs.Queues.{no_queues, queue, first_of, sent, taken, lost};

use crate::downs::Downs;
use crate::ups::Ups;
use chan_model::lent::{LentDown, LentUp};
use chan_model::names::Path;
use memory::{Allocator, Supply};
use std::alloc::{AllocError, Global};
use std::marker::Model;

/// The signals that wait, for each path down to the unit and up to the subchannel. A wire holds at most 8.
#[derive(Drop)]
pub struct Wires {
    down: Vec<Downs>,
    up: Vec<Ups>,
}

impl Model for Wires {
    ghost use Rattle.std.specs.Prelude.{◌≡◌, length};
    ghost use Rattle.wires.specs.Queues.{Queues};

    ghost Value = { Queues };

    ghost view = { λ w. record { down = w.down.items; up = w.up.items } };

    ghost invariant = { λ w. (length w.down.items ≡ 8) × (length w.up.items ≡ 8) };
}

impl Wires {
    /// No signal waits.
    pub fn new(alloc: Global) -> Result<Self, AllocError>
        ensures { IfOk result (λ wires. wires ≡ no_queues) }
    {
        Wires::new_with(alloc, &mut Allocator { refused: false })
    }

    /// No signal waits, in what room a supply has. It is refused only where the supply refuses a growth.
    pub fn new_with<S: Supply>(alloc: Global, supply: &mut S) -> Result<Self, AllocError>
        ensures made { IfOk result (λ wires. wires ≡ no_queues) }
        ensures unrefused { OnOk result (S.refused supply.new ≡ S.refused supply.old) }
        ensures memory { OnErr result (S.refused supply.new ≡ true) }
    {
        Ok(Wires {
            down: Downs::on_each_path(alloc, supply)?,
            up: Ups::on_each_path(alloc, supply)?,
        })
    }

    /// Whether the wire down of a path has no room.
    pub fn down_is_full(&self, path: Path) -> bool
        ensures full { IsTrue result ↔ (length (queue self.now.down path) ≡ 8) }
        ensures room { OnFalse result (length (queue self.now.down path) < 8) }
    {
        self.down[path.index()].is_full()
    }

    /// Sends a signal down.
    pub fn send_down(&mut self, path: Path, signal: &LentDown<'_>)
        requires { length (queue self.old.down path) < 8 }
        ensures { self.new ≡ record self.old { down = sent self.old.down path (lent_down signal.now) } }
    {
        self.down[path.index()].send(signal);
    }

    /// The signal that waits longest on the wire down of a path; None where none waits.
    pub fn front_down(&self, path: Path) -> Option<LentDown<'_>>
        ensures waits { IsSome result ↔ (0 < length (queue self.now.down path)) }
        ensures first { MatchOption result (first_of self.now.down path ≡ None) (λ signal. first_of self.now.down path ≡ Some (lent_down signal)) }
    {
        self.down[path.index()].front()
    }

    /// The signal at an index of the wire down of a path, 0 for that which waits longest; None where fewer wait.
    pub fn down_at(&self, path: Path, index: usize) -> Option<LentDown<'_>>
        ensures { MatchOption result (slice_get (queue self.now.down path) index ≡ None) (λ signal. slice_get (queue self.now.down path) index ≡ Some (lent_down signal)) }
    {
        self.down[path.index()].at(index)
    }

    /// Lets the signal go that waits longest on the wire down of a path.
    pub fn drop_down(&mut self, path: Path)
        requires { 0 < length (queue self.old.down path) }
        ensures { self.new ≡ record self.old { down = taken self.old.down path } }
    {
        self.down[path.index()].drop_front();
    }

    /// Whether the wire up of a path has no room.
    pub fn up_is_full(&self, path: Path) -> bool
        ensures full { IsTrue result ↔ (length (queue self.now.up path) ≡ 8) }
        ensures room { OnFalse result (length (queue self.now.up path) < 8) }
    {
        self.up[path.index()].is_full()
    }

    /// Sends a signal up.
    pub fn send_up(&mut self, path: Path, signal: &LentUp<'_>)
        requires { length (queue self.old.up path) < 8 }
        ensures { self.new ≡ record self.old { up = sent self.old.up path (lent_up signal.now) } }
    {
        self.up[path.index()].send(signal);
    }

    /// The signal that waits longest on the wire up of a path; None where none waits.
    pub fn front_up(&self, path: Path) -> Option<LentUp<'_>>
        ensures waits { IsSome result ↔ (0 < length (queue self.now.up path)) }
        ensures first { MatchOption result (first_of self.now.up path ≡ None) (λ signal. first_of self.now.up path ≡ Some (lent_up signal)) }
    {
        self.up[path.index()].front()
    }

    /// The signal at an index of the wire up of a path, 0 for that which waits longest; None where fewer wait.
    pub fn up_at(&self, path: Path, index: usize) -> Option<LentUp<'_>>
        ensures { MatchOption result (slice_get (queue self.now.up path) index ≡ None) (λ signal. slice_get (queue self.now.up path) index ≡ Some (lent_up signal)) }
    {
        self.up[path.index()].at(index)
    }

    /// Lets the signal go that waits longest on the wire up of a path.
    pub fn drop_up(&mut self, path: Path)
        requires { 0 < length (queue self.old.up path) }
        ensures { self.new ≡ record self.old { up = taken self.old.up path } }
    {
        self.up[path.index()].drop_front();
    }

    /// All signals on a path vanish, both ways.
    pub fn lose(&mut self, path: Path)
        ensures { self.new ≡ record { down = lost self.old.down path; up = lost self.old.up path } }
    {
        self.down[path.index()].lose();
        self.up[path.index()].lose();
    }
}
