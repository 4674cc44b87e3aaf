//! What waits on the wires of each subchannel: signals are put in and taken out as the facts of steps tell it.

ghost use Rattle.std.specs.Prelude.{◌≡◌, ◌<◌, ◌++◌, ◌∷◌, ◌↔◌, [], IfOk, IsTrue, None, OnErr, OnOk, Some, drop, length, replicate, slice_get, true};
ghost use Rattle.std.specs.Bool.{OnFalse};
ghost use Rattle.machine_sight.specs.Shown as shown_spec;
ghost use Rattle.machine_sight.specs.Waiting as spec;
ghost use Rattle.machine_sight.specs.Shown.{TellsWaiting, TellsWires};
ghost use Rattle.machine_sight.specs.Waiting.{HasWire, IsFirst, IsPut, IsPutIn, IsTaken, IsTakenIn};
ghost use Rattle.wires.specs.Queues.{first_of, queue, sent, taken};

use crate::comparing::{is_same, is_same_down, is_same_up};
use chan_model::names::Path;
use chan_model::signal::{Down, Up};
use machine::looks::Looks;
use memory::{Supply, ensure_room, push};
use std::alloc::{AllocError, Global};
use std::marker::Model;
use step_records::parties::{Parties, word_of};
use step_records::record::{Signal, Way, Wire};
use wires::Wires;

/// The signals that wait on a wire, the oldest first.
#[derive(Drop)]
struct WaitingSignals {
    signals: Vec<Signal>,
}

impl Model for WaitingSignals {
    ghost use Rattle.std.specs.Prelude.{List};
    ghost use Rattle.step_records.specs.declared.record.Signal.{Signal};

    ghost Value = { List Signal };

    ghost view = { λ w. w.signals.items };
}

/// What waits on the wires of a subchannel, by path.
#[derive(Drop)]
struct WaitingWires {
    down: Vec<WaitingSignals>,
    up: Vec<WaitingSignals>,
}

impl Model for WaitingWires {
    ghost use Rattle.machine_sight.specs.Waiting.{WaitingQueues};

    ghost Value = { WaitingQueues };

    ghost view = { λ w. record { down = w.down.items; up = w.up.items } };
}

/// What waits on the wires of each subchannel, in the order of the parties.
#[derive(Drop)]
pub struct Waiting {
    subchannels: Vec<WaitingWires>,
}

impl Model for Waiting {
    ghost use Rattle.std.specs.Prelude.{List};
    ghost use Rattle.machine_sight.specs.Waiting.{WaitingQueues};

    ghost Value = { List WaitingQueues };

    ghost view = { λ w. w.subchannels.items };
}

/// Whether both go the same way.
fn same_way(one: Way, other: Way) -> bool
    ensures { result ≡ spec.same_way one other }
{
    matches!((one, other), (Way::Down, Way::Down) | (Way::Up, Way::Up))
}

/// No signal waits, on any of the eight paths.
fn no_queues<S: Supply>(alloc: Global, supply: &mut S) -> Result<Vec<WaitingSignals>, AllocError>
    ensures made { IfOk result (λ queues. queues.items ≡ replicate 8 []) }
    ensures unrefused { OnOk result (S.refused supply.new ≡ S.refused supply.old) }
    ensures memory { OnErr result (S.refused supply.new ≡ true) }
{
    let mut queues = Vec::new(alloc);
    for _path in 0..8u32 {
        push(
            supply,
            &mut queues,
            WaitingSignals {
                signals: Vec::new(alloc),
            },
        )?;
    }
    Ok(queues)
}

/// One signal more: it is copied once, to where it is to stand.
fn add_signal<S: Supply>(
    supply: &mut S,
    signals: &mut Vec<Signal>,
    signal: &Signal,
) -> Result<(), AllocError>
    ensures added { OnOk result (signals.new.items ≡ signals.old.items ++ signal.now ∷ []) }
    ensures kept { OnErr result (signals.new.items ≡ signals.old.items) }
    ensures unrefused { OnOk result (S.refused supply.new ≡ S.refused supply.old) }
    ensures memory { OnErr result (S.refused supply.new ≡ true) }
{
    ensure_room(supply, signals, 1)?;
    match signal {
        Signal::Down(signal) => signals.push_reserved(Signal::Down(signal.copy())),
        Signal::Up(signal) => signals.push_reserved(Signal::Up(signal.copy())),
    }
    Ok(())
}

/// Puts a signal behind those that wait on a path, and answers whether there is such a path.
fn put_in<S: Supply>(
    supply: &mut S,
    queues: &mut Vec<WaitingSignals>,
    path: Path,
    signal: &Signal,
) -> Result<bool, AllocError>
    ensures there { IfOk result (λ put. IsTrue put ↔ (path < length queues.old.items)) }
    ensures put { IfOk result (λ put. IsTrue put → queues.new.items ≡ sent queues.old.items path signal.now) }
    ensures kept { IfOk result (λ put. OnFalse put (queues.new.items ≡ queues.old.items)) }
    ensures unrefused { OnOk result (S.refused supply.new ≡ S.refused supply.old) }
    ensures memory { OnErr result (S.refused supply.new ≡ true) }
{
    if path.index() >= queues.len() {
        return Ok(false);
    }
    add_signal(supply, &mut queues[path.index()].signals, signal)?;
    Ok(true)
}

/// Takes out the signal that waits longest on a path, and answers whether it is this one.
fn take_in(queues: &mut Vec<WaitingSignals>, path: Path, signal: &Signal) -> bool
    ensures first { IsTrue result ↔ (first_of queues.old.items path ≡ Some signal.now) }
    ensures taken { IsTrue result → (path < length queues.old.items) × (queues.new.items ≡ taken queues.old.items path) }
    ensures kept { OnFalse result (queues.new.items ≡ queues.old.items) }
{
    if path.index() >= queues.len() {
        return false;
    }
    take_first(&mut queues[path.index()].signals, signal)
}

/// Takes out the first signal, and answers whether it is this one.
fn take_first(signals: &mut Vec<Signal>, signal: &Signal) -> bool
    ensures first { IsTrue result ↔ (slice_get signals.old.items 0 ≡ Some signal.now) }
    ensures taken { IsTrue result → signals.new.items ≡ drop 1 signals.old.items }
    ensures kept { OnFalse result (signals.new.items ≡ signals.old.items) }
{
    if signals.is_empty() || !is_same(&signals[0], signal) {
        return false;
    }
    if signals.len() == 1 {
        signals.clear();
    } else {
        let _ = signals.remove(0);
    }
    true
}

/// The signal of an index on a wire of a path, 0 for that which waits longest; None where fewer wait.
pub fn signal_at(wires: &Wires, way: Way, path: Path, index: usize) -> Option<Signal>
    ensures { result ≡ slice_get (shown_spec.told_on wires.now way path) index }
{
    match way {
        Way::Down => match wires.down_at(path, index) {
            Some(signal) => Some(Signal::Down(signal.own())),
            None => None,
        },
        Way::Up => match wires.up_at(path, index) {
            Some(signal) => Some(Signal::Up(signal.own())),
            None => None,
        },
    }
}

/// Whether no signal of this index waits on a wire of a path.
#[inline(always)]
pub fn is_past(wires: &Wires, way: Way, path: Path, index: usize) -> bool
    ensures { IsTrue result ↔ (slice_get (shown_spec.told_on wires.now way path) index ≡ None) }
{
    match way {
        Way::Down => wires.down_at(path, index).is_none(),
        Way::Up => wires.up_at(path, index).is_none(),
    }
}

/// Whether this is the signal of this index that waits on the wire down of a path.
fn is_down_at(wires: &Wires, path: Path, index: usize, signal: &Down) -> bool
    ensures { IsTrue result ↔ (slice_get (queue wires.now.down path) index ≡ Some signal.now) }
{
    match wires.down_at(path, index) {
        Some(found) => is_same_down(&found, signal),
        None => false,
    }
}

/// Whether this is the signal of this index that waits on the wire up of a path.
fn is_up_at(wires: &Wires, path: Path, index: usize, signal: &Up) -> bool
    ensures { IsTrue result ↔ (slice_get (queue wires.now.up path) index ≡ Some signal.now) }
{
    match wires.up_at(path, index) {
        Some(found) => is_same_up(&found, signal),
        None => false,
    }
}

/// Whether this is the signal of this index that waits on a wire of a path.
#[inline(never)]
#[tactic(auto, using(crate::proofs::Seeing::down_at, crate::proofs::Seeing::up_at, crate::proofs::Seeing::no_up_at, crate::proofs::Seeing::no_down_at))]
fn is_at(wires: &Wires, way: Way, path: Path, index: usize, signal: &Signal) -> bool
    ensures { IsTrue result ↔ (slice_get (shown_spec.told_on wires.now way path) index ≡ Some signal.now) }
{
    match (way, signal) {
        (Way::Down, Signal::Down(signal)) => is_down_at(wires, path, index, signal),
        (Way::Up, Signal::Up(signal)) => is_up_at(wires, path, index, signal),
        _ => false,
    }
}

/// Whether these are the signals that wait on a wire of a path.
#[inline(always)]
fn are_told(wires: &Wires, way: Way, path: Path, signals: &[Signal]) -> bool
    ensures { IsTrue result ↔ (signals.now ≡ shown_spec.told_on wires.now way path) }
{
    for index in 0..signals.len() {
        if !is_at(wires, way, path, index, &signals[index]) {
            return false;
        }
    }
    is_past(wires, way, path, signals.len())
}

impl WaitingWires {
    /// The signals that wait on a wire, the oldest first.
    #[inline(always)]
    fn signals(&self, way: Way, path: Path) -> &[Signal]
        ensures { result.now ≡ spec.waits_in self.now way path }
    {
        let queues = match way {
            Way::Down => self.down.as_slice(),
            Way::Up => self.up.as_slice(),
        };
        match queues.get(path.index()) {
            Some(waiting) => waiting.signals.as_slice(),
            None => &[],
        }
    }

    /// Puts a signal behind those that wait on a wire, and answers whether there is such a wire.
    #[tactic(auto, using(crate::proofs::Wiring::puts_down, crate::proofs::Wiring::puts_up))]
    fn put<S: Supply>(
        &mut self,
        supply: &mut S,
        way: Way,
        path: Path,
        signal: &Signal,
    ) -> Result<bool, AllocError>
        ensures there { IfOk result (λ put. IsTrue put ↔ (path < length (spec.queues_of way self.old))) }
        ensures put { IfOk result (λ put. IsTrue put → IsPutIn self.old way path signal.now self.new) }
        ensures kept { IfOk result (λ put. OnFalse put (self.new ≡ self.old)) }
        ensures unrefused { OnOk result (S.refused supply.new ≡ S.refused supply.old) }
        ensures memory { OnErr result (S.refused supply.new ≡ true) }
    {
        match way {
            Way::Down => put_in(supply, &mut self.down, path, signal),
            Way::Up => put_in(supply, &mut self.up, path, signal),
        }
    }

    /// Takes out the signal that waits longest on a wire, and answers whether it is this one.
    #[tactic(auto, using(crate::proofs::Wiring::takes_down, crate::proofs::Wiring::takes_up))]
    fn take(&mut self, way: Way, path: Path, signal: &Signal) -> bool
        ensures first { IsTrue result ↔ (slice_get (spec.waits_in self.old way path) 0 ≡ Some signal.now) }
        ensures taken { IsTrue result → IsTakenIn self.old way path signal.now self.new }
        ensures kept { OnFalse result (self.new ≡ self.old) }
    {
        match way {
            Way::Down => take_in(&mut self.down, path, signal),
            Way::Up => take_in(&mut self.up, path, signal),
        }
    }

    /// Whether these are the signals that wait on the wires of a subchannel.
    fn tells(&self, wires: &Wires) -> bool
        ensures { IsTrue result ↔ TellsWires wires.now self.now }
    {
        for index in 0..8u32 {
            let Some(path) = Path::new(index) else {
                return false;
            };
            if !are_told(wires, Way::Down, path, self.signals(Way::Down, path)) {
                return false;
            }
            if !are_told(wires, Way::Up, path, self.signals(Way::Up, path)) {
                return false;
            }
        }
        true
    }
}

impl Waiting {
    /// No signal waits, on the wires of so many subchannels.
    pub fn none<S: Supply>(
        alloc: Global,
        supply: &mut S,
        count: usize,
    ) -> Result<Waiting, AllocError>
        ensures made { IfOk result (λ waiting. waiting ≡ replicate count spec.no_queues) }
        ensures unrefused { OnOk result (S.refused supply.new ≡ S.refused supply.old) }
        ensures memory { OnErr result (S.refused supply.new ≡ true) }
    {
        let mut subchannels = Vec::new(alloc);
        for _subchannel in 0..count {
            let down = no_queues(alloc, supply)?;
            let up = no_queues(alloc, supply)?;
            push(supply, &mut subchannels, WaitingWires { down, up })?;
        }
        Ok(Waiting { subchannels })
    }

    /// The signals that wait on a wire, the oldest first; none where there is no such wire.
    pub fn signals(&self, wire: &Wire) -> &[Signal]
        ensures { result.now ≡ spec.waits_on self.now wire.now }
    {
        match self.subchannels.as_slice().get(wire.subchannel) {
            Some(sub) => sub.signals(wire.way, wire.path),
            None => &[],
        }
    }

    /// Puts a signal behind those that wait on a wire, and answers whether there is such a wire.
    pub fn put<S: Supply>(
        &mut self,
        supply: &mut S,
        wire: &Wire,
        signal: &Signal,
    ) -> Result<bool, AllocError>
        ensures there { IfOk result (λ put. IsTrue put ↔ HasWire self.old wire.now) }
        ensures put { IfOk result (λ put. IsTrue put → IsPut self.old wire.now signal.now self.new) }
        ensures kept { IfOk result (λ put. OnFalse put (self.new ≡ self.old)) }
        ensures unrefused { OnOk result (S.refused supply.new ≡ S.refused supply.old) }
        ensures memory { OnErr result (S.refused supply.new ≡ true) }
    {
        if wire.subchannel >= self.subchannels.len() {
            return Ok(false);
        }
        self.subchannels[wire.subchannel].put(supply, wire.way, wire.path, signal)
    }

    /// Takes out the signal that waits longest on a wire, and answers whether it is this one.
    pub fn take(&mut self, wire: &Wire, signal: &Signal) -> bool
        ensures first { IsTrue result ↔ IsFirst self.old wire.now signal.now }
        ensures taken { IsTrue result → IsTaken self.old wire.now signal.now self.new }
        ensures kept { OnFalse result (self.new ≡ self.old) }
    {
        if wire.subchannel >= self.subchannels.len() {
            return false;
        }
        self.subchannels[wire.subchannel].take(wire.way, wire.path, signal)
    }

    /// Whether these are the signals that wait at a machine, and there are wires of each of its subchannels.
    pub fn tells<L: Looks>(&self, looks: &L, parties: &Parties) -> bool
        ensures told { IsTrue result → TellsWaiting (L.state looks.now) parties.now.subchannels.items self.now }
        ensures untold { OnFalse result (TellsWaiting (L.state looks.now) parties.now.subchannels.items self.now → length self.now < length parties.now.subchannels.items) }
    {
        for index in 0..parties.subchannels.len() {
            let Some(own) = self.subchannels.as_slice().get(index) else {
                return false;
            };
            let Some(sub) = looks.subchannel(word_of(parties.subchannels[index].id)) else {
                return false;
            };
            if !own.tells(&sub.wires) {
                return false;
            }
        }
        true
    }
}
