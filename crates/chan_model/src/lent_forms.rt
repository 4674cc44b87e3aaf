//! What signals are whose bytes are lent, and what is made of them.

ghost use Rattle.std.specs.Prelude.{◌≡◌, ◌≤◌, ◌++◌, ℕ, List, length};
ghost use Rattle.chan_model.specs.Lent.{lent_down, lent_up, plain_down, plain_up};
ghost use Rattle.chan_model.specs.Signals as spec;

use crate::chunk::{Bytes, Chunk, ChunkLength};
use crate::lent::{LentDown, LentUp, PlainDown, PlainUp};
use crate::signal::{Down, KeptDown, KeptUp, Load, OnPath, Up};

impl<'a> LentDown<'a> {
    /// Its bytes; most signals have none.
    pub fn bytes(&self) -> &'a [u8]
        ensures value { result.now ≡ spec.down_bytes (lent_down self.now) }
        ensures bound { length result.now ≤ 256 }
    {
        match self.kept {
            Down::Give { bytes, .. } => &self.bytes[..bytes.get()],
            _ => &[],
        }
    }

    /// The same signal with its own bytes.
    pub fn own(&self) -> Down
        ensures { result ≡ lent_down self.now }
    {
        self.kept.with(Chunk::of(self.bytes()))
    }

    /// The same signal, its bytes standing elsewhere.
    #[inline]
    pub fn keep(&self) -> KeptDown
        ensures kept { (rest : List ℕ) → spec.down_in result (spec.down_bytes (lent_down self.now) ++ rest) ≡ lent_down self.now }
        ensures length { spec.down_length result ≡ length (spec.down_bytes (lent_down self.now)) }
        ensures bound { length (spec.down_bytes (lent_down self.now)) ≤ 256 }
    {
        let _ = self.bytes();
        *self.kept
    }
}

impl<'a> LentUp<'a> {
    /// What it brings; of a signal that is no Data it is nothing.
    pub fn load(&self) -> Load<Bytes<'a>>
        ensures { spec.lent_load result ≡ spec.load_of (lent_up self.now) }
    {
        match self.kept {
            Up::Data { load, .. } => load.lend(self.bytes),
            _ => Load::Absorbed(0),
        }
    }

    /// Its bytes; most signals have none.
    pub fn bytes(&self) -> &'a [u8]
        ensures value { result.now ≡ spec.up_bytes (lent_up self.now) }
        ensures bound { length result.now ≤ 256 }
    {
        self.load().bytes()
    }

    /// The same signal with its own bytes.
    pub fn own(&self) -> Up
        ensures { result ≡ lent_up self.now }
    {
        self.kept.with(self.load().own())
    }

    /// The same signal, its bytes standing elsewhere.
    #[inline]
    pub fn keep(&self) -> KeptUp
        ensures kept { (rest : List ℕ) → spec.up_in result (spec.up_bytes (lent_up self.now) ++ rest) ≡ lent_up self.now }
        ensures length { spec.up_length result ≡ length (spec.up_bytes (lent_up self.now)) }
        ensures bound { length (spec.up_bytes (lent_up self.now)) ≤ 256 }
    {
        let _ = self.bytes();
        *self.kept
    }
}

impl Down<ChunkLength> {
    /// How many bytes it has.
    pub fn length(&self) -> usize
        ensures value { result ≡ spec.down_length self.now }
        ensures bound { result ≤ 256 }
    {
        match self {
            Down::Give { bytes, .. } => bytes.get(),
            _ => 0,
        }
    }

    /// The signal with the first of these bytes.
    pub fn lend<'a>(&'a self, bytes: &'a [u8]) -> LentDown<'a>
        requires { spec.down_length self.now ≤ length bytes.now }
        ensures { lent_down result ≡ spec.down_in self.now bytes.now }
    {
        LentDown { kept: self, bytes }
    }
}

impl Up<Load<ChunkLength>> {
    /// How many bytes it has.
    pub fn length(&self) -> usize
        ensures value { result ≡ spec.up_length self.now }
        ensures bound { result ≤ 256 }
    {
        match self {
            Up::Data { load, .. } => load.length(),
            _ => 0,
        }
    }

    /// The signal with the first of these bytes.
    pub fn lend<'a>(&'a self, bytes: &'a [u8]) -> LentUp<'a>
        requires { spec.up_length self.now ≤ length bytes.now }
        ensures { lent_up result ≡ spec.up_in self.now bytes.now }
    {
        LentUp { kept: self, bytes }
    }
}

impl PlainDown {
    /// This signal, which has no bytes.
    pub fn of(kept: KeptDown) -> Self
        requires { spec.down_length kept ≡ 0 }
        ensures { result.kept ≡ kept }
    {
        PlainDown { kept }
    }

    /// The same signal, as one whose bytes are lent.
    pub fn lend(&self) -> LentDown<'_>
        ensures { lent_down result ≡ plain_down self.now }
    {
        LentDown {
            kept: &self.kept,
            bytes: &[],
        }
    }
}

impl PlainUp {
    /// This signal, which has no bytes.
    pub fn of(kept: KeptUp) -> Self
        requires { spec.up_length kept ≡ 0 }
        ensures { result.kept ≡ kept }
    {
        PlainUp { kept }
    }

    /// The same signal, as one whose bytes are lent.
    pub fn lend(&self) -> LentUp<'_>
        ensures { lent_up result ≡ plain_up self.now }
    {
        LentUp {
            kept: &self.kept,
            bytes: &[],
        }
    }
}

/// A signal down without bytes that is sent on a path, where there is one, as one whose bytes are lent.
pub fn lend_down(sent: &Option<OnPath<PlainDown>>) -> Option<OnPath<LentDown<'_>>>
    ensures { spec.map_sent lent_down result ≡ spec.map_sent plain_down sent.now }
{
    match sent {
        None => None,
        Some(sent) => Some(OnPath {
            path: sent.path,
            signal: sent.signal.lend(),
        }),
    }
}

/// A signal up without bytes that is sent on a path, where there is one, as one whose bytes are lent.
pub fn lend_up(sent: &Option<OnPath<PlainUp>>) -> Option<OnPath<LentUp<'_>>>
    ensures { spec.map_sent lent_up result ≡ spec.map_sent plain_up sent.now }
{
    match sent {
        None => None,
        Some(sent) => Some(OnPath {
            path: sent.path,
            signal: sent.signal.lend(),
        }),
    }
}

impl OnPath<LentDown<'_>> {
    /// The same signal on the same path, with its own bytes.
    pub fn own(&self) -> OnPath<Down>
        ensures { result ≡ record { path = self.now.path; signal = lent_down self.now.signal } }
    {
        OnPath {
            path: self.path,
            signal: self.signal.own(),
        }
    }
}

impl OnPath<LentUp<'_>> {
    /// The same signal on the same path, with its own bytes.
    pub fn own(&self) -> OnPath<Up>
        ensures { result ≡ record { path = self.now.path; signal = lent_up self.now.signal } }
    {
        OnPath {
            path: self.path,
            signal: self.signal.own(),
        }
    }
}
