//! A slot for one signal.

ghost use Rattle.std.specs.Prelude.{◌≡◌, ◌≤◌, ◌++◌, drop, length};
ghost use Rattle.chan_model.specs.Lent.{lent_down, lent_up};

use crate::chunk::CHUNK_BYTES;
use crate::lent::{LentDown, LentUp};
use crate::signal::{Down, KeptDown, KeptUp, Up};
use std::marker::Model;

/// Writes bytes to the front; what stands behind them stays. Most signals have none.
pub fn put_bytes(slot: &mut [u8; CHUNK_BYTES], bytes: &[u8])
    requires { length bytes.now ≤ 256 }
    ensures { slot.new ≡ bytes.now ++ drop (length bytes.now) slot.old }
{
    match bytes {
        [] => {}
        [_, ..] => slot[..bytes.len()].copy_from_slice(bytes),
    }
}

/// A slot for a signal down: its numbers, and room for its bytes.
#[derive(Drop)]
pub struct DownSlot {
    kept: KeptDown,
    bytes: [u8; CHUNK_BYTES],
}

impl Model for DownSlot {
    ghost use Rattle.chan_model.specs.Signals.{Down, down_in};

    ghost Value = { Down };

    ghost view = { λ s. down_in s.kept s.bytes };
}

impl DownSlot {
    /// A slot, with a signal that no one sent.
    pub fn new() -> Self {
        DownSlot {
            kept: Down::Select { number: 0 },
            bytes: [0; CHUNK_BYTES],
        }
    }

    /// Writes a signal there.
    pub fn put(&mut self, signal: &LentDown<'_>)
        ensures { self.new ≡ lent_down signal.now }
    {
        self.kept = signal.keep();
        put_bytes(&mut self.bytes, signal.bytes());
    }

    /// The signal that stands there.
    pub fn lend(&self) -> LentDown<'_>
        ensures { lent_down result ≡ self.now }
    {
        let _ = self.kept.length();
        self.kept.lend(&self.bytes)
    }
}

/// A slot for a signal up.
#[derive(Drop)]
pub struct UpSlot {
    kept: KeptUp,
    bytes: [u8; CHUNK_BYTES],
}

impl Model for UpSlot {
    ghost use Rattle.chan_model.specs.Signals.{Up, up_in};

    ghost Value = { Up };

    ghost view = { λ s. up_in s.kept s.bytes };
}

impl UpSlot {
    /// A slot, with a signal that no one sent.
    pub fn new() -> Self {
        UpSlot {
            kept: Up::Accept { number: 0 },
            bytes: [0; CHUNK_BYTES],
        }
    }

    /// Writes a signal there.
    pub fn put(&mut self, signal: &LentUp<'_>)
        ensures { self.new ≡ lent_up signal.now }
    {
        self.kept = signal.keep();
        put_bytes(&mut self.bytes, signal.bytes());
    }

    /// The signal that stands there.
    pub fn lend(&self) -> LentUp<'_>
        ensures { lent_up result ≡ self.now }
    {
        let _ = self.kept.length();
        self.kept.lend(&self.bytes)
    }
}
