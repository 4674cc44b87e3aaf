//! How long a text is that is never written.

ghost use Rattle.std.specs.Prelude.{None, false};

use streams::Sink;

/// A sink that only counts.
#[derive(Drop)]
pub struct Measured {
    pub bytes: u64,
}

impl Measured {
    /// Nothing so far.
    pub fn new() -> Measured {
        Measured { bytes: 0 }
    }
}

impl Sink for Measured {
    ghost seen = { λ _. record { bytes = None; failed = false } };

    fn put(&mut self, bytes: &[u8]) -> bool {
        self.bytes = self.bytes.saturating_add(bytes.len() as u64);
        true
    }
}
