//! Signals: the same again.

ghost use Rattle.std.specs.Prelude.{◌≡◌};

use crate::record::Signal;

impl Signal {
    /// The same signal; it takes no memory.
    pub fn copy(&self) -> Signal
        ensures { result ≡ self.now }
    {
        match self {
            Signal::Down(signal) => Signal::Down(signal.copy()),
            Signal::Up(signal) => Signal::Up(signal.copy()),
        }
    }
}
