//! A line that waits until it is whole.

ghost use Rattle.std.specs.Prelude.{◌≡◌, ◌≤◌, ◌++◌, ◌∷◌, [], decimal, false, take};

use crate::number::{LineNumber, MOST_DIGITS};
use streams::Sink;

/// How many bytes there is room for.
const HELD_BYTES: usize = 640;

/// Up to 640 bytes, in a slot of their own. It fails where there are more: then it has a beginning of them. The number with which
/// the last line began is kept.
#[derive(Drop)]
pub struct Held {
    room: [u8; HELD_BYTES],
    length: usize,
    failed: bool,
    line: LineNumber,
    ghost fits: { length ≤ 640 },
}

impl Held {
    /// No bytes.
    pub fn new() -> Held
        ensures bytes { take result.length result.room ≡ [] }
        ensures failed { result.failed ≡ false }
    {
        Held {
            room: [0; HELD_BYTES],
            length: 0,
            failed: false,
            line: LineNumber::new(),
        }
    }

    /// Forgets what it held.
    pub fn clear(&mut self)
        ensures bytes { take self.new.length self.new.room ≡ [] }
        ensures failed { self.new.failed ≡ false }
    {
        self.length = 0;
        self.failed = false;
    }

    /// Forgets what it held, and holds the decimal digits of a line's number and a space.
    pub(crate) fn begin(&mut self, number: u64)
        ensures bytes { take self.new.length self.new.room ≡ decimal number ++ 32 ∷ [] }
        ensures failed { self.new.failed ≡ false }
    {
        self.line.set(number);
        let digits = self.line.digits;
        let count = self.line.count;
        self.room[0..MOST_DIGITS].copy_from_slice(&digits);
        self.room[count] = b' ';
        self.length = count + 1;
        self.failed = false;
    }

    /// The bytes.
    pub fn bytes(&self) -> &[u8]
        ensures { result.now ≡ take self.now.length self.now.room }
    {
        &self.room[..self.length]
    }
}

impl Sink for Held {
    ghost use Rattle.std.specs.Prelude.{Some, take};

    ghost seen = { λ h. record { bytes = Some (take h.length h.room); failed = h.failed } };

    fn put(&mut self, bytes: &[u8]) -> bool {
        if bytes.is_empty() {
            return true;
        }
        let length = self.length;
        if bytes.len() > HELD_BYTES - length {
            self.failed = true;
            return false;
        }
        let end = length + bytes.len();
        self.room[length..end].copy_from_slice(bytes);
        self.length = end;
        true
    }
}
