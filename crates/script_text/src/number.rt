//! The number of a line in decimal digits, which are counted up where they stand.

ghost use Rattle.std.specs.Prelude.{◌≡◌, ◌≤◌, ◌+◌, decimal, length, take, IsTrue};

use itoa::Buffer;

/// As many digits as a number has at most.
pub(crate) const MOST_DIGITS: usize = 20;

/// A number and its decimal digits, of which there are so many.
#[derive(Drop)]
pub(crate) struct LineNumber {
    number: u64,
    pub(crate) digits: [u8; MOST_DIGITS],
    pub(crate) count: usize,
    ghost some: { 1 ≤ count },
    ghost fits: { count ≤ 20 },
    ghost long: { length digits ≡ 20 },
    ghost told: { take count digits ≡ decimal number },
}

impl LineNumber {
    /// The number 0.
    pub(crate) fn new() -> Self {
        LineNumber {
            number: 0,
            digits: [b'0'; MOST_DIGITS],
            count: 1,
        }
    }

    /// It becomes this number.
    pub(crate) fn set(&mut self, number: u64)
        ensures { self.new.number ≡ number }
    {
        if !self.counts_up(number) {
            self.write(number);
        }
    }

    /// It becomes this number, where that is the next one and differs in its last digit or its last two.
    fn counts_up(&mut self, number: u64) -> bool
        ensures { IsTrue result → self.new.number ≡ number }
    {
        if number == 0 || self.number != number - 1 {
            return false;
        }
        let last = self.count - 1;
        let digit = self.digits[last];
        if digit >= b'9' {
            return self.carries(number);
        }
        self.digits[last] = digit + 1;
        self.number = number;
        true
    }

    /// It becomes this number, which is the next one, where its last digit is 9 and the one before is not.
    fn carries(&mut self, number: u64) -> bool
        requires { number ≡ self.old.number + 1 }
        ensures { IsTrue result → self.new.number ≡ number }
    {
        if self.count < 2 {
            return false;
        }
        let last = self.count - 1;
        let digit = self.digits[last - 1];
        if self.digits[last] != b'9' || digit >= b'9' {
            return false;
        }
        self.digits[last - 1] = digit + 1;
        self.digits[last] = b'0';
        self.number = number;
        true
    }

    /// Cold path: it becomes this number, whose digits are written anew.
    #[cold]
    #[inline(never)]
    fn write(&mut self, number: u64)
        ensures { self.new.number ≡ number }
    {
        let mut buffer = Buffer::new();
        let text = buffer.format(number).as_bytes();
        let mut digits = [b'0'; MOST_DIGITS];
        digits[..text.len()].copy_from_slice(text);
        *self = LineNumber {
            number,
            digits,
            count: text.len(),
        };
    }
}
