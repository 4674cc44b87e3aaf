//! The text of one cell.

ghost use Rattle.std.specs.Prelude.{◌≡◌, ◌⊎◌, false, ◌≤◌, ◌<◌, [], ◌∷◌, Some, take, length};
ghost use Rattle.text_cells.specs.Characters as spec;
ghost use Rattle.streams.specs.Sinks.{Puts};

use streams::Sink;

/// How many bytes a cell has room for: a chunk of 256 bytes in digits, or a line of a script, and some words.
pub const CELL_BYTES: usize = 1280;

/// Whether a byte begins a character of UTF-8.
fn begins(byte: u8) -> bool
    ensures { result ≡ spec.begins byte }
{
    byte / 0x40 != 2
}

/// The text of one cell, which has so many characters at most. It fails where more are put into it, and has a beginning
/// of them then.
#[derive(Drop)]
pub struct Cell {
    room: [u8; CELL_BYTES],
    length: usize,
    characters: usize,
    limit: usize,
    failed: bool,
    ghost fits: { length ≤ 1280 },
    ghost counted: { characters ≡ spec.characters (take length room) },
    ghost narrow: { characters ≤ limit },
}

impl Cell {
    /// No text, and so many characters at most.
    pub fn new(limit: usize) -> Cell
        ensures text { take result.length result.room ≡ [] }
        ensures limit { result.limit ≡ limit }
    {
        Cell {
            room: [0; CELL_BYTES],
            length: 0,
            characters: 0,
            limit,
            failed: false,
        }
    }

    /// How many characters it has.
    pub fn characters(&self) -> usize
        ensures value { result ≡ spec.characters (take self.now.length self.now.room) }
        ensures bound { result ≤ self.now.limit }
    {
        self.characters
    }

    /// Whether more was put into it than it holds, so that a mark is to stand for the last of its characters.
    pub fn is_cut(&self) -> bool
        ensures { result ≡ spec.is_cut self.now.failed (take self.now.length self.now.room) }
    {
        self.failed && self.characters != 0
    }

    /// Its text: where it was cut, without the last of its characters, in whose place a mark is to stand.
    pub fn text(&self) -> &[u8]
        ensures { result.now ≡ spec.shown self.now.failed (take self.now.length self.now.room) [] }
    {
        let text = &self.room[..self.length];
        if self.is_cut() {
            &text[..last_begin(text)]
        } else {
            text
        }
    }

    /// One byte more, where there is room for it.
    fn push(&mut self, byte: u8) -> bool
        ensures text { Puts (record { bytes = Some (take self.old.length self.old.room); failed = self.old.failed }) (byte ∷ [])
            (record { bytes = Some (take self.new.length self.new.room); failed = self.new.failed }) result }
        ensures full { result ≡ false → (self.new.limit ≤ self.new.characters) ⊎ (1280 ≤ self.new.length) }
        ensures limit { self.new.limit ≡ self.old.limit }
    {
        let begun = usize::from(begins(byte));
        if self.length >= CELL_BYTES || begun > self.limit.saturating_sub(self.characters) {
            self.failed = true;
            return false;
        }
        self.room[self.length] = byte;
        self.length += 1;
        self.characters = self.characters.saturating_add(begun);
        true
    }
}

/// Where the last character of a text begins; 0 where there is none.
fn last_begin(text: &[u8]) -> usize
    ensures bound { result ≤ length text.now }
    ensures value { result ≡ spec.last_begin text.now }
{
    let mut end = text.len();
    while end > 0 {
        end -= 1;
        if begins(text[end]) {
            return end;
        }
    }
    0
}

impl Sink for Cell {
    ghost use Rattle.std.specs.Prelude.{Some, take};

    ghost seen = { λ c. record { bytes = Some (take c.length c.room); failed = c.failed } };

    fn put(&mut self, bytes: &[u8]) -> bool
        ensures text { Puts (record { bytes = Some (take self.old.length self.old.room); failed = self.old.failed }) bytes.now
            (record { bytes = Some (take self.new.length self.new.room); failed = self.new.failed }) result }
        ensures full { result ≡ false → (self.new.limit ≤ self.new.characters) ⊎ (1280 ≤ self.new.length) }
        ensures limit { self.new.limit ≡ self.old.limit }
    {
        for byte in bytes {
            if !self.push(*byte) {
                return false;
            }
        }
        true
    }
}
