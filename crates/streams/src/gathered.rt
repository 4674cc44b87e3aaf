//! What is written, gathered until there is much of it.

ghost use Rattle.std.specs.Prelude.{◌≡◌, ◌≤◌, ◌<◌, ◌+◌, [], true, false, take, length};
ghost use Rattle.std.specs.Io.KnownBytes.{Keeps};
ghost use Rattle.streams.specs.Sinks.{Puts, TakesText};
ghost use Rattle.streams.specs.Gathering.{held, seen_of};

use crate::{Sink, put_all};
use std::io::Write;

/// How many bytes are gathered at most.
const ROOM: usize = 8192;

/// A writer that is given nothing until much was put: what is put is gathered in a room of its own, and is passed on when more does
/// not fit there, at the end, and where all is dropped. What the writer does not take stays gathered, and a writer that failed is
/// given nothing more.
pub struct Gathered<W: Write + Drop> {
    writer: W,
    room: [u8; ROOM],
    length: usize,
    failed: bool,
    ghost fits: { length ≤ 8192 },
}

impl<W: Write + Drop> Gathered<W> {
    /// Nothing is gathered, and the writer has not failed yet.
    pub fn new(writer: W) -> Gathered<W>
        ensures writer { result.writer ≡ writer }
        ensures nothing { take result.length result.room ≡ [] }
        ensures failed { result.failed ≡ false }
    {
        Gathered {
            writer,
            room: [0; ROOM],
            length: 0,
            failed: false,
        }
    }

    /// Gathers a text that fits.
    #[inline(always)]
    fn gather(&mut self, bytes: &[u8])
        requires { self.old.length + length bytes.now ≤ 8192 }
        ensures { TakesText (seen_of (W.contents self.old.writer) self.old.length self.old.room self.old.failed) bytes.now
            (seen_of (W.contents self.new.writer) self.new.length self.new.room self.new.failed) }
    {
        let length = self.length;
        let end = length + bytes.len();
        self.room[length..end].copy_from_slice(bytes);
        self.length = end;
    }

    /// Passes on what is gathered, to a writer that has not failed. What it does not take stays.
    fn pass_on(&mut self) -> bool
        ensures kept { Keeps (held (W.contents self.old.writer) self.old.length self.old.room) (held (W.contents self.new.writer) self.new.length self.new.room) }
        ensures nothing { result ≡ true → self.new.length ≡ 0 }
        ensures whole { result ≡ true → self.old.failed ≡ false }
        ensures well { result ≡ true → self.new.failed ≡ false }
        ensures failed { result ≡ false → self.new.failed ≡ true }
        ensures writer { self.old.failed ≡ true → self.new ≡ self.old }
    {
        if self.failed {
            return false;
        }
        let length = self.length;
        let taken = put_all(&mut self.writer, &self.room[..length]);
        if taken >= length {
            self.length = 0;
            return true;
        }
        self.room[..].copy_within(taken..length, 0);
        self.length = length - taken;
        self.failed = true;
        false
    }

    /// Passes on a text where nothing is gathered.
    fn pass_through(&mut self, bytes: &[u8]) -> bool
        requires { self.old.length ≡ 0 }
        ensures { Puts (seen_of (W.contents self.old.writer) self.old.length self.old.room self.old.failed) bytes.now
            (seen_of (W.contents self.new.writer) self.new.length self.new.room self.new.failed) result }
    {
        if put_all(&mut self.writer, bytes) >= bytes.len() {
            return true;
        }
        self.failed = true;
        false
    }

    /// Puts a text that does not fit beside what is gathered: apart, as most texts do.
    #[cold]
    #[inline(never)]
    fn put_apart(&mut self, bytes: &[u8]) -> bool
        requires { 0 < length bytes.now }
        ensures { Puts (seen_of (W.contents self.old.writer) self.old.length self.old.room self.old.failed) bytes.now
            (seen_of (W.contents self.new.writer) self.new.length self.new.room self.new.failed) result }
    {
        if !self.pass_on() {
            return false;
        }
        if bytes.len() > ROOM {
            return self.pass_through(bytes);
        }
        self.gather(bytes);
        true
    }

    /// Passes on what is gathered, and answers whether all that was put is written. Where it is not, the writer has failed.
    pub fn finish(&mut self) -> bool
        ensures kept { Keeps (held (W.contents self.old.writer) self.old.length self.old.room) (held (W.contents self.new.writer) self.new.length self.new.room) }
        ensures nothing { result ≡ true → self.new.length ≡ 0 }
        ensures whole { result ≡ true → self.old.failed ≡ false }
        ensures well { result ≡ true → self.new.failed ≡ false }
        ensures failed { result ≡ false → self.new.failed ≡ true }
        ensures writer { self.old.failed ≡ true → self.new ≡ self.old }
    {
        if !self.pass_on() {
            return false;
        }
        if self.writer.flush().is_ok() {
            return true;
        }
        self.failed = true;
        false
    }
}

impl<W: Write + Drop> Sink for Gathered<W> {
    ghost use Rattle.streams.specs.Gathering.{seen_of};

    ghost seen = { λ g. seen_of (W.contents g.writer) g.length g.room g.failed };

    #[inline(always)]
    fn put(&mut self, bytes: &[u8]) -> bool {
        if bytes.len() > ROOM - self.length {
            return self.put_apart(bytes);
        }
        self.gather(bytes);
        true
    }
}

impl<W: Write + Drop> Drop for Gathered<W> {
    fn drop(mut self) {
        let _ = self.pass_on();
        let Gathered {
            writer: _writer,
            room: _,
            length: _,
            failed: _,
        } = self;
    }
}
