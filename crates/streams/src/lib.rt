//! Reading all there is, and writing all there is, where a contract says what a failure leaves.
//! Of a reader or a writer no clause can say that it failed; of a `Source` or a `Sink` it can.
#![tactic(auto)]

pub mod gathered;

ghost use Rattle.streams.specs.Sinks.{Puts};
ghost use Rattle.streams.specs.declared.NoText.TheVariants as no_text;
ghost use Rattle.std.specs.Prelude.{Err, true, ◌≡◌, ◌≤◌, ◌++◌, false, take, length, IfOk, OnOk, IfSome, IfNone};
ghost use Rattle.std.specs.Io.KnownBytes.{Appends, IsAtEnd, Keeps};

use memory::{Allocator, Supply, extend};
use std::alloc::Global;
use std::io::{ErrorKind, Read, Write};

/// Why there is no text.
#[derive(Clone, Copy, Debug, PartialEq, Eq)]
pub enum NoText {
    /// There was no memory for it.
    OutOfMemory,
    /// The reader failed, other than by an interruption.
    ReadFailed,
}

/// All that the reader has left, in what room the allocator has.
pub fn read_all<R: Read>(alloc: Global, reader: &mut R) -> Result<Vec<u8>, NoText>
    ensures whole { IfOk result (λ text. IfSome (R.remaining reader.old) (λ bytes. text.items ≡ bytes)) }
    ensures end { OnOk result (IsAtEnd (R.remaining reader.new)) }
{
    read_all_with(alloc, &mut Allocator { refused: false }, reader)
}

/// All that the reader has left. An interrupted read is tried again; what was read before a
/// failure is lost. There is no memory only where the supply refused a growth.
pub fn read_all_with<R: Read, S: Supply>(
    alloc: Global,
    supply: &mut S,
    reader: &mut R,
) -> Result<Vec<u8>, NoText>
    ensures whole { IfOk result (λ text. IfSome (R.remaining reader.old) (λ bytes. text.items ≡ bytes)) }
    ensures end { OnOk result (IsAtEnd (R.remaining reader.new)) }
    ensures unrefused { OnOk result (S.refused supply.new ≡ S.refused supply.old) }
    ensures memory { result ≡ Err no_text.OutOfMemory → S.refused supply.new ≡ true }
{
    let mut text = Vec::new(alloc);
    let mut buffer = [0u8; 4096];
    for _ in 0..u64::MAX {
        match reader.read(&mut buffer) {
            Ok(0) => return Ok(text),
            Ok(n) => {
                if extend(supply, &mut text, &buffer[..n]).is_err() {
                    return Err(NoText::OutOfMemory);
                }
            }
            Err(e) => {
                if e.kind() != ErrorKind::Interrupted {
                    return Err(NoText::ReadFailed);
                }
            }
        }
    }
    Err(NoText::ReadFailed)
}

/// Where bytes go. It takes all of them, or it has failed, and that can be seen from then on.
pub trait Sink {
    ghost use Rattle.streams.specs.Sinks.{Seen};

    // What it holds, and whether it failed.
    ghost seen: { Self → Seen };

    /// Puts the bytes in, and answers whether all of them went in.
    fn put(&mut self, bytes: &[u8]) -> bool
        ensures { Puts (seen self.old) bytes.now (seen self.new) result };
}

/// A writer, and whether it failed.
#[derive(Drop)]
pub struct CheckedWriter<W: Write + Drop> {
    pub writer: W,
    /// The writer did not take all of a text.
    pub failed: bool,
}

impl<W: Write + Drop> CheckedWriter<W> {
    /// A writer that has not failed yet.
    pub fn new(writer: W) -> CheckedWriter<W>
        ensures writer { result.writer ≡ writer }
        ensures failed { result.failed ≡ false }
    {
        CheckedWriter {
            writer,
            failed: false,
        }
    }
}

impl<W: Write + Drop> Sink for CheckedWriter<W> {
    ghost seen = { λ w. record { bytes = W.contents w.writer; failed = w.failed } };

    #[inline(always)]
    fn put(&mut self, bytes: &[u8]) -> bool {
        if bytes.is_empty() {
            return true;
        }
        match put_some(&mut self.writer, bytes) {
            Some(n) => n >= bytes.len() || self.put_rest(&bytes[n..]),
            None => self.fail(),
        }
    }
}

impl<W: Write + Drop> CheckedWriter<W> {
    /// Writes what is left of a text: apart, as the writer takes most texts at once.
    #[cold]
    #[inline(never)]
    fn put_rest(&mut self, bytes: &[u8]) -> bool
        ensures { Puts (record { bytes = W.contents self.old.writer; failed = self.old.failed }) bytes.now
            (record { bytes = W.contents self.new.writer; failed = self.new.failed }) result }
    {
        if put_all(&mut self.writer, bytes) >= bytes.len() {
            return true;
        }
        self.failed = true;
        false
    }

    /// The writer took nothing of a text.
    #[cold]
    #[inline(never)]
    fn fail(&mut self) -> bool
        ensures result { result ≡ false }
        ensures failed { self.new ≡ record self.old { failed = true } }
    {
        self.failed = true;
        false
    }
}

/// Writes the bytes, and answers how many of them were taken before the writer failed: all of them
/// where it did not. An interrupted write is tried again; a writer that takes nothing has failed.
pub fn put_all<W: Write>(writer: &mut W, bytes: &[u8]) -> usize
    ensures bound { result ≤ length bytes.now }
    ensures written { Appends (W.contents writer.old) (W.contents writer.new) (take result bytes.now) }
{
    let mut done = 0;
    for _ in 0..u64::MAX {
        if done >= bytes.len() {
            return done;
        }
        match put_some(writer, &bytes[done..]) {
            Some(n) => done += n,
            None => return done,
        }
    }
    done
}

/// Writes some of the bytes, and answers how many, which are none where the write was interrupted;
/// nothing where the writer fails.
#[tactic(auto, using(crate::proofs::Putting::put_none))]
#[inline(always)]
fn put_some<W: Write>(writer: &mut W, bytes: &[u8]) -> Option<usize>
    ensures some { IfSome result (λ n. (n ≤ length bytes.now) × Appends (W.contents writer.old) (W.contents writer.new) (take n bytes.now)) }
    ensures none { IfNone result (Keeps (W.contents writer.old) (W.contents writer.new)) }
{
    match writer.write(bytes) {
        Ok(0) => None,
        Ok(n) => Some(n),
        Err(e) => {
            if e.kind() == ErrorKind::Interrupted {
                Some(0)
            } else {
                None
            }
        }
    }
}

/// Puts two texts in, one after the other.
#[tactic(auto, using(crate::proofs::Sinking::takes_then, crate::proofs::Sinking::fails_then))]
pub fn put_both<S: Sink>(sink: &mut S, first: &[u8], second: &[u8]) -> bool
    ensures { Puts (S.seen sink.old) (first.now ++ second.now) (S.seen sink.new) result }
{
    if !sink.put(first) {
        return false;
    }
    sink.put(second)
}

/// Where a text comes from. That it failed can be seen from then on.
pub trait Source {
    ghost use Rattle.std.specs.Prelude.{ℕ, Bool, List, Option};

    // What is left of it, where that is known.
    ghost left: { Self → Option (List ℕ) };

    // It failed.
    ghost broken: { Self → Bool };

    /// All that is left, in what room the allocator has.
    fn all(&mut self, alloc: Global) -> Result<Vec<u8>, NoText>
        ensures whole { IfOk result (λ text. IfSome (left self.old) (λ bytes. text.items ≡ bytes)) }
        ensures kept { OnOk result (broken self.new ≡ broken self.old) }
        ensures failed { result ≡ Err no_text.ReadFailed → broken self.new ≡ true };

    /// All that is left. There is no memory only where the supply refused a growth.
    fn all_with<S: Supply>(&mut self, alloc: Global, supply: &mut S) -> Result<Vec<u8>, NoText>
    where
        Self: Sized,
        ensures whole { IfOk result (λ text. IfSome (left self.old) (λ bytes. text.items ≡ bytes)) }
        ensures kept { OnOk result (broken self.new ≡ broken self.old) }
        ensures failed { result ≡ Err no_text.ReadFailed → broken self.new ≡ true }
        ensures unrefused { OnOk result (S.refused supply.new ≡ S.refused supply.old) }
        ensures memory { result ≡ Err no_text.OutOfMemory → S.refused supply.new ≡ true };
}

/// A reader, and whether it failed.
#[derive(Drop)]
pub struct CheckedReader<R: Read + Drop> {
    pub reader: R,
    /// The reader failed.
    pub broken: bool,
}

impl<R: Read + Drop> CheckedReader<R> {
    /// A reader that has not failed yet.
    pub fn new(reader: R) -> CheckedReader<R>
        ensures reader { result.reader ≡ reader }
        ensures broken { result.broken ≡ false }
    {
        CheckedReader {
            reader,
            broken: false,
        }
    }
}

impl<R: Read + Drop> Source for CheckedReader<R> {
    ghost left = { λ h. R.remaining h.reader };

    ghost broken = { λ h. h.broken };

    fn all(&mut self, alloc: Global) -> Result<Vec<u8>, NoText> {
        self.all_with(alloc, &mut Allocator { refused: false })
    }

    fn all_with<S: Supply>(&mut self, alloc: Global, supply: &mut S) -> Result<Vec<u8>, NoText> {
        let read = read_all_with(alloc, supply, &mut self.reader);
        if let Err(NoText::ReadFailed) = &read {
            self.broken = true;
        }
        read
    }
}
