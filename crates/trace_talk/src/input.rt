//! Where the lines of a talk come from: those that were kept, and then those that are read.

use script::text::TextLine;
use std::alloc::{AllocError, Global};
use std::io::BufRead;
use trace_runs::TraceFault;

/// What came.
#[derive(Clone, Copy, PartialEq, Eq)]
pub(crate) enum Came {
    /// A line that was performed before.
    Kept,
    /// A line that was read.
    Read,
    /// No line.
    Ended,
    /// The reader failed.
    Unread,
}

/// Lines that were kept, of which so many bytes came again, and a reader of further ones.
#[derive(Drop)]
pub(crate) struct Input<R: BufRead + Drop> {
    reader: R,
    kept: Vec<u8>,
    at: usize,
}

/// Adds bytes.
fn add(list: &mut Vec<u8>, bytes: &[u8]) -> Result<(), TraceFault> {
    match list.extend_from_slice(bytes) {
        Ok(()) => Ok(()),
        Err(_) => Err(TraceFault::NoMemory),
    }
}

/// The last of the lines of a text, whose last byte is a line feed.
fn last_line(text: &[u8]) -> &[u8] {
    let mut last: &[u8] = &[];
    let [lines @ .., _] = text else {
        return last;
    };
    for line in lines.split(|byte| *byte == b'\n') {
        last = line;
    }
    last
}

impl<R: BufRead + Drop> Input<R> {
    /// Nothing is kept.
    pub(crate) fn new(alloc: Global, reader: R) -> Self {
        Input {
            reader,
            kept: Vec::new(alloc),
            at: 0,
        }
    }

    /// Writes the next line into a list, without its line feed.
    pub(crate) fn next(&mut self, line: &mut Vec<u8>) -> Result<Came, TraceFault> {
        line.clear();
        if self.at < self.kept.len() {
            let first = TextLine::first(&self.kept.as_slice()[self.at..]).bytes();
            add(line, first)?;
            self.at = self.kept.len().min(self.at + first.len() + 1);
            return Ok(Came::Kept);
        }
        match self.reader.read_until(b'\n', line) {
            Err(_) => Ok(Came::Unread),
            Ok(0) => Ok(Came::Ended),
            Ok(_) => {
                if line.ends_with(b"\n") {
                    line.truncate(line.len() - 1);
                }
                Ok(Came::Read)
            }
        }
    }

    /// Keeps a line, which has no line feed.
    pub(crate) fn keep(&mut self, line: &[u8]) -> Result<(), TraceFault> {
        add(&mut self.kept, line)?;
        add(&mut self.kept, b"\n")?;
        self.at = self.kept.len();
        Ok(())
    }

    /// Forgets the line that was kept last, and begins again with the first; it is written into a list. False where none is kept.
    pub(crate) fn take_back(&mut self, line: &mut Vec<u8>) -> Result<bool, TraceFault> {
        line.clear();
        if self.kept.is_empty() {
            return Ok(false);
        }
        add(line, last_line(self.kept.as_slice()))?;
        let left = self.kept.len().saturating_sub(line.len() + 1);
        self.kept.truncate(left);
        self.at = 0;
        Ok(true)
    }
}
