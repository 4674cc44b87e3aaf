//! A row of cells, of which no blank is the last character.

ghost use Rattle.std.specs.Prelude.{◌≡◌, ◌≤◌, ◌<◌, ◌+◌, ◌-◌, ◌++◌, ◌^◌, [], ◌∷◌, IsTrue, take};
ghost use Rattle.streams.specs.Sinks.{Puts};
ghost use Rattle.text_cells.specs.Characters as spec;

use crate::cell::Cell;
use streams::Sink;

/// How many blanks are put at once.
const BLANKS: usize = 64;

/// A text so many times, one after the other.
#[tactic(auto, using(crate::proofs::Rowing::repeated_none, crate::proofs::Rowing::repeated_goes_on, crate::proofs::Rowing::repeated_failed))]
pub fn put_times<S: Sink>(sink: &mut S, text: &[u8], times: usize) -> bool
    ensures { Puts (S.seen sink.old) (spec.repeated times text.now) (S.seen sink.new) result }
{
    let mut done = 0;
    while done < times {
        if !sink.put(text) {
            return false;
        }
        done += 1;
    }
    true
}

/// So many blanks, at once where they are few.
#[tactic(auto, using(crate::proofs::Rowing::repeated_none))]
fn put_blanks<S: Sink>(sink: &mut S, count: usize) -> bool
    ensures { Puts (S.seen sink.old) (spec.repeated count (32 ∷ [])) (S.seen sink.new) result }
{
    if count == 0 {
        return true;
    }
    if count > BLANKS {
        return put_times(sink, b" ", count);
    }
    let blanks = [b' '; BLANKS];
    sink.put(&blanks[..count])
}

/// A row that is written from the left. Blanks wait until something follows them.
#[derive(Drop)]
pub struct Row {
    blanks: usize,
}

impl Row {
    /// The beginning of a row.
    pub fn new() -> Row
        ensures { result.blanks ≡ 0 }
    {
        Row { blanks: 0 }
    }

    /// So many blanks.
    pub fn skip(&mut self, blanks: usize)
        ensures { self.old.blanks + blanks < 2 ^ 64 → self.new.blanks ≡ self.old.blanks + blanks }
    {
        self.blanks = self.blanks.saturating_add(blanks);
    }

    /// A text.
    #[tactic(auto, using(crate::proofs::Rowing::empty_text, crate::proofs::Rowing::some_text, crate::proofs::Rowing::some_left))]
    pub fn put<S: Sink>(&mut self, sink: &mut S, text: &[u8]) -> bool
        ensures text { Puts (S.seen sink.old) (spec.after_blanks self.old.blanks text.now) (S.seen sink.new) result }
        ensures blanks { self.new.blanks ≡ spec.still_waiting self.old.blanks text.now }
    {
        if text.is_empty() {
            return true;
        }
        let blanks = self.blanks;
        self.blanks = 0;
        put_after(sink, blanks, text)
    }

    /// A text so many times.
    pub fn put_times<S: Sink>(&mut self, sink: &mut S, text: &[u8], times: usize) -> bool {
        if times == 0 {
            return true;
        }
        self.put(sink, text) && put_times(sink, text, times - 1)
    }

    /// The text of a cell, with this mark where it was cut.
    pub fn put_cell<S: Sink>(&mut self, sink: &mut S, cell: &Cell, mark: &[u8]) -> bool
        ensures text { Puts (S.seen sink.old) (spec.after_blanks self.old.blanks (spec.shown cell.now.failed (take cell.now.length cell.now.room) mark.now)) (S.seen sink.new) result }
        ensures blanks { IsTrue result → self.new.blanks ≡ spec.still_waiting self.old.blanks (spec.shown cell.now.failed (take cell.now.length cell.now.room) mark.now) }
    {
        if !self.put(sink, cell.text()) {
            return false;
        }
        !cell.is_cut() || self.put(sink, mark)
    }

    /// The text of a cell, and blanks up to this width.
    pub fn put_left<S: Sink>(
        &mut self,
        sink: &mut S,
        cell: &Cell,
        width: usize,
        mark: &[u8],
    ) -> bool
        ensures text { Puts (S.seen sink.old) (spec.after_blanks self.old.blanks (spec.shown cell.now.failed (take cell.now.length cell.now.room) mark.now)) (S.seen sink.new) result }
        ensures blanks { IsTrue result → self.old.blanks + width < 2 ^ 64
            → self.new.blanks ≡ spec.still_waiting self.old.blanks (spec.shown cell.now.failed (take cell.now.length cell.now.room) mark.now) + (width - cell.now.characters) }
    {
        if !self.put_cell(sink, cell, mark) {
            return false;
        }
        self.skip(width.saturating_sub(cell.characters()));
        true
    }

    /// Blanks, and the text of a cell up to this width.
    pub fn put_right<S: Sink>(
        &mut self,
        sink: &mut S,
        cell: &Cell,
        width: usize,
        mark: &[u8],
    ) -> bool
        ensures text { self.old.blanks + width < 2 ^ 64
            → Puts (S.seen sink.old) (spec.after_blanks (self.old.blanks + (width - cell.now.characters)) (spec.shown cell.now.failed (take cell.now.length cell.now.room) mark.now)) (S.seen sink.new) result }
        ensures blanks { IsTrue result → self.old.blanks + width < 2 ^ 64
            → self.new.blanks ≡ spec.still_waiting (self.old.blanks + (width - cell.now.characters)) (spec.shown cell.now.failed (take cell.now.length cell.now.room) mark.now) }
    {
        self.skip(width.saturating_sub(cell.characters()));
        self.put_cell(sink, cell, mark)
    }

    /// The end of the row. Blanks that wait are left out.
    pub fn end<S: Sink>(self, sink: &mut S) -> bool
        ensures { Puts (S.seen sink.old) (10 ∷ []) (S.seen sink.new) result }
    {
        sink.put(b"\n")
    }
}

/// A text after so many blanks.
#[tactic(auto, using(streams::proofs::Sinking::takes_then, streams::proofs::Sinking::fails_then))]
fn put_after<S: Sink>(sink: &mut S, blanks: usize, text: &[u8]) -> bool
    ensures { Puts (S.seen sink.old) (spec.repeated blanks (32 ∷ []) ++ text.now) (S.seen sink.new) result }
{
    put_blanks(sink, blanks) && sink.put(text)
}
