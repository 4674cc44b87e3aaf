//! The lines of a script, packed over one arena of their bytes.

ghost use Rattle.std.specs.Prelude.{◌≡◌, ◌≤◌, ◌++◌, ◌∷◌, [], true, IfOk, IfSome, MatchOption, Some, None, OnOk, OnErr, length, slice_get, vec_capacity};
ghost use Rattle.script_rows.specs.Slots.{action_at, action_in, action_length};

use crate::Line;
use crate::kept::{KeptLine, push};
use memory::{Supply, extend, make_room};
use script_rows::slots::{ActionSlot, KeptAction};
use std::alloc::{AllocError, Global};
use std::marker::Model;

/// A line with its action, whose bytes stand beside it.
#[derive(Drop)]
pub struct LentLine<'a> {
    pub number: u64,
    pub action: &'a KeptAction,
    pub bytes: &'a [u8],
}

/// Lines in order. Each takes 56 bytes and those of its event.
#[derive(Drop)]
pub struct Lines {
    kept: Vec<KeptLine>,
    bytes: Vec<u8>,
}

impl Model for Lines {
    ghost use Rattle.std.specs.Prelude.{List};
    ghost use Rattle.script.specs.declared.Line.{Line};
    ghost use Rattle.script.specs.Keeping.{AllFit, lines_at};

    ghost Value = { List Line };

    ghost view = { λ l. lines_at l.bytes.items l.kept.items };

    ghost invariant = { λ l. AllFit l.bytes.items l.kept.items };
}

/// These bytes more; none, of which most lines are, take no room.
fn add_bytes<S: Supply>(supply: &mut S, list: &mut Vec<u8>, bytes: &[u8]) -> Result<(), AllocError>
    requires { length bytes.now ≤ 256 }
    ensures added { OnOk result (list.new.items ≡ list.old.items ++ bytes.now) }
    ensures kept { OnErr result (list.new.items ≡ list.old.items) }
    ensures unrefused { OnOk result (S.refused supply.new ≡ S.refused supply.old) }
    ensures memory { OnErr result (S.refused supply.new ≡ true) }
{
    match bytes {
        [] => Ok(()),
        [_, ..] => extend(supply, list, bytes),
    }
}

/// Room for so many lines, of which there are none.
fn indices<S: Supply>(
    alloc: Global,
    supply: &mut S,
    count: usize,
) -> Result<Vec<KeptLine>, AllocError>
    ensures none { IfOk result (λ kept. kept.items ≡ []) }
    ensures room { IfOk result (λ kept. count ≤ vec_capacity kept) }
    ensures unrefused { OnOk result (S.refused supply.new ≡ S.refused supply.old) }
    ensures memory { OnErr result (S.refused supply.new ≡ true) }
{
    let mut kept = Vec::new(alloc);
    make_room(supply, &mut kept, count)?;
    Ok(kept)
}

impl Lines {
    /// No lines, with room for so many; that of their bytes is not made.
    pub fn with_room<S: Supply>(
        alloc: Global,
        supply: &mut S,
        count: usize,
    ) -> Result<Self, AllocError>
        ensures made { IfOk result (λ l. l ≡ []) }
        ensures unrefused { OnOk result (S.refused supply.new ≡ S.refused supply.old) }
        ensures memory { OnErr result (S.refused supply.new ≡ true) }
    {
        Ok(Lines {
            kept: indices(alloc, supply, count)?,
            bytes: Vec::new(alloc),
        })
    }

    /// How many lines there are.
    pub fn len(&self) -> usize
        ensures { result ≡ length self.now }
    {
        self.kept.len()
    }

    /// The line at this index, from 0; None where there is none.
    pub fn get(&self, index: usize) -> Option<Line>
        ensures { result ≡ slice_get self.now index }
    {
        match self.kept.as_slice().get(index) {
            None => None,
            Some(kept) => Some(kept.at(self.bytes.as_slice())),
        }
    }

    /// The line at this index; None where there is none.
    #[inline(always)]
    pub fn kept(&self, index: usize) -> Option<LentLine<'_>>
        ensures line { MatchOption result (slice_get self.now index ≡ None)
            (λ k. slice_get self.now index ≡ Some (record { number = k.number; action = action_in k.action.now k.bytes.now })) }
        ensures length { IfSome result (λ k. action_length k.action.now ≤ length k.bytes.now) }
    {
        match self.kept.as_slice().get(index) {
            None => None,
            Some(kept) => Some(LentLine {
                number: kept.number,
                action: &kept.action,
                bytes: kept.bytes(self.bytes.as_slice()),
            }),
        }
    }

    /// Adds a line with the action that stands in a slot. Where the growth is refused the lines stay as they were.
    #[inline(always)]
    pub fn add<S: Supply>(
        &mut self,
        supply: &mut S,
        number: u64,
        slot: &ActionSlot,
    ) -> Result<(), AllocError>
        ensures added { OnOk result (self.new ≡ self.old ++ record { number = number; action = action_at slot.now } ∷ []) }
        ensures kept { OnErr result (self.new ≡ self.old) }
        ensures unrefused { OnOk result (S.refused supply.new ≡ S.refused supply.old) }
        ensures memory { OnErr result (S.refused supply.new ≡ true) }
    {
        supply.reserve(&mut self.kept, 1)?;
        let start = self.bytes.len();
        add_bytes(supply, &mut self.bytes, slot.bytes())?;
        push(&mut self.kept, number, start, slot.kept);
        Ok(())
    }
}
