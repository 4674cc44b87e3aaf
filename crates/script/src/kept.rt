//! Lines as they are kept: their numbers, and how many bytes stand beside them.

ghost use Rattle.std.specs.Prelude.{◌≡◌, ◌≤◌, ◌<◌, ◌++◌, ◌∷◌, [], ℕ, List, length, vec_len, vec_capacity};
ghost use Rattle.script.specs.Keeping as spec;
ghost use Rattle.script_rows.specs.Slots.{action_length};

use crate::Line;
use script_rows::slots::KeptAction;

/// A line: the bytes of its action stand from `start` on.
#[derive(Clone, Copy)]
pub struct KeptLine {
    pub action: KeptAction,
    pub number: u64,
    pub start: usize,
}

impl KeptLine {
    /// Its bytes, which stand from its start on.
    pub fn bytes<'a>(&self, arena: &'a [u8]) -> &'a [u8]
        requires { spec.Fits (length arena.now) self.now }
        ensures line { spec.line_in self.now result.now ≡ spec.line_at arena.now self.now }
        ensures length { length result.now ≡ action_length self.now.action }
    {
        let bytes = &arena[self.start..];
        &bytes[..self.action.length()]
    }

    /// The line whose bytes stand from its start on.
    pub fn at(&self, arena: &[u8]) -> Line
        requires { spec.Fits (length arena.now) self.now }
        ensures { result ≡ spec.line_at arena.now self.now }
    {
        let bytes = &arena[self.start..];
        Line {
            number: self.number,
            action: self.action.with(&bytes[..self.action.length()]),
        }
    }
}

/// Adds a line, for which there is room.
pub fn push(kept: &mut Vec<KeptLine>, number: u64, start: usize, action: KeptAction)
    requires { vec_len kept.old < vec_capacity kept.old }
    ensures { kept.new.items ≡ kept.old.items ++ record { number = number; start = start; action = action } ∷ [] }
{
    kept.push_reserved(KeptLine {
        action,
        number,
        start,
    });
}

const _: () = prove!(size_of::<KeptLine>() == 64);
