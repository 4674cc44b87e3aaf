//! The text of a script, line by line.

ghost use Rattle.std.specs.Prelude.{◌≡◌, ◌≤◌, IfOk, OnOk, OnErr, length, true};
ghost use Rattle.step_records.specs.Lines as spec;

use memory::{Supply, push};
use std::alloc::{AllocError, Global};

/// The text of a script, and where each of its lines begins.
#[derive(Drop)]
pub struct ScriptLines {
    text: Vec<u8>,
    starts: Vec<usize>,
}

/// Where the lines of a text begin.
fn starts_of<S: Supply>(
    alloc: Global,
    supply: &mut S,
    text: &[u8],
) -> Result<Vec<usize>, AllocError>
    ensures unrefused { OnOk result (S.refused supply.new ≡ S.refused supply.old) }
    ensures memory { OnErr result (S.refused supply.new ≡ true) }
{
    let mut starts = Vec::new(alloc);
    push(supply, &mut starts, 0usize)?;
    for index in 0..text.len() {
        if text[index] == b'\n' {
            push(supply, &mut starts, index + 1)?;
        }
    }
    Ok(starts)
}

impl ScriptLines {
    /// The lines of a text. There is no memory only where the supply refused a growth.
    pub fn of<S: Supply>(
        alloc: Global,
        supply: &mut S,
        text: Vec<u8>,
    ) -> Result<ScriptLines, AllocError>
        ensures text { IfOk result (λ lines. lines.text.items ≡ text.items) }
        ensures unrefused { OnOk result (S.refused supply.new ≡ S.refused supply.old) }
        ensures memory { OnErr result (S.refused supply.new ≡ true) }
    {
        let starts = starts_of(alloc, supply, text.as_slice())?;
        Ok(ScriptLines { text, starts })
    }

    /// The whole text.
    pub fn text(&self) -> &[u8]
        ensures { result.now ≡ self.now.text.items }
    {
        self.text.as_slice()
    }

    /// The line of this number, from 1, without its line end; empty where there is none.
    #[tactic(auto, unfolding(crate::specs::Lines::line_of))]
    pub fn line(&self, number: u64) -> &[u8]
        ensures { result.now ≡ spec.line_of self.now number }
    {
        if number == 0 {
            &[]
        } else if number > self.starts.len() as u64 {
            &[]
        } else {
            line_from(self.text.as_slice(), self.starts[number as usize - 1])
        }
    }

    /// How many lines there are.
    pub fn count(&self) -> u64 {
        self.starts.len() as u64
    }
}

/// What stands before the first line feed from this byte on.
fn line_from(text: &[u8], start: usize) -> &[u8]
    ensures { result.now ≡ spec.line_from text.now start }
{
    if start > text.len() {
        return &[];
    }
    let rest = &text[start..];
    &rest[..bytes_before(rest, b'\n')]
}

/// How many bytes stand before the first that is this separator.
pub fn bytes_before(bytes: &[u8], separator: u8) -> usize
    ensures value { result ≡ spec.bytes_before separator bytes.now }
    ensures within { result ≤ length bytes.now }
{
    for (index, byte) in bytes.iter().enumerate() {
        if *byte == separator {
            return index;
        }
    }
    bytes.len()
}
