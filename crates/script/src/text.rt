//! Lines where they stand in a text.

ghost use Rattle.std.specs.Prelude.{◌≡◌, ◌∷◌, [], MatchOption, OnOk, OnErr, map, true};
ghost use Rattle.std.specs.List.{list_any};
ghost use Rattle.script.specs.Pieces.{lines_of, words_between_blanks};
ghost use Rattle.script.specs.Parsing.{has_words as words_stand};

use crate::pieces::{STEP, find, marked_words_to, marks, short_pieces_to};
use crate::readable::has_words;
use memory::Supply;
use std::alloc::AllocError;
use std::marker::Model;

/// A line, and those that follow it: the text from its first byte on, and how many bytes it has.
#[derive(Drop)]
pub struct TextLine<'a> {
    text: &'a [u8],
    length: usize,
}

impl<'a> Model for TextLine<'a> {
    ghost use Rattle.std.specs.Prelude.{take};
    ghost use Rattle.script.specs.Following.{LineSeen, later_lines, IsFirst};

    ghost Value = { LineSeen };

    ghost view = { λ l. record { line = take l.length l.text.now; later = later_lines l.text.now } };

    ghost invariant = { λ l. IsFirst l.text.now l.length };
}

impl<'a> TextLine<'a> {
    /// The first line of a text.
    pub fn first(text: &'a [u8]) -> Self
        ensures { lines_of text.now ≡ result.line ∷ result.later }
    {
        TextLine {
            text,
            length: find(text, b'\n'),
        }
    }

    /// Its bytes, without its line feed.
    pub fn bytes(&self) -> &'a [u8]
        ensures { result.now ≡ self.now.line }
    {
        &self.text[..self.length]
    }

    /// The text of the lines that follow; None where there are none.
    pub fn rest(&self) -> Option<&'a [u8]>
        ensures { MatchOption result (self.now.later ≡ []) (λ rest. self.now.later ≡ lines_of rest.now) }
    {
        match &self.text[self.length..] {
            [] => None,
            [_, rest @ ..] => Some(rest),
        }
    }

    /// The text of the lines that follow, which is empty where there are none.
    pub fn later(&self) -> &'a [u8]
        ensures { list_any words_stand (lines_of result.now) ≡ list_any words_stand self.now.later }
    {
        match self.rest() {
            None => &self.text[..0],
            Some(rest) => rest,
        }
    }

    /// Its words, in a list that held others: where it has the room, none is asked for.
    pub fn words_to<S: Supply>(
        &self,
        supply: &mut S,
        found: &mut Vec<&'a [u8]>,
    ) -> Result<(), AllocError>
        ensures parts { OnOk result (map (λ p. p.now) found.new.items ≡ words_between_blanks self.now.line) }
        ensures unrefused { OnOk result (S.refused supply.new ≡ S.refused supply.old) }
        ensures memory { OnErr result (S.refused supply.new ≡ true) }
    {
        if STEP <= self.length || self.text.len() < STEP {
            return short_pieces_to(supply, found, self.bytes(), b' ');
        }
        let blanks = marks(self.text, 0, b' ') % (1 << self.length);
        marked_words_to(supply, found, self.bytes(), blanks)
    }
}

/// Whether some line of a text has words.
pub fn some_have_words(text: &[u8]) -> bool
    ensures { result ≡ list_any words_stand (lines_of text.now) }
{
    let mut rest = text;
    'lines: loop {
        let line = TextLine::first(rest);
        if has_words(line.bytes()) {
            return true;
        }
        match line.rest() {
            None => return false,
            Some(later) => rest = later,
        }
    }
}
