//! All bad lines of a text.

ghost use Rattle.std.specs.Prelude.{◌≡◌, ◌++◌, ℕ, [], true, false, Some, IfOk, OnOk, OnErr, map};
ghost use Rattle.std.specs.List.{list_any};
ghost use Rattle.script.specs.Parsing.{has_words as words_stand};
ghost use Rattle.script.specs.Pieces.{lines_of};
ghost use Rattle.script.specs.Scripts.{IsBad, IsScript, ScriptContents};
ghost use Rattle.script_rows.specs.declared.words.LineRule.{LineRule};
ghost use Rattle.line_reasons.specs.Verdicts.{after, unchecked};
ghost use Rattle.line_reasons.specs.Telling as spec;

use crate::checker::{Checker, Checking};
use line_faults::reason::{BadLine, FirstReason, Reason};
use memory::{Supply, push};
use script::text::{TextLine, some_have_words};
use std::alloc::{AllocError, Global};

/// The bad lines of a text so far.
#[derive(Drop)]
pub struct Walk<'a> {
    checker: Checker,
    found: Vec<BadLine<'a>>,
    some_words: bool,
}

/// What is told of the line of this number; where no line of the text has words, the first is bad for that.
fn told_of<'a>(
    some_words: bool,
    number: u64,
    line: &'a [u8],
    told: Option<BadLine<'a>>,
) -> Option<BadLine<'a>>
    requires { spec.AreNumbered number told }
    ensures numbered { spec.AreNumbered number result }
    ensures rule { spec.rule_in result ≡ spec.or_wordless some_words number (spec.rule_in told.entry) }
{
    if some_words || number != 1 {
        return told;
    }
    Some(BadLine {
        number,
        line,
        word: None,
        reason: Reason::StorageNotFirst(FirstReason::NoWords),
    })
}

/// One bad line more, where there is one.
fn keep<'a, S: Supply>(
    supply: &mut S,
    found: &mut Vec<BadLine<'a>>,
    told: Option<BadLine<'a>>,
) -> Result<(), AllocError>
    ensures kept { OnOk result (map spec.told_as found.new.items ≡ map spec.told_as found.old.items ++ spec.told_list told.entry) }
    ensures unrefused { OnOk result (S.refused supply.new ≡ S.refused supply.old) }
    ensures memory { OnErr result (S.refused supply.new ≡ true) }
{
    match told {
        None => Ok(()),
        Some(bad) => push(supply, found, bad),
    }
}

impl<'a> Walk<'a> {
    /// No line was checked.
    fn new(alloc: Global, text: &[u8]) -> Self
        ensures checker { result.checker ≡ unchecked Checking.Text }
        ensures found { result.found.items ≡ [] }
        ensures words { result.some_words ≡ list_any words_stand (lines_of text.now) }
    {
        Walk {
            checker: Checker::new(alloc, Checking::Text),
            found: Vec::new(alloc),
            some_words: some_have_words(text),
        }
    }

    /// Checks the line of this number.
    fn step<S: Supply>(
        &mut self,
        alloc: Global,
        supply: &mut S,
        number: u64,
        line: &'a [u8],
    ) -> Result<(), AllocError>
        ensures told { OnOk result (map spec.told_as self.new.found.items ≡ map spec.told_as self.old.found.items ++
            spec.told_of number (spec.told_next self.old.some_words self.old.checker number line.now)) }
        ensures next { OnOk result (self.new.checker ≡ after self.old.checker number line.now) }
        ensures words { self.new.some_words ≡ self.old.some_words }
        ensures memory { OnErr result (S.refused supply.new ≡ true) }
    {
        let told = self.checker.line(alloc, supply, number, line)?;
        let told = told_of(self.some_words, number, line, told);
        keep(supply, &mut self.found, told)
    }
}

/// The bad lines of a text in order, each with what is wrong with it; none where the text is a script without a race. Each is judged
/// after all the lines before it, bad or not: the first line with words counts as that whatever it is, and a configuration line or
/// an action counts where it can be read and no rule of configurations refuses it.
pub fn bad_lines<'a, S: Supply>(
    alloc: Global,
    supply: &mut S,
    text: &'a [u8],
) -> Result<Vec<BadLine<'a>>, AllocError>
    ensures told { IfOk result (λ found. map spec.told_as found.items ≡ spec.told (lines_of text.now)) }
    ensures first { IfOk result (λ found. (line : ℕ) (rule : LineRule) → IsBad false (lines_of text.now) line rule →
        spec.first_told (map spec.told_as found.items) ≡ Some (record { line = line; rule = rule })) }
    ensures none { IfOk result (λ found. (s : ScriptContents) → IsScript false (lines_of text.now) s → map spec.told_as found.items ≡ []) }
    ensures memory { OnErr result (S.refused supply.new ≡ true) }
{
    let mut walk = Walk::new(alloc, text);
    let mut number = 0;
    let mut rest = text;
    'lines: loop {
        let line = TextLine::first(rest);
        number += 1;
        walk.step(alloc, supply, number, line.bytes())?;
        match line.rest() {
            None => return Ok(walk.found),
            Some(later) => rest = later,
        }
    }
}
