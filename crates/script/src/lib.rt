//! Scripts: lines that configure a machine and drive it.
#![tactic(auto)]

ghost use Rattle.std.specs.Prelude.{◌≡◌, true, Err, IfOk, IfErr, OnOk};
ghost use Rattle.script.specs.Pieces.{lines_of};
ghost use Rattle.script.specs.Scripts.{IsScript};
ghost use Rattle.script.specs.Reading.{BadAt};

mod draft;
mod kept;
pub mod lines;
pub mod pieces;
pub mod readable;
pub mod text;

use crate::draft::draft_of;
use crate::lines::Lines;
use crate::readable::is_plain;
use crate::text::some_have_words;
use channel_config::config::Config;
use memory::{Allocator, Supply};
use script_rows::Action;
use script_rows::race::Race;
use script_rows::words::LineRule;
use std::alloc::Global;
use std::marker::Model;

/// One action, and the number of its line, from 1.
#[derive(Drop)]
pub struct Line {
    pub number: u64,
    pub action: Action,
}

/// The race that the last line asks for, and the number of that line.
#[derive(Clone, Copy, Debug)]
pub struct RaceLine {
    pub number: u64,
    pub race: Race,
}

/// Why there is no script.
#[derive(Clone, Copy, Debug, PartialEq, Eq)]
pub enum ScriptBad {
    /// A growth was refused.
    NoMemory,
    /// This line, from 1, breaks this rule.
    Bad { line: u64, rule: LineRule },
}

/// A script: the configuration of a machine, and what is asked of it line by line.
#[derive(Drop)]
pub struct Script {
    config: Config,
    lines: Lines,
    race: Option<RaceLine>,
}

impl Model for Script {
    ghost use Rattle.script.specs.Scripts.{ScriptContents};

    ghost Value = { ScriptContents };

    ghost view = { λ s. record { setup = s.config; lines = s.lines; race = s.race } };
}

impl Script {
    /// The script that a text is, as `read_with` reads it, in what room the allocator has.
    pub fn read(alloc: Global, races: bool, text: &[u8]) -> Result<Script, ScriptBad>
        ensures good { IfOk result (λ s. IsScript races (lines_of text.now) s) }
        ensures bad { IfErr result (λ b. BadAt b races (lines_of text.now)) }
    {
        Script::read_with(alloc, &mut Allocator { refused: false }, races, text)
    }

    /// The script that a text is, else the first line that breaks a rule and the first rule that it breaks. There is no
    /// memory only where the supply refused a growth. `races`: the last line may ask for a race.
    ///
    /// Of a line, `LineRule::StorageNotFirst` comes before all others, which are tried in their order; a line of more than
    /// 1,024 bytes or not of UTF-8 breaks `LineRule::BadWord` whatever its words. Where no line has words, line 1 breaks
    /// `LineRule::StorageNotFirst`.
    pub fn read_with<S: Supply>(
        alloc: Global,
        supply: &mut S,
        races: bool,
        text: &[u8],
    ) -> Result<Script, ScriptBad>
        ensures good { IfOk result (λ s. IsScript races (lines_of text.now) s) }
        ensures bad { IfErr result (λ b. BadAt b races (lines_of text.now)) }
        ensures unrefused { OnOk result (S.refused supply.new ≡ S.refused supply.old) }
        ensures memory { result ≡ Err ScriptBad.NoMemory → S.refused supply.new ≡ true }
    {
        if !some_have_words(text) {
            return Err(ScriptBad::Bad {
                line: 1,
                rule: LineRule::StorageNotFirst,
            });
        }
        let draft = draft_of(alloc, supply, races, is_plain(text), text)?;
        Ok(Script {
            config: draft.config,
            lines: draft.lines,
            race: draft.race,
        })
    }

    /// The configuration.
    pub fn config(&self) -> &Config
        ensures { result.now ≡ self.now.setup }
    {
        &self.config
    }

    /// The actions in order, under the numbers of their lines.
    pub fn lines(&self) -> &Lines
        ensures { result.now ≡ self.now.lines }
    {
        &self.lines
    }

    /// The race of the last line, where it asks for one.
    pub fn race(&self) -> Option<RaceLine>
        ensures { result ≡ self.now.race }
    {
        self.race
    }

    /// The configuration and the actions apart.
    pub fn into_parts(self) -> (Config, Lines)
        ensures config { result.0 ≡ self.setup }
        ensures lines { result.1 ≡ self.lines }
    {
        (self.config, self.lines)
    }
}
