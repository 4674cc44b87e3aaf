//! What a line says by itself, and which rule it breaks.

ghost use Rattle.std.specs.Prelude.{◌≡◌, map, true, MatchResult, IfOk, OnOk, OnErr, Err, Ok};
ghost use Rattle.script.specs.Parsing.{first_is_storage, has_words as words_stand, parsed, parsed_drive, parsed_words};
ghost use Rattle.script.specs.Pieces.{words_between_blanks};
ghost use Rattle.script_rows.specs.Faults.{FaultOf};
ghost use Rattle.line_reasons.specs.Verdicts as spec;

use channel_config::config::ConfigRule;
use memory::Supply;
use script::readable::{has_words, is_readable};
use script_rows::actions::action_row;
use script_rows::race::race_row;
use script_rows::settings::{Setting, setting_row};
use script_rows::slots::ActionSlot;
use script_rows::words::{LineFault, LineRule, is_name};
use std::alloc::{AllocError, Global};

/// What a line says by itself.
#[derive(Drop)]
pub enum Saying {
    /// It has no words.
    Nothing,
    /// It sets up.
    Sets(Setting),
    /// It acts.
    Acts,
    /// It asks for a race.
    Races,
}

/// Which rule a line breaks, and where.
#[derive(Clone, Copy)]
pub enum Broken {
    /// It breaks this rule by itself.
    ByItself(LineRule),
    /// It sets up, and the line of this number acts.
    AfterAction(u64),
    /// It sets up, and breaks this rule of configurations.
    Configuration(ConfigRule),
    /// It is the first with words, and no `storage` line.
    NotStorage,
    /// It asks for a race.
    Race,
}

/// What the words of a line say, by the first of them.
fn said_by_words<S: Supply>(
    alloc: Global,
    supply: &mut S,
    words: &[&[u8]],
) -> Result<Saying, LineFault>
    ensures says { MatchResult result (λ s. spec.saying_of (parsed_words (map (λ w. w.now) words.now)) ≡ Ok s)
        (λ f. FaultOf f (spec.saying_of (parsed_words (map (λ w. w.now) words.now)))) }
    ensures unrefused { OnOk result (S.refused supply.new ≡ S.refused supply.old) }
    ensures memory { result ≡ Err LineFault.NoMemory → S.refused supply.new ≡ true }
{
    let [first, others @ ..] = words else {
        return Err(LineFault::Rule(LineRule::UnknownWord));
    };
    match setting_row(alloc, supply, first, others) {
        Ok(None) => Ok(driving(first, others)?),
        Ok(Some(setting)) => Ok(Saying::Sets(setting)),
        Err(fault) => Err(fault),
    }
}

/// What the words of a line that sets nothing up say.
fn driving(first: &[u8], others: &[&[u8]]) -> Result<Saying, LineRule>
    ensures { result ≡ spec.saying_of (parsed_drive first.now (map (λ w. w.now) others.now)) }
{
    if is_name(first, b"race".as_slice()) {
        let _race = race_row(others)?;
        return Ok(Saying::Races);
    }
    if action_row(&mut ActionSlot::new(), first, others)? {
        Ok(Saying::Acts)
    } else {
        Err(LineRule::UnknownWord)
    }
}

/// What a line says by itself, or the first rule that it breaks by itself.
fn said<S: Supply>(
    alloc: Global,
    supply: &mut S,
    line: &[u8],
    words: &[&[u8]],
) -> Result<Saying, LineFault>
    requires { map (λ w. w.now) words.now ≡ words_between_blanks line.now }
    ensures says { MatchResult result (λ s. spec.saying_of (parsed line.now) ≡ Ok s) (λ f. FaultOf f (spec.saying_of (parsed line.now))) }
    ensures unrefused { OnOk result (S.refused supply.new ≡ S.refused supply.old) }
    ensures memory { result ≡ Err LineFault.NoMemory → S.refused supply.new ≡ true }
{
    if !is_readable(false, line) {
        return Err(LineFault::Rule(LineRule::BadWord));
    }
    if has_words(line) {
        said_by_words(alloc, supply, words)
    } else {
        Ok(Saying::Nothing)
    }
}

/// What is looked at in a line.
#[derive(Drop)]
pub struct Spoken {
    /// It has words.
    pub worded: bool,
    /// The first of them is `storage`.
    pub storage: bool,
    /// What it says by itself, or the first rule that it breaks by itself.
    pub said: Result<Saying, LineRule>,
}

/// Whether the first word is `storage`.
fn is_storage(words: &[&[u8]]) -> bool
    ensures { result ≡ first_is_storage (map (λ w. w.now) words.now) }
{
    match words {
        [] => false,
        [first, ..] => is_name(first, b"storage".as_slice()),
    }
}

/// What is looked at in a line of these words, which says this by itself.
fn seen(line: &[u8], words: &[&[u8]], said: Result<Saying, LineRule>) -> Spoken
    ensures { result ≡ record { worded = words_stand line.now; storage = first_is_storage (map (λ w. w.now) words.now); said = said } }
{
    Spoken {
        worded: has_words(line),
        storage: is_storage(words),
        said,
    }
}

/// What is looked at in a line of these words.
pub fn look_at<S: Supply>(
    alloc: Global,
    supply: &mut S,
    line: &[u8],
    words: &[&[u8]],
) -> Result<Spoken, AllocError>
    requires { map (λ w. w.now) words.now ≡ words_between_blanks line.now }
    ensures says { IfOk result (λ s. s ≡ spec.spoken_of line.now) }
    ensures memory { OnErr result (S.refused supply.new ≡ true) }
{
    match said(alloc, supply, line, words) {
        Ok(saying) => Ok(seen(line, words, Ok(saying))),
        Err(LineFault::Rule(rule)) => Ok(seen(line, words, Err(rule))),
        Err(LineFault::NoMemory) => Err(AllocError),
    }
}
