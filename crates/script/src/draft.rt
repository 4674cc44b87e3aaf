//! Reading a script line by line.

ghost use Rattle.std.specs.Prelude.{◌≡◌, ◌≢◌, ◌∷◌, ℕ, Bool, List, true, Some, OnOk, OnErr, IfErr, IfOk, None, Ok, Err, length, map};
ghost use Rattle.script.specs.Pieces.{lines_of, words_between_blanks};
ghost use Rattle.script.specs.Parsing.{Sets, parsed_action, first_is_storage, has_words as words_stand, is_ascii, parsed_race, parsed_words};
ghost use Rattle.script_rows.specs.Slots.{action_at, rows_at};
ghost use Rattle.script.specs.Scripts as spec;
ghost use Rattle.script.specs.Drafts.{context, TakesLine, IsNext, IsDraftOf};
ghost use Rattle.script.specs.Reading.{BreaksRule, BadIn, bad_by};

use crate::lines::Lines;
use crate::pieces::find;
use crate::readable::{has_words, is_readable};
use crate::text::{TextLine, some_have_words};
use crate::{RaceLine, ScriptBad};
use channel_config::config::{Config, ConfigFault};
use memory::Supply;
use script_rows::actions::{action_row, common_row};
use script_rows::race::{Race, race_row};
use script_rows::settings::{Setting, configure, setting_row};
use script_rows::slots::ActionSlot;
use script_rows::words::{LineFault, LineRule, is_name};
use std::alloc::{AllocError, Global};

/// How many bytes a line has with its line feed, as it is thought when room is made: where they are fewer it grows.
const COMMON: usize = 8;

/// What the lines so far have made.
#[derive(Drop)]
pub struct ScriptBuilder {
    pub config: Config,
    pub begun: bool,
    pub acted: bool,
    pub lines: Lines,
    pub race: Option<RaceLine>,
}

/// A line of a text, with the lines that follow it: its number, whether it is known to be of ASCII, and whether the command lets its
/// text race.
#[derive(Drop)]
struct NextLine<'a> {
    number: u64,
    plain: bool,
    races: bool,
    line: TextLine<'a>,
}

/// The words of a line, the first of them apart.
#[derive(Drop)]
struct Sentence<'w, 'a> {
    first: &'a [u8],
    others: &'w [&'a [u8]],
}

/// Where a line is taken apart: room for its words, and a slot for its action. Both may hold those of a line before it.
#[derive(Drop)]
struct Desk<'a> {
    words: Vec<&'a [u8]>,
    slot: ActionSlot,
}

/// Whether the line's first word is `storage`.
#[cold]
#[inline(never)]
fn begins(line: &[u8]) -> bool
    ensures { result ≡ first_is_storage (words_between_blanks line.now) }
{
    is_name(&line[..find(line, b' ')], b"storage".as_slice())
}

/// Takes a setting.
fn set<S: Supply>(
    supply: &mut S,
    draft: &mut ScriptBuilder,
    setting: &Setting,
) -> Result<(), LineFault>
    ensures ok { OnOk result ((number : ℕ) (may : Bool) → (spec.broken_by (context draft.old) may (Ok (Sets setting.now)) ≡ None) ×
        TakesLine draft.old number (Ok (Sets setting.now)) draft.new) }
    ensures err { IfErr result (λ f. (may : Bool) → BreaksRule f (spec.broken_by (context draft.old) may (Ok (Sets setting.now)))) }
    ensures unrefused { OnOk result (S.refused supply.new ≡ S.refused supply.old) }
    ensures memory { result ≡ Err LineFault.NoMemory → S.refused supply.new ≡ true }
{
    if draft.acted {
        return Err(LineFault::Rule(LineRule::SettingAfterAction));
    }
    match configure(supply, &mut draft.config, setting) {
        Ok(()) => Ok(()),
        Err(ConfigFault::NoMemory) => Err(LineFault::NoMemory),
        Err(ConfigFault::Rule(_)) => Err(LineFault::Rule(LineRule::BreaksConfiguration)),
    }
}

/// Whether a race may be in this line.
fn may_race(next: &NextLine<'_>) -> bool
    ensures { result ≡ spec.may_race next.now.races next.now.line.later }
{
    next.races && !some_have_words(next.line.later())
}

/// Takes the race of a line, or the rule that its words break.
fn race(
    draft: &mut ScriptBuilder,
    next: &NextLine<'_>,
    parsed: Result<Race, LineRule>,
) -> Result<(), LineFault>
    ensures ok { OnOk result ((spec.broken_by (context draft.old) (spec.may_race next.now.races next.now.line.later) (parsed_race parsed) ≡ None) ×
        TakesLine draft.old next.now.number (parsed_race parsed) draft.new) }
    ensures err { IfErr result (λ f. BreaksRule f (spec.broken_by (context draft.old) (spec.may_race next.now.races next.now.line.later) (parsed_race parsed))) }
    ensures memory { result ≢ Err LineFault.NoMemory }
{
    let race = parsed?;
    if !may_race(next) {
        return Err(LineFault::Rule(LineRule::MisplacedRace));
    }
    draft.race = Some(RaceLine {
        number: next.number,
        race,
    });
    draft.acted = true;
    Ok(())
}

/// Takes the action that stands in a slot, or the rule that its line breaks, where its first word is known.
#[inline(always)]
fn act<S: Supply>(
    supply: &mut S,
    draft: &mut ScriptBuilder,
    slot: &ActionSlot,
    number: u64,
    parsed: Result<bool, LineRule>,
) -> Result<(), LineFault>
    ensures ok { OnOk result ((may : Bool) → (spec.broken_by (context draft.old) may (parsed_action (rows_at parsed (action_at slot.now))) ≡ None) ×
        TakesLine draft.old number (parsed_action (rows_at parsed (action_at slot.now))) draft.new) }
    ensures err { IfErr result (λ f. (may : Bool) → BreaksRule f (spec.broken_by (context draft.old) may (parsed_action (rows_at parsed (action_at slot.now))))) }
    ensures unrefused { OnOk result (S.refused supply.new ≡ S.refused supply.old) }
    ensures memory { result ≡ Err LineFault.NoMemory → S.refused supply.new ≡ true }
{
    if !parsed? {
        return Err(LineFault::Rule(LineRule::UnknownWord));
    }
    draft.lines.add(supply, number, slot)?;
    draft.acted = true;
    Ok(())
}

/// Takes what the words of a line say, by the first of them: apart, as most lines are common ones.
#[cold]
#[inline(never)]
fn parse_other<S: Supply>(
    alloc: Global,
    supply: &mut S,
    draft: &mut ScriptBuilder,
    slot: &mut ActionSlot,
    next: &NextLine<'_>,
    sentence: &Sentence<'_, '_>,
) -> Result<(), LineFault>
    ensures ok { OnOk result ((spec.broken_by (context draft.old) (spec.may_race next.now.races next.now.line.later) (parsed_words (sentence.now.first.now ∷ map (λ w. w.now) sentence.now.others.now)) ≡ None) ×
        TakesLine draft.old next.now.number (parsed_words (sentence.now.first.now ∷ map (λ w. w.now) sentence.now.others.now)) draft.new) }
    ensures err { IfErr result (λ f. BreaksRule f (spec.broken_by (context draft.old) (spec.may_race next.now.races next.now.line.later) (parsed_words (sentence.now.first.now ∷ map (λ w. w.now) sentence.now.others.now)))) }
    ensures unrefused { OnOk result (S.refused supply.new ≡ S.refused supply.old) }
    ensures memory { result ≡ Err LineFault.NoMemory → S.refused supply.new ≡ true }
{
    if let Some(setting) = setting_row(alloc, supply, sentence.first, sentence.others)? {
        return set(supply, draft, &setting);
    }
    if is_name(sentence.first, b"race".as_slice()) {
        return race(draft, next, race_row(sentence.others));
    }
    let asked = action_row(slot, sentence.first, sentence.others);
    act(supply, draft, slot, next.number, asked)
}

/// Takes what the words of a line say, by the first of them.
fn parse<S: Supply>(
    alloc: Global,
    supply: &mut S,
    draft: &mut ScriptBuilder,
    slot: &mut ActionSlot,
    next: &NextLine<'_>,
    words: &[&[u8]],
) -> Result<(), LineFault>
    ensures ok { OnOk result ((spec.broken_by (context draft.old) (spec.may_race next.now.races next.now.line.later) (parsed_words (map (λ w. w.now) words.now)) ≡ None) ×
        TakesLine draft.old next.now.number (parsed_words (map (λ w. w.now) words.now)) draft.new) }
    ensures err { IfErr result (λ f. BreaksRule f (spec.broken_by (context draft.old) (spec.may_race next.now.races next.now.line.later) (parsed_words (map (λ w. w.now) words.now)))) }
    ensures unrefused { OnOk result (S.refused supply.new ≡ S.refused supply.old) }
    ensures memory { result ≡ Err LineFault.NoMemory → S.refused supply.new ≡ true }
{
    let [first, others @ ..] = words else {
        return Err(LineFault::Rule(LineRule::UnknownWord));
    };
    match common_row(slot, first, others) {
        Ok(false) => parse_other(
            alloc,
            supply,
            draft,
            slot,
            next,
            &Sentence { first, others },
        ),
        parsed => act(supply, draft, slot, next.number, parsed),
    }
}

/// Takes a line that has words.
fn take_words<'a, S: Supply>(
    alloc: Global,
    supply: &mut S,
    draft: &mut ScriptBuilder,
    desk: &mut Desk<'a>,
    next: &NextLine<'a>,
) -> Result<(), LineFault>
    requires worded { words_stand next.now.line.line ≡ true }
    requires plain { next.now.plain ≡ true → is_ascii next.now.line.line ≡ true }
    ensures ok { OnOk result ((spec.fault (context draft.old) (spec.may_race next.now.races next.now.line.later) next.now.line.line ≡ None) ×
        IsNext draft.old next.now.number next.now.line.line draft.new) }
    ensures err { IfErr result (λ f. BreaksRule f (spec.fault (context draft.old) (spec.may_race next.now.races next.now.line.later) next.now.line.line)) }
    ensures unrefused { OnOk result (S.refused supply.new ≡ S.refused supply.old) }
    ensures memory { result ≡ Err LineFault.NoMemory → S.refused supply.new ≡ true }
{
    if !draft.begun && !begins(next.line.bytes()) {
        return Err(LineFault::Rule(LineRule::StorageNotFirst));
    }
    if !is_readable(next.plain, next.line.bytes()) {
        return Err(LineFault::Rule(LineRule::BadWord));
    }
    next.line.words_to(supply, &mut desk.words)?;
    parse(
        alloc,
        supply,
        draft,
        &mut desk.slot,
        next,
        desk.words.as_slice(),
    )?;
    draft.begun = true;
    Ok(())
}

/// Takes one line.
fn take_line<'a, S: Supply>(
    alloc: Global,
    supply: &mut S,
    draft: &mut ScriptBuilder,
    desk: &mut Desk<'a>,
    next: &NextLine<'a>,
) -> Result<(), LineFault>
    requires { next.now.plain ≡ true → is_ascii next.now.line.line ≡ true }
    ensures ok { OnOk result ((spec.fault (context draft.old) (spec.may_race next.now.races next.now.line.later) next.now.line.line ≡ None) ×
        IsNext draft.old next.now.number next.now.line.line draft.new) }
    ensures err { IfErr result (λ f. BreaksRule f (spec.fault (context draft.old) (spec.may_race next.now.races next.now.line.later) next.now.line.line)) }
    ensures unrefused { OnOk result (S.refused supply.new ≡ S.refused supply.old) }
    ensures memory { result ≡ Err LineFault.NoMemory → S.refused supply.new ≡ true }
{
    if has_words(next.line.bytes()) {
        return take_words(alloc, supply, draft, desk, next);
    }
    if is_readable(next.plain, next.line.bytes()) {
        Ok(())
    } else {
        Err(LineFault::Rule(LineRule::BadWord))
    }
}

/// What is bad in the line of this number.
fn bad_line(number: u64, fault: LineFault) -> ScriptBad
    ensures bad { result ≡ bad_by number fault }
    ensures memory { result ≡ ScriptBad.NoMemory → fault ≡ LineFault.NoMemory }
{
    match fault {
        LineFault::NoMemory => ScriptBad::NoMemory,
        LineFault::Rule(rule) => ScriptBad::Bad { line: number, rule },
    }
}

/// What no lines have made, with room for those of a text.
fn opening<S: Supply>(
    alloc: Global,
    supply: &mut S,
    text: &[u8],
) -> Result<ScriptBuilder, AllocError>
    ensures made { IfOk result (λ d. (races : Bool) (lines : List (List ℕ)) → IsDraftOf races lines 0 d) }
    ensures unrefused { OnOk result (S.refused supply.new ≡ S.refused supply.old) }
    ensures memory { OnErr result (S.refused supply.new ≡ true) }
{
    let lines = Lines::with_room(alloc, supply, text.len() / COMMON + 1)?;
    Ok(ScriptBuilder {
        config: Config::new(alloc),
        begun: false,
        acted: false,
        lines,
        race: None,
    })
}

/// Takes all lines of a text, or answers the first bad one. `plain`: it is known to be of ASCII.
pub fn draft_of<S: Supply>(
    alloc: Global,
    supply: &mut S,
    races: bool,
    plain: bool,
    text: &[u8],
) -> Result<ScriptBuilder, ScriptBad>
    requires { plain ≡ true → is_ascii text.now ≡ true }
    ensures good { IfOk result (λ d. IsDraftOf races (lines_of text.now) (length (lines_of text.now)) d) }
    ensures bad { IfErr result (λ b. BadIn b races (lines_of text.now)) }
    ensures unrefused { OnOk result (S.refused supply.new ≡ S.refused supply.old) }
    ensures memory { result ≡ Err ScriptBad.NoMemory → S.refused supply.new ≡ true }
{
    let Ok(draft) = opening(alloc, supply, text) else {
        return Err(ScriptBad::NoMemory);
    };
    let mut draft = draft;
    let mut desk = Desk {
        words: Vec::new(alloc),
        slot: ActionSlot::new(),
    };
    let mut number = 0;
    let mut rest = text;
    'lines: loop {
        let line = TextLine::first(rest);
        number += 1;
        let next = NextLine {
            number,
            plain,
            races,
            line,
        };
        match take_line(alloc, supply, &mut draft, &mut desk, &next) {
            Ok(()) => {}
            Err(fault) => return Err(bad_line(number, fault)),
        }
        match next.line.rest() {
            None => return Ok(draft),
            Some(later) => rest = later,
        }
    }
}
