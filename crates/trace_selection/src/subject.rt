//! What a line of a script is about.

ghost use Rattle.std.specs.Prelude.{◌≡◌, ℕ, List, map, take};
ghost use Rattle.script.specs.Pieces.{words_between_blanks};
ghost use Rattle.script_rows.specs.Actions.{action_row as row_of};
ghost use Rattle.script_rows.specs.Slots.{action_in};
ghost use Rattle.trace_selection.specs.Subjects as spec;

use arrayvec::ArrayVec;
use chan_events::event::{Event, OtherInstruction};
use script::pieces::find;
use script_rows::actions::action_row;
use script_rows::slots::{ActionSlot, KeptAction};

/// As many words as a line of an action has at most.
const MOST_WORDS: usize = 8;

/// What a line is about.
#[derive(Clone, Copy, PartialEq, Eq)]
pub(crate) enum Subject {
    /// No subchannel, unit or channel path by itself.
    All,
    /// The subchannel of this subsystem-identification word.
    Subchannel(u32),
    /// The unit of this number.
    Unit(u32),
    /// The channel path of this identifier.
    ChannelPath(u32),
}

/// What an instruction without a subchannel is about.
fn subject_of_other(instruction: OtherInstruction) -> Subject
    ensures { result ≡ spec.subject_of_other instruction }
{
    match instruction {
        OtherInstruction::Rchp { path } => Subject::ChannelPath(path),
        OtherInstruction::Tpi { .. }
        | OtherInstruction::Stcrw { .. }
        | OtherInstruction::Stcps { .. } => Subject::All,
    }
}

/// What an event is about.
fn subject_of_event<B, R>(event: &Event<B, R>) -> Subject
    ensures { result ≡ spec.subject_of_event event.now }
{
    match event {
        Event::Execute { instruction, .. } => Subject::Subchannel(instruction.subchannel_word()),
        Event::ExecuteOther { instruction, .. } => subject_of_other(*instruction),
        Event::Choose { subchannel }
        | Event::Up { subchannel, .. }
        | Event::Down { subchannel, .. } => Subject::Subchannel(*subchannel),
        Event::Report { unit, .. } | Event::Act { unit, .. } | Event::Restart { unit } => {
            Subject::Unit(*unit)
        }
        Event::PathDown { chpid } | Event::PathUp { chpid } | Event::PathReset { chpid } => {
            Subject::ChannelPath(*chpid)
        }
        Event::Put { .. }
        | Event::SetKey { .. }
        | Event::SetPrefix { .. }
        | Event::Show { .. }
        | Event::SystemReset => Subject::All,
    }
}

/// What an action is about, whatever its bytes.
#[tactic(auto, using(crate::proofs::Parting::same_subject))]
fn subject_of_action(kept: &KeptAction) -> Subject
    ensures { (bytes : List ℕ) → result ≡ spec.subject_of_action (action_in kept.now bytes) }
{
    match kept {
        KeptAction::Event(event) => subject_of_event(event),
        KeptAction::Dev(unit) => Subject::Unit(*unit),
        KeptAction::Glance(subchannel) => Subject::Subchannel(*subchannel),
    }
}

/// What a line of these words is about; all where it is no line of an action.
fn subject_of_row(word: &[u8], words: &[&[u8]]) -> Subject
    ensures { result ≡ spec.subject_of_row (row_of word.now (map (λ w. w.now) words.now)) }
{
    let mut slot = ActionSlot::new();
    match action_row(&mut slot, word, words) {
        Ok(true) => subject_of_action(&slot.kept),
        Ok(false) | Err(_) => Subject::All,
    }
}

/// The first words of a line.
fn words_of(line: &[u8]) -> ArrayVec<&[u8], MOST_WORDS>
    ensures { map (λ w. w.now) result.items ≡ take 8 (words_between_blanks line.now) }
{
    let mut words = ArrayVec::new();
    let mut rest = line;
    while words.len() < MOST_WORDS {
        let end = find(rest, b' ');
        words.push(&rest[..end]);
        if end >= rest.len() {
            return words;
        }
        rest = &rest[end + 1..];
    }
    words
}

/// What a line is about; all where it is no line of an action.
#[tactic(auto, unfolding(crate::specs::Subjects::subject_of_line))]
pub(crate) fn subject_of_line(line: &[u8]) -> Subject
    ensures { result ≡ spec.subject_of_line line.now }
{
    let words = words_of(line);
    match words.as_slice() {
        [] => Subject::All,
        [word, others @ ..] => subject_of_row(word, others),
    }
}
