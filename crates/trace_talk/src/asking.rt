//! What a line of a talk asks beside the lines of a script.

use arrayvec::ArrayVec;
use script_rows::words::{number, number_up_to};

/// What a line of a talk asks.
#[derive(Clone, Copy, PartialEq, Eq)]
pub(crate) enum Asked {
    /// A look at the machine.
    Question(Question),
    /// The line before is taken back.
    Back,
    /// Lines that are due for a subchannel, its unit and the subsystem are performed, so many at most.
    Turn { subchannel: u32, most: u32 },
    /// It is a line of a script, or none.
    Script,
}

/// A look at the machine.
#[derive(Clone, Copy, PartialEq, Eq)]
pub(crate) enum Question {
    /// What is due, and the states of all.
    All,
    /// What is due.
    Due,
    /// The subchannel-status word of a subchannel.
    StatusWord(u32),
    /// The state of a unit.
    Unit(u32),
    /// The signals that wait on the wires of a subchannel.
    Wires(u32),
}

/// As many words as a line has that is none of a script's.
const MOST_WORDS: usize = 4;

/// The first words of a line.
fn words_of(line: &[u8]) -> ArrayVec<&[u8], MOST_WORDS> {
    let mut words = ArrayVec::new();
    for word in line.split(|byte| *byte == b' ') {
        let _ = words.try_push(word);
    }
    words
}

/// The subsystem-identification word that a word is, as scripts write it.
fn subchannel(word: &[u8]) -> Option<u32> {
    let value = number(word)?;
    if word.len() <= 4 && value < 0x1_0000 {
        Some(0x1_0000 + value)
    } else {
        Some(value)
    }
}

/// The look that the words after the question mark ask for.
fn question_of(words: &[&[u8]]) -> Option<Question> {
    match words {
        [] => Some(Question::All),
        [b"due"] => Some(Question::Due),
        [b"scsw", word] => Some(Question::StatusWord(subchannel(word)?)),
        [b"unit", word] => Some(Question::Unit(number(word)?)),
        [b"wires", word] => Some(Question::Wires(subchannel(word)?)),
        _ => None,
    }
}

/// The turn that the words after `turn` ask for.
fn turn_of(words: &[&[u8]]) -> Option<Asked> {
    let [word, most] = words else {
        return None;
    };
    Some(Asked::Turn {
        subchannel: subchannel(word)?,
        most: number_up_to(0xFFFF, most)?,
    })
}

/// What a line asks; None where it begins like a question or a turn and is neither.
pub(crate) fn asked_of(line: &[u8]) -> Option<Asked> {
    let words = words_of(line);
    match words.as_slice() {
        [b"?", others @ ..] => Some(Asked::Question(question_of(others)?)),
        [b"turn", others @ ..] => turn_of(others),
        [b"back"] => Some(Asked::Back),
        _ => Some(Asked::Script),
    }
}
