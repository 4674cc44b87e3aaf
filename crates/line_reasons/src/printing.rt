//! Bad lines as they are printed: `LINE:WORD: reason (rule N)`, or `LINE: reason (rule N)` where the line is wrong as a whole.

use crate::config_text::put_config_reason;
use crate::name_text::{put_first_reason, put_name_reason};
use crate::numbers::{put_count, put_decimal, put_of_word};
use crate::word_text::{put_count_reason, put_word_reason};
use channel_config::config::ConfigRule;
use line_faults::reason::{BadLine, ConfigReason, Reason, Writing};
use script_rows::words::LineRule;
use streams::Sink;

/// The word of a line at this place, from 1; empty where there is none.
pub fn word_at(line: &[u8], place: usize) -> &[u8] {
    let mut left = place;
    for word in line.split(|byte| *byte == b' ') {
        if left <= 1 {
            return word;
        }
        left -= 1;
    }
    &[]
}

/// How a word or a line is written.
pub fn put_writing<S: Sink>(sink: &mut S, writing: Writing) -> bool {
    sink.put(match writing {
        Writing::OnlyBlanks => b"blanks alone; an empty line has none",
        Writing::BlankBefore => b"a blank before the first word",
        Writing::BlankBeforeComment => b"a blank before the comment; a comment begins its line",
        Writing::TwoBlanks => b"two blanks in a row; words are parted by one",
        Writing::BlankAtEnd => b"a blank at the end of the line",
        Writing::Tab => b"a tab; words are parted by one blank",
        Writing::CarriageReturn => {
            b"a carriage return at the end of the line: save the file with LF"
        }
        Writing::Comment => b"a comment stands in a line of its own",
    })
}

/// A line that sets up after an action.
fn put_after_action<S: Sink>(sink: &mut S, line: &[u8], acting: u64) -> bool {
    put_of_word(sink, word_at(line, 1), b" sets up; line ")
        && put_decimal(sink, acting)
        && sink.put(b" acts already")
}

/// A rule of lines, where not more is known.
fn put_rule_text<S: Sink>(sink: &mut S, rule: LineRule) -> bool {
    sink.put(match rule {
        LineRule::UnknownWord => b"the first word is unknown",
        LineRule::WrongCount => b"there are not as many words as there should be",
        LineRule::BadWord => b"a word is not what it should be",
        LineRule::SettingAfterAction => b"a configuration line stands after an action",
        LineRule::BreaksConfiguration => b"a rule of configurations is broken",
        LineRule::StorageNotFirst => b"the first line with words is no storage line",
        LineRule::MisplacedRace => b"a race stands where none may be",
    })
}

/// Why a line is bad.
fn put_reason<S: Sink>(sink: &mut S, line: &[u8], word: &[u8], reason: Reason) -> bool {
    match reason {
        Reason::UnknownWord(reason) => put_name_reason(sink, word, reason),
        Reason::WrongCount(reason) => put_count_reason(sink, reason),
        Reason::BadWord(reason) => put_word_reason(sink, word, reason),
        Reason::SettingAfterAction { acting } => put_after_action(sink, line, acting),
        Reason::BreaksConfiguration(reason) => put_config_reason(sink, line, word, reason),
        Reason::StorageNotFirst(reason) => put_first_reason(sink, word, reason),
        Reason::MisplacedRace => sink.put(b"a race is run by chsim race alone"),
        Reason::Other(rule) => put_rule_text(sink, rule),
    }
}

/// The number of a rule of configurations.
fn config_number(rule: ConfigRule) -> u64 {
    match rule {
        ConfigRule::StorageSize => 1,
        ConfigRule::ChannelPath => 2,
        ConfigRule::UnitNumber => 3,
        ConfigRule::UnitOfSubchannel => 4,
        ConfigRule::PathsOfSubchannel => 5,
        ConfigRule::SharedUnit => 6,
        ConfigRule::SubchannelName => 7,
        ConfigRule::Sets => 8,
    }
}

/// Which rule of configurations is broken.
fn put_config_rule<S: Sink>(sink: &mut S, reason: ConfigReason) -> bool {
    sink.put(b", configuration ") && put_decimal(sink, config_number(reason.rule()))
}

/// Which rule is broken.
fn put_rule<S: Sink>(sink: &mut S, reason: Reason) -> bool {
    if !(sink.put(b" (rule ") && put_decimal(sink, u64::from(reason.rule().number()))) {
        return false;
    }
    match reason {
        Reason::BreaksConfiguration(reason) => put_config_rule(sink, reason) && sink.put(b")"),
        _ => sink.put(b")"),
    }
}

/// Where a bad line is: its number, and the place of its word.
fn put_place<S: Sink>(sink: &mut S, bad: &BadLine<'_>) -> bool {
    if !put_decimal(sink, bad.number) {
        return false;
    }
    match bad.word {
        None => true,
        Some(place) => sink.put(b":") && put_count(sink, place),
    }
}

/// What is wrong with a bad line, without its place, as `'sshc' begins no line; is 'ssch' meant? (rule 1)`.
pub fn put_fault<S: Sink>(sink: &mut S, bad: &BadLine<'_>) -> bool {
    let word = word_at(bad.line, bad.word.unwrap_or(1));
    put_reason(sink, bad.line, word, bad.reason) && put_rule(sink, bad.reason)
}

/// A bad line, in a line of its own.
pub fn put_bad_line<S: Sink>(sink: &mut S, bad: &BadLine<'_>) -> bool {
    put_place(sink, bad) && sink.put(b": ") && put_fault(sink, bad) && sink.put(b"\n")
}

/// How many lines are bad.
fn put_number_of_lines<S: Sink>(sink: &mut S, count: usize) -> bool {
    match count {
        0 => sink.put(b"no bad line\n"),
        1 => sink.put(b"1 bad line\n"),
        _ => put_count(sink, count) && sink.put(b" bad lines\n"),
    }
}

/// All bad lines, each in a line of its own, and behind them how many there are: `no bad line`, `1 bad line`, `2 bad lines`.
pub fn put_reasons<S: Sink>(sink: &mut S, found: &[BadLine<'_>]) -> bool {
    for bad in found {
        if !put_bad_line(sink, bad) {
            return false;
        }
    }
    put_number_of_lines(sink, found.len())
}
