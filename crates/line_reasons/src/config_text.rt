//! Configuration lines that are refused, as they are told of.

use crate::numbers::{put_between, put_count, put_decimal, put_hex, put_in_words};
use crate::printing::word_at;
use channel_config::config::ConfigRule;
use line_faults::reason::{
    ConfigReason, NumberReason, PathReason, PathsReason, SetsReason, ShareReason, StorageReason,
    UnitReason, UseReason,
};
use streams::Sink;

/// The place of the word of a subchannel in its line.
const SUBCHANNEL_PLACE: usize = 2;

fn put_storage<S: Sink>(sink: &mut S, word: &[u8], reason: StorageReason) -> bool {
    match reason {
        StorageReason::Again(blocks) => {
            sink.put(b"storage is given already, ") && put_hex(sink, blocks) && sink.put(b" blocks")
        }
        StorageReason::OutOfRange => put_between(
            sink,
            b"",
            word,
            b" (hexadecimal) blocks; storage has 10 to 1000",
        ),
    }
}

fn put_path<S: Sink>(sink: &mut S, word: &[u8], reason: PathReason) -> bool {
    let text = match reason {
        PathReason::Again => b" is given already".as_slice(),
        PathReason::TooGreat => b"; an identifier is at most FF".as_slice(),
    };
    put_between(sink, b"path ", word, text)
}

fn put_unit<S: Sink>(sink: &mut S, word: &[u8], reason: UnitReason) -> bool {
    match reason {
        UnitReason::NotNext(next) => {
            put_between(sink, b"unit ", word, b"; the next unit is ") && put_hex(sink, next)
        }
        UnitReason::TooGreat => put_between(sink, b"unit ", word, b"; a unit is at most 3FF"),
    }
}

fn put_use<S: Sink>(sink: &mut S, word: &[u8], reason: UseReason) -> bool {
    match reason {
        UseReason::Unknown => put_between(sink, b"there is no unit ", word, b""),
        UseReason::UsedTwice => {
            put_between(sink, b"unit ", word, b" has two subchannels already")
        }
    }
}

/// Channel paths of a subchannel that are too few or too many.
fn put_needed<S: Sink>(sink: &mut S, line: &[u8], found: usize) -> bool {
    put_between(
        sink,
        b"subchannel ",
        word_at(line, SUBCHANNEL_PLACE),
        b" has ",
    ) && put_in_words(sink, found)
        && sink.put(if found == 0 {
            b" channel path; one to eight are needed"
        } else {
            b" channel paths; one to eight are needed"
        })
}

fn put_paths<S: Sink>(sink: &mut S, line: &[u8], word: &[u8], reason: PathsReason) -> bool {
    match reason {
        PathsReason::Missing => put_needed(sink, line, 0),
        PathsReason::TooMany(paths) => put_needed(sink, line, paths),
        PathsReason::Unknown => put_between(sink, b"there is no path ", word, b""),
        PathsReason::Twice => put_between(sink, b"path ", word, b" is named twice"),
    }
}

fn put_share<S: Sink>(sink: &mut S, word: &[u8], reason: ShareReason) -> bool {
    match reason {
        ShareReason::Unknown => put_between(sink, b"there is no unit ", word, b""),
        ShareReason::Twice => put_between(sink, b"unit ", word, b" is named twice"),
        ShareReason::Again => sink.put(b"one of these units shares a control unit already"),
    }
}

/// A set that there is not.
fn put_no_set<S: Sink>(sink: &mut S, word: &[u8], set: u8, sets: u8) -> bool {
    let named = put_between(sink, b"subchannel ", word, b" is of set ")
        && put_decimal(sink, u64::from(set));
    if sets <= 1 {
        return named && sink.put(b"; there is set 0 alone");
    }
    named && sink.put(b"; there are sets 0 to ") && put_decimal(sink, u64::from(sets - 1))
}

fn put_number<S: Sink>(sink: &mut S, word: &[u8], reason: NumberReason) -> bool {
    match reason {
        NumberReason::Device => {
            put_between(sink, b"device number ", word, b"; it is at most FFFF")
        }
        NumberReason::NoSuchSet { set, sets } => put_no_set(sink, word, set, sets),
        NumberReason::NoWord => put_between(
            sink,
            b"subchannel ",
            word,
            b"; the left half of its word is 1, or 3, 5 or 7 in sets 1 to 3",
        ),
        NumberReason::NotNext(next) => {
            put_between(sink, b"subchannel ", word, b"; the next of its set is ")
                && put_hex(sink, next)
        }
        NumberReason::TooGreat => {
            put_between(sink, b"subchannel ", word, b"; its number is at most FF")
        }
    }
}

fn put_sets<S: Sink>(sink: &mut S, word: &[u8], reason: SetsReason) -> bool {
    match reason {
        SetsReason::OutOfRange => put_between(sink, b"", word, b" sets; there are 1 to 4"),
        SetsReason::AfterSubchannel => sink.put(b"sets stands before the first subchannel"),
        SetsReason::Again => sink.put(b"sets is given already"),
    }
}

/// A rule of configurations, where not more is known.
fn put_rule_text<S: Sink>(sink: &mut S, rule: ConfigRule) -> bool {
    sink.put(match rule {
        ConfigRule::StorageSize => b"storage is given once, as 10 to 1000 blocks",
        ConfigRule::ChannelPath => b"a path is given once, at most FF",
        ConfigRule::UnitNumber => b"a unit has the next number, at most 3FF",
        ConfigRule::UnitOfSubchannel => b"the unit is known, and has one other subchannel at most",
        ConfigRule::PathsOfSubchannel => b"the paths are known, one to eight, all different",
        ConfigRule::SharedUnit => b"the units are known, different, and share with no others",
        ConfigRule::SubchannelName => b"a subchannel is the next of its set, at most FF",
        ConfigRule::Sets => b"sets is given once, 1 to 4, before any subchannel",
    })
}

/// Why a rule of configurations is broken.
pub fn put_config_reason<S: Sink>(
    sink: &mut S,
    line: &[u8],
    word: &[u8],
    reason: ConfigReason,
) -> bool {
    match reason {
        ConfigReason::StorageSize(reason) => put_storage(sink, word, reason),
        ConfigReason::ChannelPath(reason) => put_path(sink, word, reason),
        ConfigReason::UnitNumber(reason) => put_unit(sink, word, reason),
        ConfigReason::UnitOfSubchannel(reason) => put_use(sink, word, reason),
        ConfigReason::PathsOfSubchannel(reason) => put_paths(sink, line, word, reason),
        ConfigReason::SharedUnit(reason) => put_share(sink, word, reason),
        ConfigReason::SubchannelName(reason) => put_number(sink, word, reason),
        ConfigReason::Sets(reason) => put_sets(sink, word, reason),
        ConfigReason::Other(rule) => put_rule_text(sink, rule),
    }
}
