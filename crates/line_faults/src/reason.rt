//! The reasons for which a line is bad, by the rule that it breaks.

ghost use Rattle.std.specs.Prelude.{◌≡◌};
ghost use Rattle.line_faults.specs.Reasons as spec;

use crate::rows::{Operand, Row};
use channel_config::config::ConfigRule;
use script_rows::words::LineRule;

/// A bad line: its number, from 1, its bytes without its line feed, and what is wrong with it: the place of the word that is
/// wrong, from 1, or None where the line is wrong as a whole, and the reason.
#[derive(Drop)]
pub struct BadLine<'a> {
    pub number: u64,
    pub line: &'a [u8],
    pub word: Option<usize>,
    pub reason: Reason,
}

/// Why a line is bad, by the rule that it breaks.
#[derive(Clone, Copy)]
pub enum Reason {
    /// The first word begins no line, or no instruction stands behind `cpu`.
    UnknownWord(NameReason),
    /// There are not as many words as there should be.
    WrongCount(CountReason),
    /// A word is not what it should be, or the line can't be read.
    BadWord(WordReason),
    /// The line sets up, and a line of this number, before it, acts.
    SettingAfterAction { acting: u64 },
    /// A rule of configurations is broken.
    BreaksConfiguration(ConfigReason),
    /// The first line with words is no `storage` line.
    StorageNotFirst(FirstReason),
    /// A race stands where none is allowed.
    MisplacedRace,
    /// This rule is broken, and not more is known.
    Other(LineRule),
}

impl Reason {
    /// The rule that the line breaks.
    pub fn rule(self) -> LineRule
        ensures { result ≡ spec.rule_of self }
    {
        match self {
            Reason::UnknownWord(_) => LineRule::UnknownWord,
            Reason::WrongCount(_) => LineRule::WrongCount,
            Reason::BadWord(_) => LineRule::BadWord,
            Reason::SettingAfterAction { .. } => LineRule::SettingAfterAction,
            Reason::BreaksConfiguration(_) => LineRule::BreaksConfiguration,
            Reason::StorageNotFirst(_) => LineRule::StorageNotFirst,
            Reason::MisplacedRace => LineRule::MisplacedRace,
            Reason::Other(rule) => rule,
        }
    }

    /// The rule of configurations that the line breaks, where it breaks one.
    pub fn config_rule(self) -> Option<ConfigRule>
        ensures { result ≡ spec.config_rule_of self }
    {
        match self {
            Reason::BreaksConfiguration(reason) => Some(reason.rule()),
            _ => None,
        }
    }
}

/// How a word or a line is written, where that is what is wrong with it.
#[derive(Clone, Copy)]
pub enum Writing {
    /// There are blanks alone.
    OnlyBlanks,
    /// A blank stands before the first word.
    BlankBefore,
    /// A blank stands before a comment.
    BlankBeforeComment,
    /// Two blanks stand in a row.
    TwoBlanks,
    /// A blank stands at the end.
    BlankAtEnd,
    /// A tab stands in a word.
    Tab,
    /// A carriage return stands at the end.
    CarriageReturn,
    /// A comment stands behind words.
    Comment,
}

/// Which name may be meant by a word.
#[derive(Clone, Copy)]
pub enum Guess {
    /// This one, in small letters.
    SmallLetters(&'static Row),
    /// This one, which differs by a letter or two.
    Near(&'static Row),
    Nothing,
}

/// Why a word is no name that it could be.
#[derive(Clone, Copy)]
pub enum NameReason {
    Writing(Writing),
    /// A byte-order mark stands before it.
    ByteOrderMark,
    /// It looks like a comment of another language.
    OtherComment,
    /// It begins no line.
    NoLine(Guess),
    /// This instruction stands behind `cpu`, where the number of a CPU should.
    NoCpu(&'static Row),
    /// Nothing stands behind `cpu` and the number, or nothing behind `cpu`.
    NothingToExecute,
    /// It begins a line that no CPU executes.
    NotExecuted,
    /// It is no instruction.
    NoInstruction(Guess),
}

/// Why there are not as many words as there should be.
#[derive(Clone, Copy)]
pub enum CountReason {
    Writing(Writing),
    /// So many words stand behind that of the row; in pieces: they are bytes that blanks part.
    Count {
        row: &'static Row,
        found: usize,
        in_pieces: bool,
    },
}

/// Why a word is not what it should be, or a line can't be read.
#[derive(Clone, Copy)]
pub enum WordReason {
    /// The line has so many bytes, which are too many.
    LineTooLong(usize),
    /// The line is not UTF-8.
    NotUtf8,
    Writing(Writing),
    /// The word is not this.
    Word { operand: Operand, fault: WordFault },
}

/// What is wrong with a word.
#[derive(Clone, Copy)]
pub enum WordFault {
    /// A mark stands before a number.
    Marked,
    /// It is no number.
    NoNumber,
    /// It has so many digits.
    TooManyDigits(usize),
    /// This is no hexadecimal digit.
    NoDigit(u8),
    /// It has so many digits, which is an odd number, and bytes have two each.
    OddDigits(usize),
    /// It has so many bytes.
    TooManyBytes(usize),
    /// Its number is out of its range.
    OutOfRange,
    /// It is another name, or none.
    OtherName,
    /// It is a name, but not in small letters.
    CapitalName,
}

/// Why the first line with words is no `storage` line.
#[derive(Clone, Copy)]
pub enum FirstReason {
    Writing(Writing),
    ByteOrderMark,
    /// The first word is `storage`, but not in small letters.
    InCapitals,
    /// The first word is `storage` but for a letter or two.
    Misspelt,
    /// It is another word.
    OtherWord,
    /// No line has words.
    NoWords,
}

/// Why a rule of configurations is broken, by the rule.
#[derive(Clone, Copy)]
pub enum ConfigReason {
    StorageSize(StorageReason),
    ChannelPath(PathReason),
    UnitNumber(UnitReason),
    UnitOfSubchannel(UseReason),
    PathsOfSubchannel(PathsReason),
    SharedUnit(ShareReason),
    SubchannelName(NumberReason),
    Sets(SetsReason),
    /// This rule is broken, and not more is known.
    Other(ConfigRule),
}

impl ConfigReason {
    /// The rule of configurations that the line breaks.
    pub fn rule(self) -> ConfigRule
        ensures { result ≡ spec.broken_rule self }
    {
        match self {
            ConfigReason::StorageSize(_) => ConfigRule::StorageSize,
            ConfigReason::ChannelPath(_) => ConfigRule::ChannelPath,
            ConfigReason::UnitNumber(_) => ConfigRule::UnitNumber,
            ConfigReason::UnitOfSubchannel(_) => ConfigRule::UnitOfSubchannel,
            ConfigReason::PathsOfSubchannel(_) => ConfigRule::PathsOfSubchannel,
            ConfigReason::SharedUnit(_) => ConfigRule::SharedUnit,
            ConfigReason::SubchannelName(_) => ConfigRule::SubchannelName,
            ConfigReason::Sets(_) => ConfigRule::Sets,
            ConfigReason::Other(rule) => rule,
        }
    }
}

/// Why the size of storage is not taken.
#[derive(Clone, Copy)]
pub enum StorageReason {
    /// It is given already, as so many blocks.
    Again(u32),
    /// It is too small or too great.
    OutOfRange,
}

/// Why a channel path is not taken.
#[derive(Clone, Copy)]
pub enum PathReason {
    /// It is given already.
    Again,
    /// Its identifier is too great.
    TooGreat,
}

/// Why a unit is not taken.
#[derive(Clone, Copy)]
pub enum UnitReason {
    /// Another number, this one, is next.
    NotNext(u32),
    /// Its number is next, and too great.
    TooGreat,
}

/// Why the unit of a subchannel is not taken.
#[derive(Clone, Copy)]
pub enum UseReason {
    /// There is no such unit.
    Unknown,
    /// Two subchannels use it.
    UsedTwice,
}

/// Why the channel paths of a subchannel are not taken.
#[derive(Clone, Copy)]
pub enum PathsReason {
    /// There are none.
    Missing,
    /// There are so many.
    TooMany(usize),
    /// There is no such channel path.
    Unknown,
    /// It is named twice.
    Twice,
}

/// Why units do not share a control unit.
#[derive(Clone, Copy)]
pub enum ShareReason {
    /// There is no such unit.
    Unknown,
    /// It is named twice.
    Twice,
    /// One of them shares a control unit already.
    Again,
}

/// Why the word of a subchannel, or its device number, is not taken.
#[derive(Clone, Copy)]
pub enum NumberReason {
    /// The device number is too great.
    Device,
    /// It is of this set, and there are but so many.
    NoSuchSet { set: u8, sets: u8 },
    /// It is no subsystem-identification word.
    NoWord,
    /// Another number of the set, this one, is next.
    NotNext(u32),
    /// Its number is next, and too great.
    TooGreat,
}

/// Why the number of sets is not taken.
#[derive(Clone, Copy)]
pub enum SetsReason {
    /// It is too small or too great.
    OutOfRange,
    /// A subchannel stands before it.
    AfterSubchannel,
    /// It is given already.
    Again,
}
