//! The text of a race.

ghost use Rattle.std.specs.Prelude.{◌≡◌, ◌++◌, codes, decimal};
ghost use Rattle.script_text.specs.Text as spec;
ghost use Rattle.streams.specs.Sinks.{Puts};

use crate::{put_between, put_numbers};
use streams::Sink;

/// What came of a race: how many instructions answered each condition code, how many entries the history has of it, and
/// whether the log of each CPU was found in the history.
#[derive(Clone, Copy, Debug)]
pub struct RaceCount {
    pub zero: u64,
    pub one: u64,
    pub two: u64,
    pub three: u64,
    pub entries: u64,
    pub audited: bool,
}

/// How many instructions answered each condition code.
fn put_codes<S: Sink>(sink: &mut S, race: &RaceCount) -> bool
    ensures { Puts (S.seen sink.old) (spec.race_codes_text race.now) (S.seen sink.new) result }
{
    put_numbers(sink, b"race cc0 ", race.zero, b" cc1 ", race.one)
        && put_numbers(sink, b" cc2 ", race.two, b" cc3 ", race.three)
}

fn audit_text(audited: bool) -> &'static [u8]
    ensures { result.now ≡ spec.audit_text audited }
{
    if audited {
        b" audit ok"
    } else {
        b" audit failed"
    }
}

/// What came of a race.
pub(crate) fn put_race<S: Sink>(sink: &mut S, race: &RaceCount) -> bool
    ensures { Puts (S.seen sink.old) (spec.race_text race.now) (S.seen sink.new) result }
{
    put_codes(sink, race) && put_between(sink, b" entries ", race.entries, audit_text(race.audited))
}
