//! The line that races CPUs.

ghost use Rattle.std.specs.Prelude.{◌≡◌, map};
ghost use Rattle.script_rows.specs.Races as spec;

use crate::words::{LineRule, four, subchannel, times_up_to};

/// CPUs that execute TEST SUBCHANNEL of one subchannel side by side.
#[derive(Clone, Copy, Debug)]
pub struct Race {
    /// How many CPUs, 1 to 16.
    pub cpus: u32,
    /// How often each of them, 1 to 10,000 times.
    pub times: u32,
    /// General register 1: the subsystem-identification word.
    pub subchannel: u32,
}

/// The subchannel that is tested; None where another instruction is named.
fn tested(name: &[u8], word: &[u8]) -> Option<u32>
    ensures { result ≡ spec.tested name.now word.now }
{
    if name == b"tsch".as_slice() {
        subchannel(word)
    } else {
        None
    }
}

/// What the words of a `race` line ask for, or the rule that they break.
pub fn race_row(words: &[&[u8]]) -> Result<Race, LineRule>
    ensures { result ≡ spec.race_row (map (λ w. w.now) words.now) }
{
    let (cpus, times, name, word) = four(words).ok_or(LineRule::WrongCount)?;
    let cpus = times_up_to(16, cpus).ok_or(LineRule::BadWord)?;
    let times = times_up_to(10_000, times).ok_or(LineRule::BadWord)?;
    let subchannel = tested(name, word).ok_or(LineRule::BadWord)?;
    Ok(Race {
        cpus,
        times,
        subchannel,
    })
}
