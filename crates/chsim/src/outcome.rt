//! How the program ends: its exit status, and its line on standard error.

ghost use Rattle.std.specs.Prelude.{◌≡◌, None, Some, MatchOption};
ghost use Rattle.chsim.specs.Outcomes as spec;

use script_runner::Ending;

/// How the program ended.
#[derive(Clone, Copy, PartialEq, Eq)]
pub enum Outcome {
    /// A command ended so.
    Ended(Ending),
    /// The words name no command; `whole` says that the text about them was written whole, or else the sink failed.
    NoCommand { whole: bool },
    /// There was no memory for the words or for the text about them; nothing was read or written.
    NoMemory,
    /// A word is not UTF-8; nothing was read or written.
    NotUtf8,
}

impl Outcome {
    /// The exit status.
    pub fn status(self) -> u8
        ensures { result ≡ spec.exit_status self }
    {
        match self {
            Outcome::Ended(ending) => ending.status(),
            Outcome::NoCommand { .. } => 2,
            Outcome::NoMemory | Outcome::NotUtf8 => 1,
        }
    }

    /// The line on standard error, without its LF: there is one just where standard output cannot tell how the program
    /// ended, since nothing was written there or not all that was due.
    pub fn complaint(self) -> Option<&'static str>
        ensures { MatchOption result (spec.complaint_of self ≡ None) (λ line. spec.complaint_of self ≡ Some line.now) }
    {
        match self {
            Outcome::Ended(ending) => ending_complaint(ending),
            Outcome::NoCommand { whole } => unwritten(whole),
            Outcome::NoMemory => Some("chsim: there is no memory for the words"),
            Outcome::NotUtf8 => Some("chsim: the words are not UTF-8"),
        }
    }
}

/// The line of a command that ended so.
fn ending_complaint(ending: Ending) -> Option<&'static str>
    ensures { MatchOption result (spec.complaint_of_ending ending ≡ None) (λ line. spec.complaint_of_ending ending ≡ Some line.now) }
{
    match ending {
        Ending::NotRead => Some("chsim: standard input could not be read"),
        Ending::Bad { whole } | Ending::NoMemory { whole } | Ending::AuditFailed { whole } => {
            unwritten(whole)
        }
        Ending::Done { .. } => None,
        Ending::Stopped { .. } => unwritten(false),
    }
}

/// The line where a text was not written whole; none where it was.
fn unwritten(whole: bool) -> Option<&'static str>
    ensures { MatchOption result (spec.unwritten whole ≡ None) (λ line. spec.unwritten whole ≡ Some line.now) }
{
    if whole {
        None
    } else {
        Some("chsim: standard output could not be written")
    }
}
