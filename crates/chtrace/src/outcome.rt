//! How the program ends: its exit status, and its line on standard error.

ghost use Rattle.std.specs.Prelude.{◌≡◌, None, Some, MatchOption};
ghost use Rattle.chtrace.specs.Outcomes as spec;

use trace_runs::TraceFault;

/// How the program ended.
#[derive(Clone, Copy, PartialEq, Eq)]
pub enum Outcome {
    /// All was performed and written; `refused` says that some action was refused.
    Done { refused: bool },
    /// The words ask for no view.
    WrongWords,
    /// The script is bad, or a line of words is; what is wrong was told.
    Bad,
    /// Standard input could not be read.
    Unread,
    /// Standard output could not be written.
    Unwritten,
    /// A word of the program is not UTF-8.
    NotUtf8,
    /// There was no memory, for the program's words or later.
    NoMemory,
    /// The records of the line of this number do not account for what moved.
    Unbalanced(u64),
    /// The audit found other books than the history has.
    AuditFailed,
}

impl From<TraceFault> for Outcome {
    fn from(fault: TraceFault) -> Self {
        match fault {
            TraceFault::NoMemory => Outcome::NoMemory,
            TraceFault::Bad { .. } => Outcome::Bad,
            TraceFault::Unbalanced(line) => Outcome::Unbalanced(line),
            TraceFault::AuditFailed => Outcome::AuditFailed,
        }
    }
}

impl Outcome {
    /// The exit status: 0 where all was performed, 1 where an action was refused, or there was no memory or nowhere to write, 2
    /// where words, the script or a line of words are bad or cannot be read, 3 where an audit failed.
    pub fn status(self) -> u8
        ensures { result ≡ spec.exit_status self }
    {
        match self {
            Outcome::Done { refused: false } => 0,
            Outcome::Done { refused: true }
            | Outcome::Unwritten
            | Outcome::NotUtf8
            | Outcome::NoMemory => 1,
            Outcome::WrongWords | Outcome::Bad | Outcome::Unread => 2,
            Outcome::Unbalanced(_) | Outcome::AuditFailed => 3,
        }
    }

    /// The line on standard error, where nothing else tells how the program ended.
    pub fn complaint(self) -> Option<&'static str>
        ensures { MatchOption result (spec.complaint_of self ≡ None) (λ line. spec.complaint_of self ≡ Some line.now) }
    {
        match self {
            Outcome::Done { .. } | Outcome::WrongWords | Outcome::Bad => None,
            Outcome::Unread => Some("chtrace: standard input could not be read"),
            Outcome::Unwritten => Some("chtrace: standard output could not be written"),
            Outcome::NotUtf8 => Some("chtrace: the words are not UTF-8"),
            Outcome::NoMemory => Some("chtrace: there is no memory"),
            Outcome::Unbalanced(_) => Some("chtrace: the records do not account for what moved"),
            Outcome::AuditFailed => Some("chtrace: the audit failed"),
        }
    }
}
