//! What the definitions of a served script come to.

ghost use Rattle.script_runner.specs.Audits.{FailsOnlyByRace, NoneFails};

/// No script that is run without a race ends by a failed audit: whatever its events come to, the log of the seat from which they
/// are entered is what the history has of that seat.
pub fn no_audit_fails()
    ensures { NoneFails }
{}

/// A script that may race ends by a failed audit only where it raced, and the audit after its race failed.
pub fn audit_fails_only_by_a_race()
    ensures { FailsOnlyByRace }
{}
