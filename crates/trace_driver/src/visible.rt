//! What a program on a CPU can see.

ghost use Rattle.std.specs.Prelude.{◌≡◌};
ghost use Rattle.trace_driver.specs.Visible as spec;

use seen_answers::instruction::act_of;
use step_records::record::{Fact, Record, ReportChange, RequestChange};
use step_records::script_lines::ScriptLines;

/// Whether a program on a CPU can see this record of a script of this text: the answer to an instruction or what a load brings, a
/// request for an interruption that is posted, and a channel report that waits (SA22-7832, chapters 14, 16 and 17).
pub fn is_visible(text: &ScriptLines, told: &Record) -> bool
    ensures { result ≡ spec.is_visible text.now told.now }
{
    match &told.fact {
        Fact::Answer(_) => act_of(text.line(told.line)).is_some(),
        Fact::Request {
            change: RequestChange::Posted,
            ..
        } => true,
        Fact::Report {
            change: ReportChange::Waits,
            ..
        } => true,
        _ => false,
    }
}
