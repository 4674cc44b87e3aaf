//! Condition codes.

ghost use Rattle.std.specs.Prelude.{◌≡◌};
ghost use Rattle.script_text.specs.Text.{code_text};

use chan_events::reply::Reply;
use chan_model::answer::ConditionCode;

/// The condition code that a reply tells; None where it tells none.
pub fn code_of(reply: &Reply) -> Option<ConditionCode> {
    match reply {
        Reply::Code(answer) | Reply::Status { answer, .. } => Some(answer.code()),
        Reply::Interruption(None) => Some(ConditionCode::Zero),
        Reply::Interruption(Some(_)) => Some(ConditionCode::One),
        Reply::PathReset(code) => Some(*code),
        Reply::ChannelReport(None) => Some(ConditionCode::One),
        Reply::ChannelReport(Some(_)) => Some(ConditionCode::Zero),
        _ => None,
    }
}

/// A condition code as it is told: `cc 0`.
pub fn code_name(code: ConditionCode) -> &'static [u8]
    ensures { result.now ≡ code_text code }
{
    match code {
        ConditionCode::Zero => b"cc 0",
        ConditionCode::One => b"cc 1",
        ConditionCode::Two => b"cc 2",
        ConditionCode::Three => b"cc 3",
    }
}
