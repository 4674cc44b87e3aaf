//! Condition codes, and the answer of an instruction on a subchannel.

ghost use Rattle.std.specs.Prelude.{◌≡◌};

use scsw_irb::serials::Serials;

/// A condition code (SA22-7832, chapter 14).
#[derive(Clone, Copy, Debug, PartialEq, Eq)]
pub enum ConditionCode {
    Zero,
    One,
    Two,
    Three,
}

/// The condition code of an instruction on a subchannel (SA22-7832, chapter 14). The codes 0 and 1 bring the serials of
/// the subchannel as the instruction leaves them.
#[derive(Clone, Copy, Debug, PartialEq, Eq)]
pub enum Answer {
    Zero(Serials),
    One(Serials),
    Two,
    Three,
}

impl Answer {
    ghost use Rattle.chan_model.specs.ConditionCodes.{answer_of_code, code_of};

    /// The answer of a code, for a subchannel with these serials.
    pub fn of(code: ConditionCode, serials: Serials) -> Self
        ensures { result ≡ answer_of_code code serials }
    {
        match code {
            ConditionCode::Zero => Answer::Zero(serials),
            ConditionCode::One => Answer::One(serials),
            ConditionCode::Two => Answer::Two,
            ConditionCode::Three => Answer::Three,
        }
    }

    /// The code.
    pub fn code(self) -> ConditionCode
        ensures { result ≡ code_of self }
    {
        match self {
            Answer::Zero(_) => ConditionCode::Zero,
            Answer::One(_) => ConditionCode::One,
            Answer::Two => ConditionCode::Two,
            Answer::Three => ConditionCode::Three,
        }
    }
}
