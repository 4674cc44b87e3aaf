//! What an instruction leaves of its subchannel.

ghost use Rattle.std.specs.Prelude.{◌≡◌};
ghost use Rattle.chan_events.specs.Replies.{reply_of};
ghost use Rattle.chan_events.specs.declared.reply.Reply.TheVariants as reply_spec;
ghost use Rattle.chan_model.specs.declared.answer.Answer.TheVariants as answer_spec;
ghost use Rattle.machine_model.specs.InstructionSteps as spec;
ghost use Rattle.machine_model.specs.Results as result_spec;
ghost use Rattle.machine_model.specs.Bounds.{CanCount};
ghost use Rattle.schib_block.specs.Modify.{IsAllowedPmcw};
ghost use Rattle.schib_block.specs.Reading.{pmcw_of_words};
ghost use Rattle.subchannel_model.specs.Start.{ssch_code, started};
ghost use Rattle.subchannel_model.specs.Resume.{rsch_code, resumed};
ghost use Rattle.subchannel_model.specs.Halt.{hsch_code, halted};
ghost use Rattle.subchannel_model.specs.Clear.{csch_code, cleared};
ghost use Rattle.subchannel_model.specs.Cancel.{xsch_code, cancelled};
ghost use Rattle.subchannel_model.specs.Test as test_spec;

use chan_events::reply::{PlainReply, Reply};
use chan_model::answer::{Answer, ConditionCode};
use functions::codes::{stsch_code, tsch_code};
use functions::law::modified;
use functions::{Subchannel, csch, hsch, msch, rsch, ssch, xsch};
use orb_block::Orb;
use scsw_irb::scsw::Scsw;
use status::tsch;

/// START SUBCHANNEL with an allowed ORB.
pub fn start_sub(sub: &mut Subchannel, orb: Orb) -> PlainReply
    requires { CanCount sub.old }
    ensures left { spec.function_sub sub.old (spec.code_at ssch_code sub.old) (started sub.old.state orb) ≡
        result_spec.leaves (reply_of result) sub.new }
    ensures setup { sub.new.setup ≡ sub.old.setup }
{
    let code = ssch(&mut sub.state, orb);
    Reply::Code(Answer::of(code, sub.state.rest().serials))
}

/// The condition code of TEST SUBCHANNEL.
pub fn test_code_of(sub: &Subchannel) -> ConditionCode
    ensures { result ≡ spec.code_at test_spec.tsch_code sub.now }
{
    tsch_code(&sub.state)
}

/// The status word that a reply shows. A call that is not built in: its answer is a value of many small parts, which are kept
/// together so.
#[inline(never)]
fn shown_word(sub: &Subchannel) -> Scsw
    ensures { result ≡ sub.now.state.scsw }
{
    sub.state.scsw().scsw()
}

/// TEST SUBCHANNEL, but for the IRB.
pub fn test_sub(sub: &mut Subchannel) -> PlainReply
    ensures left { spec.test_with sub.old (spec.code_at test_spec.tsch_code sub.old) ≡
        result_spec.leaves (reply_of result) sub.new }
    ensures setup { sub.new.setup ≡ sub.old.setup }
{
    let scsw = shown_word(sub);
    let code = tsch(&mut sub.state);
    let answer = Answer::of(code, sub.state.rest().serials);
    match code {
        ConditionCode::Zero | ConditionCode::One => Reply::Status { answer, scsw },
        ConditionCode::Two | ConditionCode::Three => Reply::Code(answer),
    }
}

/// Whether TEST SUBCHANNEL stores an interruption-response block.
pub fn stores_irb(code: ConditionCode) -> bool
    ensures { result ≡ spec.stores_irb code }
{
    match code {
        ConditionCode::Zero | ConditionCode::One => true,
        ConditionCode::Two | ConditionCode::Three => false,
    }
}

/// What STORE SUBCHANNEL answers.
pub fn store_reply(sub: &Subchannel) -> PlainReply
    ensures { reply_of result ≡ reply_spec.Status (answer_spec.Zero sub.now.state.serials) sub.now.state.scsw }
{
    let code = stsch_code(&sub.state);
    Reply::Status {
        answer: Answer::of(code, sub.state.rest().serials),
        scsw: shown_word(sub),
    }
}

/// MODIFY SUBCHANNEL with the words of one that it allows.
pub fn modify_sub(sub: &mut Subchannel, given: &[u32; 7]) -> PlainReply
    requires { IsAllowedPmcw (pmcw_of_words given.now) }
    ensures left { spec.modify_sub sub.old (pmcw_of_words given.now) ≡ result_spec.leaves (reply_of result) sub.new }
    ensures setup { sub.new.setup ≡ sub.old.setup }
{
    modified();
    let code = msch(&mut sub.state, given);
    Reply::Code(Answer::of(code, sub.state.rest().serials))
}

/// RESUME SUBCHANNEL.
pub fn resume_sub(sub: &mut Subchannel) -> PlainReply
    ensures left { spec.function_sub sub.old (spec.code_at rsch_code sub.old) (resumed sub.old.state) ≡
        result_spec.leaves (reply_of result) sub.new }
    ensures setup { sub.new.setup ≡ sub.old.setup }
{
    let code = rsch(&mut sub.state);
    Reply::Code(Answer::of(code, sub.state.rest().serials))
}

/// HALT SUBCHANNEL.
pub fn halt_sub(sub: &mut Subchannel) -> PlainReply
    ensures left { spec.function_sub sub.old (spec.code_at hsch_code sub.old) (halted sub.old.state) ≡
        result_spec.leaves (reply_of result) sub.new }
    ensures setup { sub.new.setup ≡ sub.old.setup }
{
    let code = hsch(&mut sub.state);
    Reply::Code(Answer::of(code, sub.state.rest().serials))
}

/// CLEAR SUBCHANNEL.
pub fn clear_sub(sub: &mut Subchannel) -> PlainReply
    requires { CanCount sub.old }
    ensures left { spec.function_sub sub.old (spec.code_at csch_code sub.old) (cleared sub.old.state) ≡
        result_spec.leaves (reply_of result) sub.new }
    ensures setup { sub.new.setup ≡ sub.old.setup }
{
    let code = csch(&mut sub.state);
    Reply::Code(Answer::of(code, sub.state.rest().serials))
}

/// CANCEL SUBCHANNEL.
pub fn cancel_sub(sub: &mut Subchannel) -> PlainReply
    ensures left { spec.function_sub sub.old (spec.code_at xsch_code sub.old) (cancelled sub.old.state) ≡
        result_spec.leaves (reply_of result) sub.new }
    ensures setup { sub.new.setup ≡ sub.old.setup }
{
    let code = xsch(&mut sub.state);
    Reply::Code(Answer::of(code, sub.state.rest().serials))
}
