//! The instructions that change what a subchannel does (SA22-7832, chapter 14): the condition code of each, and what it
//! leaves of its subchannel. The request for an interruption is the caller's, and so are the operands.
#![tactic(auto)]

ghost use Rattle.std.specs.Prelude.{◌≡◌, ◌<◌, ◌^◌, Some};
ghost use Rattle.subchannel_model.specs.Start as start_spec;
ghost use Rattle.subchannel_model.specs.Resume as resume_spec;
ghost use Rattle.subchannel_model.specs.Halt as halt_spec;
ghost use Rattle.subchannel_model.specs.Clear as clear_spec;
ghost use Rattle.subchannel_model.specs.Cancel as cancel_spec;
ghost use Rattle.subchannel_model.specs.Modify as modify_spec;
ghost use Rattle.subchannel_model.specs.Conditions as condition_spec;
ghost use Rattle.subchannel_model.specs.Conditions.{condition_of};
ghost use Rattle.subchannel_model.specs.Start.{started};
ghost use Rattle.schib_block.specs.Reading.{pmcw_of_words};
ghost use Rattle.functions.specs.Unwired.{with_state};

mod block;
pub mod blocks;
pub mod codes;
pub mod effects;
mod images;
pub mod law;
pub mod rest;
pub mod state;
pub mod subchannel;

use chan_model::answer::ConditionCode;
use orb_block::Orb;
pub use rest::Rest;
pub use state::PackedState;
pub use subchannel::Subchannel;

/// START SUBCHANNEL with an ORB that is allowed.
pub fn ssch(state: &mut PackedState, orb: Orb) -> ConditionCode
    requires { state.old.state.starts < 2 ^ 63 }
    ensures code { result ≡ start_spec.ssch_code (condition_of (Some state.old.state)) }
    ensures state { state.new ≡ with_state state.old (condition_spec.left_by result state.old.state (started state.old.state orb)) }
{
    let code = codes::ssch_code(state);
    if code == ConditionCode::Zero {
        effects::start(state, &orb);
    }
    code
}

/// RESUME SUBCHANNEL.
pub fn rsch(state: &mut PackedState) -> ConditionCode
    ensures code { result ≡ resume_spec.rsch_code (condition_of (Some state.old.state)) }
    ensures state { state.new ≡ with_state state.old (condition_spec.left_by result state.old.state (resume_spec.resumed state.old.state)) }
{
    let code = codes::rsch_code(state);
    if code == ConditionCode::Zero {
        effects::resume(state);
    }
    code
}

/// HALT SUBCHANNEL.
pub fn hsch(state: &mut PackedState) -> ConditionCode
    ensures code { result ≡ halt_spec.hsch_code (condition_of (Some state.old.state)) }
    ensures state { state.new ≡ with_state state.old (condition_spec.left_by result state.old.state (halt_spec.halted state.old.state)) }
{
    let code = codes::hsch_code(state);
    if code == ConditionCode::Zero {
        effects::halt(state);
    }
    code
}

/// CLEAR SUBCHANNEL. The Reset that is then due is not sent here.
pub fn csch(state: &mut PackedState) -> ConditionCode
    requires { state.old.state.drawn < 2 ^ 63 }
    ensures code { result ≡ clear_spec.csch_code (condition_of (Some state.old.state)) }
    ensures state { state.new ≡ with_state state.old (condition_spec.left_by result state.old.state (clear_spec.cleared state.old.state)) }
{
    let code = codes::csch_code(state);
    if code == ConditionCode::Zero {
        effects::clear(state);
    }
    code
}

/// CANCEL SUBCHANNEL.
pub fn xsch(state: &mut PackedState) -> ConditionCode
    ensures code { result ≡ cancel_spec.xsch_code (condition_of (Some state.old.state)) }
    ensures state { state.new ≡ with_state state.old (condition_spec.left_by result state.old.state (cancel_spec.cancelled state.old.state)) }
{
    let code = codes::xsch_code(state);
    if code == ConditionCode::Zero {
        effects::cancel(state);
    }
    code
}

/// MODIFY SUBCHANNEL with a word that is allowed; whether its concurrent-sense bit is kept, the set-up says.
pub fn msch(state: &mut PackedState, given: &[u32; 7]) -> ConditionCode
    ensures code { result ≡ modify_spec.msch_code (condition_of (Some state.old.state)) }
    ensures state { state.new ≡ with_state state.old (condition_spec.left_by result state.old.state (modify_spec.placed state.old.setup.concurrent_sense state.old.state (pmcw_of_words given.now))) }
{
    let code = codes::msch_code(state);
    if code == ConditionCode::Zero {
        effects::write_pmcw(state, given);
    }
    code
}
