//! The instructions on the state of one subchannel, used without a machine, and codes in states that no script comes to.

use crate::tests::setups::{is_same_words, orb, packed, state_of_words};
use chan_model::answer::ConditionCode;
use functions::codes::{msch_code, rsch_code, stsch_code, tsch_code, xsch_code};
use functions::{PackedState, ssch, xsch};

fn start(state: &mut PackedState) -> Option<ConditionCode> {
    let orb = orb()?;
    if state.rest().starts < 9 {
        Some(ssch(state, orb))
    } else {
        None
    }
}

/// Whether a start is cancelled once.
fn cancels_start(state: &mut PackedState) -> bool {
    let started = start(state) == Some(ConditionCode::Zero);
    let cancelled = xsch(state) == ConditionCode::Zero;
    let shown = is_same_words(state, [0x0080_0000, 0x1000, 0]);
    let over = state.rest().waiting.is_none();
    let not_again = xsch(state) == ConditionCode::Two;
    started && cancelled && shown && over && not_again
}

/// A subchannel whose status word begins so.
fn found(word: u32, enabled: bool) -> PackedState {
    let mut state = state_of_words([word, 0, 0]);
    state.pmcw.enabled = enabled;
    packed(state)
}

/// Whether a subchannel that is not enabled, and has a function or status, has these codes.
fn are_codes_where_not_enabled() -> bool {
    let pending = found(0x0080_4007, false);
    msch_code(&pending) == ConditionCode::One
        && stsch_code(&pending) == ConditionCode::Zero
        && tsch_code(&pending) == ConditionCode::Three
        && msch_code(&found(0x0000_2200, false)) == ConditionCode::Two
        && rsch_code(&found(0x0880_4020, false)) == ConditionCode::Three
        && xsch_code(&found(0x0080_4400, false)) == ConditionCode::Three
}

/// Whether a program that was halted is not resumed, and one is not cancelled that is neither active nor waits.
fn are_codes_where_enabled() -> bool {
    rsch_code(&found(0x0880_6020, true)) == ConditionCode::Two
        && xsch_code(&found(0x0080_4040, true)) == ConditionCode::Two
}

#[test]
fn a_start_is_cancelled(rt: HostRuntime) {
    let cancelled = cancels_start(&mut found(0, true));
    assert!(rt; cancelled && are_codes_where_not_enabled() && are_codes_where_enabled());
}
