//! Status on the state of one subchannel, used without a machine, in states that no script comes to.

use crate::tests::setups::{is_same_words, orb, packed, state_of_words};
use chan_model::answer::ConditionCode;
use functions::PackedState;
use status::tsch;
use subchannel_model::state::{Program, SubchannelState};

/// A subchannel with these words, and a start that waits behind them.
fn pending(words: [u32; 3], enabled: bool) -> PackedState {
    let waiting = orb().map(|orb| Program {
        start: 2,
        orb,
        single_path: true,
    });
    let mut state = SubchannelState {
        waiting,
        ..state_of_words(words)
    };
    state.pmcw.enabled = enabled;
    packed(state)
}

/// Whether pending status is tested by this code, which leaves these words.
fn tests(state: &mut PackedState, code: ConditionCode, words: [u32; 3]) -> bool {
    let tested = tsch(state) == code;
    tested && is_same_words(state, words)
}

/// Whether pending status is tested once, and its start waits on.
fn is_tested_once(state: &mut PackedState) -> bool {
    let left = [0x0080_0040, 0x1008, 0x0800_0000];
    let tested = tests(state, ConditionCode::Zero, left);
    let serials = state.rest().serials;
    let waits = state.rest().waiting.is_some();
    let not_again = tests(state, ConditionCode::One, left);
    tested && (serials.made, serials.cleared) == (9, 9) && waits && not_again
}

#[test]
fn pending_status_is_tested_once(rt: HostRuntime) {
    let words = [0x0381_4045, 0x1008, 0x0800_0000];
    let once = is_tested_once(&mut pending(words, true));
    let not_enabled = tests(&mut pending(words, false), ConditionCode::Three, words);
    let of_suspended = tests(
        &mut pending([0x0981_4829, 0x1008, 0], true),
        ConditionCode::Zero,
        [0x0880_4020, 0x1008, 0],
    );
    assert!(rt; once && not_enabled && of_suspended);
}
