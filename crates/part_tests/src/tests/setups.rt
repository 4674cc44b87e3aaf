//! A subchannel that is used without a machine.

use chan_model::hold_state::{HoldPhase, HoldState};
use chan_model::names::Side;
use chan_model::paths::PathSet;
use channel_config::names::SubchannelId;
use channel_config::parts::{ChpidList, ConcurrentSense, SubchannelSetup};
use functions::PackedState;
use orb_block::Orb;
use scsw_irb::scsw::Scsw;
use scsw_irb::serials::Serials;
use subchannel_model::state::{PmcwState, SubchannelState};

/// An ORB of format 1 with all paths and a channel program at 1000.
pub(crate) fn orb() -> Option<Orb> {
    Orb::read(&[0, 0, 0, 0, 0, 0x80, 0xFF, 0, 0, 0, 0x10, 0]).ok()
}

/// A subchannel of subclass 0 whose status word has these three words, and which holds no device.
pub(crate) fn state_of_words(words: [u32; 3]) -> SubchannelState {
    SubchannelState {
        pmcw: PmcwState {
            parameter: 0,
            subclass: 0,
            enabled: true,
            multipath: false,
            logical: PathSet::all(),
            not_operational: PathSet::none(),
            last_used: None,
            operational: PathSet::all(),
            available: PathSet::all(),
            concurrent_sense: false,
        },
        scsw: Scsw::of_words(&words).unwrap_or(Scsw::zero()),
        serials: Serials {
            made: 9,
            cleared: 8,
        },
        drawn: 0,
        starts: 2,
        waiting: None,
        begun: None,
        suspended: None,
        hold: HoldState {
            phase: HoldPhase::Free,
            seen: 0,
            known_restarts: 0,
            reset_path: None,
            first_path: None,
            single_path: true,
        },
        offered: 0,
        last_path: None,
        dedicated: None,
    }
}

/// Device 0100, on the first side of unit 0, by the paths 10 and 11, in this state.
pub(crate) fn packed(state: SubchannelState) -> PackedState {
    let mut paths = ChpidList::new();
    paths.push(0x10);
    paths.push(0x11);
    let setup = SubchannelSetup {
        id: SubchannelId { set: 0, number: 0 },
        device: 0x100,
        unit: 0,
        side: Side::First,
        paths,
        concurrent_sense: ConcurrentSense::Dropped,
    };
    PackedState::of(setup, state)
}

/// Whether the status word of a subchannel has these three words.
pub(crate) fn is_same_words(state: &PackedState, words: [u32; 3]) -> bool {
    *state.scsw_words() == words
}
