//! A subchannel at the opening (own).

ghost use Rattle.std.specs.Prelude.{◌≡◌};
ghost use Rattle.subchannel_model.specs.Opening as spec;

use chan_model::paths::PathSet;
use channel_config::parts::SubchannelSetup;
use functions::PackedState;
use hold::Hold;
use scsw_irb::scsw::Scsw;
use scsw_irb::serials::Serials;
use subchannel_model::state::{PmcwState, SubchannelState};

/// A subchannel of this set-up at the opening; its wires are made apart.
pub fn opened(setup: SubchannelSetup) -> PackedState
    ensures { result ≡ record { setup = setup; state = spec.opening_subchannel } }
{
    PackedState::of(setup, opening_subchannel())
}

fn opening_subchannel() -> SubchannelState
    ensures { result ≡ spec.opening_subchannel }
{
    SubchannelState {
        pmcw: opening_pmcw(),
        scsw: Scsw::zero(),
        serials: Serials {
            made: 0,
            cleared: 0,
        },
        drawn: 0,
        starts: 0,
        waiting: None,
        begun: None,
        suspended: None,
        hold: Hold::new().state(),
        offered: 0,
        last_path: None,
        dedicated: None,
    }
}

/// What changes of the path-management-control word of a subchannel, at the opening.
fn opening_pmcw() -> PmcwState
    ensures { result ≡ spec.opening_pmcw }
{
    PmcwState {
        parameter: 0,
        subclass: 0,
        enabled: false,
        multipath: false,
        logical: PathSet::all(),
        not_operational: PathSet::none(),
        last_used: None,
        operational: PathSet::all(),
        available: PathSet::all(),
        concurrent_sense: false,
    }
}
