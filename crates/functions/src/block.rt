//! The path-management-control word of a subchannel, made of what it is.

ghost use Rattle.std.specs.Prelude.{◌≡◌, ◌<◌, slice_index};
ghost use Rattle.subchannel_model.specs.Store as spec;
ghost use Rattle.subchannel_model.specs.declared.state.Subchannel.{Subchannel};

use chan_model::paths::{PathSet, mask_of_path};
use channel_config::parts::SubchannelSetup;
use schib_block::pmcw::Pmcw;
use subchannel_model::state::PmcwState;

fn chpid_at(paths: &[u8], index: usize) -> u8
    ensures { result ≡ slice_index paths.now index }
{
    match paths.get(index) {
        Some(chpid) => *chpid,
        None => 0,
    }
}

fn chpids_of(paths: &[u8]) -> [u8; 8]
    ensures { result ≡ spec.chpids_of paths.now }
{
    [
        chpid_at(paths, 0),
        chpid_at(paths, 1),
        chpid_at(paths, 2),
        chpid_at(paths, 3),
        chpid_at(paths, 4),
        chpid_at(paths, 5),
        chpid_at(paths, 6),
        chpid_at(paths, 7),
    ]
}

/// The word: V is one, and what there is not (limits, measurement and timing) is zero.
pub(crate) fn pmcw_of(setup: &SubchannelSetup, state: &PmcwState) -> Pmcw
    ensures { (sub : Subchannel) → sub.setup ≡ setup.now → sub.state.pmcw ≡ state.now → result ≡ spec.pmcw_of sub }
{
    let installed = PathSet::below(setup.paths.as_slice().len());
    Pmcw {
        parameter: state.parameter,
        subclass: state.subclass,
        enabled: state.enabled,
        limit_mode: 0,
        measurement_mode: 0,
        multipath: state.multipath,
        timing: false,
        valid: true,
        device_number: setup.device,
        logical: state.logical.mask(),
        not_operational: state.not_operational.mask(),
        last_used: mask_of_path(state.last_used),
        installed: installed.mask(),
        measurement_block: 0,
        operational: state.operational.mask(),
        available: installed.intersection(&state.available).mask(),
        chpids: chpids_of(setup.paths.as_slice()),
        concurrent_sense: state.concurrent_sense,
    }
}
