//! The machine at its opening.

ghost use Rattle.std.specs.Prelude.{◌≡◌, IfOk, OnOk, OnErr, map, true, unwrap_or};
ghost use Rattle.machine_model.specs.State as state_spec;
ghost use Rattle.subchannel_model.specs.Opening as opening_spec;
ghost use Rattle.channel_config.specs.Lawful.{IsLawful};
ghost use Rattle.channel_config.specs.Setup as setup_spec;
ghost use Rattle.control_units.specs.Units as members_spec;
ghost use Rattle.lookup.specs.Tables.{Fits};
ghost use Rattle.interruptions.specs.Requests.{no_requests_wait};
ghost use Rattle.machine_model.specs.State.{lent, no_storage};
ghost use Rattle.storage_keys.specs.Storage.{cleared_storage};

use crate::machine::Machine;
use active_program::sent::SentDown;
use channel_config::config::Config;
use channel_config::parts::{SubchannelSetup, UnitKind};
use channel_reports::Reports;
use control_units::sharing::Sharing;
use functions::Subchannel;
use interruptions::Pending;
use lookup::engines::Engines;
use lookup::tables::SubchannelIndex;
use memory::{Supply, make_room, push};
use signal_step::tables::configured;
use std::alloc::{AllocError, Global};
use storage_keys::Storage;
use subchannel::opening;
use unit::Unit;
use wires::Wires;

/// How many numbers a set of subchannels has.
const NUMBERS_OF_A_SET: u16 = 0x100;

/// A subchannel at the opening.
fn opened<S: Supply>(
    alloc: Global,
    supply: &mut S,
    setup: &SubchannelSetup,
) -> Result<Subchannel, AllocError>
    ensures opened { IfOk result (λ sub. sub ≡ opening_spec.opened setup.now) }
    ensures unrefused { OnOk result (S.refused supply.new ≡ S.refused supply.old) }
    ensures memory { OnErr result (S.refused supply.new ≡ true) }
{
    Ok(Subchannel {
        state: opening::opened(setup.copy()),
        wires: Wires::new_with(alloc, supply)?,
    })
}

/// The subchannels of a configuration at the opening. Room for all is made first, so that none is moved.
fn opened_all<S: Supply>(
    alloc: Global,
    supply: &mut S,
    setups: &[SubchannelSetup],
) -> Result<Vec<Subchannel>, AllocError>
    ensures opened { IfOk result (λ subs. subs.items ≡ map opening_spec.opened setups.now) }
    ensures unrefused { OnOk result (S.refused supply.new ≡ S.refused supply.old) }
    ensures memory { OnErr result (S.refused supply.new ≡ true) }
{
    let mut subs = Vec::new(alloc);
    make_room(supply, &mut subs, setups.len())?;
    for setup in setups {
        let sub = opened(alloc, supply, setup)?;
        push(supply, &mut subs, sub)?;
    }
    Ok(subs)
}

/// A unit at the opening.
fn idle(kind: UnitKind) -> Unit
    ensures { result ≡ state_spec.idle_of kind }
{
    match kind {
        UnitKind::Block | UnitKind::Console | UnitKind::Rejecting => Unit::new(),
    }
}

fn idle_units<S: Supply>(
    alloc: Global,
    supply: &mut S,
    kinds: &[UnitKind],
) -> Result<Vec<Unit>, AllocError>
    ensures idle { IfOk result (λ units. units.items ≡ map state_spec.idle_of kinds.now) }
    ensures unrefused { OnOk result (S.refused supply.new ≡ S.refused supply.old) }
    ensures memory { OnErr result (S.refused supply.new ≡ true) }
{
    let mut units = Vec::new(alloc);
    for kind in kinds {
        push(supply, &mut units, idle(*kind))?;
    }
    Ok(units)
}

/// The identifiers of the channel paths.
fn copied<S: Supply>(alloc: Global, supply: &mut S, chpids: &[u8]) -> Result<Vec<u8>, AllocError>
    ensures copied { IfOk result (λ copy. copy.items ≡ chpids.now) }
    ensures unrefused { OnOk result (S.refused supply.new ≡ S.refused supply.old) }
    ensures memory { OnErr result (S.refused supply.new ≡ true) }
{
    let mut copy = Vec::new(alloc);
    for chpid in chpids {
        push(supply, &mut copy, *chpid)?;
    }
    Ok(copy)
}

/// What control units keep of the units of a configuration.
fn shared<S: Supply>(alloc: Global, supply: &mut S, config: &Config) -> Result<Sharing, AllocError>
    ensures shared { IfOk result (λ sharing. sharing ≡ map members_spec.idle_member (setup_spec.groups_of config.now)) }
    ensures unrefused { OnOk result (S.refused supply.new ≡ S.refused supply.old) }
    ensures memory { OnErr result (S.refused supply.new ≡ true) }
{
    let groups = config.groups_with(alloc, supply)?;
    Sharing::new_with(alloc, supply, groups.as_slice())
}

/// The units and the subchannels of a configuration at its opening, and the indices of these.
fn opened_sides<S: Supply>(
    alloc: Global,
    supply: &mut S,
    config: &Config,
) -> Result<(SubchannelIndex, Vec<Unit>, Vec<Subchannel>), AllocError>
    ensures fits { IfOk result (λ sides. Fits sides.0 sides.2.items) }
    ensures units { IfOk result (λ sides. sides.1.items ≡ map state_spec.idle_of config.now.units) }
    ensures subs { IfOk result (λ sides. sides.2.items ≡ map opening_spec.opened config.now.subchannels) }
    ensures lawful { OnOk result (IsLawful config.now) }
    ensures unrefused { OnOk result (S.refused supply.new ≡ S.refused supply.old) }
    ensures memory { OnErr result (S.refused supply.new ≡ true) }
{
    let units = idle_units(alloc, supply, config.units())?;
    let subs = opened_all(alloc, supply, config.subchannels())?;
    let indices = SubchannelIndex::of(
        alloc,
        supply,
        config.set_count(),
        units.len(),
        subs.as_slice(),
    )?;
    Ok((indices, units, subs))
}

/// What the machine keeps beside them at the opening: the channel paths, what control units keep, and requests for
/// interruptions.
fn opened_rest<S: Supply>(
    alloc: Global,
    supply: &mut S,
    config: &Config,
) -> Result<(Vec<u8>, Sharing, Pending), AllocError>
    ensures chpids { IfOk result (λ rest. rest.0.items ≡ config.now.paths) }
    ensures sharing { IfOk result (λ rest. rest.1 ≡ map members_spec.idle_member (setup_spec.groups_of config.now)) }
    ensures pending { IfOk result (λ rest. rest.2 ≡ no_requests_wait 0x100) }
    ensures unrefused { OnOk result (S.refused supply.new ≡ S.refused supply.old) }
    ensures memory { OnErr result (S.refused supply.new ≡ true) }
{
    let chpids = copied(alloc, supply, config.paths())?;
    let sharing = shared(alloc, supply, config)?;
    let pending = Pending::new_with(alloc, supply, NUMBERS_OF_A_SET)?;
    Ok((chpids, sharing, pending))
}

/// Main storage of a configuration at its opening: as large as it says, or the least.
pub(crate) fn opened_storage<S: Supply>(
    alloc: Global,
    supply: &mut S,
    config: &Config,
) -> Result<Storage, AllocError>
    ensures storage { IfOk result (λ storage. storage ≡ cleared_storage (unwrap_or config.now.blocks 16)) }
    ensures unrefused { OnOk result (S.refused supply.new ≡ S.refused supply.old) }
    ensures memory { OnErr result (S.refused supply.new ≡ true) }
{
    let blocks = match config.blocks() {
        Some(blocks) => blocks,
        None => 16,
    };
    Storage::new_with(alloc, supply, blocks)
}

/// The machine of a configuration, with the indices of its subchannels; storage is to be lent to it. It is refused only where
/// the supply refuses a growth.
pub fn opened_machine<S: Supply>(
    alloc: Global,
    supply: &mut S,
    config: &Config,
) -> Result<(SubchannelIndex, Machine), AllocError>
    ensures opened { IfOk result (λ m. m.1 ≡ lent (state_spec.opening_of config.now) no_storage) }
    ensures fits { IfOk result (λ m. Fits m.0 m.1.subs) }
    ensures lawful { OnOk result (IsLawful config.now) }
    ensures unrefused { OnOk result (S.refused supply.new ≡ S.refused supply.old) }
    ensures memory { OnErr result (S.refused supply.new ≡ true) }
{
    let (indices, units, subs) = opened_sides(alloc, supply, config)?;
    let (chpids, sharing, pending) = opened_rest(alloc, supply, config)?;
    let engines = Engines::new();
    let machine = Machine {
        sets: config.set_count(),
        chpids,
        up: configured(config.paths()),
        subs,
        units,
        sharing,
        pending,
        reports: Reports::new(),
        path_return: config.path_return(),
        engines,
        sent: SentDown::new(),
    };
    Ok((indices, machine))
}
