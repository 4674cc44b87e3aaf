//! Who there is: the subchannels, the units and the channel paths of a script, in the order of its configuration.

ghost use Rattle.std.specs.Prelude.{◌≡◌, IfOk, OnOk, OnErr, true};
ghost use Rattle.step_records.specs.Named as spec;

use chan_model::names::Side;
use channel_config::config::Config;
use channel_config::names::SubchannelId;
use channel_config::parts::{SubchannelSetup, UnitKind};
use memory::{Supply, push};
use std::alloc::{AllocError, Global};

/// The subchannels and the units of a machine, by index from 0, and the identifiers of its channel paths.
#[derive(Drop)]
pub struct Parties {
    pub subchannels: Vec<SubchannelSetup>,
    pub units: Vec<UnitKind>,
    pub paths: Vec<u8>,
}

/// The subsystem-identification word of a subchannel (SA22-7832, chapter 13).
pub fn word_of(id: SubchannelId) -> u32
    ensures { result ≡ spec.word_of id }
{
    (u32::from(id.set) % 4) * 0x2_0000 + 0x1_0000 + u32::from(id.number)
}

/// The same set-ups again.
fn setups_of<S: Supply>(
    alloc: Global,
    supply: &mut S,
    setups: &[SubchannelSetup],
) -> Result<Vec<SubchannelSetup>, AllocError>
    ensures same { IfOk result (λ list. list.items ≡ setups.now) }
    ensures unrefused { OnOk result (S.refused supply.new ≡ S.refused supply.old) }
    ensures memory { OnErr result (S.refused supply.new ≡ true) }
{
    let mut list = Vec::new(alloc);
    for setup in setups {
        push(supply, &mut list, setup.copy())?;
    }
    Ok(list)
}

/// The same kinds again.
fn units_of<S: Supply>(
    alloc: Global,
    supply: &mut S,
    kinds: &[UnitKind],
) -> Result<Vec<UnitKind>, AllocError>
    ensures same { IfOk result (λ list. list.items ≡ kinds.now) }
    ensures unrefused { OnOk result (S.refused supply.new ≡ S.refused supply.old) }
    ensures memory { OnErr result (S.refused supply.new ≡ true) }
{
    let mut list = Vec::new(alloc);
    for kind in kinds {
        push(supply, &mut list, *kind)?;
    }
    Ok(list)
}

/// The same identifiers again.
fn paths_of<S: Supply>(alloc: Global, supply: &mut S, chpids: &[u8]) -> Result<Vec<u8>, AllocError>
    ensures same { IfOk result (λ list. list.items ≡ chpids.now) }
    ensures unrefused { OnOk result (S.refused supply.new ≡ S.refused supply.old) }
    ensures memory { OnErr result (S.refused supply.new ≡ true) }
{
    let mut list = Vec::new(alloc);
    for chpid in chpids {
        push(supply, &mut list, *chpid)?;
    }
    Ok(list)
}

impl Parties {
    /// Those of a configuration. There is no memory only where the supply refused a growth.
    pub fn of<S: Supply>(
        alloc: Global,
        supply: &mut S,
        config: &Config,
    ) -> Result<Parties, AllocError>
        ensures subchannels { IfOk result (λ p. p.subchannels.items ≡ config.now.subchannels) }
        ensures units { IfOk result (λ p. p.units.items ≡ config.now.units) }
        ensures paths { IfOk result (λ p. p.paths.items ≡ config.now.paths) }
        ensures unrefused { OnOk result (S.refused supply.new ≡ S.refused supply.old) }
        ensures memory { OnErr result (S.refused supply.new ≡ true) }
    {
        Ok(Parties {
            subchannels: setups_of(alloc, supply, config.subchannels())?,
            units: units_of(alloc, supply, config.units())?,
            paths: paths_of(alloc, supply, config.paths())?,
        })
    }

    /// The index of the subchannel that a subsystem-identification word names; None where there is none.
    pub fn subchannel_named(&self, word: u32) -> Option<usize>
        ensures { result ≡ spec.index_of self.now.subchannels.items word }
    {
        self.subchannels
            .iter()
            .position(|setup| word_of(setup.id) == word)
    }

    /// The index of the subchannel of this name; None where there is none.
    pub fn subchannel_of_id(&self, id: SubchannelId) -> Option<usize> {
        self.subchannels.iter().position(|setup| setup.id.set == id.set
            && setup.id.number == id.number)
    }

    /// The index of the subchannel that is this side of a unit; None where there is none.
    pub fn subchannel_of(&self, unit: usize, side: Side) -> Option<usize>
        ensures { result ≡ spec.index_at self.now.subchannels.items unit side }
    {
        self.subchannels.iter().position(|setup| usize::from(setup.unit) == unit
            && setup.side.same(side))
    }
}
