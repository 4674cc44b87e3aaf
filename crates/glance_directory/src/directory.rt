//! The subchannels of a machine as they are set up, for those who look without the lock.

ghost use Rattle.std.specs.Prelude.{◌≡◌, ◌<◌, true, IfOk, IfSome, OnErr, OnOk, length, slice_get};
ghost use Rattle.glance_directory.specs.Directory as spec;
ghost use Rattle.glance_directory.specs.Directory.{directory_by};

use channel_config::config::Config;
use channel_config::names::{SubchannelId, subchannel_named};
use channel_config::parts::SubchannelSetup;
use memory::{Supply, push};
use std::alloc::{AllocError, Global};
use std::marker::Model;

/// The subchannels of a machine, in the order of the configuration.
#[derive(Drop)]
pub struct Directory {
    sets: u8,
    setups: Vec<SubchannelSetup>,
}

impl Model for Directory {
    ghost use Rattle.glance_directory.specs.Directory as spec;

    ghost Value = { spec.Directory };

    ghost view = { λ d. record { sets = d.sets; setups = d.setups.items } };
}

impl Directory {
    /// The subchannels of a configuration, in what room a supply has.
    pub fn new_with<S: Supply>(
        alloc: Global,
        supply: &mut S,
        config: &Config,
    ) -> Result<Directory, AllocError>
        ensures made { IfOk result (λ d. d ≡ directory_by config.now) }
        ensures unrefused { OnOk result (S.refused supply.new ≡ S.refused supply.old) }
        ensures memory { OnErr result (S.refused supply.new ≡ true) }
    {
        Ok(Directory {
            sets: config.set_count(),
            setups: copies_of(alloc, supply, config.subchannels())?,
        })
    }

    /// How many subchannels there are.
    pub fn count(&self) -> usize
        ensures { result ≡ length self.now.setups }
    {
        self.setups.len()
    }

    /// The subchannels.
    pub fn setups(&self) -> &[SubchannelSetup]
        ensures { result.now ≡ self.now.setups }
    {
        self.setups.as_slice()
    }

    /// The index of the subchannel that a subsystem-identification word names; None where it is not configured.
    pub fn index_of(&self, word: u32) -> Option<usize>
        ensures index { result ≡ spec.index_named self.now word }
        ensures bound { IfSome result (λ index. index < length self.now.setups) }
    {
        let id = subchannel_named(self.sets, word)?;
        named_index(id, self.setups.as_slice())
    }
}

/// The same subchannels.
fn copies_of<S: Supply>(
    alloc: Global,
    supply: &mut S,
    setups: &[SubchannelSetup],
) -> Result<Vec<SubchannelSetup>, AllocError>
    ensures copies { IfOk result (λ copies. copies.items ≡ setups.now) }
    ensures unrefused { OnOk result (S.refused supply.new ≡ S.refused supply.old) }
    ensures memory { OnErr result (S.refused supply.new ≡ true) }
{
    let mut copies = Vec::new(alloc);
    for setup in setups {
        push(supply, &mut copies, setup.copy())?;
    }
    Ok(copies)
}

fn is_name(id: SubchannelId, setup: &SubchannelSetup) -> bool
    ensures { result ≡ spec.is_name id setup.now }
{
    setup.id.set == id.set && setup.id.number == id.number
}

/// The index of the first subchannel of this name.
fn named_index(id: SubchannelId, setups: &[SubchannelSetup]) -> Option<usize>
    ensures index { result ≡ spec.named_index id setups.now }
    ensures bound { IfSome result (λ index. index < length setups.now) }
{
    for index in 0..setups.len() {
        if is_name_at(id, setups, index) {
            return Some(index);
        }
    }
    None
}

/// Whether the subchannel at an index has this name.
fn is_name_at(id: SubchannelId, setups: &[SubchannelSetup], index: usize) -> bool
    ensures { result ≡ spec.is_name_at id (slice_get setups.now index) }
{
    match setups.get(index) {
        Some(setup) => is_name(id, setup),
        None => false,
    }
}
