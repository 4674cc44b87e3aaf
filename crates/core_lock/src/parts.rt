//! What a machine is made of beforehand, so that its name can be given to it.

ghost use Rattle.std.specs.Prelude.{◌≡◌, true, IfOk, OnErr, OnOk, replicate};
ghost use Rattle.machine_model.specs.State.{opening_of};
ghost use Rattle.subsystem.specs.Keeping.{all_serials};
ghost use Rattle.glance_directory.specs.Directory.{directory_of};
ghost use Rattle.glance_directory.specs.Cells.{shown, serials};

use crate::supplies::CoreSupply;
use channel_config::config::Config;
use glance_cell::cell::Writer;
use glance_cell::supplies::CellSupply;
use glance_directory::directory::Directory;
use memory::{Allocator, push};
use std::alloc::{AllocError, Global};
use std::marker::Model;
use std::sync::Arc;
use std::sync::ledger::Blank;

/// The ledgers, the glance cells and the directory of a machine that is not made yet.
#[derive(Drop)]
pub struct Parts {
    pub(crate) entries: Blank,
    pub(crate) turns: Blank,
    pub(crate) writers: Vec<Writer>,
    pub(crate) directory: Arc<Directory>,
}

impl Model for Parts {
    ghost use Rattle.std.specs.Prelude.{◌≡◌, length};
    ghost use Rattle.std.specs.Arc.{arc_value};
    ghost use Rattle.glance_directory.specs.Cells.{cells_of, shown};
    ghost use Rattle.core_lock.specs.Named.{MachineParts};

    ghost Value = { MachineParts };

    ghost view = { λ p. record {
      name = record { entries = p.entries.name; turns = p.turns.name; cells = cells_of p.writers.items; directory = arc_value p.directory };
      serials = shown p.writers.items;
    } };

    ghost invariant = { λ p. (p.entries.parts ≡ 1025) × (p.turns.parts ≡ 1025) };
}

impl Parts {
    /// The parts of a machine of this configuration. Where no memory is left there are none.
    pub fn new(alloc: Global, config: &Config) -> Result<Parts, AllocError>
        ensures directory { IfOk result (λ p. p.name.directory ≡ directory_of (opening_of config.now)) }
        ensures serials { IfOk result (λ p. p.serials ≡ all_serials (opening_of config.now)) }
    {
        Parts::new_with(alloc, &mut Allocator { refused: false }, config)
    }

    /// The parts of a machine of this configuration, in what memory a supply has. Where the supply refuses some, and only
    /// there, there are none.
    pub fn new_with<S: CoreSupply>(
        alloc: Global,
        supply: &mut S,
        config: &Config,
    ) -> Result<Parts, AllocError>
        ensures directory { IfOk result (λ p. p.name.directory ≡ directory_of (opening_of config.now)) }
        ensures serials { IfOk result (λ p. p.serials ≡ all_serials (opening_of config.now)) }
        ensures unrefused { OnOk result (S.refused supply.new ≡ S.refused supply.old) }
        ensures memory { OnErr result (S.refused supply.new ≡ true) }
    {
        let directory = Directory::new_with(alloc, supply, config)?;
        let writers = writers_of(alloc, supply, config.subchannels().len())?;
        Ok(Parts {
            entries: Blank::new(1025),
            turns: Blank::new(1025),
            writers,
            directory: supply.share(alloc, directory)?,
        })
    }
}

/// So many cells, of which nothing was made or cleared, by their writers.
fn writers_of<S: CellSupply>(
    alloc: Global,
    supply: &mut S,
    count: usize,
) -> Result<Vec<Writer>, AllocError>
    ensures shown { IfOk result (λ writers. shown writers.items ≡ replicate count (serials 0 0)) }
    ensures unrefused { OnOk result (S.refused supply.new ≡ S.refused supply.old) }
    ensures memory { OnErr result (S.refused supply.new ≡ true) }
{
    let mut writers = Vec::new(alloc);
    for _index in 0..count {
        let writer = supply.cell(alloc)?;
        push(supply, &mut writers, writer)?;
    }
    Ok(writers)
}
