//! Where each subchannel stands, by its name and by the side of the unit that it reaches.

ghost use Rattle.std.specs.Prelude.{◌≡◌, ◌<◌, ◌++◌, IfOk, IfSome, None, OnOk, OnErr, length, replicate, slice_get, true};
ghost use Rattle.subchannel_model.specs.Indices as index_spec;
ghost use Rattle.lookup.specs.Tables as spec;
ghost use Rattle.memory.specs.Requests.{IsModest};

use crate::walk::{index_in, reached_in};
use chan_model::names::Side;
use channel_config::names::SubchannelId;
use functions::Subchannel;
use memory::Supply;
use std::alloc::{AllocError, Global};
use std::marker::Model;

/// How many numbers of a set have entries in the table of names.
const NUMBERS_OF_A_SET: usize = 0x100;

/// How many entries are asked for at a time: the most that one request may ask for.
const PORTION: usize = 0x100_0000;

/// The indices of the subchannels of a machine, by their names and by the sides of units that they reach. It stays right while
/// no subchannel comes, goes or is set up otherwise.
#[derive(Drop)]
pub struct SubchannelIndex {
    named: Vec<Option<usize>>,
    firsts: Vec<Option<usize>>,
    seconds: Vec<Option<usize>>,
}

impl Model for SubchannelIndex {
    ghost use Rattle.lookup.specs.Tables.{Tables};

    ghost Value = { Tables };

    ghost view = { λ t. record { named = t.named.items; firsts = t.firsts.items; seconds = t.seconds.items } };
}

/// A table of so many entries, each of them empty.
fn empty_table<S: Supply>(
    alloc: Global,
    supply: &mut S,
    entries: usize,
) -> Result<Vec<Option<usize>>, AllocError>
    ensures entries { IfOk result (λ table. table.items ≡ replicate entries None) }
    ensures unrefused { OnOk result (S.refused supply.new ≡ S.refused supply.old) }
    ensures memory { OnErr result (S.refused supply.new ≡ true) }
{
    let mut table = Vec::new(alloc);
    let mut left = entries;
    while left > 0 {
        let more = left.min(PORTION);
        add_empty(supply, &mut table, more)?;
        left -= more;
    }
    Ok(table)
}

/// So many entries more, each of them empty.
fn add_empty<S: Supply>(
    supply: &mut S,
    table: &mut Vec<Option<usize>>,
    more: usize,
) -> Result<(), AllocError>
    requires modest { IsModest more }
    ensures added { OnOk result (table.new.items ≡ table.old.items ++ replicate more None) }
    ensures unrefused { OnOk result (S.refused supply.new ≡ S.refused supply.old) }
    ensures memory { OnErr result (S.refused supply.new ≡ true) }
{
    supply.reserve(table, more)?;
    table.resize(table.len() + more, None).unwrap();
    Ok(())
}

/// Where the entry of a name is: 256 entries for each set. None for a number of 256 or above, which has no entry.
fn name_index(id: SubchannelId) -> Option<usize>
    ensures { result ≡ spec.name_index id }
{
    let number = usize::from(id.number);
    if number < NUMBERS_OF_A_SET {
        Some(usize::from(id.set) * NUMBERS_OF_A_SET + number)
    } else {
        None
    }
}

/// Where the entry of a subchannel is in the table of this side. None where it reaches the other side of its unit.
fn unit_index(side: Side, sub: &Subchannel) -> Option<usize>
    ensures { result ≡ spec.unit_index side sub.now }
{
    let setup = sub.state.setup();
    if setup.side.same(side) {
        Some(usize::from(setup.unit))
    } else {
        None
    }
}

/// The entry at an key; None beyond the table.
fn entry(table: &[Option<usize>], key: usize) -> Option<Option<usize>>
    ensures { result ≡ slice_get table.now key }
{
    table.get(key).copied()
}

/// Writes an index over the entry at an key. An key beyond the table, and none at all, leave the table as it is.
fn write_entry(table: &mut Vec<Option<usize>>, key: Option<usize>, index: usize)
    ensures { table.new.items ≡ spec.with_entry table.old.items key index }
{
    if let Some(key) = key {
        if let Some(entry) = table.get_mut(key) {
            *entry = Some(index);
        }
    }
}

impl SubchannelIndex {
    /// The indices of these subchannels: a table of the names of so many sets, and two of the sides of so many units.
    ///
    /// A name or a unit beyond the tables is still found, by a search. There is no memory only where the supply refused a
    /// request; each table makes one for every 16,777,216 of its entries, or fewer that are left.
    pub fn of<S: Supply>(
        alloc: Global,
        supply: &mut S,
        sets: u8,
        units: usize,
        subs: &[Subchannel],
    ) -> Result<Self, AllocError>
        ensures fits { IfOk result (λ indices. spec.Fits indices subs.now) }
        ensures size { IfOk result (λ indices. spec.HasSize indices sets units) }
        ensures unrefused { OnOk result (S.refused supply.new ≡ S.refused supply.old) }
        ensures memory { OnErr result (S.refused supply.new ≡ true) }
    {
        let mut indices = SubchannelIndex {
            named: empty_table(alloc, supply, usize::from(sets) * NUMBERS_OF_A_SET)?,
            firsts: empty_table(alloc, supply, units)?,
            seconds: empty_table(alloc, supply, units)?,
        };
        for index in (0..subs.len()).rev() {
            indices.enter(index, &subs[index]);
        }
        Ok(indices)
    }

    /// Writes the index of a subchannel over what its name and its side of its unit had.
    fn enter(&mut self, index: usize, sub: &Subchannel)
        ensures { self.new ≡ spec.entered index sub.now self.old }
    {
        write_entry(&mut self.named, name_index(sub.state.setup().id), index);
        write_entry(&mut self.firsts, unit_index(Side::First, sub), index);
        write_entry(&mut self.seconds, unit_index(Side::Second, sub), index);
    }

    /// The index of the first subchannel of this name. None where no subchannel has it. `subs` are the subchannels that the
    /// tables were made of, as they are now.
    pub fn index_in(&self, id: SubchannelId, subs: &[Subchannel]) -> Option<usize>
        requires { spec.Fits self.now subs.now }
        ensures index { result ≡ index_spec.index_in id subs.now }
        ensures bound { IfSome result (λ index. index < length subs.now) }
    {
        let Some(key) = name_index(id) else {
            return index_in(id, subs);
        };
        match entry(&self.named, key) {
            Some(index) => index,
            None => index_in(id, subs),
        }
    }

    /// The table of a side of the units.
    fn of_side(&self, side: Side) -> &[Option<usize>]
        ensures { result.now ≡ spec.of_side side self.now }
    {
        match side {
            Side::First => &self.firsts,
            Side::Second => &self.seconds,
        }
    }

    /// The index of the first subchannel that reaches this side of a unit. None where no subchannel does. `subs` are the
    /// subchannels that the tables were made of, as they are now.
    pub fn reached_in(&self, unit: usize, side: Side, subs: &[Subchannel]) -> Option<usize>
        requires { spec.Fits self.now subs.now }
        ensures index { result ≡ index_spec.reached_in «unit» side subs.now }
        ensures bound { IfSome result (λ index. index < length subs.now) }
    {
        match entry(self.of_side(side), unit) {
            Some(index) => index,
            None => reached_in(unit, side, subs),
        }
    }
}
