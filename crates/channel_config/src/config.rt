//! The configuration of a machine.

ghost use Rattle.std.specs.Prelude.{◌≡◌, ◌≢◌, ◌==◌, ◌≤◌, ◌<◌, ◌++◌, ◌∷◌, [], length, slice_index_or, slice_set, vec_len, vec_capacity, true, Some, None, Err, IfSome, IfOk, OnOk, OnErr, unwrap_or, if◌then◌else◌};
ghost use Rattle.std.specs.List.{list_all};
ghost use Rattle.channel_config.specs.Setup as spec;
ghost use Rattle.channel_config.specs.Refusing.{Configures};
ghost use Rattle.channel_config.specs.Numbers.{AreSmall};
ghost use Rattle.channel_config.specs.declared.config.ConfigFault.TheVariants as config_fault;

use crate::names::{SubchannelId, subchannel_named};
use crate::parts::{ChpidList, ConcurrentSense, PathReturn, SubchannelSetup, UnitKind};
use chan_model::names::Side;
use memory::{Allocator, Supply, make_room, push};
use std::alloc::{AllocError, Global};
use std::marker::Model;

/// Why a line of a configuration is refused.
#[derive(Clone, Copy, Debug, PartialEq, Eq)]
pub enum ConfigFault {
    /// A growth was refused.
    NoMemory,
    /// A rule of configurations is broken.
    Rule(ConfigRule),
}

/// The rules that a configuration keeps (own), one for each kind of line but for that of a subchannel, which has three.
#[derive(Clone, Copy, Debug, PartialEq, Eq)]
pub enum ConfigRule {
    /// The size of storage is given once, as 10 to 1000 (hexadecimal) blocks of 4,096 bytes.
    StorageSize,
    /// A channel path is given once, by an identifier of at most FF (hexadecimal).
    ChannelPath,
    /// A unit has the number that is next, of at most 3FF (hexadecimal).
    UnitNumber,
    /// The unit of a subchannel is known, and one other subchannel at most uses it.
    UnitOfSubchannel,
    /// The paths of a subchannel are known, each given once, at least one and at most eight.
    PathsOfSubchannel,
    /// Units that share a control unit are known, each given once and in one group.
    SharedUnit,
    /// The word of a subchannel names the next of a set that there is, of at most FF (hexadecimal), and its device number is at
    /// most FFFF.
    SubchannelName,
    /// The number of sets is given once, before any subchannel, as 1 to 4.
    Sets,
}

impl From<AllocError> for ConfigFault {
    ghost use Rattle.std.specs.Prelude.{◌≡◌};
    ghost use Rattle.channel_config.specs.declared.config.ConfigFault.TheVariants.{NoMemory};

    ghost from_gives = { λ _ fault. fault ≡ NoMemory };

    fn from(_: AllocError) -> Self {
        ConfigFault::NoMemory
    }
}

/// The configuration of a machine, made line by line. A line that is refused changes nothing; want of memory is
/// answered only where a supply refused a growth.
#[derive(Drop)]
pub struct Config {
    blocks: Option<u32>,
    sets: Option<u8>,
    paths: Vec<u8>,
    units: Vec<UnitKind>,
    shared: Vec<Option<u16>>,
    subchannels: Vec<SubchannelSetup>,
    concurrent_sense: ConcurrentSense,
    path_return: PathReturn,
}

impl Model for Config {
    ghost use Rattle.channel_config.specs.Setup.{Setup};

    ghost Value = { Setup };

    ghost use Rattle.channel_config.specs.Lawful.{IsLawful, MayOwn};

    ghost view = { λ c. record { blocks = c.blocks; sets = c.sets; paths = c.paths.items; units = c.units.items; shared = c.shared.items; subchannels = c.subchannels.items; concurrent_sense = c.concurrent_sense; path_return = c.path_return } };

    ghost invariant = { λ c.
        let s : Setup = record { blocks = c.blocks; sets = c.sets; paths = c.paths.items; units = c.units.items; shared = c.shared.items; subchannels = c.subchannels.items; concurrent_sense = c.concurrent_sense; path_return = c.path_return } in
        IsLawful s × MayOwn s };
}

impl Config {
    ghost use Rattle.channel_config.specs.Lawful.{IsLawful};

    /// Nothing is configured.
    pub fn new(alloc: Global) -> Self
        ensures { result ≡ spec.no_setup }
    {
        Config {
            blocks: None,
            sets: None,
            paths: Vec::new(alloc),
            units: Vec::new(alloc),
            shared: Vec::new(alloc),
            subchannels: Vec::new(alloc),
            concurrent_sense: ConcurrentSense::Dropped,
            path_return: PathReturn::Available,
        }
    }

    /// The size of storage, in blocks of 4,096 bytes. `StorageSize` is broken: it is given twice, or is not 10 to 1000
    /// (hexadecimal).
    pub fn storage(&mut self, blocks: u32) -> Result<(), ConfigFault>
        ensures does { Configures self.old self.new result (spec.with_storage self.old blocks) }
        ensures never { result ≢ Err config_fault.NoMemory }
    {
        if self.blocks.is_some() || blocks < 0x10 || blocks > 0x1000 {
            return Err(ConfigFault::Rule(ConfigRule::StorageSize));
        }
        self.blocks = Some(blocks);
        Ok(())
    }

    /// How many sets of subchannels there are. `Sets` is broken: it is given twice, or after a subchannel, or is not 1 to 4.
    pub fn sets(&mut self, sets: u32) -> Result<(), ConfigFault>
        ensures does { Configures self.old self.new result (spec.with_sets self.old sets) }
        ensures never { result ≢ Err config_fault.NoMemory }
    {
        if self.sets.is_some() || !self.subchannels.is_empty() || sets < 1 || sets > 4 {
            return Err(ConfigFault::Rule(ConfigRule::Sets));
        }
        self.sets = Some(sets as u8);
        Ok(())
    }

    /// What MODIFY SUBCHANNEL does with the concurrent-sense bit of the subchannels that are configured after this, until it is
    /// said again; where nothing is said it drops it. It is never refused.
    pub fn set_concurrent_sense(&mut self, choice: ConcurrentSense)
        ensures { self.new ≡ spec.with_concurrent_sense self.old choice }
    {
        self.concurrent_sense = choice;
    }

    /// How a channel path that is back is reported, as it was said last; where nothing is said it is available. It is never
    /// refused.
    pub fn set_path_return(&mut self, choice: PathReturn)
        ensures { self.new ≡ spec.with_path_return self.old choice }
    {
        self.path_return = choice;
    }

    /// The same as `path_with`, in what room the allocator has.
    pub fn path(&mut self, chpid: u32) -> Result<(), ConfigFault>
        ensures { Configures self.old self.new result (spec.with_path self.old chpid) }
    {
        self.path_with(&mut Allocator { refused: false }, chpid)
    }

    /// One channel path more, by its identifier. `ChannelPath` is broken: it is given twice, or is above FF (hexadecimal).
    pub fn path_with<S: Supply>(&mut self, supply: &mut S, chpid: u32) -> Result<(), ConfigFault>
        ensures does { Configures self.old self.new result (spec.with_path self.old chpid) }
        ensures unrefused { OnOk result (S.refused supply.new ≡ S.refused supply.old) }
        ensures memory { result ≡ Err config_fault.NoMemory → S.refused supply.new ≡ true }
    {
        if chpid > 0xFF || has_chpid(&self.paths, chpid) {
            return Err(ConfigFault::Rule(ConfigRule::ChannelPath));
        }
        push(supply, &mut self.paths, chpid as u8)?;
        Ok(())
    }

    /// The same as `unit_with`, in what room the allocator has.
    pub fn unit(&mut self, number: u32, kind: UnitKind) -> Result<(), ConfigFault>
        ensures { Configures self.old self.new result (spec.with_unit self.old number kind) }
    {
        self.unit_with(&mut Allocator { refused: false }, number, kind)
    }

    /// One unit more. `UnitNumber` is broken: its number is not the next, or is above 3FF (hexadecimal).
    pub fn unit_with<S: Supply>(
        &mut self,
        supply: &mut S,
        number: u32,
        kind: UnitKind,
    ) -> Result<(), ConfigFault>
        ensures does { Configures self.old self.new result (spec.with_unit self.old number kind) }
        ensures unrefused { OnOk result (S.refused supply.new ≡ S.refused supply.old) }
        ensures memory { result ≡ Err config_fault.NoMemory → S.refused supply.new ≡ true }
    {
        if number as usize != self.units.len() || number > 0x3FF {
            return Err(ConfigFault::Rule(ConfigRule::UnitNumber));
        }
        make_room(supply, &mut self.shared, 1)?;
        push(supply, &mut self.units, kind)?;
        add_alone(&mut self.shared);
        Ok(())
    }

    /// These units share a control unit: one of them is served at a time (own). It takes no memory. `SharedUnit` is broken: a
    /// unit is unknown, shares a control unit already, or is given twice.
    pub fn share(&mut self, units: &[u32]) -> Result<(), ConfigFault>
        ensures does { Configures self.old self.new result (spec.with_share self.old units.now) }
        ensures never { result ≢ Err config_fault.NoMemory }
    {
        if !are_alone(&self.shared, units) || !are_distinct(units) {
            return Err(ConfigFault::Rule(ConfigRule::SharedUnit));
        }
        let group = group_of(&self.shared, units);
        join(&mut self.shared, group, units);
        Ok(())
    }

    /// The same as `subchannel_with`, in what room the allocator has.
    pub fn subchannel(
        &mut self,
        word: u32,
        device: u32,
        unit: u32,
        paths: &[u32],
    ) -> Result<(), ConfigFault>
        ensures { Configures self.old self.new result (spec.with_subchannel self.old word device unit paths.now) }
    {
        self.subchannel_with(&mut Allocator { refused: false }, word, device, unit, paths)
    }

    /// One subchannel more, with its device number, its unit and its channel paths by path index. `word` is the
    /// subsystem-identification word that names it (SA22-7832, chapter 13).
    ///
    /// `SubchannelName` is broken: the word names no subchannel of a set that there is, or not the next of its set, or one
    /// above FF (hexadecimal), or the device number is above FFFF. `UnitOfSubchannel` is broken: the unit is unknown, or two
    /// subchannels use it already. `PathsOfSubchannel` is broken: a path is unknown or given twice, or there are none or more
    /// than eight.
    ///
    /// What MODIFY SUBCHANNEL does with its concurrent-sense bit is what was said last.
    pub fn subchannel_with<S: Supply>(
        &mut self,
        supply: &mut S,
        word: u32,
        device: u32,
        unit: u32,
        paths: &[u32],
    ) -> Result<(), ConfigFault>
        ensures does { Configures self.old self.new result (spec.with_subchannel self.old word device unit paths.now) }
        ensures unrefused { OnOk result (S.refused supply.new ≡ S.refused supply.old) }
        ensures memory { result ≡ Err config_fault.NoMemory → S.refused supply.new ≡ true }
    {
        if device > 0xFFFF {
            return Err(ConfigFault::Rule(ConfigRule::SubchannelName));
        }
        let Some(id) = self.next_subchannel(word) else {
            return Err(ConfigFault::Rule(ConfigRule::SubchannelName));
        };
        let Some(side) = self.side_left(unit) else {
            return Err(ConfigFault::Rule(ConfigRule::UnitOfSubchannel));
        };
        let Some(paths) = chpids_of(&self.paths, paths) else {
            return Err(ConfigFault::Rule(ConfigRule::PathsOfSubchannel));
        };
        let setup = SubchannelSetup {
            id,
            device: device as u16,
            unit: unit as u16,
            side,
            paths,
            concurrent_sense: self.concurrent_sense,
        };
        push(supply, &mut self.subchannels, setup)?;
        Ok(())
    }

    /// The subchannel that the word names, where it is the next of its set.
    fn next_subchannel(&self, word: u32) -> Option<SubchannelId>
        ensures value { result ≡ spec.next_subchannel self.now word }
        ensures set { IfSome result (λ id. id.set < spec.set_count self.now) }
        ensures number { IfSome result (λ id. id.number < 0x100) }
        ensures room { IfSome result (λ id. spec.count_in_set self.now.subchannels id.set < 0x100) }
    {
        let id = subchannel_named(self.set_count(), word)?;
        if usize::from(id.number) == count_in_set(&self.subchannels, id.set) && id.number <= 0xFF {
            Some(id)
        } else {
            None
        }
    }

    /// The side that is left of a unit.
    fn side_left(&self, unit: u32) -> Option<Side>
        ensures value { result ≡ spec.side_left self.now unit }
        ensures known { IfSome result (λ _. unit < length self.now.units) }
        ensures bound { IfSome result (λ _. unit < 0x400) }
    {
        if unit as usize >= self.units.len() {
            return None;
        }
        match uses_of(&self.subchannels, unit) {
            0 => Some(Side::First),
            1 => Some(Side::Second),
            _ => None,
        }
    }

    /// How many blocks of 4,096 bytes storage has, where that was said.
    pub fn blocks(&self) -> Option<u32>
        ensures value { result ≡ self.now.blocks }
        ensures range { IfSome result (λ n. (0x10 ≤ n) × (n ≤ 0x1000)) }
    {
        self.blocks
    }

    /// How many sets of subchannels there are.
    pub fn set_count(&self) -> u8
        ensures value { result ≡ spec.set_count self.now }
        ensures range { (1 ≤ result) × (result ≤ 4) }
    {
        self.sets.unwrap_or(1)
    }

    /// How a channel path that is back is reported.
    pub fn path_return(&self) -> PathReturn
        ensures { result ≡ self.now.path_return }
    {
        self.path_return
    }

    /// The identifiers of the channel paths, in the order of their lines.
    pub fn paths(&self) -> &[u8]
        ensures { result.now ≡ self.now.paths }
    {
        self.paths.as_slice()
    }

    /// The units, by number.
    pub fn units(&self) -> &[UnitKind]
        ensures { result.now ≡ self.now.units }
    {
        self.units.as_slice()
    }

    /// The number of the group of each unit, by unit, in what room a supply has: of units that share a control unit the
    /// number of the first of their line, of another its own. Where the supply refuses a growth, and only there, there is
    /// no answer.
    pub fn groups_with<S: Supply>(
        &self,
        alloc: Global,
        supply: &mut S,
    ) -> Result<Vec<u16>, AllocError>
        ensures groups { IfOk result (λ groups. groups.items ≡ spec.groups_of self.now) }
        ensures unrefused { OnOk result (S.refused supply.new ≡ S.refused supply.old) }
        ensures memory { OnErr result (S.refused supply.new ≡ true) }
    {
        groups_from(alloc, supply, self.shared.as_slice())
    }

    /// The subchannels, in the order of their lines.
    pub fn subchannels(&self) -> &[SubchannelSetup]
        ensures value { result.now ≡ self.now.subchannels }
        ensures lawful { IsLawful self.now }
    {
        self.subchannels.as_slice()
    }
}

/// Whether the path is among these.
fn has_chpid(chpids: &[u8], chpid: u32) -> bool
    ensures { result ≡ spec.has_number chpids.now chpid }
{
    chpids.iter().any(|known| u32::from(*known) == chpid)
}

/// Whether all these paths are among those that are known.
fn are_known(known: &[u8], chpids: &[u32]) -> bool
    ensures { result ≡ list_all (spec.has_number known.now) chpids.now }
{
    chpids.iter().all(|chpid| has_chpid(known, *chpid))
}

/// Whether no two of these are the same.
fn are_distinct(numbers: &[u32]) -> bool
    ensures { result ≡ spec.are_distinct numbers.now }
{
    let mut rest = numbers;
    'tails: loop {
        match rest {
            [] => return true,
            [first, others @ ..] => {
                if others.contains(first) {
                    return false;
                }
                rest = others;
            }
        }
    }
}

/// These paths, where they can be those of a subchannel.
fn chpids_of(known: &[u8], paths: &[u32]) -> Option<ChpidList>
    ensures value { result ≡ (if spec.are_paths known.now paths.now then Some paths.now else None) }
    ensures placed { IfSome result (λ l. spec.are_paths known.now l ≡ true) }
{
    if paths.is_empty() || paths.len() > 8 || !are_known(known, paths) || !are_distinct(paths) {
        return None;
    }
    Some(list_of(paths))
}

/// The list of these paths.
fn list_of(paths: &[u32]) -> ChpidList
    requires short { length paths.now ≤ 8 }
    requires small { AreSmall paths.now }
    ensures { result ≡ paths.now }
{
    let mut chpids = ChpidList::new();
    for chpid in paths {
        chpids.push(*chpid as u8);
    }
    chpids
}

/// How many subchannels there are of a set.
fn count_in_set(subchannels: &[SubchannelSetup], set: u8) -> usize
    ensures { result ≡ spec.count_in_set subchannels.now set }
{
    subchannels.iter().filter(|sub| sub.id.set == set).count()
}

/// How many subchannels use a unit.
fn uses_of(subchannels: &[SubchannelSetup], unit: u32) -> usize
    ensures { result ≡ spec.uses_of subchannels.now unit }
{
    subchannels
        .iter()
        .filter(|sub| u32::from(sub.unit) == unit)
        .count()
}

/// Whether there is a unit of this number that shares a control unit with none.
fn is_alone(shared: &[Option<u16>], unit: u32) -> bool
    ensures { result ≡ spec.may_share shared.now «unit» }
{
    matches!(shared.get(unit as usize), Some(None))
}

/// Whether there are units of all these numbers, and none shares a control unit.
fn are_alone(shared: &[Option<u16>], units: &[u32]) -> bool
    ensures { result ≡ list_all (spec.may_share shared.now) units.now }
{
    units.iter().all(|unit| is_alone(shared, *unit))
}

/// The number of the group that these units become.
fn group_of(shared: &[Option<u16>], units: &[u32]) -> u16
    requires known { list_all (spec.may_share shared.now) units.now ≡ true }
    requires bound { length shared.now ≤ 0x400 }
    ensures { result ≡ slice_index_or units.now 0 0 }
{
    match units {
        [] => 0,
        [first, ..] => *first as u16,
    }
}

/// These units become a group.
fn join(shared: &mut Vec<Option<u16>>, group: u16, units: &[u32])
    ensures { shared.new.items ≡ spec.grouped shared.old.items group units.now }
{
    for unit in units {
        join_one(shared, group, *unit);
    }
}

/// A unit is of this group.
fn join_one(shared: &mut Vec<Option<u16>>, group: u16, unit: u32)
    ensures { shared.new.items ≡ slice_set shared.old.items «unit» (Some group) }
{
    if let Some(known) = shared.get_mut(unit as usize) {
        *known = Some(group);
    }
}

/// One unit more that shares a control unit with none, for which there is room.
fn add_alone(shared: &mut Vec<Option<u16>>)
    requires { vec_len shared.old < vec_capacity shared.old }
    ensures { shared.new.items ≡ shared.old.items ++ None ∷ [] }
{
    shared.push_reserved(None);
}

/// The groups of these units, by their numbers.
fn groups_from<S: Supply>(
    alloc: Global,
    supply: &mut S,
    shared: &[Option<u16>],
) -> Result<Vec<u16>, AllocError>
    requires { length shared.now ≤ 0x400 }
    ensures groups { IfOk result (λ groups. groups.items ≡ spec.groups_from 0 shared.now) }
    ensures unrefused { OnOk result (S.refused supply.new ≡ S.refused supply.old) }
    ensures memory { OnErr result (S.refused supply.new ≡ true) }
{
    let mut groups = Vec::new(alloc);
    for group in shared {
        let own = groups.len() as u16;
        push(supply, &mut groups, group.unwrap_or(own))?;
    }
    Ok(groups)
}
