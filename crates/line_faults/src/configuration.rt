//! Configuration lines that break a rule of configurations.

ghost use Rattle.std.specs.Prelude.{◌≡◌};
ghost use Rattle.line_faults.specs.Reasons.{IsRefusal};

use crate::reason::{
    ConfigReason, NumberReason, PathReason, PathsReason, Reason, SetsReason, ShareReason,
    StorageReason, UnitReason, UseReason,
};
use crate::writing::{Remark, at, whole};
use channel_config::config::{Config, ConfigRule};
use channel_config::names::{SubchannelId, subchannel_named};
use script_rows::settings::Setting;

/// The greatest number of a unit, and of a subchannel of its set.
const LAST_UNIT: u32 = 0x3FF;

const LAST_SUBCHANNEL: usize = 0xFF;

/// The most sets of subchannels, and the most channel paths of one.
const MOST_SETS: u8 = 4;

const MOST_PATHS: usize = 8;

/// The places of a subchannel's words: its own, its device number, its unit and the first of its channel paths.
const SUBCHANNEL_PLACE: usize = 1;

const DEVICE_PLACE: usize = 2;

const UNIT_PLACE: usize = 3;

const FIRST_PATH_PLACE: usize = 4;

/// A remark that says the rule alone.
pub fn other(rule: ConfigRule) -> Remark
    ensures { IsRefusal result.reason rule }
{
    whole(Reason::BreaksConfiguration(ConfigReason::Other(rule)))
}

/// A remark on a setting that breaks this rule of configurations.
pub fn refused(rule: ConfigRule, setting: &Setting, config: &Config) -> Remark
    ensures { IsRefusal result.reason rule }
{
    match (rule, setting) {
        (ConfigRule::StorageSize, Setting::Storage { .. }) => storage_size(config),
        (ConfigRule::ChannelPath, Setting::Path { chpid }) => channel_path(*chpid),
        (ConfigRule::UnitNumber, Setting::Unit { number, .. }) => unit_number(*number, config),
        (ConfigRule::UnitOfSubchannel, Setting::Subchannel { unit, .. }) => {
            unit_of_subchannel(*unit, config)
        }
        (ConfigRule::PathsOfSubchannel, Setting::Subchannel { paths, .. }) => {
            paths_of_subchannel(paths.as_slice(), config)
        }
        (ConfigRule::SharedUnit, Setting::Share { units }) => {
            shared_unit(units.as_slice(), config)
        }
        (ConfigRule::SubchannelName, Setting::Subchannel { word, device, .. }) => {
            subchannel_name(*word, *device, config)
        }
        (ConfigRule::Sets, Setting::Sets { count }) => sets(*count, config),
        _ => other(rule),
    }
}

fn storage_size(config: &Config) -> Remark
    ensures { IsRefusal result.reason ConfigRule.StorageSize }
{
    match config.blocks() {
        Some(blocks) => whole(Reason::BreaksConfiguration(ConfigReason::StorageSize(
            StorageReason::Again(blocks),
        ))),
        None => at(
            1,
            Reason::BreaksConfiguration(ConfigReason::StorageSize(StorageReason::OutOfRange)),
        ),
    }
}

fn channel_path(chpid: u32) -> Remark
    ensures { IsRefusal result.reason ConfigRule.ChannelPath }
{
    let reason = if chpid > 0xFF {
        PathReason::TooGreat
    } else {
        PathReason::Again
    };
    at(
        1,
        Reason::BreaksConfiguration(ConfigReason::ChannelPath(reason)),
    )
}

/// How many of something there are, as a number of a line.
fn count(items: usize) -> u32 {
    u32::try_from(items).unwrap_or(u32::MAX)
}

fn unit_number(number: u32, config: &Config) -> Remark
    ensures { IsRefusal result.reason ConfigRule.UnitNumber }
{
    let next = count(config.units().len());
    let reason = if number > LAST_UNIT {
        UnitReason::TooGreat
    } else {
        UnitReason::NotNext(next)
    };
    at(
        1,
        Reason::BreaksConfiguration(ConfigReason::UnitNumber(reason)),
    )
}

/// Whether there is a unit of this number.
fn is_unit(unit: u32, config: &Config) -> bool {
    (unit as usize) < config.units().len()
}

fn unit_of_subchannel(unit: u32, config: &Config) -> Remark
    ensures { IsRefusal result.reason ConfigRule.UnitOfSubchannel }
{
    let reason = if is_unit(unit, config) {
        UseReason::UsedTwice
    } else {
        UseReason::Unknown
    };
    at(
        UNIT_PLACE,
        Reason::BreaksConfiguration(ConfigReason::UnitOfSubchannel(reason)),
    )
}

/// The index of the first of these numbers that stands among those before it.
fn twice(numbers: &[u32]) -> Option<usize> {
    for (index, number) in numbers.iter().enumerate() {
        if numbers[..index].contains(number) {
            return Some(index);
        }
    }
    None
}

/// The index of the first of these channel paths that there is not.
fn unknown_path(paths: &[u32], config: &Config) -> Option<usize> {
    let known = config.paths();
    for (index, path) in paths.iter().enumerate() {
        if !known.iter().any(|chpid| u32::from(*chpid) == *path) {
            return Some(index);
        }
    }
    None
}

/// The index of the first of these units that there is not.
fn unknown_unit(units: &[u32], config: &Config) -> Option<usize> {
    for (index, unit) in units.iter().enumerate() {
        if !is_unit(*unit, config) {
            return Some(index);
        }
    }
    None
}

/// Why these channel paths are not taken, and the index of the one for which.
fn paths_reason(paths: &[u32], config: &Config) -> (Option<usize>, PathsReason) {
    if paths.is_empty() {
        return (None, PathsReason::Missing);
    }
    if let Some(index) = unknown_path(paths, config) {
        return (Some(index), PathsReason::Unknown);
    }
    match twice(paths) {
        Some(index) => (Some(index), PathsReason::Twice),
        None => (None, PathsReason::TooMany(paths.len())),
    }
}

fn paths_of_subchannel(paths: &[u32], config: &Config) -> Remark
    ensures { IsRefusal result.reason ConfigRule.PathsOfSubchannel }
{
    let (index, reason) = paths_reason(paths, config);
    let reason = Reason::BreaksConfiguration(ConfigReason::PathsOfSubchannel(reason));
    match index {
        Some(index) => at(index.saturating_add(FIRST_PATH_PLACE), reason),
        None => whole(reason),
    }
}

/// Why these units do not share a control unit, and the index of the one for which.
fn share_reason(units: &[u32], config: &Config) -> (Option<usize>, ShareReason) {
    if let Some(index) = unknown_unit(units, config) {
        return (Some(index), ShareReason::Unknown);
    }
    match twice(units) {
        Some(index) => (Some(index), ShareReason::Twice),
        None => (None, ShareReason::Again),
    }
}

fn shared_unit(units: &[u32], config: &Config) -> Remark
    ensures { IsRefusal result.reason ConfigRule.SharedUnit }
{
    let (index, reason) = share_reason(units, config);
    let reason = Reason::BreaksConfiguration(ConfigReason::SharedUnit(reason));
    match index {
        Some(index) => at(index.saturating_add(1), reason),
        None => whole(reason),
    }
}

/// How many subchannels there are of a set.
fn subchannels_of(set: u8, config: &Config) -> usize {
    config
        .subchannels()
        .iter()
        .filter(|subchannel| subchannel.id.set == set)
        .count()
}

/// Why this subchannel, of a set that there may be, is not the next.
fn number_reason(id: SubchannelId, config: &Config) -> NumberReason {
    if id.set >= config.set_count() {
        return NumberReason::NoSuchSet {
            set: id.set,
            sets: config.set_count(),
        };
    }
    if usize::from(id.number) > LAST_SUBCHANNEL {
        NumberReason::TooGreat
    } else {
        NumberReason::NotNext(count(subchannels_of(id.set, config)))
    }
}

fn subchannel_name(word: u32, device: u32, config: &Config) -> Remark
    ensures { IsRefusal result.reason ConfigRule.SubchannelName }
{
    let (place, reason) = if device > 0xFFFF {
        (DEVICE_PLACE, NumberReason::Device)
    } else {
        match subchannel_named(MOST_SETS, word) {
            None => (SUBCHANNEL_PLACE, NumberReason::NoWord),
            Some(id) => (SUBCHANNEL_PLACE, number_reason(id, config)),
        }
    };
    at(
        place,
        Reason::BreaksConfiguration(ConfigReason::SubchannelName(reason)),
    )
}

fn sets(count: u32, config: &Config) -> Remark
    ensures { IsRefusal result.reason ConfigRule.Sets }
{
    if count < 1 || count > u32::from(MOST_SETS) {
        return at(
            1,
            Reason::BreaksConfiguration(ConfigReason::Sets(SetsReason::OutOfRange)),
        );
    }
    let reason = if config.subchannels().is_empty() {
        SetsReason::Again
    } else {
        SetsReason::AfterSubchannel
    };
    whole(Reason::BreaksConfiguration(ConfigReason::Sets(reason)))
}
