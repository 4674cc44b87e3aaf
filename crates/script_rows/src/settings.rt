//! The lines that configure a machine.

ghost use Rattle.std.specs.Prelude.{◌≡◌, map, true, OnOk, MatchResult, Ok, Err};
ghost use Rattle.script_rows.specs.Settings as spec;
ghost use Rattle.script_rows.specs.Faults.{FaultOf, Says};
ghost use Rattle.channel_config.specs.Refusing.{Configures};

use crate::words::{
    LineFault, LineRule, Numbers, is_name, number, numbers_of, only_number, subchannel, two,
};
use channel_config::config::{Config, ConfigFault};
use channel_config::parts::UnitKind;
use memory::Supply;
use std::alloc::Global;

/// What a line says of the configuration.
#[derive(Drop)]
pub enum Setting {
    Storage {
        blocks: u32,
    },
    Sets {
        count: u32,
    },
    Path {
        chpid: u32,
    },
    Unit {
        number: u32,
        kind: UnitKind,
    },
    Share {
        units: Numbers,
    },
    Subchannel {
        word: u32,
        device: u32,
        unit: u32,
        paths: Numbers,
    },
}

fn kind_named(word: &[u8]) -> Option<UnitKind>
    ensures { result ≡ spec.kind_named word.now }
{
    if is_name(word, b"block".as_slice()) {
        Some(UnitKind::Block)
    } else if is_name(word, b"console".as_slice()) {
        Some(UnitKind::Console)
    } else if is_name(word, b"reject".as_slice()) {
        Some(UnitKind::Rejecting)
    } else {
        None
    }
}

fn share_row<S: Supply>(
    alloc: Global,
    supply: &mut S,
    words: &[&[u8]],
) -> Result<Setting, LineFault>
    ensures says { MatchResult result (λ s. spec.share_row (map (λ w. w.now) words.now) ≡ Ok s)
        (λ f. FaultOf f (spec.share_row (map (λ w. w.now) words.now))) }
    ensures unrefused { OnOk result (S.refused supply.new ≡ S.refused supply.old) }
    ensures memory { result ≡ Err LineFault.NoMemory → S.refused supply.new ≡ true }
{
    match words {
        [_, _, ..] => {
            let units = numbers_of(alloc, supply, words)?;
            Ok(Setting::Share { units })
        }
        _ => Err(LineFault::Rule(LineRule::WrongCount)),
    }
}

fn sub_row<S: Supply>(alloc: Global, supply: &mut S, words: &[&[u8]]) -> Result<Setting, LineFault>
    ensures says { MatchResult result (λ s. spec.sub_row (map (λ w. w.now) words.now) ≡ Ok s)
        (λ f. FaultOf f (spec.sub_row (map (λ w. w.now) words.now))) }
    ensures unrefused { OnOk result (S.refused supply.new ≡ S.refused supply.old) }
    ensures memory { result ≡ Err LineFault.NoMemory → S.refused supply.new ≡ true }
{
    match words {
        [word, device, unit, paths @ ..] => {
            let word = subchannel(word).ok_or(LineRule::BadWord)?;
            let device = number(device).ok_or(LineRule::BadWord)?;
            let unit = number(unit).ok_or(LineRule::BadWord)?;
            let paths = numbers_of(alloc, supply, paths)?;
            Ok(Setting::Subchannel {
                word,
                device,
                unit,
                paths,
            })
        }
        _ => Err(LineFault::Rule(LineRule::WrongCount)),
    }
}

/// What a line's words say of the configuration, where its first word is one of a configuration line.
#[tactic(auto, unfolding(crate::specs::Settings::setting_row))]
pub fn setting_row<S: Supply>(
    alloc: Global,
    supply: &mut S,
    word: &[u8],
    words: &[&[u8]],
) -> Result<Option<Setting>, LineFault>
    ensures says { Says result (spec.setting_row word.now (map (λ w. w.now) words.now)) }
    ensures unrefused { OnOk result (S.refused supply.new ≡ S.refused supply.old) }
    ensures memory { result ≡ Err LineFault.NoMemory → S.refused supply.new ≡ true }
{
    let setting = if is_name(word, b"storage".as_slice()) {
        let blocks = only_number(words)?;
        Setting::Storage { blocks }
    } else if is_name(word, b"sets".as_slice()) {
        let count = only_number(words)?;
        Setting::Sets { count }
    } else if is_name(word, b"path".as_slice()) {
        let chpid = only_number(words)?;
        Setting::Path { chpid }
    } else if is_name(word, b"unit".as_slice()) {
        let (unit, kind) = two(words).ok_or(LineRule::WrongCount)?;
        let number = number(unit).ok_or(LineRule::BadWord)?;
        let kind = kind_named(kind).ok_or(LineRule::BadWord)?;
        Setting::Unit { number, kind }
    } else if is_name(word, b"share".as_slice()) {
        share_row(alloc, supply, words)?
    } else if is_name(word, b"sub".as_slice()) {
        sub_row(alloc, supply, words)?
    } else {
        return Ok(None);
    };
    Ok(Some(setting))
}

/// Takes a setting. A setting that is refused changes nothing.
pub fn configure<S: Supply>(
    supply: &mut S,
    config: &mut Config,
    setting: &Setting,
) -> Result<(), ConfigFault>
    ensures does { Configures config.old config.new result (spec.configured config.old setting.now) }
    ensures unrefused { OnOk result (S.refused supply.new ≡ S.refused supply.old) }
    ensures memory { result ≡ Err ConfigFault.NoMemory → S.refused supply.new ≡ true }
{
    match setting {
        Setting::Storage { blocks } => config.storage(*blocks),
        Setting::Sets { count } => config.sets(*count),
        Setting::Path { chpid } => config.path_with(supply, *chpid),
        Setting::Unit { number, kind } => config.unit_with(supply, *number, *kind),
        Setting::Share { units } => config.share(units.as_slice()),
        Setting::Subchannel {
            word,
            device,
            unit,
            paths,
        } => config.subchannel_with(supply, *word, *device, *unit, paths.as_slice()),
    }
}
