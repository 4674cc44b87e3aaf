//! Setting a machine up: between `fm_new` and `fm_start`. A refused call changes nothing.

ghost use Rattle.filuvamoth.specs.Calls.{BeginsAt, SetsUpAt, WhereOpen};
ghost use Rattle.host_machine.specs.SettingLines.{SetsUpLine};
ghost use Rattle.filuvamoth.specs.Calls as spec;
ghost use Rattle.host_machine.specs.declared.setting_up.HostSetting.TheVariants as setting;
ghost use Rattle.std.specs.Prelude.{◌≡◌, ◌==◌, if◌then◌else◌};

use crate::calls::{CLOSED, set_up};
use crate::handle::Handle;
use channel_config::parts::{ConcurrentSense, PathReturn};
use channel_subsystem::keeping::Keeping;
use host_machine::answers::BAD_ARGUMENT;
use host_machine::setting_up::HostSetting;
use std::alloc::Global;

/// How many sets of subchannels there are, 1 to 4: said once, before any subchannel. One set where nothing is said.
#[unsafe(no_mangle)]
pub extern "C" fn fm_set_sets(alloc: Global, handle: &mut Handle, sets: u32) -> i32
    ensures { SetsUpAt handle.old.held.inside (setting.Sets sets) result handle.new.held.inside }
{
    set_up(alloc, handle, &HostSetting::Sets(sets))
}

/// One channel path more, by its identifier, 0 to 255.
#[unsafe(no_mangle)]
pub extern "C" fn fm_add_path(alloc: Global, handle: &mut Handle, chpid: u32) -> i32
    ensures { SetsUpAt handle.old.held.inside (setting.Path chpid) result handle.new.held.inside }
{
    set_up(alloc, handle, &HostSetting::Path(chpid))
}

/// One unit more, of the next number, 0 to 1023. Its device is the host's.
#[unsafe(no_mangle)]
pub extern "C" fn fm_add_unit(alloc: Global, handle: &mut Handle, number: u32) -> i32
    ensures { SetsUpAt handle.old.held.inside (setting.Unit number) result handle.new.held.inside }
{
    set_up(alloc, handle, &HostSetting::Unit(number))
}

/// These units share a control unit: one of them is served at a time.
#[unsafe(no_mangle)]
pub extern "C" fn fm_share(alloc: Global, handle: &mut Handle, units: &[u32]) -> i32
    ensures { SetsUpAt handle.old.held.inside (setting.Share units.entry) result handle.new.held.inside }
{
    set_up(alloc, handle, &HostSetting::Share(units))
}

/// One subchannel more: the subsystem-identification word that names it, its device number, its unit, and the identifiers of one to
/// eight of the channel paths, by path index.
#[unsafe(no_mangle)]
pub extern "C" fn fm_add_subchannel(
    alloc: Global,
    handle: &mut Handle,
    word: u32,
    device: u32,
    unit: u32,
    chpids: &[u32],
) -> i32
    ensures { SetsUpAt handle.old.held.inside (setting.Subchannel word device «unit» chpids.entry) result handle.new.held.inside }
{
    let setting = HostSetting::Subchannel {
        word,
        device,
        unit,
        chpids,
    };
    set_up(alloc, handle, &setting)
}

/// What MODIFY SUBCHANNEL does with the concurrent-sense bit of the subchannels that come after this: 0 it drops it, any other number
/// it keeps it. Dropped where nothing is said; Linux wants it kept.
#[unsafe(no_mangle)]
pub extern "C" fn fm_set_concurrent_sense(alloc: Global, handle: &mut Handle, kept: u32) -> i32
    ensures { SetsUpAt handle.old.held.inside (setting.ConcurrentSense (spec.sense_numbered kept)) result handle.new.held.inside }
{
    let choice = if kept == 0 {
        ConcurrentSense::Dropped
    } else {
        ConcurrentSense::Kept
    };
    set_up(alloc, handle, &HostSetting::ConcurrentSense(choice))
}

/// How a channel path that is back is reported: 0 as available, any other number as initialized. Available where nothing is said;
/// Linux takes initialized alone.
#[unsafe(no_mangle)]
pub extern "C" fn fm_set_path_return(alloc: Global, handle: &mut Handle, initialized: u32) -> i32
    ensures { SetsUpAt handle.old.held.inside (setting.PathReturn (spec.return_numbered initialized)) result handle.new.held.inside }
{
    let choice = if initialized == 0 {
        PathReturn::Available
    } else {
        PathReturn::Initialized
    };
    set_up(alloc, handle, &HostSetting::PathReturn(choice))
}

/// The first line of a text, which is one of a script that configures a machine: `storage`, `sets`, `path`, `unit`, `share` or `sub`. The
/// kind that a `unit` line names counts for nothing. A line that is none of these, or breaks a rule, is refused: -768 less the number of
/// the rule of lines, or -512 less that of configurations.
#[unsafe(no_mangle)]
pub extern "C" fn fm_set_up_line(alloc: Global, handle: &mut Handle, line: &[u8]) -> i32
    ensures { WhereOpen (λ before answered now. SetsUpLine line.now before answered now) (Unit {0}) handle.old.held.inside result handle.new.held.inside }
{
    match handle.take(alloc) {
        None => CLOSED,
        Some(mut inside) => {
            let number = inside.set_up_line(alloc, line);
            handle.put(inside);
            number
        }
    }
}

/// Which entries of the history are kept, by its number.
fn keeping_numbered(history: u32) -> Option<Keeping>
    ensures { result ≡ spec.keeping_numbered history }
{
    match history {
        0 => Some(Keeping::LastEntry),
        1 => Some(Keeping::AllEntries),
        _ => None,
    }
}

/// The machine that is set up runs, for storage of so many blocks of 4,096 bytes, 16 to 524,288, or 0 for as many as a `storage` line
/// says. `history` is 0 where no history is
/// kept, and no call takes memory; 1 where all events are kept. Where it is refused the machine is set up as it was.
#[unsafe(no_mangle)]
pub extern "C" fn fm_start(alloc: Global, handle: &mut Handle, blocks: u32, history: u32) -> i32
    ensures { BeginsAt handle.old.held.inside blocks history result handle.new.held.inside }
{
    let Some(keeping) = keeping_numbered(history) else {
        return BAD_ARGUMENT;
    };
    match handle.take(alloc) {
        None => CLOSED,
        Some(mut inside) => {
            let number = inside.start(alloc, blocks, keeping);
            handle.put(inside);
            number
        }
    }
}
