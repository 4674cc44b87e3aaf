//! An installation at its opening: a core with its seats, and a device for each unit.

ghost use Rattle.std.specs.Prelude.{◌≡◌, [], IfOk, None, OnErr, OnOk, length, map, replicate, true};
ghost use Rattle.script_runner.specs.Acting as spec;
ghost use Rattle.script_runner.specs.Acting.{IsOpeningSeat, books_of, past_of};
ghost use Rattle.script_runner.specs.Race.{AreMade, IsNewSeat, IsSeatedIn};
ghost use Rattle.machine_model.specs.State.{opening_of};
ghost use Rattle.subsystem.specs.Keeping.{all_serials};
ghost use Rattle.glance_directory.specs.Directory.{directory_of};
ghost use Rattle.device_models.specs.AnyDevices.{device_of};

use crate::racers::{Racers, one_seat};
use channel_config::config::Config;
use channel_config::parts::UnitKind;
use core_lock::locked::{Core, Seat};
use core_lock::naming::MachineBrand;
use core_lock::parts::Parts;
use core_lock::supplies::CoreSupply;
use device_models::any_device::AnyDevice;
use memory::{Supply, push};
use path_select::Rotating;
use std::alloc::{AllocError, Global};
use subsystem::subsystem::Subsystem;
use unit_driver::waiting::WaitingReport;

/// A core at the opening of a configuration, of which no seat was made.
fn opening_core<J: MachineBrand, S: CoreSupply>(
    alloc: Global,
    supply: &mut S,
    config: Config,
    parts: Parts,
) -> Result<Core<J, Rotating>, AllocError>
    requires named { parts.name ≡ J.name }
    requires set_up { J.setup ≡ config }
    requires directory { parts.name.directory ≡ directory_of (opening_of config) }
    requires serials { parts.serials ≡ all_serials (opening_of config) }
    ensures made { IfOk result (λ core. core.value ≡ record { state = opening_of config; history = []; by = []; seats = 0 }) }
    ensures unrefused { OnOk result (S.refused supply.new ≡ S.refused supply.old) }
    ensures memory { OnErr result (S.refused supply.new ≡ true) }
{
    let Ok(subsystem) = Subsystem::new_with(alloc, supply, config, Rotating) else {
        return Err(AllocError);
    };
    match Core::new_with(alloc, supply, subsystem, parts) {
        Ok(core) => Ok(core),
        Err(_) => Err(AllocError),
    }
}

/// A core at its opening, with its first seat, and as many CPUs more that are to race.
pub(crate) fn opening_seats<J: MachineBrand, S: CoreSupply>(
    alloc: Global,
    supply: &mut S,
    config: Config,
    parts: Parts,
    cpus: u32,
) -> Result<(Core<J, Rotating>, Seat<J>, Racers<J>), AllocError>
    requires named { parts.name ≡ J.name }
    requires set_up { J.setup ≡ config }
    requires directory { parts.name.directory ≡ directory_of (opening_of config) }
    requires serials { parts.serials ≡ all_serials (opening_of config) }
    ensures past { IfOk result (λ all. past_of all.0 all.1 ≡ record { state = opening_of config; history = []; room = 0 }) }
    ensures books { IfOk result (λ all. books_of all.0 all.1 ≡ spec.opening_books all.1.value) }
    ensures seat { IfOk result (λ all. IsOpeningSeat config all.1.value) }
    ensures racers { IfOk result (λ all. AreMade cpus all.2) }
    ensures unrefused { OnOk result (S.refused supply.new ≡ S.refused supply.old) }
    ensures memory { OnErr result (S.refused supply.new ≡ true) }
{
    let mut core = opening_core(alloc, supply, config, parts)?;
    match first_seats(alloc, supply, &mut core, cpus) {
        Ok((seat, racers)) => Ok((core, seat, racers)),
        Err(_) => Err(AllocError),
    }
}

/// The first seat of a core, and as many CPUs more that are to race.
fn first_seats<J: MachineBrand, S: CoreSupply>(
    alloc: Global,
    supply: &mut S,
    core: &mut Core<J, Rotating>,
    cpus: u32,
) -> Result<(Seat<J>, Racers<J>), AllocError>
    requires { core.old.value.seats ≡ 0 }
    ensures seat { IfOk result (λ both. IsNewSeat J.setup core.old.value both.0.value) }
    ensures room { IfOk result (λ both. both.0.room ≡ 0) }
    ensures racers { IfOk result (λ both. AreMade cpus both.1) }
    ensures core { IfOk result (λ _. IsSeatedIn core.old.value core.new.value) }
    ensures unrefused { OnOk result (S.refused supply.new ≡ S.refused supply.old) }
    ensures memory { OnErr result (S.refused supply.new ≡ true) }
{
    let seat = one_seat(supply, core)?;
    let racers = Racers::new(alloc, supply, core, cpus)?;
    Ok((seat, racers))
}

/// No report waits for so many units.
fn no_reports<S: Supply>(
    alloc: Global,
    supply: &mut S,
    count: usize,
) -> Result<Vec<Option<WaitingReport>>, AllocError>
    ensures none { IfOk result (λ waiting. waiting.items ≡ replicate count None) }
    ensures unrefused { OnOk result (S.refused supply.new ≡ S.refused supply.old) }
    ensures memory { OnErr result (S.refused supply.new ≡ true) }
{
    let mut waiting = Vec::new(alloc);
    for _ in 0..count {
        push(supply, &mut waiting, None)?;
    }
    Ok(waiting)
}

/// The device of each unit at its opening, and no report for it.
pub(crate) fn opening_units<S: Supply>(
    alloc: Global,
    supply: &mut S,
    kinds: &[UnitKind],
) -> Result<(Vec<AnyDevice>, Vec<Option<WaitingReport>>), AllocError>
    ensures devices { IfOk result (λ both. both.0.items ≡ map device_of kinds.now) }
    ensures waiting { IfOk result (λ both. both.1.items ≡ replicate (length kinds.now) None) }
    ensures unrefused { OnOk result (S.refused supply.new ≡ S.refused supply.old) }
    ensures memory { OnErr result (S.refused supply.new ≡ true) }
{
    let devices = opening_devices(alloc, supply, kinds)?;
    let waiting = no_reports(alloc, supply, kinds.len())?;
    Ok((devices, waiting))
}

/// The device of each unit, at its opening.
fn opening_devices<S: Supply>(
    alloc: Global,
    supply: &mut S,
    kinds: &[UnitKind],
) -> Result<Vec<AnyDevice>, AllocError>
    ensures opened { IfOk result (λ devices. devices.items ≡ map device_of kinds.now) }
    ensures unrefused { OnOk result (S.refused supply.new ≡ S.refused supply.old) }
    ensures memory { OnErr result (S.refused supply.new ≡ true) }
{
    let mut devices = Vec::new(alloc);
    for kind in kinds {
        push(supply, &mut devices, AnyDevice::of(*kind))?;
    }
    Ok(devices)
}
