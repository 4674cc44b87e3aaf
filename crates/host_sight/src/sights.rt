//! Looks at a machine: what is there, or why it is not.

ghost use Rattle.std.specs.Prelude.{◌≡◌};
ghost use Rattle.host_sight.specs.Sights as spec;

use crate::holds::HostHold;
use crate::programs::HostPrograms;
use crate::signals::HostSignal;
use crate::units::HostUnit;
use crate::waiting::HostWires;
use chan_model::fault::Fault;
use machine::looks::Looks;
use signal_step::turns::path_of;

/// What the subsystem takes the device of a subchannel to be held by; `NoSuchSubchannel` where its word names none.
pub fn hold_at<L: Looks>(looks: &L, subchannel: u32) -> Result<HostHold, Fault>
    ensures { result ≡ spec.hold_at (L.state looks.now) subchannel }
{
    match looks.subchannel(subchannel) {
        None => Err(Fault::NoSuchSubchannel),
        Some(sub) => Ok(HostHold::of(&sub.state.rest().hold)),
    }
}

/// The programs of a subchannel; `NoSuchSubchannel`.
pub fn programs_at<L: Looks>(looks: &L, subchannel: u32) -> Result<HostPrograms, Fault>
    ensures { result ≡ spec.programs_at (L.state looks.now) subchannel }
{
    match looks.subchannel(subchannel) {
        None => Err(Fault::NoSuchSubchannel),
        Some(sub) => Ok(HostPrograms::of(&sub.state)),
    }
}

/// How many signals wait on the wires of a subchannel; `NoSuchSubchannel`.
pub fn wires_at<L: Looks>(looks: &L, subchannel: u32) -> Result<HostWires, Fault>
    ensures { result ≡ spec.wires_at (L.state looks.now) subchannel }
{
    match looks.subchannel(subchannel) {
        None => Err(Fault::NoSuchSubchannel),
        Some(sub) => Ok(HostWires::of(&sub.wires)),
    }
}

/// What a unit remembers; `NoSuchUnit`.
pub fn unit_at<L: Looks>(looks: &L, unit: u32) -> Result<HostUnit, Fault>
    ensures { result ≡ spec.unit_at (L.state looks.now) «unit» }
{
    match looks.unit(unit) {
        None => Err(Fault::NoSuchUnit),
        Some(remembered) => Ok(HostUnit::of(remembered)),
    }
}

/// The signal at an index of the wire down of a path, 0 for that which waits longest; `NoSuchSubchannel`, `NoSuchPath` where the
/// subchannel has no path of this index, `NotSent` where fewer wait.
pub fn down_at<L: Looks>(
    looks: &L,
    subchannel: u32,
    path: u32,
    index: u32,
) -> Result<HostSignal, Fault>
    ensures { result ≡ spec.down_at (L.state looks.now) subchannel path index }
{
    let Some(sub) = looks.subchannel(subchannel) else {
        return Err(Fault::NoSuchSubchannel);
    };
    let Some(path) = path_of(sub, path) else {
        return Err(Fault::NoSuchPath);
    };
    match sub.wires.down_at(path, index as usize) {
        None => Err(Fault::NotSent),
        Some(signal) => Ok(HostSignal::of_down(&signal)),
    }
}

/// The same of the wire up.
pub fn up_at<L: Looks>(
    looks: &L,
    subchannel: u32,
    path: u32,
    index: u32,
) -> Result<HostSignal, Fault>
    ensures { result ≡ spec.up_at (L.state looks.now) subchannel path index }
{
    let Some(sub) = looks.subchannel(subchannel) else {
        return Err(Fault::NoSuchSubchannel);
    };
    let Some(path) = path_of(sub, path) else {
        return Err(Fault::NoSuchPath);
    };
    match sub.wires.up_at(path, index as usize) {
        None => Err(Fault::NotSent),
        Some(signal) => Ok(HostSignal::of_up(&signal)),
    }
}
