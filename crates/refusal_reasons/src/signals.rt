//! Signals that wait.

ghost use Rattle.std.specs.Prelude.{◌≡◌, ◌<◌, ℕ, List, IfNone, IfSome};
ghost use Rattle.chan_model.specs.declared.fault.Fault.TheVariants as fault_spec;
ghost use Rattle.script_rows.specs.Slots.{action_in};
ghost use Rattle.step_records.specs.Named.{index_of};
ghost use Rattle.step_records.specs.Refusing.{fault_of};
ghost use Rattle.step_records.specs.declared.record.Way.TheVariants as way_spec;
ghost use Rattle.storage_keys.specs.Storage.{Contents};
ghost use Rattle.wires.specs.Queues.{Queues};
ghost use Rattle.refusal_reasons.specs.Actions as spec;
ghost use Rattle.refusal_reasons.specs.Naming.{IsBusy, IsNamed};
ghost use Rattle.refusal_reasons.specs.Standing.{HasWires, IsElsewhere, IsEmptyWire, IsSo, NoneWaits, WaitsFirst};

use chan_events::event::Event;
use chan_model::fault::Fault;
use chan_model::names::Path;
use channel_config::parts::SubchannelSetup;
use machine::looks::Looks;
use script_rows::slots::KeptAction;
use step_records::parties::{Parties, word_of};
use step_records::record::{Way, Wire};
use step_records::refusal::{Front, FrontSignal, Refusal};
use wires::Wires;

/// The wires of the subchannel at an index of these set-ups; None where it is not there.
pub(crate) fn wires_at<'a, L: Looks>(
    looks: &'a L,
    setups: &[SubchannelSetup],
    index: usize,
) -> Option<&'a Wires>
    ensures found { IfSome result (λ wires. HasWires (L.state looks.now) setups.now index wires.now) }
    ensures none { IfNone result ((wires : Queues) → HasWires (L.state looks.now) setups.now index wires → ⊥) }
{
    let setup = setups.get(index)?;
    let subchannel = looks.subchannel(word_of(setup.id))?;
    Some(&subchannel.wires)
}

/// The signal that waits longest on a wire down.
fn first_down(wires: &Wires, path: Path) -> Option<FrontSignal>
    ensures found { IfSome result (λ signal. WaitsFirst wires.now path signal) }
    ensures some { IfSome result (λ _. NoneWaits wires.now way_spec.Down path → ⊥) }
    ensures none { IfNone result (NoneWaits wires.now way_spec.Down path) }
{
    match wires.front_down(path) {
        Some(signal) => Some(FrontSignal::Down(*signal.kept)),
        None => None,
    }
}

/// The signal that waits longest on a wire up.
fn first_up(wires: &Wires, path: Path) -> Option<FrontSignal>
    ensures found { IfSome result (λ signal. WaitsFirst wires.now path signal) }
    ensures some { IfSome result (λ _. NoneWaits wires.now way_spec.Up path → ⊥) }
    ensures none { IfNone result (NoneWaits wires.now way_spec.Up path) }
{
    match wires.front_up(path) {
        Some(signal) => Some(FrontSignal::Up(*signal.kept)),
        None => None,
    }
}

/// The signal that waits longest on a wire; None where none waits.
fn first_on(wires: &Wires, way: Way, path: Path) -> Option<FrontSignal>
    ensures found { IfSome result (λ signal. WaitsFirst wires.now path signal) }
    ensures some { IfSome result (λ _. NoneWaits wires.now way path → ⊥) }
    ensures none { IfNone result (NoneWaits wires.now way path) }
{
    match way {
        Way::Down => first_down(wires, path),
        Way::Up => first_up(wires, path),
    }
}

/// The signal that waits longest on the first path on whose wire, this way, a signal waits.
pub(crate) fn first_this_way(wires: &Wires, way: Way) -> Option<Front>
    ensures found { IfSome result (λ front. WaitsFirst wires.now front.path front.signal) }
    ensures none { IfNone result ((path : ℕ) → path < 8 → NoneWaits wires.now way path) }
{
    for index in 0..8 {
        let path = Path::new(index)?;
        if let Some(signal) = first_on(wires, way, path) {
            return Some(Front { path, signal });
        }
    }
    None
}

/// What waits on other wires than that of this path this way, on which nothing waits: on that of the way back first.
fn elsewhere(wires: &Wires, way: Way, path: Path) -> Option<Front>
    ensures { IsElsewhere wires.now result }
{
    let back = match way {
        Way::Down => Way::Up,
        Way::Up => Way::Down,
    };
    if let Some(signal) = first_on(wires, back, path) {
        return Some(Front { path, signal });
    }
    match first_this_way(wires, Way::Down) {
        Some(front) => Some(front),
        None => first_this_way(wires, Way::Up),
    }
}

/// The wire of a path of the subchannel that a word names; None where the subchannel is not there or no subchannel has that path.
fn wire_at(parties: &Parties, word: u32, path: u32, way: Way) -> Option<Wire>
    ensures { result ≡ spec.wire_at (index_of parties.now.subchannels.items word) path way }
{
    let subchannel = parties.subchannel_named(word)?;
    let path = Path::new(path)?;
    Some(Wire {
        subchannel,
        path,
        way,
    })
}

/// The wire that an action takes a signal off, where there is that wire.
fn wire_of(parties: &Parties, action: &KeptAction) -> Option<Wire>
    ensures { (bytes : List ℕ) → result ≡ spec.wire_named parties.now (action_in action.now bytes) }
{
    match action {
        KeptAction::Event(Event::Down { subchannel, path }) => {
            wire_at(parties, *subchannel, *path, Way::Down)
        }
        KeptAction::Event(Event::Up { subchannel, path }) => {
            wire_at(parties, *subchannel, *path, Way::Up)
        }
        _ => None,
    }
}

/// What waits elsewhere, where nothing waits on this wire; None where a signal waits there, or where its subchannel has no wires.
#[tactic(auto, using(crate::proofs::Waiting::empty_wire, crate::proofs::Naming::busy_wire))]
fn told_elsewhere<L: Looks>(
    looks: &L,
    setups: &[SubchannelSetup],
    wire: &Wire,
) -> Option<Option<Front>>
    ensures empty { IfSome result (λ told. IsEmptyWire (L.state looks.now) setups.now wire.now.subchannel wire.now.way wire.now.path told) }
    ensures busy { IfNone result (IsBusy (L.state looks.now) setups.now wire.now) }
{
    match wires_at(looks, setups, wire.subchannel) {
        None => None,
        Some(wires) => match first_on(wires, wire.way, wire.path) {
            Some(_) => None,
            None => Some(elsewhere(wires, wire.way, wire.path)),
        },
    }
}

/// Why no signal is taken.
#[tactic(auto, unfolding(crate::specs::Naming::IsNamed))]
pub(crate) fn nothing_waits<L: Looks>(looks: &L, parties: &Parties, action: &KeptAction) -> Refusal
    ensures fault { fault_of result ≡ fault_spec.NotSent }
    ensures so { IsSo (L.state looks.now) parties.now.subchannels.items result }
    ensures named { (storage : Contents) (bytes : List ℕ) → IsNamed (L.state looks.now) storage parties.now (action_in action.now bytes) result }
{
    let Some(wire) = wire_of(parties, action) else {
        return Refusal::Bare(Fault::NotSent);
    };
    match told_elsewhere(looks, parties.subchannels.as_slice(), &wire) {
        Some(elsewhere) => Refusal::NothingWaits { wire, elsewhere },
        None => Refusal::Bare(Fault::NotSent),
    }
}
