//! Units that do not act now.

ghost use Rattle.std.specs.Prelude.{◌≡◌, IfSome, None, Some, true};
ghost use Rattle.chan_model.specs.declared.fault.Fault.TheVariants as fault_spec;
ghost use Rattle.script_rows.specs.declared.Action.{Action};
ghost use Rattle.step_records.specs.Refusing.{fault_of};
ghost use Rattle.storage_keys.specs.Storage.{Contents};
ghost use Rattle.refusal_reasons.specs.Actions.{act_named, chpid_named, side_named, unit_acting};
ghost use Rattle.refusal_reasons.specs.Naming.{IsNamed, IsSideOf};
ghost use Rattle.refusal_reasons.specs.Standing.{IsSo, IsUnitSo, IsWaiting, is_quiet};

use crate::signals::{first_this_way, wires_at};
use chan_events::event::UnitAct;
use chan_model::fault::Fault;
use chan_model::names::Side;
use chan_model::unit_state::{Connection, Own, Progress, UnitState};
use channel_config::parts::SubchannelSetup;
use machine::looks::Looks;
use step_records::parties::Parties;
use step_records::record::Way;
use step_records::refusal::{Front, Refusal, UnitRefusal};

/// A signal that waits this way at the subchannel of an index; None where none does.
#[tactic(auto, using(crate::proofs::Waiting::is_waiting))]
fn front_at<L: Looks>(
    looks: &L,
    setups: &[SubchannelSetup],
    index: usize,
    way: Way,
) -> Option<Front>
    ensures { IfSome result (λ front. IsWaiting (L.state looks.now) setups.now index front) }
{
    let wires = wires_at(looks, setups, index)?;
    let front = first_this_way(wires, way)?;
    Some(front)
}

/// A signal between a unit and its subchannels that waits this way; None where none does.
#[tactic(auto, using(crate::proofs::Waiting::waits_for, std::proofs::lemmas::Option::slice_get_read))]
fn signal_between<L: Looks>(
    looks: &L,
    setups: &[SubchannelSetup],
    unit: u32,
    way: Way,
) -> Option<UnitRefusal>
    ensures so { IfSome result (λ why. IsUnitSo (L.state looks.now) setups.now «unit» why) }
    ensures side { IfSome result (λ why. IsSideOf None why) }
{
    for index in 0..setups.len() {
        if u32::from(setups[index].unit) == unit
            && let Some(front) = front_at(looks, setups, index, way)
        {
            return Some(UnitRefusal::Signal {
                subchannel: index,
                front,
            });
        }
    }
    None
}

/// How far a unit is with its command.
fn progress_of(state: &UnitState) -> UnitRefusal
    ensures quiet { is_quiet result ≡ true }
    ensures side { IsSideOf None result }
{
    match &state.current {
        None => UnitRefusal::NoCommand,
        Some(current) => match current.progress {
            Progress::Ended => UnitRefusal::Ended,
            Progress::New | Progress::Working | Progress::ChannelEnded => UnitRefusal::Unanswered,
        },
    }
}

/// Why the device of a unit has no turn.
#[tactic(auto, using(crate::proofs::Waiting::quiet_so))]
fn no_turn<L: Looks>(
    looks: &L,
    setups: &[SubchannelSetup],
    unit: u32,
    state: &UnitState,
) -> UnitRefusal
    ensures so { IsUnitSo (L.state looks.now) setups.now «unit» result }
    ensures side { IsSideOf None result }
{
    if let Some(why) = signal_between(looks, setups, unit, Way::Down) {
        return why;
    }
    match signal_between(looks, setups, unit, Way::Up) {
        Some(why) => why,
        None => progress_of(state),
    }
}

/// Why the program of a unit does not leave, or asks for no path.
fn place_of(state: &UnitState) -> UnitRefusal
    ensures quiet { is_quiet result ≡ true }
    ensures side { IsSideOf None result }
{
    match state.own {
        Own::Idle => UnitRefusal::Idle,
        Own::Owned {
            number,
            connection: Connection::On { path, .. },
            ..
        } => UnitRefusal::Connected { number, path },
        Own::Owned { number, .. } => UnitRefusal::Disconnected { number },
    }
}

/// Whether a subchannel reaches a side of a unit.
fn is_reached(setups: &[SubchannelSetup], unit: u32, side: Side) -> bool {
    setups.iter().any(|setup| u32::from(setup.unit) == unit && setup.side.same(side))
}

/// Why a unit asks a side that a subchannel reaches for no attention.
fn no_attention(side: Side, state: &UnitState) -> UnitRefusal
    ensures quiet { is_quiet result ≡ true }
    ensures side { IsSideOf (Some side) result }
{
    match state.own {
        Own::Owned { number, .. } => UnitRefusal::Held { number },
        Own::Idle => UnitRefusal::NotReset(side),
    }
}

/// Why a unit does not act so now; its device, where no act is named.
#[tactic(auto, using(crate::proofs::Waiting::quiet_so))]
fn reason_of<L: Looks>(
    looks: &L,
    setups: &[SubchannelSetup],
    unit: u32,
    act: Option<UnitAct>,
    state: &UnitState,
) -> UnitRefusal
    ensures so { IsUnitSo (L.state looks.now) setups.now «unit» result }
    ensures side { IsSideOf (side_named act) result }
{
    match act {
        None => no_turn(looks, setups, unit, state),
        Some(UnitAct::Leave | UnitAct::Ask { .. }) => place_of(state),
        Some(UnitAct::Attention { side, .. } | UnitAct::Notice { side, .. })
            if !is_reached(setups, unit, side) => { UnitRefusal::Unreached(side) }
        Some(UnitAct::Attention { side, .. }) => no_attention(side, state),
        Some(UnitAct::Notice { side, .. }) => UnitRefusal::NotRestarted(side),
    }
}

/// Why a unit does not act so now; its device, where no act is named.
#[tactic(auto, unfolding(crate::specs::Naming::IsNamed))]
pub(crate) fn unit_refusal<L: Looks>(
    looks: &L,
    parties: &Parties,
    unit: u32,
    act: Option<UnitAct>,
) -> Refusal
    ensures fault { fault_of result ≡ fault_spec.NotNow }
    ensures so { IsSo (L.state looks.now) parties.now.subchannels.items result }
    ensures named { (storage : Contents) (asked : Action) → unit_acting asked ≡ Some «unit» → act_named asked ≡ act → chpid_named asked ≡ None → IsNamed (L.state looks.now) storage parties.now asked result }
{
    match looks.unit(unit) {
        Some(state) => Refusal::Unit {
            unit: unit as usize,
            why: reason_of(looks, parties.subchannels.as_slice(), unit, act, state),
        },
        None => Refusal::Bare(Fault::NotNow),
    }
}
