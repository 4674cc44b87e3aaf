//! What an action names and there is not.

ghost use Rattle.std.specs.Prelude.{◌≡◌, ◌<◌, ℕ, IfSome, List, Some, length};
ghost use Rattle.machine_model.specs.State.{State};
ghost use Rattle.channel_config.specs.declared.parts.SubchannelSetup.{SubchannelSetup};
ghost use Rattle.chan_model.specs.declared.fault.Fault.TheVariants as fault_spec;
ghost use Rattle.script_rows.specs.Slots.{action_in};
ghost use Rattle.step_records.specs.Refusing.{fault_of};
ghost use Rattle.step_records.specs.declared.parties.Parties.{Parties};
ghost use Rattle.storage_keys.specs.Storage.{Contents};
ghost use Rattle.refusal_reasons.specs.Actions as spec;
ghost use Rattle.refusal_reasons.specs.Naming.{IsNamed, path_count_at};
ghost use Rattle.refusal_reasons.specs.Standing.{IsSo};

use chan_events::event::Event;
use chan_model::fault::Fault;
use channel_config::parts::SubchannelSetup;
use script_rows::slots::KeptAction;
use step_records::parties::Parties as Participants;
use step_records::refusal::Refusal;

/// The word of the subchannel that an action names.
fn subchannel_of(action: &KeptAction) -> Option<u32>
    ensures { (bytes : List ℕ) → result ≡ spec.word_named (action_in action.now bytes) }
{
    match action {
        KeptAction::Event(Event::Execute { instruction, .. }) => {
            Some(instruction.subchannel_word())
        }
        KeptAction::Event(
            Event::Choose { subchannel }
            | Event::Up { subchannel, .. }
            | Event::Down { subchannel, .. },
        ) => Some(*subchannel),
        KeptAction::Glance(subchannel) => Some(*subchannel),
        _ => None,
    }
}

/// The index of the subchannel that an action names; None where it names none that is there.
#[tactic(auto, using(crate::proofs::Naming::is_there))]
fn index_of(parties: &Participants, action: &KeptAction) -> Option<usize>
    ensures value { (bytes : List ℕ) → result ≡ spec.index_named parties.now (action_in action.now bytes) }
    ensures bound { IfSome result (λ index. index < length parties.now.subchannels.items) }
{
    match subchannel_of(action) {
        Some(word) => parties.subchannel_named(word),
        None => None,
    }
}

/// The number of the unit that an action names.
fn unit_of(action: &KeptAction) -> Option<u32>
    ensures { (bytes : List ℕ) → result ≡ spec.unit_named (action_in action.now bytes) }
{
    match action {
        KeptAction::Dev(unit)
        | KeptAction::Event(
            Event::Report { unit, .. } | Event::Act { unit, .. } | Event::Restart { unit },
        ) => Some(*unit),
        _ => None,
    }
}

/// The identifier of the channel path that an action names.
fn chpid_of(action: &KeptAction) -> Option<u32>
    ensures { (bytes : List ℕ) → result ≡ spec.chpid_named (action_in action.now bytes) }
{
    match action {
        KeptAction::Event(
            Event::PathDown { chpid } | Event::PathUp { chpid } | Event::PathReset { chpid },
        ) => Some(*chpid),
        _ => None,
    }
}

/// A subchannel that there is not.
#[tactic(auto, unfolding(crate::specs::Naming::IsNamed))]
pub(crate) fn no_subchannel(action: &KeptAction) -> Refusal
    ensures fault { fault_of result ≡ fault_spec.NoSuchSubchannel }
    ensures so { (state : State) (setups : List SubchannelSetup) → IsSo state setups result }
    ensures named { (state : State) (storage : Contents) (parties : Parties) (bytes : List ℕ) → IsNamed state storage parties (action_in action.now bytes) result }
{
    match subchannel_of(action) {
        Some(word) => Refusal::NoSubchannel { word },
        None => Refusal::Bare(Fault::NoSuchSubchannel),
    }
}

/// A unit that there is not.
#[tactic(auto, unfolding(crate::specs::Naming::IsNamed))]
pub(crate) fn no_unit(action: &KeptAction) -> Refusal
    ensures fault { fault_of result ≡ fault_spec.NoSuchUnit }
    ensures so { (state : State) (setups : List SubchannelSetup) → IsSo state setups result }
    ensures named { (state : State) (storage : Contents) (parties : Parties) (bytes : List ℕ) → IsNamed state storage parties (action_in action.now bytes) result }
{
    match unit_of(action) {
        Some(unit) => Refusal::NoUnit { unit },
        None => Refusal::Bare(Fault::NoSuchUnit),
    }
}

/// How many paths the subchannel at an index has.
#[tactic(auto, using(std::proofs::lemmas::Option::slice_get_read))]
fn path_count(setups: &[SubchannelSetup], index: usize) -> usize
    requires { index < length setups.now }
    ensures { path_count_at setups.now index ≡ Some result }
{
    setups[index].paths.as_slice().len()
}

/// A path that there is not.
#[tactic(auto, unfolding(crate::specs::Naming::IsNamed))]
pub(crate) fn no_path(parties: &Participants, action: &KeptAction) -> Refusal
    ensures fault { fault_of result ≡ fault_spec.NoSuchPath }
    ensures so { (state : State) (setups : List SubchannelSetup) → IsSo state setups result }
    ensures named { (state : State) (storage : Contents) (bytes : List ℕ) → IsNamed state storage parties.now (action_in action.now bytes) result }
{
    if let Some(chpid) = chpid_of(action) {
        return Refusal::NoChannelPath { chpid };
    }
    match index_of(parties, action) {
        Some(subchannel) => Refusal::NoPath {
            subchannel,
            paths: path_count(parties.subchannels.as_slice(), subchannel),
        },
        None => Refusal::Bare(Fault::NoSuchPath),
    }
}
