//! Why an action of a script was refused, told by what stands there: wires, units, paths and operands.
#![tactic(auto)]

ghost use Rattle.std.specs.Prelude.{◌≡◌, ℕ, List};
ghost use Rattle.chan_model.specs.declared.fault.Fault.TheVariants as fault_spec;
ghost use Rattle.script_rows.specs.Slots.{action_in};
ghost use Rattle.step_records.specs.Refusing.{fault_of};
ghost use Rattle.storage_keys.specs.Storage.{Contents};
ghost use Rattle.refusal_reasons.specs.Naming.{IsNamed};
ghost use Rattle.refusal_reasons.specs.Standing.{IsSo};

mod absent;
mod operands;
mod signals;
mod storage;
mod units;

use crate::absent::{no_path, no_subchannel, no_unit};
use crate::operands::operand_refusal;
use crate::signals::nothing_waits;
use crate::storage::storage_refusal;
use crate::units::unit_refusal;
use chan_events::event::Event;
use chan_model::fault::Fault;
use machine::looks::Looks;
use script_rows::slots::KeptAction;
use step_records::parties::Parties;
use step_records::refusal::{PathRefusal, Refusal};
use storage_keys::MainStorage;

/// Why an action may not be now.
#[tactic(auto, unfolding(crate::specs::Naming::IsNamed))]
fn not_now<L: Looks>(looks: &L, parties: &Parties, action: &KeptAction) -> Refusal
    ensures fault { fault_of result ≡ fault_spec.NotNow }
    ensures so { IsSo (L.state looks.now) parties.now.subchannels.items result }
    ensures named { (storage : Contents) (bytes : List ℕ) → IsNamed (L.state looks.now) storage parties.now (action_in action.now bytes) result }
{
    match action {
        KeptAction::Event(Event::PathDown { chpid }) => Refusal::Path {
            chpid: *chpid,
            why: PathRefusal::Down,
        },
        KeptAction::Event(Event::PathUp { chpid }) => Refusal::Path {
            chpid: *chpid,
            why: PathRefusal::Up,
        },
        KeptAction::Event(Event::PathReset { chpid }) => Refusal::Path {
            chpid: *chpid,
            why: PathRefusal::NoReset,
        },
        KeptAction::Dev(unit) => unit_refusal(looks, parties, *unit, None),
        KeptAction::Event(Event::Act { unit, act }) => {
            unit_refusal(looks, parties, *unit, Some(*act))
        }
        _ => Refusal::Bare(Fault::NotNow),
    }
}

/// Why an action was refused by this fault, at a machine that is still as it was then. What is told of wires is so: what is said to
/// wait does wait there, and where nothing is said to wait there is nothing. A report that may not be now, and an act that names a path
/// which there is not, are told by their fault alone.
pub fn refusal_of<L: Looks, M: MainStorage>(
    looks: &L,
    storage: &M,
    parties: &Parties,
    action: &KeptAction,
    fault: Fault,
) -> Refusal
    ensures fault { fault_of result ≡ fault }
    ensures so { IsSo (L.state looks.now) parties.now.subchannels.items result }
    ensures named { (bytes : List ℕ) → IsNamed (L.state looks.now) (M.contents storage.now) parties.now (action_in action.now bytes) result }
{
    match fault {
        Fault::NoMemory => Refusal::NoMemory,
        Fault::WireFull => Refusal::WireFull,
        Fault::NotSent => nothing_waits(looks, parties, action),
        Fault::NoSuchSubchannel => no_subchannel(action),
        Fault::NoSuchPath => no_path(parties, action),
        Fault::NoSuchUnit => no_unit(action),
        Fault::NotNow => not_now(looks, parties, action),
        Fault::ConfigBad(_) | Fault::ScriptBad(_, _) => Refusal::Bare(fault),
        Fault::Storage(kind) => storage_refusal(action, kind),
        Fault::Operand => operand_refusal(storage, parties, action),
    }
}
