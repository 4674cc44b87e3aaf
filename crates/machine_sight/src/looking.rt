//! Looks: each copies what a machine shows into a sight that is there already, so that no memory is taken once it has its size.

ghost use Rattle.std.specs.Prelude.{◌≡◌, ◌≢◌, ◌<◌, ◌≤◌, ◌+◌, ◌++◌, ◌∷◌, ℕ, [], Err, OnErr, OnOk, length, map, take, true};
ghost use Rattle.machine_sight.specs.Shown as spec;
ghost use Rattle.machine_sight.specs.Shown.{AreNamed, AreThere, Shows, ShowsEach};
ghost use Rattle.machine_sight.specs.declared.looking.SightFault.TheVariants as fault_spec;

use crate::sight::Sight;
use chan_model::chunk::Chunk;
use chan_model::signal::Load;
use chan_model::unit_state::{CurrentCommand, UnitState};
use functions::state::PackedState;
use machine::looks::Looks;
use memory::{Supply, push};
use std::alloc::AllocError;
use step_records::parties::{Parties, word_of};

/// Why there is no sight.
#[derive(Clone, Copy, PartialEq, Eq)]
pub enum SightFault {
    /// A growth was refused.
    NoMemory,
    /// A subchannel or a unit that was named is not there.
    NotThere,
}

impl From<AllocError> for SightFault {
    ghost use Rattle.std.specs.Prelude.{◌≡◌};
    ghost use Rattle.machine_sight.specs.declared.looking.SightFault.TheVariants.{NoMemory};

    ghost from_gives = { λ _ fault. fault ≡ NoMemory };

    fn from(_: AllocError) -> Self {
        SightFault::NoMemory
    }
}

/// Adds a subchannel that was not shown yet.
#[inline(never)]
fn add_state<S: Supply>(
    supply: &mut S,
    state: &PackedState,
    list: &mut Vec<PackedState>,
) -> Result<(), AllocError>
    ensures added { OnOk result (list.new.items ≡ list.old.items ++ state.now ∷ []) }
    ensures unrefused { OnOk result (S.refused supply.new ≡ S.refused supply.old) }
    ensures memory { OnErr result (S.refused supply.new ≡ true) }
{
    push(supply, list, state.copy())
}

/// Writes a subchannel at an index of a list, or behind its last.
fn show_state_at<S: Supply>(
    supply: &mut S,
    list: &mut Vec<PackedState>,
    index: usize,
    state: &PackedState,
) -> Result<(), AllocError>
    requires { index ≤ length list.old.items }
    ensures put { OnOk result (take (index + 1) list.new.items ≡ take index list.old.items ++ state.now ∷ []) }
    ensures length { OnOk result (index + 1 ≤ length list.new.items) }
    ensures bound { OnOk result ((most : ℕ) → index < most → length list.old.items ≤ most → length list.new.items ≤ most) }
    ensures unrefused { OnOk result (S.refused supply.new ≡ S.refused supply.old) }
    ensures memory { OnErr result (S.refused supply.new ≡ true) }
{
    if index < list.len() {
        list[index] = state.copy();
        Ok(())
    } else {
        add_state(supply, state, list)
    }
}

/// Writes the states of the subchannels that there are, in their order.
fn show_subchannels<S: Supply, L: Looks>(
    supply: &mut S,
    looks: &L,
    parties: &Parties,
    list: &mut Vec<PackedState>,
) -> Result<(), SightFault>
    ensures shown { OnOk result (ShowsEach (L.state looks.now) parties.now.subchannels.items list.new.items) }
    ensures there { AreNamed (L.state looks.now) parties.now.subchannels.items → result ≢ Err fault_spec.NotThere }
    ensures unrefused { OnOk result (S.refused supply.new ≡ S.refused supply.old) }
    ensures memory { result ≡ Err fault_spec.NoMemory → S.refused supply.new ≡ true }
{
    list.truncate(parties.subchannels.len());
    for index in 0..parties.subchannels.len() {
        let Some(sub) = looks.subchannel(word_of(parties.subchannels[index].id)) else {
            return Err(SightFault::NotThere);
        };
        show_state_at(supply, list, index, &sub.state)?;
    }
    Ok(())
}

/// Writes a load over another. A count is written where a count stands.
fn show_load(shown: &mut Option<Load>, load: &Option<Load>)
    ensures { shown.new ≡ load.now }
{
    match (&mut *shown, load) {
        (Some(Load::Absorbed(own)), Some(Load::Absorbed(count))) => *own = *count,
        _ => show_other_load(shown, load),
    }
}

/// Writes a load over one of another kind, where there is one.
#[inline(never)]
fn show_other_load(shown: &mut Option<Load>, load: &Option<Load>)
    ensures { shown.new ≡ load.now }
{
    *shown = match load {
        Some(load) => Some(load.copy()),
        None => None,
    };
}

/// Writes bytes over others, where there are any.
#[inline(never)]
fn show_chunk(shown: &mut Option<Chunk>, chunk: &Option<Chunk>)
    ensures { shown.new ≡ chunk.now }
{
    *shown = match chunk {
        Some(chunk) => Some(chunk.copy()),
        None => None,
    };
}

/// Writes a command over another. What neither has is not written again.
fn show_command(shown: &mut CurrentCommand, command: &CurrentCommand)
    ensures { shown.new ≡ command.now }
{
    shown.path = command.path;
    shown.code = command.code;
    shown.room = command.room;
    shown.progress = command.progress;
    shown.sequence = command.sequence;
    if shown.unanswered.is_some() || command.unanswered.is_some() {
        show_load(&mut shown.unanswered, &command.unanswered);
    }
    shown.asked = command.asked;
    shown.again = command.again;
    if shown.unabsorbed.is_some() || command.unabsorbed.is_some() {
        show_chunk(&mut shown.unabsorbed, &command.unabsorbed);
    }
    shown.stopped = command.stopped;
}

/// Writes a command where there was none, or the other way round.
#[inline(never)]
fn show_other(shown: &mut Option<CurrentCommand>, command: &Option<CurrentCommand>)
    ensures { shown.new ≡ command.now }
{
    *shown = match command {
        Some(command) => Some(command.copy()),
        None => None,
    };
}

/// Writes a command over another, where there is one.
fn show_current(shown: &mut Option<CurrentCommand>, command: &Option<CurrentCommand>)
    ensures { shown.new ≡ command.now }
{
    match (&mut *shown, command) {
        (None, None) => {}
        (Some(own), Some(command)) => show_command(own, command),
        _ => show_other(shown, command),
    }
}

/// Writes a unit over another.
fn show_unit(shown: &mut UnitState, unit: &UnitState)
    ensures { shown.new ≡ unit.now }
{
    shown.restarts = unit.restarts;
    shown.first = unit.first;
    shown.second = unit.second;
    shown.own = unit.own;
    shown.last_command = unit.last_command;
    show_current(&mut shown.current, &unit.current);
    shown.halted = unit.halted;
    shown.attentions = unit.attentions;
    shown.attention = unit.attention;
    shown.end_owed = unit.end_owed;
}

/// Adds a unit that was not shown yet.
#[inline(never)]
fn add_unit<S: Supply>(
    supply: &mut S,
    unit: &UnitState,
    list: &mut Vec<UnitState>,
) -> Result<(), AllocError>
    ensures added { OnOk result (list.new.items ≡ list.old.items ++ unit.now ∷ []) }
    ensures unrefused { OnOk result (S.refused supply.new ≡ S.refused supply.old) }
    ensures memory { OnErr result (S.refused supply.new ≡ true) }
{
    push(supply, list, unit.copy())
}

/// Writes a unit at an index of a list, or behind its last.
fn show_unit_at<S: Supply>(
    supply: &mut S,
    list: &mut Vec<UnitState>,
    index: usize,
    unit: &UnitState,
) -> Result<(), AllocError>
    requires { index ≤ length list.old.items }
    ensures put { OnOk result (take (index + 1) list.new.items ≡ take index list.old.items ++ unit.now ∷ []) }
    ensures length { OnOk result (index + 1 ≤ length list.new.items) }
    ensures bound { OnOk result ((most : ℕ) → index < most → length list.old.items ≤ most → length list.new.items ≤ most) }
    ensures unrefused { OnOk result (S.refused supply.new ≡ S.refused supply.old) }
    ensures memory { OnErr result (S.refused supply.new ≡ true) }
{
    if index < list.len() {
        show_unit(&mut list[index], unit);
        Ok(())
    } else {
        add_unit(supply, unit, list)
    }
}

/// Writes the first units, so many.
fn show_units<S: Supply, L: Looks>(
    supply: &mut S,
    looks: &L,
    count: usize,
    list: &mut Vec<UnitState>,
) -> Result<(), SightFault>
    ensures shown { OnOk result (list.new.items ≡ take count (L.state looks.now).units) }
    ensures there { count ≤ length (L.state looks.now).units → count ≤ 0x1_0000 → result ≢ Err fault_spec.NotThere }
    ensures unrefused { OnOk result (S.refused supply.new ≡ S.refused supply.old) }
    ensures memory { result ≡ Err fault_spec.NoMemory → S.refused supply.new ≡ true }
{
    list.truncate(count);
    for number in 0..count {
        if number >= 0x1_0000 {
            return Err(SightFault::NotThere);
        }
        let Some(unit) = looks.unit(number as u32) else {
            return Err(SightFault::NotThere);
        };
        show_unit_at(supply, list, number, unit)?;
    }
    Ok(())
}

/// Writes of each of these channel paths whether it is up.
fn show_paths<S: Supply, L: Looks>(
    supply: &mut S,
    looks: &L,
    chpids: &[u8],
    list: &mut Vec<bool>,
) -> Result<(), AllocError>
    ensures shown { OnOk result (list.new.items ≡ map (spec.is_up (L.state looks.now)) chpids.now) }
    ensures unrefused { OnOk result (S.refused supply.new ≡ S.refused supply.old) }
    ensures memory { OnErr result (S.refused supply.new ≡ true) }
{
    list.clear();
    for chpid in chpids {
        push(supply, list, looks.is_path_up(*chpid))?;
    }
    Ok(())
}

impl Sight {
    /// Shows what a machine shows now. There is no memory only where the supply refused a growth, and something is told as not there
    /// only where it is not; where the look is refused the sight shows nothing in particular.
    pub fn look<S: Supply, L: Looks>(
        &mut self,
        supply: &mut S,
        looks: &L,
        parties: &Parties,
    ) -> Result<(), SightFault>
        ensures shown { OnOk result (Shows (L.state looks.now) parties.now self.new) }
        ensures there { AreThere (L.state looks.now) parties.now → result ≢ Err fault_spec.NotThere }
        ensures unrefused { OnOk result (S.refused supply.new ≡ S.refused supply.old) }
        ensures memory { result ≡ Err fault_spec.NoMemory → S.refused supply.new ≡ true }
    {
        show_subchannels(supply, looks, parties, &mut self.subchannels)?;
        show_units(supply, looks, parties.units.len(), &mut self.units)?;
        show_paths(supply, looks, parties.paths.as_slice(), &mut self.up)?;
        self.requested = looks.requested_subclasses();
        self.reports = looks.report_count();
        Ok(())
    }
}
