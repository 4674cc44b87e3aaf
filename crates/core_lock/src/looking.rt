//! What a seat does without the lock: the call that it owes, and its looks at serials; and its looks with the machine at hand.

ghost use Rattle.std.specs.Prelude.{◌≡◌, ◌<◌, ◌≤◌, None, Some, IsSome, IfOk, IfErr, OnErr, is_some, length, slice_get};
ghost use Rattle.chan_model.specs.declared.fault.Fault.TheVariants as fault_spec;
ghost use Rattle.glance_directory.specs.Directory.{index_named};
ghost use Rattle.core_lock.specs.Entering.{Glances, LoadsAt, Looks};
ghost use Rattle.glance_directory.specs.Cells.{cells_of, serials, shown};
ghost use Rattle.machine_model.specs.State.{sub_of};
ghost use Rattle.core_lock.specs.Turns as turn_spec;

use crate::gate::{Gate, Gated};
use crate::guarded::Guarded;
use crate::locked::{Core, Seat};
use crate::naming::MachineBrand;
use chan_model::fault::Fault;
use glance_cell::cell::{Reader, Writer};
use glance_cell::words::Glance;
use glance_directory::seen_serials::greater;
use path_select::PathChoice;
use scsw_irb::serials::Serials;

impl<J: MachineBrand> Seat<J> {
    /// Whether a call of a device is owed.
    pub fn owes(&self) -> bool
        ensures { result ≡ is_some self.now.value.owed }
    {
        self.owed.is_some()
    }

    /// Passes the gate, makes the call that is owed, and keeps the device's answer as a report. It takes no lock and no memory.
    pub fn call<D: Gated, G: Gate>(&mut self, device: &mut D, gate: &G)
        requires { IsSome self.old.value.owed }
        ensures calls { turn_spec.Calls (G.passes gate.now) D.answers self.old.value device.old self.new.value device.new }
        ensures room { self.new.room ≡ self.old.room }
    {
        let Some(owed) = self.owed.take() else {
            unreachable!()
        };
        self.calls = self.calls.saturating_add(1);
        gate.pass(owed.unit, self.calls);
        let answer = device.call_through(gate, owed.unit, self.calls, &owed.call);
        self.waiting = Some(owed.report(answer));
    }

    /// The serials of a subchannel: part by part the greater of what is loaded and of what the seat saw. It takes no lock and
    /// no memory, and is refused only where the subchannel is not configured.
    pub fn glance(&mut self, subchannel: u32) -> Result<Glance, Fault>
        ensures found { IfOk result (λ g. Glances self.old.value subchannel (serials g.made g.cleared) self.new.value) }
        ensures ordered { IfOk result (λ g. g.cleared ≤ g.made) }
        ensures refused { IfErr result (λ f. (f ≡ fault_spec.NoSuchSubchannel) × (index_named self.old.value.directory subchannel ≡ None)) }
        ensures same { OnErr result (self.new ≡ self.old) }
        ensures room { self.new.room ≡ self.old.room }
    {
        let Some(index) = self.directory.index_of(subchannel) else {
            return Err(Fault::NoSuchSubchannel);
        };
        let reader = &mut self.readers[index];
        let loaded = reader.load();
        let pair = self.seen_serials[index];
        let found = greater(
            pair,
            Serials {
                made: loaded.made,
                cleared: loaded.cleared,
            },
        );
        self.seen_serials[index] = found;
        Ok(Glance {
            made: found.made,
            cleared: found.cleared,
        })
    }
}

impl<J: MachineBrand, P: PathChoice + Drop> Core<J, P> {
    /// The serials of a subchannel, which the seat's reader loads while nothing changes them: they are what the machine has. It
    /// takes no memory, and is refused only where the subchannel is not configured.
    pub fn look(&mut self, seat: &mut Seat<J>, subchannel: u32) -> Result<Serials, Fault>
        ensures found { IfOk result (λ found. Looks self.old.value.state seat.old.value subchannel found seat.new.value) }
        ensures refused { IfErr result (λ f. (f ≡ fault_spec.NoSuchSubchannel) × (sub_of self.old.value.state subchannel ≡ None)) }
        ensures core { self.new ≡ self.old }
        ensures seat { OnErr result (seat.new ≡ seat.old) }
        ensures room { seat.new.room ≡ seat.old.room }
    {
        self.guarded.look(seat, subchannel)
    }
}

impl<J: MachineBrand, P: PathChoice + Drop> Guarded<J, P> {
    /// A look, as `Core::look` has it.
    fn look(&mut self, seat: &mut Seat<J>, subchannel: u32) -> Result<Serials, Fault>
        ensures found { IfOk result (λ found. Looks self.old.value.state seat.old.value subchannel found seat.new.value) }
        ensures refused { IfErr result (λ f. (f ≡ fault_spec.NoSuchSubchannel) × (sub_of self.old.value.state subchannel ≡ None)) }
        ensures core { self.new ≡ self.old }
        ensures seat { OnErr result (seat.new ≡ seat.old) }
        ensures room { seat.new.room ≡ seat.old.room }
    {
        self.stands(seat);
        let Some(index) = seat.directory.index_of(subchannel) else {
            return Err(Fault::NoSuchSubchannel);
        };
        let found = load_at(&mut self.writers, &mut seat.readers, index);
        let pair = seat.seen_serials[index];
        let raised = greater(pair, found);
        seat.seen_serials[index] = raised;
        Ok(found)
    }
}

/// The reader of an index loads what the writer of that index has.
fn load_at(writers: &mut Vec<Writer>, readers: &mut Vec<Reader>, index: usize) -> Serials
    requires read { index < length readers.old.items }
    requires written { index < length writers.old.items }
    requires cells { cells_of readers.old.items ≡ cells_of writers.old.items }
    ensures found { slice_get (shown writers.old.items) index ≡ Some result }
    ensures ordered { result.cleared ≤ result.made }
    ensures writers { writers.new.items ≡ writers.old.items }
    ensures readers { LoadsAt readers.old.items index result readers.new.items }
{
    let reader = &mut readers[index];
    let loaded = reader.load_beside(&mut writers[index]);
    Serials {
        made: loaded.made,
        cleared: loaded.cleared,
    }
}
