//! A channel subsystem with a device for each of its units, a seat from which its events are entered, and seats of CPUs that
//! are to race.

ghost use Rattle.std.specs.Prelude.{◌≡◌, ◌≢◌, ◌⊎◌, ◌+◌, IsTrue, Err, IfOk, IfNone, IfSome, List, [], None, Some, OnErr, OnOk, length, slice_get, true, ◌↔◌, ◌≤◌, ℕ};
ghost use Rattle.chan_model.specs.declared.fault.Fault.TheVariants as fault_spec;
ghost use Rattle.script_runner.specs.Acting as spec;
ghost use Rattle.script_runner.specs.Race.{AreMade, HasLogs};
ghost use Rattle.script_runner.specs.Racing.{HasAll, IsRaced};
ghost use Rattle.machine_model.specs.Setups.{IsSetUp};
ghost use Rattle.machine_model.specs.Steps.{HasRun};
ghost use Rattle.subsystem.specs.Headline.{HasHeld};
ghost use Rattle.script_runner.specs.Acting.{books_of, past_of, PerformsAction, Happens, IsAudited, IsOpening, LooksFrom, TakesTurn, EntersReport, outcome_of};
ghost use Rattle.machine_model.specs.State.{opening_of, sub_of, serials_in, unit_turn_of};
ghost use Rattle.event_log.specs.Logs.{last_reply};
ghost use Rattle.subsystem.specs.Keeping.{all_serials, answer_of};
ghost use Rattle.glance_directory.specs.Directory.{directory_of};
ghost use Rattle.core_lock.specs.Seats.{entries_by};
ghost use Rattle.device_models.specs.declared.any_device.AnyDevice.{AnyDevice};
ghost use Rattle.chan_model.specs.Reports as report_spec;
ghost use Rattle.chan_events.specs.Events.{event_in, event_length};
ghost use Rattle.script_rows.specs.Slots.{action_in, action_length};
ghost use Rattle.chan_events.specs.declared.event.Event.TheVariants as event_spec;

use crate::buffers::{EventBuffers, write_choose, write_down, write_execute, write_up};
use crate::opening::{opening_seats, opening_units};
use crate::racers::Racers;
use crate::reports::reported_by;
use chan_events::event::{Event, KeptEvent};
use chan_model::fault::Fault;
use chan_model::report::Report;
use channel_config::config::Config;
use core_lock::locked::{Core, Seat, audit};
use core_lock::naming::MachineBrand;
use core_lock::parts::Parts;
use core_lock::supplies::CoreSupply;
use device_law::Device;
use device_models::any_device::AnyDevice;
use event_log::history::LentReply;
use memory::Supply;
use path_select::Rotating;
use script_rows::race::Race;
use script_rows::slots::KeptAction;
use script_text::RaceCount;
use scsw_irb::serials::Serials;
use std::alloc::{AllocError, Global};
use std::marker::Model;
use std::sync::Wait;
use std::thread::Threads;
use subsystem::subsystem::Subsystem;
use unit_driver::reporting::no_report;
use unit_driver::waiting::{WaitingReport, forget, keep_refused};

/// A channel subsystem that no lock guards, with the seat from which its events are entered, a device for each unit, and by
/// unit the report that is still to be handed in: one for which there was no memory or no room on a wire.
#[derive(Drop)]
pub struct ScriptedMachine<J: MachineBrand> {
    core: Core<J, Rotating>,
    seat: Seat<J>,
    devices: Vec<AnyDevice>,
    waiting: Vec<Option<WaitingReport>>,
}

/// What an action came to that was not refused.
#[derive(Clone, Copy)]
pub enum Acted {
    /// An event was accepted: its reply is that of the last entry.
    Replied,
    /// A look found these serials, which the subsystem has.
    Looked(Serials),
}

impl<J: MachineBrand> Model for ScriptedMachine<J> {
    ghost use Rattle.script_runner.specs.Acting.{Installed, books_of, past_of};

    ghost Value = { Installed };

    ghost view = { λ i. record {
      past = past_of i.core i.seat;
      books = books_of i.core i.seat;
      devices = i.devices.items;
      waiting = i.waiting.items;
    } };
}

impl<J: MachineBrand> ScriptedMachine<J> {
    /// An installation at its opening, with as many CPUs beside it that are to race. It is not made only where the supply
    /// refused a growth.
    pub fn new<S: CoreSupply>(
        alloc: Global,
        supply: &mut S,
        config: Config,
        parts: Parts,
        cpus: u32,
    ) -> Result<(ScriptedMachine<J>, Racers<J>), AllocError>
        requires named { parts.name ≡ J.name }
        requires set_up { J.setup ≡ config }
        requires directory { parts.name.directory ≡ directory_of (opening_of config) }
        requires serials { parts.serials ≡ all_serials (opening_of config) }
        ensures made { IfOk result (λ both. IsOpening config both.0) }
        ensures racers { IfOk result (λ both. AreMade cpus both.1) }
        ensures unrefused { OnOk result (S.refused supply.new ≡ S.refused supply.old) }
        ensures memory { OnErr result (S.refused supply.new ≡ true) }
    {
        let (devices, waiting) = opening_units(alloc, supply, config.units())?;
        let (core, seat, racers) = opening_seats(alloc, supply, config, parts, cpus)?;
        let installation = ScriptedMachine {
            core,
            seat,
            devices,
            waiting,
        };
        Ok((installation, racers))
    }

    /// Performs an action. An event that restarts a unit, where it is accepted, puts the unit's device back to its opening;
    /// a report that waits for the unit stays, and is refused NotNow by the unit's next turn. A turn of a device hands in
    /// the report that waits for its unit, else the one of the unit's next work. It is refused NoSuchUnit where the unit
    /// is not configured, and NotNow where no report waits and a signal waits for the unit, its program may ask for a
    /// path, or it has nothing to do. A look at serials goes by the seat, whose reader loads what the
    /// subsystem has. It is refused NoSuchSubchannel where the subchannel is not configured. Room for the entry of an event is
    /// from a supply: it is refused NoMemory only where the supply refused it, or no number is left. The reply of an event is
    /// that of the last entry.
    pub fn act<M: Supply>(
        &mut self,
        supply: &mut M,
        action: &KeptAction,
        bytes: &[u8],
        buffers: &mut EventBuffers,
    ) -> Result<Acted, Fault>
        requires { action_length action.now ≤ length bytes.now }
        ensures performs { PerformsAction self.old (action_in action.now bytes.now) (outcome_of result self.new.past.history) self.new }
        ensures unrefused { result ≢ Err fault_spec.NoMemory → M.refused supply.new ≡ M.refused supply.old }
        ensures memory { result ≡ Err fault_spec.NoMemory → (M.refused supply.new ≡ true) ⊎ spec.IsUsedUp self.old.past }
    {
        match action {
            KeptAction::Event(event) => {
                self.perform(supply, event, bytes, buffers)?;
                Ok(Acted::Replied)
            }
            KeptAction::Dev(unit) => {
                self.take_turn(supply, *unit, &mut buffers.report)?;
                Ok(Acted::Replied)
            }
            KeptAction::Glance(subchannel) => match self.look(*subchannel) {
                Some(found) => Ok(Acted::Looked(found)),
                None => Err(Fault::NoSuchSubchannel),
            },
        }
    }

    /// The reply to the event that was accepted last; None where none was.
    pub fn last_reply(&self) -> Option<LentReply<'_>>
        ensures reply { IfSome result (λ reply. reply ≡ last_reply self.now.past.history) }
        ensures none { IfNone result (self.now.past.history ≡ []) }
    {
        self.core.subsystem().last_reply()
    }

    /// The subsystem, to look at.
    pub fn subsystem(&self) -> &Subsystem<Rotating>
        ensures state { result.now.state ≡ self.now.past.state }
        ensures history { result.now.history ≡ self.now.past.history }
    {
        self.core.subsystem()
    }

    /// Performs the event that is kept so, whose bytes stand there, from its slot.
    fn perform<M: Supply>(
        &mut self,
        supply: &mut M,
        event: &KeptEvent,
        bytes: &[u8],
        buffers: &mut EventBuffers,
    ) -> Result<(), Fault>
        requires { event_length event.now ≤ length bytes.now }
        ensures happens { Happens self.old (event_in event.now bytes.now) (answer_of result self.new.past.history) self.new }
        ensures unrefused { result ≢ Err fault_spec.NoMemory → M.refused supply.new ≡ M.refused supply.old }
        ensures memory { result ≡ Err fault_spec.NoMemory → (M.refused supply.new ≡ true) ⊎ spec.IsUsedUp self.old.past }
    {
        match event {
            Event::Up { subchannel, path } => {
                write_up(&mut buffers.up, *subchannel, *path);
                self.enter_plain(supply, &buffers.up)
            }
            Event::Down { subchannel, path } => {
                write_down(&mut buffers.down, *subchannel, *path);
                self.enter_plain(supply, &buffers.down)
            }
            Event::Choose { subchannel } => {
                write_choose(&mut buffers.choose, *subchannel);
                self.enter_plain(supply, &buffers.choose)
            }
            Event::Execute { cpu, instruction } => {
                write_execute(&mut buffers.execute, *cpu, *instruction);
                self.enter_plain(supply, &buffers.execute)
            }
            _ => self.enter_owned(supply, event, bytes, buffers),
        }
    }

    /// Cold path: every other event, which is made anew with its bytes.
    #[cold]
    #[inline(never)]
    fn enter_owned<M: Supply>(
        &mut self,
        supply: &mut M,
        event: &KeptEvent,
        bytes: &[u8],
        buffers: &mut EventBuffers,
    ) -> Result<(), Fault>
        requires { event_length event.now ≤ length bytes.now }
        ensures happens { Happens self.old (event_in event.now bytes.now) (answer_of result self.new.past.history) self.new }
        ensures unrefused { result ≢ Err fault_spec.NoMemory → M.refused supply.new ≡ M.refused supply.old }
        ensures memory { result ≡ Err fault_spec.NoMemory → (M.refused supply.new ≡ true) ⊎ spec.IsUsedUp self.old.past }
    {
        buffers.event = event.own(bytes);
        self.enter(supply, &buffers.event)
    }

    /// Whether the seat's log is what the history has of it.
    pub fn audited(self) -> bool
        ensures { IsTrue result ↔ IsAudited self }
    {
        let ScriptedMachine {
            core,
            seat,
            devices: _,
            waiting: _,
        } = self;
        has_its_log(&core, seat)
    }

    /// CPUs race at it, and it is given up: what is told of the race, and whether an instruction was refused. The audit is of all
    /// seats, and counts those as missing that are not given. Threads share no supply: room for what they enter is the
    /// allocator's.
    pub fn race<R: Threads + Wait + Sync>(
        self,
        rt: &R,
        race: Race,
        racers: Racers<J>,
    ) -> (RaceCount, bool)
    where
        J: Send + Sync,
        requires { AreMade race.cpus racers }
        ensures { IsRaced race self result.0 result.1 }
    {
        let ScriptedMachine {
            core,
            seat,
            devices: _,
            waiting: _,
        } = self;
        let before = core.subsystem().history().len() as u64;
        let (core, seats, total) = racers.race(rt, core, seat, race);
        has_run(&core);
        let audited = is_settled(core, seats, before, total.entries);
        (total.told(audited), total.refused)
    }

    /// Performs an event.
    fn enter<M: Supply>(&mut self, supply: &mut M, event: &Event) -> Result<(), Fault>
        ensures happens { Happens self.old event.now (answer_of result self.new.past.history) self.new }
        ensures unrefused { result ≢ Err fault_spec.NoMemory → M.refused supply.new ≡ M.refused supply.old }
        ensures memory { result ≡ Err fault_spec.NoMemory → (M.refused supply.new ≡ true) ⊎ spec.IsUsedUp self.old.past }
    {
        enter_from(&mut self.core, &mut self.seat, supply, event)?;
        restart_device(&mut self.devices, event);
        Ok(())
    }

    /// Performs an event that restarts no unit.
    #[inline(always)]
    #[tactic(auto, using(crate::proofs::Entering::left_alone))]
    fn enter_plain<M: Supply>(&mut self, supply: &mut M, event: &Event) -> Result<(), Fault>
        requires { (devices : List AnyDevice) → spec.devices_restarted devices event.now ≡ devices }
        ensures happens { Happens self.old event.now (answer_of result self.new.past.history) self.new }
        ensures unrefused { result ≢ Err fault_spec.NoMemory → M.refused supply.new ≡ M.refused supply.old }
        ensures memory { result ≡ Err fault_spec.NoMemory → (M.refused supply.new ≡ true) ⊎ spec.IsUsedUp self.old.past }
    {
        enter_from(&mut self.core, &mut self.seat, supply, event)
    }

    /// Looks from the seat at the serials of the subchannel that a word names, which are those that the subsystem has.
    fn look(&mut self, subchannel: u32) -> Option<Serials>
        ensures { LooksFrom self.old subchannel (serials_in (sub_of self.old.past.state subchannel)) (spec.glanced result) self.new }
    {
        match self.core.look(&mut self.seat, subchannel) {
            Ok(found) => Some(found),
            Err(_) => None,
        }
    }

    /// Takes a turn of a unit's device, whose report is written into a slot.
    fn take_turn<M: Supply>(
        &mut self,
        supply: &mut M,
        unit: u32,
        event: &mut Event,
    ) -> Result<(), Fault>
        ensures turn { TakesTurn self.old «unit» (answer_of result self.new.past.history) self.new }
        ensures unrefused { result ≢ Err fault_spec.NoMemory → M.refused supply.new ≡ M.refused supply.old }
        ensures memory { result ≡ Err fault_spec.NoMemory → (M.refused supply.new ≡ true) ⊎ spec.IsUsedUp self.old.past }
    {
        self.write_report(unit, event)?;
        self.enter_report(supply, unit, event)
    }

    /// Writes the event of the report of a unit into a slot.
    fn write_report(&mut self, unit: u32, event: &mut Event) -> Result<(), Fault>
        ensures report { spec.IsWritten «unit» result event.new (spec.device_turn_of self.old «unit»).report }
        ensures calls { self.new ≡ record self.old { devices = (spec.device_turn_of self.old «unit»).devices } }
    {
        match event {
            Event::Report { unit: of, report } => {
                *of = unit;
                self.next_report(unit, report)
            }
            _ => self.write_anew(unit, event),
        }
    }

    /// The same, where no report stood in the slot.
    #[cold]
    #[inline(never)]
    fn write_anew(&mut self, unit: u32, event: &mut Event) -> Result<(), Fault>
        ensures report { spec.IsWritten «unit» result event.new (spec.device_turn_of self.old «unit»).report }
        ensures calls { self.new ≡ record self.old { devices = (spec.device_turn_of self.old «unit»).devices } }
    {
        let mut report = no_report();
        let came = self.next_report(unit, &mut report);
        *event = Event::Report { unit, report };
        came
    }

    /// The report that waits for a unit, else the one of its next work, written into a slot.
    fn next_report(&mut self, unit: u32, report: &mut Report) -> Result<(), Fault>
        ensures report { spec.reported result report.new ≡ (spec.device_turn_of self.old «unit»).report }
        ensures calls { self.new ≡ record self.old { devices = (spec.device_turn_of self.old «unit»).devices } }
    {
        report_among(&self.core, &mut self.devices, &self.waiting, unit, report)
    }

    /// Hands in a report. It waits on where it is refused for want of memory or of room on a wire, and only there.
    fn enter_report<M: Supply>(
        &mut self,
        supply: &mut M,
        unit: u32,
        event: &Event,
    ) -> Result<(), Fault>
        ensures handed { (report : report_spec.Report) → event.now ≡ event_spec.Report «unit» report →
            EntersReport self.old «unit» report (answer_of result self.new.past.history) self.new }
        ensures unrefused { result ≢ Err fault_spec.NoMemory → M.refused supply.new ≡ M.refused supply.old }
        ensures memory { result ≡ Err fault_spec.NoMemory → (M.refused supply.new ≡ true) ⊎ spec.IsUsedUp self.old.past }
    {
        let answer = enter_from(&mut self.core, &mut self.seat, supply, event);
        if let Some(waiting) = self.waiting.get_mut(unit as usize) {
            match answer {
                Ok(()) => forget(waiting),
                Err(fault) => keep_refused(waiting, event, fault),
            }
        }
        answer
    }
}

/// The report that waits among these for a unit, else the one of its next work, written into a slot.
fn report_among<J: MachineBrand>(
    core: &Core<J, Rotating>,
    devices: &mut Vec<AnyDevice>,
    waiting: &[Option<WaitingReport>],
    unit: u32,
    report: &mut Report,
) -> Result<(), Fault>
    ensures report { spec.reported result report.new ≡ (spec.turn_by devices.old.items «unit» (slice_get waiting.now «unit») (unit_turn_of core.now.value.state «unit»)).report }
    ensures calls { devices.new.items ≡ (spec.turn_by devices.old.items «unit» (slice_get waiting.now «unit») (unit_turn_of core.now.value.state «unit»)).devices }
{
    let Some(waiting) = waiting.get(unit as usize) else {
        return Err(Fault::NoSuchUnit);
    };
    let subsystem = core.subsystem();
    let Some(turn) = subsystem.lent_turn(unit) else {
        return Err(Fault::NoSuchUnit);
    };
    reported_by(devices, unit, waiting, &turn, report)
}

/// Whether the log of a machine's one seat is what the history has of it.
fn has_its_log<J: MachineBrand>(core: &Core<J, Rotating>, seat: Seat<J>) -> bool
    ensures { IsTrue result ↔ (entries_by seat.value.number core.now.value.by core.now.value.history ≡ seat.value.log) }
{
    let seats = [seat];
    audit(core, &seats)
}

/// An event is entered from a seat, with room for its entries from a supply.
#[inline(always)]
fn enter_from<J: MachineBrand, M: Supply>(
    core: &mut Core<J, Rotating>,
    seat: &mut Seat<J>,
    supply: &mut M,
    event: &Event,
) -> Result<(), Fault>
    ensures past { spec.Enters (past_of core.old seat.old) event.now (answer_of result core.new.value.history) (past_of core.new seat.new) }
    ensures books { books_of core.new seat.new ≡ spec.booked (books_of core.old seat.old) event.now (answer_of result core.new.value.history) }
    ensures unrefused { result ≢ Err fault_spec.NoMemory → M.refused supply.new ≡ M.refused supply.old }
    ensures memory { result ≡ Err fault_spec.NoMemory → (M.refused supply.new ≡ true) ⊎ spec.IsUsedUp (past_of core.old seat.old) }
{
    core.perform_with(supply, seat, event)
}

/// What a core has, whoever was at work on it.
fn has_run<J: MachineBrand>(core: &Core<J, Rotating>)
    ensures set_up { IsSetUp J.setup core.now.value.state }
    ensures replays { HasRun core.now.value.history core.now.value.state }
    ensures held { HasHeld core.now.value.history core.now.value.state }
    ensures beside { length core.now.value.by ≡ length core.now.value.history }
{
    let _ = core.subsystem();
}

/// Whether the history has the log of each seat, all seats are given, and the history grew by so many entries.
fn is_settled<J: MachineBrand>(
    core: Core<J, Rotating>,
    seats: Vec<Seat<J>>,
    before: u64,
    entries: u64,
) -> bool
    ensures logs { IsTrue result ↔ HasLogs core.value seats.items (before + entries) }
    ensures entries { HasAll core.value seats.items }
{
    let held = audit(&core, seats.as_slice());
    let closed = core.close(seats);
    held && is_grown(closed, before, entries)
}

/// Whether a history has so many entries, and so many more; None where not all seats were given.
fn is_grown(closed: Option<u64>, before: u64, entries: u64) -> bool
    ensures { IsTrue result ↔ (closed ≡ Some (before + entries)) }
{
    match closed {
        Some(count) => count >= before && count - before == entries,
        None => false,
    }
}

/// Where an event restarts a unit, its device is put back to its opening.
fn restart_device(devices: &mut Vec<AnyDevice>, event: &Event)
    ensures { devices.new.items ≡ spec.devices_restarted devices.old.items event.now }
{
    if let Event::Restart { unit } = event {
        put_back(devices, *unit);
    }
}

/// Cold path: the device of a unit is put back to its opening.
#[cold]
#[inline(never)]
fn put_back(devices: &mut Vec<AnyDevice>, unit: u32)
    ensures { devices.new.items ≡ spec.put_back devices.old.items «unit» (slice_get devices.old.items «unit») }
{
    if let Some(device) = devices.get_mut(unit as usize) {
        device.restart();
    }
}
