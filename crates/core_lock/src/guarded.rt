//! What the lock of a machine guards: the subsystem with its history, and all that an event changes beside it. It can make no
//! seat, and nothing makes one of it but the machine's stock of seats, which stays outside the lock.

ghost use Rattle.std.specs.Prelude.{◌≡◌, ◌≢◌, ◌⊎◌, ◌+◌, ◌^◌, ◌↔◌, ◌≤◌, [], ◌∷◌, ◌++◌, All, IfErr, IfOk, IsTrue, OnErr, OnOk, Ok, Err, length, true};
ghost use Rattle.std.specs.Arc.{arc_value};
ghost use Rattle.chan_model.specs.declared.fault.Fault.TheVariants as fault_spec;
ghost use Rattle.run_laws.specs.Agreeing.{AllAgree};
ghost use Rattle.run_laws.specs.Beginnings.{IsBegunOnce};
ghost use Rattle.run_laws.specs.StateClaims.{IsClearedOnce};
ghost use Rattle.machine_model.specs.Setups.{IsSetUp};
ghost use Rattle.machine_model.specs.Steps.{HasRun};
ghost use Rattle.subsystem.specs.Headline.{HasHeld};
ghost use Rattle.subsystem.specs.Keeping.{IsOrdered, all_serials, answer_of};
ghost use Rattle.glance_directory.specs.Directory.{directory_of};
ghost use Rattle.glance_directory.specs.Cells.{cells_of, shown};
ghost use Rattle.core_lock.specs.Seats.{entries_by};
ghost use Rattle.core_lock.specs.Entering.{IsEntered};
ghost use Rattle.core_lock.specs.Turns as turn_spec;

use crate::entering::{EntrySeats, keep_entry};
use crate::locked::Seat;
use crate::naming::{Entries, MachineBrand, Turns};
use crate::parts::Parts;
use crate::same_log::is_log;
use crate::stock::SeatStock;
use crate::supplies::CoreSupply;
use chan_events::event::Event;
use chan_events::reply::Reply;
use chan_model::fault::Fault;
use glance_cell::cell::{Reader, Writer};
use glance_directory::directory::Directory;
use glance_directory::seen_serials::{first_seen_serials, watch};
use memory::{Allocator, Supply};
use path_select::PathChoice;
use scsw_irb::serials::Serials;
use std::alloc::{AllocError, Global};
use std::marker::Model;
use std::sync::Arc;
use std::sync::ledger::Book;
use subsystem::subsystem::Subsystem;

/// What the lock of a machine guards: its subsystem, the seat of each entry of its history, and the glance cells of its
/// subchannels.
#[derive(Drop)]
pub struct Guarded<J: MachineBrand, P: PathChoice + Drop> {
    pub(crate) subsystem: Subsystem<P>,
    entry_seats: EntrySeats<J>,
    pub(crate) writers: Vec<Writer>,
    pub(crate) directory: Arc<Directory>,
    pub(crate) turns: Book<Turns<J>>,
}

impl<J: MachineBrand, P: PathChoice + Drop> Model for Guarded<J, P> {
    ghost use Rattle.std.specs.Arc.{arc_value};
    ghost use Rattle.core_lock.specs.Seats.{GuardedCore};
    ghost use Rattle.core_lock.specs.Entering.{core_of};
    ghost use Rattle.core_lock.specs.Keeping.{IsGuarded};

    ghost Value = { GuardedCore };

    ghost view = { λ c. core_of c.subsystem c.entry_seats.by };

    ghost invariant = { λ c. IsGuarded c.subsystem c.entry_seats.by.items c.entry_seats.entries.total c.writers.items (arc_value c.directory) J.setup J.name };
}

/// What a new seat sees of a machine.
#[derive(Drop)]
pub(crate) struct FirstLook {
    pub directory: Arc<Directory>,
    pub readers: Vec<Reader>,
    pub seen_serials: Vec<Serials>,
}

/// A subsystem to which nothing happened yet, with the parts of its configuration and an empty list: what the lock of its
/// machine will guard, and the seats of the machine.
pub(crate) fn open<J: MachineBrand, P: PathChoice + Drop>(
    alloc: Global,
    subsystem: Subsystem<P>,
    by: Vec<u16>,
    parts: Parts,
) -> (Guarded<J, P>, SeatStock<J>)
    requires fresh { subsystem.history ≡ [] }
    requires empty { by.items ≡ [] }
    requires named { parts.name ≡ J.name }
    requires set_up { IsSetUp J.setup subsystem.state }
    requires directory { parts.name.directory ≡ directory_of subsystem.state }
    requires serials { parts.serials ≡ all_serials subsystem.state }
    ensures guarded { result.0.value ≡ record { state = subsystem.state; history = []; by = [] } }
    ensures stock { result.1 ≡ 0 }
{
    let _ = subsystem.history();
    let Parts {
        entries,
        turns,
        writers,
        directory,
    } = parts;
    let (entries, rest) = entries.open::<Entries<J>>();
    let (turns, turns_left) = turns.open::<Turns<J>>();
    let guarded = Guarded {
        subsystem,
        entry_seats: EntrySeats { by, entries },
        writers,
        directory,
        turns,
    };
    (guarded, SeatStock::new(alloc, rest, turns_left))
}

impl<J: MachineBrand, P: PathChoice + Drop> Guarded<J, P> {
    /// The subsystem, to look at. Whoever holds the core, under its lock or not, has what every run of a subsystem keeps.
    pub fn subsystem(&self) -> &Subsystem<P>
        ensures state { result.now.state ≡ self.now.value.state }
        ensures history { result.now.history ≡ self.now.value.history }
        ensures replays { HasRun self.now.value.history self.now.value.state }
        ensures set_up { IsSetUp J.setup self.now.value.state }
        ensures cleared_once { IsClearedOnce self.now.value.state.sets self.now.value.history }
        ensures begun_once { IsBegunOnce self.now.value.state.sets self.now.value.history }
        ensures agree { AllAgree self.now.value.state }
        ensures headline { HasHeld self.now.value.history self.now.value.state }
        ensures beside { length self.now.value.by ≡ length self.now.value.history }
    {
        let _ = self.subsystem.history();
        &self.subsystem
    }

    /// What a new seat sees, in what memory a supply has. Where the supply refuses some, and only there, it is refused.
    pub(crate) fn first_look<S: CoreSupply>(
        &mut self,
        alloc: Global,
        supply: &mut S,
    ) -> Result<FirstLook, AllocError>
        ensures directory { IfOk result (λ look. arc_value look.directory ≡ directory_of self.old.value.state) }
        ensures named { IfOk result (λ look. arc_value look.directory ≡ J.name.directory) }
        ensures loaded { IfOk result (λ look. shown look.readers.items ≡ all_serials self.old.value.state) }
        ensures cells { IfOk result (λ look. cells_of look.readers.items ≡ J.name.cells) }
        ensures seen_serials { IfOk result (λ look. look.seen_serials.items ≡ all_serials self.old.value.state) }
        ensures ordered { IfOk result (λ look. All IsOrdered look.seen_serials.items) }
        ensures same { self.new ≡ self.old }
        ensures unrefused { OnOk result (S.refused supply.new ≡ S.refused supply.old) }
        ensures memory { OnErr result (S.refused supply.new ≡ true) }
    {
        let directory = supply.share_again(&self.directory)?;
        let readers = watch(alloc, supply, &mut self.writers)?;
        let seen_serials = first_seen_serials(alloc, supply, &self.subsystem)?;
        Ok(FirstLook {
            directory,
            readers,
            seen_serials,
        })
    }

    /// Whether the log of a seat is what the history has of it.
    pub(crate) fn has_log(&self, seat: &Seat<J>) -> bool
        ensures { IsTrue result ↔ (entries_by seat.now.value.number self.now.value.by self.now.value.history ≡ seat.now.value.log) }
    {
        is_log(
            seat.number,
            self.entry_seats.by.as_slice(),
            &self.subsystem.history(),
            &seat.log.history(),
        )
    }

    /// How many entries there are, and the ledger of them.
    pub(crate) fn into_ledger(self) -> (u64, Book<Entries<J>>)
        ensures count { result.0 ≡ length self.value.history }
        ensures entries { result.1.total ≡ length self.value.history }
    {
        let count = self.entry_seats.by.len() as u64;
        let Guarded {
            subsystem: _,
            entry_seats,
            writers: _,
            directory: _,
            turns: _,
        } = self;
        let EntrySeats { by: _, entries } = entry_seats;
        (count, entries)
    }

    /// One step, entered from a seat, with room for its entries from a supply: its entry in the history and in the seat's log. Where
    /// it is refused all is as before; it is refused as `Core::enter_with` says. Its reply is that of the last entry.
    #[inline(always)]
    pub(crate) fn perform_with<S: Supply>(
        &mut self,
        supply: &mut S,
        seat: &mut Seat<J>,
        event: &Event,
    ) -> Result<(), Fault>
        ensures entered { IsEntered P.picks self.old seat.old event.now (answer_of result self.new.value.history) self.new seat.new }
        ensures unrefused { result ≢ Err fault_spec.NoMemory → S.refused supply.new ≡ S.refused supply.old }
        ensures memory { result ≡ Err fault_spec.NoMemory →
            (S.refused supply.new ≡ true) ⊎ (2 ^ 62 ≤ length self.old.value.history + 1) }
    {
        keep_entry(
            &mut self.subsystem,
            &mut self.entry_seats,
            &mut self.writers,
            supply,
            seat,
            event,
        )
    }

    /// One step, as `perform_with` has it, with its reply.
    #[inline(never)]
    pub(crate) fn enter_with<S: Supply>(
        &mut self,
        supply: &mut S,
        seat: &mut Seat<J>,
        event: &Event,
    ) -> Result<Reply, Fault>
        ensures entered { IsEntered P.picks self.old seat.old event.now result self.new seat.new }
        ensures unrefused { result ≢ Err fault_spec.NoMemory → S.refused supply.new ≡ S.refused supply.old }
        ensures memory { result ≡ Err fault_spec.NoMemory →
            (S.refused supply.new ≡ true) ⊎ (2 ^ 62 ≤ length self.old.value.history + 1) }
    {
        self.perform_with(supply, seat, event)?;
        match self.subsystem.last_reply() {
            Some(reply) => Ok(reply.own()),
            None => Ok(Reply::Done),
        }
    }

    /// One step, as `perform_with` has it in what memory there is, whose reply nobody looks at.
    pub(crate) fn try_enter(&mut self, seat: &mut Seat<J>, event: &Event) -> Result<bool, Fault>
        ensures { turn_spec.Tries P.picks self.old seat.old seat.old.value event.now result self.new.value seat.new.value }
    {
        self.perform_with(&mut Allocator { refused: false }, seat, event)?;
        Ok(true)
    }
}
