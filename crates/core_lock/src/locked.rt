//! The subsystem under its lock, and its seats.

mod events;

ghost use Rattle.std.specs.Prelude.{◌≡◌, ◌≢◌, ◌⊎◌, ◌+◌, ◌↔◌, ℕ, [], ◌∷◌, ◌++◌, length, vec_len, sum_by, All, Err, true, IsTrue, IfOk, IfErr, IfSome, IfNone, OnErr, OnOk, None, Some, Ok, ◌≤◌};
ghost use Rattle.chan_model.specs.declared.fault.Fault.TheVariants as fault_spec;
ghost use Rattle.run_laws.specs.Agreeing.{AllAgree};
ghost use Rattle.run_laws.specs.Beginnings.{IsBegunOnce};
ghost use Rattle.run_laws.specs.StateClaims.{IsClearedOnce};
ghost use Rattle.machine_model.specs.Setups.{IsSetUp};
ghost use Rattle.machine_model.specs.State.{index_of};
ghost use Rattle.machine_model.specs.Steps.{HasRun};
ghost use Rattle.subsystem.specs.Headline.{HasHeld};
ghost use Rattle.subsystem.specs.Keeping.{all_serials};
ghost use Rattle.glance_directory.specs.Directory.{directory_of, index_named};
ghost use Rattle.core_lock.specs.Entering.{guarded_in};
ghost use Rattle.glance_directory.specs.Cells.{shown};
ghost use Rattle.core_lock.specs.Seats.{entries_by};

use crate::guarded::{FirstLook, Guarded, open};
use crate::naming::{Entries, MachineBrand, Turns};
use crate::parts::Parts;
use crate::stock::SeatStock;
use crate::supplies::CoreSupply;
use chan_model::fault::Fault;
use event_log::logs::Log;
use glance_cell::cell::Reader;
use glance_directory::directory::Directory;
use memory::Allocator;
use path_select::PathChoice;
use scsw_irb::serials::Serials;
use std::alloc::Global;
use std::marker::Model;
use std::sync::Arc;
use std::sync::ledger::{Book, Share};
use subsystem::subsystem::Subsystem;
use unit_driver::turns::{OwedCall, TakenCommand};
use unit_driver::waiting::WaitingReport;

/// The most seats of one machine.
pub const MOST_SEATS: u16 = 1024;

/// A subsystem that is to be locked: what its lock will guard, and the seats that can still be made.
#[derive(Drop)]
pub struct Core<J: MachineBrand, P: PathChoice + Drop> {
    pub(crate) guarded: Guarded<J, P>,
    stock: SeatStock<J>,
}

impl<J: MachineBrand, P: PathChoice + Drop> Model for Core<J, P> {
    ghost use Rattle.core_lock.specs.Seats.{LockedCore};

    ghost Value = { LockedCore };

    ghost view = { λ c. record {
      value = record { state = c.guarded.value.state; history = c.guarded.value.history; by = c.guarded.value.by; seats = c.stock };
      room = c.guarded.room;
    } };
}

/// There was no memory for a core: what it was to be made of.
#[derive(Drop)]
pub struct NotMade<P: PathChoice + Drop> {
    pub subsystem: Subsystem<P>,
    pub parts: Parts,
}

/// A seat at a machine, with the log of what was entered from it, and what it saw of the serials of each subchannel.
#[derive(Drop)]
pub struct Seat<J: MachineBrand> {
    pub(crate) number: u16,
    pub(crate) log: Log,
    pub(crate) directory: Arc<Directory>,
    pub(crate) seen_serials: Vec<Serials>,
    pub(crate) readers: Vec<Reader>,
    pub(crate) share: Share<Entries<J>>,
    pub(crate) turns: Share<Turns<J>>,
    pub(crate) calls: u64,
    /// How often an event was refused it for want of memory.
    pub(crate) starved: u64,
    pub(crate) owed: Option<OwedCall>,
    pub(crate) waiting: Option<WaitingReport>,
    pub(crate) left: Option<TakenCommand>,
}

impl<J: MachineBrand> Model for Seat<J> {
    ghost use Rattle.std.specs.Arc.{arc_value};
    ghost use Rattle.core_lock.specs.Seats.{HeldSeat};
    ghost use Rattle.core_lock.specs.Keeping.{IsSeat};

    ghost Value = { HeldSeat };

    ghost view = { λ s. record {
      value = record {
        number = s.number;
        log = s.log.entries;
        setup = J.setup;
        directory = arc_value s.directory;
        seen_serials = s.seen_serials.items;
        loaded = s.readers.items;
        turns = s.turns.amount;
        calls = s.calls;
        owed = s.owed;
        waiting = s.waiting;
        left = s.left;
      };
      room = s.log.room;
      starved = s.starved;
    } };

    ghost invariant = { λ s. IsSeat (record { parts = s.share.parts; amount = s.share.amount }) s.turns.parts s.log s.seen_serials.items s.readers.items (arc_value s.directory) J.name };
}

impl<J: MachineBrand, P: PathChoice + Drop> Core<J, P> {
    /// A subsystem to which nothing happened yet, with the parts of its configuration. Where no memory is left, both are
    /// handed back.
    pub fn new(alloc: Global, subsystem: Subsystem<P>, parts: Parts) -> Result<Self, NotMade<P>>
        requires fresh { subsystem.history ≡ [] }
        requires named { parts.name ≡ J.name }
        requires set_up { IsSetUp J.setup subsystem.state }
        requires directory { parts.name.directory ≡ directory_of subsystem.state }
        requires serials { parts.serials ≡ all_serials subsystem.state }
        ensures made { IfOk result (λ core. core.value ≡ record { state = subsystem.state; history = []; by = []; seats = 0 }) }
        ensures subsystem { IfErr result (λ given. given.subsystem ≡ subsystem) }
        ensures parts { IfErr result (λ given. given.parts ≡ parts) }
    {
        Core::new_with(alloc, &mut Allocator { refused: false }, subsystem, parts)
    }

    /// A subsystem to which nothing happened yet, with the parts of its configuration, in what room a supply has.
    /// Where the supply refuses it, and only there, both are handed back.
    pub fn new_with<S: CoreSupply>(
        alloc: Global,
        supply: &mut S,
        subsystem: Subsystem<P>,
        parts: Parts,
    ) -> Result<Self, NotMade<P>>
        requires fresh { subsystem.history ≡ [] }
        requires named { parts.name ≡ J.name }
        requires set_up { IsSetUp J.setup subsystem.state }
        requires directory { parts.name.directory ≡ directory_of subsystem.state }
        requires serials { parts.serials ≡ all_serials subsystem.state }
        ensures made { IfOk result (λ core. core.value ≡ record { state = subsystem.state; history = []; by = []; seats = 0 }) }
        ensures subsystem { IfErr result (λ given. given.subsystem ≡ subsystem) }
        ensures parts { IfErr result (λ given. given.parts ≡ parts) }
        ensures unrefused { OnOk result (S.refused supply.new ≡ S.refused supply.old) }
        ensures memory { OnErr result (S.refused supply.new ≡ true) }
    {
        let mut by = Vec::new(alloc);
        if supply.reserve(&mut by, 1).is_err() {
            return Err(NotMade { subsystem, parts });
        }
        let (guarded, stock) = open(alloc, subsystem, by, parts);
        Ok(Core { guarded, stock })
    }

    /// The subsystem, to look at. Whoever holds the core, under its lock or not, has what every run of a subsystem keeps.
    pub fn subsystem(&self) -> &Subsystem<P>
        ensures state { result.now.state ≡ self.now.value.state }
        ensures history { result.now.history ≡ self.now.value.history }
        ensures replays { HasRun self.now.value.history self.now.value.state }
        ensures set_up { IsSetUp J.setup self.now.value.state }
        ensures cleared_once { IsClearedOnce self.now.value.state.sets self.now.value.history }
        ensures begun_once { IsBegunOnce self.now.value.state.sets self.now.value.history }
        ensures agree { AllAgree self.now.value.state }
        ensures headline { HasHeld self.now.value.history self.now.value.state }
        ensures beside { length self.now.value.by ≡ length self.now.value.history }
    {
        self.guarded.subsystem()
    }

    /// One more seat. It is refused NotNow where 1,024 were made, and otherwise only where no memory is left.
    pub fn seat(&mut self) -> Result<Seat<J>, Fault>
        ensures seat { IfOk result (λ s. s ≡ record {
          value = record {
            number = self.old.value.seats;
            log = [];
            setup = J.setup;
            directory = directory_of self.old.value.state;
            seen_serials = all_serials self.old.value.state;
            loaded = s.value.loaded;
            turns = 0;
            calls = 0;
            owed = None;
            waiting = None;
            left = None;
          };
          room = 0;
          starved = 0;
        }) }
        ensures loaded { IfOk result (λ s. shown s.value.loaded ≡ all_serials self.old.value.state) }
        // A seat finds a subchannel where the subsystem has it.
        ensures indices { IfOk result (λ s. (word : ℕ) → index_named s.value.directory word ≡ index_of self.old.value.state word) }
        ensures core { IfOk result (λ _. self.new ≡ record self.old { value = record self.old.value { seats = self.old.value.seats + 1 } }) }
        ensures refused { IfErr result (λ f. (f ≡ fault_spec.NoMemory) ⊎ ((f ≡ fault_spec.NotNow) × (self.old.value.seats ≡ 1024))) }
        ensures err { OnErr result (self.new ≡ self.old) }
    {
        self.seat_with(&mut Allocator { refused: false })
    }

    /// One more seat, in what memory a supply has. It is refused NotNow where 1,024 were made, and otherwise only where the
    /// supply refuses some.
    pub fn seat_with<S: CoreSupply>(&mut self, supply: &mut S) -> Result<Seat<J>, Fault>
        ensures seat { IfOk result (λ s. s ≡ record {
          value = record {
            number = self.old.value.seats;
            log = [];
            setup = J.setup;
            directory = directory_of self.old.value.state;
            seen_serials = all_serials self.old.value.state;
            loaded = s.value.loaded;
            turns = 0;
            calls = 0;
            owed = None;
            waiting = None;
            left = None;
          };
          room = 0;
          starved = 0;
        }) }
        ensures loaded { IfOk result (λ s. shown s.value.loaded ≡ all_serials self.old.value.state) }
        // A seat finds a subchannel where the subsystem has it.
        ensures indices { IfOk result (λ s. (word : ℕ) → index_named s.value.directory word ≡ index_of self.old.value.state word) }
        ensures core { IfOk result (λ _. self.new ≡ record self.old { value = record self.old.value { seats = self.old.value.seats + 1 } }) }
        ensures refused { IfErr result (λ f. (f ≡ fault_spec.NoMemory) ⊎ ((f ≡ fault_spec.NotNow) × (self.old.value.seats ≡ 1024))) }
        ensures err { OnErr result (self.new ≡ self.old) }
        ensures unrefused { OnOk result (S.refused supply.new ≡ S.refused supply.old) }
        ensures memory { result ≡ Err fault_spec.NoMemory → S.refused supply.new ≡ true }
    {
        let number = self.stock.made();
        if number >= MOST_SEATS {
            return Err(Fault::NotNow);
        }
        let alloc = self.stock.alloc();
        let Ok(look) = self.guarded.first_look(alloc, supply) else {
            return Err(Fault::NoMemory);
        };
        let FirstLook {
            directory,
            readers,
            seen_serials,
        } = look;
        let (share, turns) = self.stock.take();
        Ok(Seat {
            number,
            log: Log::new(alloc),
            directory,
            seen_serials,
            readers,
            share,
            turns,
            calls: 0,
            starved: 0,
            owed: None,
            waiting: None,
            left: None,
        })
    }

    /// How many entries the history has, where all seats that were made are given. Core and seats are given up either way.
    pub fn close(self, seats: Vec<Seat<J>>) -> Option<u64>
        ensures all { IfSome result (λ _. vec_len seats ≡ self.value.seats) }
        ensures entries { IfSome result (λ count. count ≡ length self.value.history) }
        ensures logs { IfSome result (λ count. count ≡ sum_by (λ s. length s.value.log) seats.items) }
        ensures none { IfNone result (vec_len seats ≢ self.value.seats) }
    {
        let Core { guarded, stock } = self;
        if seats.len() != usize::from(stock.made()) {
            return None;
        }
        let (count, mut entries) = guarded.into_ledger();
        settle(&mut entries, stock.into_rest(), seats);
        Some(count)
    }

    /// What its lock is to guard, and the seats that can still be made.
    pub fn split(self) -> (Guarded<J, P>, SeatStock<J>)
        ensures guarded { result.0 ≡ guarded_in self }
        ensures stock { result.1 ≡ self.value.seats }
    {
        let Core { guarded, stock } = self;
        (guarded, stock)
    }

    /// The core of what a lock guarded, and of the seats that can still be made.
    pub fn join(guarded: Guarded<J, P>, stock: SeatStock<J>) -> Core<J, P>
        ensures guarded { guarded_in result ≡ guarded }
        ensures seats { result.value.seats ≡ stock }
        ensures replays { HasRun result.value.history result.value.state }
        ensures set_up { IsSetUp J.setup result.value.state }
    {
        let _ = guarded.subsystem();
        Core { guarded, stock }
    }
}

impl<J: MachineBrand> Seat<J> {
    /// What the ledger has of it.
    fn into_share(self) -> Share<Entries<J>>
        ensures { (result.parts ≡ 1) × (result.amount ≡ length self.value.log) }
    {
        let Seat {
            number: _,
            log: _,
            directory: _,
            seen_serials: _,
            readers: _,
            share,
            turns: _,
            calls: _,
            starved: _,
            owed: _,
            waiting: _,
            left: _,
        } = self;
        share
    }
}

/// The shares of these seats are put together with the rest: with all parts they have what the ledger counts.
fn settle<J: MachineBrand>(
    entries: &mut Book<Entries<J>>,
    mut rest: Share<Entries<J>>,
    mut seats: Vec<Seat<J>>,
)
    requires { rest.parts + vec_len seats ≡ 1025 }
    ensures { entries.old.total ≡ rest.amount + sum_by (λ s. length s.value.log) seats.items }
{
    while let Some(seat) = seats.pop() {
        rest.merge(seat.into_share());
    }
    entries.audit(&mut rest);
}

/// Whether the log of each seat is what the history has of it, in order.
pub fn audit<J: MachineBrand, P: PathChoice + Drop>(core: &Core<J, P>, seats: &[Seat<J>]) -> bool
    ensures { IsTrue result ↔ All (λ s. entries_by s.value.number core.now.value.by core.now.value.history ≡ s.value.log) seats.now }
{
    for seat in seats {
        if !core.guarded.has_log(seat) {
            return false;
        }
    }
    true
}
