//! A host: a channel subsystem with one subchannel, and the clock that is its device. Storage is lent for each call.

ghost use Rattle.std.specs.Prelude.{◌≡◌, [], None, IfSome};
ghost use Rattle.std.specs.Bool.{OnTrue, OnFalse};
ghost use Rattle.channel_subsystem.specs.Hosting as hosting;
ghost use Rattle.embedding.specs.Hosts as spec;
ghost use Rattle.embedding.specs.Hosts.{Enters, GoesOn, IsAsBefore, Turned, moment};
ghost use Rattle.storage_keys.specs.Storage.{cleared_storage};
ghost use Rattle.subsystem.specs.Keeping.{answer_of};

use crate::clock::Clock;
use chan_events::event::Event;
use chan_events::reply::Reply;
use chan_model::fault::Fault;
use chan_model::report::Report;
use channel_config::config::{Config, ConfigFault};
use channel_config::parts::UnitKind;
use channel_subsystem::host_fault::HostFault;
use channel_subsystem::hosted::ChannelSubsystem;
use channel_subsystem::keeping::Keeping;
use machine_model::state::UnitTurn;
use path_select::Rotating;
use std::alloc::Global;
use std::marker::Model;
use storage_keys::{MainStorage, StorageFault};
use unit_driver::reporting::reported;
use unit_driver::waiting::{WaitingReport, forget, keep_refused};

/// The subsystem-identification word of the one subchannel.
pub const SUBCHANNEL: u32 = 0x0001_0000;

/// The one unit.
const UNIT: u32 = 0;

/// What a turn came to.
#[derive(Clone, Copy)]
pub enum Turn {
    /// Something was done; more may be due.
    Moved,
    /// Nothing was due.
    Quiet,
    /// An event was refused, which a later turn may try again.
    Refused(HostFault),
}

/// A channel subsystem, the clock, and the report of the clock that is still to be handed in.
#[derive(Drop)]
pub struct Host {
    subsystem: ChannelSubsystem<Rotating>,
    clock: Clock,
    waiting: Option<WaitingReport>,
}

impl Model for Host {
    ghost use Rattle.embedding.specs.Hosts.{Hosts};

    ghost Value = { Hosts };

    ghost view = { λ h. record { subsystem = h.subsystem; clock = h.clock; waiting = h.waiting } };
}

/// Two channel paths, and the subchannel of device 0190, which reaches the unit by both. Of what kind the unit is means nothing
/// to the subsystem: it never calls a device.
pub fn configured(alloc: Global) -> Result<Config, ConfigFault> {
    let mut config = Config::new(alloc);
    config.path(0x10)?;
    config.path(0x11)?;
    config.unit(UNIT, UnitKind::Console)?;
    config.subchannel(SUBCHANNEL, 0x0190, UNIT, &[0x10, 0x11])?;
    Ok(config)
}

impl Host {
    /// The host at its opening, for storage of so many blocks of 4,096 bytes; None where there is no memory, or the blocks are
    /// not 16 to 524,288. No call takes memory after that.
    pub fn new(alloc: Global, blocks: u32, clock: Clock) -> Option<Host>
        ensures opened { IfSome result (λ h. hosting.Leads [] h.subsystem (cleared_storage blocks)) }
        ensures clock { IfSome result (λ h. h.clock ≡ clock) }
        ensures waiting { IfSome result (λ h. h.waiting ≡ None) }
    {
        let config = configured(alloc).ok()?;
        let subsystem = ChannelSubsystem::new(
            alloc,
            config,
            blocks,
            Keeping::LastEntry,
            Rotating,
        ).ok()?;
        Some(Host {
            subsystem,
            clock,
            waiting: None,
        })
    }

    /// The clock goes on.
    pub fn time_goes_on(&mut self, by: u32)
        ensures subsystem { self.new.subsystem ≡ self.old.subsystem }
    {
        self.clock.goes_on(by);
    }

    /// Performs an event on what storage holds: a step, or a refusal that changes nothing. The reply is a value of its own.
    pub fn perform<M: MainStorage>(
        &mut self,
        storage: &mut M,
        event: &Event,
    ) -> Result<Reply, HostFault>
        ensures enters { Enters (moment self.old.subsystem (M.contents storage.old)) event.now result (moment self.new.subsystem (M.contents storage.new)) }
        ensures lender { M.lender storage.new ≡ M.lender storage.old }
    {
        self.subsystem.step(storage, event)
    }

    /// The same for one who does not keep the reply: the subsystem lends it, and nothing is copied.
    fn enter<M: MainStorage>(&mut self, storage: &mut M, event: &Event) -> Result<(), HostFault>
        ensures enters { Enters (moment self.old.subsystem (M.contents storage.old)) event.now (answer_of result self.new.subsystem.kept) (moment self.new.subsystem (M.contents storage.new)) }
        ensures lender { M.lender storage.new ≡ M.lender storage.old }
    {
        self.subsystem.perform(storage, event)
    }

    /// Turns the subchannel and its unit until nothing is due, an event is refused, or so many events were accepted. `Quiet`
    /// is answered only where the subsystem has just said that there is nothing to choose.
    #[tactic(auto, using(crate::proofs::Going::goes_start, crate::proofs::Going::goes_then))]
    pub fn turn_until_quiet<M: MainStorage>(&mut self, storage: &mut M, most: u32) -> Turn
        ensures turned { Turned 0x10000 most result (moment self.old.subsystem (M.contents storage.old)) (moment self.new.subsystem (M.contents storage.new)) }
        ensures lender { M.lender storage.new ≡ M.lender storage.old }
    {
        for _ in 0..most {
            match self.turn(storage) {
                Turn::Moved => {}
                Turn::Quiet => return Turn::Quiet,
                Turn::Refused(fault) => return Turn::Refused(fault),
            }
        }
        Turn::Moved
    }

    /// The next event that is due: the unit's, else that of a signal for the subchannel, else what is chosen for it.
    #[tactic(auto, using(crate::proofs::Going::turned_later))]
    fn turn<M: MainStorage>(&mut self, storage: &mut M) -> Turn
        ensures turned { Turned 0x10000 1 result (moment self.old.subsystem (M.contents storage.old)) (moment self.new.subsystem (M.contents storage.new)) }
        ensures lender { M.lender storage.new ≡ M.lender storage.old }
    {
        if let Some(report) = self.next_report() {
            return self.enter_report(storage, report);
        }
        if self.take_down(storage)
            || self.is_done(storage, &up(0))
            || self.is_done(storage, &up(1))
        {
            return Turn::Moved;
        }
        self.choose(storage)
    }

    /// The report that waits, else that of the unit's next work, for which the clock may be called.
    fn next_report(&mut self) -> Option<Report>
        ensures subsystem { self.new.subsystem ≡ self.old.subsystem }
    {
        let Some(turn) = self.subsystem.lent_turn(UNIT) else {
            return None;
        };
        reported(&mut self.clock, &self.waiting, &turn)
    }

    /// Hands in a report. The clock was called for it, so it waits where it can't be entered yet.
    fn enter_report<M: MainStorage>(&mut self, storage: &mut M, report: Report) -> Turn
        ensures turned { Turned 0x10000 1 result (moment self.old.subsystem (M.contents storage.old)) (moment self.new.subsystem (M.contents storage.new)) }
        ensures lender { M.lender storage.new ≡ M.lender storage.old }
    {
        let event = Event::Report { unit: UNIT, report };
        match self.enter(storage, &event) {
            Ok(()) => {
                forget(&mut self.waiting);
                Turn::Moved
            }
            Err(fault) => {
                self.keep_report(&event, fault);
                Turn::Refused(fault)
            }
        }
    }

    /// After the event of a report was refused so: it is dropped where it came too late, and waits where there was no room for it,
    /// or the machine was not asked.
    fn keep_report(&mut self, event: &Event, fault: HostFault)
        ensures subsystem { self.new.subsystem ≡ self.old.subsystem }
    {
        match fault {
            HostFault::Refused(fault) => keep_refused(&mut self.waiting, event, fault),
            _ => self.waiting = WaitingReport::of_event(event),
        }
    }

    /// The unit takes the signal that waits for it, if one does.
    fn take_down<M: MainStorage>(&mut self, storage: &mut M) -> bool
        ensures done { OnTrue result (GoesOn 1 (moment self.old.subsystem (M.contents storage.old)) (moment self.new.subsystem (M.contents storage.new))) }
        ensures none { OnFalse result (IsAsBefore (moment self.old.subsystem (M.contents storage.old)) (moment self.new.subsystem (M.contents storage.new))) }
        ensures lender { M.lender storage.new ≡ M.lender storage.old }
    {
        match self.subsystem.unit_turn(UNIT) {
            Some(UnitTurn::Takes { path, .. }) => self.is_done(
                storage,
                &Event::Down {
                    subchannel: SUBCHANNEL,
                    path,
                },
            ),
            _ => false,
        }
    }

    /// Performs an event, and says whether it was accepted.
    #[tactic(auto, using(crate::proofs::Going::goes_once, crate::proofs::Going::as_before))]
    fn is_done<M: MainStorage>(&mut self, storage: &mut M, event: &Event) -> bool
        ensures done { OnTrue result (GoesOn 1 (moment self.old.subsystem (M.contents storage.old)) (moment self.new.subsystem (M.contents storage.new))) }
        ensures refused { OnFalse result (IsAsBefore (moment self.old.subsystem (M.contents storage.old)) (moment self.new.subsystem (M.contents storage.new))) }
        ensures lender { M.lender storage.new ≡ M.lender storage.old }
    {
        self.enter(storage, event).is_ok()
    }

    /// The subsystem does what is due for the subchannel.
    fn choose<M: MainStorage>(&mut self, storage: &mut M) -> Turn
        ensures turned { Turned 0x10000 1 result (moment self.old.subsystem (M.contents storage.old)) (moment self.new.subsystem (M.contents storage.new)) }
        ensures lender { M.lender storage.new ≡ M.lender storage.old }
    {
        let event = Event::Choose {
            subchannel: SUBCHANNEL,
        };
        match self.perform(storage, &event) {
            Ok(Reply::Idle) => Turn::Quiet,
            Ok(_) => Turn::Moved,
            Err(fault) => Turn::Refused(fault),
        }
    }
}

/// The subchannel takes the signal that waits for it on a path.
fn up(path: u32) -> Event {
    Event::Up {
        subchannel: SUBCHANNEL,
        path,
    }
}

/// The code of the program interruption that the guest's instruction ends with where it is refused so; None where the
/// refusal is no fault of the guest's.
pub fn program_interruption(fault: HostFault) -> Option<u16>
    ensures { result ≡ spec.program_interruption fault }
{
    match fault {
        HostFault::Refused(Fault::Storage(StorageFault::Protection)) => Some(0x0004),
        HostFault::Refused(Fault::Storage(StorageFault::Addressing)) => Some(0x0005),
        HostFault::Refused(Fault::Storage(StorageFault::Specification)) => Some(0x0006),
        HostFault::Refused(Fault::Operand) => Some(0x0015),
        _ => None,
    }
}
