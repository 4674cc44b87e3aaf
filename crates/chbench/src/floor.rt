//! What events are performed at: a channel subsystem by itself, one that is lent its storage, or one in a core, by a seat of it.

use crate::driver::Driver;
use crate::taking::{Taking, is_answered};
use chan_events::event::Event;
use channel_subsystem::hosted::ChannelSubsystem;
use core_lock::guarded::Guarded;
use core_lock::locked::Seat;
use core_lock::naming::MachineBrand;
use path_select::Rotating;
use scsw_irb::serials::Serials;
use storage_keys::LentStorage;
use subsystem::subsystem::Subsystem;

/// What events are performed at.
pub trait Floor {
    /// Whether an event is accepted.
    fn accepts(&mut self, event: &Event) -> bool;

    /// Whether the report of the next work of a driver's unit is written; it is not where the unit has no work.
    fn has_report(&self, driver: &mut Driver) -> bool;

    /// How many events were accepted.
    fn accepted(&self) -> u64;

    /// How many statuses of a subchannel were cleared; 0 where it is not configured.
    fn cleared(&self, subchannel: u32) -> u64;
}

/// How many events a subsystem accepted.
fn kept_by(subsystem: &Subsystem<Rotating>) -> u64 {
    subsystem.history().len() as u64
}

/// How many statuses were cleared, by a subchannel's serials.
fn cleared_of(serials: Option<Serials>) -> u64 {
    match serials {
        Some(serials) => serials.cleared,
        None => 0,
    }
}

/// A channel subsystem that keeps a history, and how its answers are taken.
#[derive(Drop)]
pub struct Own<T: Taking> {
    pub subsystem: Subsystem<Rotating>,
    pub taking: T,
}

impl<T: Taking> Floor for Own<T> {
    fn accepts(&mut self, event: &Event) -> bool {
        self.taking.at_own(&mut self.subsystem, event)
    }

    fn has_report(&self, driver: &mut Driver) -> bool {
        match self.subsystem.lent_turn(driver.unit()) {
            Some(turn) => driver.reports(&turn),
            None => false,
        }
    }

    fn accepted(&self) -> u64 {
        kept_by(&self.subsystem)
    }

    fn cleared(&self, subchannel: u32) -> u64 {
        cleared_of(self.subsystem.serials(subchannel))
    }
}

/// One that keeps none, on storage that is lent to it for all of its calls, and how its answers are taken.
#[derive(Drop)]
pub struct Lent<'a, T: Taking> {
    subsystem: ChannelSubsystem<Rotating>,
    storage: LentStorage<'a, 'a, 'a>,
    accepted: u64,
    taking: T,
}

impl<'a, T: Taking> Lent<'a, T> {
    /// This subsystem on this storage.
    pub fn of(
        subsystem: ChannelSubsystem<Rotating>,
        storage: LentStorage<'a, 'a, 'a>,
        taking: T,
    ) -> Lent<'a, T> {
        Lent {
            subsystem,
            storage,
            accepted: 0,
            taking,
        }
    }
}

impl<T: Taking> Floor for Lent<'_, T> {
    fn accepts(&mut self, event: &Event) -> bool {
        let accepted = self
            .taking
            .at_lent(&mut self.subsystem, &mut self.storage, event);
        if accepted {
            self.accepted = self.accepted.saturating_add(1);
        }
        accepted
    }

    fn has_report(&self, driver: &mut Driver) -> bool {
        match self.subsystem.lent_turn(driver.unit()) {
            Some(turn) => driver.reports(&turn),
            None => false,
        }
    }

    fn accepted(&self) -> u64 {
        self.accepted
    }

    fn cleared(&self, subchannel: u32) -> u64 {
        cleared_of(self.subsystem.serials(subchannel))
    }
}

/// What a lock would guard, and a seat of it, from which events are entered.
#[derive(Drop)]
pub struct Seated<J: MachineBrand> {
    pub guarded: Guarded<J, Rotating>,
    pub seat: Seat<J>,
}

impl<J: MachineBrand> Floor for Seated<J> {
    fn accepts(&mut self, event: &Event) -> bool {
        is_answered(&self.guarded.enter(&mut self.seat, event))
    }

    fn has_report(&self, driver: &mut Driver) -> bool {
        match self.guarded.subsystem().lent_turn(driver.unit()) {
            Some(turn) => driver.reports(&turn),
            None => false,
        }
    }

    fn accepted(&self) -> u64 {
        kept_by(self.guarded.subsystem())
    }

    fn cleared(&self, subchannel: u32) -> u64 {
        cleared_of(self.guarded.subsystem().serials(subchannel))
    }
}
