//! The subsystem's side of one subchannel (own): what it takes the device to be held by.
#![tactic(auto)]

mod rows;

ghost use Rattle.std.specs.Prelude.{◌≡◌, Some};
ghost use Rattle.chan_model.specs.HoldTable as table;
ghost use Rattle.chan_model.specs.Lent.{lent_up, plain_down};
ghost use Rattle.chan_model.specs.Signals.{map_sent, map_taken};
ghost use Rattle.chan_model.specs.ResetCauses as causes;
ghost use Rattle.chan_model.specs.declared.hold_state.HoldPhase.TheVariants as phase;

use chan_model::hold_state::{HoldPhase, HoldState};
use chan_model::lent::{LentUp, PlainDown};
use chan_model::names::Path;
use chan_model::signal::{Down, OnPath, Taken};
use std::marker::Model;

/// What the subsystem takes the device of one subchannel to be held by.
#[derive(Clone, Copy, Debug)]
pub struct Hold {
    state: HoldState,
}

impl Model for Hold {
    ghost use Rattle.chan_model.specs.declared.hold_state.HoldState.{HoldState};

    ghost Value = { HoldState };

    ghost view = { λ h. h.state };

    ghost inverse = { λ s. record { state = s } };
}

impl Hold {
    /// Nothing holds the device.
    pub fn new() -> Self
        ensures { result ≡ table.free_hold }
    {
        Hold {
            state: HoldState {
                phase: HoldPhase::Free,
                seen: 0,
                known_restarts: 0,
                reset_path: None,
                first_path: None,
                single_path: false,
            },
        }
    }

    /// The side that is in this state.
    pub fn of(state: HoldState) -> Self
        ensures { result ≡ state }
    {
        Hold { state }
    }

    /// All that there is of it.
    pub fn state(&self) -> HoldState
        ensures { result ≡ self.now }
    {
        self.state
    }

    /// Offers the program under this number on a path.
    pub fn offer(&mut self, number: u64, path: Path, single_path: bool) -> OnPath<PlainDown>
        requires { self.old.phase ≡ phase.Free }
        ensures state { self.new ≡ (table.offering self.old number path single_path).state }
        ensures sent { map_sent plain_down (Some result) ≡ (table.offering self.old number path single_path).sent }
    {
        self.state.phase = HoldPhase::Offer { number, path };
        self.state.single_path = single_path;
        OnPath {
            path,
            signal: PlainDown::of(Down::Select { number }),
        }
    }

    /// Takes a signal that came by a path.
    ///
    /// What `may` says depends on the signal: at Accept, that the program goes on; at Back, that it may be connected on
    /// this path; at Attn, that the subchannel can show it.
    pub fn take(&mut self, path: Path, signal: &LentUp<'_>, may: bool) -> Taken<PlainDown>
        ensures state { self.new ≡ table.hold_after self.old (table.hold_takes self.old path (lent_up signal.now) may) }
        ensures outcome { map_taken plain_down result ≡ table.outcome_of (table.hold_takes self.old path (lent_up signal.now) may) }
    {
        rows::takes(&mut self.state, path, signal, may)
    }

    /// Whether the program of this number is connected on this path, by this connection.
    pub fn is_connected(&self, path: Path, number: u64, connection: u64) -> bool
        ensures { result ≡ table.is_connected self.now.phase path number connection }
    {
        match self.state.phase {
            HoldPhase::On {
                number: held,
                path: at,
                connection: last,
            } => number == held && path.same(at) && connection == last,
            _ => false,
        }
    }

    /// Whether the program of this number is connected.
    pub fn is_on(&self, number: u64) -> bool
        ensures { result ≡ table.is_on self.now.phase number }
    {
        match self.state.phase {
            HoldPhase::On { number: held, .. } => number == held,
            _ => false,
        }
    }

    /// Lets the device go. None where no program is connected, and then nothing changes.
    pub fn let_go(&mut self) -> Option<OnPath<PlainDown>>
        ensures state { self.new ≡ table.hold_after self.old (table.letting_go self.old self.old.phase) }
        ensures sent { map_sent plain_down result ≡ (table.outcome_of (table.letting_go self.old self.old.phase)).sent }
    {
        let phase = self.state.phase;
        let HoldPhase::On { number, path, .. } = phase else {
            return None;
        };
        self.state.phase = HoldPhase::Letting { number, path };
        Some(OnPath {
            path,
            signal: PlainDown::of(Down::Release { number }),
        })
    }

    /// The device is to be reset under this number; the Reset is not sent yet.
    pub fn reset(&mut self, number: u64)
        ensures { self.new ≡ table.resetting self.old number }
    {
        self.state.phase = HoldPhase::Reset { number };
        self.state.reset_path = None;
    }

    /// Sends the Reset on a path. None where there is none to send, and then nothing changes.
    pub fn send_reset(&mut self, path: Path) -> Option<OnPath<PlainDown>>
        ensures state { self.new ≡ table.hold_after self.old (table.sending_reset self.old self.old.phase path) }
        ensures sent { map_sent plain_down result ≡ (table.outcome_of (table.sending_reset self.old self.old.phase path)).sent }
    {
        let HoldPhase::Reset { number } = self.state.phase else {
            return None;
        };
        self.state.reset_path = Some(path);
        Some(OnPath {
            path,
            signal: PlainDown::of(Down::Reset {
                number,
                restarts: self.state.known_restarts,
            }),
        })
    }

    /// A path went down or was reset: whether the device is to be reset for it, under this number.
    pub fn path_down(&mut self, path: Path, number: u64) -> bool
        ensures state { self.new ≡ causes.hold_path_lost self.old path number }
        ensures reset { result ≡ causes.rests_on self.old path }
    {
        let rests = rows::rests_on(&self.state, path);
        if rests {
            self.reset(number);
        }
        rests
    }

    /// The path whose engine it engages: its active allegiance (SA22-7832, chapter 15).
    pub fn engaged_path(&self) -> Option<Path>
        ensures { result ≡ causes.engaged_path self.now.phase }
    {
        rows::engaged_path(&self.state)
    }
}
