//! One side of a unit: its hold, the signals between both, and its paths.

mod acting;
mod program;
mod signals;

ghost use Rattle.std.specs.Prelude.{◌≡◌, ◌≤◌, ◌^◌, IfOk, OnOk, OnErr, Ok, length, slice_get, true};
ghost use Rattle.agree.specs.Lines as spec;
ghost use Rattle.agree.specs.Replies as reply_spec;
ghost use Rattle.agree.specs.Rooms as room_spec;
ghost use Rattle.agree.specs.State as state_spec;
ghost use Rattle.agree.specs.declared.reply.WorldReply.TheVariants as reply;
ghost use Rattle.agreement_laws.specs.Moving as moving;
ghost use Rattle.chan_model.specs.Lent.{lent_down, plain_down};
ghost use Rattle.chan_model.specs.Signals.{map_sent};

use crate::reply::{WorldReply, own_down};
use chan_model::fault::Fault;
use chan_model::hold_state::{HoldPhase, HoldState};
use chan_model::lent::{LentDown, PlainDown};
use chan_model::lent_forms::lend_down;
use chan_model::names::{Path, Side};
use chan_model::signal::{Down, OnPath, Up};
use hold::Hold;
use memory::{Supply, ensure_room};
use program::{is_taken, may_send, met_by};
use signals::{cut_downs, cut_ups, is_up, post, with_path};
use std::alloc::{AllocError, Global};
use std::marker::Model;

/// One side: how many numbers were drawn, the hold, the signals that may still arrive, the numbers that the unit accepted,
/// and which paths are up.
#[derive(Drop)]
pub struct SideLine {
    drawn: u64,
    hold: Hold,
    downs: Vec<OnPath<Down>>,
    ups: Vec<OnPath<Up>>,
    accepted: Vec<u64>,
    up: [bool; 8],
}

impl Model for SideLine {
    ghost use Rattle.std.specs.Prelude.{◌-◌, vec_len, vec_capacity};
    ghost use Rattle.agree.specs.Rooms.{LineAndRoom};

    ghost Value = { LineAndRoom };

    ghost view = { λ l. record { line = record { link = record { drawn = l.drawn; hold = l.hold; downs = l.downs.items; ups = l.ups.items; accepted = l.accepted.items }; up = l.up }; room = record { downs = vec_capacity l.downs - vec_len l.downs; ups = vec_capacity l.ups - vec_len l.ups; accepted = vec_capacity l.accepted - vec_len l.accepted } } };
}

impl SideLine {
    /// Nothing has happened, and every path is up.
    pub fn new(alloc: Global) -> Self
        ensures { result ≡ record { line = state_spec.opening_line; room = room_spec.no_line_room } }
    {
        SideLine {
            drawn: 0,
            hold: Hold::new(),
            downs: Vec::new(alloc),
            ups: Vec::new(alloc),
            accepted: Vec::new(alloc),
            up: [true; 8],
        }
    }

    /// The state of the hold.
    pub fn hold(&self) -> HoldState
        ensures { result ≡ self.now.line.link.hold }
    {
        self.hold.state()
    }

    /// How many signals may still arrive at the unit.
    pub fn downs_len(&self) -> usize
        ensures { result ≡ length self.now.line.link.downs }
    {
        self.downs.len()
    }

    /// How many signals may still arrive at the hold.
    pub fn ups_len(&self) -> usize
        ensures { result ≡ length self.now.line.link.ups }
    {
        self.ups.len()
    }

    /// The numbers that the unit accepted, in their order.
    pub fn accepted(&self) -> &[u64]
        ensures { result.now ≡ self.now.line.link.accepted }
    {
        self.accepted.as_slice()
    }

    /// Room for a signal to the unit, where there is none: in what memory a supply has.
    pub fn room_down<S: Supply>(&mut self, supply: &mut S) -> Result<(), AllocError>
        ensures line { self.new.line ≡ self.old.line }
        ensures room { room_spec.LineLoses 0 self.old.room self.new.room }
        ensures made { OnOk result (1 ≤ self.new.room.downs) }
        ensures full { OnErr result (room_spec.IsFullDown self.new.room) }
        ensures unrefused { OnOk result (S.refused supply.new ≡ S.refused supply.old) }
        ensures memory { OnErr result (S.refused supply.new ≡ true) }
    {
        ensure_room(supply, &mut self.downs, 1)
    }

    /// Room for a signal from the unit and for the number that it may accept, where there is none: in what memory a supply has.
    pub fn room_up<S: Supply>(&mut self, supply: &mut S) -> Result<(), AllocError>
        ensures line { self.new.line ≡ self.old.line }
        ensures room { room_spec.LineLoses 0 self.old.room self.new.room }
        ensures made { OnOk result ((1 ≤ self.new.room.ups) × (1 ≤ self.new.room.accepted)) }
        ensures full { OnErr result (room_spec.IsFullUp self.new.room) }
        ensures unrefused { OnOk result (S.refused supply.new ≡ S.refused supply.old) }
        ensures memory { OnErr result (S.refused supply.new ≡ true) }
    {
        ensure_room(supply, &mut self.ups, 1)?;
        ensure_room(supply, &mut self.accepted, 1)
    }

    /// Keeps what the hold did, and sends what it sent.
    fn keep(
        &mut self,
        drawn: u64,
        hold: Hold,
        sent: &Option<OnPath<LentDown<'_>>>,
    ) -> Result<(), Fault>
        ensures gives { spec.GivesResult self.old.line (Ok (spec.acted self.old.line (record { drawn = drawn; hold = hold; sent = map_sent lent_down sent.now }))) (room_spec.IsFullDown self.new.room) result self.new.line }
        ensures room { room_spec.LineTakes result self.old.room self.new.room }
    {
        if let Some(signal) = sent {
            post(&mut self.downs, &self.up, signal.own())?;
        }
        self.drawn = drawn;
        self.hold = hold;
        Ok(())
    }

    /// Offers a program on a path, or sends the Reset on it.
    pub fn choose(&mut self, side: Side, path: Path, single_path: bool) -> Result<WorldReply, Fault>
        requires { self.old.line.link.drawn ≤ 2 ^ 62 }
        ensures reply { IfOk result (λ r. r ≡ reply_spec.hold_reply side self.old.line (reply_spec.chosen_act self.old.line.link.hold.phase path single_path)) }
        ensures gives { spec.GivesResult self.old.line (spec.line_chosen self.old.line self.old.line.link.hold.phase path single_path) (room_spec.IsFullDown self.new.room) result self.new.line }
        ensures room { room_spec.LineTakes result self.old.room self.new.room }
    {
        let mut hold = self.hold;
        match hold.state().phase {
            HoldPhase::Free => {
                let number = self.drawn + 1;
                let offered = Some(hold.offer(number, path, single_path));
                let select = lend_down(&offered);
                let reply = WorldReply::of_side(side, &select);
                self.keep(number, hold, &select)?;
                Ok(reply)
            }
            HoldPhase::Reset { .. } => {
                let due = hold.send_reset(path);
                let reset = lend_down(&due);
                let reply = WorldReply::of_side(side, &reset);
                self.keep(self.drawn, hold, &reset)?;
                Ok(reply)
            }
            _ => Err(Fault::NotNow),
        }
    }

    /// Lets the device go.
    pub fn let_go(&mut self, side: Side) -> Result<WorldReply, Fault>
        ensures reply { IfOk result (λ r. r ≡ reply_spec.hold_reply side self.old.line moving.Lets_go) }
        ensures gives { spec.GivesResult self.old.line (spec.line_let_go self.old.line self.old.line.link.hold.phase) (room_spec.IsFullDown self.new.room) result self.new.line }
        ensures room { room_spec.LineTakes result self.old.room self.new.room }
    {
        let mut hold = self.hold;
        match hold.state().phase {
            HoldPhase::On { .. } => {
                let let_go = hold.let_go();
                let release = lend_down(&let_go);
                let reply = WorldReply::of_side(side, &release);
                self.keep(self.drawn, hold, &release)?;
                Ok(reply)
            }
            _ => Err(Fault::NotNow),
        }
    }

    /// The hold sends a signal of its program on a path.
    pub fn send(&mut self, side: Side, path: Path, signal: &Down) -> Result<WorldReply, Fault>
        ensures reply { IfOk result (λ r. r ≡ reply.SentDown side (record { path = path; signal = signal.now })) }
        ensures gives { spec.GivesResult self.old.line (spec.line_sends self.old.line path signal.now) (room_spec.IsFullDown self.new.room) result self.new.line }
        ensures room { room_spec.LineTakes result self.old.room self.new.room }
    {
        if !may_send(&self.hold, path, signal) {
            return Err(Fault::NotNow);
        }
        let kept = signal.keep();
        let sent = Some(OnPath {
            path,
            signal: kept.lend(signal.bytes()),
        });
        let reply = WorldReply::of_side(side, &sent);
        self.keep(self.drawn, self.hold, &sent)?;
        Ok(reply)
    }

    /// The hold is reset.
    pub fn clear(&mut self)
        requires { self.old.line.link.drawn ≤ 2 ^ 62 }
        ensures line { self.new.line ≡ spec.acts self.old.line moving.Is_reset }
        ensures room { room_spec.LineLoses 0 self.old.room self.new.room }
    {
        self.drawn += 1;
        self.hold.reset(self.drawn);
    }

    /// The hold takes the signal at an index.
    pub fn take_up(
        &mut self,
        side: Side,
        index: usize,
        keep: bool,
        may: bool,
    ) -> Result<WorldReply, Fault>
        requires { self.old.line.link.drawn ≤ 2 ^ 62 }
        ensures reply { IfOk result (λ r. r ≡ reply_spec.line_took_up_reply side self.old.line (slice_get self.old.line.link.ups index) may) }
        ensures gives { spec.GivesResult self.old.line (spec.line_takes_up self.old.line index keep may) (room_spec.IsFullDown self.new.room) result self.new.line }
        ensures room { room_spec.LineTakes result self.old.room self.new.room }
    {
        if index >= self.ups.len() {
            return Err(Fault::NotSent);
        }
        let mut hold = self.hold;
        let signal = self.ups[index].copy();
        let taken = is_taken(&hold, &signal, may);
        let (drawn, outcome) = takes(self.drawn, &mut hold, &signal, may);
        let sent = lend_down(&outcome);
        let answer = own_down(&sent);
        self.keep(drawn, hold, &sent)?;
        if !keep {
            self.ups.remove(index);
        }
        Ok(WorldReply::Up {
            side,
            signal,
            taken,
            sent: answer,
        })
    }

    /// The signal to the unit at an index vanishes.
    pub fn lose_down(&mut self, index: usize) -> Result<(), Fault>
        ensures gives { spec.GivesResult self.old.line (spec.loses_down self.old.line index) ⊥ result self.new.line }
        ensures room { room_spec.LineTakes result self.old.room self.new.room }
    {
        if index >= self.downs.len() {
            return Err(Fault::NotSent);
        }
        self.downs.remove(index);
        Ok(())
    }

    /// The signal from the unit at an index vanishes.
    pub fn lose_up(&mut self, index: usize) -> Result<(), Fault>
        ensures gives { spec.GivesResult self.old.line (spec.loses_up self.old.line index) ⊥ result self.new.line }
        ensures room { room_spec.LineTakes result self.old.room self.new.room }
    {
        if index >= self.ups.len() {
            return Err(Fault::NotSent);
        }
        self.ups.remove(index);
        Ok(())
    }

    /// All signals on a path vanish, and the hold loses it.
    fn cut(&mut self, path: Path)
        requires { self.old.line.link.drawn ≤ 2 ^ 62 }
        ensures line { self.new.line ≡ spec.cut self.old.line path }
        ensures room { room_spec.LineLoses 0 self.old.room self.new.room }
    {
        cut_downs(&mut self.downs, path);
        cut_ups(&mut self.ups, path);
        let number = self.drawn + 1;
        if self.hold.path_down(path, number) {
            self.drawn = number;
        }
    }

    /// A path goes down.
    pub fn path_down(&mut self, path: Path) -> Result<(), Fault>
        requires { self.old.line.link.drawn ≤ 2 ^ 62 }
        ensures gives { spec.GivesResult self.old.line (spec.goes_down self.old.line path) ⊥ result self.new.line }
        ensures room { room_spec.LineTakes result self.old.room self.new.room }
    {
        if !is_up(&self.up, path) {
            return Err(Fault::NotNow);
        }
        self.up = with_path(&self.up, path, false);
        self.cut(path);
        Ok(())
    }

    /// A path comes up.
    pub fn path_up(&mut self, path: Path) -> Result<(), Fault>
        ensures gives { spec.GivesResult self.old.line (spec.comes_up self.old.line path) ⊥ result self.new.line }
        ensures room { room_spec.LineTakes result self.old.room self.new.room }
    {
        if is_up(&self.up, path) {
            return Err(Fault::NotNow);
        }
        self.up = with_path(&self.up, path, true);
        Ok(())
    }

    /// A path is reset.
    pub fn path_reset(&mut self, path: Path) -> Result<(), Fault>
        requires { self.old.line.link.drawn ≤ 2 ^ 62 }
        ensures gives { spec.GivesResult self.old.line (spec.is_cut self.old.line path) ⊥ result self.new.line }
        ensures room { room_spec.LineTakes result self.old.room self.new.room }
    {
        if !is_up(&self.up, path) {
            return Err(Fault::NotNow);
        }
        self.cut(path);
        Ok(())
    }
}

/// The hold takes a signal: how many numbers are drawn then, and what is sent. A Notice of more restarts than are known is a
/// cause of a reset.
fn takes(
    drawn: u64,
    hold: &mut Hold,
    signal: &OnPath<Up>,
    may: bool,
) -> (u64, Option<OnPath<PlainDown>>)
    requires { drawn ≤ 2 ^ 62 }
    ensures { record { drawn = result.0; hold = hold.new; sent = map_sent plain_down result.1 } ≡ moving.hold_taken drawn hold.old signal.now.path signal.now.signal may }
{
    let outcome = met_by(hold, signal, may);
    if outcome.taken && matches!(signal.signal, Up::Notice { .. }) {
        hold.reset(drawn + 1);
        return (drawn + 1, None);
    }
    (drawn, outcome.sent)
}
