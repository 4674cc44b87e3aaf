//! A unit and both of its sides, with nothing said of how they go together.

ghost use Rattle.std.specs.Prelude.{◌≡◌, ◌<◌, ◌^◌, IfOk, OnOk, OnErr, Ok, length, true};
ghost use Rattle.agree.specs.Bounds.{IsWorldWithin};
ghost use Rattle.agree.specs.Lines.{GivesResult};
ghost use Rattle.agree.specs.Replies as reply_spec;
ghost use Rattle.agree.specs.Rooms.{IsFullDown, IsFullFor, IsFullUp, IsOwnerFull, Loses, TakesRoom, line_room_of, no_room};
ghost use Rattle.agree.specs.State as state_spec;
ghost use Rattle.agree.specs.Results as spec;
ghost use Rattle.agree.specs.declared.event.WorldEvent.TheVariants as event_spec;

use crate::event::WorldEvent;
use crate::line::SideLine;
use crate::reply::WorldReply;
use chan_model::fault::Fault;
use chan_model::hold_state::HoldState;
use chan_model::names::{Path, Side};
use chan_model::report::Report;
use chan_model::signal::Down;
use chan_model::unit_state::Own;
use memory::Supply;
use std::alloc::{AllocError, Global};
use std::marker::Model;
use unit::Unit;

/// A unit, both of its sides, and how many steps were made.
#[derive(Drop)]
pub struct Parts {
    unit: Unit,
    first: SideLine,
    second: SideLine,
    steps: u64,
}

impl Model for Parts {
    ghost use Rattle.agree.specs.Rooms.{WorldAndRoom};

    ghost Value = { WorldAndRoom };

    ghost view = { λ p. record { world = record { «unit» = p.unit; first = p.first.line; second = p.second.line; steps = p.steps }; room = record { first = p.first.room; second = p.second.room } } };
}

impl Parts {
    /// Nothing has happened, and every path is up.
    pub fn new(alloc: Global) -> Self
        ensures { result ≡ record { world = state_spec.opening_world; room = no_room } }
    {
        Parts {
            unit: Unit::new(),
            first: SideLine::new(alloc),
            second: SideLine::new(alloc),
            steps: 0,
        }
    }

    /// How many steps were made.
    pub fn steps(&self) -> u64
        ensures { result ≡ self.now.world.steps }
    {
        self.steps
    }

    /// Sets how many steps were made.
    pub fn count(&mut self, steps: u64)
        ensures world { self.new.world ≡ record self.old.world { steps = steps } }
        ensures room { self.new.room ≡ self.old.room }
    {
        self.steps = steps;
    }

    /// Whom the device is held by.
    pub fn own(&self) -> Own
        ensures { result ≡ self.now.world.unit.own }
    {
        self.unit.own()
    }

    /// One side.
    pub fn line(&self, side: Side) -> &SideLine
        ensures line { result.now.line ≡ state_spec.line_of self.now.world side }
    {
        match side {
            Side::First => &self.first,
            Side::Second => &self.second,
        }
    }

    /// Room for a signal from the unit to the side of its program.
    fn room_of_owner<S: Supply>(&mut self, supply: &mut S) -> Result<(), AllocError>
        ensures world { self.new.world ≡ self.old.world }
        ensures room { Loses 0 self.old.room self.new.room }
        ensures made { OnOk result (IsOwnerFull self.new.room self.old.world.unit.own → ⊥) }
        ensures full { OnErr result (IsOwnerFull self.new.room self.old.world.unit.own) }
        ensures unrefused { OnOk result (S.refused supply.new ≡ S.refused supply.old) }
        ensures memory { OnErr result (S.refused supply.new ≡ true) }
    {
        match self.unit.own() {
            Own::Idle => Ok(()),
            Own::Owned {
                side: Side::First,
                ..
            } => self.first.room_up(supply),
            Own::Owned {
                side: Side::Second,
                ..
            } => self.second.room_up(supply),
        }
    }

    fn room_down<S: Supply>(&mut self, supply: &mut S, side: Side) -> Result<(), AllocError>
        ensures world { self.new.world ≡ self.old.world }
        ensures room { Loses 0 self.old.room self.new.room }
        ensures made { OnOk result (IsFullDown (line_room_of self.new.room side) → ⊥) }
        ensures full { OnErr result (IsFullDown (line_room_of self.new.room side)) }
        ensures unrefused { OnOk result (S.refused supply.new ≡ S.refused supply.old) }
        ensures memory { OnErr result (S.refused supply.new ≡ true) }
    {
        match side {
            Side::First => self.first.room_down(supply),
            Side::Second => self.second.room_down(supply),
        }
    }

    fn room_up<S: Supply>(&mut self, supply: &mut S, side: Side) -> Result<(), AllocError>
        ensures world { self.new.world ≡ self.old.world }
        ensures room { Loses 0 self.old.room self.new.room }
        ensures made { OnOk result (IsFullUp (line_room_of self.new.room side) → ⊥) }
        ensures full { OnErr result (IsFullUp (line_room_of self.new.room side)) }
        ensures unrefused { OnOk result (S.refused supply.new ≡ S.refused supply.old) }
        ensures memory { OnErr result (S.refused supply.new ≡ true) }
    {
        match side {
            Side::First => self.first.room_up(supply),
            Side::Second => self.second.room_up(supply),
        }
    }

    /// Room for what an event may send, where there is none: in what memory a supply has.
    pub fn make_room<S: Supply>(
        &mut self,
        supply: &mut S,
        event: &WorldEvent,
    ) -> Result<(), AllocError>
        ensures world { self.new.world ≡ self.old.world }
        ensures room { Loses 0 self.old.room self.new.room }
        ensures made { OnOk result (IsFullFor self.old.world self.new.room event.now → ⊥) }
        ensures full { OnErr result (IsFullFor self.old.world self.new.room event.now) }
        ensures unrefused { OnOk result (S.refused supply.new ≡ S.refused supply.old) }
        ensures memory { OnErr result (S.refused supply.new ≡ true) }
    {
        match event {
            WorldEvent::Choose { side, .. }
            | WorldEvent::Up { side, .. }
            | WorldEvent::LetGo { side }
            | WorldEvent::Send { side, .. } => self.room_down(supply, *side),
            WorldEvent::Down { side, .. }
            | WorldEvent::Attention { side, .. }
            | WorldEvent::Notice { side, .. } => self.room_up(supply, *side),
            WorldEvent::Leave | WorldEvent::Ask { .. } | WorldEvent::Report(_) => {
                self.room_of_owner(supply)
            }
            _ => Ok(()),
        }
    }

    fn choose(&mut self, side: Side, path: u8, single_path: bool) -> Result<WorldReply, Fault>
        requires { IsWorldWithin (2 ^ 62) self.old.world }
        ensures reply { IfOk result (λ r. r ≡ reply_spec.reply_of self.old.world (event_spec.Choose side path single_path)) }
        ensures gives { GivesResult self.old.world (spec.world_result_of self.old.world (event_spec.Choose side path single_path)) (IsFullFor self.old.world self.new.room (event_spec.Choose side path single_path)) result self.new.world }
        ensures room { TakesRoom result self.old.room self.new.room }
    {
        let path = path_named(path)?;
        match side {
            Side::First => self.first.choose(side, path, single_path),
            Side::Second => self.second.choose(side, path, single_path),
        }
    }

    fn down(&mut self, side: Side, index: usize, keep: bool, may: bool) -> Result<WorldReply, Fault>
        ensures reply { IfOk result (λ r. r ≡ reply_spec.reply_of self.old.world (event_spec.Down side index keep may)) }
        ensures gives { GivesResult self.old.world (spec.world_result_of self.old.world (event_spec.Down side index keep may)) (IsFullFor self.old.world self.new.room (event_spec.Down side index keep may)) result self.new.world }
        ensures room { TakesRoom result self.old.room self.new.room }
    {
        match side {
            Side::First => self.first.take_down(&mut self.unit, side, index, keep, may),
            Side::Second => self
                .second
                .take_down(&mut self.unit, side, index, keep, may),
        }
    }

    fn up(&mut self, side: Side, index: usize, keep: bool, may: bool) -> Result<WorldReply, Fault>
        requires { IsWorldWithin (2 ^ 62) self.old.world }
        ensures reply { IfOk result (λ r. r ≡ reply_spec.reply_of self.old.world (event_spec.Up side index keep may)) }
        ensures gives { GivesResult self.old.world (spec.world_result_of self.old.world (event_spec.Up side index keep may)) (IsFullFor self.old.world self.new.room (event_spec.Up side index keep may)) result self.new.world }
        ensures room { TakesRoom result self.old.room self.new.room }
    {
        match side {
            Side::First => self.first.take_up(side, index, keep, may),
            Side::Second => self.second.take_up(side, index, keep, may),
        }
    }

    fn lose_down(&mut self, side: Side, index: usize) -> Result<(), Fault>
        ensures gives { GivesResult self.old.world (spec.world_result_of self.old.world (event_spec.LoseDown side index)) (IsFullFor self.old.world self.new.room (event_spec.LoseDown side index)) result self.new.world }
        ensures room { TakesRoom result self.old.room self.new.room }
    {
        match side {
            Side::First => self.first.lose_down(index),
            Side::Second => self.second.lose_down(index),
        }
    }

    fn lose_up(&mut self, side: Side, index: usize) -> Result<(), Fault>
        ensures gives { GivesResult self.old.world (spec.world_result_of self.old.world (event_spec.LoseUp side index)) (IsFullFor self.old.world self.new.room (event_spec.LoseUp side index)) result self.new.world }
        ensures room { TakesRoom result self.old.room self.new.room }
    {
        match side {
            Side::First => self.first.lose_up(index),
            Side::Second => self.second.lose_up(index),
        }
    }

    fn path_down(&mut self, side: Side, path: u8) -> Result<(), Fault>
        requires { IsWorldWithin (2 ^ 62) self.old.world }
        ensures gives { GivesResult self.old.world (spec.world_result_of self.old.world (event_spec.PathDown side path)) (IsFullFor self.old.world self.new.room (event_spec.PathDown side path)) result self.new.world }
        ensures room { TakesRoom result self.old.room self.new.room }
    {
        let path = path_named(path)?;
        match side {
            Side::First => self.first.path_down(path),
            Side::Second => self.second.path_down(path),
        }
    }

    fn path_up(&mut self, side: Side, path: u8) -> Result<(), Fault>
        ensures gives { GivesResult self.old.world (spec.world_result_of self.old.world (event_spec.PathUp side path)) (IsFullFor self.old.world self.new.room (event_spec.PathUp side path)) result self.new.world }
        ensures room { TakesRoom result self.old.room self.new.room }
    {
        let path = path_named(path)?;
        match side {
            Side::First => self.first.path_up(path),
            Side::Second => self.second.path_up(path),
        }
    }

    fn path_reset(&mut self, side: Side, path: u8) -> Result<(), Fault>
        requires { IsWorldWithin (2 ^ 62) self.old.world }
        ensures gives { GivesResult self.old.world (spec.world_result_of self.old.world (event_spec.PathReset side path)) (IsFullFor self.old.world self.new.room (event_spec.PathReset side path)) result self.new.world }
        ensures room { TakesRoom result self.old.room self.new.room }
    {
        let path = path_named(path)?;
        match side {
            Side::First => self.first.path_reset(path),
            Side::Second => self.second.path_reset(path),
        }
    }

    fn let_go(&mut self, side: Side) -> Result<WorldReply, Fault>
        ensures reply { IfOk result (λ r. r ≡ reply_spec.reply_of self.old.world (event_spec.LetGo side)) }
        ensures gives { GivesResult self.old.world (spec.world_result_of self.old.world (event_spec.LetGo side)) (IsFullFor self.old.world self.new.room (event_spec.LetGo side)) result self.new.world }
        ensures room { TakesRoom result self.old.room self.new.room }
    {
        match side {
            Side::First => self.first.let_go(side),
            Side::Second => self.second.let_go(side),
        }
    }

    fn send(&mut self, side: Side, path: u8, signal: &Down) -> Result<WorldReply, Fault>
        ensures reply { IfOk result (λ r. r ≡ reply_spec.reply_of self.old.world (event_spec.Send side path signal.now)) }
        ensures gives { GivesResult self.old.world (spec.world_result_of self.old.world (event_spec.Send side path signal.now)) (IsFullFor self.old.world self.new.room (event_spec.Send side path signal.now)) result self.new.world }
        ensures room { TakesRoom result self.old.room self.new.room }
    {
        let path = path_named(path)?;
        match side {
            Side::First => self.first.send(side, path, signal),
            Side::Second => self.second.send(side, path, signal),
        }
    }

    fn clear(&mut self, side: Side)
        requires { IsWorldWithin (2 ^ 62) self.old.world }
        ensures does { spec.world_result_of self.old.world (event_spec.Clear side) ≡ Ok self.new.world }
        ensures room { Loses 0 self.old.room self.new.room }
    {
        match side {
            Side::First => self.first.clear(),
            Side::Second => self.second.clear(),
        }
    }

    fn subsystem_reset(&mut self)
        requires { IsWorldWithin (2 ^ 62) self.old.world }
        ensures does { spec.world_result_of self.old.world event_spec.SubsystemReset ≡ Ok self.new.world }
        ensures room { Loses 0 self.old.room self.new.room }
    {
        self.first.clear();
        self.second.clear();
    }

    fn leave(&mut self) -> Result<WorldReply, Fault>
        ensures reply { IfOk result (λ r. r ≡ reply_spec.reply_of self.old.world event_spec.Leave) }
        ensures gives { GivesResult self.old.world (spec.world_result_of self.old.world event_spec.Leave) (IsFullFor self.old.world self.new.room event_spec.Leave) result self.new.world }
        ensures room { TakesRoom result self.old.room self.new.room }
    {
        match self.unit.own() {
            Own::Idle => Err(Fault::NotNow),
            Own::Owned {
                side: Side::First,
                ..
            } => self.first.leave(&mut self.unit, Side::First),
            Own::Owned {
                side: Side::Second,
                ..
            } => self.second.leave(&mut self.unit, Side::Second),
        }
    }

    fn ask(&mut self, path: u8) -> Result<WorldReply, Fault>
        requires { IsWorldWithin (2 ^ 62) self.old.world }
        ensures reply { IfOk result (λ r. r ≡ reply_spec.reply_of self.old.world (event_spec.Ask path)) }
        ensures gives { GivesResult self.old.world (spec.world_result_of self.old.world (event_spec.Ask path)) (IsFullFor self.old.world self.new.room (event_spec.Ask path)) result self.new.world }
        ensures room { TakesRoom result self.old.room self.new.room }
    {
        let path = path_named(path)?;
        match self.unit.own() {
            Own::Idle => Err(Fault::NotNow),
            Own::Owned {
                side: Side::First,
                ..
            } => self.first.ask(&mut self.unit, Side::First, path),
            Own::Owned {
                side: Side::Second,
                ..
            } => self.second.ask(&mut self.unit, Side::Second, path),
        }
    }

    fn attention(&mut self, side: Side, path: u8) -> Result<WorldReply, Fault>
        requires { IsWorldWithin (2 ^ 62) self.old.world }
        ensures reply { IfOk result (λ r. r ≡ reply_spec.reply_of self.old.world (event_spec.Attention side path)) }
        ensures gives { GivesResult self.old.world (spec.world_result_of self.old.world (event_spec.Attention side path)) (IsFullFor self.old.world self.new.room (event_spec.Attention side path)) result self.new.world }
        ensures room { TakesRoom result self.old.room self.new.room }
    {
        let path = path_named(path)?;
        match side {
            Side::First => self.first.attention(&mut self.unit, side, path),
            Side::Second => self.second.attention(&mut self.unit, side, path),
        }
    }

    fn notice(&mut self, side: Side, path: u8) -> Result<WorldReply, Fault>
        ensures reply { IfOk result (λ r. r ≡ reply_spec.reply_of self.old.world (event_spec.Notice side path)) }
        ensures gives { GivesResult self.old.world (spec.world_result_of self.old.world (event_spec.Notice side path)) (IsFullFor self.old.world self.new.room (event_spec.Notice side path)) result self.new.world }
        ensures room { TakesRoom result self.old.room self.new.room }
    {
        let path = path_named(path)?;
        match side {
            Side::First => self.first.notice(&self.unit, side, path),
            Side::Second => self.second.notice(&self.unit, side, path),
        }
    }

    fn restart(&mut self)
        requires { IsWorldWithin (2 ^ 62) self.old.world }
        ensures does { spec.world_result_of self.old.world event_spec.Restart ≡ Ok self.new.world }
        ensures room { Loses 0 self.old.room self.new.room }
    {
        self.unit.restart();
    }

    fn report(&mut self, report: &Report) -> Result<WorldReply, Fault>
        requires { IsWorldWithin (2 ^ 62) self.old.world }
        ensures reply { IfOk result (λ r. r ≡ reply_spec.reply_of self.old.world (event_spec.Report report.now)) }
        ensures gives { GivesResult self.old.world (spec.world_result_of self.old.world (event_spec.Report report.now)) (IsFullFor self.old.world self.new.room (event_spec.Report report.now)) result self.new.world }
        ensures room { TakesRoom result self.old.room self.new.room }
    {
        match self.unit.own() {
            Own::Idle => Err(Fault::NotNow),
            Own::Owned {
                side: Side::First,
                ..
            } => self.first.report(&mut self.unit, Side::First, report),
            Own::Owned {
                side: Side::Second,
                ..
            } => self.second.report(&mut self.unit, Side::Second, report),
        }
    }

    /// One event, which is not counted.
    pub fn perform(&mut self, event: &WorldEvent) -> Result<WorldReply, Fault>
        requires { IsWorldWithin (2 ^ 62) self.old.world }
        ensures reply { IfOk result (λ r. r ≡ reply_spec.reply_of self.old.world event.now) }
        ensures gives { GivesResult self.old.world (spec.world_result_of self.old.world event.now) (IsFullFor self.old.world self.new.room event.now) result self.new.world }
        ensures room { TakesRoom result self.old.room self.new.room }
    {
        match event {
            WorldEvent::Choose {
                side,
                path,
                single_path,
            } => self.choose(*side, *path, *single_path),
            WorldEvent::Down {
                side,
                index,
                keep,
                may,
            } => self.down(*side, *index, *keep, *may),
            WorldEvent::Up {
                side,
                index,
                keep,
                may,
            } => self.up(*side, *index, *keep, *may),
            WorldEvent::LoseDown { side, index } => {
                self.lose_down(*side, *index)?;
                Ok(WorldReply::Done)
            }
            WorldEvent::LoseUp { side, index } => {
                self.lose_up(*side, *index)?;
                Ok(WorldReply::Done)
            }
            WorldEvent::PathDown { side, path } => {
                self.path_down(*side, *path)?;
                Ok(WorldReply::Done)
            }
            WorldEvent::PathUp { side, path } => {
                self.path_up(*side, *path)?;
                Ok(WorldReply::Done)
            }
            WorldEvent::PathReset { side, path } => {
                self.path_reset(*side, *path)?;
                Ok(WorldReply::Done)
            }
            WorldEvent::LetGo { side } => self.let_go(*side),
            WorldEvent::Send { side, path, signal } => self.send(*side, *path, signal),
            WorldEvent::Clear { side } => {
                self.clear(*side);
                Ok(WorldReply::Done)
            }
            WorldEvent::SubsystemReset => {
                self.subsystem_reset();
                Ok(WorldReply::Done)
            }
            WorldEvent::Leave => self.leave(),
            WorldEvent::Ask { path } => self.ask(*path),
            WorldEvent::Attention { side, path } => self.attention(*side, *path),
            WorldEvent::Notice { side, path } => self.notice(*side, *path),
            WorldEvent::Restart => {
                self.restart();
                Ok(WorldReply::Done)
            }
            WorldEvent::Report(report) => self.report(report),
        }
    }
}

/// The path of an event.
fn path_named(index: u8) -> Result<Path, Fault>
    ensures { result ≡ spec.path_named index }
{
    match Path::new(u32::from(index)) {
        Some(path) => Ok(path),
        None => Err(Fault::NoSuchPath),
    }
}
