//! What the unit does, and what it sends one side.

ghost use Rattle.std.specs.Prelude.{◌≡◌, ◌<◌, ◌^◌, IfOk, slice_get};
ghost use Rattle.agree.specs.Lines as spec;
ghost use Rattle.agree.specs.Replies as reply_spec;
ghost use Rattle.agree.specs.Rooms as room_spec;
ghost use Rattle.agreement_laws.specs.Moving as moving;
ghost use Rattle.unit.specs.UnitWords as words;

use super::SideLine;
use super::signals::{make_room, send_up};
use crate::reply::{WorldReply, own_up};
use chan_model::fault::Fault;
use chan_model::lent_forms::lend_up;
use chan_model::names::{Path, Side};
use chan_model::report::Report;
use unit::Unit;

impl SideLine {
    /// The unit takes the signal at an index.
    pub fn take_down(
        &mut self,
        unit: &mut Unit,
        side: Side,
        index: usize,
        keep: bool,
        may: bool,
    ) -> Result<WorldReply, Fault>
        ensures reply { IfOk result (λ r. r ≡ reply_spec.line_took_down_reply side unit.old (slice_get self.old.line.link.downs index) may) }
        ensures gives { spec.GivesResult (spec.unit_line unit.old self.old.line) (spec.line_takes_down (spec.unit_line unit.old self.old.line) side index keep may) (room_spec.IsFullUp self.new.room) result (spec.unit_line unit.new self.new.line) }
        ensures room { room_spec.LineTakes result self.old.room self.new.room }
    {
        if index >= self.downs.len() {
            return Err(Fault::NotSent);
        }
        make_room(&mut self.ups, &mut self.accepted)?;
        let signal = self.downs[index].copy();
        let kept = signal.signal.keep();
        let lent = kept.lend(signal.signal.bytes());
        let outcome = unit.take(side, signal.path, &lent, may);
        if !keep {
            self.downs.remove(index);
        }
        let sent = lend_up(&outcome.sent);
        let answer = own_up(&sent);
        send_up(&mut self.ups, &mut self.accepted, &self.up, &sent);
        Ok(WorldReply::Down {
            side,
            signal,
            taken: outcome.taken,
            sent: answer,
        })
    }

    /// The unit leaves the path of its program.
    pub fn leave(&mut self, unit: &mut Unit, side: Side) -> Result<WorldReply, Fault>
        ensures reply { IfOk result (λ r. r ≡ reply_spec.unit_reply side unit.old moving.Leaves) }
        ensures gives { spec.GivesResult (spec.unit_line unit.old self.old.line) (spec.acts_for (spec.unit_line unit.old self.old.line) moving.Leaves) (room_spec.IsFullUp self.new.room) result (spec.unit_line unit.new self.new.line) }
        ensures room { room_spec.LineTakes result self.old.room self.new.room }
    {
        make_room(&mut self.ups, &mut self.accepted)?;
        let outcome = unit.leave();
        if outcome.is_none() {
            return Err(Fault::NotNow);
        }
        let sent = lend_up(&outcome);
        let reply = WorldReply::of_unit(side, &sent);
        send_up(&mut self.ups, &mut self.accepted, &self.up, &sent);
        Ok(reply)
    }

    /// The unit asks for a path.
    pub fn ask(&mut self, unit: &mut Unit, side: Side, path: Path) -> Result<WorldReply, Fault>
        requires { words.last_connection unit.old.own < 2 ^ 63 }
        ensures reply { IfOk result (λ r. r ≡ reply_spec.unit_reply side unit.old (moving.Asks path)) }
        ensures gives { spec.GivesResult (spec.unit_line unit.old self.old.line) (spec.acts_for (spec.unit_line unit.old self.old.line) (moving.Asks path)) (room_spec.IsFullUp self.new.room) result (spec.unit_line unit.new self.new.line) }
        ensures room { room_spec.LineTakes result self.old.room self.new.room }
    {
        make_room(&mut self.ups, &mut self.accepted)?;
        let outcome = unit.ask(path);
        if outcome.is_none() {
            return Err(Fault::NotNow);
        }
        let sent = lend_up(&outcome);
        let reply = WorldReply::of_unit(side, &sent);
        send_up(&mut self.ups, &mut self.accepted, &self.up, &sent);
        Ok(reply)
    }

    /// The unit asks this side for attention.
    pub fn attention(
        &mut self,
        unit: &mut Unit,
        side: Side,
        path: Path,
    ) -> Result<WorldReply, Fault>
        requires { unit.old.attentions < 2 ^ 63 }
        ensures reply { IfOk result (λ r. r ≡ reply_spec.unit_reply side unit.old (moving.Attends side path)) }
        ensures gives { spec.GivesResult (spec.unit_line unit.old self.old.line) (spec.acts_for (spec.unit_line unit.old self.old.line) (moving.Attends side path)) (room_spec.IsFullUp self.new.room) result (spec.unit_line unit.new self.new.line) }
        ensures room { room_spec.LineTakes result self.old.room self.new.room }
    {
        make_room(&mut self.ups, &mut self.accepted)?;
        let outcome = unit.attention(side, path);
        if outcome.is_none() {
            return Err(Fault::NotNow);
        }
        let sent = lend_up(&outcome);
        let reply = WorldReply::of_unit(side, &sent);
        send_up(&mut self.ups, &mut self.accepted, &self.up, &sent);
        Ok(reply)
    }

    /// The unit tells this side how often it was restarted.
    pub fn notice(&mut self, unit: &Unit, side: Side, path: Path) -> Result<WorldReply, Fault>
        ensures reply { IfOk result (λ r. r ≡ reply_spec.unit_reply side unit.now (moving.Notices side path)) }
        ensures gives { spec.GivesResult (spec.unit_line unit.now self.old.line) (spec.acts_for (spec.unit_line unit.now self.old.line) (moving.Notices side path)) (room_spec.IsFullUp self.new.room) result (spec.unit_line unit.now self.new.line) }
        ensures room { room_spec.LineTakes result self.old.room self.new.room }
    {
        make_room(&mut self.ups, &mut self.accepted)?;
        let outcome = unit.notice(side, path);
        if outcome.is_none() {
            return Err(Fault::NotNow);
        }
        let sent = lend_up(&outcome);
        let reply = WorldReply::of_unit(side, &sent);
        send_up(&mut self.ups, &mut self.accepted, &self.up, &sent);
        Ok(reply)
    }

    /// The unit takes its device's answer.
    pub fn report(
        &mut self,
        unit: &mut Unit,
        side: Side,
        report: &Report,
    ) -> Result<WorldReply, Fault>
        requires { words.last_sequence unit.old.current < 2 ^ 63 }
        ensures reply { IfOk result (λ r. r ≡ reply_spec.unit_reply side unit.old (moving.Reports report.now)) }
        ensures gives { spec.GivesResult (spec.unit_line unit.old self.old.line) (spec.acts_for (spec.unit_line unit.old self.old.line) (moving.Reports report.now)) (room_spec.IsFullUp self.new.room) result (spec.unit_line unit.new self.new.line) }
        ensures room { room_spec.LineTakes result self.old.room self.new.room }
    {
        make_room(&mut self.ups, &mut self.accepted)?;
        let outcome = unit.report(report);
        if !outcome.taken {
            return Err(Fault::NotNow);
        }
        let outcome = unit.lend(&outcome);
        let reply = WorldReply::of_unit(side, &outcome.sent);
        send_up(&mut self.ups, &mut self.accepted, &self.up, &outcome.sent);
        Ok(reply)
    }
}
