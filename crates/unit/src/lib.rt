//! The device's side (own): a unit that one or two subchannels reach.
#![tactic(auto)]

mod acts;
mod commands;
mod parts;
mod reports;
mod signals;
mod works;

ghost use Rattle.std.specs.Prelude.{◌≡◌, ◌<◌, ◌≤◌, ◌^◌, ◌||◌, ℕ, Bool, IfSome, MatchOption, None, is_some, length};
ghost use Rattle.chan_model.specs.Lent.{lent_down, lent_up, plain_up};
ghost use Rattle.chan_model.specs.Signals.{map_sent, map_taken};
ghost use Rattle.chan_model.specs.UnitReports as reports;
ghost use Rattle.chan_model.specs.UnitTable as table;
ghost use Rattle.chan_model.specs.Reports.{lent_works};
ghost use Rattle.unit.specs.UnitWords as words;

use chan_model::lent::{LentDown, LentUp, PlainUp};
use chan_model::names::{Path, Side};
use chan_model::report::{LentWork, Report, ReportPath, Work};
use chan_model::signal::{KeptUp, OnPath, Taken};
use chan_model::unit_state::{Connection, Own, SideState, UnitState};
use std::marker::Model;

/// A unit: whom its device is held by, what it keeps of each side, and the command at hand.
#[derive(Drop)]
pub struct Unit {
    state: UnitState,
}

impl Model for Unit {
    ghost use Rattle.chan_model.specs.declared.unit_state.UnitState.{UnitState};

    ghost Value = { UnitState };

    ghost view = { λ u. u.state };
}

impl Unit {
    /// Nothing holds it.
    pub fn new() -> Self
        ensures { result ≡ table.idle_unit }
    {
        let quiet = SideState {
            floor: 0,
            fresh: false,
        };
        Unit {
            state: UnitState {
                restarts: 0,
                first: quiet,
                second: quiet,
                own: Own::Idle,
                last_command: 0,
                current: None,
                halted: false,
                attentions: 0,
                attention: None,
                end_owed: false,
            },
        }
    }

    /// All that there is of it.
    pub fn state(&self) -> &UnitState
        ensures { result.now ≡ self.now }
    {
        &self.state
    }

    /// Whom the device is held by.
    pub fn own(&self) -> Own
        ensures { result ≡ self.now.own }
    {
        self.state.own
    }

    /// Whether no program holds the device.
    pub fn is_idle(&self) -> bool
        ensures { result ≡ table.is_idle self.now.own }
    {
        matches!(self.state.own, Own::Idle)
    }

    /// Takes a signal of a side that came by a path. `may` says, at Select, that the control unit may serve it.
    pub fn take(
        &mut self,
        side: Side,
        path: Path,
        signal: &LentDown<'_>,
        may: bool,
    ) -> Taken<PlainUp>
        ensures state { self.new ≡ table.unit_after self.old (table.unit_takes self.old side path (lent_down signal.now) may) }
        ensures outcome { map_taken plain_up result ≡ table.outcome_of (table.unit_takes self.old side path (lent_down signal.now) may) }

        // An answer goes by the path of the signal; the other side is left as it was.
        ensures path { IfSome result.sent (λ sent. sent.path ≡ path) }
        ensures answered { is_some result.sent ≡ words.is_unit_answered self.old side (lent_down signal.now) }
        ensures other { words.LeavesOther side self.old self.new }
    {
        signals::takes(&mut self.state, side, path, signal, may)
    }

    /// Whether a signal of a side is answered. Its path, and what the control unit may do, make no difference.
    pub fn answers(&self, side: Side, signal: &LentDown<'_>) -> bool
        ensures answers { (path : ℕ) (may : Bool) → result ≡ is_some (table.outcome_of (table.unit_takes self.now side path (lent_down signal.now) may)).sent }

        // Its answer goes by the path that the signal came by.
        ensures path { (path : ℕ) (may : Bool) → IfSome (table.outcome_of (table.unit_takes self.now side path (lent_down signal.now) may)).sent (λ s. s.path ≡ path) }
    {
        signals::answers(&self.state, side, signal)
    }

    /// Takes the device's answer. It is not taken where it is stale or against the law of devices, and then nothing
    /// changes. Nothing is sent where a read begins. The unit keeps the bytes of a Data that it sends until they are
    /// answered, and `lend` has them.
    pub fn report(&mut self, report: &Report) -> Taken<KeptUp>
        requires { words.last_sequence self.old.current < 2 ^ 63 }
        ensures state { self.new ≡ table.unit_after self.old (reports.unit_reports self.old report.now) }
        ensures outcome { words.reported self.new.current result ≡ table.outcome_of (reports.unit_reports self.old report.now) }
        ensures bytes { words.AreOfCurrent self.new.current result }
    {
        reports::reports(&mut self.state, report)
    }

    /// What came of the last report, the bytes of its Data lent.
    pub fn lend<'a>(&'a self, outcome: &'a Taken<KeptUp>) -> Taken<LentUp<'a>>
        requires { words.AreOfCurrent self.now.current outcome.now }
        ensures { map_taken lent_up result ≡ words.reported self.now.current outcome.now }
    {
        reports::lend(&self.state, outcome)
    }

    /// Where the program of a report stands, asked before the report is taken; None where the report is stale or against the
    /// law of devices.
    pub fn reporting(&self, report: &Report) -> Option<Connection>
        ensures connection { MatchOption result (reports.unit_reports self.now report.now ≡ None)
            (λ connection. reports.unit_reports self.now report.now ≡ reports.report_on self.now report.now.number connection self.now.current report.now) }
        ensures allowed { IfSome result (λ connection. words.IsAllowed self.now report.now) }
    {
        reports::reporting(&self.state, report)
    }

    /// The path that the signal of a report is sent on whose program stands there.
    pub fn path_from(&self, connection: &Connection, report: &Report) -> ReportPath
        requires { words.IsAllowed self.now report.now }
        ensures { (number : ℕ) → result ≡ reports.report_path (reports.report_on self.now number connection.now self.now.current report.now) }
    {
        reports::path_from(&self.state, *connection, report)
    }

    /// Takes the device's answer, as `report` does, of a report whose program stands there.
    pub fn report_from(&mut self, connection: &Connection, report: &Report) -> Taken<KeptUp>
        requires below { words.last_sequence self.old.current < 2 ^ 63 }
        requires allowed { words.IsAllowed self.old report.now }
        ensures state { self.new ≡ table.unit_after self.old (reports.report_on self.old report.now.number connection.now self.old.current report.now) }
        ensures outcome { words.reported self.new.current result ≡ table.outcome_of (reports.report_on self.old report.now.number connection.now self.old.current report.now) }
        ensures bytes { words.AreOfCurrent self.new.current result }
    {
        reports::report_on(&mut self.state, *connection, report)
    }

    /// The path that the signal of a report is sent on, asked before the report is taken.
    pub fn report_path(&self, report: &Report) -> ReportPath
        ensures { result ≡ reports.report_path (reports.unit_reports self.now report.now) }
    {
        reports::report_path(&self.state, report)
    }

    /// What it has to do next, while its program is connected.
    pub fn work(&self) -> Option<Work>
        ensures { result ≡ reports.unit_work self.now }
    {
        match works::work(&self.state) {
            None => None,
            Some(work) => Some(work.own()),
        }
    }

    /// What it has to do next, as `work` has it; the bytes that are to be absorbed are lent.
    pub fn lent_work(&self) -> Option<LentWork<'_>>
        ensures { lent_works result ≡ reports.unit_work self.now }
    {
        works::work(&self.state)
    }

    /// Leaves the path of its program, which works on. None where no program is connected, and then nothing changes.
    pub fn leave(&mut self) -> Option<OnPath<PlainUp>>
        ensures state { self.new ≡ table.unit_after self.old (table.leaving self.old self.old.own) }
        ensures sent { map_sent plain_up result ≡ (table.outcome_of (table.leaving self.old self.old.own)).sent }
    {
        acts::leaving(&mut self.state)
    }

    /// Asks for a path. None where no program is without one, and then nothing changes.
    pub fn ask(&mut self, path: Path) -> Option<OnPath<PlainUp>>
        requires { words.last_connection self.old.own < 2 ^ 63 }
        ensures state { self.new ≡ table.unit_after self.old (table.asking self.old self.old.own path) }
        ensures sent { map_sent plain_up result ≡ (table.outcome_of (table.asking self.old self.old.own path)).sent }
    {
        acts::asking(&mut self.state, path)
    }

    /// Asks a side for attention. None where a program holds the device or the side is fresh, and then nothing changes.
    pub fn attention(&mut self, side: Side, path: Path) -> Option<OnPath<PlainUp>>
        requires { self.old.attentions < 2 ^ 63 }
        ensures state { self.new ≡ table.unit_after self.old (table.attending self.old side path) }
        ensures sent { map_sent plain_up result ≡ (table.outcome_of (table.attending self.old side path)).sent }
    {
        acts::attending(&mut self.state, side, path)
    }

    /// Restarts the device: it forgets its program, and both sides are fresh.
    pub fn restart(&mut self)
        requires { self.old.restarts < 2 ^ 63 }
        ensures { self.new ≡ table.restarted self.old }
    {
        acts::restart(&mut self.state);
    }

    /// From now on a control-unit end is owed where `owed` says so, or was owed already; its next attention says it.
    pub fn owe(&mut self, owed: bool)
        ensures { self.new ≡ record self.old { end_owed = self.old.end_owed || owed } }
    {
        self.state.end_owed = self.state.end_owed || owed;
    }

    /// Tells a side that is fresh how often it was restarted. None where the side is not fresh.
    pub fn notice(&self, side: Side, path: Path) -> Option<OnPath<PlainUp>>
        ensures { map_sent plain_up result ≡ (table.outcome_of (table.noticing self.now side path)).sent }
    {
        acts::noticing(&self.state, side, path)
    }
}
