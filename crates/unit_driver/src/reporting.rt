//! What a unit is to report next, and the call of its device for it.

ghost use Rattle.std.specs.Prelude.{◌≡◌};
ghost use Rattle.chan_model.specs.Reports.{lent_work};
ghost use Rattle.machine_model.specs.UnitTurns.{lent_turn};
ghost use Rattle.unit_driver.specs.Reporting as spec;

use crate::turns::OwedCall;
use crate::waiting::WaitingReport;
use chan_model::names::Side;
use chan_model::report::{DeviceAnswer, LentCall, LentWork, Report, Work};
use device_law::Device;
use device_law::answering::{answer, answer_to};
use machine_model::state::UnitTurn;

/// What a unit is to report next, over what stands for a report and for a call.
#[derive(Clone, Copy, Drop)]
pub enum NextReport<R, C> {
    /// A report that is there: it waits, or needs no call.
    Told(R),
    /// What the device answers to a call that is still to be made.
    Asked(C),
    /// Nothing now: a signal waits for the unit, it is away from its path, or it rests.
    Nothing,
}

impl OwedCall {
    /// The report of what the device answered to it.
    pub fn report(&self, answer: DeviceAnswer) -> WaitingReport
        ensures { result ≡ spec.report_of self.now answer }
    {
        WaitingReport {
            unit: self.unit,
            report: Report {
                side: self.side,
                number: self.number,
                command: self.command,
                sequence: self.sequence,
                answer,
            },
        }
    }

    /// Makes the call: the report of what the device answered.
    pub fn make<D: Device>(&self, device: &mut D) -> WaitingReport
        ensures made { spec.IsMade D.answers self.now device.old result device.new }
        ensures opening { D.opening device.new ≡ D.opening device.old }
    {
        self.report(answer(device, &self.call))
    }
}

/// Writes the report that a unit hands in next into a slot: the one that waits for it, else that of its work. Where it is
/// what the device answers to a call, the call is answered, and the slot lacks the answer alone.
pub fn next_report<'a>(
    waiting: &Option<WaitingReport>,
    turn: &UnitTurn<LentWork<'a>>,
    report: &mut Report,
) -> NextReport<(), LentCall<'a>>
    ensures { spec.next_in result report.new ≡ spec.next_of waiting.now (lent_turn turn.now) }
{
    match waiting {
        Some(waiting) => {
            copy_to(&waiting.report, report);
            NextReport::Told(())
        }
        None => match turn {
            UnitTurn::Works(work) => next_by_work(work, report),
            UnitTurn::Takes { .. } | UnitTurn::Away { .. } | UnitTurn::Rests => NextReport::Nothing,
        },
    }
}

/// The report that a unit hands in next, with the call of its device where there is one. None where there is no report now.
pub fn reported<D: Device>(
    device: &mut D,
    waiting: &Option<WaitingReport>,
    turn: &UnitTurn<LentWork<'_>>,
) -> Option<Report>
    ensures reported { spec.IsReported D.answers (spec.next_of waiting.now (lent_turn turn.now)) device.old result device.new }
    ensures opening { D.opening device.new ≡ D.opening device.old }
{
    let mut report = no_report();
    match next_report(waiting, turn, &mut report) {
        NextReport::Told(()) => Some(report),
        NextReport::Asked(call) => {
            answer_to(device, &call, &mut report.answer);
            Some(report)
        }
        NextReport::Nothing => None,
    }
}

/// A report that no one made, as a slot for one.
pub fn no_report() -> Report {
    Report {
        side: Side::First,
        number: 0,
        command: 0,
        sequence: 0,
        answer: DeviceAnswer::Begins,
    }
}

/// Writes the report of a work into a slot, which lacks the answer to a call where there is one.
fn next_by_work<'a>(work: &LentWork<'a>, report: &mut Report) -> NextReport<(), LentCall<'a>>
    ensures { spec.next_in result report.new ≡ spec.next_by_work (lent_work work.now) }
{
    match work {
        Work::Call {
            side,
            number,
            command,
            sequence,
            call,
        } => {
            report.side = *side;
            report.number = *number;
            report.command = *command;
            report.sequence = *sequence;
            NextReport::Asked(call.copy())
        }
        Work::Report(told) => {
            *report = told.own();
            NextReport::Told(())
        }
    }
}

/// Writes the same report into a slot.
#[cold]
#[inline(never)]
fn copy_to(waiting: &Report, report: &mut Report)
    ensures { report.new ≡ waiting.now }
{
    *report = waiting.copy();
}
