//! A report of a unit that waits, from when its device was called until it is entered.

ghost use Rattle.std.specs.Prelude.{◌≡◌, None};
ghost use Rattle.unit_driver.specs.Waiting as spec;

use chan_events::event::Event;
use chan_model::fault::Fault;
use chan_model::report::Report;

/// A report of a unit that is still to be handed in. The device was called for it, so it waits until it is entered.
#[derive(Drop)]
pub struct WaitingReport {
    pub unit: u32,
    pub report: Report,
}

impl WaitingReport {
    /// The same report; it takes no memory.
    pub fn copy(&self) -> Self
        ensures { result ≡ self.now }
    {
        WaitingReport {
            unit: self.unit,
            report: self.report.copy(),
        }
    }

    /// The event that hands it in.
    pub fn event(&self) -> Event
        ensures { result ≡ spec.report_event self.now }
    {
        Event::Report {
            unit: self.unit,
            report: self.report.copy(),
        }
    }

    /// The report that an event hands in; none where it hands in none.
    pub fn of_event(event: &Event) -> Option<Self>
        ensures { result ≡ spec.handed_in event.now }
    {
        match event {
            Event::Report { unit, report } => Some(WaitingReport {
                unit: *unit,
                report: report.copy(),
            }),
            _ => None,
        }
    }
}

/// What a turn answers where its report is refused so: nothing was entered where the report is stale.
pub fn refusal_of(fault: Fault) -> Result<bool, Fault>
    ensures { result ≡ spec.refusal_of fault }
{
    match fault {
        Fault::NotNow => Ok(false),
        other => Err(other),
    }
}

/// After an event was refused so, the report that it hands in waits where that was for want of memory or of room on a wire.
/// Otherwise, and after an event that hands in none, nothing waits.
pub fn keep_refused(waiting: &mut Option<WaitingReport>, event: &Event, fault: Fault)
    ensures { waiting.new ≡ spec.waits_after event.now fault }
{
    match fault {
        Fault::NoMemory | Fault::WireFull => keep(waiting, event),
        _ => forget(waiting),
    }
}

/// The report that an event hands in waits, and no other.
#[cold]
#[inline(never)]
fn keep(waiting: &mut Option<WaitingReport>, event: &Event)
    ensures { waiting.new ≡ spec.handed_in event.now }
{
    *waiting = WaitingReport::of_event(event);
}

/// No report waits, as after one was entered.
pub fn forget(waiting: &mut Option<WaitingReport>)
    ensures { waiting.new ≡ None }
{
    if waiting.is_some() {
        *waiting = None;
    }
}
