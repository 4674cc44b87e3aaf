//! Turns of units and of subchannels: nothing moves by itself.

ghost use Rattle.std.specs.Prelude.{◌≡◌};
ghost use Rattle.host_machine.specs.Works as spec;
ghost use Rattle.host_machine.specs.Works.{SubchannelTurns, TurnsWith, UnitTurns};
ghost use Rattle.signal_step.specs.PathTurns.{path_turn_of};

use crate::answers::{NO_SUCH_SUBCHANNEL, NO_SUCH_UNIT};
use crate::running::Running;
use chan_events::event::Event;
use chan_model::report::Work;
use machine::looks::Looks;
use machine_model::state::UnitTurn;
use unit_driver::turns::word_of;

/// What is due for a subchannel, in place of an event that names it.
#[derive(Clone, Copy)]
pub enum PathDue {
    /// The signal that waits longest on the wire up of the path of this index is to be taken.
    Takes(u32),
    /// The subsystem has something to do of itself.
    Chooses,
    /// Nothing.
    Nothing,
}

/// The number of a turn that entered an event which was answered so.
fn turned(entered: i32) -> i32
    ensures { result ≡ spec.turned entered }
{
    if entered < 0 { entered } else { 1 }
}

/// What stands for the event of a turn of a subchannel.
fn due_of_turn(turn: &Option<Event>) -> PathDue
    ensures { result ≡ spec.path_due_of turn.now }
{
    match turn {
        Some(Event::Up { path, .. }) => PathDue::Takes(*path),
        Some(Event::Choose { .. }) => PathDue::Chooses,
        _ => PathDue::Nothing,
    }
}

impl Running {
    /// What is due for a subchannel on the path of this identifier.
    fn path_due(&self, subchannel: u32, chpid: u8) -> PathDue
        ensures { spec.event_due subchannel result ≡ path_turn_of self.now.subsystem.machine subchannel chpid }
    {
        due_of_turn(&self.subsystem().path_turn(subchannel, chpid))
    }

    /// What is due for a subchannel on the first of these paths on which it is.
    fn due_on(&self, subchannel: u32, chpids: &[u8]) -> PathDue
        ensures { spec.event_due subchannel result ≡ spec.due_on self.now.subsystem.machine subchannel chpids.now }
    {
        for chpid in chpids {
            match self.path_due(subchannel, *chpid) {
                PathDue::Nothing => {}
                due => return due,
            }
        }
        PathDue::Nothing
    }

    /// What is due for a subchannel; None where it is not configured.
    fn due_of_subchannel(&self, subchannel: u32) -> Option<PathDue>
        ensures { spec.due_by_path subchannel result ≡ spec.due_of_subchannel self.now.subsystem.machine subchannel }
    {
        let found = self.subsystem().subchannel(subchannel)?;
        Some(self.due_on(subchannel, found.state.setup().paths.as_slice()))
    }

    /// Enters an event that is due.
    fn turn_with(&mut self, bytes: &mut [u8], keys: &mut [u8], event: &Event) -> i32
        ensures { TurnsWith event.now self.old bytes.old keys.old result self.new bytes.new keys.new }
    {
        turned(self.enter(bytes, keys, event))
    }

    /// A turn of a unit: it takes the signal that waits for it, or hands in a report that its device is not needed for: 1. 2 where
    /// its device is to be called, 0 where nothing is due.
    pub fn turn_unit(&mut self, bytes: &mut [u8], keys: &mut [u8], unit: u32) -> i32
        ensures { UnitTurns self.old bytes.old keys.old «unit» result self.new bytes.new keys.new }
    {
        match self.subsystem().lent_turn(unit) {
            Some(UnitTurn::Takes { subchannel, path }) => {
                let subchannel = word_of(subchannel);
                self.turn_with(bytes, keys, &Event::Down { subchannel, path })
            }
            Some(UnitTurn::Works(Work::Report(report))) => {
                let report = report.own();
                self.turn_with(bytes, keys, &Event::Report { unit, report })
            }
            Some(UnitTurn::Works(Work::Call { .. })) => 2,
            Some(UnitTurn::Away { .. } | UnitTurn::Rests) => 0,
            None => NO_SUCH_UNIT,
        }
    }

    /// A turn of a subchannel: on the first of its paths where that is due it takes the signal that waits, or the subsystem does
    /// what it must for it: 1. 0 where nothing is due.
    pub fn turn_subchannel(&mut self, bytes: &mut [u8], keys: &mut [u8], subchannel: u32) -> i32
        ensures { SubchannelTurns self.old bytes.old keys.old subchannel result self.new bytes.new keys.new }
    {
        match self.due_of_subchannel(subchannel) {
            Some(PathDue::Takes(path)) => {
                self.turn_with(bytes, keys, &Event::Up { subchannel, path })
            }
            Some(PathDue::Chooses) => self.turn_with(bytes, keys, &Event::Choose { subchannel }),
            Some(PathDue::Nothing) => 0,
            None => NO_SUCH_SUBCHANNEL,
        }
    }
}
