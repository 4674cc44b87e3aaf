//! The turns of workers, under the lock.

ghost use Rattle.std.specs.Prelude.{◌≡◌, ◌+◌, None};
ghost use Rattle.core_lock.specs.Outside.{IsPathTurn, IsUnitTurn};
ghost use Rattle.core_lock.specs.Turns as turn_spec;
ghost use Rattle.unit_driver.specs.Turns as unit_spec;
ghost use Rattle.unit_driver.specs.Waiting as waiting_spec;

use crate::guarded::Guarded;
use crate::locked::Seat;
use crate::naming::MachineBrand;
use chan_events::event::{Event, UnitAct};
use chan_model::fault::Fault;
use glance_directory::path_turns::path_turn_of;
use path_select::PathChoice;
use unit_driver::turns::{TakenCommand, Turn, turn_by};
use unit_driver::waiting::{WaitingReport, keep_refused, refusal_of};

impl<J: MachineBrand, P: PathChoice + Drop> Guarded<J, P> {
    /// One turn of the worker of a channel path: the first event that there is for a subchannel of that path is entered. False
    /// where there is none. Refused, all but the number of turns is as before.
    pub fn path_step(&mut self, seat: &mut Seat<J>, chpid: u8) -> Result<bool, Fault>
        ensures turns { seat.new.value.turns ≡ seat.old.value.turns + 1 }
        ensures turn { turn_spec.TakesPathTurn P.picks self.old (turn_spec.turned_seat seat.old)
            (turn_spec.turn_of_path self.old.value.state chpid) result self.new.value seat.new.value }
        ensures told { IsPathTurn P.picks chpid seat.old result seat.new.value }
        ensures works { turn_spec.WorksPath chpid seat.old.value seat.new.value (turn_spec.count_in result) }
    {
        self.stands(seat);
        self.count_turn(seat);
        let turn = self.path_event(chpid);
        self.take_path_turn(seat, turn)
    }

    /// The first event that there is for a subchannel of a channel path.
    fn path_event(&self, chpid: u8) -> Option<Event>
        ensures { result ≡ turn_spec.turn_of_path self.now.value.state chpid }
    {
        path_turn_of(&self.subsystem, &self.directory, chpid)
    }

    /// Takes a turn of the worker of a channel path.
    fn take_path_turn(&mut self, seat: &mut Seat<J>, turn: Option<Event>) -> Result<bool, Fault>
        ensures { turn_spec.TakesPathTurn P.picks self.old seat.old turn result self.new.value seat.new.value }
    {
        match turn {
            Some(event) => self.try_enter(seat, &event),
            None => Ok(false),
        }
    }

    /// One turn of the worker of a unit. A report that the seat keeps is handed in first: a stale one is dropped, and one that
    /// is refused `NoMemory` or `WireFull` stays waiting. Else an event is entered, or a call of the device becomes owed. A unit that
    /// roams leaves its path first, once after each command, and asks for one again. Whether an event was entered.
    pub fn unit_step(&mut self, seat: &mut Seat<J>, unit: u32, roam: bool) -> Result<bool, Fault>
        requires { seat.old.value.owed ≡ None }
        ensures turns { seat.new.value.turns ≡ seat.old.value.turns + 1 }
        ensures turn { turn_spec.TakesUnitTurn P.picks self.old (turn_spec.turned_seat seat.old) seat.old.value.waiting «unit» roam result self.new.value seat.new.value }
        ensures told { IsUnitTurn P.picks roam «unit» seat.old result seat.new.value }
        ensures works { turn_spec.WorksUnit roam «unit» seat.old.value seat.new.value (turn_spec.count_in result) }
        ensures owes { turn_spec.IsOwedBy seat.old.value.setup roam «unit» seat.new.value.owed }
    {
        self.stands(seat);
        self.count_turn(seat);
        self.unit_turn(seat, unit, roam)
    }

    /// Takes the turn of a unit's worker that there is.
    fn unit_turn(&mut self, seat: &mut Seat<J>, unit: u32, roam: bool) -> Result<bool, Fault>
        requires { seat.old.value.owed ≡ None }
        ensures { turn_spec.TakesUnitTurn P.picks self.old seat.old seat.old.value.waiting «unit» roam result self.new.value seat.new.value }
    {
        match &seat.waiting {
            Some(waiting) => {
                let waiting = waiting.copy();
                seat.waiting = None;
                self.enter_report(seat, waiting)
            }
            None => {
                let turn = turn_by(roam, seat.left, unit, self.subsystem.unit_turn(unit));
                self.take_turn(seat, turn)
            }
        }
    }

    /// Counts one turn, in the ledger alone.
    fn count_turn(&mut self, seat: &mut Seat<J>)
        ensures core { self.new ≡ self.old }
        ensures seat { seat.new ≡ turn_spec.turned_seat seat.old }
    {
        self.turns.add(&mut seat.turns, 1);
    }

    /// Hands in a report that waits.
    fn enter_report(&mut self, seat: &mut Seat<J>, waiting: WaitingReport) -> Result<bool, Fault>
        ensures { turn_spec.EntersReport P.picks self.old seat.old waiting result self.new.value seat.new.value }
    {
        let event = waiting.event();
        let outcome = self.try_enter(seat, &event);
        match outcome {
            Ok(entered) => Ok(entered),
            Err(fault) => seat.keep(&event, fault),
        }
    }

    /// Takes a turn of a unit's worker.
    fn take_turn(&mut self, seat: &mut Seat<J>, turn: Turn) -> Result<bool, Fault>
        requires { seat.old.value.owed ≡ None }
        ensures { turn_spec.TakesTurn P.picks self.old seat.old turn result self.new.value seat.new.value }
    {
        match turn {
            Turn::Enters(event) => self.try_enter(seat, &event),
            Turn::Leaves(command) => self.leave(seat, command),
            Turn::Owes(call) => {
                seat.owed = Some(call);
                Ok(false)
            }
            Turn::Rests => Ok(false),
        }
    }

    /// The unit leaves its path, for this command once.
    fn leave(&mut self, seat: &mut Seat<J>, command: TakenCommand) -> Result<bool, Fault>
        ensures { turn_spec.TakesTurn P.picks self.old seat.old (unit_spec.leaves command) result self.new.value seat.new.value }
    {
        let event = Event::Act {
            unit: command.unit,
            act: UnitAct::Leave,
        };
        let entered = self.try_enter(seat, &event)?;
        seat.left = Some(command);
        Ok(entered)
    }

    /// What is guarded is of the seat's machine, set up as it is, and its history led to its state.
    pub(crate) fn stands(&self, seat: &Seat<J>)
        ensures { turn_spec.IsOfMachine seat.now.value self.now.value }
    {
        let _ = self.subsystem.history();
        let _ = &seat.directory;
    }
}

impl<J: MachineBrand> Seat<J> {
    /// Has the report of an event that was refused wait, where it is to be handed in later. A stale one is no refusal.
    fn keep(&mut self, event: &Event, fault: Fault) -> Result<bool, Fault>
        ensures result { result ≡ waiting_spec.refusal_of fault }
        ensures seat { self.new.value ≡ turn_spec.with_waiting self.old.value (waiting_spec.waits_after event.now fault) }
        ensures room { self.new.room ≡ self.old.room }
    {
        keep_refused(&mut self.waiting, event, fault);
        refusal_of(fault)
    }
}
