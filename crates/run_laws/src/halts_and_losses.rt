//! What is chosen where a halt is pending, and where a lost path makes a status: by what STORE SUBCHANNEL shows, and by where
//! the program is.

ghost use Rattle.std.specs.Prelude.{List};
ghost use Rattle.chan_events.specs.declared.reply.Entry.{Entry};
ghost use Rattle.channel_config.specs.Lawful.{IsLawful};
ghost use Rattle.channel_config.specs.Setup.{Setup};
ghost use Rattle.machine_model.specs.State.{State, opening_of};
ghost use Rattle.machine_model.specs.Steps.{Run};
ghost use Rattle.run_laws.specs.Halts.{AreHaltsDone};
ghost use Rattle.run_laws.specs.LostPrograms.{AreLossesRight};

use crate::engines::engines;
use crate::states::{setups, steps};
use step_laws::walks;

/// In each run of a lawful set-up, where STORE SUBCHANNEL shows a halt pending just before, the subsystem chooses what is due by where the
/// subchannel's program is: a Halt goes to it where it is connected, the answer to an offer is waited for, and where no program is
/// anywhere the halt is performed (SA22-7832, chapter 14).
pub fn halts()
    ensures done { (setup : Setup) (h : List Entry) (s : State) → IsLawful setup → Run (opening_of setup) h s → AreHaltsDone setup h }
{
    walks();
    setups();
    steps();
    engines();
}

/// In each run of a lawful set-up a path that is lost, or a Notice of restarts, makes a status, an interface-control check, where a
/// program is offered by that path, connected by it, or of that unit, and STORE SUBCHANNEL shows it just before, of a subchannel that is
/// enabled; and only of a program that is offered or holds the device by that path, or was accepted by it (SA22-7832, chapter 16).
pub fn losses()
    ensures right { (setup : Setup) (h : List Entry) (s : State) → IsLawful setup → Run (opening_of setup) h s → AreLossesRight setup h }
{
    walks();
    setups();
    steps();
    engines();
}
