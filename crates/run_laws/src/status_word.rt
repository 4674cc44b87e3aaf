//! The status word follows: functions, activity, causes, deferred codes and bytes, by what STORE SUBCHANNEL shows before and
//! after an entry of every run.

ghost use Rattle.std.specs.Prelude.{List};
ghost use Rattle.chan_events.specs.declared.reply.Entry.{Entry};
ghost use Rattle.channel_config.specs.Setup.{Setup, set_count};
ghost use Rattle.machine_model.specs.State.{State, opening_of};
ghost use Rattle.machine_model.specs.Steps.{Run};
ghost use Rattle.run_laws.specs.Choices.{AreChoicesRight};
ghost use Rattle.run_laws.specs.Deferred.{AreDeferredRight};
ghost use Rattle.run_laws.specs.Functions.{DoFunctionsFollow};
ghost use Rattle.run_laws.specs.Losses.{AreLossesShown};
ghost use Rattle.run_laws.specs.Serials.{AreMade, ArePendingShown};
ghost use Rattle.run_laws.specs.StatusBytes.{AreBytesRight};

use crate::states::{numbers, setups, steps};
use step_laws::walks;

/// In each run the functions and the activity that STORE SUBCHANNEL shows are those of the instructions that were accepted and
/// not tested, a choice leaves of the activity what its reply tells, no signal or lost path makes anything pending, and what
/// changes nothing of a subchannel leaves its status as it was (SA22-7832, chapters 14 and 16).
pub fn functions()
    ensures follow { (setup : Setup) (h : List Entry) (s : State) → Run (opening_of setup) h s → DoFunctionsFollow (set_count setup) h }
{
    walks();
    setups();
    steps();
}

/// In each run an entry makes as many statuses as its cause makes due, clears all or none, and changes what is shown beside only
/// as it makes one; and status is pending exactly where fewer were cleared than made (SA22-7832, chapters 14 and 16).
pub fn serials()
    ensures made { (setup : Setup) (h : List Entry) (s : State) → Run (opening_of setup) h s → AreMade (set_count setup) h }
    ensures pending { (setup : Setup) (h : List Entry) (s : State) → Run (opening_of setup) h s → ArePendingShown (set_count setup) h }
{
    walks();
    setups();
    steps();
    numbers();
}

/// In each run the subsystem chooses by the status that STORE SUBCHANNEL shows just before, and but where it makes status
/// pending leaves all of it but the halt that it sends and whether a path was not operational (SA22-7832, chapters 14 to 16).
pub fn choices()
    ensures reasons { (setup : Setup) (h : List Entry) (s : State) → Run (opening_of setup) h s → AreChoicesRight (set_count setup) h }
{
    walks();
    setups();
    steps();
}

/// In each run a status that an entry makes shows the deferred condition code that is due: 1 where attention, or the last status of
/// the program before, ends a start that STORE SUBCHANNEL showed to be pending just before, 3 where no path was found, zero of a
/// clear, and otherwise the one that was shown before; and only START, CLEAR and TEST SUBCHANNEL set it beside (SA22-7832, chapter
/// 16).
pub fn deferred_codes()
    ensures due { (setup : Setup) (h : List Entry) (s : State) → Run (opening_of setup) h s → AreDeferredRight (set_count setup) h }
{
    walks();
    setups();
    steps();
}

/// In each run a path that is lost, or a Notice of restarts, that makes no status of a subchannel that is enabled leaves its status
/// word as it was (SA22-7832, chapter 16).
pub fn losses()
    ensures silent { (setup : Setup) (h : List Entry) (s : State) → Run (opening_of setup) h s → AreLossesShown (set_count setup) h }
{
    walks();
    setups();
    steps();
}

/// In each run a status that an entry makes brings the device status and the subchannel status that are due, which join those that
/// are pending. An End after which nothing is chained brings its own device status, an incorrect length and the check that was kept;
/// attention hexadecimal 80; an interruption by the program, a lost path, a Notice, and a block that shows a check or can't be fetched
/// bring that of the subchannel; a halt, a suspension and a path that is not found bring none, and of a clear both are zero
/// (SA22-7832, chapter 16).
pub fn status_bytes()
    ensures due { (setup : Setup) (h : List Entry) (s : State) → Run (opening_of setup) h s → AreBytesRight (set_count setup) h }
{
    walks();
    setups();
    steps();
}
