//! Condition codes are the manual's, and path resets, channel reports and interruptions are answered by what happened: by the
//! entries of every run.

ghost use Rattle.std.specs.Prelude.{List};
ghost use Rattle.chan_events.specs.declared.reply.Entry.{Entry};
ghost use Rattle.channel_config.specs.Setup.{Setup, set_count};
ghost use Rattle.machine_model.specs.State.{State, opening_of};
ghost use Rattle.machine_model.specs.Steps.{Run};
ghost use Rattle.run_laws.specs.PathReports.{AnswersByPaths};
ghost use Rattle.run_laws.specs.Codes.{AreCodesRight, AreThree};
ghost use Rattle.run_laws.specs.Interruptions.{IsAskedFor, IsGivenOnce, IsLowestFirst, IsOldestFirst};

use crate::states::{setups, steps};
use step_laws::walks;

/// In each run RESET CHANNEL PATH answers by which channel paths are up and which resets are asked for and not done, and STORE
/// CHANNEL REPORT WORD gives the oldest report that waits, or none (SA22-7832, chapters 14 and 17); a path that is back is
/// reported as the set-up says.
pub fn path_reports()
    ensures paths { (setup : Setup) (h : List Entry) (s : State) → Run (opening_of setup) h s → AnswersByPaths setup h }
{}

/// In each run an instruction on a subchannel answers the condition code of its table for the status that STORE SUBCHANNEL shows
/// just before, and 3 where its word names no subchannel that is configured (SA22-7832, chapter 14).
pub fn codes()
    ensures table { (setup : Setup) (h : List Entry) (s : State) → Run (opening_of setup) h s → AreCodesRight (set_count setup) h }
    ensures absent { (setup : Setup) (h : List Entry) (s : State) → Run (opening_of setup) h s → AreThree setup h }
{
    walks();
    setups();
    steps();
}

/// In each run TEST PENDING INTERRUPTION of all subclasses gives a request where one stands; it gives none of a subchannel of
/// which none stands; and of two that it gives right after each other the first is of the lower subclass, or of the same and
/// not the newer (SA22-7832, chapters 14 and 16).
pub fn requests()
    ensures asked { (setup : Setup) (h : List Entry) (s : State) → Run (opening_of setup) h s → IsAskedFor (set_count setup) h }
    ensures once { (setup : Setup) (h : List Entry) (s : State) → Run (opening_of setup) h s → IsGivenOnce setup h }
    ensures lowest { (setup : Setup) (h : List Entry) (s : State) → Run (opening_of setup) h s → IsLowestFirst h }
    ensures oldest { (setup : Setup) (h : List Entry) (s : State) → Run (opening_of setup) h s → IsOldestFirst setup h }
{
    walks();
    setups();
    steps();
    crate::answers::codes();
}
