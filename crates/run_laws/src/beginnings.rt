//! Each accepted start begins at most one program, its own, by a path that it may use: by the entries of every run.

ghost use Rattle.std.specs.Prelude.{List};
ghost use Rattle.chan_events.specs.declared.reply.Entry.{Entry};
ghost use Rattle.channel_config.specs.Lawful.{IsLawful};
ghost use Rattle.channel_config.specs.Setup.{Setup, set_count};
ghost use Rattle.run_laws.specs.Beginnings.{IsBegunOnce};
ghost use Rattle.machine_model.specs.State.{State, opening_of};
ghost use Rattle.machine_model.specs.Steps.{Run};
ghost use Rattle.run_laws.specs.BeginsItsOwn.{BeginsItsOwn};
ghost use Rattle.run_laws.specs.Dedicated.{OffersOnDedicated};
ghost use Rattle.run_laws.specs.Paths.{AreOffersLogical, ShowsLastUsed};

use crate::engines::offers;
use crate::states::{setups, steps};
use agreement_laws::{agreement, passing, resets};
use step_laws::walks;

/// Each START SUBCHANNEL (SA22-7832, chapter 14) begins at most one program at its device: after each run of a lawful
/// set-up the starts that began one, of each subchannel, rise.
pub fn beginnings()
    ensures once { (setup : Setup) (h : List Entry) (s : State) → IsLawful setup → Run (opening_of setup) h s → IsBegunOnce (set_count setup) h }
{
    walks();
    agreement();
    resets();
    passing();
}

/// In each run an Accept that is taken is answered by Release, or by the first command of its program; by Release alone where
/// since its offer a CANCEL SUBCHANNEL, HALT SUBCHANNEL or START SUBCHANNEL of its subchannel was answered with condition
/// code 0 (SA22-7832, chapters 14 and 15).
pub fn begins_its_own()
    ensures own { (setup : Setup) (h : List Entry) (s : State) → Run (opening_of setup) h s → BeginsItsOwn (set_count setup) h }
{
    walks();
}

/// In each run, after an End with unit check and until the device moves data or ends a command without it, or the subchannel is
/// cleared or reset, each offer is by the path of that End (SA22-7832, chapter 15, the dedicated allegiance).
pub fn dedicated_offers()
    ensures dedicated { (setup : Setup) (h : List Entry) (s : State) → Run (opening_of setup) h s → OffersOnDedicated (set_count setup) h }
{
    walks();
    offers();
}

/// In each run each program is offered, anew or resumed, by a path of the logical-path mask that STORE SUBCHANNEL shows just before
/// (SA22-7832, chapter 15).
pub fn logical_offers()
    ensures logical { (setup : Setup) (h : List Entry) (s : State) → Run (opening_of setup) h s → AreOffersLogical (set_count setup) h }
{
    walks();
    setups();
    steps();
}

/// In each run the last-path-used mask that STORE SUBCHANNEL shows is of the path by which an Accept was answered last, or a
/// reconnection granted, since the subchannel was cleared or reset; it is zero where there is none (SA22-7832, chapter 15).
pub fn last_used()
    ensures used { (setup : Setup) (h : List Entry) (s : State) → Run (opening_of setup) h s → ShowsLastUsed (set_count setup) h }
{
    walks();
    setups();
    steps();
}
