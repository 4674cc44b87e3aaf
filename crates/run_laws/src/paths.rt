//! No subchannel has two paths moving data: by the entries of every run.

ghost use Rattle.std.specs.Prelude.{List};
ghost use Rattle.chan_events.specs.declared.reply.Entry.{Entry};
ghost use Rattle.channel_config.specs.Lawful.{IsLawful};
ghost use Rattle.channel_config.specs.Setup.{Setup, set_count};
ghost use Rattle.machine_model.specs.State.{State, opening_of};
ghost use Rattle.machine_model.specs.Steps.{Run};
ghost use Rattle.run_laws.specs.ByItsPath.{IsByItsPath};
ghost use Rattle.run_laws.specs.DevicePaths.{HasOneWayEach};
ghost use Rattle.run_laws.specs.Engines.{HasOneEngine};

use crate::engines::engines;
use crate::states::{reset_numbers, setups};
use agreement_laws::{agreement, passing, resets, rising};
use step_laws::walks;

/// In each run of a lawful set-up what is taken of a subchannel's program, and what is sent to it in answer, goes by the path
/// of the last Accept or Grant, and nothing of it after a Leave or Release (SA22-7832, chapter 15).
pub fn by_its_path()
    ensures paths { (setup : Setup) (h : List Entry) (s : State) → IsLawful setup → Run (opening_of setup) h s → IsByItsPath (set_count setup) h }
{
    walks();
    agreement();
    resets();
    passing();
    rising();
}

/// In each run of a lawful set-up what comes up or down under a number and a connection, whether it is taken or not, comes by the
/// path of the Accept or the Ask that drew this connection; and a unit takes a Give where its program is connected by the path
/// of that Give (SA22-7832, chapter 15, the working allegiance; the connections are this project's own).
pub fn device_paths()
    ensures ways { (setup : Setup) (h : List Entry) (s : State) → IsLawful setup → Run (opening_of setup) h s → HasOneWayEach setup h }
{
    setups();
    reset_numbers();
}

/// In each run of a lawful set-up offers and Grants go by a path whose engine serves no subchannel; each engine serves one
/// subchannel at most, on a path that is up, and STORE CHANNEL PATH STATUS shows just those that do (SA22-7832, chapters 14
/// and 15).
pub fn one_engine()
    ensures one { (setup : Setup) (h : List Entry) (s : State) → IsLawful setup → Run (opening_of setup) h s → HasOneEngine setup h }
{
    walks();
    engines();
}
