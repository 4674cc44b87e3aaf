//! Subsystem and device agree on the program that holds the device: by the entries of every run.

ghost use Rattle.std.specs.Prelude.{List};
ghost use Rattle.chan_events.specs.declared.reply.Entry.{Entry};
ghost use Rattle.channel_config.specs.Lawful.{IsLawful};
ghost use Rattle.channel_config.specs.Setup.{Setup};
ghost use Rattle.machine_model.specs.State.{State, opening_of};
ghost use Rattle.machine_model.specs.Steps.{Run};
ghost use Rattle.run_laws.specs.BothAgree.{DoBothAgree};
ghost use Rattle.run_laws.specs.Links.{KeepsLinks};
ghost use Rattle.run_laws.specs.OneHolder.{HasOneHolder};

use crate::engines::engines;
use crate::states::{agreements, reset_numbers, setups};
use step_laws::walks;

/// In each run of a lawful set-up what a unit does with each signal is what is due by the entries before: it accepts a program
/// exactly where none holds a device of its control unit, takes of the program that holds it the next Command, the Took and the
/// Give that its bytes wait for, the Grant or Refuse of the connection asked for and the first Halt, and answers its Release; it
/// takes each Reset that knows of all restarts and is above its side's number, and after a restart answers all else by Notice.
/// Each side's numbers rise, and what a device reports is of the program that holds it (own).
pub fn one_holder()
    ensures one { (setup : Setup) (h : List Entry) (s : State) → IsLawful setup → Run (opening_of setup) h s → HasOneHolder setup h }
{
    setups();
    reset_numbers();
}

/// In each run of a lawful set-up what a subchannel takes of a program that it has connected, and what it sends to it, is of the
/// program that holds the device, and it offers one only where none of its programs holds the device; but where the unit was
/// restarted and did not send Cleared to its side since (own).
pub fn both_agree()
    ensures agree { (setup : Setup) (h : List Entry) (s : State) → IsLawful setup → Run (opening_of setup) h s → DoBothAgree setup h }
{
    walks();
    setups();
    reset_numbers();
    agreements();
}

/// In each run of a lawful set-up the subsystem takes an answer to an offer, a Release or a Reset where it waits for it, and a
/// Notice of restarts that it does not know; it grants a reconnection to a program that is apart, offers where no program is
/// anywhere, halts a program that its device holds, and resets where CLEAR SUBCHANNEL, a reset of the subsystem, a Notice or a
/// lost path asks for it, before all else; under rising numbers, and by paths that are up (SA22-7832, chapter 15).
pub fn links()
    ensures links { (setup : Setup) (h : List Entry) (s : State) → IsLawful setup → Run (opening_of setup) h s → KeepsLinks setup h }
{
    walks();
    engines();
}
