//! At most one TEST SUBCHANNEL clears each status: by the entries of every run.

ghost use Rattle.std.specs.Prelude.{List};
ghost use Rattle.chan_events.specs.declared.reply.Entry.{Entry};
ghost use Rattle.channel_config.specs.Setup.{Setup, set_count};
ghost use Rattle.run_laws.specs.StateClaims.{IsClearedOnce};
ghost use Rattle.machine_model.specs.State.{State, opening_of};
ghost use Rattle.machine_model.specs.Steps.{Run};

use data_move::law::command_numbers;
use step_laws::walks;

/// Of two TEST SUBCHANNEL instructions of one subchannel that answered condition code 0 (SA22-7832, chapter 14), the later
/// brought a greater count of statuses made: each status is cleared by at most one of them.
pub fn serials()
    ensures rises { (setup : Setup) (h : List Entry) (s : State) → Run (opening_of setup) h s → IsClearedOnce (set_count setup) h }
{
    walks();
    command_numbers();
}
