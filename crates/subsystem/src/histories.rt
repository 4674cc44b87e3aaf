//! What holds of every history that leads to a state, gathered from the laws.

ghost use Rattle.std.specs.Prelude.{List};
ghost use Rattle.chan_events.specs.declared.reply.Entry.{Entry};
ghost use Rattle.machine_model.specs.State.{State};
ghost use Rattle.machine_model.specs.Steps.{HasRun};
ghost use Rattle.run_laws.specs.Agreeing.{AllAgree};
ghost use Rattle.run_laws.specs.Beginnings.{IsBegunOnce};
ghost use Rattle.run_laws.specs.StateClaims.{IsClearedOnce};
ghost use Rattle.subsystem.specs.Headline.{HasHeld};

use crate::seen::headline;
use run_laws::answers::codes;
use run_laws::beginnings::beginnings;
use run_laws::clearing::serials;
use run_laws::programs::programs;
use run_laws::states::{agreements, numbers};

/// Of each history that leads to a state: each status is cleared once, each start begins one program at most, subchannels and
/// units agree, and throughout the history the headline holds.
pub fn every_history()
    ensures cleared_once { (h : List Entry) (s : State) → HasRun h s → IsClearedOnce s.sets h }
    ensures begun_once { (h : List Entry) (s : State) → HasRun h s → IsBegunOnce s.sets h }
    ensures agree { (h : List Entry) (s : State) → HasRun h s → AllAgree s }
    ensures headline { (h : List Entry) (s : State) → HasRun h s → HasHeld h s }
{
    serials();
    beginnings();
    numbers();
    agreements();
    run_laws::states::ends();
    run_laws::engines::engines();
    run_laws::engines::path_states();
    run_laws::engines::offers();
    run_laws::engines::returns();
    codes();
    run_laws::answers::clearings();
    run_laws::answers::counts();
    run_laws::answers::resets();
    programs();
    headline();
}
