//! What a step answers, clears, resets and counts: theorems about each step of every run.

ghost use Rattle.chan_events.specs.Events.{Event};
ghost use Rattle.chan_events.specs.Replies.{Reply};
ghost use Rattle.run_laws.specs.Clearing.{ClearsByCause};
ghost use Rattle.run_laws.specs.CodeSteps.{IsByTable};
ghost use Rattle.run_laws.specs.Counts.{CountsByStatus};
ghost use Rattle.run_laws.specs.Resets.{ResetsByCause, StaysReset};
ghost use Rattle.machine_model.specs.State.{State};
ghost use Rattle.machine_model.specs.Steps.{Step};

use step_laws::walks;

/// Each instruction answers the condition code that its table gives for what it finds (SA22-7832, chapter 14).
pub fn codes()
    ensures table { (s : State) (e : Event) (r : Reply) (new : State) → Step s e r new → IsByTable s e r new }
{}

/// Nothing moves what is cleared of a subchannel but TEST and CLEAR SUBCHANNEL with code 0, a HALT SUBCHANNEL that drops an
/// intermediate status, and a reset of the subsystem (SA22-7832, chapters 14, 16 and 17).
pub fn clearings()
    ensures cause { (s : State) (e : Event) (r : Reply) (new : State) → Step s e r new → ClearsByCause s e r new }
{
    walks();
}

/// A hold is to be reset by one of the listed causes alone, and stays so until its Cleared comes or a newer reset.
pub fn resets()
    ensures cause { (s : State) (e : Event) (r : Reply) (new : State) → Step s e r new → ResetsByCause s e r new }
    ensures stays { (s : State) (e : Event) (r : Reply) (new : State) → Step s e r new → StaysReset s e r new }
{
    walks();
}

/// The count of a subchannel moves as status is made, or to zero, as START SUBCHANNEL with code 0 leaves it (SA22-7832, chapter
/// 16).
pub fn counts()
    ensures status { (s : State) (e : Event) (r : Reply) (new : State) → Step s e r new → CountsByStatus s e r new }
{
    walks();
}
