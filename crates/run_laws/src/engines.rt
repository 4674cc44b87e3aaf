//! What states keep of the channel paths along every run: engines, masks, offers and reconnections.

ghost use Rattle.std.specs.Prelude.{ℕ, List};
ghost use Rattle.chan_events.specs.Events.{Event};
ghost use Rattle.chan_events.specs.Replies.{Reply};
ghost use Rattle.chan_events.specs.declared.reply.Entry.{Entry};
ghost use Rattle.channel_config.specs.Lawful.{IsLawful};
ghost use Rattle.channel_config.specs.Setup.{Setup};
ghost use Rattle.run_laws.specs.OneEngine.{IsAlone, IsOnePath};
ghost use Rattle.run_laws.specs.Returns.{OffersOnDedicated, ReturnsByFirst};
ghost use Rattle.run_laws.specs.MaskStates.{AreShown};
ghost use Rattle.machine_model.specs.State.{State, opening_of};
ghost use Rattle.machine_model.specs.Steps.{Step, Run};

use step_laws::walks;

/// After each run of a lawful set-up each engine serves one subchannel at most, each subchannel is served by one engine at
/// most, that of a path that is available, and each device moves data by one path at most (SA22-7832, chapter 15). An engine
/// that serves one subchannel at most does so after each step, whatever led to the state.
pub fn engines()
    ensures one { (setup : Setup) (h : List Entry) (s : State) → IsLawful setup → Run (opening_of setup) h s → IsOnePath s }
    ensures alone { (s : State) (e : Event) (r : Reply) (new : State) (chpid : ℕ) → Step s e r new → IsAlone chpid s.subs → IsAlone chpid new.subs }
{
    walks();
}

/// After each run of a lawful set-up the path-available mask of each subchannel shows which of its paths are up, and no
/// signal waits on one that is down (SA22-7832, chapter 15).
pub fn path_states()
    ensures shown { (setup : Setup) (h : List Entry) (s : State) → IsLawful setup → Run (opening_of setup) h s → AreShown s }
{
    walks();
}

/// While a dedicated allegiance stands, each offer is on its path (SA22-7832, chapter 15).
pub fn offers()
    ensures dedicated { (s : State) (e : Event) (r : Reply) (new : State) → Step s e r new → OffersOnDedicated s e r }
{
    walks();
}

/// In single-path mode each granted reconnection is by the path of the first Accept since the program was started or resumed
/// (SA22-7832, chapter 15).
pub fn returns()
    ensures first { (setup : Setup) (h : List Entry) (s : State) (run : Run (opening_of setup) h s) (e : Event) (r : Reply) (new : State) →
        IsLawful setup → Step s e r new → ReturnsByFirst (opening_of setup) h s run e r }
{
    walks();
}
