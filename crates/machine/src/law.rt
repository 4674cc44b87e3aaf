//! What a turn of a channel path's worker comes to: a theorem over the definitions alone.

ghost use Rattle.std.specs.Prelude.{◌≡◌, ◌≢◌, ℕ, None, Some};
ghost use Rattle.chan_events.specs.declared.event.Event.TheVariants as event_spec;
ghost use Rattle.chan_events.specs.Replies.{Reply};
ghost use Rattle.chan_events.specs.declared.reply.Reply.TheVariants as reply_spec;
ghost use Rattle.machine_model.specs.State.{State, sub_of};
ghost use Rattle.machine_model.specs.Steps.{Step};
ghost use Rattle.signal_step.specs.PathTurns.{path_turn_of};
ghost use Rattle.subchannel_model.specs.Losing.{path_index};
ghost use Rattle.subchannel_model.specs.declared.state.Subchannel.{Subchannel};

/// A Choose that a turn gives finds something to do, whichever path is chosen. Where the subchannel has the path and the turn
/// gives nothing, a Choose would find nothing.
pub fn path_turns()
    ensures chooses { (s : State) (word chpid asked : ℕ) (r : Reply) (new : State) → path_turn_of s word chpid ≡ Some (event_spec.Choose asked) →
        Step s (event_spec.Choose asked) r new → r ≢ reply_spec.Idle }
    ensures rests { (s : State) (word chpid path : ℕ) (sub : Subchannel) (r : Reply) (new : State) → sub_of s word ≡ Some sub →
        path_index chpid sub.setup.paths ≡ Some path → path_turn_of s word chpid ≡ None → Step s (event_spec.Choose word) r new → r ≡ reply_spec.Idle }
{}
