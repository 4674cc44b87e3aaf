//! What states keep along every run: numbers, set-ups, agreement of both sides, and how resets end.

ghost use Rattle.std.specs.List.{AllZip};
ghost use Rattle.std.specs.Prelude.{List, All, length, ◌≡◌, map, ◌++◌, ℕ};
ghost use Rattle.chan_events.specs.Events.{Event};
ghost use Rattle.chan_events.specs.Replies.{Reply};
ghost use Rattle.chan_events.specs.declared.reply.Entry.{Entry};
ghost use Rattle.channel_config.specs.Lawful.{IsLawful};
ghost use Rattle.channel_config.specs.Setup.{Setup};
ghost use Rattle.run_laws.specs.Agreeing.{AllAgree, LeadsToAgreed, AreAbove, HoldEndsByReset};
ghost use Rattle.run_laws.specs.StateClaims.{IsPendingUncleared, IsLaterSubchannel};
ghost use Rattle.run_laws.specs.Stores.{besides_stores};
ghost use Rattle.machine_model.specs.Bounds.{IsWithin, IsUnitWithin};
ghost use Rattle.machine_model.specs.Setups.{IsSetUp};
ghost use Rattle.machine_model.specs.State.{State, opening_of};
ghost use Rattle.machine_model.specs.Steps.{Run, Step};
ghost use Rattle.subchannel_model.specs.Losing.{loses};

use agreement_laws::{agreement, passing, resets, rising};
use data_move::law::command_numbers;
use step_laws::{stays_set_up, storage_blocks, walks};

/// After each run the numbers of each subchannel and of each unit (its chunks, connections, attentions and restarts) are at most
/// as many as there were events, those not counted that store bytes, keys or prefixes; and status of a subchannel is pending exactly
/// where some status that was made is not cleared.
pub fn numbers()
    ensures within { (setup : Setup) (h : List Entry) (s : State) → Run (opening_of setup) h s → All (IsWithin (length h)) s.subs }
    ensures units { (setup : Setup) (h : List Entry) (s : State) → Run (opening_of setup) h s → All (IsUnitWithin (length h)) s.units }
    ensures besides_stores { (setup : Setup) (h : List Entry) (s : State) → Run (opening_of setup) h s → All (IsWithin (besides_stores h)) s.subs }
    ensures units_besides_stores { (setup : Setup) (h : List Entry) (s : State) → Run (opening_of setup) h s → All (IsUnitWithin (besides_stores h)) s.units }
    ensures pending { (setup : Setup) (h : List Entry) (s : State) → Run (opening_of setup) h s → All IsPendingUncleared s.subs }
{
    walks();
    command_numbers();
}

/// No step changes how many sets there are. After each run no step changes which subchannels there are or how they are set
/// up, or lowers how many statuses one of them made or how many of these are cleared.
pub fn steps()
    ensures sets { (s : State) (e : Event) (r : Reply) (new : State) → Step s e r new → new.sets ≡ s.sets }
    ensures subs { (setup : Setup) (h : List Entry) (s : State) (e : Event) (r : Reply) (new : State) → Run (opening_of setup) h s →
        Step s e r new → AllZip IsLaterSubchannel s.subs new.subs }
{
    walks();
    command_numbers();
}

/// No step changes how the machine is set up: its subchannels and their order, its sets, its channel paths, its units and their
/// groups, how large storage is, for how many requests there is room, or how a channel path that is back is reported.
pub fn setups()
    ensures stay { (s : State) (e : Event) (r : Reply) (new : State) → Step s e r new → map (λ sub. sub.setup) new.subs ≡ map (λ sub. sub.setup) s.subs }
    ensures set_up { (setup : Setup) (s : State) (e : Event) (r : Reply) (new : State) → Step s e r new → IsSetUp setup s → IsSetUp setup new }
{
    walks();
    storage_blocks();
    stays_set_up();
}

/// After each run from the opening of a lawful set-up, each subchannel and its unit agree on the program that holds the
/// device, or a reset is due; and where both move data, it is by one path. The same holds of each state that a run passed.
pub fn agreements()
    ensures agree { (setup : Setup) (h : List Entry) (s : State) → IsLawful setup → Run (opening_of setup) h s → AllAgree s }
    ensures each { (setup : Setup) (h : List Entry) (later : List Entry) (s : State) → IsLawful setup → Run (opening_of setup) (h ++ later) s →
        LeadsToAgreed (opening_of setup) h }
{
    walks();
    agreement();
    resets();
    passing();
}

/// Where each subchannel loses any one channel path after a run, they agree still.
pub fn sweeps()
    ensures agree { (setup : Setup) (h : List Entry) (s : State) (chpid : ℕ) → IsLawful setup → Run (opening_of setup) h s →
        AllAgree (record s { subs = map (loses chpid) s.subs }) }
{
    walks();
    agreement();
    resets();
    passing();
}

/// After each run of a lawful set-up the first Reset that waits for a unit, where the unit would take it, is above its floor.
pub fn reset_numbers()
    ensures above { (setup : Setup) (h : List Entry) (s : State) → IsLawful setup → Run (opening_of setup) h s → AreAbove s }
{
    walks();
    agreement();
    resets();
    passing();
    rising();
}

/// After each run of a lawful set-up a reset that isn't yet taken ends in no step but one in which the unit takes it, and both
/// sides agree right after.
pub fn ends()
    ensures by_reset { (setup : Setup) (h : List Entry) (s : State) (e : Event) (r : Reply) (new : State) → IsLawful setup → Run (opening_of setup) h s →
        Step s e r new → HoldEndsByReset s e r new }
{
    walks();
    agreement();
    resets();
    passing();
}
