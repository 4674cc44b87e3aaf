//! What kinds of steps a channel subsystem takes: a theorem over its definitions alone.
#![tactic(auto)]

ghost use Rattle.std.specs.Prelude.{◌≡◌, length, map};
ghost use Rattle.chan_model.specs.declared.fault.Fault.TheVariants.{NoMemory};
ghost use Rattle.chan_events.specs.Events.{Event};
ghost use Rattle.chan_events.specs.Replies.{Reply};
ghost use Rattle.machine_model.specs.Setups.{group_of};
ghost use Rattle.machine_model.specs.State.{State};
ghost use Rattle.machine_model.specs.Steps.{IsRefused, Step};
ghost use Rattle.step_laws.specs.Walks.{Walked};

/// Each step is of one of these kinds: it leaves subchannels and units as they are, or changes one subchannel, one unit, one
/// subchannel and its unit, or every subchannel in one way.
pub fn walks()
    ensures each { (s : State) (e : Event) (r : Reply) (new : State) → Step s e r new → Walked s e r new }
{}

/// No step changes how many blocks of 4,096 bytes storage has: each has one key.
pub fn storage_blocks()
    ensures stay { (s : State) (e : Event) (r : Reply) (new : State) → Step s e r new → length new.storage.keys ≡ length s.storage.keys }
{}

/// No step changes which channel paths are configured, which units share a control unit, for how many requests of
/// subchannels there is room, or how a channel path that is back is reported.
pub fn stays_set_up()
    ensures chpids { (s : State) (e : Event) (r : Reply) (new : State) → Step s e r new → new.chpids ≡ s.chpids }
    ensures groups { (s : State) (e : Event) (r : Reply) (new : State) → Step s e r new → map group_of new.members ≡ map group_of s.members }
    ensures requests { (s : State) (e : Event) (r : Reply) (new : State) → Step s e r new → new.requests.numbers ≡ s.requests.numbers }
    ensures path_return { (s : State) (e : Event) (r : Reply) (new : State) → Step s e r new → new.path_return ≡ s.path_return }
{}

/// No event is refused for want of memory: the definitions take none.
pub fn refusals()
    ensures memory { (s : State) (e : Event) → ¬ IsRefused s e NoMemory }
{}
