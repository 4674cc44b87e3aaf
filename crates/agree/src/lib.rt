//! A unit and the one or two subchannels that reach it, over any list of events: signals are delivered in any order, again
//! and again, or lost, and paths go down and come up. Both sides agree after each event.
#![tactic(auto)]

ghost use Rattle.std.specs.Prelude.{◌≡◌, ℕ, Bool, true, List};
ghost use Rattle.storage_keys.specs.Storage.{Contents};
ghost use Rattle.chan_model.specs.Signals.{Up};
ghost use Rattle.subchannel_model.specs.declared.state.SubchannelState.{SubchannelState};
ghost use Rattle.subchannel_model.specs.Taking.{takes_up};
ghost use Rattle.agree.specs.Replies.{is_taken};
ghost use Rattle.agree.specs.BothAgree.{DoBothAgree};
ghost use Rattle.agree.specs.ByItsPath.{IsByItsPath};
ghost use Rattle.agree.specs.Histories.{entries_of};
ghost use Rattle.agree.specs.OneHolder.{HasOneHolder, IsBegunOnce};
ghost use Rattle.agree.specs.State.{WorldState, opening_world};
ghost use Rattle.agree.specs.Promises.{LeavesApart};
ghost use Rattle.agree.specs.Results.{world_after};
ghost use Rattle.agree.specs.declared.event.WorldEvent.{WorldEvent};

pub mod event;
mod line;
mod parts;
pub mod reply;
pub mod world;

use agreement_laws::{agreement, resets, rising};

/// An event at one side leaves the other as it was, from whatever state.
pub fn apart()
    ensures apart { (w : WorldState) (e : WorldEvent) → LeavesApart w e (world_after w e) }
{}

/// Of each list of events: what is taken of a program of a side, and what is sent to it, goes by the path of the last Accept or
/// Grant of that side, and at the device too.
pub fn by_its_path()
    ensures paths { (events : List WorldEvent) → IsByItsPath (entries_of opening_world events) }
{
    agreement();
    resets();
    rising();
}

/// Of each list of events: a unit accepts a program where none holds its device, takes signals of the program that holds it alone,
/// and answers each side under rising numbers.
pub fn one_holder()
    ensures one { (events : List WorldEvent) → HasOneHolder (entries_of opening_world events) }
    // So of one number at most one Accept is ever sent.
    ensures once { (events : List WorldEvent) → IsBegunOnce (entries_of opening_world events) }
{
    agreement();
    resets();
    rising();
}

/// Of each list of events: what a side takes of a program that it has connected, and what it sends to it, is of the program that
/// holds the device, and it offers one only where none of its programs does; but where the unit was restarted, and did not send
/// Cleared to the side since.
pub fn both_agree()
    ensures agree { (events : List WorldEvent) → DoBothAgree (entries_of opening_world events) }
{
    agreement();
    resets();
    rising();
}

/// What a subchannel takes, in whatever state, a side of a world takes too whose hold is the same. So a subchannel takes a Data by the
/// path and connection of its hold alone, as `by_its_path` says of a world. Over wires that keep their order no history of a machine
/// shows it, since no other Data comes there.
pub fn subchannel_takes()
    ensures taken { (returns : Bool) (storage : Contents) (s : SubchannelState) (p : ℕ) (x : Up) →
        (takes_up returns storage s p x).step.outcome.taken ≡ true → is_taken s.hold p x true ≡ true }
{}
