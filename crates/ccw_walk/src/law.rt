//! What holds of all channel programs. Each is a law: a call does nothing.

ghost use Rattle.std.specs.Prelude.{◌≡◌, ℕ, ◌↔◌, Some, None, IsSome};
ghost use Rattle.orb_block.specs.declared.Orb.{Orb};
ghost use Rattle.storage_keys.specs.Storage.{Contents};
ghost use Rattle.ccw_walk.specs.Sequences.{Sequence, Nothing, ◌▸◌, ◌▸▸◌};
ghost use Rattle.ccw_walk.specs.Acts.{Act};
ghost use Rattle.ccw_walk.specs.Programs.{IsProgram};
ghost use Rattle.ccw_walk.specs.Positions.{WalkPosition, walk_position, after_act, after_acts};
ghost use Rattle.ccw_walk.specs.Fetching.{fetch_act};
ghost use Rattle.ccw_walk.specs.Advancing.{advance_of_act, advance_acts, advance_of_acts};

/// Where a program stands some acts further is where it stands after all that was done.
pub fn positions()
    ensures { (orb : Orb) (before acts : Sequence Act) → after_acts (walk_position orb before) acts ≡ walk_position orb (before ▸▸ acts) }
{}

/// A program goes on, where a block is next, to where it stands still: by one block where that is no
/// transfer in channel, and otherwise by one more.
pub fn advances()
    ensures one { (storage : Contents) (old : WalkPosition) (address : ℕ) → old.next ≡ Some address → let act = fetch_act storage old.orb old.role address in
        IsSome (advance_of_act old act) → advance_acts storage old ≡ Nothing ▸ act }
    ensures two { (storage : Contents) (old : WalkPosition) (address target : ℕ) → old.next ≡ Some address → let act = fetch_act storage old.orb old.role address in
        let middle = after_act old act in advance_of_act old act ≡ None → middle.next ≡ Some target → advance_acts storage old ≡ Nothing ▸ act ▸ fetch_act storage middle.orb middle.role target }
    ensures moves { (storage : Contents) (old : WalkPosition) (address : ℕ) → old.next ≡ Some address → let act = fetch_act storage old.orb old.role address in
        advance_of_act old act ≡ None → IsSome (after_act old act).next }
    ensures stands { (storage : Contents) (old : WalkPosition) → IsSome (advance_of_acts old (advance_acts storage old)) ↔ IsSome old.next }
{}

/// As a program goes on, each block is where what was done before says.
pub fn programs()
    ensures { (storage : Contents) (orb : Orb) (before : Sequence Act) → IsProgram orb before → IsProgram orb (before ▸▸ advance_acts storage (walk_position orb before)) }
{}
