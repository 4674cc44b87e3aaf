//! What is kept of each group of units, in a table by the group's number.

ghost use Rattle.std.specs.Prelude.{◌≡◌, ◌<◌, ◌≤◌, ◌^◌, IfOk, IfSome, OnOk, OnErr, cond, replicate, slice_get, true};
ghost use Rattle.control_units.specs.Groups as spec;

use memory::{Supply, make_room};
use std::alloc::{AllocError, Global};

/// What is kept of a group.
#[derive(Clone, Copy)]
pub struct Group {
    /// How many of its units are begun.
    pub begun: usize,
    /// One of its units was refused since a unit of it was over.
    pub refused: bool,
}

/// Entries for so many groups, of which no unit is begun or refused.
pub fn idle_groups<S: Supply>(
    alloc: Global,
    supply: &mut S,
    count: usize,
) -> Result<Vec<Group>, AllocError>
    ensures idle { IfOk result (λ groups. groups.items ≡ replicate count spec.idle_group) }
    ensures unrefused { OnOk result (S.refused supply.new ≡ S.refused supply.old) }
    ensures memory { OnErr result (S.refused supply.new ≡ true) }
{
    let idle = Group {
        begun: 0,
        refused: false,
    };
    let mut groups = Vec::new(alloc);
    make_room(supply, &mut groups, count)?;
    groups.resize(groups.len() + count, idle).unwrap();
    Ok(groups)
}

/// A unit of the group, which is begun or not as `before` says, comes to be so as `after` says. A number without an entry
/// changes nothing.
pub fn change_begun(groups: &mut Vec<Group>, number: u16, before: bool, after: bool)
    requires some { IfSome (slice_get groups.old.items number) (λ g. cond before 1 0 ≤ g.begun) }
    requires room { IfSome (slice_get groups.old.items number) (λ g. g.begun < 2 ^ 63) }
    ensures { groups.new.items ≡ spec.changed (spec.begun_changed before after) groups.old.items number }
{
    if let Some(group) = groups.get_mut(usize::from(number)) {
        group.begun = group.begun - usize::from(before) + usize::from(after);
    }
}

/// Notes whether a unit of the group was refused. A number without an entry changes nothing.
pub fn set_refused(groups: &mut Vec<Group>, number: u16, refused: bool)
    ensures { groups.new.items ≡ spec.changed (spec.with_refused refused) groups.old.items number }
{
    if let Some(group) = groups.get_mut(usize::from(number)) {
        group.refused = refused;
    }
}
