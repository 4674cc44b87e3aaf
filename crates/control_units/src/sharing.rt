//! Groups of units of which one is served at a time.

ghost use Rattle.std.specs.Prelude.{◌≡◌, ◌<◌, ◌≤◌, IfOk, OnOk, OnErr, Some, length, map, slice_get, true, false};
ghost use Rattle.std.specs.List.{list_any};
ghost use Rattle.control_units.specs.Groups.{AreGroupsOf, begun_as};
ghost use Rattle.control_units.specs.Units as spec;

use crate::groups::{Group, change_begun, idle_groups, set_refused};
use crate::{ControlUnit, Member};
use memory::{Allocator, Supply, push};
use std::alloc::{AllocError, Global};
use std::marker::Model;

/// Groups of units of which one is served at a time (own).
#[derive(Drop)]
pub struct Sharing {
    members: Vec<Member>,
    /// What is kept of each group, by its number. A group of a number beyond them is searched for among the members.
    groups: Vec<Group>,
}

impl Model for Sharing {
    ghost use Rattle.std.specs.Prelude.{List};
    ghost use Rattle.control_units.specs.declared.Member.{Member};
    ghost use Rattle.control_units.specs.Groups.{AreGroupsOf};

    ghost Value = { List Member };

    ghost view = { λ s. s.members.items };

    ghost invariant = { λ s. AreGroupsOf s.members.items s.groups.items };
}

impl Sharing {
    /// Units of these groups, by their numbers; none is begun. Units of the same group share.
    pub fn new(alloc: Global, groups: &[u16]) -> Result<Sharing, AllocError>
        ensures { IfOk result (λ sharing. sharing ≡ map spec.idle_member groups.now) }
    {
        Sharing::new_with(alloc, &mut Allocator { refused: false }, groups)
    }

    /// Units of these groups, by their numbers, in what room a supply has; none is begun. Where the supply refuses a
    /// growth, and only there, it is not made.
    pub fn new_with<S: Supply>(
        alloc: Global,
        supply: &mut S,
        groups: &[u16],
    ) -> Result<Sharing, AllocError>
        ensures made { IfOk result (λ sharing. sharing ≡ map spec.idle_member groups.now) }
        ensures unrefused { OnOk result (S.refused supply.new ≡ S.refused supply.old) }
        ensures memory { OnErr result (S.refused supply.new ≡ true) }
    {
        Ok(Sharing {
            members: idle_members(alloc, supply, groups)?,
            groups: idle_groups(alloc, supply, groups.len())?,
        })
    }
}

impl ControlUnit for Sharing {
    ghost members = { λ s. s };

    /// Whether no other unit of its group is begun. A number that is no unit's may be served.
    fn may_serve(&mut self, unit: u16) -> bool
        ensures law { spec.any_other spec.is_begun self.old «unit» ≡ false → result ≡ true }
        ensures known { length self.old ≤ «unit» → result ≡ true }
        ensures asked { self.new ≡ spec.asked self.old «unit» result }
        ensures serves { result ≡ spec.may_serve self.old «unit» }
    {
        let may = may_serve(&self.members, &self.groups, usize::from(unit));
        if !may {
            refuse(&mut self.members, &mut self.groups, unit);
        }
        may
    }

    fn begin(&mut self, unit: u16) {
        set_begun(&mut self.members, &mut self.groups, unit, true);
    }

    fn over(&mut self, unit: u16) -> bool {
        end(&mut self.members, &mut self.groups, unit)
    }
}

/// Whether no other unit of the group of the unit at this index is begun.
fn may_serve(members: &[Member], groups: &[Group], index: usize) -> bool
    requires { AreGroupsOf members.now groups.now }
    ensures serves { result ≡ spec.may_serve_at members.now index (slice_get members.now index) }
    ensures law { spec.any_other spec.is_begun members.now index ≡ false → result ≡ true }
    ensures known { length members.now ≤ index → result ≡ true }
{
    match members.get(index) {
        Some(member) => !has_other_begun(members, groups, index, *member),
        None => true,
    }
}

/// Whether another unit of the group of this unit, whose index is given, is begun.
fn has_other_begun(members: &[Member], groups: &[Group], index: usize, member: Member) -> bool
    requires within { index < length members.now }
    requires here { slice_get members.now index ≡ Some member }
    requires groups { AreGroupsOf members.now groups.now }
    ensures begun { result ≡ spec.any_other (spec.is_begun_in member.group) members.now index }
    ensures law { spec.any_other spec.is_begun members.now index ≡ false → result ≡ false }
{
    match groups.get(usize::from(member.group)) {
        Some(group) => group.begun != usize::from(member.begun),
        None => finds_other_begun(members, index, member.group),
    }
}

/// Whether a unit of the group at another index is begun, by a search.
fn finds_other_begun(members: &[Member], index: usize, group: u16) -> bool
    requires { index < length members.now }
    ensures begun { result ≡ spec.any_other (spec.is_begun_in group) members.now index }
{
    has_begun(&members[..index], group) || has_begun(&members[index + 1..], group)
}

/// Whether a unit of the group is begun.
fn has_begun(members: &[Member], group: u16) -> bool
    ensures { result ≡ list_any (spec.is_begun_in group) members.now }
{
    members
        .iter()
        .any(|member| member.begun && member.group == group)
}

/// Whether a unit of the group was refused.
fn has_refused(members: &[Member], group: u16) -> bool
    ensures { result ≡ list_any (spec.is_refused_in group) members.now }
{
    members
        .iter()
        .any(|member| member.refused && member.group == group)
}

/// Whether a unit of the group was refused; its entry says so, where there is one.
fn was_refused(members: &[Member], groups: &[Group], group: u16) -> bool
    requires { AreGroupsOf members.now groups.now }
    ensures { result ≡ list_any (spec.is_refused_in group) members.now }
{
    match groups.get(usize::from(group)) {
        Some(kept) => kept.refused,
        None => has_refused(members, group),
    }
}

/// Notes that the unit was refused.
fn refuse(members: &mut Vec<Member>, groups: &mut Vec<Group>, unit: u16)
    requires { AreGroupsOf members.old.items groups.old.items }
    ensures refused { members.new.items ≡ spec.asked members.old.items «unit» false }
    ensures groups { AreGroupsOf members.new.items groups.new.items }
{
    let Some(member) = members.get(usize::from(unit)) else {
        return;
    };
    set_refused(groups, member.group, true);
    mark_refused(members, unit);
}

/// The unit was refused.
fn mark_refused(members: &mut Vec<Member>, unit: u16)
    ensures { members.new.items ≡ spec.asked members.old.items «unit» false }
{
    if let Some(member) = members.get_mut(usize::from(unit)) {
        member.refused = true;
    }
}

/// The unit is begun, or it is not any more.
fn set_begun(members: &mut Vec<Member>, groups: &mut Vec<Group>, unit: u16, begun: bool)
    requires { AreGroupsOf members.old.items groups.old.items }
    ensures begun { members.new.items ≡ begun_as begun members.old.items «unit» (slice_get members.old.items «unit») }
    ensures groups { AreGroupsOf members.new.items groups.new.items }
{
    let Some(member) = members.get(usize::from(unit)) else {
        return;
    };
    change_begun(groups, member.group, member.begun, begun);
    mark_begun(members, unit, begun);
}

/// The unit is begun, or it is not.
fn mark_begun(members: &mut Vec<Member>, unit: u16, begun: bool)
    ensures { members.new.items ≡ begun_as begun members.old.items «unit» (slice_get members.old.items «unit») }
{
    if let Some(member) = members.get_mut(usize::from(unit)) {
        member.begun = begun;
    }
}

/// The unit is over. Answers whether some unit of its group was refused.
fn end(members: &mut Vec<Member>, groups: &mut Vec<Group>, unit: u16) -> bool
    requires { AreGroupsOf members.old.items groups.old.items }
    ensures owed { result ≡ spec.is_owed_at members.old.items (slice_get members.old.items «unit») }
    ensures over { members.new.items ≡ spec.over_at members.old.items «unit» (slice_get members.old.items «unit») }
    ensures groups { AreGroupsOf members.new.items groups.new.items }
{
    let Some(member) = members.get(usize::from(unit)) else {
        return false;
    };
    let group = member.group;
    set_begun(members, groups, unit, false);
    inform_group(members, groups, group)
}

/// No unit of the group is refused any more. Answers whether one was.
fn inform_group(members: &mut Vec<Member>, groups: &mut Vec<Group>, group: u16) -> bool
    requires { AreGroupsOf members.old.items groups.old.items }
    ensures owed { result ≡ list_any (spec.is_refused_in group) members.old.items }
    ensures informed { members.new.items ≡ map (spec.member_informed group) members.old.items }
    ensures groups { AreGroupsOf members.new.items groups.new.items }
{
    if !was_refused(members, groups, group) {
        return false;
    }
    inform_all(members, group);
    set_refused(groups, group, false);
    true
}

/// No unit of the group is refused any more.
fn inform_all(members: &mut Vec<Member>, group: u16)
    ensures { members.new.items ≡ map (spec.member_informed group) members.old.items }
{
    inform(members.as_mut_slice(), group);
}

/// No unit of the group among these is refused any more.
fn inform(members: &mut [Member], group: u16)
    ensures { members.new ≡ map (spec.member_informed group) members.old }
{
    for member in members.iter_mut() {
        tell_one(member, group);
    }
}

/// A unit of the group is not refused any more.
fn tell_one(member: &mut Member, group: u16)
    ensures { member.new ≡ spec.member_informed group member.old }
{
    if member.group == group {
        member.refused = false;
    }
}

/// Units of these groups; none is begun.
fn idle_members<S: Supply>(
    alloc: Global,
    supply: &mut S,
    groups: &[u16],
) -> Result<Vec<Member>, AllocError>
    ensures idle { IfOk result (λ members. members.items ≡ map spec.idle_member groups.now) }
    ensures unrefused { OnOk result (S.refused supply.new ≡ S.refused supply.old) }
    ensures memory { OnErr result (S.refused supply.new ≡ true) }
{
    let mut members = Vec::new(alloc);
    for group in groups {
        let member = Member {
            group: *group,
            begun: false,
            refused: false,
        };
        push(supply, &mut members, member)?;
    }
    Ok(members)
}
