//! Room for lists from a supply, of which contracts see whether it refused a growth.
//! A call that answers want of memory only where its supply refused cannot answer it for another reason.
#![tactic(auto)]

ghost use Rattle.std.specs.Prelude.{◌≡◌, ◌<◌, ◌≤◌, ◌+◌, ◌-◌, ◌++◌, ◌∷◌, [], Bool, true, OnOk, OnErr, vec_len, vec_capacity, length};
ghost use Rattle.memory.specs.Requests.{IsModest};

use std::alloc::AllocError;

/// How many items room is asked for at a time: the most that one request may ask for.
const PORTION: usize = 0x100_0000;

/// Room for lists. That it refused a growth can be seen from then on.
pub trait Supply {
    ghost use Rattle.std.specs.Prelude.{Bool};

    // A growth was refused.
    ghost refused: { Self → Bool };

    /// Room for so many items more than the list has. They are at most 16,777,216 more than there is room for. Where it is
    /// refused the list has the room that it had.
    fn reserve<T>(&mut self, list: &mut Vec<T>, more: usize) -> Result<(), AllocError>
    where
        Self: Sized,
        requires modest { IsModest (more - (vec_capacity list.old - vec_len list.old)) }
        ensures items { list.new.items ≡ list.old.items }
        ensures len { vec_len list.new ≡ vec_len list.old }
        ensures kept { vec_capacity list.old ≤ vec_capacity list.new }
        ensures stays { OnErr result (vec_capacity list.new ≡ vec_capacity list.old) }
        ensures room { OnOk result (vec_len list.new + more ≤ vec_capacity list.new) }
        ensures unrefused { OnOk result (refused self.new ≡ refused self.old) }
        ensures taken { OnErr result (refused self.new ≡ true) };
}

/// What the allocator has.
#[derive(Drop)]
pub struct Allocator {
    /// The allocator refused a growth.
    pub refused: bool,
}

impl Supply for Allocator {
    ghost refused = { λ g. g.refused };

    fn reserve<T>(&mut self, list: &mut Vec<T>, more: usize) -> Result<(), AllocError> {
        let result = list.reserve(more);
        if result.is_err() {
            self.refused = true;
        }
        result
    }
}

/// Grants so many requests and refuses those that follow: a call over each number in turn meets each refusal that it can
/// meet.
#[derive(Drop)]
pub struct FailingMemory {
    /// How many requests are granted still.
    pub left: u64,
    /// A growth was refused.
    pub refused: bool,
}

impl Supply for FailingMemory {
    ghost refused = { λ g. g.refused };

    fn reserve<T>(&mut self, list: &mut Vec<T>, more: usize) -> Result<(), AllocError>
        ensures items { list.new.items ≡ list.old.items }
        ensures len { vec_len list.new ≡ vec_len list.old }
        ensures kept { vec_capacity list.old ≤ vec_capacity list.new }
        ensures stays { OnErr result (vec_capacity list.new ≡ vec_capacity list.old) }
        ensures room { OnOk result (vec_len list.new + more ≤ vec_capacity list.new) }
        ensures unrefused { OnOk result (self.new.refused ≡ self.old.refused) }
        ensures taken { OnErr result (self.new.refused ≡ true) }
        ensures counts { OnOk result (self.old.left ≡ self.new.left + 1) }
    {
        if self.left == 0 || list.reserve(more).is_err() {
            self.refused = true;
            return Err(AllocError);
        }
        self.left -= 1;
        Ok(())
    }
}

/// Room for so many items more than the list has, however many. The supply is asked once for every 16,777,216 of them, or
/// fewer that are left. Where it refuses, the list keeps what room it has by then.
pub fn make_room<S: Supply, T: Drop>(
    supply: &mut S,
    list: &mut Vec<T>,
    count: usize,
) -> Result<(), AllocError>
    ensures items { list.new.items ≡ list.old.items }
    ensures kept { vec_capacity list.old ≤ vec_capacity list.new }
    ensures room { OnOk result (vec_len list.new + count ≤ vec_capacity list.new) }
    ensures asked { OnErr result (0 < count) }
    ensures unrefused { OnOk result (S.refused supply.new ≡ S.refused supply.old) }
    ensures taken { OnErr result (S.refused supply.new ≡ true) }
{
    let mut room = 0;
    while room < count {
        room += (count - room).min(PORTION);
        supply.reserve(list, room)?;
    }
    Ok(())
}

/// Room for so many items more than the list has: the supply is asked only where there is less. Where it refuses, the list
/// has the room that it had, which was too little.
#[inline(always)]
pub fn ensure_room<S: Supply, T: Drop>(
    supply: &mut S,
    list: &mut Vec<T>,
    more: usize,
) -> Result<(), AllocError>
    requires modest { IsModest more }
    ensures items { list.new.items ≡ list.old.items }
    ensures len { vec_len list.new ≡ vec_len list.old }
    ensures kept { vec_capacity list.old ≤ vec_capacity list.new }
    ensures stays { OnErr result (vec_capacity list.new ≡ vec_capacity list.old) }
    ensures room { OnOk result (vec_len list.new + more ≤ vec_capacity list.new) }
    ensures full { OnErr result (vec_capacity list.old < vec_len list.old + more) }
    ensures unrefused { OnOk result (S.refused supply.new ≡ S.refused supply.old) }
    ensures taken { OnErr result (S.refused supply.new ≡ true) }
{
    if more <= list.capacity() - list.len() {
        return Ok(());
    }
    supply.reserve(list, more)
}

/// One item more. Where the growth is refused the items stay and the new one is lost.
pub fn push<S: Supply, T: Drop>(
    supply: &mut S,
    list: &mut Vec<T>,
    item: T,
) -> Result<(), AllocError>
    ensures pushed { OnOk result (list.new.items ≡ list.old.items ++ item ∷ []) }
    ensures kept { OnErr result (list.new.items ≡ list.old.items) }
    ensures unrefused { OnOk result (S.refused supply.new ≡ S.refused supply.old) }
    ensures taken { OnErr result (S.refused supply.new ≡ true) }
{
    supply.reserve(list, 1)?;
    put(list, item);
    Ok(())
}

/// Adds an item, for which there is room.
fn put<T: Drop>(list: &mut Vec<T>, item: T)
    requires { vec_len list.old < vec_capacity list.old }
    ensures { list.new.items ≡ list.old.items ++ item ∷ [] }
{
    list.push(item).unwrap();
}

/// These bytes more, which are at most 16,777,216. Where the growth is refused the bytes stay as they were.
pub fn extend<S: Supply>(supply: &mut S, list: &mut Vec<u8>, bytes: &[u8]) -> Result<(), AllocError>
    requires modest { IsModest (length bytes.now) }
    ensures extended { OnOk result (list.new.items ≡ list.old.items ++ bytes.now) }
    ensures kept { OnErr result (list.new.items ≡ list.old.items) }
    ensures unrefused { OnOk result (S.refused supply.new ≡ S.refused supply.old) }
    ensures taken { OnErr result (S.refused supply.new ≡ true) }
{
    supply.reserve(list, bytes.len())?;
    put_bytes(list, bytes);
    Ok(())
}

/// Adds bytes, for which there is room.
fn put_bytes(list: &mut Vec<u8>, bytes: &[u8])
    requires { vec_len list.old + length bytes.now ≤ vec_capacity list.old }
    ensures { list.new.items ≡ list.old.items ++ bytes.now }
{
    list.extend_from_slice(bytes).unwrap();
}
