//! The links of all numbers.

ghost use Rattle.std.specs.Prelude.{◌≡◌, ◌<◌, ◌+◌, length, vec_len, vec_capacity, IfOk, OnOk, OnErr, true};
ghost use Rattle.std.specs.List.{range_with_len};
ghost use Rattle.interruptions.specs.Circles as spec;
ghost use Rattle.interruptions.specs.Paths as paths;

use memory::{Supply, make_room};
use std::alloc::{AllocError, Global};
use std::marker::Model;

/// Each number below a count has one that is next and one that was before. A number that stands in no circle with others is
/// alone: next to itself, and before itself. Some numbers may stand for circles, and be alone while these are empty.
#[derive(Drop)]
pub struct Links {
    next: Vec<u32>,
    former: Vec<u32>,
}

impl Model for Links {
    ghost use Rattle.interruptions.specs.Circles.{AreLinked, Circles};

    ghost Value = { Circles };

    ghost view = { λ l. record { next = l.next.items; former = l.former.items } };

    ghost invariant = { λ l. AreLinked l.next.items l.former.items };
}

impl Links {
    /// The numbers below `count`, each alone. An error comes where the supply refuses the room for them, and only there.
    pub fn new_with<S: Supply>(
        alloc: Global,
        supply: &mut S,
        count: u32,
    ) -> Result<Self, AllocError>
        ensures alone { IfOk result (λ links. spec.AreAlone count links) }
        ensures unrefused { OnOk result (S.refused supply.new ≡ S.refused supply.old) }
        ensures memory { OnErr result (S.refused supply.new ≡ true) }
    {
        let next = numbers_below(alloc, supply, count)?;
        let former = numbers_below(alloc, supply, count)?;
        Ok(Links { next, former })
    }

    /// The number that is next: the first of the circle of this one, or this one itself where it is alone.
    pub fn next(&self, number: u32) -> u32
        requires { number < length self.now.next }
        ensures next { result ≡ spec.next_of self.now number }
        ensures within { result < length self.now.next }
    {
        self.next[number as usize]
    }

    /// Puts a number that is alone into the circle of another, before that one: behind all that stand there.
    pub fn push(&mut self, at: u32, number: u32)
        requires at { at < length self.old.next }
        requires number { number < length self.old.next }
        ensures links { self.new ≡ spec.pushed self.old at number }
        ensures circles { paths.IsPut self.old at number self.new }
    {
        let last = self.former[at as usize];
        self.next[last as usize] = number;
        self.next[number as usize] = at;
        self.former[number as usize] = last;
        self.former[at as usize] = number;
    }

    /// Takes a number out of its circle, whose others stay in order. From then on it is alone.
    pub fn take(&mut self, number: u32)
        requires { number < length self.old.next }
        ensures links { self.new ≡ spec.taken self.old number }
        ensures circles { paths.IsTaken self.old number self.new }
    {
        let next = self.next[number as usize];
        let former = self.former[number as usize];
        self.next[former as usize] = next;
        self.former[next as usize] = former;
        self.next[number as usize] = number;
        self.former[number as usize] = number;
    }
}

/// The numbers below `count`, in order.
fn numbers_below<S: Supply>(
    alloc: Global,
    supply: &mut S,
    count: u32,
) -> Result<Vec<u32>, AllocError>
    ensures numbers { IfOk result (λ numbers. numbers.items ≡ range_with_len 0 count) }
    ensures unrefused { OnOk result (S.refused supply.new ≡ S.refused supply.old) }
    ensures memory { OnErr result (S.refused supply.new ≡ true) }
{
    let mut numbers = Vec::new(alloc);
    make_room(supply, &mut numbers, count as usize)?;
    for number in 0..count {
        numbers.push(number).unwrap();
    }
    Ok(numbers)
}
