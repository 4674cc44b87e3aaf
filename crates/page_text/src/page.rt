//! A page in the making.

ghost use Rattle.std.specs.Prelude.{◌≡◌, ◌<◌, ◌++◌, length, OnOk, OnErr, IfOk, true, false, None};
ghost use Rattle.page_text.specs.Marks as spec;
ghost use Rattle.page_text.specs.Pages.{IsPage, Grows, PutsPage};
ghost use Rattle.page_text.specs.Escapes.{escaped};

use crate::escape::add_escaped;
use crate::marks::Mark;
use memory::{Supply, extend};
use std::alloc::{AllocError, Global};
use streams::Sink;

/// A page of HTML in the making. It grows by markup and by texts that it shows, and by nothing else; what is put into it as into
/// a sink is shown. Where a growth is refused it forgets all, and stays empty.
#[derive(Drop)]
pub struct Page<'m, M: Supply> {
    supply: &'m mut M,
    pub(crate) text: Vec<u8>,
    pub(crate) refused: bool,
    ghost made: { ∥ IsPage text.items ∥₁ },
    ghost honest: { refused ≡ true → M.refused supply.now ≡ true },
}

/// Adds a name between two texts.
fn add_between<M: Supply>(
    supply: &mut M,
    page: &mut Vec<u8>,
    front: &[u8],
    name: &[u8],
    back: &[u8],
) -> Result<(), AllocError>
    requires front { length front.now < 16 }
    requires name { length name.now < 16 }
    requires back { length back.now < 16 }
    ensures added { OnOk result (page.new.items ≡ page.old.items ++ (front.now ++ name.now ++ back.now)) }
    ensures unrefused { OnOk result (M.refused supply.new ≡ M.refused supply.old) }
    ensures taken { OnErr result (M.refused supply.new ≡ true) }
{
    extend(supply, page, front)?;
    extend(supply, page, name)?;
    extend(supply, page, back)
}

/// Adds a piece of markup.
fn add_mark<M: Supply>(supply: &mut M, page: &mut Vec<u8>, mark: Mark) -> Result<(), AllocError>
    ensures added { OnOk result (page.new.items ≡ page.old.items ++ spec.mark_text mark) }
    ensures unrefused { OnOk result (M.refused supply.new ≡ M.refused supply.old) }
    ensures taken { OnErr result (M.refused supply.new ≡ true) }
{
    match mark {
        Mark::Doctype => extend(supply, page, b"<!doctype html>"),
        Mark::Begin(tag) => add_between(supply, page, b"<", tag.name(), b""),
        Mark::Attribute(attribute) => add_between(supply, page, b" ", attribute.name(), b"=\""),
        Mark::Quote => extend(supply, page, b"\""),
        Mark::Inside => extend(supply, page, b">"),
        Mark::End(tag) => add_between(supply, page, b"</", tag.name(), b">"),
    }
}

impl<'m, M: Supply> Page<'m, M> {
    /// A page that has nothing yet.
    #[tactic(auto, using(crate::proofs::Growing::nothing_yet))]
    pub fn new(alloc: Global, supply: &'m mut M) -> Page<'m, M> {
        Page {
            supply,
            text: Vec::new(alloc),
            refused: false,
        }
    }

    /// A piece of markup more.
    #[tactic(auto, using(crate::proofs::Growing::nothing_yet, crate::proofs::Growing::marked))]
    pub fn mark(&mut self, mark: Mark)
        ensures { Grows self.old.refused self.old.text.items self.new.refused self.new.text.items (spec.mark_text mark) }
    {
        if self.refused {
            return;
        }
        if add_mark(self.supply, &mut self.text, mark).is_err() {
            self.text.clear();
            self.refused = true;
        }
    }

    /// A text more, which is shown; and whether there was memory for it.
    #[tactic(auto, using(crate::proofs::Growing::nothing_yet, crate::proofs::Growing::shown))]
    pub fn show(&mut self, text: &[u8]) -> bool
        ensures shown { Grows self.old.refused self.old.text.items self.new.refused self.new.text.items (escaped text.now) }
        ensures whole { result ≡ true → self.new.refused ≡ self.old.refused }
        ensures failed { result ≡ false → (self.new.refused ≡ true) × (0 < length text.now) }
    {
        if self.refused {
            return text.is_empty();
        }
        if add_escaped(self.supply, &mut self.text, text).is_err() {
            self.text.clear();
            self.refused = true;
            return false;
        }
        true
    }

    /// The page goes into a sink at once; not at all where there was no memory for it.
    pub fn put_into<S: Sink>(&self, sink: &mut S) -> Result<bool, AllocError>
        ensures page { IfOk result (λ whole. PutsPage (S.seen sink.old) (S.seen sink.new) whole) }
        ensures kept { OnErr result (S.seen sink.new ≡ S.seen sink.old) }
        ensures memory { OnErr result (M.refused self.now.supply.now ≡ true) }
    {
        if self.refused {
            return Err(AllocError);
        }
        Ok(sink.put(self.text.as_slice()))
    }
}

/// What is put into a page is shown.
impl<M: Supply> Sink for Page<'_, M> {
    ghost seen = { λ page. record { bytes = None; failed = page.refused } };

    fn put(&mut self, bytes: &[u8]) -> bool {
        self.show(bytes)
    }
}
