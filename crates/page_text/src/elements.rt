//! The elements of a page, piece by piece.

ghost use Rattle.std.specs.Prelude.{◌≡◌, ◌++◌, ◌∷◌, [], decimal};
ghost use Rattle.page_text.specs.Marks.{mark_text};
ghost use Rattle.page_text.specs.Escapes.{escaped};
ghost use Rattle.page_text.specs.Pages.{Grows};

use crate::marks::{Attribute, Mark, Tag};
use crate::page::Page;
use itoa::Buffer;
use memory::Supply;

impl<M: Supply> Page<'_, M> {
    /// An element begins; its attributes may follow.
    pub fn begin(&mut self, tag: Tag)
        ensures { Grows self.old.refused self.old.text.items self.new.refused self.new.text.items (mark_text (Mark.Begin tag)) }
    {
        self.mark(Mark::Begin(tag));
    }

    /// The attributes of an element end; what it holds may follow.
    pub fn inside(&mut self)
        ensures { Grows self.old.refused self.old.text.items self.new.refused self.new.text.items (mark_text Mark.Inside) }
    {
        self.mark(Mark::Inside);
    }

    /// An element ends.
    pub fn end(&mut self, tag: Tag)
        ensures { Grows self.old.refused self.old.text.items self.new.refused self.new.text.items (mark_text (Mark.End tag)) }
    {
        self.mark(Mark::End(tag));
    }

    /// A number in decimal digits.
    pub fn number(&mut self, number: u64)
        ensures { Grows self.old.refused self.old.text.items self.new.refused self.new.text.items (escaped (decimal number)) }
    {
        self.show(Buffer::new().format(number).as_bytes());
    }

    /// An attribute that is a text.
    pub fn attribute(&mut self, attribute: Attribute, value: &[u8])
        ensures { Grows self.old.refused self.old.text.items self.new.refused self.new.text.items
            (mark_text (Mark.Attribute attribute) ++ escaped value.now ++ mark_text Mark.Quote) }
    {
        self.mark(Mark::Attribute(attribute));
        self.show(value);
        self.mark(Mark::Quote);
    }

    /// An attribute that is a number.
    pub fn measure(&mut self, attribute: Attribute, value: u64)
        ensures { Grows self.old.refused self.old.text.items self.new.refused self.new.text.items
            (mark_text (Mark.Attribute attribute) ++ escaped (decimal value) ++ mark_text Mark.Quote) }
    {
        self.mark(Mark::Attribute(attribute));
        self.number(value);
        self.mark(Mark::Quote);
    }

    /// An element without attributes that shows a text.
    pub fn element(&mut self, tag: Tag, text: &[u8])
        ensures { Grows self.old.refused self.old.text.items self.new.refused self.new.text.items
            (mark_text (Mark.Begin tag) ++ mark_text Mark.Inside ++ escaped text.now ++ mark_text (Mark.End tag)) }
    {
        self.begin(tag);
        self.inside();
        self.show(text);
        self.end(tag);
    }
}
