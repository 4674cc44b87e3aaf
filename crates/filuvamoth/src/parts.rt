//! A box as its pointer, for any type.

ghost use Rattle.std.specs.Prelude.{◌≡◌};
ghost use Rattle.filuvamoth.specs.Held.{heap_owns};

use std::alloc::Global;
use std::marker::Model;

/// What a box is made of. It is never dropped: it goes back into a box, or into a `Held`.
pub struct Parts<T> {
    pub at: *mut T,
    pub ghost value: { T },
}

impl<T> Model for Parts<T> {
    ghost also_owns = { λ parts. heap_owns T.row parts.at parts.value };
}

impl<T> Parts<T> {
    pub fn of(boxed: Box<T>) -> Parts<T>
    where
        T: Drop,
        ensures { result.value ≡ boxed.value }
    {
        Parts {
            at: Box::into_raw(boxed),
        }
    }

    pub fn into_box(self, alloc: Global) -> Box<T>
        ensures { result.value ≡ self.value }
    {
        let Parts { at } = self;
        unsafe { Box::from_raw(alloc, at) }
    }
}
