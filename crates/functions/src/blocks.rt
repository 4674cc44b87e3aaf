//! Enabling where nothing is provided (own): ISC, D and E one are placed in a word of storage.

ghost use Rattle.std.specs.Prelude.{◌≡◌, ◌<◌, ◌≤◌, ◌^◌, ◌+◌, ◌-◌};
ghost use Rattle.subchannel_model.specs.Enable as enable_spec;

use zbits::set_field;

/// A word with a number at the bits `first` to `last`.
fn with_field(word: u32, first: u32, last: u32, value: u32) -> u32
    requires ordered { first ≤ last }
    requires within { last < 32 }
    requires fits { value < 2 ^ (last + 1 - first) }
    ensures { result ≡ enable_spec.with_field word first last value }
{
    set_field(word, first, last, value)
}

/// The second word of a block, with ISC (bits 2 to 4), E one (bit 8) and D (bit 13) placed in it.
pub fn enabling_word(word: u32, subclass: u8, multipath: bool) -> u32
    ensures { result ≡ enable_spec.enabling_word word subclass multipath }
{
    let word = with_field(word, 2, 4, u32::from(subclass % 8));
    let word = with_field(word, 8, 8, 1);
    with_field(word, 13, 13, u32::from(multipath))
}
