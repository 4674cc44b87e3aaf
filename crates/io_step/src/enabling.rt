//! What enabling stores, and modifies by (own).

ghost use Rattle.std.specs.Prelude.{◌≡◌, ◌%◌, true};
ghost use Rattle.schib_block.specs.Reading.{flag_of};
ghost use Rattle.subchannel_model.specs.Enable as enable_spec;
ghost use Rattle.zbits.specs.Bits.{field_of};

use schib_block::words::PmcwWords;

/// The second word, with ISC (bits 2 to 4) and D (bit 13), and E one (bit 8).
fn controls(subclass: u8, multipath: bool) -> u32
    ensures subclass { field_of result 2 4 ≡ subclass % 8 }
    ensures enabled { flag_of result 8 ≡ true }
    ensures multipath { flag_of result 13 ≡ multipath }
{
    u32::from(subclass % 8) * 0x0800_0000 + 0x0080_0000 + u32::from(multipath) * 0x0004_0000
}

/// The word with ISC, D and E one placed in it; its concurrent-sense bit stays. Of `subclass` the three rightmost bits are placed.
pub fn enabling(word: &PmcwWords, subclass: u8, multipath: bool) -> PmcwWords
    ensures { result ≡ enable_spec.enabling word.now subclass multipath }
{
    let [parameter, _, masks, block, ..] = *word.words();
    let given = controls(subclass, multipath);
    let mut enabling = *word;
    enabling.modify(&[parameter, given, masks, block, 0, 0, 0], false);
    enabling
}
