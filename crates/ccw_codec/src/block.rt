//! Blocks of eight bytes as channel-command words.

ghost use Rattle.std.specs.Prelude.{◌≡◌, ◌↔◌, None, IsOk, IfOk, IfErr};
ghost use Rattle.zbits.specs.Layout.{image_of};

use crate::{Ccw, CcwFault, Format};
use zbits::be_bytes;
use zbits::layout::word_of;

impl Ccw {
    ghost use Rattle.ccw_codec.specs.Block.{ccw_of, effective_block, fault_of};
    ghost use Rattle.ccw_codec.specs.CcwTable.{FitsFormat, ccw_tables};

    /// The channel-command word that a block has, or the first fault of it: the flag for modified
    /// indirect words, bit 32 of format 1, and then of a transfer in channel its bytes 1 to 3 (format 1)
    /// and its target, of others the count.
    ///
    /// A command code is read whether it is valid or not.
    pub fn read(format: Format, block: &[u8; 8]) -> Result<Ccw, CcwFault>
        ensures refused { IfErr result (λ fault. fault_of format block.now ≡ Some fault) }
        ensures allowed { IsOk result ↔ (fault_of format block.now ≡ None) }
        ensures found { IfOk result (λ ccw. effective_block format block.now ≡ image_of (ccw_tables format ccw)) }
        ensures value { IfOk result (λ ccw. ccw ≡ ccw_of format block.now) }
    {
        match format {
            Format::Zero => Ccw::read_0(block),
            Format::One => Ccw::read_1(block),
        }
    }

    /// The block of the channel-command word.
    pub fn write(&self, format: Format) -> [u8; 8]
        requires { FitsFormat format self.now }
        ensures { result ≡ image_of (ccw_tables format self.now) }
    {
        match format {
            Format::Zero => be_bytes(&[word_of(&self.front_0()), word_of(&self.rest_0())]),
            Format::One => be_bytes(&[word_of(&self.front_1()), word_of(&self.rest_1())]),
        }
    }
}
