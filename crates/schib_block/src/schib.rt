//! The whole block (SA22-7832, chapter 15).

ghost use Rattle.std.specs.Prelude.{◌≡◌, ◌↔◌, IsSome, IfSome};
ghost use Rattle.zbits.specs.Layout.{image_of};

use crate::SCHIB_BYTES;
use crate::pmcw::Pmcw;
use scsw_irb::scsw::Scsw;
use zbits::{be_bytes, be_words};

/// What there is to know of a subchannel: its path-management-control word, 28 bytes, and its
/// subchannel-status word, 12 bytes. Three words of zeros follow them (own).
#[derive(Clone, Copy, Debug, PartialEq, Eq)]
pub struct Schib {
    pub pmcw: Pmcw,
    pub scsw: Scsw,
}

impl Schib {
    ghost use Rattle.schib_block.specs.SchibTable.{IsSchib, ShowsSchib, schib_tables};

    /// The image of the block: what STORE SUBCHANNEL stores.
    pub fn write(&self) -> [u8; SCHIB_BYTES]
        ensures { result ≡ image_of (schib_tables self.now) }
    {
        let [parameter, controls, masks, block, front, back, last] = self.pmcw.words();
        let [status, address, count] = self.scsw.words();
        be_bytes(&[
            parameter, controls, masks, block, front, back, last, status, address, count, 0, 0, 0,
        ])
    }

    /// The block that an image has. It is `None` where L (bit 5), Z (bit 13), E (bit 14) or bit 16 of
    /// word 0 of the subchannel-status word is one. Reserved bits of the path-management-control word and
    /// the last three words are ignored.
    ///
    /// MODIFY SUBCHANNEL ignores the subchannel-status word: what it is given is read by
    /// `Pmcw::of_schib`, which refuses no image.
    pub fn read(image: &[u8; SCHIB_BYTES]) -> Option<Schib>
        ensures allowed { IsSome result ↔ IsSchib image.now }
        ensures found { IfSome result (λ schib. ShowsSchib image.now schib) }
    {
        let words = be_words::<13>(image);
        let scsw = Scsw::of_words(&[words[7], words[8], words[9]])?;
        Some(Schib {
            pmcw: Pmcw::of_schib(image),
            scsw,
        })
    }
}
