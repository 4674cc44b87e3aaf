//! What is written is allowed, and is read back with the same numbers. A law: a call does nothing.

ghost use Rattle.std.specs.Prelude.{◌≡◌};
ghost use Rattle.zbits.specs.Layout.{image_of};
ghost use Rattle.schib_block.specs.declared.pmcw.Pmcw.{Pmcw};
ghost use Rattle.schib_block.specs.declared.schib.Schib.{Schib};
ghost use Rattle.schib_block.specs.Ranges.{IsSchibInRange};
ghost use Rattle.schib_block.specs.SchibTable.{IsSchib, ShowsPmcw, ShowsSchib, pmcw_tables, schib_tables};

use scsw_irb::law;

/// Of subchannel-information blocks: `allowed`, a block that is written can be read; `same`, what is
/// read of it is the block; `same_pmcw`, so is what MODIFY SUBCHANNEL looks at.
pub fn read_back()
    ensures allowed { (s : Schib) → IsSchibInRange s → IsSchib (image_of (schib_tables s)) }
    ensures same { (s t : Schib) → IsSchibInRange s → IsSchibInRange t
        → ShowsSchib (image_of (schib_tables s)) t → schib_tables s ≡ schib_tables t }
    ensures same_pmcw { (s : Schib) (p : Pmcw) → IsSchibInRange s
        → ShowsPmcw (image_of (schib_tables s)) p → pmcw_tables s.pmcw ≡ pmcw_tables p }
{
    law::scsw();
}
