//! What is written is allowed, and is read back with the same numbers. Each is a law: a call does
//! nothing.

ghost use Rattle.std.specs.Prelude.{◌≡◌, map};
ghost use Rattle.zbits.specs.Layout.{image_of, word_of};
ghost use Rattle.scsw_irb.specs.declared.code.IntCode.{IntCode};
ghost use Rattle.scsw_irb.specs.declared.crw.Crw.{Crw};
ghost use Rattle.scsw_irb.specs.declared.irb.Irb.{Irb};
ghost use Rattle.scsw_irb.specs.declared.scsw.Scsw.{Scsw};
ghost use Rattle.scsw_irb.specs.CodeTable.{IsCode, code_tables};
ghost use Rattle.scsw_irb.specs.CrwTable.{IsCrw, crw_table};
ghost use Rattle.scsw_irb.specs.Ranges.{IsCodeInRange, IsCrwInRange, IsIrbInRange, IsScswInRange};
ghost use Rattle.scsw_irb.specs.ScswTable.{IsIrb, IsScsw, irb_tables, scsw_tables};

/// Of subchannel-status words.
pub fn scsw()
    ensures allowed { (s : Scsw) → IsScswInRange s → IsScsw (map word_of (scsw_tables s)) }
    ensures same { (s t : Scsw) → IsScswInRange s → IsScswInRange t
        → map word_of (scsw_tables s) ≡ map word_of (scsw_tables t) → scsw_tables s ≡ scsw_tables t }
{}

/// Of interruption-response blocks.
pub fn irb()
    ensures allowed { (s : Irb) → IsIrbInRange s → IsIrb (image_of (irb_tables s)) }
    ensures same { (s t : Irb) → IsIrbInRange s → IsIrbInRange t
        → image_of (irb_tables s) ≡ image_of (irb_tables t) → irb_tables s ≡ irb_tables t }
{}

/// Of interruption codes.
pub fn code()
    ensures allowed { (s : IntCode) → IsCodeInRange s → IsCode (map word_of (code_tables s)) }
    ensures same { (s t : IntCode) → IsCodeInRange s → IsCodeInRange t
        → map word_of (code_tables s) ≡ map word_of (code_tables t) → code_tables s ≡ code_tables t }
{}

/// Of channel-report words.
pub fn crw()
    ensures allowed { (s : Crw) → IsCrwInRange s → IsCrw (word_of (crw_table s)) }
    ensures same { (s t : Crw) → IsCrwInRange s → IsCrwInRange t
        → word_of (crw_table s) ≡ word_of (crw_table t) → crw_table s ≡ crw_table t }
{}
