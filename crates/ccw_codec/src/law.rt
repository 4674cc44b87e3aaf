//! What holds of all channel-command words. A law: a call does nothing.

ghost use Rattle.std.specs.Prelude.{◌≡◌};
ghost use Rattle.zbits.specs.Layout.{image_of};
ghost use Rattle.ccw_codec.specs.CcwTable.{FitsFormat, IsInRange, ccw_tables};
ghost use Rattle.ccw_codec.specs.declared.Ccw.{Ccw};
ghost use Rattle.ccw_codec.specs.declared.Format.{Format};

/// Words that have the same block have the same numbers in their tables: what is written is read back
/// whole.
pub fn one_image()
    ensures { (f : Format) (a b : Ccw) → IsInRange a → IsInRange b → FitsFormat f a → FitsFormat f b
        → image_of (ccw_tables f a) ≡ image_of (ccw_tables f b) → ccw_tables f a ≡ ccw_tables f b }
{}
