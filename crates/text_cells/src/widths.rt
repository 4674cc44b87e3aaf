//! The widths of cells.

ghost use Rattle.std.specs.Prelude.{◌≡◌, ℕ, Bool, List, [], ◌∷◌};
ghost use Rattle.text_cells.specs.Characters as spec;

/// What is shown of a cell has as many characters as the cell, where its mark has one, and so many blanks have so many
/// characters: so a cell with blanks up to a width takes just that width, where it has not more.
#[tactic(auto, using(crate::proofs::CharacterCounts::shown_wide, crate::proofs::CharacterCounts::blanks_wide))]
pub fn widths()
    ensures shown { (failed : Bool) (text mark : List ℕ) → spec.characters mark ≡ 1 → spec.characters (spec.shown failed text mark) ≡ spec.characters text }
    ensures blanks { (times : ℕ) → spec.characters (spec.repeated times (32 ∷ [])) ≡ times }
{}
