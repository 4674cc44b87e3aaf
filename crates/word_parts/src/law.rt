//! What holds of all words. Each is a law: a call does nothing.

ghost use Rattle.std.specs.Prelude.{ℕ};
ghost use Rattle.zbits.specs.Layout.{ShowsFields};
ghost use Rattle.orb_block.specs.OrbTable as orb_table;
ghost use Rattle.orb_block.specs.declared.Orb.{Orb};
ghost use Rattle.scsw_irb.specs.CodeTable.{interruption};
ghost use Rattle.scsw_irb.specs.CrwTable.{crw_table};
ghost use Rattle.scsw_irb.specs.ScswTable as scsw_table;
ghost use Rattle.scsw_irb.specs.declared.code.IntCode.{IntCode};
ghost use Rattle.scsw_irb.specs.declared.crw.Crw.{Crw};
ghost use Rattle.scsw_irb.specs.declared.scsw.Scsw.{Scsw};
ghost use Rattle.schib_block.specs.SchibTable as schib_table;
ghost use Rattle.schib_block.specs.declared.pmcw.Pmcw.{Pmcw};
ghost use Rattle.word_parts.specs.CodeNames as code;
ghost use Rattle.word_parts.specs.FieldNames.{NamesHighPaths, NamesLowPaths, NamesMasks, NamesMoreMasks, NamesOrb, NamesPmcw, NamesReport, NamesScsw, NamesSense, NamesSubclass};
ghost use Rattle.word_parts.specs.OrbNames as orb;
ghost use Rattle.word_parts.specs.Reports as reports;
ghost use Rattle.word_parts.specs.SchibNames as schib;
ghost use Rattle.word_parts.specs.ScswNames as scsw;
ghost use Rattle.word_parts.specs.Whole.{GivesBack, flag_byte};

/// What is printed of a word gives the word back: no bit that is one is left out, and none is named as another. That of the
/// first word of an interruption code speaks of the words that name no subchannel.
pub fn gives_back()
    ensures scsw_0 { GivesBack scsw.word_0 }
    ensures scsw_1 { GivesBack scsw.word_1 }
    ensures scsw_2 { GivesBack scsw.word_2 }
    ensures orb_0 { GivesBack orb.word_0 }
    ensures orb_1 { GivesBack orb.word_1 }
    ensures orb_2 { GivesBack orb.word_2 }
    ensures pmcw_0 { GivesBack schib.word_0 }
    ensures pmcw_1 { GivesBack schib.word_1 }
    ensures pmcw_2 { GivesBack schib.word_2 }
    ensures pmcw_3 { GivesBack schib.word_3 }
    ensures pmcw_4 { GivesBack schib.word_4 }
    ensures pmcw_5 { GivesBack schib.word_5 }
    ensures pmcw_6 { GivesBack schib.word_6 }
    ensures reserved { GivesBack schib.reserved }
    ensures extended { GivesBack schib.extended }
    ensures code_0 { GivesBack code.word_0 }
    ensures code_2 { GivesBack code.word_2 }
    ensures report { GivesBack reports.report }
    ensures ccw_flags { GivesBack flag_byte }
{}

/// Each name has the bits of its field: where a word shows the fields of an image, what stands at the bits of a name is the
/// field of that name.
pub fn names_fields()
    ensures scsw { (x : Scsw) (word : ℕ) → ShowsFields word (scsw_table.word_0 x) → NamesScsw word x }
    ensures orb { (x : Orb) (word : ℕ) → ShowsFields word (orb_table.word_1 x) → NamesOrb word x }
    ensures pmcw { (x : Pmcw) (word : ℕ) → ShowsFields word (schib_table.word_1 x) → NamesPmcw word x }
    ensures masks { (x : Pmcw) (word : ℕ) → ShowsFields word (schib_table.word_2 x) → NamesMasks word x }
    ensures more_masks { (x : Pmcw) (word : ℕ) → ShowsFields word (schib_table.word_3 x) → NamesMoreMasks word x }
    ensures low_paths { (x : Pmcw) (word : ℕ) → ShowsFields word (schib_table.word_4 x) → NamesLowPaths word x }
    ensures high_paths { (x : Pmcw) (word : ℕ) → ShowsFields word (schib_table.word_5 x) → NamesHighPaths word x }
    ensures sense { (x : Pmcw) (word : ℕ) → ShowsFields word (schib_table.word_6 x) → NamesSense word x }
    ensures report { (x : Crw) (word : ℕ) → ShowsFields word (crw_table x) → NamesReport word x }
    ensures subclass { (x : IntCode) (word : ℕ) → ShowsFields word (interruption x) → NamesSubclass word x }
{}
