//! What a view of the two words knows, and the steps that change one.

use atomic_table::{Join, Play, Split, TableRule};

/// How many statuses were made, and how many of them cleared, as one look found them.
#[derive(Clone, Copy, PartialEq, Eq, Debug)]
pub struct Glance {
    pub made: u64,
    pub cleared: u64,
}

/// What a view knows: the writer's is the words, a reader's is what it loaded last, and how often it loaded. While a reader
/// loads beside the writer, the writer's view counts that reader's loads. No value of it is ever made.
pub struct View {
    pub writes: bool,
    pub made: u64,
    pub cleared: u64,
    pub loads: u64,
}

/// The rule of the two words.
pub struct Law;

impl TableRule<u8, View, ()> for Law {
    ghost use Rattle.glance_cell.specs.Rule.{IsKept, writer_view};

    ghost holds = { λ _ table. IsKept table };

    ghost first = { λ _. writer_view 0 0 };
}

/// The writer's store of the count made.
pub struct StoresMade;

impl Play<u8, View> for StoresMade {
    ghost use Rattle.glance_cell.specs.Rule.{SetsMade};

    ghost then = { SetsMade };
}

/// The writer's store of the count cleared.
pub struct StoresCleared;

impl Play<u8, View> for StoresCleared {
    ghost use Rattle.glance_cell.specs.Rule.{SetsCleared};

    ghost then = { SetsCleared };
}

/// A reader's load of the count made.
pub struct LoadsMade;

impl Play<u8, View> for LoadsMade {
    ghost use Rattle.glance_cell.specs.Rule.{FindsMade};

    ghost then = { FindsMade };
}

/// A reader's load of the count cleared.
pub struct LoadsCleared;

impl Play<u8, View> for LoadsCleared {
    ghost use Rattle.glance_cell.specs.Rule.{FindsCleared};

    ghost then = { FindsCleared };
}

/// A reader's view is split off the writer's.
pub struct Watches;

impl Split<View> for Watches {
    ghost use Rattle.glance_cell.specs.Rule.{reader_view};

    ghost left = { λ v. v };

    ghost right = { λ v. reader_view v.made v.cleared };
}

/// The writer's load of the count made, for a reader.
pub struct SeesMade;

impl Play<u8, View> for SeesMade {
    ghost use Rattle.glance_cell.specs.Rule.{SeesMade};

    ghost then = { SeesMade };
}

/// The writer's load of the count cleared, for a reader.
pub struct SeesCleared;

impl Play<u8, View> for SeesCleared {
    ghost use Rattle.glance_cell.specs.Rule.{SeesCleared};

    ghost then = { SeesCleared };
}

/// A reader's view is taken in by the writer's.
pub struct TakesIn;

impl Join<View> for TakesIn {
    ghost use Rattle.glance_cell.specs.Rule.{reader_view, taken_in};

    ghost both = { taken_in };

    ghost spent = { reader_view 0 0 };
}

/// A reader's view is handed out of the writer's.
pub struct HandsOut;

impl Split<View> for HandsOut {
    ghost use Rattle.glance_cell.specs.Rule.{handed_out};

    ghost left = { λ v. v };

    ghost right = { handed_out };
}
