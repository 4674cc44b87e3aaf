//! The cell, with its writer and its readers.
ghost use Rattle.std.specs.Prelude.{◌≡◌, ◌+◌, ◌≤◌, IfOk};
ghost use Rattle.glance_cell.specs.Shown.{Words, written};

use crate::words::{
    Glance, HandsOut, Law, LoadsCleared, LoadsMade, SeesCleared, SeesMade, StoresCleared,
    StoresMade, TakesIn, View, Watches,
};
use atomic_table::{Seat, Table};
use std::alloc::{AllocError, Global};
use std::marker::Model;
use std::mem;
use std::sync::Arc;

/// The two words, which their writer and their readers share.
#[derive(Drop)]
pub struct Cell {
    table: Table<u8, View, (), Law, Global>,
    ghost shape: { (table.shared.table_id.words ≡ 2) × (table.shared.table_id.slots ≡ 0) },
}

/// The one that stores.
#[derive(Drop)]
pub struct Writer {
    cell: Arc<Cell>,
    seat: Seat<u8, View>,
}

impl Model for Writer {
    ghost use Rattle.std.specs.Prelude.{◌≡◌, ◌≤◌, true, []};
    ghost use Rattle.std.specs.Arc.{arc_value};
    ghost use Rattle.glance_cell.specs.Shown.{Words, written};

    ghost Value = { Words };

    ghost view = { λ w. written w.seat.table_id w.seat.me.0.made w.seat.me.0.cleared };

    ghost invariant = { λ w. (w.seat.table_id ≡ (arc_value w.cell).table.shared.table_id) × (w.seat.me.1 ≡ []) × (w.seat.me.0.writes ≡ true) × (w.seat.me.0.cleared ≤ w.seat.me.0.made) };
}

/// One of those that load.
#[derive(Drop)]
pub struct Reader {
    cell: Arc<Cell>,
    seat: Seat<u8, View>,
}

impl Model for Reader {
    ghost use Rattle.std.specs.Prelude.{◌≡◌, ◌≤◌, false, []};
    ghost use Rattle.std.specs.Arc.{arc_value};
    ghost use Rattle.glance_cell.specs.Shown.{Words};

    ghost Value = { Words };

    ghost view = { λ r. record { cell = r.seat.table_id; made = r.seat.me.0.made; cleared = r.seat.me.0.cleared; loads = r.seat.me.0.loads } };

    ghost invariant = { λ r. (r.seat.table_id ≡ (arc_value r.cell).table.shared.table_id) × (r.seat.me.1 ≡ []) × (r.seat.me.0.writes ≡ false) };
}

impl Writer {
    /// A cell whose words are 0, by its writer. Where no memory is left there is none.
    pub fn new(alloc: Global) -> Result<Writer, AllocError>
        ensures { IfOk result (λ w. (w.made ≡ 0) × (w.cleared ≡ 0)) }
    {
        let (table, seat) = Table::<u8, View, (), Law, Global>::of_words(alloc, &[0, 0], &())?;
        let cell = Arc::new(alloc, Cell { table })?;
        Ok(Writer { cell, seat })
    }

    /// Stores both counts, the count made first.
    pub fn store(&mut self, made: u64, cleared: u64)
        requires rises { (self.old.made ≤ made) × (self.old.cleared ≤ cleared) }
        requires ordered { cleared ≤ made }
        ensures { self.new ≡ written self.old.cell made cleared }
    {
        let table = &self.cell.table.shared;
        table.store::<StoresMade>(&mut self.seat, 0, made);
        table.store::<StoresCleared>(&mut self.seat, 1, cleared);
    }

    /// One more reader, which has seen the words as they are. Where no memory is left there is none, and all is as before.
    pub fn reader(&mut self) -> Result<Reader, AllocError>
        ensures same { self.new ≡ self.old }
        ensures seen { IfOk result (λ r. r ≡ self.old) }
    {
        let cell = Arc::try_clone(&self.cell)?;
        let seat = self.cell.table.shared.split_seat::<Watches>(&mut self.seat);
        Ok(Reader { cell, seat })
    }
}

impl Reader {
    /// Loads both counts, the count cleared first. Neither has fallen since this reader's last load. It takes no memory and
    /// waits for nobody.
    pub fn load(&mut self) -> Glance
        ensures value { (result.made ≡ self.new.made) × (result.cleared ≡ self.new.cleared) }
        ensures cell { self.new.cell ≡ self.old.cell }
        ensures loads { self.new.loads ≡ self.old.loads + 1 }
        ensures ordered { result.cleared ≤ result.made }
        ensures rises { (self.old.made ≤ self.new.made) × (self.old.cleared ≤ self.new.cleared) }
    {
        let table = &self.cell.table.shared;
        let cleared = table.load::<LoadsCleared>(&mut self.seat, 1);
        let made = table.load::<LoadsMade>(&mut self.seat, 0);
        Glance { made, cleared }
    }
    /// Loads both counts while the writer is at hand and stores nothing: they are what the writer has. It takes no memory and
    /// waits for nobody.
    pub fn load_beside(&mut self, writer: &mut Writer) -> Glance
        requires same { self.old.cell ≡ writer.old.cell }
        ensures value { (result.made ≡ writer.old.made) × (result.cleared ≡ writer.old.cleared) }
        ensures ordered { result.cleared ≤ result.made }
        ensures loads { self.new ≡ record writer.old { loads = self.old.loads + 1 } }
        ensures writer { writer.new ≡ writer.old }
    {
        let table = &self.cell.table.shared;
        let first = table.split_seat::<Watches>(&mut writer.seat);
        let seat = mem::replace(&mut self.seat, first);
        table.join_seat::<TakesIn>(&mut writer.seat, seat);
        let cleared = table.load::<SeesCleared>(&mut writer.seat, 1);
        let made = table.load::<SeesMade>(&mut writer.seat, 0);
        self.seat = table.split_seat::<HandsOut>(&mut writer.seat);
        Glance { made, cleared }
    }
}
