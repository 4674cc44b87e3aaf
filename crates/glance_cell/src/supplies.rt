//! Cells and their readers from a supply, of which contracts see whether it refused one.

ghost use Rattle.std.specs.Prelude.{◌≡◌, ◌+◌, Bool, true, IfOk, OnOk, OnErr};

use crate::cell::{Reader, Writer};
use memory::{Allocator, FailingMemory, Supply};
use std::alloc::{AllocError, Global};

/// Memory for lists, and for cells and their readers. That it refused something can be seen from then on.
pub trait CellSupply: Supply {
    /// A cell whose words are 0, by its writer.
    fn cell(&mut self, alloc: Global) -> Result<Writer, AllocError>
        ensures zero { IfOk result (λ w. (w.made ≡ 0) × (w.cleared ≡ 0)) }
        ensures unrefused { OnOk result (Self.refused self.new ≡ Self.refused self.old) }
        ensures taken { OnErr result (Self.refused self.new ≡ true) };

    /// One more reader, which has seen the words as they are. Where it is refused all is as before.
    fn reader(&mut self, writer: &mut Writer) -> Result<Reader, AllocError>
        ensures same { writer.new ≡ writer.old }
        ensures seen { IfOk result (λ r. r ≡ writer.old) }
        ensures unrefused { OnOk result (Self.refused self.new ≡ Self.refused self.old) }
        ensures taken { OnErr result (Self.refused self.new ≡ true) };
}

impl CellSupply for Allocator {
    fn cell(&mut self, alloc: Global) -> Result<Writer, AllocError> {
        let result = Writer::new(alloc);
        if result.is_err() {
            self.refused = true;
        }
        result
    }

    fn reader(&mut self, writer: &mut Writer) -> Result<Reader, AllocError> {
        let result = writer.reader();
        if result.is_err() {
            self.refused = true;
        }
        result
    }
}

impl CellSupply for FailingMemory {
    fn cell(&mut self, alloc: Global) -> Result<Writer, AllocError>
        ensures zero { IfOk result (λ w. (w.made ≡ 0) × (w.cleared ≡ 0)) }
        ensures unrefused { OnOk result (self.new.refused ≡ self.old.refused) }
        ensures taken { OnErr result (self.new.refused ≡ true) }
        ensures counts { OnOk result (self.old.left ≡ self.new.left + 1) }
    {
        if self.left == 0 {
            self.refused = true;
            return Err(AllocError);
        }
        self.left -= 1;
        let result = Writer::new(alloc);
        if result.is_err() {
            self.refused = true;
        }
        result
    }

    fn reader(&mut self, writer: &mut Writer) -> Result<Reader, AllocError>
        ensures same { writer.new ≡ writer.old }
        ensures seen { IfOk result (λ r. r ≡ writer.old) }
        ensures unrefused { OnOk result (self.new.refused ≡ self.old.refused) }
        ensures taken { OnErr result (self.new.refused ≡ true) }
        ensures counts { OnOk result (self.old.left ≡ self.new.left + 1) }
    {
        if self.left == 0 {
            self.refused = true;
            return Err(AllocError);
        }
        self.left -= 1;
        let result = writer.reader();
        if result.is_err() {
            self.refused = true;
        }
        result
    }
}
