//! Memory for a machine and its seats from a supply, of which contracts see whether it refused some.

ghost use Rattle.std.specs.Prelude.{◌≡◌, ◌+◌, true, IfOk, OnOk, OnErr};
ghost use Rattle.std.specs.Arc.{arc_value};

use glance_cell::supplies::CellSupply;
use glance_directory::directory::Directory;
use memory::{Allocator, FailingMemory};
use std::alloc::{AllocError, Global};
use std::sync::Arc;

/// Memory for lists, for cells and their readers, and for the directory that a machine shares with its seats. That it refused
/// something can be seen from then on.
pub trait CoreSupply: CellSupply {
    /// A directory that is shared.
    fn share(&mut self, alloc: Global, directory: Directory) -> Result<Arc<Directory>, AllocError>
        ensures shared { IfOk result (λ arc. arc_value arc ≡ directory) }
        ensures unrefused { OnOk result (Self.refused self.new ≡ Self.refused self.old) }
        ensures taken { OnErr result (Self.refused self.new ≡ true) };

    /// A directory shared once more.
    fn share_again(&mut self, directory: &Arc<Directory>) -> Result<Arc<Directory>, AllocError>
        ensures same { IfOk result (λ arc. arc_value arc ≡ arc_value directory.now) }
        ensures unrefused { OnOk result (Self.refused self.new ≡ Self.refused self.old) }
        ensures taken { OnErr result (Self.refused self.new ≡ true) };
}

impl CoreSupply for Allocator {
    fn share(&mut self, alloc: Global, directory: Directory) -> Result<Arc<Directory>, AllocError> {
        let Ok(shared) = Arc::new(alloc, directory) else {
            self.refused = true;
            return Err(AllocError);
        };
        Ok(shared)
    }

    fn share_again(&mut self, directory: &Arc<Directory>) -> Result<Arc<Directory>, AllocError> {
        let result = Arc::try_clone(directory);
        if result.is_err() {
            self.refused = true;
        }
        result
    }
}

impl CoreSupply for FailingMemory {
    fn share(&mut self, alloc: Global, directory: Directory) -> Result<Arc<Directory>, AllocError>
        ensures shared { IfOk result (λ arc. arc_value arc ≡ directory) }
        ensures unrefused { OnOk result (self.new.refused ≡ self.old.refused) }
        ensures taken { OnErr result (self.new.refused ≡ true) }
        ensures counts { OnOk result (self.old.left ≡ self.new.left + 1) }
    {
        if self.left == 0 {
            self.refused = true;
            return Err(AllocError);
        }
        self.left -= 1;
        let Ok(shared) = Arc::new(alloc, directory) else {
            self.refused = true;
            return Err(AllocError);
        };
        Ok(shared)
    }

    fn share_again(&mut self, directory: &Arc<Directory>) -> Result<Arc<Directory>, AllocError>
        ensures same { IfOk result (λ arc. arc_value arc ≡ arc_value directory.now) }
        ensures unrefused { OnOk result (self.new.refused ≡ self.old.refused) }
        ensures taken { OnErr result (self.new.refused ≡ true) }
        ensures counts { OnOk result (self.old.left ≡ self.new.left + 1) }
    {
        if self.left == 0 {
            self.refused = true;
            return Err(AllocError);
        }
        self.left -= 1;
        let result = Arc::try_clone(directory);
        if result.is_err() {
            self.refused = true;
        }
        result
    }
}
