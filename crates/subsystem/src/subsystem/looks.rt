//! Looks at a subsystem between events.

ghost use Rattle.std.specs.Prelude.{◌≡◌};

use super::Subsystem;
use machine::looks::Looks;
use machine::machine::Machine;
use path_select::PathChoice;
use storage_keys::Storage;

impl<P: PathChoice + Drop> Looks for Subsystem<P> {
    ghost state = { λ s. s.state };

    fn looked_at(&self) -> &Machine {
        self.machine.beside()
    }

    fn index_named(&self, subchannel: u32) -> Option<usize> {
        self.machine.beside().index_of(&self.indices, subchannel)
    }
}

impl<P: PathChoice + Drop> Subsystem<P> {
    /// The storage, to look at its bytes and keys.
    pub fn storage(&self) -> &Storage
        ensures { result.now ≡ self.now.state.storage }
    {
        self.machine.storage()
    }
}
