//! The checks that stop a channel program.

ghost use Rattle.std.specs.Prelude.{◌≡◌};
ghost use Rattle.ccw_walk.specs.Checks.{check_of};

use storage_keys::StorageFault;

/// Why a channel program can't go on, as its subchannel status shows it.
#[derive(Clone, Copy, Debug, PartialEq, Eq)]
pub enum Check {
    /// Program check: the program is wrong, or names what is not in storage.
    Program,
    /// Protection check: the key of the program does not permit an access.
    Protection,
}

impl Check {
    /// The check that an access of a program comes to where storage refuses it.
    pub fn of(fault: StorageFault) -> Check
        ensures { result ≡ check_of fault }
    {
        match fault {
            StorageFault::Protection => Check::Protection,
            StorageFault::Addressing | StorageFault::Specification => Check::Program,
        }
    }
}
