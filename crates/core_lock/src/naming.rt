//! Which machine it is: a type that names one.
//!
//! A program makes the parts of a machine, and then calls one function that is generic in the name, at `Brand`; all that is
//! made there is of this machine by its type.

use std::marker::{Brand, PhantomData};
use std::sync::ledger::Ledger;

/// Names one machine.
pub trait MachineBrand {
    ghost use Rattle.channel_config.specs.Setup.{Setup};
    ghost use Rattle.core_lock.specs.Named.{MachineName};

    // The ledgers, the glance cells and the subchannels of the machine.
    ghost name: { MachineName };

    // How it is set up.
    ghost setup: { Setup };
}

impl MachineBrand for Brand {
    ghost use Rattle.std.specs.Prelude.{[]};
    ghost use Rattle.channel_config.specs.Setup.{no_setup};

    ghost name = { record { entries = 0; turns = 0; cells = []; directory = record { sets = 0; setups = [] } } };

    ghost setup = { no_setup };
}

/// The ledger of the entries of a machine: a part for each of 1,024 seats, and one that the machine keeps.
pub struct Entries<J: MachineBrand>(PhantomData<J>);

impl<J: MachineBrand> Ledger for Entries<J> {
    ghost name = { J.name.entries };

    ghost parts = { 1025 };
}

/// The ledger of the turns of its workers, which contracts alone see.
pub struct Turns<J: MachineBrand>(PhantomData<J>);

impl<J: MachineBrand> Ledger for Turns<J> {
    ghost name = { J.name.turns };

    ghost parts = { 1025 };
}
