//! A subchannel with its wires.

ghost use Rattle.std.specs.Prelude.{◌≡◌, map};
ghost use Rattle.zbits.specs.Layout.{word_of};
ghost use Rattle.scsw_irb.specs.ScswTable.{scsw_tables};
ghost use Rattle.schib_block.specs.SchibTable.{pmcw_tables};
ghost use Rattle.subchannel_model.specs.Store.{pmcw_of};

use crate::state::PackedState;
use std::marker::Model;
use wires::Wires;

/// A subchannel. Its words and its wires may be lent at once.
#[derive(Drop)]
pub struct Subchannel {
    pub state: PackedState,
    pub wires: Wires,
}

impl Model for Subchannel {
    ghost use Rattle.subchannel_model.specs.declared.state.Subchannel.{Subchannel as definition};

    ghost Value = { definition };

    ghost view = { λ s. record { setup = s.state.setup; state = s.state.state; wires = s.wires } };
}

impl Subchannel {
    /// The words of the path-management-control word, as STORE SUBCHANNEL stores them (SA22-7832, chapter 15).
    pub fn pmcw_words(&self) -> &[u32; 7]
        ensures { result.now ≡ map word_of (pmcw_tables (pmcw_of self.now)) }
    {
        self.state.pmcw_words()
    }

    /// The words of the subchannel-status word, as STORE SUBCHANNEL and TEST SUBCHANNEL store them (SA22-7832, chapter 16).
    pub fn scsw_words(&self) -> &[u32; 3]
        ensures { result.now ≡ map word_of (scsw_tables self.now.state.scsw) }
    {
        self.state.scsw_words()
    }
}
