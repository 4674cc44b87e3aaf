//! What the workers of a path and of a unit are to do next.

ghost use Rattle.std.specs.Prelude.{◌≡◌};
ghost use Rattle.lookup.specs.Tables.{Fits};
ghost use Rattle.machine_model.specs.State as state_spec;
ghost use Rattle.machine_model.specs.UnitTurns.{lent_turns};
ghost use Rattle.signal_step.specs.PathTurns as turn_spec;

use crate::machine::Machine;
use chan_events::event::Event;
use chan_model::report::LentWork;
use lookup::engines::Served;
use lookup::tables::SubchannelIndex;
use machine_model::state::UnitTurn;
use signal_step::path_turns::turn_at;
use signal_step::unit_turns::turn_of_unit;

impl Machine {
    /// The event of a path worker's turn for the subchannel that a word names, on the channel path of this identifier.
    pub fn path_turn(&self, indices: &SubchannelIndex, word: u32, chpid: u8) -> Option<Event>
        requires fits { Fits indices.now self.now.subs }
        ensures { result ≡ turn_spec.path_turn_of self.now word chpid }
    {
        let index = self.index_of(indices, word)?;
        let served = Served::of(self.subs.as_slice(), &self.engines);
        turn_at(&served, &self.subs[index], word, chpid)
    }

    /// What a unit is to do next.
    pub fn unit_turn(&self, indices: &SubchannelIndex, number: u32) -> Option<UnitTurn>
        requires fits { Fits indices.now self.now.subs }
        ensures { result ≡ state_spec.unit_turn_of self.now number }
    {
        match self.lent_turn(indices, number) {
            None => None,
            Some(turn) => Some(turn.own()),
        }
    }

    /// What a unit is to do next, as `unit_turn` has it; the bytes that are to be absorbed are lent.
    pub fn lent_turn(
        &self,
        indices: &SubchannelIndex,
        number: u32,
    ) -> Option<UnitTurn<LentWork<'_>>>
        requires fits { Fits indices.now self.now.subs }
        ensures { lent_turns result ≡ state_spec.unit_turn_of self.now number }
    {
        let number = number as usize;
        if number >= self.units.len() {
            return None;
        }
        Some(turn_of_unit(indices, number, &self.units[number], self.subs.as_slice()))
    }
}
