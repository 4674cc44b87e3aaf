//! Looks at a channel subsystem between events, and what its workers are to do next.

ghost use Rattle.std.specs.Prelude.{◌≡◌, ◌<◌, IfSome, length};
ghost use Rattle.machine_model.specs.State as state_spec;
ghost use Rattle.machine_model.specs.UnitTurns.{lent_turns};
ghost use Rattle.signal_step.specs.PathTurns as path_spec;

use super::ChannelSubsystem;
use chan_events::event::Event;
use chan_model::report::LentWork;
use machine::looks::Looks;
use machine::machine::Machine;
use machine_model::state::UnitTurn;
use path_select::PathChoice;
use scsw_irb::serials::Serials;

impl<P: PathChoice + Drop> Looks for ChannelSubsystem<P> {
    ghost state = { λ s. s.machine };

    fn looked_at(&self) -> &Machine {
        self.machine.apart();
        &self.machine
    }

    fn index_named(&self, subchannel: u32) -> Option<usize> {
        self.machine.index_of(&self.indices, subchannel)
    }
}

impl<P: PathChoice + Drop> ChannelSubsystem<P> {
    /// How many subchannels there are.
    pub fn count(&self) -> usize
        ensures { result ≡ length self.now.machine.subs }
    {
        self.machine.count()
    }

    /// The index of the subchannel that a subsystem-identification word names, in the order of the configuration, from 0;
    /// None where it is not configured.
    pub fn index_of(&self, subchannel: u32) -> Option<usize>
        ensures index { result ≡ state_spec.index_of self.now.machine subchannel }
        ensures bound { IfSome result (λ index. index < length self.now.machine.subs) }
    {
        self.machine.index_of(&self.indices, subchannel)
    }

    /// Of how many blocks of 4,096 bytes storage must be that is lent.
    pub fn blocks(&self) -> u32
        ensures { result ≡ self.now.blocks }
    {
        self.blocks
    }

    /// The serials of the subchannel that a subsystem-identification word names; None where it is not configured.
    pub fn serials(&self, subchannel: u32) -> Option<Serials>
        ensures { result ≡ state_spec.serials_in (state_spec.sub_of self.now.machine subchannel) }
    {
        self.machine.serials(&self.indices, subchannel)
    }

    /// The event of a turn of a channel path's worker, for a subchannel: the signal that waits longest on the wire up of the
    /// path of this identifier comes up, or else the subsystem does what it has to do of itself (own). None where there is
    /// nothing to do, and for a subchannel that is not configured or doesn't have the path.
    pub fn path_turn(&self, subchannel: u32, chpid: u8) -> Option<Event>
        ensures { result ≡ path_spec.path_turn_of self.now.machine subchannel chpid }
    {
        self.machine.path_turn(&self.indices, subchannel, chpid)
    }

    /// What a unit is to do next; None where it is not configured.
    pub fn unit_turn(&self, unit: u32) -> Option<UnitTurn>
        ensures { result ≡ state_spec.unit_turn_of self.now.machine «unit» }
    {
        self.machine.unit_turn(&self.indices, unit)
    }

    /// What a unit is to do next, as `unit_turn` has it; the bytes that are to be absorbed are lent.
    pub fn lent_turn(&self, unit: u32) -> Option<UnitTurn<LentWork<'_>>>
        ensures { lent_turns result ≡ state_spec.unit_turn_of self.now.machine «unit» }
    {
        self.machine.lent_turn(&self.indices, unit)
    }
}
