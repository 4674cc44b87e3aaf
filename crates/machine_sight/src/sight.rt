//! What a look at a machine shows.

ghost use Rattle.std.specs.Prelude.{◌≡◌, [], IfNone, IfSome, None, Some, slice_get};
ghost use Rattle.machine_sight.specs.Finding as spec;

use chan_model::names::Path;
use chan_model::unit_state::UnitState;
use functions::state::PackedState;
use std::alloc::Global;
use step_records::record::Fact;

/// What a look at a machine shows, beside what waits on its wires.
#[derive(Drop)]
pub struct Sight {
    /// The subchannels, in the order of the parties.
    pub subchannels: Vec<PackedState>,
    /// The units, in the order of the parties.
    pub units: Vec<UnitState>,
    /// Of each channel path of the parties, in their order, whether it is up.
    pub up: Vec<bool>,
    /// The interruption subclasses of which a request waits: subclass 0 leftmost.
    pub requested: u8,
    /// How many channel reports wait.
    pub reports: usize,
}

impl Sight {
    /// What no look has shown yet: nothing.
    pub fn none(alloc: Global) -> Sight {
        Sight {
            subchannels: Vec::new(alloc),
            units: Vec::new(alloc),
            up: Vec::new(alloc),
            requested: 0,
            reports: 0,
        }
    }

    /// The subchannel of an index, in the order of the parties; None where there is none.
    pub fn subchannel(&self, index: usize) -> Option<&PackedState>
        ensures found { IfSome result (λ seen. slice_get self.now.subchannels.items index ≡ Some seen.now) }
        ensures none { IfNone result (slice_get self.now.subchannels.items index ≡ None) }
    {
        self.subchannels.as_slice().get(index)
    }

    /// What an instruction finds of the subchannel of this index, in the order of the parties; None where there is none.
    pub fn found(&self, subchannel: usize) -> Option<Fact>
        ensures { result ≡ spec.found_of self.now subchannel }
    {
        let seen = self.subchannels.as_slice().get(subchannel)?;
        Some(Fact::Found {
            subchannel,
            control: seen.scsw_words()[0],
            enabled: seen.is_enabled(),
        })
    }

    /// Whether the path of a subchannel is not down.
    pub fn is_available(&self, subchannel: usize, path: Path) -> bool
        ensures { result ≡ spec.is_available self.now subchannel path }
    {
        match self.subchannels.as_slice().get(subchannel) {
            Some(seen) => seen.up().has(path),
            None => false,
        }
    }
}
