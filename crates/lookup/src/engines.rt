//! Which subchannel the engine of each channel path serves: one at a time (SA22-7832, chapter 15, the active allegiance).

ghost use Rattle.std.specs.Prelude.{◌≡◌, ◌<◌, IfSome, None, replicate};
ghost use Rattle.subchannel_model.specs.Choosing as choosing_spec;
ghost use Rattle.lookup.specs.Tables as spec;

use functions::Subchannel;
use hold::Hold;
use std::marker::Model;

/// The identifier of the channel path whose engine the subchannel engages: the path of its active allegiance (SA22-7832,
/// chapter 15). None where it has none.
pub fn engaged(sub: &Subchannel) -> Option<u8>
    ensures value { result ≡ spec.engaged sub.now }
    ensures small { IfSome result (λ c. c < 0x100) }
{
    let path = Hold::of(sub.state.rest().hold).engaged_path()?;
    sub.state
        .setup()
        .paths
        .as_slice()
        .get(path.index())
        .copied()
}

/// Which subchannel the engine of each channel path serves, by its identifier (CHPID): the index of that subchannel, or none.
#[derive(Drop)]
pub struct Engines {
    indices: [Option<usize>; 256],
}

impl Model for Engines {
    ghost use Rattle.std.specs.Prelude.{ℕ, List, Option};

    ghost Value = { List (Option ℕ) };

    ghost view = { λ e. e.indices };
}

impl Engines {
    /// No engine serves a subchannel.
    pub fn new() -> Self
        ensures { result ≡ replicate 0x100 None }
    {
        Engines {
            indices: [None; 256],
        }
    }

    /// The index of the subchannel that the engine of this channel path serves; None where it serves none.
    pub fn server(&self, chpid: u8) -> Option<usize>
        ensures { result ≡ spec.server self.now chpid }
    {
        self.indices[usize::from(chpid)]
    }

    /// The subchannel at this index, which engaged the engine `before`, comes to engage the engine `after`; either may be none,
    /// or both the same.
    pub fn change(&mut self, index: usize, before: Option<u8>, after: Option<u8>)
        ensures { self.new ≡ spec.served_at index before after self.old }
    {
        if let Some(chpid) = before {
            self.indices[usize::from(chpid)] = None;
        }
        if let Some(chpid) = after {
            self.indices[usize::from(chpid)] = Some(index);
        }
    }
}

/// Subchannels, beside which of them each engine serves. To a contract it is the list of the subchannels.
#[derive(Drop)]
pub struct Served<'a> {
    subs: &'a [Subchannel],
    engines: &'a Engines,
}

impl<'a> Model for Served<'a> {
    ghost use Rattle.std.specs.Prelude.{List};
    ghost use Rattle.subchannel_model.specs.declared.state.Subchannel.{Subchannel};
    ghost use Rattle.lookup.specs.Tables.{Serves};

    ghost Value = { List Subchannel };

    ghost view = { λ s. s.subs.now };

    ghost invariant = { λ s. Serves s.engines.now s.subs.now };
}

impl<'a> Served<'a> {
    /// These subchannels, with the engines that serve them.
    pub fn of(subs: &'a [Subchannel], engines: &'a Engines) -> Self
        requires { spec.Serves engines.now subs.now }
        ensures { result ≡ subs.now }
    {
        Served { subs, engines }
    }

    /// Whether some subchannel engages the engine of this channel path.
    pub fn is_engaged(&self, chpid: u8) -> bool
        ensures { result ≡ choosing_spec.any_engages self.now chpid }
    {
        let engines = self.engines;
        engines.server(chpid).is_some()
    }
}
