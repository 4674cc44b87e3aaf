//! Which of the usable paths of a subchannel is taken (own).
//!
//! Used alone, this crate promises: by each type that keeps the law of `PathChoice`, a choice is None exactly where the set
//! is empty, and otherwise one of its paths. `Lowest` gives the lowest of them; `Rotating` gives the first that follows the
//! path of the choice before, where path 0 follows path 7. A choice depends on its arguments alone, changes nothing, takes no
//! memory and refuses nothing; which paths are usable is the caller's to say.
#![tactic(auto)]

ghost use Rattle.std.specs.Prelude.{◌<◌, ◌+◌};
ghost use Rattle.path_select.specs.Choice.{IsChoice, IsNextFrom, TakesLowest, TakesNext};

use chan_model::names::Path;
use chan_model::paths::PathSet;

/// Picks one of the usable paths.
pub trait PathChoice {
    ghost use Rattle.path_select.specs.Choice.{Rule};

    // The rule of the choice: by the usable paths and the path of the choice before, which path may be taken.
    ghost picks: { Rule };

    /// A path of the set; None where it is empty. `last` is the path of the choice before.
    fn choose(&self, usable: &PathSet, last: Option<Path>) -> Option<Path>
        ensures law { IsChoice usable.now result }
        ensures rule { picks usable.now last result };
}

/// The lowest path.
#[derive(Clone, Copy, Debug)]
pub struct Lowest;

/// The path that follows the last one, where path 0 follows path 7, and is usable; at first the lowest.
#[derive(Clone, Copy, Debug)]
pub struct Rotating;

impl PathChoice for Lowest {
    ghost picks = { TakesLowest };

    fn choose(&self, usable: &PathSet, _last: Option<Path>) -> Option<Path> {
        first_from(usable, 0)
    }
}

impl PathChoice for Rotating {
    ghost picks = { TakesNext };

    fn choose(&self, usable: &PathSet, last: Option<Path>) -> Option<Path> {
        match last {
            Some(path) => first_from(usable, (path.index() + 1) % 8),
            None => first_from(usable, 0),
        }
    }
}

/// The usable path that comes first, counted from this one on.
fn first_from(usable: &PathSet, first: usize) -> Option<Path>
    requires { first < 8 }
    ensures law { IsChoice usable.now result }
    ensures next { IsNextFrom usable.now first result }
{
    usable.first_from(first)
}
