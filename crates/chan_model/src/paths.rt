//! Sets of the paths of a subchannel.

ghost use Rattle.std.specs.Prelude.{◌≡◌, ◌<◌, ◌≤◌, ◌^◌, ◌==◌, nat_lt, true, false, slice_set};
ghost use Rattle.std.specs.Iterator.{YieldsFirst, item_count};
ghost use Rattle.chan_model.specs.PathSets as spec;

use crate::names::Path;
use std::marker::Model;

/// For each path of a subchannel, whether it is in the set. Inside it is the mask that control blocks have for it, path 0
/// leftmost.
#[derive(Clone, Copy, Debug)]
pub struct PathSet {
    mask: u8,
}

impl Model for PathSet {
    ghost use Rattle.std.specs.Prelude.{List, Bool, ◌<◌};
    ghost use Rattle.chan_model.specs.PathSets.{mask_of_paths, paths_of_mask};

    ghost Value = { List Bool };

    ghost view = { λ s. paths_of_mask s.mask };

    ghost invariant = { λ s. s.mask < 256 };

    ghost inverse = { λ set. record { mask = mask_of_paths set } };

    ghost use Rattle.std.proofs.Common.{ap};
    ghost use Rattle.chan_model.specs.Masks.{mask-is};

    ghost inverse_ok = { λ a h. ap (λ m. record { mask = m }) (mask-is a.mask h) };
}

impl PathSet {
    /// The paths of a mask, path 0 leftmost.
    pub fn of_mask(mask: u8) -> PathSet
        ensures { result ≡ spec.paths_of_mask mask }
    {
        PathSet { mask }
    }

    /// No path.
    pub fn none() -> PathSet
        ensures { result ≡ spec.no_paths }
    {
        PathSet { mask: 0 }
    }

    /// The paths 0 to 7.
    pub fn all() -> PathSet
        ensures { result ≡ spec.all_paths }
    {
        PathSet { mask: 0xFF }
    }

    /// The paths below a number.
    pub fn below(count: usize) -> PathSet
        ensures { result ≡ spec.each_path (λ path. nat_lt path count) }
    {
        if count < 8 {
            PathSet {
                mask: !(0xFF >> count),
            }
        } else {
            PathSet { mask: 0xFF }
        }
    }

    /// One path.
    pub fn one(path: Path) -> PathSet
        ensures { result ≡ spec.each_path (λ other. path == other) }
    {
        PathSet {
            mask: 0x80 >> path.index(),
        }
    }

    /// The mask of the set, path 0 leftmost.
    pub fn mask(&self) -> u8
        ensures mask { result ≡ spec.mask_of_paths self.now }
        ensures set { spec.paths_of_mask result ≡ self.now }
    {
        self.mask
    }

    /// Whether a path is in the set.
    pub fn has(&self, path: Path) -> bool
        ensures { result ≡ spec.is_member self.now path }
    {
        self.mask & (0x80 >> path.index()) != 0
    }

    /// Whether some path is in the set.
    pub fn any(&self) -> bool
        ensures { result ≡ spec.is_any self.now }
    {
        self.mask != 0
    }

    /// The paths of both sets.
    pub fn intersection(&self, other: &PathSet) -> PathSet
        ensures { result ≡ spec.in_both self.now other.now }
    {
        PathSet {
            mask: self.mask & other.mask,
        }
    }

    /// The paths of this set that are not in the other.
    pub fn without(&self, other: &PathSet) -> PathSet
        ensures { result ≡ spec.without self.now other.now }
    {
        PathSet {
            mask: self.mask & !other.mask,
        }
    }

    /// The paths of either set.
    pub fn union(&self, other: &PathSet) -> PathSet
        ensures { result ≡ spec.joined self.now other.now }
    {
        PathSet {
            mask: self.mask | other.mask,
        }
    }

    /// The path of the set that comes first, counted from this number on, where 0 follows 7; None where the set is empty.
    pub fn first_from(&self, first: usize) -> Option<Path>
        requires { first < 8 }
        ensures { result ≡ spec.cyclic_path self.now 8 first }
    {
        let later = self.mask & (0xFF >> first);
        if later != 0 {
            Path::new(later.leading_zeros())
        } else {
            Path::new(self.mask.leading_zeros())
        }
    }

    /// The paths of the set, in order of path numbers.
    pub fn each_path(&self) -> EachPath
        ensures { result ≡ spec.members self.now }
    {
        EachPath { mask: self.mask }
    }

    /// Puts a path into the set, or takes it out.
    pub fn set(&mut self, path: Path, is_in: bool)
        ensures { self.new ≡ slice_set self.old path is_in }
    {
        if is_in {
            self.add(path);
        } else {
            self.remove(path);
        }
    }

    /// Puts a path into the set.
    pub fn add(&mut self, path: Path)
        ensures { self.new ≡ slice_set self.old path true }
    {
        self.mask |= 0x80 >> path.index();
    }

    /// Takes a path out of the set.
    pub fn remove(&mut self, path: Path)
        ensures { self.new ≡ slice_set self.old path false }
    {
        self.mask &= !(0x80 >> path.index());
    }
}

/// The paths of a set that are still to come, in order of path numbers. From [`PathSet::each_path`].
#[derive(Clone, Debug, Drop)]
pub struct EachPath {
    mask: u8,
}

impl Model for EachPath {
    ghost use Rattle.std.specs.Prelude.{List, ℕ, ◌<◌};
    ghost use Rattle.chan_model.specs.PathSets.{members, paths_of_mask};

    ghost Value = { List ℕ };

    ghost view = { λ paths. members (paths_of_mask paths.mask) };

    ghost invariant = { λ paths. paths.mask < 256 };
}

impl Iterator for EachPath {
    type Item = Path;

    ghost next_gives = { YieldsFirst (λ paths. paths) };

    ghost remaining = { item_count (λ paths. paths) };

    fn next(&mut self) -> Option<Path> {
        let path = Path::new(self.mask.leading_zeros())?;
        self.mask &= !(0x80 >> path.index());
        Some(path)
    }
}

/// The mask of one path, or of none.
pub fn mask_of_path(path: Option<Path>) -> u8
    ensures { result ≡ spec.mask_of_path path }
{
    match path {
        None => 0,
        Some(path) => 0x80 >> path.index(),
    }
}
