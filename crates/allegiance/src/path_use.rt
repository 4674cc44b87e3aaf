//! The paths that a start or a resumption may use.

ghost use Rattle.std.specs.Prelude.{◌≡◌, ◌<◌, ℕ, true, Some};
ghost use Rattle.allegiance.specs.PathUse as spec;
ghost use Rattle.chan_model.specs.PathSets.{each_path, is_any, is_member};

use chan_model::names::Path;
use chan_model::paths::PathSet;

/// What decides which paths a subchannel may use. The sets are the masks of its path-management-control word (SA22-7832,
/// chapter 15).
#[derive(Clone, Copy, Debug)]
pub struct PathUse {
    /// LPM: the paths that are logically available.
    pub logical: PathSet,
    /// PIM: the paths that are installed.
    pub installed: PathSet,
    /// PAM: the paths that are available.
    pub available: PathSet,
    /// POM: the paths that are taken to be operational.
    pub operational: PathSet,
    /// PNOM: the paths that were found not operational.
    pub not_operational: PathSet,
    /// The path of the dedicated allegiance.
    pub dedicated: Option<Path>,
}

impl PathUse {
    /// The allowed paths: the logically available ones, of which a dedicated allegiance leaves its own path at most.
    pub fn allowed(&self) -> PathSet
        ensures { result ≡ spec.allowed_paths self.now }
    {
        self.logical.intersection(&self.kept())
    }

    /// The paths that a dedicated allegiance leaves: its own where one stands, otherwise each.
    fn kept(&self) -> PathSet
        ensures { result ≡ each_path (spec.keeps_dedicated self.now.dedicated) }
    {
        match self.dedicated {
            None => PathSet::all(),
            Some(dedicated) => PathSet::one(dedicated),
        }
    }

    /// The allowed paths that are installed and available. Where there is none, a start ends with deferred condition code 3.
    pub fn reachable(&self) -> PathSet
        ensures { result ≡ spec.reachable_paths self.now }
    {
        self.allowed()
            .intersection(&self.installed)
            .intersection(&self.available)
    }

    /// Those of them whose engine is free; `engaged` has the paths whose engines serve a subchannel.
    pub fn usable(&self, engaged: &PathSet) -> PathSet
        ensures usable { result ≡ spec.usable_paths self.now engaged.now }
        ensures dedicated { (d path : ℕ) → self.now.dedicated ≡ Some d → is_member result path ≡ true → d ≡ path }
    {
        self.reachable().without(engaged)
    }

    /// The allowed installed paths that are not available though POM has them (own).
    pub fn lost(&self) -> PathSet
        ensures { result ≡ spec.lost_paths self.now }
    {
        self.allowed()
            .intersection(&self.installed)
            .without(&self.available)
            .intersection(&self.operational)
    }

    /// Takes those paths from POM and adds them to PNOM. True where there were any: then the path-not-operational bit N of the
    /// subchannel-status word is to be one (own).
    pub fn mark_lost(&mut self) -> bool
        ensures any { result ≡ is_any (spec.lost_paths self.old) }
        ensures marked { self.new ≡ spec.marked self.old }
    {
        let lost = self.lost();
        self.operational = self.operational.without(&lost);
        self.not_operational = self.not_operational.union(&lost);
        lost.any()
    }
}
