//! The sets of paths of which one is chosen (own).

ghost use Rattle.std.specs.Prelude.{◌≡◌, ◌&&◌, not};
ghost use Rattle.allegiance.specs.PathUse as use_spec;
ghost use Rattle.chan_model.specs.PathSets as set_spec;
ghost use Rattle.subchannel_model.specs.Choosing as spec;

use allegiance::path_use::PathUse;
use chan_model::names::Path;
use chan_model::paths::PathSet;
use functions::Subchannel;
use lookup::engines::Served;

/// What decides which paths the subchannel may use.
pub(crate) fn path_use(sub: &Subchannel) -> PathUse
    ensures { result ≡ spec.path_use sub.now }
{
    let state = &sub.state;
    PathUse {
        logical: state.logical(),
        installed: state.installed(),
        available: state.available(),
        operational: state.operational(),
        not_operational: state.not_operational(),
        dedicated: state.rest().dedicated,
    }
}

/// Whether some path is within reach, be its engine free or not.
pub(crate) fn is_any_reachable(sub: &Subchannel) -> bool
    ensures { result ≡ set_spec.is_any (use_spec.reachable_paths (spec.path_use sub.now)) }
{
    path_use(sub).reachable().any()
}

/// Whether some path is found not operational.
pub(crate) fn is_any_lost(sub: &Subchannel) -> bool
    ensures { result ≡ set_spec.is_any (use_spec.lost_paths (spec.path_use sub.now)) }
{
    path_use(sub).lost().any()
}

/// The paths that may be used and whose engines are free. The engine is asked only of a path that is within reach.
pub(crate) fn usable_paths(subs: &Served<'_>, sub: &Subchannel) -> PathSet
    ensures { result ≡ use_spec.usable_paths (spec.path_use sub.now) (spec.engaged_paths subs.now sub.now) }
{
    let reachable = path_use(sub).reachable();
    let mut usable = reachable;
    for path in reachable.each_path() {
        usable.set(path, !is_engaged(subs, sub, path));
    }
    usable
}

/// Whether the engine of a path serves some subchannel.
fn is_engaged(subs: &Served<'_>, sub: &Subchannel, path: Path) -> bool
    ensures { result ≡ set_spec.is_member (spec.engaged_paths subs.now sub.now) path }
{
    match sub.state.setup().paths.as_slice().get(path.index()) {
        None => false,
        Some(chpid) => subs.is_engaged(*chpid),
    }
}

/// The paths by which a program that is away may come back: in single-path mode the one of its Accept, otherwise any, if it is
/// available.
pub(crate) fn return_paths(sub: &Subchannel) -> PathSet
    ensures { result ≡ spec.return_paths sub.now }
{
    let available = sub.state.available();
    let hold = &sub.state.rest().hold;
    if !hold.single_path {
        return available;
    }
    match hold.first_path {
        None => PathSet::none(),
        Some(first) => available.intersection(&PathSet::one(first)),
    }
}

/// Whether the program that is away is granted this path, by which it asks to come back: it is one by which it may, and its
/// engine serves no subchannel.
pub fn is_granted(subs: &Served<'_>, sub: &Subchannel, path: Path) -> bool
    ensures { result ≡ (set_spec.is_member (spec.return_paths sub.now) path
        && not (set_spec.is_member (spec.engaged_paths subs.now sub.now) path)) }
{
    return_paths(sub).has(path) && !is_engaged(subs, sub, path)
}
