//! What is told by a number that has none of its own.

ghost use Rattle.std.specs.Prelude.{◌≡◌};
ghost use Rattle.host_sight.specs.Told as spec;

use chan_model::names::Path;

/// There is no path.
pub const NO_PATH: u32 = 8;

/// The index of a path, `NO_PATH` where there is none.
pub fn path_told(path: Option<Path>) -> u32
    ensures { result ≡ spec.path_told path }
{
    match path {
        None => NO_PATH,
        Some(path) => path.index() as u32,
    }
}

/// Whether something is so: 1, else 0.
pub fn flag_told(so: bool) -> u32
    ensures { result ≡ spec.flag_told so }
{
    if so { 1 } else { 0 }
}
