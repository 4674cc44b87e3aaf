//! The channel subsystem as functions for C (own). `host/filuvamoth.h` declares them.
//!
//! A host keeps a handle in its own memory, sets it to zero once, and passes its address to each call. Used alone, this crate
//! promises: each call that names an event, a setting or a look is that of `host_machine` on the machine behind the handle, and the
//! number that is answered is that of its answer; behind a closed handle nothing is done. A handle is used by one call at a time.
#![tactic(auto)]

ghost use Rattle.std.specs.Prelude.{◌≡◌};
ghost use Rattle.filuvamoth.specs.Calls.{ClosesAt, OpensAt};

mod calls;
mod devices;
mod events;
mod given;
mod handle;
mod held;
mod history;
mod instructions;
mod lines;
mod looks;
mod parts;
mod setting_up;
mod sights;

use calls::{ALREADY_OPEN, CLOSED};
use handle::Handle;
use host_machine::answers::NO_MEMORY;
use host_machine::host_machine::HostMachine;
use std::alloc::Global;

/// The number of this interface in the high half, and of the release in the low half.
#[unsafe(no_mangle)]
pub extern "C" fn fm_version() -> u32
    ensures { result ≡ 0x10002 }
{
    0x0001_0002
}

/// Opens a handle on a machine of which nothing is set up. It is refused where the handle is open already, and where there is no
/// memory; then the handle stays as it was.
#[unsafe(no_mangle)]
pub extern "C" fn fm_new(alloc: Global, handle: &mut Handle) -> i32
    ensures { OpensAt handle.old.held.inside result handle.new.held.inside }
{
    if handle.open {
        return ALREADY_OPEN;
    }
    match Box::new(alloc, HostMachine::new(alloc)) {
        Ok(inside) => {
            handle.put(inside);
            0
        }
        Err(_) => NO_MEMORY,
    }
}

/// Closes a handle, and frees all that its machine has.
#[unsafe(no_mangle)]
pub extern "C" fn fm_free(alloc: Global, handle: &mut Handle) -> i32
    ensures { ClosesAt handle.old.held.inside result handle.new.held.inside }
{
    match handle.take(alloc) {
        None => CLOSED,
        Some(_) => 0,
    }
}
