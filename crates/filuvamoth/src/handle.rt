//! A handle as C declares it.

ghost use Rattle.std.specs.Prelude.{◌≡◌, Some, None, is_some, false, MatchOption};

use crate::held::Held;
use crate::parts::Parts;
use host_machine::host_machine::HostMachine;
use std::alloc::Global;
use std::marker::Send;
use std::mem::replace;

/// A machine in the host's memory: sixteen bytes, and all of them zero while it is closed.
#[repr(C)]
#[derive(Drop)]
pub struct Handle {
    pub held: Held,
    pub open: bool,
    ghost agrees: { «open» ≡ is_some held.inside },
}

impl Handle {
    /// Opens the handle on a machine. It has to be closed, as what it led to would never be freed.
    pub fn put(&mut self, inside: Box<HostMachine>)
        requires { is_some self.old.held.inside ≡ false }
        ensures { self.new.held.inside ≡ Some inside.value }
    {
        *self = Handle {
            held: Held::of_parts(Parts::of(inside)),
            open: true,
        };
    }

    /// Takes the machine out, if there is one.
    pub fn take(&mut self, alloc: Global) -> Option<Box<HostMachine>>
        ensures was { MatchOption result (self.old.held.inside ≡ None) (λ inside. self.old.held.inside ≡ Some inside.value) }
        ensures closed { self.new.held.inside ≡ None }
    {
        let closed = Handle {
            held: Held::none(),
            open: false,
        };
        let Handle { held, open } = replace(self, closed);
        if open {
            Some(held.into_parts().into_box(alloc))
        } else {
            None
        }
    }
}

fn sent<T: Send>(_value: &T) {}

/// Nothing calls it. It is proved only as a handle may go to another thread, which the host relies on.
fn handle_is_sent(handle: &Handle) {
    sent(handle)
}
