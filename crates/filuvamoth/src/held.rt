//! The pointer that C holds, without the type of what it leads to.

ghost use Rattle.std.specs.Prelude.{◌≡◌, Option, Some, None, is_some, true};
ghost use Rattle.filuvamoth.specs.Held.{Machine, held_owns, held_coded};

use crate::parts::Parts;
use host_machine::host_machine::HostMachine;
use std::marker::{Model, Send};

/// A boxed machine as its pointer, or none.
///
/// A type that C sees names no box, so this one keeps the pointer alone, and owns what the box owned. Dropping it
/// frees nothing: take the box out first.
#[repr(C)]
#[derive(Drop)]
pub struct Held {
    at: *mut u8,
    pub ghost inside: { Option Machine } by { held_coded },
}

impl Model for Held {
    ghost also_owns = { λ held. held_owns held.at held.inside };
}

impl Held {
    pub fn none() -> Held
        ensures { result.inside ≡ None }
    {
        Held {
            at: std::ptr::null_mut(),
        }
    }

    pub fn of_parts(parts: Parts<HostMachine>) -> Held
        ensures { result.inside ≡ Some parts.value }
    {
        let Parts { at } = parts;
        Held { at: at as *mut u8 }
    }

    pub fn into_parts(self) -> Parts<HostMachine>
        requires { is_some self.inside ≡ true }
        ensures { self.inside ≡ Some result.value }
    {
        let Held { at } = self;
        Parts {
            at: at as *mut HostMachine,
        }
    }
}

// It may go to another thread, as the machine may.
unsafe impl Send for Held {}
