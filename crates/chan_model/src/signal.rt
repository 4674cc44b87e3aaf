//! The signals between a subchannel and its unit (own).

ghost use Rattle.std.specs.Prelude.{◌≡◌, ⊤, None, Some, false, true};

use crate::chunk::{Chunk, ChunkLength};
use crate::names::Path;
use scsw_irb::status::DeviceStatus;
use std::alloc::AllocError;

/// A signal with the path that it goes by.
#[derive(Copy, PartialEq, Eq, Debug, Drop)]
pub struct OnPath<S> {
    pub path: Path,
    pub signal: S,
}

impl<S: Copy> Clone for OnPath<S> {
    ghost is_clone = { λ x y. y ≡ x };

    ghost is_infallible = { λ _. ⊤ };

    fn clone(&self) -> Result<Self, AllocError> {
        Ok(*self)
    }
}

/// What came of a signal that was met: whether a state changed or a signal was sent, and the signal.
#[derive(Copy, PartialEq, Eq, Debug, Drop)]
pub struct Taken<S> {
    pub taken: bool,
    pub sent: Option<OnPath<S>>,
}

impl<S: Copy> Clone for Taken<S> {
    ghost is_clone = { λ x y. y ≡ x };

    ghost is_infallible = { λ _. ⊤ };

    fn clone(&self) -> Result<Self, AllocError> {
        Ok(*self)
    }
}

/// A signal from the subsystem to a unit, over what stands for its bytes: a `Chunk` that owns them, or the `ChunkLength` of bytes
/// that stand elsewhere.
///
/// `number` is the number of an offer, `connection` that of a connection, `command` that of a command of one program,
/// from 1, and `sequence` that of a chunk of one command, from 1.
#[derive(Copy, PartialEq, Eq, Debug, Drop)]
pub enum Down<B = Chunk> {
    /// The program asks for the device.
    Select {
        number: u64,
    },
    /// A command; `room` is how many bytes of a read may come at first.
    Command {
        number: u64,
        command: u64,
        code: u8,
        room: u16,
    },
    /// The unit may go on, on this connection.
    Grant {
        number: u64,
        connection: u64,
    },
    /// The unit may not go on, on this connection.
    Refuse {
        number: u64,
        connection: u64,
    },
    /// The bytes of a read are taken; `room` is how many more may come.
    Took {
        number: u64,
        command: u64,
        sequence: u64,
        room: u16,
    },
    /// Bytes of a write; none ends the transfer.
    Give {
        bytes: B,
        number: u64,
        connection: u64,
        command: u64,
        sequence: u64,
    },
    /// The command is to end.
    Halt {
        number: u64,
    },
    /// The program holds the device no more.
    Release {
        number: u64,
    },
    /// The device is to forget its program; `restarts` is the restart count that the subsystem knows.
    Reset {
        number: u64,
        restarts: u64,
    },
    /// The attention was taken.
    Got {
        attention: u64,
    },
}

impl<B: Copy> Clone for Down<B> {
    ghost is_clone = { λ x y. y ≡ x };

    ghost is_infallible = { λ _. ⊤ };

    fn clone(&self) -> Result<Self, AllocError> {
        Ok(*self)
    }
}

/// What a Data signal brings: how many bytes of a write were absorbed, or the bytes of a read.
#[derive(Copy, PartialEq, Eq, Debug, Drop)]
pub enum Load<B = Chunk> {
    Absorbed(u16),
    Bytes(B),
}

impl<B: Copy> Clone for Load<B> {
    ghost is_clone = { λ x y. y ≡ x };

    ghost is_infallible = { λ _. ⊤ };

    fn clone(&self) -> Result<Self, AllocError> {
        Ok(*self)
    }
}

/// A signal from a unit to the subsystem, with the numbers of `Down`, over what stands for the load of a Data.
#[derive(Copy, PartialEq, Eq, Debug, Drop)]
pub enum Up<L = Load> {
    /// The program holds the device.
    Accept {
        number: u64,
    },
    /// The device has no room for the program.
    Busy {
        number: u64,
    },
    /// The unit works on without the path.
    Leave {
        number: u64,
        connection: u64,
    },
    /// The unit asks for a path again.
    Back {
        number: u64,
        connection: u64,
    },
    /// Bytes were moved, or a write is asked for (`sequence` 0).
    Data {
        load: L,
        number: u64,
        connection: u64,
        command: u64,
        sequence: u64,
    },
    /// The command ended; `more` says that the device had more bytes.
    End {
        number: u64,
        command: u64,
        status: DeviceStatus,
        more: bool,
    },
    /// The device forgot the program.
    Released {
        number: u64,
    },
    /// The device took the Reset.
    Cleared {
        number: u64,
    },
    /// The device was restarted so many times.
    Notice {
        restarts: u64,
    },
    /// The device asks for attention.
    Attn {
        attention: u64,
        status: DeviceStatus,
    },
}

impl<L: Copy> Clone for Up<L> {
    ghost is_clone = { λ x y. y ≡ x };

    ghost is_infallible = { λ _. ⊤ };

    fn clone(&self) -> Result<Self, AllocError> {
        Ok(*self)
    }
}

/// A signal down whose bytes stand elsewhere.
pub type KeptDown = Down<ChunkLength>;

/// A signal up whose bytes stand elsewhere.
pub type KeptUp = Up<Load<ChunkLength>>;

impl Default for Down {
    fn default() -> Self {
        Down::Select { number: 0 }
    }
}

impl Default for Up {
    fn default() -> Self {
        Up::Accept { number: 0 }
    }
}

impl<S: Drop> Taken<S> {
    /// The signal was ignored: nothing changed, and nothing was sent.
    pub fn ignored() -> Self
        ensures { result ≡ record { taken = false; sent = None } }
    {
        Taken {
            taken: false,
            sent: None,
        }
    }

    /// The state changed, and nothing was sent.
    pub fn quietly() -> Self
        ensures { result ≡ record { taken = true; sent = None } }
    {
        Taken {
            taken: true,
            sent: None,
        }
    }

    /// A signal was sent on a path.
    pub fn sending(path: Path, signal: S) -> Self
        ensures { result ≡ record { taken = true; sent = Some (record { path = path; signal = signal }) } }
    {
        Taken {
            taken: true,
            sent: Some(OnPath { path, signal }),
        }
    }
}
