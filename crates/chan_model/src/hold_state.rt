//! The subsystem's side of one subchannel (own).

use crate::names::Path;

/// What the subsystem takes the device to be held by.
#[derive(Clone, Copy, Debug)]
pub enum HoldPhase {
    /// Nothing.
    Free,
    /// A program was offered under this number, on this path.
    Offer {
        number: u64,
        path: Path,
    },
    /// The program of this number holds it, and is connected on this path.
    On {
        number: u64,
        path: Path,
        connection: u64,
    },
    /// The program of this number holds it, and is not connected.
    Away {
        number: u64,
    },
    /// It is let go on this path, and has not answered yet.
    Letting {
        number: u64,
        path: Path,
    },
    /// It is to be reset under this number.
    Reset {
        number: u64,
    },
}

/// The whole of the subsystem's side.
#[derive(Clone, Copy, Debug)]
pub struct HoldState {
    pub phase: HoldPhase,
    /// The last connection number seen since the Accept.
    pub seen: u64,
    /// The restart count of the unit that is known.
    pub known_restarts: u64,
    /// The path that the Reset was sent on, where it was sent.
    pub reset_path: Option<Path>,
    /// The path of the last Accept.
    pub first_path: Option<Path>,
    /// The program is in single-path mode: it keeps to the path of its Accept.
    pub single_path: bool,
}
