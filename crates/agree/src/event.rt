//! What may happen to a unit and its sides.

ghost use Rattle.std.specs.Prelude.{◌≡◌};

use chan_model::names::Side;
use chan_model::report::Report;
use chan_model::signal::Down;

/// One thing that may happen. A path is its index, and an index counts the signals that were sent one way at one side and
/// have not vanished, from 0.
#[derive(Drop)]
pub enum WorldEvent {
    /// The subsystem does what it must for a side: it offers a program on the path, or sends the Reset on it.
    Choose {
        side: Side,
        path: u8,
        single_path: bool,
    },
    /// The unit takes a signal, which arrives again later where it is kept. `may` says, at Select, that the control unit may
    /// serve the unit.
    Down {
        side: Side,
        index: usize,
        keep: bool,
        may: bool,
    },
    /// The hold takes a signal, which arrives again later where it is kept. What `may` says depends on the signal: at
    /// Accept, that the program goes on; at Back, that it may be connected on this path; at Attn, that the subchannel can
    /// show it.
    Up {
        side: Side,
        index: usize,
        keep: bool,
        may: bool,
    },
    /// A signal to the unit vanishes.
    LoseDown {
        side: Side,
        index: usize,
    },
    /// A signal from the unit vanishes.
    LoseUp {
        side: Side,
        index: usize,
    },
    /// A path goes down, and the signals on it vanish.
    PathDown {
        side: Side,
        path: u8,
    },
    /// A path comes up.
    PathUp {
        side: Side,
        path: u8,
    },
    /// A path is reset: it stays up, and the signals on it vanish.
    PathReset {
        side: Side,
        path: u8,
    },
    /// The subsystem lets the device go.
    LetGo {
        side: Side,
    },
    /// The subsystem sends a signal of the program of a side: a Command, Took, Give or Halt.
    Send {
        side: Side,
        path: u8,
        signal: Down,
    },
    /// The program clears the subchannel.
    Clear {
        side: Side,
    },
    /// The subsystem is reset.
    SubsystemReset,
    /// The unit leaves the path of its program.
    Leave,
    /// The unit asks for a path.
    Ask {
        path: u8,
    },
    /// The unit asks a side for attention.
    Attention {
        side: Side,
        path: u8,
    },
    /// The unit tells a side how often it was restarted.
    Notice {
        side: Side,
        path: u8,
    },
    /// The device is restarted.
    Restart,
    /// The device answered.
    Report(Report),
}

impl WorldEvent {
    /// The same event; it takes no memory.
    pub fn copy(&self) -> Self
        ensures { result ≡ self.now }
    {
        match self {
            WorldEvent::Choose {
                side,
                path,
                single_path,
            } => WorldEvent::Choose {
                side: *side,
                path: *path,
                single_path: *single_path,
            },
            WorldEvent::Down {
                side,
                index,
                keep,
                may,
            } => WorldEvent::Down {
                side: *side,
                index: *index,
                keep: *keep,
                may: *may,
            },
            WorldEvent::Up {
                side,
                index,
                keep,
                may,
            } => WorldEvent::Up {
                side: *side,
                index: *index,
                keep: *keep,
                may: *may,
            },
            WorldEvent::LoseDown { side, index } => WorldEvent::LoseDown {
                side: *side,
                index: *index,
            },
            WorldEvent::LoseUp { side, index } => WorldEvent::LoseUp {
                side: *side,
                index: *index,
            },
            WorldEvent::PathDown { side, path } => WorldEvent::PathDown {
                side: *side,
                path: *path,
            },
            WorldEvent::PathUp { side, path } => WorldEvent::PathUp {
                side: *side,
                path: *path,
            },
            WorldEvent::PathReset { side, path } => WorldEvent::PathReset {
                side: *side,
                path: *path,
            },
            WorldEvent::LetGo { side } => WorldEvent::LetGo { side: *side },
            WorldEvent::Send { side, path, signal } => WorldEvent::Send {
                side: *side,
                path: *path,
                signal: signal.copy(),
            },
            WorldEvent::Clear { side } => WorldEvent::Clear { side: *side },
            WorldEvent::SubsystemReset => WorldEvent::SubsystemReset,
            WorldEvent::Leave => WorldEvent::Leave,
            WorldEvent::Ask { path } => WorldEvent::Ask { path: *path },
            WorldEvent::Attention { side, path } => WorldEvent::Attention {
                side: *side,
                path: *path,
            },
            WorldEvent::Notice { side, path } => WorldEvent::Notice {
                side: *side,
                path: *path,
            },
            WorldEvent::Restart => WorldEvent::Restart,
            WorldEvent::Report(report) => WorldEvent::Report(report.copy()),
        }
    }
}
