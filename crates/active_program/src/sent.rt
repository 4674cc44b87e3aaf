//! A slot for a signal that may be sent on a path.

ghost use Rattle.std.specs.Prelude.{◌≡◌, None, Some};
ghost use Rattle.chan_model.specs.Lent.{lent_down};
ghost use Rattle.chan_model.specs.Signals.{map_sent};
ghost use Rattle.active_program.specs.Sent.{sent_path};

use chan_model::lent::LentDown;
use chan_model::names::Path;
use chan_model::signal::{Down, OnPath};
use chan_model::slots::DownSlot;
use std::marker::Model;

/// A signal down that is sent on a path, or none.
#[derive(Drop)]
pub struct SentDown {
    path: Option<Path>,
    slot: DownSlot,
}

impl Model for SentDown {
    ghost use Rattle.std.specs.Prelude.{Option};
    ghost use Rattle.chan_model.specs.Signals.{Down};
    ghost use Rattle.chan_model.specs.declared.signal.OnPath.{OnPath};
    ghost use Rattle.active_program.specs.Sent.{sent_on};

    ghost Value = { Option (OnPath Down) };

    ghost view = { λ s. sent_on s.path s.slot };
}

impl SentDown {
    /// None.
    pub fn new() -> Self
        ensures { result ≡ None }
    {
        SentDown {
            path: None,
            slot: DownSlot::new(),
        }
    }

    /// None from now on.
    pub fn clear(&mut self)
        ensures { self.new ≡ None }
    {
        self.path = None;
    }

    /// This signal from now on.
    pub fn put(&mut self, path: Path, signal: &LentDown<'_>)
        ensures { self.new ≡ Some (record { path = path; signal = lent_down signal.now }) }
    {
        self.path = Some(path);
        self.slot.put(signal);
    }

    /// What is sent, or none, from now on.
    pub fn put_any(&mut self, sent: &Option<OnPath<LentDown<'_>>>)
        ensures { self.new ≡ map_sent lent_down sent.now }
    {
        match sent {
            None => self.clear(),
            Some(sent) => self.put(sent.path, &sent.signal),
        }
    }

    /// The path of the signal that is sent; None where none is.
    pub fn path(&self) -> Option<Path>
        ensures { result ≡ sent_path self.now }
    {
        self.path
    }

    /// The signal that is sent; None where none is.
    pub fn get(&self) -> Option<OnPath<LentDown<'_>>>
        ensures { map_sent lent_down result ≡ self.now }
    {
        match self.path {
            None => None,
            Some(path) => Some(OnPath {
                path,
                signal: self.slot.lend(),
            }),
        }
    }

    /// The signal that is sent, with its own bytes; None where none is.
    pub fn own(&self) -> Option<OnPath<Down>>
        ensures { result ≡ self.now }
    {
        match self.path {
            None => None,
            Some(path) => Some(OnPath {
                path,
                signal: self.slot.lend().own(),
            }),
        }
    }
}
