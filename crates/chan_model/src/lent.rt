//! Signals whose bytes are lent, and signals that have none.

ghost use Rattle.std.specs.Prelude.{◌≡◌, ◌≤◌, length};
ghost use Rattle.chan_model.specs.Signals.{down_length, up_length};

use crate::signal::{KeptDown, KeptUp};

/// A signal down whose bytes are lent: what is kept of it, and bytes of which it has the first.
#[derive(Clone, Copy)]
pub struct LentDown<'a> {
    pub kept: &'a KeptDown,
    pub bytes: &'a [u8],
    ghost fits: { down_length kept.now ≤ length bytes.now },
}

/// A signal up whose bytes are lent: what is kept of it, and bytes of which it has the first.
#[derive(Clone, Copy)]
pub struct LentUp<'a> {
    pub kept: &'a KeptUp,
    pub bytes: &'a [u8],
    ghost fits: { up_length kept.now ≤ length bytes.now },
}

/// A signal down that has no bytes.
#[derive(Clone, Copy)]
pub struct PlainDown {
    pub kept: KeptDown,
    ghost none: { down_length kept ≡ 0 },
}

/// A signal up that has no bytes.
#[derive(Clone, Copy)]
pub struct PlainUp {
    pub kept: KeptUp,
    ghost none: { up_length kept ≡ 0 },
}
