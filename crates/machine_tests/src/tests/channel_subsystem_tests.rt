//! A channel subsystem that is lent its storage for each call: a write is accepted, and its history is performed again.

use crate::tests::writing::{one_path, script};
use channel_subsystem::hosted::ChannelSubsystem;
use channel_subsystem::keeping::Keeping;
use path_select::Rotating;
use std::alloc::Global;
use storage_keys::Storage;

/// A channel subsystem that keeps its history; None where there is no memory.
fn opened(alloc: Global) -> Option<ChannelSubsystem<Rotating>> {
    ChannelSubsystem::new(alloc, one_path(alloc), 16, Keeping::AllEntries, Rotating {}).ok()
}

/// Whether the events of a write are accepted; or, where another subsystem is given, whether its history is performed again.
fn performs_on(
    subsystem: &mut ChannelSubsystem<Rotating>,
    storage: &mut Storage,
    other: Option<&ChannelSubsystem<Rotating>>,
) -> bool {
    if let Some(other) = other {
        return subsystem.replay(storage, &other.history()).is_ok();
    }
    for event in script().iter() {
        if subsystem.perform(storage, event).is_err() {
            return false;
        }
    }
    true
}

/// The same on storage of zeros.
fn performs(
    alloc: Global,
    subsystem: &mut ChannelSubsystem<Rotating>,
    other: Option<&ChannelSubsystem<Rotating>>,
) -> bool {
    match Storage::new(alloc, 16) {
        Ok(mut storage) => performs_on(subsystem, &mut storage, other),
        Err(_) => false,
    }
}

/// Whether the history of a subsystem is performed again at another.
fn is_repeated(alloc: Global, first: &ChannelSubsystem<Rotating>) -> bool {
    match opened(alloc) {
        Some(mut second) => performs(alloc, &mut second, Some(first)),
        None => false,
    }
}

/// Whether a write is accepted, and its history is performed again.
fn is_kept(alloc: Global) -> bool {
    match opened(alloc) {
        Some(mut first) => performs(alloc, &mut first, None) && is_repeated(alloc, &first),
        None => false,
    }
}

#[test]
fn a_write_is_kept_and_performed_again(rt: HostRuntime) {
    assert!(rt; is_kept(rt.alloc()));
}
