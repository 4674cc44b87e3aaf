//! Lists of paths.

ghost use Rattle.std.specs.Prelude.{◌≡◌, ◌<◌, ◌++◌, []};
ghost use Rattle.streams.specs.Sinks.{Puts};
ghost use Rattle.word_parts.specs.Paths as spec;

use crate::number::{put_hex, put_hex_between};
use streams::Sink;
use zbits::flag;

/// How many paths a subchannel has at most.
const PATHS: u32 = 8;

/// The bit of a word at which a mask begins that stands at its right end.
const FIRST_BIT: u32 = 24;

/// The identifier of a channel path in brackets, where it is known.
fn put_chpid<S: Sink>(sink: &mut S, chpid: Option<u8>) -> bool
    ensures { Puts (S.seen sink.old) (spec.chpid_text chpid) (S.seen sink.new) result }
{
    match chpid {
        Some(chpid) => put_bracketed(sink, chpid),
        None => true,
    }
}

fn put_bracketed<S: Sink>(sink: &mut S, chpid: u8) -> bool
    ensures { Puts (S.seen sink.old) (spec.bracketed_text chpid) (S.seen sink.new) result }
{
    put_hex_between(sink, b" (", u32::from(chpid), 2, b")")
}

/// The index of a path, and the identifier of its channel path.
#[tactic(auto, using(streams::proofs::Sinking::takes_then, streams::proofs::Sinking::fails_then))]
fn put_path<S: Sink>(sink: &mut S, path: u32, chpid: Option<u8>) -> bool
    ensures { Puts (S.seen sink.old) (spec.path_text path chpid) (S.seen sink.new) result }
{
    put_hex(sink, path, 1) && put_chpid(sink, chpid)
}

/// Whether a path is in a mask, path 0 leftmost.
fn is_in(mask: u8, path: u32) -> bool
    requires { path < 8 }
    ensures { result ≡ spec.is_in mask path }
{
    flag(u32::from(mask), FIRST_BIT + path)
}

/// What goes before a path: nothing, where no path of a lower index is in the mask.
fn lead(mask: u8, path: u32) -> &'static [u8]
    requires { path < 8 }
    ensures { result.now ≡ spec.lead mask path }
{
    if u32::from(mask) >> (PATHS - path) == 0 {
        b""
    } else {
        b", "
    }
}

/// A path after what goes before it.
#[tactic(auto, using(streams::proofs::Sinking::takes_then, streams::proofs::Sinking::fails_then))]
fn put_led<S: Sink>(sink: &mut S, lead: &[u8], path: u32, chpid: Option<u8>) -> bool
    ensures { Puts (S.seen sink.old) (lead.now ++ spec.path_text path chpid) (S.seen sink.new) result }
{
    sink.put(lead) && put_path(sink, path, chpid)
}

/// A path of a mask, where it is in the mask.
fn put_item<S: Sink>(sink: &mut S, mask: u8, path: u32, chpids: &[u8]) -> bool
    requires { path < 8 }
    ensures { Puts (S.seen sink.old) (spec.item_text mask path chpids.now) (S.seen sink.new) result }
{
    if is_in(mask, path) {
        put_led(
            sink,
            lead(mask, path),
            path,
            chpids.get(path as usize).copied(),
        )
    } else {
        true
    }
}

/// Two paths.
#[tactic(auto, using(streams::proofs::Sinking::takes_then, streams::proofs::Sinking::fails_then))]
fn put_pair<S: Sink>(sink: &mut S, mask: u8, first: u32, chpids: &[u8]) -> bool
    requires { first < 7 }
    ensures { Puts (S.seen sink.old) (spec.pair_text mask first chpids.now) (S.seen sink.new) result }
{
    put_item(sink, mask, first, chpids) && put_item(sink, mask, first + 1, chpids)
}

/// Four paths.
#[tactic(auto, using(streams::proofs::Sinking::takes_then, streams::proofs::Sinking::fails_then))]
fn put_half<S: Sink>(sink: &mut S, mask: u8, first: u32, chpids: &[u8]) -> bool
    requires { first < 5 }
    ensures { Puts (S.seen sink.old) (spec.half_text mask first chpids.now) (S.seen sink.new) result }
{
    put_pair(sink, mask, first, chpids) && put_pair(sink, mask, first + 2, chpids)
}

/// The paths of a mask that is neither empty nor full.
#[tactic(auto, using(streams::proofs::Sinking::takes_then, streams::proofs::Sinking::fails_then))]
fn put_some<S: Sink>(sink: &mut S, mask: u8, chpids: &[u8]) -> bool
    ensures { Puts (S.seen sink.old) (spec.some_text mask chpids.now) (S.seen sink.new) result }
{
    put_half(sink, mask, 0, chpids) && put_half(sink, mask, 4, chpids)
}

/// The paths of a mask, path 0 leftmost, each by its index and, where one is given for it, the identifier of its channel
/// path in brackets; `all` and `none` where it has all or none.
pub fn put_paths<S: Sink>(sink: &mut S, mask: u8, chpids: &[u8]) -> bool
    ensures { Puts (S.seen sink.old) (spec.paths_text mask chpids.now) (S.seen sink.new) result }
{
    match mask {
        0xFF => sink.put(b"all"),
        0 => sink.put(b"none"),
        _ => put_some(sink, mask, chpids),
    }
}

/// A text and the paths of a mask.
#[tactic(auto, using(streams::proofs::Sinking::takes_then, streams::proofs::Sinking::fails_then))]
pub fn put_paths_after<S: Sink>(sink: &mut S, text: &[u8], mask: u8) -> bool
    ensures { Puts (S.seen sink.old) (text.now ++ spec.paths_text mask []) (S.seen sink.new) result }
{
    sink.put(text) && put_paths(sink, mask, &[])
}
