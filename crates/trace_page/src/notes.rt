//! The notes of a page: what changed in a row, beside the lane of whom it changed for.

use chan_events::reply::Reply;
use memory::Supply;
use page_text::page::Page;
use record_text::number::put_hexadecimal;
use record_text::short::{put_copy_head, put_short, put_statuses};
use record_text::told::{put_attention_taken, put_cause, put_enabled, put_place};
use script_text::{ActionResult, put_bytes};
use step_records::parties::Parties;
use step_records::record::{Cause, Direction, Fact, Holder, Place};
use streams::Sink;
use word_names::put_status_names;

/// How many bytes of a chunk a note shows.
const SHOWN_BYTES: usize = 8;

/// The note of a fact; of a status that was made, its first line.
pub fn put_note<M: Supply>(page: &mut Page<'_, M>, parties: &Parties, fact: &Fact) -> bool {
    match fact {
        Fact::Answer(Ok(ActionResult::Reply(reply))) => put_code(page, reply),
        Fact::Enabled {
            enabled,
            subclass,
            multipath,
            ..
        } => put_enabled(page, *enabled, *subclass, *multipath),
        Fact::Copy {
            direction,
            address,
            bytes,
            ..
        } => put_copy(page, *direction, *address, bytes.as_slice()),
        Fact::StatusMade { words, cause, .. } => put_status(page, words[0], *cause),
        Fact::Owner { after, .. } => put_owner(page, &after.holder),
        Fact::AttentionTaken { attention, .. } => put_attention_taken(page, *attention),
        other => put_short(page, parties, other),
    }
}

/// The first line of a status: its names, or what was done where it has none of a program.
fn put_status<M: Supply>(page: &mut Page<'_, M>, word: u32, cause: Cause) -> bool {
    page.put(b"STATUS ")
        && match cause {
            Cause::ClearDone | Cause::HaltDone => put_cause(page, cause),
            _ => put_status_names(page, word),
        }
}

/// The second line of a status: what it says of the device and of the subchannel, and the count.
pub fn put_second<M: Supply>(page: &mut Page<'_, M>, fact: &Fact) -> bool {
    let Fact::StatusMade { words, .. } = fact else {
        return true;
    };
    put_statuses(page, words[2], b", ")
}

/// The code of an interruption.
fn put_code<M: Supply>(page: &mut Page<'_, M>, reply: &Reply) -> bool {
    match reply {
        Reply::Interruption(Some(code)) => {
            page.put(b"subchannel ")
                && put_hexadecimal(page, u64::from(code.subchannel))
                && page.put(b", ISC ")
                && put_hexadecimal(page, u64::from(code.subclass))
        }
        _ => true,
    }
}

/// Bytes that moved between storage and the wires: the first of them.
fn put_copy<M: Supply>(
    page: &mut Page<'_, M>,
    direction: Direction,
    address: u32,
    bytes: &[u8],
) -> bool {
    put_copy_head(page, direction, address) && put_front(page, bytes)
}

/// The first bytes of a chunk.
fn put_front<M: Supply>(page: &mut Page<'_, M>, bytes: &[u8]) -> bool {
    if bytes.len() <= SHOWN_BYTES {
        put_bytes(page, bytes)
    } else {
        put_bytes(page, &bytes[..SHOWN_BYTES]) && page.put("…".as_bytes())
    }
}

/// Whom a unit is held by.
fn put_owner<M: Supply>(page: &mut Page<'_, M>, holder: &Option<Holder>) -> bool {
    match holder {
        None => page.put(b"idle"),
        Some(holder) => match holder.place {
            Place::On(_) => put_holder(page, holder),
            place => put_place(page, place),
        },
    }
}

/// The program that holds a unit.
fn put_holder<M: Supply>(page: &mut Page<'_, M>, holder: &Holder) -> bool {
    page.put(b"held by ")
        && put_hexadecimal(page, holder.number)
        && page.put(b" of ")
        && put_hexadecimal(page, holder.subchannel as u64)
}
