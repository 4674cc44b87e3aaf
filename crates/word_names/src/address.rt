//! What the CCW address of a subchannel-status word says (SA22-7832, chapter 16).

ghost use Rattle.std.specs.Prelude.{◌≡◌, ◌-◌};
ghost use Rattle.streams.specs.Sinks.{Puts};
ghost use Rattle.word_names.specs.Addresses as spec;

use streams::Sink;
use word_parts::number::put_hex_after;
use zbits::flag;

/// How much further than the channel-command word that was tried last the address of a status is.
const CCW_BYTES: u32 = 8;

/// The bits of word 0 in which a deferred condition code is, and those that say that a start function is in progress, and that status
/// is pending.
const DEFERRED_CODE: (u32, u32) = (6, 7);

const START_FUNCTION: u32 = 17;

const STATUS_PENDING: u32 = 31;

/// What a CCW address says.
#[derive(Clone, Copy)]
pub enum AddressMeaning {
    /// Nothing.
    Nothing,
    /// It is where the program begins: no status was made for it yet.
    Begins,
    /// It is where the program begins: no channel-command word of it was fetched.
    Unfetched,
    /// It is 8 past the channel-command word that was tried last.
    Past,
}

/// What the CCW address says beside this word 0: nothing, where it is zero; where a deferred condition code is told, or the start
/// function is in progress and no status is pending, the program begins there; otherwise it is that of a status.
///
/// A program of which status was made and cleared while it goes on, as that of a program-controlled interruption, shows the
/// same word 0 as one that only begins, and is taken for one; a deferred condition code that was cleared does not show any more.
pub fn address_meaning(control: u32, address: u32) -> AddressMeaning
    ensures { result ≡ spec.meaning_of control address }
{
    if address == 0 {
        return AddressMeaning::Nothing;
    }
    if flag(control, DEFERRED_CODE.0) || flag(control, DEFERRED_CODE.1) {
        AddressMeaning::Unfetched
    } else if flag(control, START_FUNCTION) && !flag(control, STATUS_PENDING) {
        AddressMeaning::Begins
    } else {
        AddressMeaning::Past
    }
}

/// Where the channel-command word is that was tried last.
fn last_ccw(address: u32) -> u32
    ensures { result ≡ address - 8 }
{
    address.saturating_sub(CCW_BYTES)
}

/// What is printed of a CCW address that says this.
pub fn put_address<S: Sink>(sink: &mut S, meaning: AddressMeaning, address: u32) -> bool
    ensures { Puts (S.seen sink.old) (spec.meaning_text meaning address) (S.seen sink.new) result }
{
    match meaning {
        AddressMeaning::Nothing => sink.put(b"CCW address"),
        AddressMeaning::Begins => sink.put(
            b"CCW address: the program begins there; no status was made for it yet",
        ),
        AddressMeaning::Unfetched => {
            sink.put(b"CCW address: the program begins there; no CCW of it was fetched")
        }
        AddressMeaning::Past => put_hex_after(
            sink,
            b"CCW address: 8 past the last CCW, at ",
            last_ccw(address),
            1,
        ),
    }
}

/// What is printed beside word 1, by word 0.
pub fn put_command_address<S: Sink>(sink: &mut S, control: u32, address: u32) -> bool
    ensures { Puts (S.seen sink.old) (spec.address_text control address) (S.seen sink.new) result }
{
    put_address(sink, address_meaning(control, address), address)
}
