//! The line of an event, by the reply that is kept of it.

ghost use Rattle.std.specs.Prelude.{◌≡◌, ◌≤◌, ◌++◌, ◌∷◌, [], Ok, length, true};
ghost use Rattle.chan_model.specs.Lent.{lent_down, lent_up};
ghost use Rattle.chan_events.specs.Replies.{reply_in, reply_length};
ghost use Rattle.script_text.specs.Text as spec;
ghost use Rattle.script_text.specs.declared.ActionResult.TheVariants as told;
ghost use Rattle.streams.specs.Sinks.{Puts};

use crate::held::Held;
use crate::{
    ActionResult, put_answer, put_bytes, put_code, put_down, put_interruption, put_named,
    put_paths, put_pieces, put_report, put_status, put_up,
};
use chan_events::reply::{KeptReply, Reply};
use chan_model::lent::{LentDown, LentUp};
use chan_model::signal::{Down, Up};
use event_log::history::LentReply;
use streams::Sink;

/// What a reply prints that is kept so, with these bytes.
#[inline(never)]
fn put_kept<S: Sink>(sink: &mut S, reply: &KeptReply, bytes: &[u8]) -> bool
    requires { reply_length reply.now ≤ length bytes.now }
    ensures { Puts (S.seen sink.old) (spec.reply_text (reply_in reply.now bytes.now)) (S.seen sink.new) result }
{
    match reply {
        Reply::Done => sink.put(b"done"),
        Reply::Shown { bytes: length } => put_bytes(sink, &bytes[..length.get()]),
        Reply::Code(answer) => put_answer(sink, *answer),
        Reply::Status { answer, scsw } => put_status(sink, *answer, scsw),
        Reply::Interruption(found) => put_interruption(sink, found),
        Reply::PathReset(code) => put_code(sink, *code),
        Reply::ChannelReport(report) => put_report(sink, *report),
        Reply::Paths { engaged } => put_paths(sink, engaged),
        Reply::Offered { path, .. } => put_named(sink, b"offer ", path.index() as u64),
        Reply::ResetSent { path, .. } => put_named(sink, b"reset ", path.index() as u64),
        Reply::HaltSent { path, .. } => put_named(sink, b"halt ", path.index() as u64),
        Reply::Pending => sink.put(b"status"),
        Reply::Idle => sink.put(b"idle"),
        Reply::Up { taken, signal, .. } => { put_up(sink, *taken, &signal.lend(bytes)) }
        Reply::Down { taken, signal, .. } => { put_down(sink, *taken, &signal.lend(bytes)) }
    }
}

/// The rest of the line of a signal that was taken on its way down.
fn put_down_taken<S: Sink>(sink: &mut S, signal: &LentDown<'_>) -> bool
    ensures { Puts (S.seen sink.old) (spec.taken_text true ++ spec.down_name (lent_down signal.now) ++ 10 ∷ []) (S.seen sink.new) result }
{
    match signal.kept {
        Down::Select { .. } => sink.put(b"took select\n"),
        Down::Command { .. } => sink.put(b"took command\n"),
        Down::Grant { .. } => sink.put(b"took grant\n"),
        Down::Refuse { .. } => sink.put(b"took refuse\n"),
        Down::Took { .. } => sink.put(b"took took\n"),
        Down::Give { .. } => sink.put(b"took give\n"),
        Down::Halt { .. } => sink.put(b"took halt\n"),
        Down::Release { .. } => sink.put(b"took release\n"),
        Down::Reset { .. } => sink.put(b"took reset\n"),
        Down::Got { .. } => sink.put(b"took got\n"),
    }
}

/// The rest of the line of a signal that was taken on its way up.
fn put_up_taken<S: Sink>(sink: &mut S, signal: &LentUp<'_>) -> bool
    ensures { Puts (S.seen sink.old) (spec.taken_text true ++ spec.up_name (lent_up signal.now) ++ 10 ∷ []) (S.seen sink.new) result }
{
    match signal.kept {
        Up::Accept { .. } => sink.put(b"took accept\n"),
        Up::Busy { .. } => sink.put(b"took busy\n"),
        Up::Leave { .. } => sink.put(b"took leave\n"),
        Up::Back { .. } => sink.put(b"took back\n"),
        Up::Data { .. } => sink.put(b"took data\n"),
        Up::End { .. } => sink.put(b"took end\n"),
        Up::Released { .. } => sink.put(b"took released\n"),
        Up::Cleared { .. } => sink.put(b"took cleared\n"),
        Up::Notice { .. } => sink.put(b"took notice\n"),
        Up::Attn { .. } => sink.put(b"took attn\n"),
    }
}

/// The rest of a line after its number and a space: what occurs most is put at once.
fn put_rest<S: Sink>(sink: &mut S, reply: &KeptReply, bytes: &[u8]) -> bool
    requires { reply_length reply.now ≤ length bytes.now }
    ensures { Puts (S.seen sink.old) (spec.reply_text (reply_in reply.now bytes.now) ++ 10 ∷ []) (S.seen sink.new) result }
{
    match reply {
        Reply::Up {
            taken: true,
            signal,
            ..
        } => put_up_taken(sink, &signal.lend(bytes)),
        Reply::Down {
            taken: true,
            signal,
            ..
        } => put_down_taken(sink, &signal.lend(bytes)),
        Reply::Done => sink.put(b"done\n"),
        _ => put_kept(sink, reply, bytes) && sink.put(b"\n"),
    }
}

/// The line of an event that was accepted, as `put_event_line_at_once` writes it, by the reply that is lent.
pub fn put_reply_line_at_once<S: Sink>(
    sink: &mut S,
    held: &mut Held,
    line: u64,
    reply: &LentReply<'_>,
) -> bool
    ensures { Puts (S.seen sink.old) (spec.event_line line (Ok (told.Reply reply.now))) (S.seen sink.new) result }
{
    let (kept, bytes) = reply.parts();
    held.begin(line);
    if put_rest(held, kept, bytes) {
        sink.put(held.bytes())
    } else {
        put_long(sink, line, reply)
    }
}

/// Cold path: the line of one event that is longer.
#[cold]
#[inline(never)]
fn put_long<S: Sink>(sink: &mut S, line: u64, reply: &LentReply<'_>) -> bool
    ensures { Puts (S.seen sink.old) (spec.event_line line (Ok (told.Reply reply.now))) (S.seen sink.new) result }
{
    put_pieces(sink, line, &Ok(ActionResult::Reply(reply.own())))
}
