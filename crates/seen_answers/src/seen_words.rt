//! Status words in the few words of the view `driver`.

ghost use Rattle.std.specs.Prelude.{◌≡◌, ◌*◌, ◌++◌, codes};
ghost use Rattle.streams.specs.Sinks.{Puts};
ghost use Rattle.zbits.specs.Bits.{field_of};
ghost use Rattle.word_parts.specs.Parts.{names_text};
ghost use Rattle.word_parts.specs.ScswNames as scsw;
ghost use Rattle.seen_answers.specs.SeenWords as spec;

use record_text::fields::put_two;
use streams::Sink;
use word_names::{
    put_activity, put_device_status, put_functions, put_status_names, put_subchannel_status,
};
use zbits::field;

/// The names of function control, after a title.
#[tactic(auto, using(streams::proofs::Sinking::takes_then, streams::proofs::Sinking::fails_then))]
fn put_titled_functions<S: Sink>(sink: &mut S, title: &[u8], word: u32) -> bool
    ensures { Puts (S.seen sink.old) (title.now ++ names_text (codes ", ") scsw.functions word) (S.seen sink.new) result }
{
    sink.put(title) && put_functions(sink, word)
}

/// Function control, where there is some.
fn put_function_control<S: Sink>(sink: &mut S, word: u32) -> bool
    ensures { Puts (S.seen sink.old) (spec.functions_text word) (S.seen sink.new) result }
{
    if field(word, 17, 19) == 0 {
        true
    } else {
        put_titled_functions(sink, b"FC ", word)
    }
}

/// The names of activity control, after a title.
#[tactic(auto, using(streams::proofs::Sinking::takes_then, streams::proofs::Sinking::fails_then))]
fn put_titled_activity<S: Sink>(sink: &mut S, title: &[u8], word: u32) -> bool
    ensures { Puts (S.seen sink.old) (title.now ++ names_text (codes ", ") scsw.activity word) (S.seen sink.new) result }
{
    sink.put(title) && put_activity(sink, word)
}

/// Activity control, where there is some.
fn put_activity_control<S: Sink>(sink: &mut S, word: u32) -> bool
    ensures { Puts (S.seen sink.old) (spec.activity_text word) (S.seen sink.new) result }
{
    if field(word, 20, 26) == 0 {
        true
    } else if field(word, 17, 19) == 0 {
        put_titled_activity(sink, b"AC ", word)
    } else {
        put_titled_activity(sink, b"; AC ", word)
    }
}

/// That status is pending, after other names.
fn put_pending_name<S: Sink>(sink: &mut S, word: u32) -> bool
    ensures { Puts (S.seen sink.old) (spec.pending_name word) (S.seen sink.new) result }
{
    if field(word, 31, 31) == 0 {
        true
    } else {
        sink.put(b", pending")
    }
}

/// The names of status control but for the last, and the last.
#[tactic(auto, using(streams::proofs::Sinking::takes_then, streams::proofs::Sinking::fails_then))]
fn put_named_status<S: Sink>(sink: &mut S, word: u32) -> bool
    ensures { Puts (S.seen sink.old) (names_text (codes ", ") scsw.status_names word ++ spec.pending_name word) (S.seen sink.new) result }
{
    put_status_names(sink, word) && put_pending_name(sink, word)
}

/// The names of status control, of which there is one.
fn put_status_bits<S: Sink>(sink: &mut S, word: u32) -> bool
    ensures { Puts (S.seen sink.old) (spec.status_named word) (S.seen sink.new) result }
{
    if field(word, 27, 30) == 0 {
        sink.put(b"pending")
    } else {
        put_named_status(sink, word)
    }
}

/// The same after a title.
#[tactic(auto, using(streams::proofs::Sinking::takes_then, streams::proofs::Sinking::fails_then))]
fn put_titled_status<S: Sink>(sink: &mut S, title: &[u8], word: u32) -> bool
    ensures { Puts (S.seen sink.old) (title.now ++ spec.status_named word) (S.seen sink.new) result }
{
    sink.put(title) && put_status_bits(sink, word)
}

/// Status control, where there is some.
fn put_status_control<S: Sink>(sink: &mut S, word: u32) -> bool
    ensures { Puts (S.seen sink.old) (spec.status_text word) (S.seen sink.new) result }
{
    if field(word, 27, 31) == 0 {
        true
    } else if field(word, 17, 26) == 0 {
        put_titled_status(sink, b"SC ", word)
    } else {
        put_titled_status(sink, b"; SC ", word)
    }
}

/// Function and activity control.
#[tactic(auto, using(streams::proofs::Sinking::takes_then, streams::proofs::Sinking::fails_then))]
fn put_work<S: Sink>(sink: &mut S, word: u32) -> bool
    ensures { Puts (S.seen sink.old) (spec.work_text word) (S.seen sink.new) result }
{
    put_function_control(sink, word) && put_activity_control(sink, word)
}

/// What the first word says.
#[tactic(auto, using(streams::proofs::Sinking::takes_then, streams::proofs::Sinking::fails_then))]
fn put_control<S: Sink>(sink: &mut S, word: u32) -> bool
    ensures { Puts (S.seen sink.old) (spec.control_text word) (S.seen sink.new) result }
{
    put_work(sink, word) && put_status_control(sink, word)
}

/// A title and the count, and the address of the command.
fn put_titled_count<S: Sink>(sink: &mut S, title: &[u8], count: u32, address: u32) -> bool
    ensures { Puts (S.seen sink.old) (spec.titled_count title.now count address) (S.seen sink.new) result }
{
    put_two(sink, title, count as u64, b"; CCW address ", address as u64)
}

/// The count and the address of the command.
fn put_count<S: Sink>(sink: &mut S, address: u32, statuses: u32) -> bool
    ensures { Puts (S.seen sink.old) (spec.count_text address statuses) (S.seen sink.new) result }
{
    if field(statuses, 0, 15) == 0 {
        put_titled_count(sink, b"count ", field(statuses, 16, 31), address)
    } else {
        put_titled_count(sink, b", count ", field(statuses, 16, 31), address)
    }
}

/// The names of a subchannel status, after a title.
#[tactic(auto, using(streams::proofs::Sinking::takes_then, streams::proofs::Sinking::fails_then))]
fn put_titled_subchannel<S: Sink>(sink: &mut S, title: &[u8], status: u8) -> bool
    ensures { Puts (S.seen sink.old) (title.now ++ names_text (codes ", ") scsw.subchannel (status * 0x10000)) (S.seen sink.new) result }
{
    sink.put(title) && put_subchannel_status(sink, status)
}

/// The same, where there are some.
fn put_subchannel<S: Sink>(sink: &mut S, title: &[u8], status: u8) -> bool
    ensures { Puts (S.seen sink.old) (spec.subchannel_text title.now status) (S.seen sink.new) result }
{
    if status == 0 {
        true
    } else {
        put_titled_subchannel(sink, title, status)
    }
}

/// The names of a device status, and those of a subchannel status.
#[tactic(auto, using(streams::proofs::Sinking::takes_then, streams::proofs::Sinking::fails_then))]
fn put_device<S: Sink>(sink: &mut S, device: u8, subchannel: u8) -> bool
    ensures { Puts (S.seen sink.old) (spec.device_text device subchannel) (S.seen sink.new) result }
{
    put_device_status(sink, device) && put_subchannel(sink, b", ", subchannel)
}

/// The same, where there are some.
fn put_statuses<S: Sink>(sink: &mut S, device: u8, subchannel: u8) -> bool
    ensures { Puts (S.seen sink.old) (spec.statuses_text device subchannel) (S.seen sink.new) result }
{
    if device == 0 {
        put_subchannel(sink, b"", subchannel)
    } else {
        put_device(sink, device, subchannel)
    }
}

/// Device and subchannel status of a word, after a title.
#[tactic(auto, using(streams::proofs::Sinking::takes_then, streams::proofs::Sinking::fails_then))]
fn put_titled_statuses<S: Sink>(sink: &mut S, title: &[u8], word: u32) -> bool
    ensures { Puts (S.seen sink.old) (title.now ++ spec.statuses_text (field_of word 0 7) (field_of word 8 15)) (S.seen sink.new) result }
{
    sink.put(title) && put_statuses(sink, field(word, 0, 7) as u8, field(word, 8, 15) as u8)
}

/// Device and subchannel status, the count and the address.
fn put_ending<S: Sink>(sink: &mut S, address: u32, word: u32) -> bool
    ensures { Puts (S.seen sink.old) (spec.ending_text address word) (S.seen sink.new) result }
{
    put_titled_statuses(sink, b"; ", word) && put_count(sink, address, word)
}

/// The same, where status is pending.
fn put_pending<S: Sink>(sink: &mut S, control: u32, address: u32, word: u32) -> bool
    ensures { Puts (S.seen sink.old) (spec.pending_text control address word) (S.seen sink.new) result }
{
    if field(control, 27, 31) == 0 {
        true
    } else {
        put_ending(sink, address, word)
    }
}

/// What the three words of a subchannel-status word tell a program, in few words (SA22-7832, chapter 16).
#[tactic(auto, unfolding(crate::specs::SeenWords::scsw_seen))]
pub(crate) fn put_scsw_seen<S: Sink>(sink: &mut S, control: u32, address: u32, word: u32) -> bool
    ensures { Puts (S.seen sink.old) (spec.scsw_seen control address word) (S.seen sink.new) result }
{
    if field(control, 17, 31) == 0 {
        sink.put(b"  at rest")
    } else {
        put_words_seen(sink, control, address, word)
    }
}

/// The same, where a function is specified, something is active or pending, or status is shown.
#[tactic(auto, using(streams::proofs::Sinking::takes_then, streams::proofs::Sinking::fails_then))]
fn put_words_seen<S: Sink>(sink: &mut S, control: u32, address: u32, word: u32) -> bool
    ensures { Puts (S.seen sink.old) (spec.words_seen control address word) (S.seen sink.new) result }
{
    put_title_control(sink, control) && put_pending(sink, control, address, word)
}

/// Two blanks, and what the first word says.
fn put_title_control<S: Sink>(sink: &mut S, control: u32) -> bool
    ensures { Puts (S.seen sink.old) (spec.title_control control) (S.seen sink.new) result }
{
    sink.put(b"  ") && put_control(sink, control)
}
