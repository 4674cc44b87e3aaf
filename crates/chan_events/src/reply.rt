//! Replies: what an accepted event answers.

ghost use Rattle.std.specs.Prelude.{◌≡◌, ◌≤◌, ◌++◌, ⊤, ℕ, List, length};
ghost use Rattle.chan_events.specs.Replies as spec;
ghost use Rattle.chan_events.specs.ReportWords as word_spec;
ghost use Rattle.chan_events.specs.declared.reply.Reply.TheVariants as reply_spec;
ghost use Rattle.chan_model.specs.Lent.{lent_down, lent_up};
ghost use Rattle.chan_model.specs.Signals.{map_sent};

use crate::event::Event;
use chan_model::answer::{Answer, ConditionCode};
use chan_model::chunk::{Chunk, ChunkLength};
use chan_model::lent::{LentDown, LentUp};
use chan_model::names::Path;
use chan_model::signal::{Down, KeptDown, KeptUp, OnPath, Up};
use scsw_irb::code::IntCode;
use scsw_irb::crw::Crw;
use scsw_irb::scsw::Scsw;
use std::alloc::AllocError;
use std::convert::Infallible;

/// How many bytes STORE CHANNEL PATH STATUS stores: one bit for each channel-path identifier.
pub const PATH_STATUS_BYTES: usize = 32;

/// What an accepted event answers, over what stands for bytes of storage, for a signal up and for a signal down.
#[derive(Copy, Drop)]
pub enum Reply<B = Chunk, U = Up, D = Down> {
    Done,
    /// The bytes of storage that were asked for.
    Shown {
        bytes: B,
    },
    /// The condition code of an instruction that shows no status; of TSCH and STSCH where it is 3.
    Code(Answer),
    /// The condition code 0 or 1 of TSCH, or 0 of STSCH, with the subchannel-status word that was stored.
    Status {
        answer: Answer,
        scsw: Scsw,
    },
    /// TEST PENDING INTERRUPTION: the code of the request that it took out, code 1; None, code 0, where no request waits
    /// whose subclass is enabled.
    Interruption(Option<IntCode>),
    /// The condition code of RESET CHANNEL PATH.
    PathReset(ConditionCode),
    /// STORE CHANNEL REPORT WORD: the report that it took out, code 0; None, code 1, where none waits.
    ChannelReport(Option<Crw>),
    /// What STORE CHANNEL PATH STATUS stored: bit n, from the left, is one where the channel path n is engaged. It sets
    /// no condition code.
    Paths {
        engaged: [u8; PATH_STATUS_BYTES],
    },
    /// A program was offered under this number on this path; `resumed` says that it was suspended before.
    Offered {
        number: u64,
        path: Path,
        resumed: bool,
    },
    /// A Reset was sent under this number on this path.
    ResetSent {
        number: u64,
        path: Path,
    },
    /// A Halt was sent to the program of this number on this path.
    HaltSent {
        number: u64,
        path: Path,
    },
    /// Choosing made status pending.
    Pending,
    /// There was nothing to choose.
    Idle,
    /// A subchannel met this signal; `taken` says that a state changed or a signal was sent.
    Up {
        signal: U,
        taken: bool,
        sent: Option<OnPath<D>>,
    },
    /// A unit met this signal; `taken` says that its state changed or a signal was sent.
    Down {
        signal: D,
        taken: bool,
        sent: Option<OnPath<U>>,
    },
}

impl<B: Copy, U: Copy, D: Copy> Clone for Reply<B, U, D> {
    ghost is_clone = { λ x y. y ≡ x };

    ghost is_infallible = { λ _. ⊤ };

    fn clone(&self) -> Result<Self, AllocError> {
        Ok(*self)
    }
}

/// An accepted event with its reply.
#[derive(Drop)]
pub struct Entry {
    pub event: Event,
    pub reply: Reply,
}

/// A reply that has no signal and no bytes.
pub type PlainReply = Reply<Infallible, Infallible, Infallible>;

/// A reply whose bytes stand elsewhere.
pub type KeptReply = Reply<ChunkLength, KeptUp, KeptDown>;

impl Reply {
    /// The same reply; it takes no memory.
    pub fn copy(&self) -> Self
        ensures { result ≡ self.now }
    {
        match self {
            Reply::Done => Reply::Done,
            Reply::Shown { bytes } => Reply::Shown {
                bytes: bytes.copy(),
            },
            Reply::Code(answer) => Reply::Code(*answer),
            Reply::Status { answer, scsw } => Reply::Status {
                answer: *answer,
                scsw: *scsw,
            },
            Reply::Interruption(code) => Reply::Interruption(*code),
            Reply::PathReset(code) => Reply::PathReset(*code),
            Reply::ChannelReport(report) => Reply::ChannelReport(*report),
            Reply::Paths { engaged } => Reply::Paths { engaged: *engaged },
            Reply::Offered {
                number,
                path,
                resumed,
            } => Reply::Offered {
                number: *number,
                path: *path,
                resumed: *resumed,
            },
            Reply::ResetSent { number, path } => Reply::ResetSent {
                number: *number,
                path: *path,
            },
            Reply::HaltSent { number, path } => Reply::HaltSent {
                number: *number,
                path: *path,
            },
            Reply::Pending => Reply::Pending,
            Reply::Idle => Reply::Idle,
            Reply::Up {
                signal,
                taken,
                sent,
            } => Reply::Up {
                signal: signal.copy(),
                taken: *taken,
                sent: copy_down(sent),
            },
            Reply::Down {
                signal,
                taken,
                sent,
            } => Reply::Down {
                signal: signal.copy(),
                taken: *taken,
                sent: copy_up(sent),
            },
        }
    }
}

/// The same signal, where there is one.
fn copy_down(sent: &Option<OnPath<Down>>) -> Option<OnPath<Down>>
    ensures { result ≡ sent.now }
{
    match sent {
        Some(signal) => Some(signal.copy()),
        None => None,
    }
}

/// The same signal, where there is one.
fn copy_up(sent: &Option<OnPath<Up>>) -> Option<OnPath<Up>>
    ensures { result ≡ sent.now }
{
    match sent {
        Some(signal) => Some(signal.copy()),
        None => None,
    }
}

impl PlainReply {
    /// The same reply, as it is kept.
    #[inline(always)]
    pub fn keep(&self) -> KeptReply
        ensures kept { (rest : List ℕ) → spec.reply_in result rest ≡ spec.reply_of self.now }
        ensures length { spec.reply_length result ≡ 0 }
    {
        match self {
            Reply::Done => Reply::Done,
            Reply::Shown { bytes } => match *bytes {},
            Reply::Code(answer) => Reply::Code(*answer),
            Reply::Status { answer, scsw } => Reply::Status {
                answer: *answer,
                scsw: *scsw,
            },
            Reply::Interruption(code) => Reply::Interruption(*code),
            Reply::PathReset(code) => Reply::PathReset(*code),
            Reply::ChannelReport(report) => Reply::ChannelReport(*report),
            Reply::Paths { engaged } => Reply::Paths { engaged: *engaged },
            Reply::Offered {
                number,
                path,
                resumed,
            } => Reply::Offered {
                number: *number,
                path: *path,
                resumed: *resumed,
            },
            Reply::ResetSent { number, path } => Reply::ResetSent {
                number: *number,
                path: *path,
            },
            Reply::HaltSent { number, path } => Reply::HaltSent {
                number: *number,
                path: *path,
            },
            Reply::Pending => Reply::Pending,
            Reply::Idle => Reply::Idle,
            Reply::Up { signal, .. } => match *signal {},
            Reply::Down { signal, .. } => match *signal {},
        }
    }

    /// The condition code that an instruction with this reply set; None where it sets none, and for the replies of other
    /// events.
    pub fn code(&self) -> Option<ConditionCode>
        ensures { result ≡ spec.reply_code (spec.reply_of self.now) }
    {
        match self {
            Reply::Code(answer) | Reply::Status { answer, .. } => Some(answer.code()),
            Reply::Interruption(None) => Some(ConditionCode::Zero),
            Reply::Interruption(Some(_)) => Some(ConditionCode::One),
            Reply::PathReset(code) => Some(*code),
            Reply::ChannelReport(None) => Some(ConditionCode::One),
            Reply::ChannelReport(Some(_)) => Some(ConditionCode::Zero),
            Reply::Shown { .. }
            | Reply::Up { .. }
            | Reply::Down { .. }
            | Reply::Paths { .. }
            | Reply::Done
            | Reply::Offered { .. }
            | Reply::ResetSent { .. }
            | Reply::HaltSent { .. }
            | Reply::Pending
            | Reply::Idle => None,
        }
    }
}

impl KeptReply {
    /// The reply to a signal up that was met.
    pub fn met_up(signal: &LentUp<'_>, taken: bool, sent: &Option<OnPath<LentDown<'_>>>) -> Self
        ensures kept { (rest : List ℕ) → spec.reply_in result (spec.reply_bytes (reply_spec.Up (lent_up signal.now) taken (map_sent lent_down sent.now)) ++ rest) ≡ reply_spec.Up (lent_up signal.now) taken (map_sent lent_down sent.now) }
        ensures length { spec.reply_length result ≡ length (spec.reply_bytes (reply_spec.Up (lent_up signal.now) taken (map_sent lent_down sent.now))) }
        ensures bound { length (spec.reply_bytes (reply_spec.Up (lent_up signal.now) taken (map_sent lent_down sent.now))) ≤ 512 }
    {
        match sent {
            None => Reply::Up {
                taken,
                signal: signal.keep(),
                sent: None,
            },
            Some(sent) => Reply::Up {
                taken,
                signal: signal.keep(),
                sent: Some(OnPath {
                    path: sent.path,
                    signal: sent.signal.keep(),
                }),
            },
        }
    }

    /// The reply to a signal down that was met.
    pub fn met_down(signal: &LentDown<'_>, taken: bool, sent: &Option<OnPath<LentUp<'_>>>) -> Self
        ensures kept { (rest : List ℕ) → spec.reply_in result (spec.reply_bytes (reply_spec.Down (lent_down signal.now) taken (map_sent lent_up sent.now)) ++ rest) ≡ reply_spec.Down (lent_down signal.now) taken (map_sent lent_up sent.now) }
        ensures length { spec.reply_length result ≡ length (spec.reply_bytes (reply_spec.Down (lent_down signal.now) taken (map_sent lent_up sent.now))) }
        ensures bound { length (spec.reply_bytes (reply_spec.Down (lent_down signal.now) taken (map_sent lent_up sent.now))) ≤ 512 }
    {
        match sent {
            None => Reply::Down {
                taken,
                signal: signal.keep(),
                sent: None,
            },
            Some(sent) => Reply::Down {
                taken,
                signal: signal.keep(),
                sent: Some(OnPath {
                    path: sent.path,
                    signal: sent.signal.keep(),
                }),
            },
        }
    }

    /// How many bytes it has.
    pub fn length(&self) -> usize
        ensures value { result ≡ spec.reply_length self.now }
        ensures bound { result ≤ 512 }
    {
        match self {
            Reply::Shown { bytes } => bytes.get(),
            Reply::Up {
                signal,
                sent: None,
                ..
            } => signal.length(),
            Reply::Up {
                signal,
                sent: Some(sent),
                ..
            } => signal.length() + sent.signal.length(),
            Reply::Down {
                signal,
                sent: None,
                ..
            } => signal.length(),
            Reply::Down {
                signal,
                sent: Some(sent),
                ..
            } => signal.length() + sent.signal.length(),
            _ => 0,
        }
    }

    /// The reply with the first of these bytes, which become its own.
    pub fn own(&self, given: &[u8]) -> Reply
        requires { spec.reply_length self.now ≤ length given.now }
        ensures { result ≡ spec.reply_in self.now given.now }
    {
        match self {
            Reply::Done => Reply::Done,
            Reply::Shown { bytes } => Reply::Shown {
                bytes: Chunk::first(*bytes, given),
            },
            Reply::Code(answer) => Reply::Code(*answer),
            Reply::Status { answer, scsw } => Reply::Status {
                answer: *answer,
                scsw: *scsw,
            },
            Reply::Interruption(code) => Reply::Interruption(*code),
            Reply::PathReset(code) => Reply::PathReset(*code),
            Reply::ChannelReport(report) => Reply::ChannelReport(*report),
            Reply::Paths { engaged } => Reply::Paths { engaged: *engaged },
            Reply::Offered {
                number,
                path,
                resumed,
            } => Reply::Offered {
                number: *number,
                path: *path,
                resumed: *resumed,
            },
            Reply::ResetSent { number, path } => Reply::ResetSent {
                number: *number,
                path: *path,
            },
            Reply::HaltSent { number, path } => Reply::HaltSent {
                number: *number,
                path: *path,
            },
            Reply::Pending => Reply::Pending,
            Reply::Idle => Reply::Idle,
            Reply::Up {
                signal,
                taken,
                sent,
            } => own_up(signal, *taken, sent, given),
            Reply::Down {
                signal,
                taken,
                sent,
            } => own_down(signal, *taken, sent, given),
        }
    }
}

/// The reply to a signal up that was met, with the first of these bytes, which become its own.
#[inline(never)]
fn own_up(signal: &KeptUp, taken: bool, sent: &Option<OnPath<KeptDown>>, given: &[u8]) -> Reply
    requires { spec.reply_length (reply_spec.Up signal.now taken sent.now) ≤ length given.now }
    ensures { result ≡ spec.reply_in (reply_spec.Up signal.now taken sent.now) given.now }
{
    match sent {
        None => Reply::Up {
            signal: signal.lend(given).own(),
            taken,
            sent: None,
        },
        Some(sent) => Reply::Up {
            signal: signal.lend(given).own(),
            taken,
            sent: Some(OnPath {
                path: sent.path,
                signal: sent.signal.lend(&given[signal.length()..]).own(),
            }),
        },
    }
}

/// The reply to a signal down that was met, with the first of these bytes, which become its own.
#[inline(never)]
fn own_down(signal: &KeptDown, taken: bool, sent: &Option<OnPath<KeptUp>>, given: &[u8]) -> Reply
    requires { spec.reply_length (reply_spec.Down signal.now taken sent.now) ≤ length given.now }
    ensures { result ≡ spec.reply_in (reply_spec.Down signal.now taken sent.now) given.now }
{
    match sent {
        None => Reply::Down {
            signal: signal.lend(given).own(),
            taken,
            sent: None,
        },
        Some(sent) => Reply::Down {
            signal: signal.lend(given).own(),
            taken,
            sent: Some(OnPath {
                path: sent.path,
                signal: sent.signal.lend(&given[signal.length()..]).own(),
            }),
        },
    }
}

/// The word that STORE CHANNEL REPORT WORD stores: zero where there is no report.
pub fn report_word(report: Option<Crw>) -> u32
    ensures { result ≡ word_spec.report_word report }
{
    match report {
        None => 0,
        Some(crw) => crw.word(),
    }
}

const _: () = prove!(size_of::<KeptReply>() == 112);
