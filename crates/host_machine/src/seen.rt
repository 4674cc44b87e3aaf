//! What the last reply tells beyond its number.

ghost use Rattle.std.specs.Prelude.{◌≡◌};
ghost use Rattle.host_machine.specs.Looks as spec;

use crate::given::report_word;
use chan_events::reply::Reply;
use chan_model::answer::Answer;
use chan_model::names::Path;

/// What the last accepted event answered, beyond its number.
#[repr(C)]
#[derive(Clone, Copy)]
pub struct HostSeen {
    /// How many statuses the subchannel of an instruction has made, and how many were cleared, as its codes 0 and 1 bring them.
    pub made: u64,
    pub cleared: u64,
    /// The number of the program that was offered, reset or halted.
    pub number: u64,
    /// 0 no reply, 1 done, 2 bytes of storage, 3 a condition code, 4 a condition code with status, 5 TEST PENDING INTERRUPTION, 6 RESET
    /// CHANNEL PATH, 7 STORE CHANNEL REPORT WORD, 8 STORE CHANNEL PATH STATUS, 9 offered, 10 a Reset was sent, 11 a Halt was sent, 12
    /// status was made pending, 13 nothing to choose, 14 a signal up was met, 15 a signal down was met.
    pub kind: u32,
    /// The index of the path on which a program was offered, reset or halted.
    pub path: u32,
    /// The subchannel-status word, the interruption code, or first of them a channel-report word.
    pub words: [u32; 3],
}

impl HostSeen {
    /// Nothing was answered.
    pub fn none() -> HostSeen
        ensures { result ≡ spec.nothing_seen }
    {
        HostSeen {
            made: 0,
            cleared: 0,
            number: 0,
            kind: 0,
            path: 0,
            words: [0; 3],
        }
    }

    fn of_kind(kind: u32) -> HostSeen
        ensures { result ≡ spec.of_kind kind }
    {
        HostSeen {
            kind,
            ..HostSeen::none()
        }
    }

    fn with_serials(self, answer: Answer) -> HostSeen
        ensures { result ≡ spec.with_serials self answer }
    {
        match answer {
            Answer::Zero(serials) | Answer::One(serials) => HostSeen {
                made: serials.made,
                cleared: serials.cleared,
                ..self
            },
            Answer::Two | Answer::Three => self,
        }
    }

    fn with_words(self, words: [u32; 3]) -> HostSeen
        ensures { result ≡ record self { words = words } }
    {
        HostSeen { words, ..self }
    }

    fn named(kind: u32, number: u64, path: Path) -> HostSeen
        ensures { result ≡ record (spec.of_kind kind) { number = number; path = path } }
    {
        HostSeen {
            number,
            path: path.index() as u32,
            ..HostSeen::of_kind(kind)
        }
    }

    /// What a reply tells.
    pub fn of<B: Drop, U: Drop, D: Drop>(reply: &Reply<B, U, D>) -> HostSeen
        ensures { result ≡ spec.seen_of reply.now }
    {
        match reply {
            Reply::Done => HostSeen::of_kind(1),
            Reply::Shown { .. } => HostSeen::of_kind(2),
            Reply::Code(answer) => HostSeen::of_kind(3).with_serials(*answer),
            Reply::Status { answer, scsw } => HostSeen::of_kind(4)
                .with_serials(*answer)
                .with_words(scsw.words()),
            Reply::Interruption(None) => HostSeen::of_kind(5),
            Reply::Interruption(Some(code)) => HostSeen::of_kind(5).with_words(code.words()),
            Reply::PathReset(_) => HostSeen::of_kind(6),
            Reply::ChannelReport(report) => {
                HostSeen::of_kind(7).with_words([report_word(*report), 0, 0])
            }
            Reply::Paths { .. } => HostSeen::of_kind(8),
            Reply::Offered { number, path, .. } => HostSeen::named(9, *number, *path),
            Reply::ResetSent { number, path } => HostSeen::named(10, *number, *path),
            Reply::HaltSent { number, path } => HostSeen::named(11, *number, *path),
            Reply::Pending => HostSeen::of_kind(12),
            Reply::Idle => HostSeen::of_kind(13),
            Reply::Up { .. } => HostSeen::of_kind(14),
            Reply::Down { .. } => HostSeen::of_kind(15),
        }
    }
}
