//! A line of a script, performed and answered as text.

ghost use Rattle.std.specs.Prelude.{◌≡◌};
ghost use Rattle.host_machine.specs.Answers.{answer_number, below};
ghost use Rattle.host_machine.specs.Lines as spec;
ghost use Rattle.host_machine.specs.Lines.{PerformsEvent, PerformsLine, Tells};
ghost use Rattle.streams.specs.Sinks.{Puts};

use crate::answers::{AT_OTHER_STAGE, NO_MEMORY, refusal_number, reply_number};
use crate::host_machine::HostMachine;
use crate::running::Running;
use crate::told::Told;
use chan_events::event::Event;
use chan_events::reply::Reply;
use channel_subsystem::host_fault::HostFault;
use event_lines::reading::{event_of, words_of};
use memory::Allocator;
use script_rows::words::LineRule;
use script_text::{put_refusal, put_reply};
use std::alloc::Global;
use streams::Sink;

/// What is told of a line: the number of its answer, and how many bytes of its text were written.
#[derive(Clone, Copy)]
pub struct ToldLine {
    pub number: i32,
    pub written: usize,
}

/// The number of a rule that a line breaks.
pub fn line_number(rule: LineRule) -> i32
    ensures { result ≡ below (spec.line_size rule) }
{
    match rule {
        LineRule::UnknownWord => -0x301,
        LineRule::WrongCount => -0x302,
        LineRule::BadWord => -0x303,
        LineRule::SettingAfterAction => -0x304,
        LineRule::BreaksConfiguration => -0x305,
        LineRule::StorageNotFirst => -0x306,
        LineRule::MisplacedRace => -0x307,
    }
}

/// What is printed of an answer.
fn put_answer<S: Sink>(sink: &mut S, answer: &Result<Reply, HostFault>) -> bool
    ensures { Puts (S.seen sink.old) (spec.answer_text answer.now) (S.seen sink.new) result }
{
    match answer {
        Ok(reply) => put_reply(sink, reply),
        Err(HostFault::Refused(fault)) => put_refusal(sink, fault),
        Err(HostFault::OtherSize) => sink.put(b"other size"),
        Err(HostFault::NumbersUsedUp) => sink.put(b"no number"),
        Err(HostFault::NoMemory) => sink.put(b"no memory"),
    }
}

/// Writes what is printed of an answer into a room, as far as it fits: how many bytes were written.
fn tell(answer: &Result<Reply, HostFault>, room: &mut [u8]) -> usize
    ensures { Tells (spec.answer_text answer.now) room.old room.new result }
{
    let mut told = Told::new();
    let _whole = put_answer(&mut told, answer);
    told.write(room)
}

/// The number of an answer.
fn number_of(answer: &Result<Reply, HostFault>) -> i32
    ensures { result ≡ answer_number answer.now }
{
    match answer {
        Ok(reply) => reply_number(reply),
        Err(fault) => refusal_number(*fault),
    }
}

impl Running {
    /// Enters the event that a line asked for, where it asked for one.
    fn perform_asked(
        &mut self,
        bytes: &mut [u8],
        keys: &mut [u8],
        asked: Result<Event, LineRule>,
        room: &mut [u8],
    ) -> ToldLine
        ensures { PerformsEvent asked self.old bytes.old keys.old room.old result.number result.written self.new bytes.new keys.new room.new }
    {
        match asked {
            Err(rule) => ToldLine {
                number: line_number(rule),
                written: 0,
            },
            Ok(event) => {
                let outcome = self.perform(bytes, keys, &event);
                let answer = self.answer(outcome);
                ToldLine {
                    number: number_of(&answer),
                    written: tell(&answer, room),
                }
            }
        }
    }

    /// Performs the first line of a text, which is one of a script that asks for an event, and writes what a script's run prints of it
    /// behind the number of its line, as far as there is room.
    pub fn perform_line(
        &mut self,
        alloc: Global,
        bytes: &mut [u8],
        keys: &mut [u8],
        line: &[u8],
        room: &mut [u8],
    ) -> ToldLine
        ensures { PerformsLine line.now self.old bytes.old keys.old room.old result.number result.written self.new bytes.new keys.new room.new }
    {
        match words_of(alloc, &mut Allocator { refused: false }, line) {
            Err(_) => ToldLine {
                number: NO_MEMORY,
                written: 0,
            },
            Ok(words) => self.perform_asked(bytes, keys, event_of(words.as_slice()), room),
        }
    }
}

impl HostMachine {
    /// Performs the first line of a text, as `Running::perform_line` has it; `AT_OTHER_STAGE` where the machine does not run yet.
    pub fn perform_line(
        &mut self,
        alloc: Global,
        bytes: &mut [u8],
        keys: &mut [u8],
        line: &[u8],
        room: &mut [u8],
    ) -> ToldLine
        ensures { spec.Performs line.now self.old bytes.old keys.old room.old result.number result.written self.new bytes.new keys.new room.new }
    {
        match self {
            HostMachine::SettingUp(_) => ToldLine {
                number: AT_OTHER_STAGE,
                written: 0,
            },
            HostMachine::Runs(running) => running.perform_line(alloc, bytes, keys, line, room),
        }
    }
}
