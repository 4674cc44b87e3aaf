//! A console, which keeps one line of at most 126 bytes.

ghost use Rattle.std.specs.Prelude.{◌≡◌, ◌≤◌, ◌+◌, length};
ghost use Rattle.ccw_codec.specs.Command.{class_of};
ghost use Rattle.ccw_codec.specs.declared.Class.TheVariants.{ReadBackward};
ghost use Rattle.chan_model.specs.declared.report.Call.TheVariants as call;
ghost use Rattle.chan_model.specs.declared.report.DeviceAnswer.TheVariants as answer;
ghost use Rattle.device_law.specs.Laws.{IsInitial, IsFinal};
ghost use Rattle.device_law.specs.Calls.{IsDeviceAnswer, answer_of_initial, answer_of_finish};
ghost use Rattle.device_models.specs.Lines as spec;

use crate::console_command::ConsoleCommand;
use crate::giving::{COMMAND_REJECT, part};
use arrayvec::ArrayVec;
use chan_model::chunk::Chunk;
use chan_model::names::CommandPath;
use device_law::{Device, Finish};
use scsw_irb::status::DeviceStatus;
use std::marker::Model;

/// The most bytes that a line has.
const LINE_BYTES: usize = 126;

/// A line of at most 126 bytes, and a sense byte.
#[derive(Drop)]
pub struct Console {
    line: ArrayVec<u8, 126>,
    sense: u8,
    command: Option<ConsoleCommand>,
    /// How many bytes the command at hand has given.
    given: u8,
}

impl Model for Console {
    ghost use Rattle.std.specs.Prelude.{◌≤◌, length};
    ghost use Rattle.device_models.specs.Lines.{Lines, size_of};

    ghost Value = { Lines };

    ghost view = { λ c. record { line = c.line.items; sense = c.sense; command = c.command; given = c.given } };

    ghost invariant = { λ c. (length c.line.items ≤ 126) × (c.given ≤ size_of c.command c.line.items) };
}

impl Console {
    /// A console at its opening: its line is empty.
    pub fn new() -> Self
        ensures { result ≡ spec.opening }
    {
        Console {
            line: ArrayVec::new(),
            sense: 0,
            command: None,
            given: 0,
        }
    }

    /// The bytes that the command at hand gives next, at most so many.
    fn next_bytes(&self, most: usize) -> Chunk
        ensures bytes { result ≡ spec.given_of self.now most }
        ensures bound { length result ≤ most }
        ensures left { self.now.given + length result ≤ spec.size_of self.now.command self.now.line }
    {
        let index = usize::from(self.given);
        match self.command {
            Some(ConsoleCommand::Read) => part(self.line.as_slice(), index, most),
            Some(ConsoleCommand::Sense) => part(&[self.sense], index, most),
            _ => Chunk::new(),
        }
    }

    /// How many bytes the command at hand takes yet.
    fn room(&self) -> usize
        ensures room { result ≡ spec.room_of self.now.command self.now.line }
        ensures left { length self.now.line + result ≤ 126 }
    {
        match self.command {
            Some(ConsoleCommand::Write) => LINE_BYTES - self.line.len(),
            _ => 0,
        }
    }

    /// Ends the command at hand with this status.
    fn end(&mut self, status: DeviceStatus, more: bool) -> Finish
        ensures status { result.status ≡ status }
        ensures more { result.more ≡ more }
        ensures state { self.new ≡ (spec.ends self.old status.0 more).state }
    {
        self.command = None;
        self.given = 0;
        Finish { status, more }
    }
}

impl Device for Console {
    ghost answers = { IsDeviceAnswer spec.answer_of spec.after };

    ghost opening = { λ _. spec.opening };

    /// Codes 01 (write), 0A (read), 03 (no operation) and 04 (sense) are begun. A write begins an empty line. Any other
    /// code is rejected: the sense byte is 80 then.
    fn initial(&mut self, code: u8, _came_by: CommandPath) -> DeviceStatus {
        self.command = ConsoleCommand::of_code(code);
        self.given = 0;
        match self.command {
            Some(ConsoleCommand::Write) => {
                self.line = ArrayVec::new();
                DeviceStatus::empty()
            }
            Some(ConsoleCommand::NoOperation) => DeviceStatus::CHANNEL_END,
            Some(_) => DeviceStatus::empty(),
            None => {
                self.sense = COMMAND_REJECT;
                DeviceStatus::UNIT_CHECK
            }
        }
    }

    /// Gives what is left of the line (0A), or the sense byte (04).
    fn supply(&mut self, most: usize) -> Chunk {
        let bytes = self.next_bytes(most);
        if self.command == Some(ConsoleCommand::Sense) && bytes.len() > 0 {
            self.sense = 0;
        }
        self.given += bytes.len() as u8;
        bytes
    }

    /// Takes bytes of the line (01), up to 126 of them.
    fn absorb(&mut self, bytes: &[u8]) -> usize {
        let count = bytes.len().min(self.room());
        let _ = self.line.try_extend_from_slice(&bytes[..count]);
        count
    }

    /// Ends with channel end and device end; with device end alone after channel end (03).
    fn finish(&mut self) -> Finish {
        match self.command {
            Some(ConsoleCommand::Read) => {
                let more = usize::from(self.given) < self.line.len();
                self.end(DeviceStatus::end(), more)
            }
            Some(ConsoleCommand::NoOperation) => self.end(DeviceStatus::DEVICE_END, false),
            _ => self.end(DeviceStatus::end(), false),
        }
    }

    /// Puts the console back to its opening, its line too.
    fn restart(&mut self) {
        *self = Console::new();
    }
}
