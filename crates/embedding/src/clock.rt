//! A device of one's own: a clock, whose time a guest reads.

ghost use Rattle.std.specs.Prelude.{◌≡◌, ◌≤◌, ◌+◌, ◌%◌, ◌^◌, [], length};
ghost use Rattle.ccw_codec.specs.Command.{class_of};
ghost use Rattle.ccw_codec.specs.declared.Class.TheVariants.{ReadBackward};
ghost use Rattle.chan_model.specs.declared.report.Call.TheVariants as call;
ghost use Rattle.chan_model.specs.declared.report.DeviceAnswer.TheVariants as answer;
ghost use Rattle.device_law.specs.Laws.{IsInitial, IsFinal};
ghost use Rattle.device_law.specs.Calls.{IsDeviceAnswer, answer_of_initial, answer_of_finish};
ghost use Rattle.embedding.specs.Clocks as spec;

use chan_model::chunk::Chunk;
use chan_model::names::CommandPath;
use device_law::{Device, Finish};
use scsw_irb::status::DeviceStatus;
use std::marker::Model;
use zbits::be_bytes;

/// Bit 0 of the sense byte: the command was rejected.
const COMMAND_REJECT: u8 = 0x80;

/// A clock.
#[derive(Drop)]
pub struct Clock {
    time: u32,
    sense: u8,
    /// What the command at hand is still to give.
    left: Chunk,
}

impl Model for Clock {
    ghost use Rattle.embedding.specs.Clocks.{Clocks};

    ghost Value = { Clocks };

    ghost view = { λ c. record { time = c.time; sense = c.sense; left = c.left } };
}

impl Clock {
    /// A clock at time 0.
    pub fn new() -> Self
        ensures { result ≡ record { time = 0; sense = 0; left = [] } }
    {
        Clock {
            time: 0,
            sense: 0,
            left: Chunk::new(),
        }
    }

    /// It is so much later; the time after the greatest is 0.
    pub fn goes_on(&mut self, by: u32)
        ensures { self.new ≡ record self.old { time = (self.old.time + by) % 2 ^ 32 } }
    {
        self.time = self.time.wrapping_add(by);
    }
}

impl Device for Clock {
    ghost answers = { IsDeviceAnswer spec.answer_of spec.after };

    ghost opening = { spec.opened };

    /// Code 02 gives the time, four bytes, and code 04 the sense byte. Any other is rejected.
    fn initial(&mut self, code: u8, _came_by: CommandPath) -> DeviceStatus {
        match code {
            0x02 => {
                let bytes: [u8; 4] = be_bytes(&[self.time]);
                self.left = Chunk::of(&bytes);
                DeviceStatus::empty()
            }
            0x04 => {
                self.left = Chunk::of(&[self.sense]);
                self.sense = 0;
                DeviceStatus::empty()
            }
            _ => {
                self.left = Chunk::new();
                self.sense = COMMAND_REJECT;
                DeviceStatus::UNIT_CHECK
            }
        }
    }

    /// Gives what is left, at most so many bytes.
    fn supply(&mut self, most: usize) -> Chunk {
        let bytes = self.left.copy();
        let (given, left) = bytes.as_slice().split_at(most.min(bytes.len()));
        self.left = Chunk::of(left);
        Chunk::of(given)
    }

    /// Takes nothing: no command writes.
    fn absorb(&mut self, _bytes: &[u8]) -> usize {
        0
    }

    /// Ends with channel end and device end, and says whether bytes were left.
    fn finish(&mut self) -> Finish {
        let more = self.left.len() > 0;
        self.left = Chunk::new();
        Finish {
            status: DeviceStatus::end(),
            more,
        }
    }

    /// Forgets the command at hand and the sense byte; the clock goes on.
    fn restart(&mut self) {
        self.sense = 0;
        self.left = Chunk::new();
    }
}
