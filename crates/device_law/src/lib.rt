//! What every device keeps to, as its unit calls it, and the answer to what a unit asks of one.
//!
//! Used alone, this crate promises: a type that keeps the law of `Device` begins a command with an empty initial status,
//! channel end alone or unit check alone, refuses every read backward, gives at most what it is asked for, takes at most what
//! it is offered, and ends with device end; a restart leaves it at its opening, whatever came before. Each call tells by the
//! relation `answers` that it was made, what it answered and which device it left, so that a contract above can say that a
//! call was made; `answer` makes the call that a unit asks for, and its answer is one that a unit may report. Nothing here
//! takes memory or refuses.
#![tactic(auto)]

pub mod answering;

ghost use Rattle.std.specs.Prelude.{◌≡◌, ◌≤◌, length};
ghost use Rattle.ccw_codec.specs.Command.{class_of};
ghost use Rattle.ccw_codec.specs.declared.Class.TheVariants.{ReadBackward};
ghost use Rattle.chan_model.specs.Reports.{Call};
ghost use Rattle.chan_model.specs.declared.report.Call.TheVariants as call_spec;
ghost use Rattle.chan_model.specs.Reports.{DeviceAnswer};
ghost use Rattle.chan_model.specs.declared.report.DeviceAnswer.TheVariants as answer_spec;
ghost use Rattle.device_law.specs.Laws.{IsInitial, IsFinal};
ghost use Rattle.device_law.specs.Calls.{answer_of_initial, answer_of_finish};

use chan_model::chunk::Chunk;
use chan_model::names::CommandPath;
use scsw_irb::status::DeviceStatus;

/// How a command ended.
#[derive(Clone, Copy, Debug)]
pub struct Finish {
    pub status: DeviceStatus,
    /// A read ended before the device had given all its bytes.
    pub more: bool,
}

/// A device, as its unit calls it.
pub trait Device {
    /// Of the device before a call, the call, its answer, and the device after it: so does the device answer.
    ghost answers: { Self → Call → DeviceAnswer → Self → Type 0 };

    /// The device as it is at its opening, which no call changes.
    ghost opening: { Self → Self };

    /// The initial status of the command of this code, which the device begins: empty, channel end alone
    /// or unit check alone. A read backward is always refused.
    ///
    /// `came_by` is the path by which the command came, also where its unit left that path before it made this call and came
    /// back on another; a device to which all paths are alike does not look at it.
    fn initial(&mut self, code: u8, came_by: CommandPath) -> DeviceStatus
        ensures law { IsInitial result }
        ensures backward { class_of code ≡ ReadBackward → result.0 ≡ 0x02 }
        ensures answers { answers self.old (call_spec.Initial code came_by) (answer_of_initial result) self.new }
        ensures opening { opening self.new ≡ opening self.old };

    /// Gives the next bytes of a read, at most so many.
    fn supply(&mut self, most: usize) -> Chunk
        ensures law { length result ≤ most }
        ensures answers { answers self.old (call_spec.Supply most) (answer_spec.Supplied result) self.new }
        ensures opening { opening self.new ≡ opening self.old };

    /// Takes bytes of a write: how many of them, counted from the first.
    fn absorb(&mut self, bytes: &[u8]) -> usize
        ensures law { result ≤ length bytes.now }
        ensures answers { answers self.old (call_spec.Absorb bytes.now) (answer_spec.Absorbed result) self.new }
        ensures opening { opening self.new ≡ opening self.old };

    /// Ends the command.
    fn finish(&mut self) -> Finish
        ensures law { IsFinal result.status }
        ensures answers { answers self.old call_spec.Finish (answer_of_finish result) self.new }
        ensures opening { opening self.new ≡ opening self.old };

    /// Puts the device back to its opening, so that no later answer depends on a command that came before.
    fn restart(&mut self)
        ensures opens { self.new ≡ opening self.old }
        ensures opening { opening self.new ≡ opening self.old };
}
