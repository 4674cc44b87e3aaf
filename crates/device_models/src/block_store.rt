//! A store of 32 blocks of 64 bytes.

ghost use Rattle.std.specs.Prelude.{◌≡◌, ◌≤◌, ◌+◌, false, length, take, drop};
ghost use Rattle.ccw_codec.specs.Command.{class_of};
ghost use Rattle.ccw_codec.specs.declared.Class.TheVariants.{ReadBackward};
ghost use Rattle.device_law.specs.Laws.{IsInitial, IsFinal};
ghost use Rattle.device_models.specs.Blocks as spec;
ghost use Rattle.device_models.specs.Commands.{block_command_of, block_size_of};
ghost use Rattle.chan_model.specs.declared.report.Call.TheVariants as call;
ghost use Rattle.chan_model.specs.declared.report.DeviceAnswer.TheVariants as answer;
ghost use Rattle.device_law.specs.Calls.{IsDeviceAnswer, answer_of_initial, answer_of_finish};

use crate::command::BlockCommand;
use crate::giving::{COMMAND_REJECT, part};
use chan_model::chunk::Chunk;
use chan_model::names::CommandPath;
use device_law::{Device, Finish};
use scsw_irb::status::DeviceStatus;
use std::marker::Model;

const BLOCKS: u16 = 32;

const BLOCK_BYTES: u8 = 64;

const NUMBER_BYTES: u8 = 2;

/// Bit 2 of the sense byte: the number is that of no block (own).
const NO_SUCH_BLOCK: u8 = 0x20;

/// 32 blocks of 64 bytes, of which one is current, and a sense byte.
#[derive(Drop)]
pub struct BlockStore {
    blocks: [[u8; 64]; 32],
    current: u8,
    sense: u8,
    command: Option<BlockCommand>,
    /// How many bytes the command at hand has moved.
    moved: u8,
    /// The block number that a command brings, its left byte first.
    number: [u8; 2],
}

impl Model for BlockStore {
    ghost use Rattle.std.specs.Prelude.{◌<◌, ◌≤◌};
    ghost use Rattle.device_models.specs.Blocks.{Blocks};
    ghost use Rattle.device_models.specs.Commands.{block_size_of};

    ghost Value = { Blocks };

    ghost view = { λ d. record {
      blocks = d.blocks;
      current = d.current;
      sense = d.sense;
      command = d.command;
      moved = d.moved;
      number = d.number;
    } };

    ghost invariant = { λ d. (d.current < 32) × (d.moved ≤ block_size_of d.command) };
}

impl BlockStore {
    /// A store at its opening: all bytes zero, block 0 current.
    pub fn new() -> Self
        ensures { result ≡ spec.opening }
    {
        BlockStore {
            blocks: [[0; 64]; 32],
            current: 0,
            sense: 0,
            command: None,
            moved: 0,
            number: [0; 2],
        }
    }

    /// The bytes that the command at hand gives next, at most so many.
    fn given(&self, most: usize) -> Chunk
        ensures bytes { result ≡ spec.given_of self.now most }
        ensures bound { length result ≤ most }
        ensures left { self.now.moved + length result ≤ block_size_of self.now.command }
    {
        let index = usize::from(self.moved);
        match self.command {
            Some(BlockCommand::Read) => part(&self.blocks[usize::from(self.current)], index, most),
            Some(BlockCommand::Sense) => part(&[self.sense], index, most),
            _ => Chunk::new(),
        }
    }

    /// How many bytes the command at hand takes yet.
    fn room(&self) -> usize
        ensures room { result ≡ spec.room_of self.now.command self.now.moved }
        ensures left { self.now.moved + result ≤ block_size_of self.now.command }
    {
        let size = match self.command {
            Some(BlockCommand::Write) => BLOCK_BYTES,
            Some(BlockCommand::Seek | BlockCommand::SearchEqual) => NUMBER_BYTES,
            _ => return 0,
        };
        usize::from(size - self.moved)
    }

    /// The block number that a command brought.
    fn number(&self) -> u16
        ensures { result ≡ spec.number_of self.now }
    {
        256 * u16::from(self.number[0]) + u16::from(self.number[1])
    }

    /// Ends the command at hand with this status.
    fn end(&mut self, status: DeviceStatus, more: bool) -> Finish
        ensures status { result.status ≡ status }
        ensures more { result.more ≡ more }
        ensures state { self.new ≡ (spec.ends self.old status.0 more).state }
    {
        self.command = None;
        self.moved = 0;
        Finish { status, more }
    }

    fn seek(&mut self) -> Finish
        ensures status { result.status.0 ≡ (spec.sought self.old).status }
        ensures more { result.more ≡ false }
        ensures state { self.new ≡ (spec.sought self.old).state }
    {
        let number = self.number();
        if self.moved == NUMBER_BYTES && number < BLOCKS {
            self.current = number as u8;
            return self.end(DeviceStatus::end(), false);
        }
        self.sense = NO_SUCH_BLOCK;
        self.end(DeviceStatus::end().joined(DeviceStatus::UNIT_CHECK), false)
    }

    fn search(&mut self) -> Finish
        ensures status { result.status.0 ≡ (spec.searched self.old).status }
        ensures more { result.more ≡ false }
        ensures state { self.new ≡ (spec.searched self.old).state }
    {
        let mut status = DeviceStatus::end();
        if self.moved == NUMBER_BYTES && self.number() == u16::from(self.current) {
            status = status.joined(DeviceStatus::STATUS_MODIFIER);
        }
        self.end(status, false)
    }
}

impl Device for BlockStore {
    ghost answers = { IsDeviceAnswer spec.answer_of spec.after };

    ghost opening = { λ _. spec.opening };

    /// Codes 01 (write), 02 (read), 03 (no operation), 04 (sense), 07 (seek), 0B (recalibrate) and 31 (search
    /// equal) are begun. Any other is rejected: the sense byte is 80 then.
    fn initial(&mut self, code: u8, _came_by: CommandPath) -> DeviceStatus {
        self.command = BlockCommand::of_code(code);
        self.moved = 0;
        match self.command {
            Some(BlockCommand::NoOperation) => DeviceStatus::CHANNEL_END,
            Some(BlockCommand::Recalibrate) => {
                self.current = 0;
                DeviceStatus::CHANNEL_END
            }
            Some(_) => DeviceStatus::empty(),
            None => {
                self.sense = COMMAND_REJECT;
                DeviceStatus::UNIT_CHECK
            }
        }
    }

    /// Gives what is left of the current block (02), or the sense byte (04).
    fn supply(&mut self, most: usize) -> Chunk {
        let bytes = self.given(most);
        if self.command == Some(BlockCommand::Sense) && bytes.len() > 0 {
            self.sense = 0;
        }
        self.moved += bytes.len() as u8;
        bytes
    }

    /// Takes bytes of the current block (01), or of a block number (07 and 31).
    fn absorb(&mut self, bytes: &[u8]) -> usize {
        let count = bytes.len().min(self.room());
        let taken = &bytes[..count];
        let index = usize::from(self.moved);
        match self.command {
            Some(BlockCommand::Write) => lay(
                &mut self.blocks[usize::from(self.current)],
                index,
                taken,
            ),
            Some(BlockCommand::Seek | BlockCommand::SearchEqual) => lay(
                &mut self.number,
                index,
                taken,
            ),
            _ => {}
        }
        self.moved += count as u8;
        count
    }

    /// Ends with channel end and device end; with device end alone after channel end (03 and 0B), with unit
    /// check for a number that is no block's (07), and with status modifier for the current one's (31).
    fn finish(&mut self) -> Finish {
        match self.command {
            Some(BlockCommand::Read) => {
                let more = self.moved < BLOCK_BYTES;
                self.end(DeviceStatus::end(), more)
            }
            Some(BlockCommand::NoOperation | BlockCommand::Recalibrate) => {
                self.end(DeviceStatus::DEVICE_END, false)
            }
            Some(BlockCommand::Seek) => self.seek(),
            Some(BlockCommand::SearchEqual) => self.search(),
            _ => self.end(DeviceStatus::end(), false),
        }
    }

    /// Puts the store back to its opening, its blocks too.
    fn restart(&mut self) {
        *self = BlockStore::new();
    }
}

/// Lays bytes over others from an index on.
fn lay(old: &mut [u8], index: usize, bytes: &[u8])
    requires { index + length bytes.now ≤ length old.old }
    ensures { old.new ≡ spec.laid old.old index bytes.now }
{
    old[index..index + bytes.len()].copy_from_slice(bytes);
}
