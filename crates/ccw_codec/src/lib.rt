//! Channel-command words in both formats, and the classes of their commands (SA22-7832, chapter 15).
#![tactic(auto)]

ghost use Rattle.std.specs.Prelude.{◌≡◌, ◌<◌, ◌^◌};

mod block;
pub mod command;
mod fault;
pub mod law;
mod one;
mod zero;

/// The format of a program's channel-command words.
#[derive(Clone, Copy, Debug, PartialEq, Eq)]
pub enum Format {
    /// 24-bit addresses.
    Zero,
    /// 31-bit addresses.
    One,
}

/// What a command code asks for.
#[derive(Clone, Copy, Debug, PartialEq, Eq)]
pub enum Class {
    Write,
    Read,
    Control,
    Sense,
    ReadBackward,
    /// A transfer in channel (TIC): the program goes on elsewhere.
    Transfer,
    /// No class has this code.
    Invalid,
}

/// What is wrong with a block by itself, wherever it stands in its program: a program check.
#[derive(Clone, Copy, Debug, PartialEq, Eq)]
pub enum CcwFault {
    /// The flag for modified indirect words is one.
    ModifiedAddress,
    /// Bit 32 of a block of format 1 is one.
    AddressBit,
    /// Bytes 1 to 3 of a transfer in channel of format 1 are not zero.
    TransferFields,
    /// The target of a transfer in channel is not on a doubleword boundary.
    TransferTarget,
    /// The count of a block of format 0 is zero, and it is no transfer in channel.
    ZeroCount,
    /// The count of a block of format 1 that chains data is zero, and it is no transfer in channel.
    ZeroCountChained,
}

/// A channel-command word.
///
/// Format 0: command, 24 bits of address, flags, a byte that is ignored, 16 bits of count. Format 1:
/// command, flags, 16 bits of count, a zero bit, 31 bits of address.
#[derive(Clone, Copy, Debug, PartialEq, Eq)]
pub struct Ccw {
    /// The command code: byte 0.
    pub command: u8,
    /// CD, 80 in the flags: the next block has more data for this command.
    pub chain_data: bool,
    /// CC, 40: the next block has the next command.
    pub chain_command: bool,
    /// SLI, 20: an incorrect length is not shown.
    pub suppress_length: bool,
    /// SKIP, 10: what is read is not stored.
    pub skip: bool,
    /// PCI, 08: a program-controlled interruption as this block takes control.
    pub program_controlled: bool,
    /// IDA, 04: the address is that of a list of indirect words.
    pub indirect: bool,
    /// S, 02: the program is suspended before this block takes control.
    pub suspend: bool,
    /// How many bytes are to be moved.
    pub count: u16,
    /// Where the data is, or the next block of a transfer in channel.
    pub address: u32,
    ghost address_fits: { address < 2 ^ 31 },
}
