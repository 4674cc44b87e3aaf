//! The commands of a store of blocks.

ghost use Rattle.std.specs.Prelude.{◌≡◌, None};
ghost use Rattle.ccw_codec.specs.Command.{class_of};
ghost use Rattle.ccw_codec.specs.declared.Class.TheVariants.{ReadBackward};

/// A command of a store of blocks (own).
#[derive(Clone, Copy, Debug, PartialEq, Eq)]
pub enum BlockCommand {
    /// Code 01: writes into the current block, from its start.
    Write,
    /// Code 02: reads the current block, from its start.
    Read,
    /// Code 03.
    NoOperation,
    /// Code 04: reads the sense byte, which is zero from then on.
    Sense,
    /// Code 07: the block whose number it brings becomes current.
    Seek,
    /// Code 0B: block 0 becomes current.
    Recalibrate,
    /// Code 31: asks whether the number that it brings is the current block's.
    SearchEqual,
}

impl BlockCommand {
    ghost use Rattle.device_models.specs.Commands.{block_command_of, block_size_of};

    /// The command of a code, if a store has it.
    pub fn of_code(code: u8) -> Option<BlockCommand>
        ensures command { result ≡ block_command_of code }
        ensures backward { class_of code ≡ ReadBackward → result ≡ None }
    {
        match code {
            0x01 => Some(BlockCommand::Write),
            0x02 => Some(BlockCommand::Read),
            0x03 => Some(BlockCommand::NoOperation),
            0x04 => Some(BlockCommand::Sense),
            0x07 => Some(BlockCommand::Seek),
            0x0B => Some(BlockCommand::Recalibrate),
            0x31 => Some(BlockCommand::SearchEqual),
            _ => None,
        }
    }
}
