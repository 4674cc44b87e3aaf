//! The commands of a console.

ghost use Rattle.std.specs.Prelude.{◌≡◌, None};
ghost use Rattle.ccw_codec.specs.Command.{class_of};
ghost use Rattle.ccw_codec.specs.declared.Class.TheVariants.{ReadBackward};

/// A command of a console (own).
#[derive(Clone, Copy, Debug, PartialEq, Eq)]
pub enum ConsoleCommand {
    /// Code 01: writes the line anew.
    Write,
    /// Code 0A: reads the line.
    Read,
    /// Code 03.
    NoOperation,
    /// Code 04: reads the sense byte, which is zero from then on.
    Sense,
}

impl ConsoleCommand {
    ghost use Rattle.device_models.specs.ConsoleCommands.{console_command_of};

    /// The command of a code, if a console has it.
    pub fn of_code(code: u8) -> Option<ConsoleCommand>
        ensures command { result ≡ console_command_of code }
        ensures backward { class_of code ≡ ReadBackward → result ≡ None }
    {
        match code {
            0x01 => Some(ConsoleCommand::Write),
            0x0A => Some(ConsoleCommand::Read),
            0x03 => Some(ConsoleCommand::NoOperation),
            0x04 => Some(ConsoleCommand::Sense),
            _ => None,
        }
    }
}
