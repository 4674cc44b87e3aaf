//! Command codes.

ghost use Rattle.std.specs.Prelude.{◌≡◌};
ghost use Rattle.ccw_codec.specs.Command as spec;

use crate::{Class, Format};

/// The class of a command code, by its low bits.
pub fn class(command: u8) -> Class
    ensures { result ≡ spec.class_of command }
{
    match command % 4 {
        1 => Class::Write,
        2 => Class::Read,
        3 => Class::Control,
        _ => match command % 16 {
            4 => Class::Sense,
            8 => Class::Transfer,
            12 => Class::ReadBackward,
            _ => Class::Invalid,
        },
    }
}

/// Whether a command code is a transfer in channel. In format 1 only code 08 is.
pub fn is_transfer(format: Format, command: u8) -> bool
    ensures { result ≡ spec.is_transfer format command }
{
    match format {
        Format::Zero => command % 16 == 8,
        Format::One => command == 8,
    }
}

/// Whether a program may have a command code: a device's command or a transfer in channel.
pub fn is_valid(format: Format, command: u8) -> bool
    ensures { result ≡ spec.is_valid format command }
{
    is_transfer(format, command) || !matches!(class(command), Class::Transfer | Class::Invalid)
}
