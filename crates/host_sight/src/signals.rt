//! A signal that waits on a wire.

ghost use Rattle.std.specs.Prelude.{◌≡◌};
ghost use Rattle.chan_model.specs.Lent.{lent_down, lent_up};
ghost use Rattle.chan_model.specs.Signals.{lent_load};
ghost use Rattle.host_sight.specs.Signals as spec;

use crate::told::flag_told;
use chan_model::chunk::Bytes;
use chan_model::lent::{LentDown, LentUp};
use chan_model::signal::{Down, Load, Up};

/// A signal that waits on a wire. What a signal of its kind does not name is 0.
#[repr(C)]
#[derive(Clone, Copy)]
pub struct HostSignal {
    /// The number of the program or of the attention; of a Reset its own.
    pub number: u64,
    /// The number of the connection.
    pub connection: u64,
    /// The number of the command.
    pub command: u64,
    /// The number of the chunk.
    pub sequence: u64,
    /// How often the unit was restarted.
    pub restarts: u64,
    /// Down: 1 Select, 2 Command, 3 Grant, 4 Refuse, 5 Took, 6 Give, 7 Halt, 8 Release, 9 Reset, 10 Got. Up: 11 Accept, 12 Busy,
    /// 13 Leave, 14 Back, 15 Data, 16 End, 17 Released, 18 Cleared, 19 Notice, 20 Attn.
    pub kind: u32,
    /// The code of a Command.
    pub code: u32,
    /// How many bytes of a read may come, or more of them.
    pub room: u32,
    /// How many bytes it brings.
    pub bytes: u32,
    /// How many bytes of a write a Data says were absorbed.
    pub absorbed: u32,
    /// Device status, of an End or an Attn.
    pub status: u32,
    /// Whether an End says that the device had more bytes: 1, else 0.
    pub more: u32,
}

/// A signal of this kind, which names nothing but a program or an attention.
fn named(kind: u32, number: u64) -> HostSignal
    ensures { result ≡ spec.named kind number }
{
    HostSignal {
        number,
        connection: 0,
        command: 0,
        sequence: 0,
        restarts: 0,
        kind,
        code: 0,
        room: 0,
        bytes: 0,
        absorbed: 0,
        status: 0,
        more: 0,
    }
}

impl HostSignal {
    fn connected(self, connection: u64) -> HostSignal
        ensures { result ≡ record self { connection = connection } }
    {
        HostSignal { connection, ..self }
    }

    fn of_chunk(self, command: u64, sequence: u64) -> HostSignal
        ensures { result ≡ record self { command = command; sequence = sequence } }
    {
        HostSignal {
            command,
            sequence,
            ..self
        }
    }

    fn of_command(self, command: u64, code: u8) -> HostSignal
        ensures { result ≡ record self { command = command; code = code } }
    {
        HostSignal {
            command,
            code: u32::from(code),
            ..self
        }
    }

    fn with_room(self, room: u16) -> HostSignal
        ensures { result ≡ record self { room = room } }
    {
        HostSignal {
            room: u32::from(room),
            ..self
        }
    }

    fn with_bytes(self, bytes: u32) -> HostSignal
        ensures { result ≡ record self { bytes = bytes } }
    {
        HostSignal { bytes, ..self }
    }

    fn restarted(self, restarts: u64) -> HostSignal
        ensures { result ≡ record self { restarts = restarts } }
    {
        HostSignal { restarts, ..self }
    }

    fn with_load(self, load: &Load<Bytes<'_>>) -> HostSignal
        ensures { result ≡ spec.with_load self (lent_load load.now) }
    {
        match load {
            Load::Absorbed(count) => HostSignal {
                absorbed: u32::from(*count),
                ..self
            },
            Load::Bytes(bytes) => self.with_bytes(bytes.as_slice().len() as u32),
        }
    }

    /// A signal to the unit.
    pub fn of_down(signal: &LentDown<'_>) -> HostSignal
        ensures { result ≡ spec.down_told (lent_down signal.now) }
    {
        let bytes = signal.bytes().len() as u32;
        match *signal.kept {
            Down::Select { number } => named(1, number),
            Down::Command {
                number,
                command,
                code,
                room,
            } => named(2, number).of_command(command, code).with_room(room),
            Down::Grant { number, connection } => { named(3, number).connected(connection) }
            Down::Refuse { number, connection } => { named(4, number).connected(connection) }
            Down::Took {
                number,
                command,
                sequence,
                room,
            } => named(5, number).of_chunk(command, sequence).with_room(room),
            Down::Give {
                number,
                connection,
                command,
                sequence,
                ..
            } => named(6, number)
                .connected(connection)
                .of_chunk(command, sequence)
                .with_bytes(bytes),
            Down::Halt { number } => named(7, number),
            Down::Release { number } => named(8, number),
            Down::Reset { number, restarts } => named(9, number).restarted(restarts),
            Down::Got { attention } => named(10, attention),
        }
    }

    /// A signal to the subsystem.
    pub fn of_up(signal: &LentUp<'_>) -> HostSignal
        ensures { result ≡ spec.up_told (lent_up signal.now) }
    {
        match *signal.kept {
            Up::Accept { number } => named(11, number),
            Up::Busy { number } => named(12, number),
            Up::Leave { number, connection } => named(13, number).connected(connection),
            Up::Back { number, connection } => named(14, number).connected(connection),
            Up::Data {
                number,
                connection,
                command,
                sequence,
                ..
            } => named(15, number)
                .connected(connection)
                .of_chunk(command, sequence)
                .with_load(&signal.load()),
            Up::End {
                number,
                command,
                status,
                more,
            } => HostSignal {
                command,
                status: u32::from(status.bits()),
                more: flag_told(more),
                ..named(16, number)
            },
            Up::Released { number } => named(17, number),
            Up::Cleared { number } => named(18, number),
            Up::Notice { restarts } => named(19, 0).restarted(restarts),
            Up::Attn { attention, status } => HostSignal {
                status: u32::from(status.bits()),
                ..named(20, attention)
            },
        }
    }
}
