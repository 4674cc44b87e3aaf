//! What a unit remembers.

ghost use Rattle.std.specs.Prelude.{◌≡◌};
ghost use Rattle.host_sight.specs.Units as spec;

use crate::told::{NO_PATH, flag_told};
use chan_model::names::Side;
use chan_model::unit_state::{Attention, Connection, CurrentCommand, Own, Progress, UnitState};

/// What a unit remembers.
#[repr(C)]
#[derive(Clone, Copy)]
pub struct HostUnit {
    /// The number of the program that holds it; 0 where it is idle.
    pub number: u64,
    /// The connection of that program: 0 for that of its Accept, and one more each time that it asked for a path.
    pub connection: u64,
    /// The number of the last command of that program, which is the command at hand; 0 before its first.
    pub command: u64,
    /// The number of the last chunk of the command at hand.
    pub sequence: u64,
    /// The number of the attention that was sent and is not answered; 0 where there is none.
    pub attention: u64,
    /// How often it was restarted.
    pub restarts: u64,
    /// The floor of each side: the greatest number that was taken of it.
    pub floors: [u64; 2],
    /// 0 idle; held by a program that is: 1 on a path, 2 asking for one, 3 away.
    pub place: u32,
    /// The side of that program, 0 or 1.
    pub side: u32,
    /// The index of its path, or of the path that it asks for; 8 where there is none.
    pub path: u32,
    /// The command at hand: 0 none, 1 not begun, 2 begun, 3 its channel end is sent, 4 its last End is sent.
    pub progress: u32,
    /// The code of the command at hand.
    pub code: u32,
    /// The index of the path by which the command at hand came; 8 where there is none.
    pub command_path: u32,
    /// Whether the program is to end: 1, else 0.
    pub halted: u32,
    /// The side that the attention was sent to, 0 or 1.
    pub attention_side: u32,
    /// Of each side whether it has not been reset since the last restart: 1, else 0.
    pub fresh: [u32; 2],
}

/// The number of a side.
fn side_told(side: Side) -> u32
    ensures { result ≡ spec.side_told side }
{
    match side {
        Side::First => 0,
        Side::Second => 1,
    }
}

/// How far a command is.
fn progress_told(progress: Progress) -> u32
    ensures { result ≡ spec.progress_told progress }
{
    match progress {
        Progress::New => 1,
        Progress::Working => 2,
        Progress::ChannelEnded => 3,
        Progress::Ended => 4,
    }
}

impl HostUnit {
    /// Nothing holds the unit, and no command is at hand; the rest is that of a state.
    fn idle_of(unit: &UnitState) -> HostUnit
        ensures { result ≡ spec.idle_of «unit».now }
    {
        HostUnit {
            number: 0,
            connection: 0,
            command: unit.last_command,
            sequence: 0,
            attention: 0,
            restarts: unit.restarts,
            floors: [unit.first.floor, unit.second.floor],
            place: 0,
            side: 0,
            path: NO_PATH,
            progress: 0,
            code: 0,
            command_path: NO_PATH,
            halted: flag_told(unit.halted),
            attention_side: 0,
            fresh: [flag_told(unit.first.fresh), flag_told(unit.second.fresh)],
        }
    }

    /// The same with where its program is.
    fn with_connection(self, at: Connection) -> HostUnit
        ensures { result ≡ spec.with_connection self at }
    {
        match at {
            Connection::On { path, connection } => HostUnit {
                place: 1,
                path: path.index() as u32,
                connection,
                ..self
            },
            Connection::Ask { path, connection } => HostUnit {
                place: 2,
                path: path.index() as u32,
                connection,
                ..self
            },
            Connection::Away { connection } => HostUnit {
                place: 3,
                connection,
                ..self
            },
        }
    }

    /// The same with whom it is held by.
    fn with_own(self, own: Own) -> HostUnit
        ensures { result ≡ spec.with_own self own }
    {
        match own {
            Own::Idle => self,
            Own::Owned {
                side,
                number,
                connection,
            } => {
                let held = HostUnit {
                    side: side_told(side),
                    number,
                    ..self
                };
                held.with_connection(connection)
            }
        }
    }

    /// The same with the command at hand.
    fn with_command(self, command: &Option<CurrentCommand>) -> HostUnit
        ensures { result ≡ spec.with_command self command.now }
    {
        match command {
            None => self,
            Some(command) => HostUnit {
                progress: progress_told(command.progress),
                code: u32::from(command.code),
                command_path: command.path.index() as u32,
                sequence: command.sequence,
                ..self
            },
        }
    }

    /// The same with the attention that is not answered.
    fn with_attention(self, attention: Option<Attention>) -> HostUnit
        ensures { result ≡ spec.with_attention self attention }
    {
        match attention {
            None => self,
            Some(attention) => HostUnit {
                attention: attention.number,
                attention_side: side_told(attention.side),
                ..self
            },
        }
    }

    /// What a unit remembers.
    pub fn of(unit: &UnitState) -> HostUnit
        ensures { result ≡ spec.unit_told «unit».now }
    {
        HostUnit::idle_of(unit)
            .with_own(unit.own)
            .with_command(&unit.current)
            .with_attention(unit.attention)
    }
}
