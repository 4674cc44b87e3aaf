//! What a cycle does: a channel program from its START SUBCHANNEL to the TEST SUBCHANNEL that clears its status, its Release
//! taken.

use chan_events::event::Event;
use chan_model::chunk::Chunk;
use std::alloc::AllocError;

/// Where the ORB lies.
pub const ORB: u32 = 0x500;

/// Where the IRB is stored.
pub const IRB: u32 = 0x600;

/// Where the channel program begins.
const PROGRAM: u32 = 0x1000;

/// Where the bytes of a write lie.
const DATA: u32 = 0x2000;

/// How many commands a chain has.
const CHAINED: usize = 64;

/// A CCW of format 1: write four bytes, incorrect length suppressed.
const WRITE: [u8; 8] = [0x01, 0x20, 0, 4, 0, 0, 0x20, 0];

/// The same with command chaining.
const WRITE_AND_CHAIN: [u8; 8] = [0x01, 0x60, 0, 4, 0, 0, 0x20, 0];

/// Read 64 bytes, incorrect length suppressed.
const READ: [u8; 8] = [0x02, 0x20, 0, 64, 0, 0, 0x20, 0];

/// Which program a cycle has.
#[derive(Clone, Copy)]
pub enum Kind {
    /// One write of four bytes.
    Write,
    /// One read of 64 bytes.
    Read,
    /// 64 writes of four bytes, command-chained.
    Chain,
    /// One write of four bytes, whose unit leaves its path and comes back on the next one eight times.
    Reconnect,
    /// No program runs: a START SUBCHANNEL, which a CANCEL SUBCHANNEL takes back.
    Start,
    /// No program: the TEST SUBCHANNEL alone.
    Test,
}

/// One event of a cycle, at the subchannel that is measured and its unit.
#[derive(Clone, Copy)]
pub enum Beat {
    /// START SUBCHANNEL.
    Start,
    /// The subsystem offers the program.
    Choose,
    /// The unit takes a signal on this path.
    Down(u32),
    /// The subchannel takes a signal on this path.
    Up(u32),
    /// The device answers its unit's call.
    Device,
    /// The unit leaves its path.
    Leave,
    /// The unit asks for this path.
    Ask(u32),
    /// TEST SUBCHANNEL.
    Test,
    /// CANCEL SUBCHANNEL.
    Cancel,
}

impl Kind {
    /// The kind of this name.
    pub fn named(name: &str) -> Option<Kind> {
        if name == "write" {
            Some(Kind::Write)
        } else if name == "read" {
            Some(Kind::Read)
        } else if name == "chain" {
            Some(Kind::Chain)
        } else if name == "reconnect" {
            Some(Kind::Reconnect)
        } else if name == "start" {
            Some(Kind::Start)
        } else if name == "test" {
            Some(Kind::Test)
        } else {
            None
        }
    }

    /// How many paths each subchannel has.
    pub fn paths(self) -> usize {
        match self {
            Kind::Reconnect => 8,
            Kind::Write | Kind::Read | Kind::Chain | Kind::Start | Kind::Test => 1,
        }
    }

    /// The first of its CCWs, put into storage.
    pub fn program(self) -> Event {
        match self {
            Kind::Write | Kind::Reconnect | Kind::Start | Kind::Test => put(PROGRAM, &WRITE),
            Kind::Read => put(PROGRAM, &READ),
            Kind::Chain => links(PROGRAM, CHAINED / 2 - 1, &WRITE_AND_CHAIN),
        }
    }

    /// Those that one event more puts behind them, if there are any.
    pub fn rest(self) -> Option<Event> {
        match self {
            Kind::Chain => Some(links(PROGRAM + 0x100, CHAINED / 2 - 1, &WRITE)),
            _ => None,
        }
    }

    /// Adds the beats of one cycle.
    pub fn add_beats(self, beats: &mut Vec<Beat>) -> Result<(), AllocError> {
        match self {
            Kind::Start => beats.extend_from_slice(&[Beat::Start, Beat::Cancel]),
            Kind::Test => beats.extend_from_slice(&[Beat::Test]),
            Kind::Write | Kind::Read | Kind::Chain | Kind::Reconnect => {
                beats.extend_from_slice(&[Beat::Start, Beat::Choose, Beat::Down(0), Beat::Up(0)])?;
                self.add_commands(beats)?;
                beats.extend_from_slice(&[Beat::Test, Beat::Down(0), Beat::Up(0)])
            }
        }
    }

    /// Those of the commands of its program.
    fn add_commands(self, beats: &mut Vec<Beat>) -> Result<(), AllocError> {
        match self {
            Kind::Write => add_write(beats),
            Kind::Read => add_read(beats),
            Kind::Chain => add_chain(beats),
            Kind::Reconnect => add_reconnections(beats),
            Kind::Start | Kind::Test => Ok(()),
        }
    }
}

/// The ORB, of format-1 CCWs, of which path 0 alone is allowed for the offer, put into storage.
pub fn orb() -> Event {
    put(ORB, &[0, 0, 0, 0, 0, 0x80, 0x80, 0, 0, 0, 0x10, 0])
}

/// The same of the bytes that are written.
pub fn data() -> Event {
    put(DATA, &[0xC1, 0xC2, 0xC3, 0xC4])
}

/// A write: its command, and what follows.
fn add_write(beats: &mut Vec<Beat>) -> Result<(), AllocError> {
    beats.push(Beat::Down(0))?;
    add_transfer(beats)
}

/// As many writes as a chain has.
fn add_chain(beats: &mut Vec<Beat>) -> Result<(), AllocError> {
    for _ in 0..CHAINED {
        add_write(beats)?;
    }
    Ok(())
}

/// The bytes of a write are asked for, given and absorbed, and it ends.
fn add_transfer(beats: &mut Vec<Beat>) -> Result<(), AllocError> {
    beats.extend_from_slice(&[
        Beat::Device,
        Beat::Up(0),
        Beat::Down(0),
        Beat::Device,
        Beat::Up(0),
        Beat::Down(0),
        Beat::Device,
        Beat::Up(0),
    ])
}

/// A read: it begins, its bytes are taken, and it ends.
fn add_read(beats: &mut Vec<Beat>) -> Result<(), AllocError> {
    beats.extend_from_slice(&[
        Beat::Down(0),
        Beat::Device,
        Beat::Device,
        Beat::Up(0),
        Beat::Down(0),
        Beat::Device,
        Beat::Up(0),
    ])
}

/// A write whose unit leaves each of eight paths and comes back on the next one.
fn add_reconnections(beats: &mut Vec<Beat>) -> Result<(), AllocError> {
    beats.push(Beat::Down(0))?;
    for path in 0..8u32 {
        add_reconnection(beats, path, (path + 1) & 7)?;
    }
    add_transfer(beats)
}

/// The unit leaves one path and comes back on another.
fn add_reconnection(beats: &mut Vec<Beat>, from: u32, to: u32) -> Result<(), AllocError> {
    beats.extend_from_slice(&[
        Beat::Leave,
        Beat::Up(from),
        Beat::Ask(to),
        Beat::Up(to),
        Beat::Down(to),
    ])
}

/// Bytes are put into storage.
fn put(address: u32, bytes: &[u8]) -> Event {
    let bytes = if bytes.len() <= 256 {
        Chunk::of(bytes)
    } else {
        Chunk::new()
    };
    Event::Put { address, bytes }
}

/// CCWs that chain, so many, and a last one.
fn links(address: u32, count: usize, last: &[u8; 8]) -> Event {
    let mut bytes = Chunk::new();
    for _ in 0..count {
        add_ccw(&mut bytes, &WRITE_AND_CHAIN);
    }
    add_ccw(&mut bytes, last);
    Event::Put { address, bytes }
}

/// One CCW more, where there is room.
fn add_ccw(bytes: &mut Chunk, ccw: &[u8; 8]) {
    for byte in ccw {
        if bytes.len() < 256 {
            bytes.push(*byte);
        }
    }
}
