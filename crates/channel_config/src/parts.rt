//! What a machine is set up of.

ghost use Rattle.std.specs.Prelude.{◌≡◌, ◌≤◌, [], ◌∷◌, ◌++◌, ◌<◌, length};
ghost use Rattle.channel_config.specs.Choices as spec;

use crate::names::SubchannelId;
use arrayvec::ArrayVec;
use chan_model::names::Side;
use scsw_irb::crw::PathReport;
use std::marker::Model;

/// What kind of device a unit is.
#[derive(Clone, Copy, Debug, PartialEq, Eq)]
pub enum UnitKind {
    /// 32 blocks of 64 bytes (own).
    Block,
    /// A line of at most 126 bytes (own).
    Console,
    /// Rejects every command (own).
    Rejecting,
}

/// What MODIFY SUBCHANNEL does with the concurrent-sense bit, bit 31 of word 6 of the path-management-control word (SA22-7832,
/// chapters 14 and 15, leaves it to the model). Sense is never concurrent here: the extended-control word of an
/// interruption-response block is zero either way.
#[derive(Clone, Copy, Debug, PartialEq, Eq)]
pub enum ConcurrentSense {
    /// The bit of the given word is dropped: STORE SUBCHANNEL shows zero.
    Dropped,
    /// The bit of the given word is kept: STORE SUBCHANNEL shows it, until it is modified again or the subsystem is reset.
    Kept,
}

impl ConcurrentSense {
    /// Whether the bit is kept.
    pub fn is_kept(self) -> bool
        ensures { result ≡ spec.is_kept self }
    {
        matches!(self, ConcurrentSense::Kept)
    }
}

/// How a channel path that is back is reported: by which error-recovery code, bits 10 to 15 of the channel-report word
/// (SA22-7832, chapter 17, leaves it to the model).
#[derive(Clone, Copy, Debug, PartialEq, Eq)]
pub enum PathReturn {
    /// As available: code 01.
    Available,
    /// As initialized: code 02.
    Initialized,
}

impl PathReturn {
    /// What is reported of a path that is back.
    pub fn report(self) -> PathReport
        ensures { result ≡ spec.back_report self }
    {
        match self {
            PathReturn::Available => PathReport::Back,
            PathReturn::Initialized => PathReport::Initialized,
        }
    }
}

/// The channel-path identifiers (CHPIDs) of a subchannel, by path index: at most eight (SA22-7832, chapter 13).
#[derive(Drop)]
pub struct ChpidList {
    chpids: ArrayVec<u8, 8>,
}

impl Model for ChpidList {
    ghost use Rattle.std.specs.Prelude.{ℕ, List};

    ghost Value = { List ℕ };

    ghost view = { λ l. l.chpids.items };
}

impl ChpidList {
    /// No paths.
    pub fn new() -> Self
        ensures { result ≡ [] }
    {
        ChpidList {
            chpids: ArrayVec::new(),
        }
    }

    /// One path more.
    pub fn push(&mut self, chpid: u8)
        requires { length self.old < 8 }
        ensures { self.new ≡ self.old ++ chpid ∷ [] }
    {
        self.chpids.push(chpid);
    }

    /// The same paths; it takes no memory.
    pub fn copy(&self) -> Self
        ensures { result ≡ self.now }
    {
        let mut chpids = ArrayVec::new();
        let _ = chpids.try_extend_from_slice(self.as_slice());
        ChpidList { chpids }
    }

    /// The identifiers in the order of the path indices.
    pub fn as_slice(&self) -> &[u8]
        ensures value { result.now ≡ self.now }
        ensures bound { length result.now ≤ 8 }
    {
        self.chpids.as_slice()
    }
}

/// A subchannel of a machine.
#[derive(Drop)]
pub struct SubchannelSetup {
    pub id: SubchannelId,
    /// The device number that programs know it by.
    pub device: u16,
    /// The number of its unit.
    pub unit: u16,
    /// Which side of the unit it reaches: the first subchannel of a unit reaches its first side (own).
    pub side: Side,
    pub paths: ChpidList,
    /// What MODIFY SUBCHANNEL does here with the concurrent-sense bit.
    pub concurrent_sense: ConcurrentSense,
}

impl SubchannelSetup {
    /// The same subchannel; it takes no memory.
    pub fn copy(&self) -> Self
        ensures { result ≡ self.now }
    {
        SubchannelSetup {
            id: self.id,
            device: self.device,
            unit: self.unit,
            side: self.side,
            paths: self.paths.copy(),
            concurrent_sense: self.concurrent_sense,
        }
    }
}
