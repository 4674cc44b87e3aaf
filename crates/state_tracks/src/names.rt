//! The names of bits and states.

use chan_model::hold_state::HoldPhase;

/// The first and the last bit of the first word of a subchannel-status word that are drawn: its functions, its activities and its
/// status (SA22-7832, chapter 16).
pub const FIRST_BIT: u32 = 17;

pub const LAST_BIT: u32 = 31;

/// The functions (FC), the activities (AC) or the status (SC) of a subchannel.
#[derive(Clone, Copy, PartialEq, Eq)]
pub enum BitGroup {
    Function,
    Activity,
    Status,
}

/// The group of a bit.
pub fn bit_group(bit: u32) -> BitGroup {
    match bit {
        17..=19 => BitGroup::Function,
        20..=26 => BitGroup::Activity,
        _ => BitGroup::Status,
    }
}

/// The name of a bit.
pub fn bit_name(bit: u32) -> &'static [u8] {
    match bit {
        17 => b"start function",
        18 => b"halt function",
        19 => b"clear function",
        20 => b"resume pending",
        21 => b"start pending",
        22 => b"halt pending",
        23 => b"clear pending",
        24 => b"subchannel active",
        25 => b"device active",
        26 => b"suspended",
        27 => b"alert",
        28 => b"intermediate",
        29 => b"primary",
        30 => b"secondary",
        _ => b"status pending",
    }
}

/// What the subsystem takes a device to be held by.
#[derive(Clone, Copy, PartialEq, Eq)]
pub enum HoldName {
    Offered,
    Connected,
    Away,
    LettingGo,
    ToBeReset,
}

/// All of them.
pub const HOLD_NAMES: [HoldName; 5] = [
    HoldName::Offered,
    HoldName::Connected,
    HoldName::Away,
    HoldName::LettingGo,
    HoldName::ToBeReset,
];

impl HoldName {
    /// That of a phase; None where nothing is held.
    pub fn of(phase: HoldPhase) -> Option<HoldName> {
        match phase {
            HoldPhase::Free => None,
            HoldPhase::Offer { .. } => Some(HoldName::Offered),
            HoldPhase::On { .. } => Some(HoldName::Connected),
            HoldPhase::Away { .. } => Some(HoldName::Away),
            HoldPhase::Letting { .. } => Some(HoldName::LettingGo),
            HoldPhase::Reset { .. } => Some(HoldName::ToBeReset),
        }
    }

    /// As it is told.
    pub fn text(self) -> &'static [u8] {
        match self {
            HoldName::Offered => b"offered",
            HoldName::Connected => b"connected",
            HoldName::Away => b"away",
            HoldName::LettingGo => b"letting go",
            HoldName::ToBeReset => b"to be reset",
        }
    }
}
