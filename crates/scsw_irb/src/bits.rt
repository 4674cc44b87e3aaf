//! The bits of word 0 of a subchannel-status word that are changed and tested by masks (SA22-7832, chapter 16).

/// N, path not operational: bit 15.
pub const PATH_NOT_OPERATIONAL: u32 = 0x1_0000;

/// FC, the start function: bit 17.
pub const START_FUNCTION: u32 = 0x4000;

/// FC, the halt function: bit 18.
pub const HALT_FUNCTION: u32 = 0x2000;

/// FC, the clear function: bit 19.
pub const CLEAR_FUNCTION: u32 = 0x1000;

/// FC: bits 17 to 19.
pub const FUNCTIONS: u32 = 0x7000;

/// AC, resume pending: bit 20.
pub const RESUME_PENDING: u32 = 0x800;

/// AC, start pending: bit 21.
pub const START_PENDING: u32 = 0x400;

/// AC, halt pending: bit 22.
pub const HALT_PENDING: u32 = 0x200;

/// AC, clear pending: bit 23.
pub const CLEAR_PENDING: u32 = 0x100;

/// AC, subchannel active: bit 24.
pub const SUBCHANNEL_ACTIVE: u32 = 0x80;

/// AC, device active: bit 25.
pub const DEVICE_ACTIVE: u32 = 0x40;

/// AC, suspended: bit 26.
pub const SUSPENDED: u32 = 0x20;

/// SC, alert status: bit 27.
pub const ALERT: u32 = 0x10;

/// SC, intermediate status: bit 28.
pub const INTERMEDIATE: u32 = 0x08;

/// SC, primary status: bit 29.
pub const PRIMARY: u32 = 0x04;

/// SC, secondary status: bit 30.
pub const SECONDARY: u32 = 0x02;

/// SC, status pending: bit 31.
pub const STATUS_PENDING: u32 = 0x01;

/// SC: bits 27 to 31.
pub const STATUS: u32 = 0x1F;

/// FC, AC and SC: bits 17 to 31.
pub const CONTROLS: u32 = 0x7FFF;
