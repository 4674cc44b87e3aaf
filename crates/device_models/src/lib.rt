//! Devices: a store of blocks, a console, one that rejects every command, and the device of each kind of unit.
//!
//! Used alone, this crate promises: each model keeps the law of `Device`, and the answer to each call and the device
//! after it are those of its table, which is all that there is to know of it. Nothing here takes memory or refuses.
#![tactic(auto)]

pub mod any_device;
pub mod block_store;
pub mod command;
pub mod console;
pub mod console_command;
mod giving;
pub mod rejecting;
