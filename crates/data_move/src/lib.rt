//! The data of a command word that took control: where its bytes are, and how far they are moved
//! (SA22-7832, chapter 15).
#![tactic(auto)]

pub mod chunks;
pub mod commands;
pub mod law;
pub mod moving;
pub mod slices;
pub mod transfer;
