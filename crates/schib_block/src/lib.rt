//! The subchannel-information block: what STORE SUBCHANNEL stores and MODIFY SUBCHANNEL is given
//! (SA22-7832, chapter 15).
#![tactic(auto)]

pub mod law;
pub mod pmcw;
pub mod schib;
pub mod words;

/// How many bytes a subchannel-information block has.
pub const SCHIB_BYTES: usize = 52;

/// A block that MODIFY SUBCHANNEL is given asks for what there is not: an operand exception.
#[derive(Clone, Copy, Debug, PartialEq, Eq)]
pub struct Operand;
