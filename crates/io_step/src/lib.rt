//! One I/O instruction (SA22-7832, chapter 14), executed on what it is lent.
//!
//! Used alone, this crate promises: an instruction on a subchannel, provided or not, answers and leaves of storage and
//! of that subchannel what the machine's definitions give for every machine that has both there; its operand is tested
//! for its boundary, for addressing and for its contents before the condition code is set. TEST PENDING INTERRUPTION,
//! RESET CHANNEL PATH, STORE CHANNEL REPORT WORD and STORE CHANNEL PATH STATUS, which name no subchannel, each answer
//! and leave what one definition gives of storage, of the requests and of the reports. Of the requests, only what TEST
//! PENDING INTERRUPTION answers is taken out, and that of a subchannel is dropped by its TEST with code 0 or 1 and its
//! CLEAR with code 0; of the reports only STORE CHANNEL REPORT WORD takes one. A refusal changes nothing, and nothing
//! takes memory. An instruction may have its operand by value instead: it then answers what it would where storage has
//! the operand, and leaves what it would store to the caller. That general register 1 names the lent subchannel is the caller's to see to; what makes requests and
//! reports is too.
#![tactic(auto)]

mod absent;
mod by_value;
mod effects;
mod enabling;
mod operands;
mod others;
mod performing;
mod provided;

pub use absent::{absent_by_value, execute_absent};
pub use by_value::{
    Answered, Block, ByValue, OtherByValue, execute_by_value, perform_by_value,
    perform_other_by_value,
};
pub use others::{ChannelPaths, PathTable, rchp, stcps, stcrw, tpi};
pub use performing::{perform, perform_other, perform_provided};
pub use provided::execute;
