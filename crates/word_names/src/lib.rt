//! What the words of control blocks say, by the names of the manual (SA22-7832): of each bit that is one its name, and of
//! each number its name and its digits.
#![tactic(auto)]

mod address;
mod ccw;
mod code;
mod instruction;
mod orb;
mod report;
mod schib;
mod scsw;

pub use address::{AddressMeaning, address_meaning, put_address, put_command_address};
pub use ccw::{put_ccw_0, put_ccw_1, put_ccw_flags, put_command_class, put_command_name};
pub use code::put_interruption_code;
pub use instruction::{Found, Instruction, put_code_words};
pub use orb::put_orb;
pub use report::put_crw;
pub use schib::{put_extended, put_pmcw};
pub use scsw::{
    put_activity, put_count, put_device_status, put_functions, put_scsw_control, put_short_status,
    put_status_control, put_status_names, put_subchannel_status,
};
