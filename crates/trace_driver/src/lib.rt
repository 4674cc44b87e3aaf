//! The view `driver` of a script that was performed: what a program on a CPU can see, and nothing else.
#![tactic(auto)]

pub mod driver;
pub mod visible;

pub use crate::driver::put_driver;
