//! A module for each crate that is tested, one for the room that the allocator has, and what instructions begin with.

mod agree_tests;
mod allegiance_tests;
mod chan_model_tests;
mod functions_tests;
mod hold_tests;
mod room_tests;
mod setups;
mod status_tests;
mod storage_keys_tests;
mod unit_tests;
