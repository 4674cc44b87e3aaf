//! A module for each kind of test.

mod crowd_tests;
mod crowds;
mod gate_tests;
mod idle_tests;
mod looking_tests;
mod machines;
mod racers;
mod replaying;
mod scenarios;
mod seats_tests;
mod stale_tests;
mod workers_tests;
