//! What no script shows: room that is refused, long runs, and a history that is performed again.

mod channel_subsystem_tests;
mod later_status_tests;
mod long_runs_tests;
mod refusals_tests;
mod script_tests;
mod script_text_tests;
mod writing;
