//! An event as a line of a script, and back (own).
//!
//! Used alone, this crate promises: the line of an event is the words of its definition, with one space between them and all numbers
//! hexadecimal; a line asks for the event that its words say, by the row of `report` or by that of an action of a script, or breaks a
//! rule of lines; and the line of an event is read back as that event, for every event that a line can ask for.
#![tactic(auto)]

pub mod putting;
pub mod reading;
mod report_line;
pub mod side_numbers;
