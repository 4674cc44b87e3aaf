//! A script that was performed, as a list of records.

use crate::parties::Parties;
use crate::record::Record;
use crate::script_lines::ScriptLines;

/// A script that was performed: its text, who there is, and its records in order.
#[derive(Drop)]
pub struct Trace {
    pub text: ScriptLines,
    pub parties: Parties,
    pub records: Vec<Record>,
}
