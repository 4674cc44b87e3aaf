//! The subchannels of a machine as one sees them who has not its lock (own).
//!
//! Used alone, this crate promises: a directory has the subchannels of the configuration, an index for each name; the glance cells
//! that an event may have changed are stored anew, and then each shows the serials of its subchannel; a pair that a seat has seen is
//! raised, part by part, to the greater.
#![tactic(auto)]

pub mod directory;
pub mod path_turns;
pub mod seen_serials;
pub mod touching;
