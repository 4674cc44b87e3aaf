//! Where a subchannel stands among all, and which of them the engine of each channel path serves, without a search (own).
//!
//! Used alone, this crate promises: `SubchannelIndex` answers what a search through the subchannels finds, the first that has a name
//! or that reaches a side of a unit, whatever names there are; `Served` answers whether some subchannel engages the engine
//! of a channel path. Tables of indices are made in one pass, and stay right while no subchannel comes, goes or is set up
//! otherwise; `SubchannelIndex::of` alone takes memory, and refuses only where its supply refused a request. The table of engines has one
//! subchannel at most for each, and stays right where each change of a subchannel is told to `Engines::change`.
#![tactic(auto)]

pub mod engines;
pub mod tables;
mod walk;
