//! One subchannel as small values, and what instructions, choosing, signals and lost paths leave of it, as definitions.
#![tactic(auto)]

pub mod cause;
pub mod signals;
pub mod state;
pub mod status;
