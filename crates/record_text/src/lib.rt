//! The words in which the facts of a script are told. Each text goes into a sink as it is made, so that printing takes no memory; a
//! call answers whether the whole of its text went in.
#![tactic(auto)]

pub mod block_words;
pub mod codes;
pub mod fields;
pub mod front;
pub mod hold_text;
pub mod line_words;
pub mod names;
pub mod number;
pub mod refusal;
pub mod short;
pub mod signal;
pub mod signal_fields;
pub mod told;
mod unit_refusal;

pub use crate::hold_text::{put_hold, put_hold_short};
pub use crate::names::put_subchannel_name;
pub use crate::signal::put_signal;
pub use crate::signal_fields::put_signal_fields;
