//! Making a large trace from two numbers: the same numbers make the same bytes.
//!
//! - `make_trace`: exactly the bytes of the generated trace (`generated`), whatever is drawn: the lines of each
//!   caller under its number, with the names that its queues give, and the picks in lines of 32.
//! - `laws::generated`: two generated traces, written out.
#![tactic(auto)]

mod draws;
pub mod laws;
pub mod maker;
mod picks;
mod queues;
mod sections;

pub use maker::make_trace;
