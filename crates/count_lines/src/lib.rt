//! The count lines of a trace as shares of a counters' pass, one share a caller, so that each caller does its own between
//! its calls.
//!
//! - `share_out`: the opening's lines are added, and each caller gets a share of the pass with its lines in their order
//!   (`AreSharesOf`).
//! - `Share::count_up_to`, `Share::finish`: what was added with a share is always the front of its lines, each once
//!   (`Share`). The first adds those that stand before the next call of the caller (`HasCountedTo`), the second the rest.
//! - `join_all`: what the shares added goes behind what the pass had, share by share.
//! - `laws::sharing`: these are as many adds as there are lines, and give each counter the sum of its lines
//!   (`EachLineIsShared`, `SharingKeepsTheTotals`), whatever the order in which the shares added them.
#![tactic(auto)]

mod counting;
pub mod laws;
mod share;
mod sharing;

pub use share::Share;
pub use sharing::{join_all, share_out};
