//! The spans that wait for a purge: what callers gave up, and what a purge takes.
//!
//! - `LazySide::new`, `add`, `take`, `spans`, `pages`: the spans that wait, in the order in which they came, and how
//!   many pages they have; taking them leaves none.
//! - `Batch::hull`, `spans`: from the lowest page to the highest of what was taken.
#![tactic(auto)]

mod batch;
mod lazy_side;

pub use batch::Batch;
pub use lazy_side::LazySide;
