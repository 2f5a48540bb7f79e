//! The free pages of a space, as the kernel's tree of free areas keeps them.
//!
//! - `FreeSide::whole`, `lowest`, `carve`, `release_all`, `largest`, `len`, `block_at`: the blocks are the maximal
//!   free runs after each call (`AreFreeRuns`), the place that is found is the lowest fit, and an error changes
//!   nothing.
//! - `reserve`, `spare`, `carve_at`, `enclosing`, `last_ending_by`: spare nodes are counted exactly, a cut at a given
//!   place takes one of them and no memory, and a block is found by a page or by where it ends.
//! - `blocks`: all of them in one pass.
//! - `laws::whole_block`, `left_edge`, `right_edge`, `middle`: what stands where a block was, for each of the four
//!   ways of cutting a place out of it.
#![tactic(auto)]

mod blocks;
mod free_side;
pub mod laws;
mod stock;
mod tree;

pub use free_side::FreeSide;
