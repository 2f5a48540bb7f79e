//! Per-CPU counters, as the kernel's `percpu_counter`, in words that change by single atomic steps: a count for each
//! counter, and a cell for each processor. An add waits for nobody, and the totals are the sums of what was added,
//! in whatever order the passes added it.
//!
//! - `Counters::start`, `add`, `read_cell`, `split`, `join`, `CountPass::spare`: each add is in its pass's list, and
//!   costs one of its spare adds; a split moves spare adds to a new pass, and a join puts lists and spare adds
//!   together. Between any two steps of any passes, each counter's count, its cells and what is in a pass's hand are
//!   what was added (`Kept`). While the first pass is alone, cells and counts are those of one pass over its list
//!   (`IsPassOf`). An add waits for nobody, and takes no memory: its signature has no handle and no error.
//! - `Counters::close`: the totals are the sums of what was added, in whatever order it was; the counts and cells of
//!   a pass that was always alone are those of its list.
#![tactic(auto)]

mod adds;
mod close;
mod counters;
mod passes;
mod steps;
mod table;

pub use counters::{CountPass, Counters};
