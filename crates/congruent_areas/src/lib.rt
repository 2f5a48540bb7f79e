//! The search for one base under all groups of a layout, as the kernel's `pcpu_get_vm_areas` makes it.
//!
//! - `highest`: the greatest base at which every group's span is free (`IsGreatestBase`), exactly where there is one
//!   (`HasBase`).
//! - `carve_groups`: cuts all groups there, by spare nodes that it takes first, so that want of memory changes
//!   nothing; where there is no base it wants none.
#![tactic(auto)]

mod bundle;
pub mod laws;
mod search;

pub use bundle::{Bundle, GroupSpans};
pub use search::{carve_groups, highest};
