//! The layout of per-CPU units over groups of processors.
//!
//! - `Layout::build`: the layout of the rule (`layout_of`), exactly where no reason stands against it, or else the
//!   first reason with its numbers (`refusal`); only want of memory may come in place of either. What it is given is
//!   in its ranges (`IsInRange`).
//! - `Layout::units`, `groups`, `unit_pages`, `atom`, `cpus`, `place`: read off the layout; the address of a
//!   processor's copy of a byte. `with_layout` puts the numbers of a layout into the model's machine.
//! - `laws::layouts`: a layout that isn't refused is one that the model's machine may have (`AreGroups`, `AreUnits`):
//!   its groups are apart, and each processor has a unit of its own, which lies in its own group
//!   (`UnitsLieInTheirGroup`). An overlap names the least pair of groups that share a page.
//! - `worked::layout_rows`: worked layouts and refusals.
#![tactic(auto)]

pub mod config;
mod division;
pub mod errors;
pub mod laws;
pub mod layout;
mod refusals;
pub mod request;
pub mod worked;

pub use config::Config;
pub use errors::{BuildError, LayoutError};
pub use layout::{Group, Layout};
pub use request::{GroupList, GroupSpec, LayoutSpec};
