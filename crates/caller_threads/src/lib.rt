//! Each caller on a thread of its own, over regions behind turns of their own.
//!
//! - `CoreParts`: the allocators' regions, callers and sections, as a table of turns takes them (`core`).
//! - `drive`: a pass of its own for each caller, on a thread each. The pass that comes back is that of the same table, and
//!   has all callers, each of which has ended (`HasAll`, `AllEnded`); each count line of each share was done (`HaveFinished`).
//! - `live_kernel`: a kernel whose callers have all ended, and where the picks of its run begin (`HasEnded`). The picks are
//!   the callers in the order of the stamps that the table drew.
//!
//! Nothing is promised of waiting.
#![tactic(auto)]

pub mod driving;
pub mod live;
pub mod parts;
pub mod worker;

pub use driving::drive;
pub use live::{Lived, live_kernel};
pub use parts::CoreParts;
