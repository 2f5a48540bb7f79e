//! The allocators of a space as regions, and the sections of callers over them: one lock section of one caller over one
//! region.
//!
//! `section` makes the next section of a caller over the region that it wants, where both stand in one state of a run
//! (`StandTogether`, `IsLawful`): it moves and leaves the two values of the model's `after`, or stays exactly where `moves`
//! is false (`answer`). It wants memory only where the section that it would make is one that may grow something
//! (`memory`, `TakesMemory`), and then changes nothing (`err`). `first_regions` gives the model's first regions.
//!
//! - `section`: where a caller and the region that it wants stand in one state of a run (`StandTogether`,
//!   `IsLawful`), it moves and leaves the two values of the model's `after`, or stays exactly where its `moves` is
//!   false (`answer`); it wants memory only where the section that it would make is one that may grow something
//!   (`memory`, `TakesMemory`), and then changes nothing (`err`).
//! - `moves`: whether that section would move. `Region::free`, `busy`, `lazy`, `pages`, `blocks`,
//!   `percpu`: read off a region's value.
//! - `first_regions`: the values of the model's first regions.
#![tactic(auto)]

mod areas;
mod balance;
mod desk;
mod groups;
mod object_pages;
mod objects;
mod parts;
mod purge;
pub mod region;
mod sections;
mod turns;

pub use region::{Region, Stepped, first_regions};
pub use sections::{moves, section};
