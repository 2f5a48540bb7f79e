//! The kernel: all regions and all callers of a space, one step after another.
//!
//! - `Kernel::start`, `step`, `run`, `finish`: the kernel stands (`IsStanding`) at the opening's end, after one event
//!   of a caller, after each pick in turn, and where all callers have ended. A step tells Moved, Stays and Ended as
//!   `IsSteppedAs` says, and wants memory only where the caller moves.
//! - `Kernel::tables`, `moved`: the tables of the world in which the kernel stands (`tables_for`), and the caller of each
//!   event.
//! - `Kernel::into_parts`, `from_parts`: the regions, callers and events of a kernel, and the kernel of such parts that
//!   stand somewhere (`IsSomewhere`).
//! - `Kernel::wants`, `answered`: the region that a caller's next section wants, and how many of its calls are answered.
//! - `laws::starts`: a kernel starts with the opening's caller and one
//!   for each list behind it.
//! - `laws::all_are_sent`: a kernel, its regions and its callers may go to other threads.
#![tactic(auto)]

pub mod kernel;
pub mod laws;
pub mod parts;
pub mod tables;

pub use kernel::Kernel;
pub use parts::KernelParts;
