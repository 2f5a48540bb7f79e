//! Regions behind turns of their own, which any number of threads share, and what a run of turns tells of its sections.
//!
//! - `Parts`: regions, callers, and the section that a caller makes over a region, as plain data (`meaning`).
//! - `Sections::start`: a table of regions, and a pass with all callers (`starting`). `split` gives a caller a pass of its
//!   own (`without`, `alone`), `join` takes a pass back (`both_of`): a caller is in exactly one pass.
//! - `Sections::act`: one event of a caller (`Acts`). With `Moved` the caller stands where its section leads, with one
//!   stamp more, which is above all that its pass had; `Ended`, `Halted` and want of memory come for their causes alone. A
//!   section that wants memory gives its region and turn back, and all passes halt.
//! - `Sections::close`: the regions, the callers, and the callers in the order of their stamps (`IsClosed`). Each of these
//!   picks moves, and regions and callers are those after all of them.
//! - `Gate`, `Open`: what is told of each section. Nothing is promised of waiting.
#![tactic(auto)]

pub mod acted;
pub mod caller;
mod callers;
mod close;
pub mod closed;
mod event;
pub mod parts;
pub mod pass;
pub mod sections;
pub mod steps;
pub mod table;
mod turn;
pub mod views;

/// What is told of each section of a run whose callers have threads of their own. A gate may hold a caller back: nothing
/// is promised of waiting.
pub trait Gate {
    /// A caller is about to make a section over a region, and holds it.
    fn inside(&self, caller: u16, region: u16);

    /// A caller has made an event, and holds nothing.
    fn between(&self, caller: u16);
}

/// A gate that holds nobody.
pub struct Open;

impl Gate for Open {
    fn inside(&self, _caller: u16, _region: u16) {}

    fn between(&self, _caller: u16) {}
}
