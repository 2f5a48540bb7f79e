//! Tests of regions behind turns of their own: walkers who go from room to room, over one table, by one pass, two passes
//! and two threads.
#![tactic(auto)]

pub mod guests;
#[cfg(test)]
mod one_thread;
pub mod rooms;
#[cfg(test)]
mod two_threads;
pub mod walks;
