//! Callers: where a caller stands in its calls, what it carries to its next section, and how its calls begin and are
//! answered.
//!
//! A `Local` is seen by contracts as the model's caller. `Local::start` and `first_callers` give the model's first callers;
//! `wants` tells the number of the region that the next section is over (`region_number` has their names), and `place` where
//! the caller stands. Each other call that takes `&mut self` is one event: the caller then stands where the model's `next`
//! leads, and only `take_fragmented` may want memory.
//!
//! - `Local::start`, `first_callers`: the values of the model's first callers. `wants`, `caller`, `answered`, `book`,
//!   `answers`: read off the caller's value; `place`: where it stands, and that what it carries there is whole
//!   (`IsAt`).
//! - `go`, `go_on`, `answer`, and the calls of a purge's sections: one event, after which the caller stands where the
//!   model's `next` leads. Only `take_fragmented` may want memory, and only where a block is fragmented.
//! - `placing_calls`: how many calls can place an object.
#![tactic(auto)]

pub mod answers;
mod begin;
mod carried;
pub mod local;
mod noting;
mod place;
mod placing;
pub mod region_number;

pub use answers::{AnswerList, Answered, Made, ObjectPlace, Outcome};
pub use local::{Local, first_callers};
pub use place::{After, Aim, NewChunk, ObjectSize, Place, Search};
pub use placing::placing_calls;
