//! The replies of a caller's calls, and their entries in the table of replies.
//!
//! - `Book::with_room`, `note`, `reply_at`, `own_event_at`: one row a call, in order; the room is taken at the start,
//!   and noting takes no memory.
//! - `number`: the entries of the book's caller. A call that was noted with the caller's n-th event gets the number
//!   of the place at which the caller stands in the list of movers for the n-th time.
#![tactic(auto)]

mod book;
mod entries;
mod noted;

pub use book::Book;
pub use entries::number;
pub use noted::Noted;
