//! The live areas of a space, by their starts.
//!
//! - `BusySide::new`, `insert`, `insert_all`, `remove`, `unlink`, `find`, `len`, `area_at`, `areas`: the areas are
//!   kept by rising start, each new one has the next serial, several come at once or not at all, and they are taken
//!   away by start and serial together, or by starts alone where blocks and chunks end.
#![tactic(auto)]

mod busy_side;

pub use busy_side::BusySide;
