//! The counters, and the passes that add to them.
ghost use Rattle.std.specs.Prelude.{◌≡◌, ◌≤◌, [], None};
ghost use Rattle.percpu_counters.specs.CounterRule.{word_count};

use crate::table::{Place, Shape, Sums, Tally};
use atomic_table::Table;
use std::alloc::Global;

/// Counters, each with a count and a cell for each processor, to which many passes may add at once.
#[derive(Drop)]
pub struct Counters {
    pub(crate) table: Table<(), Tally, Shape, Sums, Global>,
    pub(crate) shape: Shape,
    ghost shaped: { table.shared.key ≡ shape },
    ghost words: { table.shared.table_id.words ≡ word_count shape },
    ghost slots: { table.shared.table_id.slots ≡ 0 },
    ghost few: { shape.adds ≤ 100000 },
}

/// The right to add so many times more, and what was added with it.
#[derive(Drop)]
pub struct CountPass {
    pub(crate) place: Place,
    pub(crate) spare: u32,
    ghost bare: { place.me.1 ≡ [] },
    ghost room: { place.me.0.room ≡ spare },
    ghost empty: { place.me.0.hand ≡ None },
}
