//! The rows of the counters, once no pass adds any more.
ghost use Rattle.std.specs.Prelude.{◌≡◌, ◌<◌, ◌+◌, ◌*◌, true, [], map, length, IfOk};
ghost use Rattle.vm_model.specs.declared.rows.CounterRow.{CounterRow};
ghost use Rattle.atomic_table.specs.Table.{Final, Seen};
ghost use Rattle.percpu_counters.specs.CounterRule.{Kept, word_count};
ghost use Rattle.percpu_counters.specs.RowsFromWords.{row_at, rows_in};

use crate::counters::{CountPass, Counters};
use crate::table::{Place, Shape, Sums, Tally};
use atomic_table::Table;
use std::alloc::{AllocError, Global};
use vm_model::{CellList, CounterList, CounterRow};

/// The words, once all passes but one are gone.
pub(crate) fn closed_words(
    alloc: Global,
    table: Table<(), Tally, Shape, Sums, Global>,
    place: Place,
) -> Result<Vec<u64>, AllocError>
    requires place { place.table_id ≡ table.shared.table_id }
    requires slots { table.shared.table_id.slots ≡ 0 }
    ensures words { IfOk result (λ words.
        Final (Seen (Kept table.shared.key) place.id place.me.0) words.items []) }
    ensures count { IfOk result (λ words. length words.items ≡ table.shared.table_id.words) }
{
    let count = table.word_count();
    let mut words = Vec::with_capacity(alloc, count)?;
    let closed = table.close_with(place);
    for i in 0..count {
        let Ok(()) = words.push(closed.word(i)) else {
            unreachable!();
        };
    }
    closed.free();
    Ok(words)
}

/// The row of the counter whose words begin here.
fn row(alloc: Global, words: &[u64], first: usize, cpus: u16) -> Result<CounterRow, AllocError>
    requires { first + cpus < length words.now }
    ensures { IfOk result (λ row. row ≡ row_at cpus words.now first) }
{
    let mut cells = Vec::with_capacity(alloc, cpus as usize)?;
    let mut total = words[first];
    for cpu in 0..cpus as usize {
        let cell = words[first + 1 + cpu];
        total = total.wrapping_add(cell);
        cells.push(cell.cast_signed())?;
    }
    Ok(CounterRow {
        total: total.cast_signed(),
        count: words[first].cast_signed(),
        cells: CellList::of(cells),
    })
}

/// The rows of all counters.
pub(crate) fn rows(alloc: Global, words: &[u64], shape: Shape) -> Result<CounterList, AllocError>
    requires { length words.now ≡ word_count shape }
    ensures { IfOk result (λ rows. rows ≡ rows_in shape words.now) }
{
    let mut rows = Vec::with_capacity(alloc, shape.counters as usize)?;
    for counter in 0..shape.counters as usize {
        let first = counter * (shape.cpus as usize + 1);
        rows.push(row(alloc, words, first, shape.cpus)?)?;
    }
    Ok(CounterList::of(rows))
}

impl Counters {
    ghost use Rattle.percpu_counters.specs.Passes.{shape_of, adds_of, spare_of, is_alone, IsPassOf};
    ghost use Rattle.percpu_counters.specs.RowsFromWords.{totals_of, exact_rows};

    /// The total, the count and the cells of each counter, by rising number, once all adds and all spare adds are in one
    /// pass. The totals are the sums of what was added, in whatever order it was; the counts and cells of a pass that
    /// was always alone are those of its list.
    pub fn close(self, alloc: Global, pass: CountPass) -> Result<CounterList, AllocError>
        requires pass { IsPassOf self pass }
        requires all { length (adds_of pass) + spare_of pass ≡ (shape_of self).adds }
        ensures totals { IfOk result (λ rows.
            map (λ (r : CounterRow). r.total) rows ≡ totals_of (shape_of self) (adds_of pass)) }
        ensures alone { is_alone pass ≡ true
            → IfOk result (λ rows. rows ≡ exact_rows (shape_of self) (adds_of pass)) }
    {
        let Counters { table, shape } = self;
        let CountPass { place, spare: _ } = pass;
        let words = closed_words(alloc, table, place)?;
        rows(alloc, words.as_slice(), shape)
    }
}
