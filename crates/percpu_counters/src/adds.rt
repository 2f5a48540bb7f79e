//! What a pass does: it adds, and reads a cell.
ghost use Rattle.std.specs.Prelude.{◌≡◌, ◌≤◌, ◌<◌, ◌+◌, ◌-◌, [], ◌∷◌, ◌++◌, true, IfOk, slice_index_or, pos};
ghost use Rattle.percpu_counters.specs.Passes.{shape_of, adds_of, spare_of, is_alone, line_of, cells_after, IsPassOf, IsStarted, HasAdded};
ghost use Rattle.percpu_counters.specs.CounterRule.{word_count};

use crate::counters::{CountPass, Counters};
use crate::steps::{lift, look, put, settle};
use crate::table::{Adding, Place, Shape, Words};
use atomic_table::Table;
use std::alloc::{AllocError, Global};
use std::marker::Brand;
use vm_model::CountLine;

impl Counters {
    /// So many counters, each 0, with a cell for each of so many processors. A cell whose absolute value comes to the
    /// batch is folded into its count. The first pass has room for so many adds.
    pub fn start(
        alloc: Global,
        cpus: u16,
        counters: u16,
        batch: u32,
        adds: u32,
    ) -> Result<(Counters, CountPass), AllocError>
        requires few { adds ≤ 100000 }
        requires batch { 1 ≤ batch }
        ensures started { IfOk result (λ made.
            IsStarted (record { cpus = cpus; counters = counters; batch = batch; adds = adds })
            made.0 made.1) }
    {
        let shape = Shape {
            cpus,
            counters,
            batch,
            adds,
        };
        let count = counters as usize * (cpus as usize + 1) + 1;
        let words = vec![in alloc; 0; count]?;
        let (table, place) = Table::of_words(alloc, words.as_slice(), &shape)?;
        Ok((Counters { table, shape }, CountPass { place, spare: adds }))
    }

    /// Adds an amount to the cell of a processor, and folds the cell into the count where its absolute value comes to the
    /// batch. It waits for nobody, and takes no memory.
    pub fn add(&self, pass: &mut CountPass, counter: u16, cpu: u16, amount: i32)
        requires pass { IsPassOf self.now pass.old }
        requires cell { (counter < (shape_of self.now).counters)
            × (cpu < (shape_of self.now).cpus) }
        requires room { 1 ≤ spare_of pass.old }
        ensures pass { IsPassOf self.now pass.new }
        ensures added { adds_of pass.new ≡ adds_of pass.old ++ line_of counter cpu amount ∷ [] }
        ensures room { spare_of pass.new + 1 ≡ spare_of pass.old }
        ensures alone { is_alone pass.new ≡ is_alone pass.old }
    {
        let line = CountLine {
            caller: 0,
            after: 0,
            counter,
            cpu,
            amount,
        };
        add_line::<Brand>(&self.table.shared, &mut pass.place, self.shape, line);
        pass.spare -= 1;
    }

    /// What the cell of a processor has. It takes no memory.
    pub fn read_cell(&self, pass: &mut CountPass, counter: u16, cpu: u16) -> i64
        requires pass { IsPassOf self.now pass.old }
        requires cell { (counter < (shape_of self.now).counters)
            × (cpu < (shape_of self.now).cpus) }
        ensures pass { IsPassOf self.now pass.new }
        ensures same { (adds_of pass.new ≡ adds_of pass.old)
            × (spare_of pass.new ≡ spare_of pass.old) × (is_alone pass.new ≡ is_alone pass.old) }
        ensures cell { is_alone pass.old ≡ true
            → result ≡ slice_index_or (cells_after (shape_of self.now) counter
            (adds_of pass.old)).cells cpu (pos 0) }
    {
        look(
            &self.table.shared,
            &mut pass.place,
            self.shape,
            counter,
            cpu,
        )
        .cast_signed()
    }
}

impl CountPass {
    /// How many more adds the pass may make. It takes no memory.
    pub fn spare(&self) -> u32
        ensures spare { result ≡ spare_of self.now }
    {
        self.spare
    }
}

/// An add, and its fold.
fn add_line<A: Adding>(words: &Words, place: &mut Place, shape: Shape, line: CountLine)
    requires line { (A.line ≡ line) × (words.now.key ≡ shape) × (line.counter < shape.counters)
        × (line.cpu < shape.cpus) }
    requires table { (place.old.table_id ≡ words.now.table_id)
        × (words.now.table_id.words ≡ word_count shape) }
    requires room { 0 < place.old.me.0.room }
    requires empty { place.old.me.0.hand ≡ None }
    ensures table { place.new.table_id ≡ place.old.table_id }
    ensures added { HasAdded shape line place.old.me place.new.me }
{
    let found = put::<A>(words, place, shape, line);
    let value = found
        .wrapping_add((line.amount as i64).cast_unsigned())
        .cast_signed();
    if value.unsigned_abs() < u64::from(shape.batch) {
        return;
    }
    let taken = lift::<A>(words, place, shape, line);
    settle(words, place, shape, line.counter, taken);
}
