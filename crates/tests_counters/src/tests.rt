//! What the clauses don't say: that an add folds a word that another pass filled, and that threads add at once.
ghost use Rattle.std.specs.Prelude.{◌≡◌, ◌≤◌, ◌+◌, length};
ghost use Rattle.percpu_counters.specs.Passes.{adds_of, spare_of, shape_of, IsPassOf};

use percpu_counters::{CountPass, Counters};
use std::alloc::AllocError;
use std::thread::{Threads, join};

/// A cell of 31 stays below a batch of 32, the next add folds it, and -40 is folded at once.
#[test]
fn folds_at_the_batch(rt: HostRuntime) -> Result<(), AllocError> {
    let (counters, mut pass) = Counters::start(rt.alloc(), 1, 2, 32, 4)?;
    counters.add(&mut pass, 0, 0, 31);
    assert!(rt; counters.read_cell(&mut pass, 0, 0) == 31);
    counters.add(&mut pass, 0, 0, 1);
    assert!(rt; counters.read_cell(&mut pass, 0, 0) == 0);
    counters.add(&mut pass, 0, 0, -40);
    counters.add(&mut pass, 1, 0, 31);
    let rows = counters.close(rt.alloc(), pass)?;
    let [first, second] = rows.as_slice() else {
        assert!(rt; false);
        return Ok(());
    };
    assert!(rt; first.total == -8 && first.count == -8 && first.cells.as_slice() == [0].as_slice());
    assert!(rt;
        second.total == 31 && second.count == 0 && second.cells.as_slice() == [31].as_slice()
    );
    Ok(())
}

/// A second pass adds 20 twice: the first reads 20, and then 0, since the second add folds both.
#[test]
fn one_pass_folds_what_another_added(rt: HostRuntime) -> Result<(), AllocError> {
    let (counters, mut first) = Counters::start(rt.alloc(), 1, 1, 32, 3)?;
    let mut second = counters.split(&mut first, 2);
    counters.add(&mut second, 0, 0, 20);
    assert!(rt; counters.read_cell(&mut first, 0, 0) == 20);
    counters.add(&mut second, 0, 0, 20);
    assert!(rt; counters.read_cell(&mut first, 0, 0) == 0);
    counters.join(&mut first, second);
    let rows = counters.close(rt.alloc(), first)?;
    let [row] = rows.as_slice() else {
        assert!(rt; false);
        return Ok(());
    };
    assert!(rt; row.total == 40 && row.count == 40 && row.cells.as_slice() == [0].as_slice());
    Ok(())
}

/// How often each of four threads adds.
const TIMES: u32 = 25_000;

/// Adds 1, 2 and 3 by turns to the one counter.
fn add_often(counters: &Counters, mut pass: CountPass) -> CountPass
    requires pass { IsPassOf counters.now pass }
    requires cell { (1 ≤ (shape_of counters.now).counters) × (1 ≤ (shape_of counters.now).cpus) }
    requires room { TIMES ≤ spare_of pass }
    ensures pass { IsPassOf counters.now result }
    ensures all { length (adds_of result) + spare_of result
        ≡ length (adds_of pass) + spare_of pass }
{
    for turn in 0..TIMES {
        counters.add(&mut pass, 0, 0, (turn % 3 + 1) as i32);
    }
    pass
}

/// Two threads add.
fn add_by_two<R: Threads + Sync>(
    rt: &R,
    counters: &Counters,
    one: CountPass,
    other: CountPass,
) -> (CountPass, CountPass)
    requires passes { IsPassOf counters.now one × IsPassOf counters.now other }
    requires cell { (1 ≤ (shape_of counters.now).counters) × (1 ≤ (shape_of counters.now).cpus) }
    requires room { (TIMES ≤ spare_of one) × (TIMES ≤ spare_of other) }
    ensures passes { IsPassOf counters.now result.0 × IsPassOf counters.now result.1 }
    ensures all { (length (adds_of result.0) + spare_of result.0
        ≡ length (adds_of one) + spare_of one)
        × (length (adds_of result.1) + spare_of result.1
        ≡ length (adds_of other) + spare_of other) }
{
    join(
        rt,
        move || add_often(counters, one),
        move || add_often(counters, other),
    )
}

/// Four threads add to one cell, and its counter has all that they added.
#[test]
fn four_threads_add(rt: HostRuntime) -> Result<(), AllocError> {
    let (counters, mut first) = Counters::start(rt.alloc(), 1, 1, 32, 100_000)?;
    let second = counters.split(&mut first, TIMES);
    let third = counters.split(&mut first, TIMES);
    let fourth = counters.split(&mut first, TIMES);
    let ((mut first, second), (third, fourth)) = join(
        &rt,
        || add_by_two(&rt, &counters, first, second),
        || add_by_two(&rt, &counters, third, fourth),
    );
    counters.join(&mut first, second);
    counters.join(&mut first, third);
    counters.join(&mut first, fourth);
    let rows = counters.close(rt.alloc(), first)?;
    let [row] = rows.as_slice() else {
        assert!(rt; false);
        return Ok(());
    };
    assert!(rt; row.total == 199_996);
    Ok(())
}
