//! The words of the counters, and what each pass knows of them.
ghost use Rattle.std.specs.Prelude.{◌≡◌, ℕ};
ghost use Rattle.vm_model.specs.declared.calls.CountLine.{CountLine};

use atomic_table::{Join, Play, Seat, Shared, Split, TableRule};
use std::collections::LinkedList;
use std::marker::{Brand, PhantomData};
use vm_model::CountLine;

/// How many processors and counters there are, the batch at which a cell is folded into its count, and how many adds
/// all passes together may make. The words of counter `k` begin at `k * (cpus + 1)`: its count, and then its cells. One
/// word more stands behind them all.
#[derive(Clone, Copy)]
pub struct Shape {
    pub cpus: u16,
    pub counters: u16,
    pub batch: u32,
    pub adds: u32,
}

/// What a pass knows. No value of it is ever made.
pub struct Tally {
    /// What it added, in its order.
    pub adds: LinkedList<CountLine>,
    /// How many more adds it may make.
    pub room: u64,
    /// Whether no other pass can add.
    pub alone: bool,
    /// The counter, and what was taken out of a cell of it and is not yet in its count.
    pub hand: Option<(u64, u64)>,
    /// What the words are, while the pass is alone.
    pub words: LinkedList<u64>,
}

/// For each counter the count, the cells and what is in hand are what was added.
pub struct Sums;

impl TableRule<(), Tally, Shape> for Sums {
    ghost use Rattle.percpu_counters.specs.CounterRule.{Kept, starting};

    ghost holds = { Kept };

    ghost first = { starting };
}

/// The words, as all passes see them.
pub(crate) type Words = Shared<(), Tally, Shape, Sums>;

/// The right to make steps.
pub(crate) type Place = Seat<(), Tally>;

/// What is added. Each call picks it.
pub trait Adding {
    ghost line: { CountLine };
}

impl Adding for Brand {
    ghost line = { record {
      caller = 0;
      after = 0;
      counter = 0;
      cpu = 0;
      amount = Rattle.std.specs.Prelude.pos 0;
    } };
}

/// An add to a cell.
pub struct Put<A> {
    of: PhantomData<A>,
}

impl<A: Adding> Play<(), Tally> for Put<A> {
    ghost use Rattle.percpu_counters.specs.CounterRule.{put_at, IsFound};

    ghost then = { λ st m n m'. (m' ≡ (put_at st.word n A.line m.0, m.1)) × IsFound m.0 st.word n };
}

/// A cell is emptied.
pub struct Lift<A> {
    of: PhantomData<A>,
}

impl<A: Adding> Play<(), Tally> for Lift<A> {
    ghost use Rattle.percpu_counters.specs.CounterRule.{lifted_at, IsFound};

    ghost then = { λ st m n m'. (m' ≡ (lifted_at st.word n A.line.counter m.0, m.1))
        × IsFound m.0 st.word n };
}

/// What is in hand goes into the count.
pub struct Settle;

impl Play<(), Tally> for Settle {
    ghost use Rattle.percpu_counters.specs.CounterRule.{settled_at, IsFound};

    ghost then = { λ st m n m'. (m' ≡ (settled_at st.word n m.0, m.1)) × IsFound m.0 st.word n };
}

/// A word is read.
pub struct Look;

impl Play<(), Tally> for Look {
    ghost use Rattle.percpu_counters.specs.CounterRule.{IsFound};

    ghost then = { λ st m n m'. (m' ≡ m) × IsFound m.0 st.word n };
}

/// How much room goes to a new pass. Each call picks it.
pub trait Cutting {
    ghost room: { ℕ };
}

impl Cutting for Brand {
    ghost room = { 0 };
}

/// Room goes to a new pass.
pub struct Cut<C> {
    of: PhantomData<C>,
}

impl<C: Cutting> Split<Tally> for Cut<C> {
    ghost use Rattle.percpu_counters.specs.CounterRule.{with_less, with_room};

    ghost left = { λ v. with_less C.room v };

    ghost right = { λ v. with_room C.room };
}

/// What another pass added, and its room, goes to a pass.
pub struct Unite;

impl Join<Tally> for Unite {
    ghost use Rattle.percpu_counters.specs.CounterRule.{with_both, with_room};

    ghost both = { with_both };

    ghost spent = { with_room 0 };
}

/// A look that tells how many adds a pass made and may make.
pub struct Learn;

impl Play<(), Tally> for Learn {
    ghost use Rattle.percpu_counters.specs.CounterRule.{IsFew};

    ghost then = { λ st m n m'. (m' ≡ m) × IsFew m.0 };
}
