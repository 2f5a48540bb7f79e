//! What a pass knows of the table, in the proofs alone.
use std::collections::LinkedList;

/// A caller that a pass has: its local, and the stamps that were drawn for it.
pub struct Held<L> {
    pub local: L,
    pub stamps: LinkedList<u64>,
}

/// What a pass knows. No value of it is made.
pub struct View<R, L> {
    /// By the callers' numbers.
    pub held: LinkedList<Option<Held<L>>>,
    /// Above each stamp that the pass has.
    pub floor: u64,
    pub saw_halt: bool,
    pub made_halt: bool,
    /// The region whose turn the pass has, with its number.
    pub hand: Option<(u64, R)>,
}
