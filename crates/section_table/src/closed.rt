//! What is left of a table.

/// What is left of a table: the regions, the locals by caller, and the caller of each event in the order of the stamps.
#[derive(Drop)]
pub struct Closed<R, L> {
    pub regions: Vec<R>,
    pub locals: Vec<L>,
    pub picks: Vec<u16>,
}
