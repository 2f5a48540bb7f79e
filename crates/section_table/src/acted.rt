//! What a call of `act` did.

/// What a call of `act` did.
#[derive(Drop)]
pub enum Acted {
    /// The caller made one event, and this is its place in the order of all.
    Moved { stamp: u64 },
    /// The caller wants nothing more.
    Ended,
    /// Memory was wanting in some pass.
    Halted,
}
