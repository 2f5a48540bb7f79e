//! An object that was placed and is not settled yet.
use vm_model::PageSet;

/// An object in a caller's hand, with the pages of it that are not populated.
#[derive(Clone, Copy)]
pub struct Placed {
    /// The number of its chunk.
    pub chunk: u32,
    /// The chunk's base.
    pub base: u32,
    /// Its offset in each unit, in bytes.
    pub off: u32,
    /// Its bytes.
    pub bytes: u32,
    /// The caller that has it in hand.
    pub caller: u16,
    /// Its pages that are not populated.
    pub missing: PageSet,
}
