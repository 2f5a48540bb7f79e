//! Pages of a block that a caller has in hand.

/// Pages that were cut from a block, as its caller knows them: what `vb_alloc` of the kernel gives.
#[derive(Clone, Copy)]
pub struct Part {
    /// The first page of its block.
    pub block: u32,
    /// Where it begins, in pages from the block's start.
    pub offset: u32,
    /// It has `2 ^ order` pages of the block.
    pub order: u8,
    /// The pages that were asked for, which are mapped.
    pub pages: u32,
    /// The caller that has it in hand.
    pub caller: u16,
}
