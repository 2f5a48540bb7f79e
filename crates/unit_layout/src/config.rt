//! The numbers that the header of a trace gives an allocator.
use crate::layout::Layout;

/// The size of the space, the limits that its allocators keep, and where the units of the processors lie.
#[derive(Drop)]
pub struct Config {
    /// Pages of the space, 1 to 1,048,576; the kernel's range from `VMALLOC_START` to `VMALLOC_END`.
    pub space: u32,
    /// Frames of memory, 0 to 8,192.
    pub frames: u32,
    /// Pages that may wait before a free purges, as `lazy_max_pages` gives them, 0 to 1,048,576.
    pub lazy: u32,
    /// Pages of a block of `map_ram`, the kernel's `VMAP_BBMAP_BITS`; a power of two from 8 to 1,024.
    pub block_pages: u32,
    /// The most pages that are cut from a block, the kernel's `VMAP_MAX_ALLOC`; a power of two, at most half a block.
    pub part_limit: u32,
    /// The layout of the processors' units.
    pub layout: Layout,
}
