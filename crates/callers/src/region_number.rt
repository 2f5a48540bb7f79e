//! The numbers of the regions of an allocator, in the order in which a kernel keeps them.

/// The desk, at which calls are refused.
pub const DESK: u16 = 0;

/// The purge turn.
pub const PURGE_TURN: u16 = 1;

/// The alloc turn.
pub const ALLOC_TURN: u16 = 2;

/// The free blocks.
pub const FREE_BLOCKS: u16 = 3;

/// The live areas.
pub const LIVE_AREAS: u16 = 4;

/// The spans that wait for a purge.
pub const WAITING_SPANS: u16 = 5;

/// The page map.
pub const PAGE_MAP: u16 = 6;

/// The chunks of per-CPU memory.
pub const CHUNKS: u16 = 7;

/// The blocks of processor 0. Those of the other processors follow in their order.
pub const FIRST_BLOCKS: u16 = 8;
