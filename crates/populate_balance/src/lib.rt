//! What a balance of per-CPU memory gives up and fills, as `pcpu_balance_free` and `pcpu_balance_populated` of
//! `mm/percpu.c` do.
//!
//! Each call is a function of the value of `PcpuSide`, and none takes memory. Candidates come from the kept slots, and the
//! empty pages from their kept count, so no chunk's bits are looked at.
//!
//! - `take_spare_chunk`: of the chunks without an object the second by number is gone (`spare_chunk`), and is told by its
//!   number, base and populated pages. None comes exactly where fewer than two are without an object.
//! - `next_page`, `next_to_populate`: the lowest unpopulated page of the least chunk, by slot and then by number, that has
//!   one (`page_to_fill`), with the chunk's base or without. None comes exactly where at least 4 populated pages are empty,
//!   or no page is unpopulated.
//! - `mark_populated`: that page is populated, and all else stays.
//! - `empty_populated`: how many populated pages no object touches.
#![tactic(auto)]

mod fill;
mod spare;

pub use fill::{UnpopulatedPage, empty_populated, mark_populated, next_page, next_to_populate};
pub use spare::{SpareChunk, take_spare_chunk};
