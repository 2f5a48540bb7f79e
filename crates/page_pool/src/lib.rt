//! The page map over the frames of memory: which frame each page has, which pages are stale, and the words.
//!
//! - `PageSide::new`, `map`, `unmap`, `flush`, `translate`, `is_stale`, `free_frames`, `mapped`, `stale`: the page
//!   map after each call is the one that the model's effect gives; a map is refused exactly where the free frames are
//!   fewer than the pages, and then nothing changes; the numbers are those of the page map.
//! - `has`, `is_bare`, `is_mapped`: what `flush`, `map` and `unmap` want of a span, to be asked before.
//! - `populate`, `depopulate`: as `map` and `unmap`, for pages of the unit of every processor, by processor and then
//!   by page; a population is refused exactly where the free frames are fewer than all these pages.
//! - `zero_words`, `add_word`, `sum_words`: the words of per-CPU objects, which are cells of the frames of their
//!   pages; each touches the named cells alone, and none takes memory.
//! - `laws::sections`: each call does to the pages what the plain map's section does.
#![tactic(auto)]

mod cells;
mod free_frames;
pub mod laws;
mod own_groups;
mod page_map;
mod page_side;
mod stale_pages;

pub use page_side::{NoFrames, PageSide};
