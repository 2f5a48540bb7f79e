//! One processor's blocks of `map_ram`, and their parts.
//!
//! - `BlockSide::new`, `take_part`, `add_block`, `settle`, `begin_unmap`, `retire`, `fragmented`, `take_fragmented`,
//!   `dirty_hull`: the value of a side is that of the model's region, the blocks in the order in which they were
//!   added; each call answers and leaves what the model's section does. Only `add_block` takes memory, and
//!   `take_fragmented` where a block is fragmented, and an error changes nothing.
//! - `pages`, `is_held`, `is_unused`, `has_serial`: what the others want of their caller, to be asked before.
//! - `blocks`, `parts`, `block_at`, `part_at`, `block_rows`, `part_rows`: the rows of the tables by rising start.
//! - `laws::parts_are_disjoint`: the parts of a block share no page and lie in it, and no page lies in two blocks.
#![tactic(auto)]

mod block_side;
mod kept_block;
mod kept_part;
pub mod laws;
mod part;
mod queues;
mod sizes;

pub use block_side::BlockSide;
pub use part::Part;
