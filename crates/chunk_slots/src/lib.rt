//! The chunks of per-CPU memory and the objects in them, as `mm/percpu.c` keeps them.
//!
//! The value of `PcpuSide` is the chunk region of the definitions (`ChunkRegion`): the chunks by number with their populated
//! pages and objects, the next serial and chunk number, and how many more objects can be placed. Each call is exact of it.
//! An object is placed in the least chunk with a fit, by slot and then by number, and at its lowest aligned fit; none is
//! placed exactly where no chunk has one. Slots, hints and the count of empty pages are kept, and after every call they are
//! those of the bits. Room for all objects is taken at the start: after that only a new chunk takes memory. An object is
//! found by its chunk and offset, and is put or taken out without moving another.
//!
//! - `PcpuSide::place`, `place_atomic`, `add_chunk_and_place`: an object in hand at the lowest aligned fit of the
//!   chosen chunk (`placement`), with the pages that it misses; none comes exactly where no chunk has a fit, and an
//!   error changes nothing.
//! - `settle`, `unplace`, `free`, `set_populated`, `remove_chunk`: what the event of that name does to the chunks
//!   (`with_settled`, `without_placed`, `with_populated`, `without_chunk`); `free` has none exactly where no live
//!   object has this chunk, offset and serial. They take no memory.
//! - `is_held`, `can_populate`: what `settle`, `unplace` and `set_populated` want of their caller, to be asked before.
//! - `slot_of`, `in_slot`, `in_order`, `free_slot`, `empty_pages`, `chunk_at`, `base_at`, `hint_at`, `populated_at`, `find`:
//!   what is kept of slots, hints and empty pages is that of the bits. The chunks rise by number, and those of the free slot
//!   are those without an object.
//! - `unit_pages`, `set_unit_pages`: each chunk has as many pages as a unit of the side (`AreOfUnits`).
//! - `chunk_rows`, `chunk_audits`, `hint_rows`: the tables of the chunks (`chunk_table`, `audit_table`, `hint_table`), each in
//!   one pass. A row has what is kept of a chunk; an audit has what a scan of its bits finds, and reads nothing that is kept.
//! - `objects`, `object_at`, `object_rows`: the rows of the live objects by chunk and then by offset
//!   (`object_table`), how many there are, one of them, or all in one pass.
#![tactic(auto)]

mod holders;
mod kept_chunk;
mod object_rows;
mod pcpu_side;
mod placed;
mod plain_scan;
mod rising;
mod sizes;
mod slots;

pub use pcpu_side::PcpuSide;
pub use placed::Placed;
