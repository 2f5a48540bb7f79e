//! What a caller asks before it calls what has a condition.
ghost use Rattle.std.specs.Prelude.{IsTrue, ◌↔◌};
ghost use Rattle.chunk_slots.specs.ChunkRegion.{at_of, IsHeld, CanPopulate};

use super::PcpuSide;
use crate::placed::Placed;
use crate::rising::index_of;

impl PcpuSide {
    /// Whether a caller has just this object in hand, as `settle` and `unplace` want. It takes no memory.
    pub fn is_held(&self, placed: &Placed) -> bool
        ensures { IsTrue result ↔ IsHeld (at_of placed.now) self.now.chunks }
    {
        let Some(index) = index_of(&self.chunks, u64::from(placed.chunk)) else {
            return false;
        };
        let Some(bytes) = self.chunks[index].object_at(placed.off) else {
            return false;
        };
        let Some(holder) = self.holders.get(placed.chunk, placed.off) else {
            return false;
        };
        bytes == placed.bytes && holder.serial == 0
    }

    /// Whether a page of a chunk can become populated, as `set_populated` wants: the chunk has it, it is not populated, and no
    /// object has a byte of it. It takes no memory.
    pub fn can_populate(&self, chunk: u32, page: u32) -> bool
        ensures { IsTrue result ↔ CanPopulate chunk page self.now }
    {
        let Some(index) = index_of(&self.chunks, u64::from(chunk)) else {
            return false;
        };
        self.chunks[index].can_populate(page)
    }
}
