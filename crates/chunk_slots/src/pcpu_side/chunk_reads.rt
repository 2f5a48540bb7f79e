//! What is read of the chunks: where each stands, its row, its hints and pages, and the empty pages of all.
ghost use Rattle.std.specs.Prelude.{◌≡◌, ◌+◌, ◌*◌, ◌<◌, ◌==◌, ℕ, Some, IfSome, length, filter, slice_get, option_map, All};
ghost use Rattle.vm_model.specs.Bits.{hint_of, block_bits, slot_for};
ghost use Rattle.vm_model.specs.PlainMap.{Chunk};
ghost use Rattle.vm_model.specs.Chunks.{bit_list, slot as slot_in_model, chunks_numbered, empty_count, populated_pages, is_populated};
ghost use Rattle.vm_model.specs.PageSets.{pages_in, has_page};
ghost use Rattle.chunk_slots.specs.Rising.{index_by, IsRising};
ghost use Rattle.chunk_slots.specs.ChunkRegion.{setup_of, chunk_table, numbers_in_slot, numbers_in_order};

use super::PcpuSide;
use crate::rising::index_of;
use crate::sizes::slot_for as slot_for_size;
use crate::slots::nth_in_slot;
use vm_model::{ChunkRow, Hint, PageSet};

impl PcpuSide {
    /// The index of a chunk among all, by rising number. None comes exactly where there is no such chunk. It takes no
    /// memory.
    pub fn find(&self, chunk: u32) -> Option<u32>
        ensures index { result ≡ index_by (λ (h : Chunk). h.number) chunk self.now.chunks }
        ensures rising { IsRising (λ (h : Chunk). h.number) self.now.chunks }
    {
        let _few = self.next_chunk;
        match index_of(&self.chunks, u64::from(chunk)) {
            Some(index) => Some(index as u32),
            None => None,
        }
    }

    /// The slot of a chunk. None comes exactly where there is no such chunk. It takes no memory.
    pub fn slot_of(&self, chunk: u32) -> Option<u32>
        ensures { result ≡ option_map (slot_in_model (setup_of self.now))
            (slice_get (chunks_numbered chunk self.now.chunks) 0) }
    {
        let index = index_of(&self.chunks, u64::from(chunk))?;
        Some(self.chunks[index].slot())
    }

    /// The chunk at a place in a slot, the chunks of a slot by rising number. None comes exactly where the slot has no such
    /// place. It takes no memory.
    pub fn in_slot(&self, slot: u32, nth: u32) -> Option<u32>
        ensures { result ≡ slice_get (numbers_in_slot slot self.now) nth }
    {
        nth_in_slot(&self.slots, slot, nth)
    }

    /// The chunk at a place of all slots in a row, by slot and then by number. It takes no memory.
    pub fn in_order(&self, place: u32) -> u32
        requires { place < length self.now.chunks }
        ensures { slice_get (numbers_in_order self.now) place ≡ Some result }
    {
        let _few = self.next_chunk;
        self.slots[place as usize].chunk
    }

    /// The slot of the wholly free chunks, which are those without an object: two above that of a unit's bytes,
    /// `pcpu_free_slot` of the kernel.
    pub fn free_slot(&self) -> u32
        ensures slot { result ≡ slot_for (4096 * self.now.unit_pages) + 2 }
        ensures free { filter (λ h. slot_in_model (setup_of self.now) h == result) self.now.chunks
            ≡ filter (λ (h : Chunk). length h.objects == 0) self.now.chunks }
    {
        slot_for_size(4096 * self.unit_pages) + 2
    }

    /// How many chunks there are. It takes no memory.
    pub fn chunks(&self) -> u32
        ensures count { result ≡ length self.now.chunks }
        ensures rising { IsRising (λ (h : Chunk). h.number) self.now.chunks }
        ensures small { All (λ (h : Chunk). h.number < 4294967296) self.now.chunks }
    {
        let _few = self.next_chunk;
        self.chunks.len() as u32
    }

    /// The row of a chunk by its index. It takes no memory.
    pub fn chunk_at(&self, index: u32) -> ChunkRow
        requires { index < length self.now.chunks }
        ensures { slice_get (chunk_table self.now) index ≡ Some result }
    {
        self.chunks[index as usize].row()
    }

    /// The base of a chunk by its index. It takes no memory.
    pub fn base_at(&self, index: u32) -> u32
        requires { index < length self.now.chunks }
        ensures { IfSome (slice_get self.now.chunks index) (λ h. result ≡ h.base) }
    {
        self.chunks[index as usize].base()
    }

    /// The hint of a page of a chunk's bits. It takes no memory.
    pub fn hint_at(&self, index: u32, block: u32) -> Hint
        requires index { index < length self.now.chunks }
        requires block { block < self.now.unit_pages }
        ensures { IfSome (slice_get self.now.chunks index)
            (λ h. result ≡ hint_of (block_bits (bit_list (setup_of self.now) h) block)) }
    {
        self.chunks[index as usize].hint(block)
    }

    /// The populated pages of a chunk. It takes no memory.
    pub fn populated_at(&self, index: u32) -> PageSet
        requires { index < length self.now.chunks }
        ensures pages { IfSome (slice_get self.now.chunks index)
            (λ h. pages_in result ≡ populated_pages (setup_of self.now) h) }
        ensures each { IfSome (slice_get self.now.chunks index) (λ h. (page : ℕ)
            → page < self.now.unit_pages → has_page result page ≡ is_populated h page) }
    {
        self.chunks[index as usize].populated()
    }

    /// How many populated pages have no bit of an object, over all chunks. It takes no memory.
    pub fn empty_pages(&self) -> u64
        ensures { result ≡ empty_count (setup_of self.now) self.now.chunks }
    {
        self.empty
    }
}
