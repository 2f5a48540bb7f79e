//! A chunk with a hint for each block of its bits and for all of them.
ghost use Rattle.std.specs.Prelude.{◌≡◌, ◌-◌, ◌*◌, ◌<◌, ◌≤◌, Option, Some, IfOk, IfSome, IfNone};
ghost use Rattle.vm_model.specs.Space.{lowest};
ghost use Rattle.vm_model.specs.Bits.{hint_of, block_bits};
ghost use Rattle.chunk_bitmaps.specs.ChunkMap.{ChunkMap, empty_chunk, taken_bits, with_object_at, without_object_at, object_bits_at};
ghost use Rattle.block_hints.specs.Populated.{blocked_bits};

use crate::block_scan::Block;
use crate::frees::mend_freed;
use crate::joins::joined_all;
use crate::search::lowest_fit;
use crate::takes::{chunk_with_taken, mend_taken};
use chunk_bitmaps::{BLOCK_BITS, ChunkBits};
use std::alloc::{AllocError, Global};
use std::marker::Model;
use vm_model::{Hint, PageSet};

/// All pages that a chunk may have.
const ALL_PAGES: PageSet = PageSet { mask: u64::MAX };

/// The bits of a chunk with the hints of its blocks and its own, as the kernel's `md_blocks` and `chunk_md` keep them.
#[derive(Drop)]
pub struct HintedChunk {
    bits: ChunkBits,
    blocks: Vec<Block>,
    chunk: Hint,
}

impl Model for HintedChunk {
    ghost use Rattle.chunk_bitmaps.specs.ChunkMap.{ChunkMap};
    ghost use Rattle.block_hints.specs.KeptHints.{AreKept};

    ghost Value = { ChunkMap };

    ghost view = { λ c. c.bits };

    ghost invariant = { λ c. AreKept c.bits c.blocks.items c.chunk };
}

impl HintedChunk {
    /// The bits of so many pages, all free.
    pub fn new(alloc: Global, pages: u32) -> Result<HintedChunk, AllocError>
        requires some { 1 ≤ pages }
        requires few { pages ≤ 64 }
        ensures { IfOk result (λ chunk. chunk ≡ empty_chunk (1024 * pages)) }
    {
        let bits = ChunkBits::new(alloc, pages)?;
        let hint = Hint {
            run_start: 0,
            run: BLOCK_BITS,
            left: BLOCK_BITS,
            right: BLOCK_BITS,
            first: 0,
        };
        let free = Block {
            hint,
            before: 0,
            behind: 0,
        };
        let blocks = vec![in alloc; free; pages as usize]?;
        let chunk = joined_all(&bits, &blocks);
        Ok(HintedChunk {
            bits,
            blocks,
            chunk,
        })
    }

    /// Takes the lowest fit for an object of so many bits, at a multiple of the alignment in bits, and tells where.
    /// None comes exactly where the bits have none. It takes no memory.
    pub fn place(&mut self, bits: u32, align: u32) -> Option<u32>
        requires bits { 1 ≤ bits }
        requires align { 1 ≤ align }
        ensures place { result ≡ lowest (taken_bits self.old) bits align }
        ensures placed { IfSome result (λ at. self.new ≡ with_object_at at bits self.old) }
        ensures none { IfNone result (self.new ≡ self.old) }
    {
        let _ = &self.bits;
        self.place_populated(bits, align, ALL_PAGES)
    }

    /// The same among the fits all of whose pages are in the set.
    pub fn place_populated(&mut self, bits: u32, align: u32, populated: PageSet) -> Option<u32>
        requires bits { 1 ≤ bits }
        requires align { 1 ≤ align }
        ensures place { result ≡ lowest (blocked_bits populated self.old) bits align }
        ensures placed { IfSome result (λ at. self.new ≡ with_object_at at bits self.old) }
        ensures none { IfNone result (self.new ≡ self.old) }
    {
        if self.chunk.run < bits {
            return None;
        }
        let at = lowest_fit(&self.bits, &self.blocks, self.chunk, bits, align, populated)?;
        let known = chunk_with_taken(&self.bits, self.chunk, at, bits);
        self.bits.mark(at, bits);
        mend_taken(&self.bits, &mut self.blocks, at, at + bits);
        self.chunk = match known {
            Some(hint) => hint,
            None => joined_all(&self.bits, &self.blocks),
        };
        Some(at)
    }

    /// Frees the bits of the object that begins at a place, and tells how many there were. None comes exactly where no
    /// object begins there. It takes no memory.
    pub fn free(&mut self, at: u32) -> Option<u32>
        requires { at < self.old.bits }
        ensures bits { result ≡ object_bits_at at self.old }
        ensures freed { self.new ≡ without_object_at at self.old }
        ensures none { IfNone result (self.new ≡ self.old) }
    {
        let bits = self.bits.clear(at)?;
        self.chunk = mend_freed(&self.bits, &mut self.blocks, self.chunk, at, bits);
        Some(bits)
    }

    /// The hint of a block. It takes no memory.
    pub fn hint(&self, block: u32) -> Hint
        requires { 1024 * block < self.now.bits }
        ensures { result ≡ hint_of (block_bits (taken_bits self.now) block) }
    {
        self.blocks[block as usize].hint
    }

    /// The hint of all bits of the chunk. It takes no memory.
    pub fn longest(&self) -> Hint
        ensures { result ≡ hint_of (taken_bits self.now) }
    {
        self.chunk
    }

    /// The bits themselves. It takes no memory.
    pub fn bits(&self) -> &ChunkBits
        ensures { result.now ≡ self.now }
    {
        &self.bits
    }
}
