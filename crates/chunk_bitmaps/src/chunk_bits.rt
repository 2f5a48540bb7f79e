//! The allocation map and the boundary map of a chunk, as `mm/percpu.c` keeps them: `alloc_map` and `bound_map` of
//! `struct pcpu_chunk`.
ghost use Rattle.std.specs.Prelude.{◌≡◌, true, false, ◌+◌, ◌-◌, ◌*◌, ◌<◌, ◌≤◌, Option, Some, IfOk, IfSome, IfNone, MatchOption, length, take, drop, [], ◌∷◌};
ghost use Rattle.vm_model.specs.Space.{span, holds, paint, begins_free};
ghost use Rattle.vm_model.specs.Bits.{leading_free};
ghost use Rattle.chunk_bitmaps.specs.Bitmap.{IsNextBit, IsLastBit};
ghost use Rattle.chunk_bitmaps.specs.ChunkMap.{ChunkMap, empty_chunk, taken_bits, with_object_at, without_object_at, object_bits_at, objects_from, first_fit, begins};

use crate::bitmap::Bitmap;
use std::alloc::{AllocError, Global};
use std::marker::Model;
use vm_model::Span;

/// How many bits stand for a page of 4,096 bytes, 4 bytes each: the kernel's `PCPU_BITMAP_BLOCK_BITS`.
pub const BLOCK_BITS: u32 = 1024;

/// Which bits of a chunk are allocated, and where its objects begin and end. The boundary map has one more bit.
#[derive(Drop)]
pub struct ChunkBits {
    taken: Bitmap,
    bounds: Bitmap,
}

impl Model for ChunkBits {
    ghost use Rattle.chunk_bitmaps.specs.Bitmap.{IsNextBit};
    ghost use Rattle.chunk_bitmaps.specs.ChunkMap.{ChunkMap, chunk_map, AreMaps};

    ghost Value = { ChunkMap };

    ghost view = { λ c. chunk_map c.taken c.bounds };

    ghost invariant = { λ c. AreMaps c.taken c.bounds };
}

/// Whether an object begins at a place.
fn begins_at(taken: &Bitmap, bounds: &Bitmap, at: u32) -> bool
    requires taken { at < length taken.now }
    requires bounds { at < length bounds.now }
    ensures { result ≡ begins taken.now bounds.now at }
{
    taken.contains(at) && bounds.contains(at)
}

impl ChunkBits {
    /// The bits of so many pages, all free.
    pub fn new(alloc: Global, pages: u32) -> Result<ChunkBits, AllocError>
        requires { pages ≤ 64 }
        ensures { IfOk result (λ chunk. chunk ≡ empty_chunk (1024 * pages)) }
    {
        let bits = BLOCK_BITS * pages;
        Ok(ChunkBits {
            taken: Bitmap::clear(alloc, bits)?,
            bounds: Bitmap::clear(alloc, bits + 1)?,
        })
    }

    /// How many bits the chunk has. It takes no memory.
    pub fn len(&self) -> u32
        ensures len { result ≡ self.now.bits }
        ensures small { result ≤ 65536 }
    {
        self.taken.len()
    }

    /// The first bit from a place on and before the end that is taken, or free, or the end where there is none. It takes
    /// no memory.
    pub fn find_next(&self, taken: bool, from: u32, end: u32) -> u32
        requires order { from ≤ end }
        requires within { end ≤ self.now.bits }
        ensures { IsNextBit (taken_bits self.now) taken from end result }
    {
        self.taken.find_next(taken, from, end)
    }

    /// The place behind the last bit from a place on and before the end that is taken, or free, or that place where there
    /// is none. It takes no memory.
    pub fn find_last(&self, taken: bool, from: u32, end: u32) -> u32
        requires order { from ≤ end }
        requires within { end ≤ self.now.bits }
        ensures { IsLastBit (taken_bits self.now) taken from end result }
    {
        self.taken.find_last(taken, from, end)
    }

    /// Whether so many bits from a place on are free. It takes no memory.
    pub fn is_free(&self, at: u32, bits: u32) -> bool
        requires { at + bits ≤ self.now.bits }
        ensures { result ≡ begins_free bits (drop at (taken_bits self.now)) }
    {
        self.taken.find_next(true, at, at + bits) == at + bits
    }

    /// How many bits are free from a place on. It takes no memory.
    pub fn run_at(&self, at: u32) -> u32
        requires { at ≤ self.now.bits }
        ensures { result ≡ leading_free (drop at (taken_bits self.now)) }
    {
        self.taken.find_next(true, at, self.taken.len()) - at
    }

    /// The lowest multiple of the alignment at or after a place from which so many bits are free, as
    /// `bitmap_find_next_zero_area` finds it. All numbers are bits. It takes no memory.
    pub fn first_fit_from(&self, from: u32, bits: u32, align: u32) -> Option<u32>
        requires from { from ≤ self.now.bits }
        requires bits { 1 ≤ bits }
        requires align { 1 ≤ align }
        ensures { result ≡ first_fit (taken_bits self.now) from bits align }
    {
        self.first_fit_between(from, self.taken.len(), bits, align)
    }

    /// The same among the bits before an end.
    pub fn first_fit_between(&self, from: u32, end: u32, bits: u32, align: u32) -> Option<u32>
        requires from { from ≤ end }
        requires end { end ≤ self.now.bits }
        requires bits { 1 ≤ bits }
        requires align { 1 ≤ align }
        ensures { result ≡ first_fit (take end (taken_bits self.now)) from bits align }
    {
        let _few = self.taken.len();
        let mut place = from;
        while place < end {
            let free = u64::from(self.taken.find_next(false, place, end));
            let start = free.next_multiple_of(u64::from(align));
            if start + u64::from(bits) > u64::from(end) {
                return None;
            }
            let next = self
                .taken
                .find_next(true, start as u32, start as u32 + bits);
            if next == start as u32 + bits {
                return Some(start as u32);
            }
            place = next + 1;
        }
        None
    }

    /// How many bits the object has that begins at a place. None comes exactly where no object begins there. It takes no
    /// memory.
    pub fn object_at(&self, at: u32) -> Option<u32>
        ensures bits { result ≡ object_bits_at at self.now }
        ensures some { IfSome result (λ bits. (1 ≤ bits) × (at + bits ≤ self.now.bits)) }
    {
        if at >= self.taken.len() || !begins_at(&self.taken, &self.bounds, at) {
            return None;
        }
        Some(self.bounds.find_next(true, at + 1, self.taken.len()) - at)
    }

    /// The first object that begins at a place or behind it, by its bits. It takes no memory.
    pub fn next_object(&self, from: u32) -> Option<Span>
        requires { from ≤ self.now.bits }
        ensures next { MatchOption result (objects_from from self.now ≡ []) (λ s.
            objects_from from self.now ≡ s ∷ objects_from (s.start + s.pages) self.now) }
        ensures within { IfSome result (λ s.
            (1 ≤ s.pages) × (from ≤ s.start) × (s.start + s.pages ≤ self.now.bits)) }
    {
        let len = self.taken.len();
        let mut place = self.taken.find_next(true, from, len);
        while place < len {
            if begins_at(&self.taken, &self.bounds, place) {
                let end = self.bounds.find_next(true, place + 1, len);
                return Some(Span {
                    start: place,
                    pages: end - place,
                });
            }
            place = self.taken.find_next(true, place + 1, len);
        }
        None
    }

    /// Takes so many free bits from a place on for an object: `pcpu_alloc_area` in the maps. It takes no memory.
    pub fn mark(&mut self, at: u32, bits: u32)
        requires some { 1 ≤ bits }
        requires inside { at + bits ≤ self.old.bits }
        requires free { begins_free bits (drop at (taken_bits self.old)) ≡ true }
        ensures object { self.new ≡ with_object_at at bits self.old }
        ensures taken { taken_bits self.new
            ≡ paint (holds (span at bits)) true (taken_bits self.old) }
    {
        self.taken.fill(at, bits, true);
        self.bounds.fill(at, bits, false);
        self.bounds.put(at, true);
        self.bounds.put(at + bits, true);
    }

    /// Frees the bits of the object that begins at a place, and tells how many there were: `pcpu_free_area` in the maps.
    /// None comes exactly where no object begins there. It takes no memory.
    pub fn clear(&mut self, at: u32) -> Option<u32>
        requires { at < self.old.bits }
        ensures bits { result ≡ object_bits_at at self.old }
        ensures object { self.new ≡ without_object_at at self.old }
        ensures none { IfNone result (self.new ≡ self.old) }
        ensures some { IfSome result (λ bits. (1 ≤ bits) × (at + bits ≤ self.old.bits)) }
        ensures freed { IfSome result (λ bits.
            taken_bits self.new ≡ paint (holds (span at bits)) false (taken_bits self.old)) }
    {
        if !begins_at(&self.taken, &self.bounds, at) {
            return None;
        }
        let end = self.bounds.find_next(true, at + 1, self.taken.len());
        self.taken.fill(at, end - at, false);
        Some(end - at)
    }
}
