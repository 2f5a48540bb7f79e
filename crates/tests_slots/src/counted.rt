//! The side of the chunks, called as it wants it, with the serials counted beside it.
ghost use Rattle.std.specs.Prelude.{◌≡◌, ◌≤◌};

use chunk_slots::{PcpuSide, Placed};
use populate_balance::{SpareChunk, UnpopulatedPage, mark_populated, next_page, take_spare_chunk};
use std::alloc::{AllocError, Global};
use std::marker::Model;
use std::process::Abort;

/// A side, and the serial that its next object gets.
#[derive(Drop)]
pub struct Counted {
    side: PcpuSide,
    next: u32,
}

impl Model for Counted {
    ghost use Rattle.std.specs.Prelude.{◌≡◌};
    ghost use Rattle.chunk_slots.specs.ChunkRegion.{ChunkRegion};

    ghost Value = { ChunkRegion };

    ghost view = { λ c. c.side };

    ghost invariant = { λ c. c.side.next_object ≡ c.next };
}

impl Counted {
    /// No chunk yet, and room for so many objects. An error comes for want of memory only.
    pub fn new(alloc: Global, unit_pages: u32, objects: u32) -> Result<Counted, AllocError>
        requires least { 8 ≤ unit_pages }
        requires most { unit_pages ≤ 64 }
    {
        let side = PcpuSide::with_room(alloc, unit_pages, objects)?;
        Ok(Counted { side, next: 1 })
    }

    /// The chunks, to be looked at.
    pub fn side(&self) -> &PcpuSide {
        &self.side
    }

    /// An object of a caller in the chosen chunk.
    pub fn place(
        &mut self,
        rt: &impl Abort,
        bytes: u32,
        align: u32,
        atomic: bool,
    ) -> Option<Placed> {
        assert!(rt; self.side.spare() >= 1);
        assert!(rt; bytes % 4 == 0);
        assert!(rt; bytes >= 4);
        assert!(rt; align >= 4);
        if atomic {
            self.side.place_atomic(bytes, align, 0)
        } else {
            self.side.place(bytes, align, 0)
        }
    }

    /// One more chunk at a base, and an object in the chosen one.
    pub fn add_and_place(
        &mut self,
        rt: &impl Abort,
        base: u32,
        bytes: u32,
        align: u32,
    ) -> Result<Placed, AllocError> {
        assert!(rt; self.side.spare() >= 1);
        assert!(rt; bytes % 4 == 0);
        assert!(rt; bytes >= 4);
        assert!(rt; bytes <= 32_768);
        assert!(rt; align >= 4);
        assert!(rt; self.side.next_chunk() < u32::MAX);
        self.side.add_chunk_and_place(base, bytes, align, 0)
    }

    /// An object in hand lives from here on, under the serial that is told.
    pub fn settle(&mut self, rt: &impl Abort, placed: &Placed) -> u32 {
        assert!(rt; self.side.is_held(placed));
        assert!(rt; self.next < u32::MAX);
        let serial = self.side.settle(placed);
        assert!(rt; serial == self.next);
        assert!(rt; !self.side.is_held(placed));
        self.next += 1;
        serial
    }

    /// An object in hand is gone.
    pub fn unplace(&mut self, rt: &impl Abort, placed: &Placed) {
        assert!(rt; self.side.is_held(placed));
        self.side.unplace(placed);
        assert!(rt; !self.side.is_held(placed));
    }

    /// The bytes of a live object that is freed.
    pub fn free(&mut self, chunk: u32, off: u32, serial: u32) -> Option<u32> {
        self.side.free(chunk, off, serial)
    }

    /// The chunk that a balance gives up.
    pub fn give_up(&mut self) -> Option<SpareChunk> {
        take_spare_chunk(&mut self.side)
    }

    /// The page that a balance fills.
    pub fn fill(&mut self, rt: &impl Abort) -> Option<UnpopulatedPage> {
        let next = next_page(&self.side)?;
        assert!(rt; self.side.can_populate(next.chunk, next.page));
        mark_populated(&mut self.side, next.chunk, next.page);
        assert!(rt; !self.side.can_populate(next.chunk, next.page));
        Some(next)
    }
}
