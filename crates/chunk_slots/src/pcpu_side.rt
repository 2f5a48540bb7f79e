//! The side of the per-CPU chunks: the chunks, their slots, and the objects.
ghost use Rattle.std.specs.Prelude.{◌≡◌, ◌+◌, ◌*◌, ◌%◌, ◌<◌, ◌≤◌, not, Some, IsSome, IfOk, IfSome, IfNone, OnErr, OnOk, true, false, OnSome, filter, option_map};
ghost use Rattle.vm_model.specs.Chunks.{find_object};
ghost use Rattle.vm_model.specs.Frames.{pages_of_bytes};
ghost use Rattle.chunk_slots.specs.KeptChunks.{has_populated};
ghost use Rattle.vm_model.specs.PageSets.{pages_in};
ghost use Rattle.chunk_slots.specs.ChunkRegion.{empty_region, at_of, told_of, place_for, with_placed, with_new_chunk, with_settled, without_placed, with_populated, without_chunk, IsHeld, CanPopulate, IsWhollyFree, live_bytes, at_offset, AreOfUnits};

mod checks;
mod chunk_reads;
mod chunk_tables;
mod live_objects;

use crate::holders::{Holder, Holders};
use crate::kept_chunk::KeptChunk;
use crate::placed::Placed;
use crate::rising::{index_of, put, take_out};
use crate::slots::{InSlot, key_in_slot, relocate, take_fit};
use std::alloc::{AllocError, Global};
use std::marker::Model;
use vm_model::PageSet;

/// The per-CPU chunks by number and by slot, as the kernel's `pcpu_chunk_lists`, and the objects by chunk and offset.
#[derive(Drop)]
pub struct PcpuSide {
    alloc: Global,
    unit_pages: u32,
    chunks: Vec<KeptChunk>,
    slots: Vec<InSlot>,
    holders: Holders,
    empty: u64,
    next_object: u32,
    next_chunk: u32,
    spare: u32,
}

impl Model for PcpuSide {
    ghost use Rattle.std.specs.Prelude.{vec_capacity};
    ghost use Rattle.chunk_slots.specs.ChunkRegion.{ChunkRegion};
    ghost use Rattle.chunk_slots.specs.KeptObjects.{holder_in, room_in};
    ghost use Rattle.chunk_slots.specs.KeptChunkSides.{chunks_in, AreKept};

    ghost Value = { ChunkRegion };

    ghost view = { λ s. record {
      unit_pages = s.unit_pages;
      chunks = chunks_in (holder_in s.holders) s.chunks.items;
      next_object = s.next_object;
      next_chunk = s.next_chunk;
      room = s.spare;
    } };

    ghost invariant = { λ s. AreKept s.unit_pages s.chunks.items s.slots.items
        (holder_in s.holders) s.empty s.next_object s.next_chunk s.spare (vec_capacity s.slots)
        (room_in s.holders) };
}

/// An object at an offset of a chunk, with its missing pages.
fn placed_in(chunk: &KeptChunk, off: u32, bytes: u32, caller: u16) -> Placed
    requires some { 1 ≤ bytes }
    requires within { off + bytes ≤ 4 * chunk.now.bits.bits }
    ensures chunk { result.chunk ≡ chunk.now.number }
    ensures base { result.base ≡ chunk.now.base }
    ensures off { result.off ≡ off }
    ensures bytes { result.bytes ≡ bytes }
    ensures caller { result.caller ≡ caller }
    ensures missing { pages_in result.missing ≡ filter (λ page. not (has_populated chunk.now page))
        (pages_of_bytes off bytes) }
{
    Placed {
        chunk: chunk.number(),
        base: chunk.base(),
        off,
        bytes,
        caller,
        missing: chunk.missing(off, bytes),
    }
}

impl PcpuSide {
    /// A side without chunks, whose units have so many pages, with room for so many objects.
    pub fn with_room(alloc: Global, unit_pages: u32, objects: u32) -> Result<PcpuSide, AllocError>
        requires least { 8 ≤ unit_pages }
        requires most { unit_pages ≤ 64 }
        ensures { IfOk result (λ side. side ≡ empty_region unit_pages objects) }
    {
        Ok(PcpuSide {
            alloc,
            unit_pages,
            chunks: Vec::new(alloc),
            slots: Vec::new(alloc),
            holders: Holders::with_room(alloc, objects)?,
            empty: 0,
            next_object: 1,
            next_chunk: 0,
            spare: objects,
        })
    }

    /// How many more objects can be placed.
    pub fn spare(&self) -> u32
        ensures { result ≡ self.now.room }
    {
        self.spare
    }

    /// How many pages each unit has, and so each chunk in it.
    pub fn unit_pages(&self) -> u32
        ensures pages { result ≡ self.now.unit_pages }
        ensures most { result ≤ 64 }
        ensures chunks { AreOfUnits self.now.unit_pages self.now.chunks }
    {
        self.unit_pages
    }

    /// From here on units have so many pages, which is how many each chunk has that is there. It takes no memory.
    pub fn set_unit_pages(&mut self, unit_pages: u32)
        requires least { 8 ≤ unit_pages }
        requires most { unit_pages ≤ 64 }
        requires chunks { AreOfUnits unit_pages self.old.chunks }
        ensures { self.new ≡ record self.old { unit_pages = unit_pages } }
    {
        self.unit_pages = unit_pages;
    }

    /// The number that the next chunk gets.
    pub fn next_chunk(&self) -> u32
        ensures { result ≡ self.now.next_chunk }
    {
        self.next_chunk
    }

    /// An object for a caller at the first fit of the chosen chunk.
    fn hold(&mut self, bytes: u32, align: u32, caller: u16, atomic: bool) -> Option<Placed>
        requires spare { 1 ≤ self.old.room }
        requires words { bytes % 4 ≡ 0 }
        requires bytes { 4 ≤ bytes }
        requires align { 4 ≤ align }
        ensures place { option_map told_of result ≡ place_for atomic bytes align self.old }
        ensures caller { IfSome result (λ placed. placed.caller ≡ caller) }
        ensures held { IfSome result
            (λ placed. self.new ≡ with_placed caller (at_of placed) self.old) }
        ensures unchanged { IfNone result (self.new ≡ self.old) }
    {
        let taken = take_fit(&mut self.chunks, &self.slots, bytes, align, atomic)?;
        let chunk = &self.chunks[taken.index];
        relocate(&mut self.slots, chunk.number(), taken.slot, chunk.slot());
        self.empty = self.empty - u64::from(taken.empty) + u64::from(chunk.empty());
        let placed = placed_in(chunk, 4 * taken.bit, bytes, caller);
        self.holders
            .put(placed.chunk, placed.off, Holder { caller, serial: 0 });
        self.spare -= 1;
        Some(placed)
    }

    /// An object for a caller in the least chunk with a fit, by slot and then by number, at its lowest aligned fit. None
    /// comes exactly where no chunk has one, and then nothing is changed. It takes no memory.
    pub fn place(&mut self, bytes: u32, align: u32, caller: u16) -> Option<Placed>
        requires spare { 1 ≤ self.old.room }
        requires words { bytes % 4 ≡ 0 }
        requires bytes { 4 ≤ bytes }
        requires align { 4 ≤ align }
        ensures place { option_map told_of result ≡ place_for false bytes align self.old }
        ensures caller { IfSome result (λ placed. placed.caller ≡ caller) }
        ensures held { IfSome result
            (λ placed. self.new ≡ with_placed caller (at_of placed) self.old) }
        ensures unchanged { IfNone result (self.new ≡ self.old) }
    {
        self.hold(bytes, align, caller, false)
    }

    /// The same over the fits all of whose pages are populated.
    pub fn place_atomic(&mut self, bytes: u32, align: u32, caller: u16) -> Option<Placed>
        requires spare { 1 ≤ self.old.room }
        requires words { bytes % 4 ≡ 0 }
        requires bytes { 4 ≤ bytes }
        requires align { 4 ≤ align }
        ensures place { option_map told_of result ≡ place_for true bytes align self.old }
        ensures caller { IfSome result (λ placed. placed.caller ≡ caller) }
        ensures held { IfSome result
            (λ placed. self.new ≡ with_placed caller (at_of placed) self.old) }
        ensures unchanged { IfNone result (self.new ≡ self.old) }
    {
        self.hold(bytes, align, caller, true)
    }

    /// One more chunk at a base, of which nothing is populated. An error leaves all as it was.
    fn add_chunk(&mut self, base: u32) -> Result<(), AllocError>
        requires { self.old.next_chunk < 4294967295 }
        ensures added { OnOk result (self.new ≡ with_new_chunk base self.old) }
        ensures unchanged { OnErr result (self.new ≡ self.old) }
    {
        let number = self.next_chunk;
        let chunk = KeptChunk::new(self.alloc, number, base, self.unit_pages)?;
        let slot = chunk.slot();
        self.slots.reserve(1)?;
        self.chunks.push(chunk)?;
        put(
            &mut self.slots,
            InSlot {
                slot,
                chunk: number,
            },
        );
        self.next_chunk = number + 1;
        Ok(())
    }

    /// Adds a chunk at a base, and places an object in the chosen chunk, which may be an older one. An error leaves all as
    /// it was.
    pub fn add_chunk_and_place(
        &mut self,
        base: u32,
        bytes: u32,
        align: u32,
        caller: u16,
    ) -> Result<Placed, AllocError>
        requires spare { 1 ≤ self.old.room }
        requires words { bytes % 4 ≡ 0 }
        requires bytes { 4 ≤ bytes }
        requires most { bytes ≤ 32768 }
        requires align { 4 ≤ align }
        requires next { self.old.next_chunk < 4294967295 }
        ensures place { IfOk result
            (λ placed. place_for false bytes align (with_new_chunk base self.old)
            ≡ Some (told_of placed)) }
        ensures caller { IfOk result (λ placed. placed.caller ≡ caller) }
        ensures held { IfOk result (λ placed. self.new ≡ with_placed caller (at_of placed)
            (with_new_chunk base self.old)) }
        ensures unchanged { OnErr result (self.new ≡ self.old) }
    {
        let _least = self.unit_pages;
        self.add_chunk(base)?;
        let Some(placed) = self.hold(bytes, align, caller, false) else {
            unreachable!();
        };
        Ok(placed)
    }

    /// An object that is in hand lives from here on, and gets the next serial, from 1; its pages are populated. It takes no
    /// memory.
    pub fn settle(&mut self, placed: &Placed) -> u32
        requires held { IsHeld (at_of placed.now) self.old.chunks }
        requires next { self.old.next_object < 4294967295 }
        ensures serial { result ≡ self.old.next_object }
        ensures settled { self.new ≡ with_settled (at_of placed.now) self.old }
    {
        let serial = self.next_object;
        self.holders.settle(placed.chunk, placed.off, serial);
        self.next_object = serial + 1;
        let Some(index) = index_of(&self.chunks, u64::from(placed.chunk)) else {
            unreachable!();
        };
        let chunk = &mut self.chunks[index];
        let empty = u64::from(chunk.empty());
        chunk.populate_object(placed.off, placed.bytes);
        self.empty = self.empty - empty + u64::from(chunk.empty());
        serial
    }

    /// The bits of an object are free again, and the object is gone.
    fn give_up(&mut self, chunk: u32, off: u32)
        requires there { IsSome (find_object (at_offset chunk off) self.old.chunks) }
        ensures { self.new ≡ without_placed (at_offset chunk off) self.old }
    {
        self.holders.take_out(chunk, off);
        let Some(index) = index_of(&self.chunks, u64::from(chunk)) else {
            unreachable!();
        };
        let kept = &mut self.chunks[index];
        let slot = kept.slot();
        let empty = u64::from(kept.empty());
        let _ = kept.free(off / 4);
        relocate(&mut self.slots, chunk, slot, kept.slot());
        self.empty = self.empty - empty + u64::from(kept.empty());
    }

    /// An object that is in hand is gone, and its bits are free. It takes no memory.
    pub fn unplace(&mut self, placed: &Placed)
        requires { IsHeld (at_of placed.now) self.old.chunks }
        ensures { self.new ≡ without_placed (at_of placed.now) self.old }
    {
        self.give_up(placed.chunk, placed.off);
    }

    /// Frees the live object with this chunk, offset and serial, and gives its bytes. None comes exactly where no live
    /// object has these three, and then nothing is changed. It takes no memory.
    pub fn free(&mut self, chunk: u32, off: u32, serial: u32) -> Option<u32>
        ensures bytes { result ≡ live_bytes chunk off serial self.old }
        ensures freed { OnSome result (self.new ≡ without_placed (at_offset chunk off) self.old) }
        ensures unchanged { IfNone result (self.new ≡ self.old) }
    {
        let index = index_of(&self.chunks, u64::from(chunk))?;
        let bytes = self.chunks[index].object_at(off)?;
        let holder = self.holders.get(chunk, off)?;
        if serial == 0 || holder.serial != serial {
            return None;
        }
        self.give_up(chunk, off);
        Some(bytes)
    }

    /// A page of a chunk becomes populated in each unit. It takes no memory.
    pub fn set_populated(&mut self, chunk: u32, page: u32)
        requires { CanPopulate chunk page self.old }
        ensures { self.new ≡ with_populated chunk page self.old }
    {
        let Some(index) = index_of(&self.chunks, u64::from(chunk)) else {
            unreachable!();
        };
        let kept = &mut self.chunks[index];
        let empty = u64::from(kept.empty());
        kept.populate(PageSet::pages_from(page, 1));
        self.empty = self.empty - empty + u64::from(kept.empty());
    }

    /// A wholly free chunk is gone. It takes no memory.
    pub fn remove_chunk(&mut self, chunk: u32)
        requires { IsWhollyFree chunk self.old }
        ensures { self.new ≡ without_chunk chunk self.old }
    {
        if let Some(gone) = take_out(&mut self.chunks, u64::from(chunk)) {
            let _ = take_out(&mut self.slots, key_in_slot(gone.slot(), chunk));
            self.empty -= u64::from(gone.empty());
        }
    }
}
