//! A block with its parts, and the numbers that the kernel keeps of them.
ghost use Rattle.std.specs.Prelude.{◌≡◌, ◌≤◌, ◌<◌, ◌+◌, ◌-◌, ◌++◌, ◌∷◌, [], ◌⊎◌, IsSome, slice_get, IfOk, IfSome, IfNone, OnSome, OnOk, IsTrue, ◌↔◌, true, length};
ghost use Rattle.vm_model.specs.PlainMap.{InHand, Lives, Ended};
ghost use Rattle.vm_model.specs.Blocks.{rounded, free_of, dirty_of, dirty_range, is_spent, is_fragmented, with_part, cut_from};
ghost use Rattle.vm_model.specs.Tables as tables;
ghost use Rattle.map_blocks.specs.KeptBlocks.{KeptRow, IsInHand, part_in, parts_named, part_of, with_life_at};
ghost use Rattle.vm_model.specs.Space.{HasEnd};
ghost use Rattle.map_blocks.specs.BlockRows.{sized};

use crate::kept_part::KeptPart;
use crate::sizes::rounded;
use std::alloc::{AllocError, Global};
use std::marker::Model;
use vm_model::{BlockRow, PartRow, Span, wider};

/// A block: its parts by offset, with room for all that it can have, and what is kept of them as the kernel's
/// `vmap_block` keeps it.
#[derive(Drop)]
pub struct KeptBlock {
    number: u64,
    pages: u32,
    start: u32,
    cpu: u16,
    parts: Vec<KeptPart>,
    free: u32,
    dirty: u32,
    range: Option<Span>,
}

impl Model for KeptBlock {
    ghost use Rattle.std.specs.Prelude.{vec_capacity};
    ghost use Rattle.map_blocks.specs.KeptBlocks.{KeptRow, IsKept};

    ghost Value = { KeptRow };

    ghost view = { λ b. record {
      number = b.number;
      pages = b.pages;
      block = record { start = b.start; cpu = b.cpu; parts = b.parts.items };
    } };

    ghost invariant = { λ b. IsKept (record {
      start = b.start;
      cpu = b.cpu;
      parts = b.parts.items;
    }) b.pages b.free b.dirty b.range (vec_capacity b.parts) };
}

impl KeptBlock {
    /// A block without parts. It takes all the memory that the block ever needs.
    pub fn new(
        alloc: Global,
        number: u64,
        cpu: u16,
        start: u32,
        pages: u32,
    ) -> Result<KeptBlock, AllocError>
        requires least { 1 ≤ pages }
        requires most { pages ≤ 1024 }
        requires end { start + pages ≤ 1048576 }
        ensures { IfOk result (λ block. block ≡ record {
          number = number;
          pages = pages;
          block = record { start = start; cpu = cpu; parts = [] };
        }) }
    {
        let parts = Vec::with_capacity(alloc, pages as usize)?;
        Ok(KeptBlock {
            number,
            pages,
            start,
            cpu,
            parts,
            free: pages,
            dirty: 0,
            range: None,
        })
    }

    /// The pages that no part has.
    pub fn free(&self) -> u32
        ensures { result ≡ free_of (sized self.now.pages) self.now.block }
    {
        self.free
    }

    /// Whether all its pages are in parts that have ended.
    pub fn is_spent(&self) -> bool
        ensures { IsTrue result ↔ (is_spent (sized self.now.pages) self.now.block ≡ true) }
    {
        self.dirty == self.pages
    }

    /// Whether all parts have ended, and not all pages are in parts.
    pub fn is_fragmented(&self) -> bool
        ensures { IsTrue result ↔ (is_fragmented (sized self.now.pages) self.now.block ≡ true) }
    {
        self.free + self.dirty == self.pages && self.dirty < self.pages
    }

    /// From the first to the last of its pages in parts that have ended.
    pub fn dirty_range(&self) -> Option<Span>
        ensures range { result ≡ dirty_range self.now.block }
        ensures end { IfSome result HasEnd }
    {
        let range = self.range?;
        Some(Span {
            start: self.start + range.start,
            pages: range.pages,
        })
    }

    /// Whether a caller has the part at an offset in hand. It takes time for each part before it.
    pub fn is_in_hand(&self, offset: u32) -> bool
        ensures { IsTrue result ↔ IsInHand offset self.now.block }
    {
        for part in &self.parts {
            if part.offset() == offset {
                return part.is_in_hand();
            }
        }
        false
    }

    /// Whether it shares no page with a block of as many pages at a start.
    pub fn is_apart_from(&self, start: u32) -> bool
        requires { start ≤ 1048576 }
        ensures { IsTrue result ↔ ((self.now.block.start + self.now.pages ≤ start)
            ⊎ (start + self.now.pages ≤ self.now.block.start)) }
    {
        self.start + self.pages <= start || start + self.pages <= self.start
    }

    /// Cuts a part behind the others, and gives its offset. It takes no memory.
    pub fn cut(&mut self, pages: u32, caller: u16) -> u32
        requires least { 1 ≤ pages }
        requires room { rounded pages ≤ free_of (sized self.old.pages) self.old.block }
        ensures offset { result ≡ self.old.pages - free_of (sized self.old.pages) self.old.block }
        ensures part { self.new ≡ record self.old {
          block = with_part caller (cut_from (sized self.old.pages) pages self.old.block)
              self.old.block;
        } }
    {
        let offset = self.pages - self.free;
        self.parts
            .push_reserved(KeptPart::new(offset, pages, caller));
        self.free -= rounded(pages);
        offset
    }

    /// The place of the last part that begins at an offset or before it, by halving.
    fn place_of(&self, offset: u32) -> usize
        requires { 1 ≤ length self.now.block.parts }
        ensures there { result < length self.now.block.parts }
        ensures found { IsSome (part_in offset self.now.block)
            → slice_get self.now.block.parts result ≡ part_in offset self.now.block }
    {
        let mut low = 0;
        let mut high = self.parts.len();
        while high - low > 1 {
            let middle = low + (high - low) / 2;
            if self.parts[middle].offset() <= offset {
                low = middle;
            } else {
                high = middle;
            }
        }
        low
    }

    /// The part at an offset lives under a serial from here on. It takes no memory.
    pub fn settle(&mut self, offset: u32, serial: u32)
        requires { IsInHand offset self.old.block }
        ensures { self.new ≡ with_life_at offset (Lives serial) self.old }
    {
        let place = self.place_of(offset);
        self.parts[place].settle(serial);
    }

    /// The part at an offset has ended: the range of what ended is as wide as that takes. It takes no memory.
    pub fn end(&mut self, offset: u32)
        requires { IsInHand offset self.old.block }
        ensures { self.new ≡ with_life_at offset Ended self.old }
    {
        let place = self.place_of(offset);
        let size = self.parts[place].size();
        self.parts[place].end();
        self.dirty += size;
        self.range = Some(wider(
            Span {
                start: offset,
                pages: size,
            },
            self.range,
        ));
    }

    /// A caller takes the part in hand that lives under a serial and begins at an offset, and gets its pages. None where
    /// there is no such part, and then nothing is changed. It takes no memory.
    pub fn take_up(&mut self, offset: u32, serial: u32, caller: u16) -> Option<u32>
        ensures some { IfSome result (λ pages. parts_named offset serial self.old.block
            ≡ part_of offset pages self.old.block ∷ []) }
        ensures least { IfSome result (λ pages. 1 ≤ pages) }
        ensures most { IfSome result (λ pages. pages ≤ 1024) }
        ensures none { IfNone result (parts_named offset serial self.old.block ≡ []) }
        ensures held { OnSome result (self.new ≡ with_life_at offset (InHand caller) self.old) }
        ensures dirty { OnSome result (dirty_of self.new.block ≡ dirty_of self.old.block) }
        ensures unchanged { IfNone result (self.new ≡ self.old) }
    {
        if self.parts.is_empty() {
            return None;
        }
        let place = self.place_of(offset);
        let part = &mut self.parts[place];
        if part.offset() != offset {
            return None;
        }
        if !part.lives_as(serial) {
            return None;
        }
        part.hold(caller);
        Some(part.pages())
    }

    /// What the table of blocks says of it.
    pub fn row(&self) -> BlockRow
        ensures { result ≡ tables.block_row (sized self.now.pages) self.now.block }
    {
        let (low, high) = match self.range {
            Some(range) => (range.start, range.start + range.pages),
            None => (0, 0),
        };
        BlockRow {
            start: self.start,
            pages: self.pages,
            cpu: self.cpu,
            free: self.free,
            dirty: self.dirty,
            low,
            high,
        }
    }

    /// How many of its parts live.
    pub fn live(&self) -> u32
        ensures { result ≡ length (tables.part_rows self.now.block) }
    {
        let mut live = 0;
        for part in &self.parts {
            if part.is_live() {
                live += 1;
            }
        }
        live
    }

    /// What the table of parts says of a part.
    fn part_row(&self, part: &KeptPart) -> PartRow
        requires { part.now.offset ≤ self.now.pages }
        ensures { result ≡ tables.part_row self.now.block part.now }
    {
        PartRow {
            span: Span {
                start: self.start + part.offset(),
                pages: part.pages(),
            },
            cpu: self.cpu,
            caller: part.caller(),
            serial: part.serial(),
        }
    }

    /// What the table of parts says of its live part of an index among them, from 0.
    pub fn live_at(&self, index: u32) -> PartRow
        requires { index < length (tables.part_rows self.now.block) }
        ensures { slice_get (tables.part_rows self.now.block) index ≡ Some result }
    {
        let mut left = index;
        for part in &self.parts {
            if part.is_live() {
                if left == 0 {
                    return self.part_row(part);
                }
                left -= 1;
            }
        }
        unreachable!()
    }

    /// Puts what the table of parts says of its live parts behind other rows.
    pub fn put_rows(&self, rows: &mut Vec<PartRow>) -> Result<(), AllocError>
        ensures { OnOk result (rows.new.items ≡ rows.old.items ++ tables.part_rows self.now.block) }
    {
        for part in &self.parts {
            if part.is_live() {
                rows.push(self.part_row(part))?;
            }
        }
        Ok(())
    }
}
