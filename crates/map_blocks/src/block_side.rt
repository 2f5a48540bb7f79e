//! One processor's blocks.
ghost use Rattle.std.specs.Prelude.{All, ◌≡◌, ◌≢◌, ◌≤◌, ◌<◌, ◌+◌, ◌-◌, ◌∷◌, [], true, false, ◌==◌, Some, None, length, map, slice_get, IsTrue, IsNone, ◌↔◌, IfOk, IfSome, IfNone, OnSome, OnOk, OnErr};
ghost use Rattle.vm_model.specs.Space.{span};
ghost use Rattle.vm_model.specs.Bits.{binary_digits};
ghost use Rattle.vm_model.specs.PlainMap.{Block};
ghost use Rattle.vm_model.specs.Rules.{IsPower};
ghost use Rattle.vm_model.specs.Blocks as model;
ghost use Rattle.map_blocks.specs.KeptBlockSides.{has_room};
ghost use Rattle.map_blocks.specs.BlockSpans.{block_span, part_spans, LiesIn, ShareNoPage};
ghost use Rattle.map_blocks.specs.BlockRows as rows;
ghost use Rattle.map_blocks.specs.BlockRows.{BlockRows, IsHeld, IsUnused, IsClean, at_of};

use crate::kept_block::KeptBlock;
use crate::part::Part;
use crate::queues::{
    first_with_room, fragmented_count, fragmented_starts, put_block, remove_all, unqueue,
    unqueue_fragmented,
};
use crate::sizes::{order_of, rounded};
use std::alloc::{AllocError, Global};
use std::collections::BTreeMap;
use std::marker::Model;
use vm_model::{BlockList, BlockRow, PartList, PartRow, Span, StartList, wider};

/// The blocks of one processor, its `vmap_block_queue` of the kernel: each by its start, and the starts of those that
/// have room, in the order in which they were added.
#[derive(Drop)]
pub struct BlockSide {
    alloc: Global,
    cpu: u16,
    pages: u32,
    blocks: BTreeMap<u32, KeptBlock>,
    queue: Vec<u32>,
    added: u64,
    next: u32,
}

impl Model for BlockSide {
    ghost use Rattle.std.specs.BTreeMap.{values};
    ghost use Rattle.map_blocks.specs.BlockRows.{BlockRows};
    ghost use Rattle.map_blocks.specs.KeptBlockSides.{blocks_in, AreKept};

    ghost Value = { BlockRows };

    ghost view = { λ s. record {
      cpu = s.cpu;
      pages = s.pages;
      blocks = blocks_in (values s.blocks);
      next = s.next;
    } };

    ghost invariant = { λ s. AreKept s.cpu s.pages s.blocks.entries s.queue.items s.added };
}

impl BlockSide {
    /// A processor without blocks, whose blocks are to have so many pages. It takes no memory.
    pub fn new(alloc: Global, cpu: u16, block_pages: u32) -> BlockSide
        requires power { IsPower block_pages }
        requires least { 8 ≤ block_pages }
        requires most { block_pages ≤ 1024 }
        ensures { result ≡ record { cpu = cpu; pages = block_pages; blocks = []; next = 1 } }
    {
        BlockSide {
            alloc,
            cpu,
            pages: block_pages,
            blocks: BTreeMap::new(alloc),
            queue: Vec::new(alloc),
            added: 0,
            next: 1,
        }
    }

    /// How many pages each block has.
    pub fn pages(&self) -> u32
        ensures { result ≡ self.now.pages }
    {
        self.pages
    }

    /// Whether a caller has the part in hand, as `settle` and `retire` want. It takes time for each part of its block, and
    /// no memory.
    pub fn is_held(&self, part: &Part) -> bool
        ensures { IsTrue result ↔ IsHeld (at_of self.now.cpu part.now) self.now.blocks }
    {
        match self.blocks.get(&part.block) {
            Some(block) => block.is_in_hand(part.offset),
            None => false,
        }
    }

    /// Whether a block can be added at a start, given in pages: it ends in the space of at most 2 ^ 20 pages, and no block
    /// has one of its pages. It takes time for each block, and no memory.
    pub fn is_unused(&self, start: u32) -> bool
        ensures end { IsTrue result → start + self.now.pages ≤ 1048576 }
        ensures unused { IsTrue result → IsUnused self.now (span start self.now.pages) }
        ensures only { start + self.now.pages ≤ 1048576
            → IsUnused self.now (span start self.now.pages) → IsTrue result }
    {
        if start > 1048576 - self.pages {
            return false;
        }
        for block in self.blocks.values() {
            if !block.is_apart_from(start) {
                return false;
            }
        }
        true
    }

    /// Whether there is a serial for one more part to live under: one below 2 ^ 32 - 1.
    pub fn has_serial(&self) -> bool
        ensures { IsTrue result ↔ (self.now.next < 4294967295) }
    {
        self.next < u32::MAX
    }

    /// A part for a caller, cut from the first queued block that has room for it, as `vb_alloc` of the kernel looks for
    /// one. None where no block has, and then nothing is changed. It takes no memory.
    pub fn take_part(&mut self, pages: u32, caller: u16) -> Option<Part>
        requires least { 1 ≤ pages }
        requires most { pages ≤ self.old.pages }
        ensures place { IfSome result (λ part. rows.part_to_cut pages self.old
            ≡ Some (at_of self.old.cpu part)) }
        ensures order { IfSome result (λ part. part.order ≡ binary_digits (pages - 1)) }
        ensures pages { IfSome result (λ part. part.pages ≡ pages) }
        ensures caller { IfSome result (λ part. part.caller ≡ caller) }
        ensures cut { IfSome result
            (λ part. self.new ≡ rows.with_cut caller (at_of self.old.cpu part) self.old) }
        ensures none { IfNone result (rows.part_to_cut pages self.old ≡ None) }
        ensures unchanged { IfNone result (self.new ≡ self.old) }
    {
        let start = first_with_room(&self.blocks, &self.queue, rounded(pages))?;
        let Some(block) = self.blocks.get_mut(&start) else {
            unreachable!();
        };
        let offset = block.cut(pages, caller);
        let part = Part {
            block: start,
            offset,
            order: order_of(pages),
            pages,
            caller,
        };
        if block.free() == 0 {
            unqueue(&mut self.queue, start);
        }
        Some(part)
    }

    /// A new block, of which a caller has the first part in hand, as `new_vmap_block` of the kernel makes one. An error,
    /// which also comes after 2 ^ 64 - 1 blocks, leaves all as it was.
    pub fn add_block(&mut self, start: u32, pages: u32, caller: u16) -> Result<Part, AllocError>
        requires least { 1 ≤ pages }
        requires most { pages ≤ self.old.pages }
        requires end { start + self.old.pages ≤ 1048576 }
        requires unused { IsUnused self.old (span start self.old.pages) }
        ensures part { IfOk result (λ part. part ≡ record {
          block = start;
          offset = 0;
          order = binary_digits (pages - 1);
          pages = pages;
          caller = caller;
        }) }
        ensures added { IfOk result
            (λ part. self.new ≡ rows.with_block caller (at_of self.old.cpu part) self.old) }
        ensures unchanged { OnErr result (self.new ≡ self.old) }
    {
        let number = self.added;
        let added = number.checked_add(1).ok_or(AllocError)?;
        let mut block = KeptBlock::new(self.alloc, number, self.cpu, start, self.pages)?;
        let part = Part {
            block: start,
            offset: block.cut(pages, caller),
            order: order_of(pages),
            pages,
            caller,
        };
        let has_room = block.free() > 0;
        self.queue.reserve(1)?;
        put_block(&mut self.blocks, start, block)?;
        self.added = added;
        if has_room {
            self.queue.push_reserved(start);
        }
        Ok(part)
    }

    /// A part that is in hand lives from here on, and gets the next serial, from 1. It takes no memory.
    pub fn settle(&mut self, part: &Part) -> u32
        requires held { IsHeld (at_of self.old.cpu part.now) self.old.blocks }
        requires next { self.old.next < 4294967295 }
        ensures serial { result ≡ self.old.next }
        ensures settled { self.new ≡ rows.with_settled (at_of self.old.cpu part.now) self.old }
    {
        let serial = self.next;
        let Some(block) = self.blocks.get_mut(&part.block) else {
            unreachable!();
        };
        block.settle(part.offset, serial);
        self.next = serial + 1;
        serial
    }

    /// A caller takes the live part in hand that has this first page and serial, as `vb_free` of the kernel begins. None
    /// where there is none, and then nothing is changed. It takes no memory.
    pub fn begin_unmap(&mut self, start: u32, serial: u32, caller: u16) -> Option<Part>
        ensures place { IfSome result (λ part. rows.named_parts start serial self.old
            ≡ at_of self.old.cpu part ∷ []) }
        ensures order { IfSome result (λ part. part.order ≡ binary_digits (part.pages - 1)) }
        ensures caller { IfSome result (λ part. part.caller ≡ caller) }
        ensures held { IfSome result
            (λ part. self.new ≡ rows.with_held caller (at_of self.old.cpu part) self.old) }
        ensures none { IfNone result (rows.named_parts start serial self.old ≡ []) }
        ensures unchanged { IfNone result (self.new ≡ self.old) }
    {
        let (block, _) = self.blocks.range(..=start).next_back()?;
        let block = *block;
        let offset = start - block;
        let Some(kept) = self.blocks.get_mut(&block) else {
            unreachable!();
        };
        let pages = kept.take_up(offset, serial, caller)?;
        Some(Part {
            block,
            offset,
            order: order_of(pages),
            pages,
            caller,
        })
    }

    /// A part that is in hand has ended, as at the end of `vb_free`: its block's dirty range is as wide as all pages take
    /// that it has of the block, also where it was never mapped. Where all pages of the block are in ended parts then, the
    /// block is gone, as by `free_vmap_block`, and this gives its start. It takes no memory.
    pub fn retire(&mut self, part: &Part) -> Option<u32>
        requires held { IsHeld (at_of self.old.cpu part.now) self.old.blocks }
        ensures start { IfSome result (λ start. start ≡ part.now.block) }
        ensures some { OnSome result (rows.spends (at_of self.old.cpu part.now) self.old ≡ true) }
        ensures none { IfNone result (rows.spends (at_of self.old.cpu part.now) self.old ≡ false) }
        ensures ended { self.new ≡ rows.with_ended (at_of self.old.cpu part.now) self.old }
    {
        let Some(block) = self.blocks.get_mut(&part.block) else {
            unreachable!();
        };
        block.end(part.offset);
        if block.is_spent() {
            self.blocks.remove(&part.block);
            return Some(part.block);
        }
        None
    }

    /// How many blocks `take_fragmented` would take away. It takes no memory.
    pub fn fragmented(&self) -> usize
        ensures { result ≡ length (rows.fragmented self.now) }
    {
        fragmented_count(&self.blocks, &self.queue)
    }

    /// Takes the blocks away of which each part has ended and some page was never in one, as the kernel's
    /// `purge_fragmented_blocks`, and gives their starts in the order in which they were added. It takes memory for these
    /// starts alone, and an error leaves all as it was.
    pub fn take_fragmented(&mut self) -> Result<StartList, AllocError>
        ensures starts { IfOk result (λ starts. starts ≡ rows.fragmented self.old) }
        ensures gone { OnOk result
            (self.new ≡ rows.without_blocks (rows.fragmented self.old) self.old) }
        ensures memory { OnErr result (rows.fragmented self.old ≢ []) }
        ensures unchanged { OnErr result (self.new ≡ self.old) }
    {
        let gone = fragmented_starts(self.alloc, &self.blocks, &self.queue)?;
        unqueue_fragmented(&mut self.queue, &self.blocks);
        remove_all(&mut self.blocks, &gone);
        Ok(StartList::of(gone))
    }

    /// From the first to the last page that is in an ended part of a block in use: what `_vm_unmap_aliases` of the kernel
    /// flushes for a processor. It takes no memory.
    pub fn dirty_hull(&self) -> Option<Span>
        ensures hull { result ≡ model.dirty_hull self.now.cpu self.now.blocks }
        ensures none { IsNone result ↔ (All IsClean self.now.blocks) }
    {
        let mut hull = None;
        for block in self.blocks.values() {
            if let Some(range) = block.dirty_range() {
                hull = Some(wider(range, hull));
            }
        }
        hull
    }

    /// What its fields keep of the pages of blocks and parts.
    pub(crate) fn keeps_apart(&self)
        ensures apart { All (λ (b : Block). ShareNoPage (part_spans b)) self.now.blocks }
        ensures inside { All (λ (b : Block). All (LiesIn (block_span self.now.pages b))
            (part_spans b)) self.now.blocks }
        ensures blocks { ShareNoPage (map (block_span self.now.pages) self.now.blocks) }
    {
        let _pages = self.pages;
    }

    /// How many blocks there are.
    pub fn blocks(&self) -> u32
        ensures { result ≡ length (rows.block_table self.now) }
    {
        self.blocks.len() as u32
    }

    /// How many live parts they have. It takes time for each part.
    pub fn parts(&self) -> u32
        ensures { result ≡ length (rows.part_table self.now) }
    {
        let mut parts = 0;
        for block in self.blocks.values() {
            parts += block.live();
        }
        parts
    }

    /// A block by its place among all by rising start, from 0. It takes time for all before it, and no memory.
    pub fn block_at(&self, index: u32) -> BlockRow
        requires { index < length (rows.block_table self.now) }
        ensures { slice_get (rows.block_table self.now) index ≡ Some result }
    {
        let mut left = index;
        for block in self.blocks.values() {
            if left == 0 {
                return block.row();
            }
            left -= 1;
        }
        unreachable!()
    }

    /// A live part by its place among all by rising start, from 0. It takes time for all before it, and no memory.
    pub fn part_at(&self, index: u32) -> PartRow
        requires { index < length (rows.part_table self.now) }
        ensures { slice_get (rows.part_table self.now) index ≡ Some result }
    {
        let mut left = index;
        for block in self.blocks.values() {
            let live = block.live();
            if left < live {
                return block.live_at(left);
            }
            left -= live;
        }
        unreachable!()
    }

    /// All blocks by rising start, in one pass. An error comes only for want of memory.
    pub fn block_rows(&self) -> Result<BlockList, AllocError>
        ensures { IfOk result (λ list. list ≡ rows.block_table self.now) }
    {
        let mut list = Vec::with_capacity(self.alloc, self.blocks.len())?;
        for block in self.blocks.values() {
            list.push(block.row())?;
        }
        Ok(BlockList::of(list))
    }

    /// All live parts by rising start, in one pass. An error comes only for want of memory.
    pub fn part_rows(&self) -> Result<PartList, AllocError>
        ensures { IfOk result (λ list. list ≡ rows.part_table self.now) }
    {
        let mut list = Vec::new(self.alloc);
        for block in self.blocks.values() {
            block.put_rows(&mut list)?;
        }
        Ok(PartList::of(list))
    }
}
