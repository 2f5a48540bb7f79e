//! Drawn calls of chunks and of a balance, and the same calls of plain lists.
use crate::counted::Counted;
use crate::draws::Draws;
use crate::plain::{PlainChunk, PlainObject, Sought, first_by_slot};
use chunk_slots::Placed;
use std::alloc::{AllocError, Global};
use std::process::Abort;

/// So many pages has each unit.
const PAGES: u32 = 8;

/// A side, and its chunks as plain lists.
#[derive(Drop)]
struct Both {
    alloc: Global,
    side: Counted,
    chunks: Vec<PlainChunk>,
}

impl Both {
    /// The index of the plain chunk with a number.
    fn index_of(&self, rt: &impl Abort, number: u32) -> usize {
        let found = self.chunks.iter().position(|chunk| chunk.number == number);
        assert!(rt; found.is_some());
        found.unwrap_or(0)
    }

    /// Compares a place with the one that the plain lists choose.
    fn compare_place(&self, rt: &impl Abort, placed: &Placed, chosen: Option<(usize, usize)>) {
        let (index, word) = chosen.unwrap_or((usize::MAX, 0));
        assert!(rt; index < self.chunks.len());
        let chunk = &self.chunks[index];
        assert!(rt; placed.chunk == chunk.number && placed.base == chunk.base);
        assert!(rt; placed.off as usize == word.saturating_mul(4));
        for page in 0..PAGES {
            let inside = placed.off < 4096 * (page + 1)
                && 4096 * page < placed.off.saturating_add(placed.bytes);
            let populated = chunk.pages.get(page as usize) == Some(&true);
            assert!(rt; placed.missing.contains(page) == (inside && !populated));
        }
    }

    /// Places an object where the plain lists choose to; where no chunk has a fit, and it is not atomic, in a new one.
    fn place(
        &mut self,
        rt: &impl Abort,
        bytes: u32,
        align: u32,
        atomic: bool,
    ) -> Result<Option<Placed>, AllocError> {
        let sought = Sought::Words {
            count: bytes / 4,
            align: align / 4,
            atomic,
        };
        let chosen = first_by_slot(rt, &self.chunks, sought);
        if let Some(placed) = self.side.place(rt, bytes, align, atomic) {
            self.compare_place(rt, &placed, chosen);
            return Ok(Some(placed));
        }
        assert!(rt; chosen.is_none());
        if atomic {
            return Ok(None);
        }
        let number = self.side.side().next_chunk();
        let base = number.saturating_mul(100);
        self.chunks
            .push(PlainChunk::new(self.alloc, number, base, PAGES)?)?;
        let chosen = first_by_slot(rt, &self.chunks, sought);
        let placed = self.side.add_and_place(rt, base, bytes, align)?;
        self.compare_place(rt, &placed, chosen);
        Ok(Some(placed))
    }

    /// A placed object lives from here on in both, or is gone again.
    fn end_place(
        &mut self,
        rt: &impl Abort,
        placed: &Placed,
        stays: bool,
    ) -> Result<(), AllocError> {
        if !stays {
            self.side.unplace(rt, placed);
            return Ok(());
        }
        assert!(rt; self.side.free(placed.chunk, placed.off, 0).is_none());
        let serial = self.side.settle(rt, placed);
        let index = self.index_of(rt, placed.chunk);
        assert!(rt; index < self.chunks.len());
        let chunk = &mut self.chunks[index];
        chunk.mark(placed.off, placed.bytes, true);
        chunk.populate(placed.off, placed.bytes);
        chunk.objects.push(PlainObject {
            off: placed.off,
            bytes: placed.bytes,
            serial,
        })?;
        Ok(())
    }

    /// Frees an object of a chunk in both, and once more, which finds nothing.
    fn free(&mut self, rt: &impl Abort, draw: u32) {
        if self.chunks.is_empty() {
            return;
        }
        let index = draw as usize % self.chunks.len();
        let chunk = &mut self.chunks[index];
        if chunk.objects.is_empty() {
            return;
        }
        let object = draw as usize % chunk.objects.len();
        let object = chunk.objects.swap_remove(object);
        chunk.mark(object.off, object.bytes, false);
        let freed = self.side.free(chunk.number, object.off, object.serial);
        assert!(rt; freed == Some(object.bytes));
        assert!(rt;
            self.side
                .free(chunk.number, object.off, object.serial)
                .is_none()
        );
    }

    /// The index of the second chunk without an object.
    fn second_unused(&self) -> Option<usize> {
        let mut seen = false;
        for (index, chunk) in self.chunks.iter().enumerate() {
            if !chunk.objects.is_empty() {
                continue;
            }
            if seen {
                return Some(index);
            }
            seen = true;
        }
        None
    }

    /// Gives up a chunk in both.
    fn give_up(&mut self, rt: &impl Abort) {
        let second = self.second_unused();
        let spare = self.side.give_up();
        assert!(rt; spare.is_some() == second.is_some());
        let (Some(spare), Some(index)) = (spare, second) else {
            return;
        };
        assert!(rt; index < self.chunks.len());
        let gone = self.chunks.remove(index);
        assert!(rt; spare.chunk == gone.number && spare.base == gone.base);
        assert!(rt; spare.populated.count(PAGES) as usize == gone.populated());
    }

    /// How many populated pages have no taken word, over all chunks.
    fn empty(&self) -> u32 {
        let mut empty: u32 = 0;
        for chunk in &self.chunks {
            empty = empty.saturating_add(chunk.empty());
        }
        empty
    }

    /// Fills a page in both.
    fn fill(&mut self, rt: &impl Abort) {
        let chosen = if self.empty() >= 4 {
            None
        } else {
            first_by_slot(rt, &self.chunks, Sought::Unpopulated)
        };
        let filled = self.side.fill(rt);
        assert!(rt; filled.is_some() == chosen.is_some());
        let (Some(filled), Some((index, page))) = (filled, chosen) else {
            return;
        };
        assert!(rt; index < self.chunks.len());
        let chunk = &mut self.chunks[index];
        assert!(rt; filled.chunk == chunk.number && filled.base == chunk.base);
        assert!(rt; filled.page as usize == page);
        chunk.populate(filled.page.saturating_mul(4096), 4);
    }

    /// Compares the rows of all chunks with what a scan of the plain lists finds.
    fn compare_chunks(&self, rt: &impl Abort) -> Result<(), AllocError> {
        let rows = self.side.side().chunk_rows(self.alloc)?;
        assert!(rt; rows.len() == self.chunks.len());
        for (row, chunk) in rows.iter().zip(&self.chunks) {
            assert!(rt; row.chunk == chunk.number && row.base == chunk.base);
            assert!(rt; row.slot == chunk.slot(rt));
            assert!(rt; row.free as usize == chunk.free().saturating_mul(4));
            assert!(rt; row.populated as usize == chunk.populated());
            assert!(rt; row.empty == chunk.empty());
            assert!(rt; (row.run_start, row.run) == chunk.longest(rt));
        }
        assert!(rt; self.side.side().empty_pages() == u64::from(self.empty()));
        Ok(())
    }

    /// Compares the rows of all live objects with those of the plain lists.
    fn compare_objects(&self, rt: &impl Abort) -> Result<(), AllocError> {
        let rows = self.side.side().object_rows(self.alloc)?;
        for row in &rows {
            let index = self.index_of(rt, row.chunk);
            assert!(rt; index < self.chunks.len());
            let objects = &self.chunks[index].objects;
            let object = objects.iter().find(|object| object.serial == row.serial);
            assert!(rt;
                object.map(|object| (object.off, object.bytes)) == Some((row.off, row.bytes))
            );
        }
        let mut objects: usize = 0;
        for chunk in &self.chunks {
            objects = objects.saturating_add(chunk.objects.len());
        }
        assert!(rt; rows.len() == objects);
        Ok(())
    }

    /// Makes a drawn call in both.
    fn step(&mut self, rt: &impl Abort, draws: &mut Draws) -> Result<(), AllocError> {
        let kind = draws.below(10);
        if kind < 5 {
            let most = 1 << draws.below(14);
            let bytes = 4 * (1 + draws.below(most)).min(8_192);
            let align = 4 << draws.below(11);
            if let Some(placed) = self.place(rt, bytes, align, kind == 4)? {
                self.end_place(rt, &placed, draws.below(5) > 0)?;
            }
            return Ok(());
        }
        match kind {
            5 => self.fill(rt),
            6 => self.give_up(rt),
            _ => self.free(rt, draws.below(65_536)),
        }
        Ok(())
    }
}

#[test]
fn drawn_calls_beside_plain_lists(rt: HostRuntime) -> Result<(), AllocError> {
    let alloc = rt.alloc();
    let mut draws = Draws { state: 77 };
    let mut both = Both {
        alloc,
        side: Counted::new(alloc, PAGES, 300)?,
        chunks: Vec::new(alloc),
    };
    for _ in 0..300 {
        both.step(&rt, &mut draws)?;
        both.compare_chunks(&rt)?;
        both.compare_objects(&rt)?;
    }
    Ok(())
}
