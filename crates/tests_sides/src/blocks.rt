//! Blocks of eight pages and their parts.

use map_blocks::{BlockSide, Part};
use std::alloc::{AllocError, Global};
use std::collections::VecDeque;
use vm_model::{BlockRow, PartRow, Span};

/// A call, and what it gives. Those that want a part in hand get the one that is there longest.
#[derive(Clone, Copy)]
enum Step {
    /// The pages of a part, and its block, offset and order.
    Take(u32, Option<(u32, u32, u8)>),
    /// A new block, and the pages and order of its first part.
    Add(u32, u32, u8),
    /// The part's serial.
    Settle(u32),
    /// A first page and a serial, and the part's pages.
    Begin(u32, u32, Option<u32>),
    /// The spent block.
    Retire(Option<u32>),
    /// The fragmented blocks.
    Fragmented(&'static [u32]),
    /// The first page of the dirty hull, and its pages.
    Hull(Option<(u32, u32)>),
    /// The start of each block, its free and its dirty pages, and its dirty range.
    Blocks(&'static [(u32, u32, u32, u32, u32)]),
    /// The first page of each live part, its pages and its serial.
    Parts(&'static [(u32, u32, u32)]),
}

const STEPS: [Step; 62] = [
    Step::Take(3, None),
    Step::Add(16, 3, 2),
    Step::Settle(1),
    Step::Take(1, Some((16, 4, 0))),
    Step::Take(3, None),
    Step::Take(2, Some((16, 5, 1))),
    Step::Add(0, 8, 3),
    Step::Take(1, Some((16, 7, 0))),
    Step::Take(1, None),
    Step::Hull(None),
    Step::Blocks(&[(0, 0, 0, 0, 0), (16, 0, 0, 0, 0)]),
    // One page from offset 4 on, which was never mapped.
    Step::Retire(None),
    Step::Hull(Some((20, 1))),
    Step::Settle(2),
    Step::Parts(&[(16, 3, 1), (21, 2, 2)]),
    // All eight pages of the block at 0.
    Step::Retire(Some(0)),
    Step::Hull(Some((20, 1))),
    Step::Fragmented(&[]),
    Step::Begin(16, 2, None),
    Step::Begin(21, 1, None),
    Step::Begin(17, 1, None),
    Step::Begin(16, 1, Some(3)),
    Step::Begin(16, 1, None),
    Step::Parts(&[(21, 2, 2)]),
    // One page from offset 7 on, and then three, which take four, from 0 on.
    Step::Retire(None),
    Step::Hull(Some((20, 4))),
    Step::Retire(None),
    Step::Blocks(&[(16, 0, 6, 0, 8)]),
    Step::Hull(Some((16, 8))),
    Step::Fragmented(&[]),
    Step::Begin(21, 2, Some(2)),
    Step::Retire(Some(16)),
    Step::Hull(None),
    Step::Blocks(&[]),
    Step::Add(40, 5, 3),
    Step::Add(32, 2, 1),
    Step::Add(64, 4, 2),
    Step::Take(3, Some((32, 2, 2))),
    Step::Take(4, Some((64, 4, 2))),
    Step::Settle(3),
    // Two pages of the block at 32, four of that at 64, and then three, which take four, of that at 32.
    Step::Retire(None),
    Step::Fragmented(&[]),
    Step::Retire(None),
    Step::Retire(None),
    Step::Blocks(&[(32, 2, 6, 0, 6), (40, 0, 0, 0, 0), (64, 0, 4, 0, 4)]),
    Step::Hull(Some((32, 36))),
    Step::Fragmented(&[32]),
    Step::Hull(Some((64, 4))),
    Step::Retire(Some(64)),
    Step::Fragmented(&[]),
    Step::Parts(&[(40, 5, 3)]),
    Step::Begin(40, 3, Some(5)),
    Step::Retire(Some(40)),
    // Two fragmented blocks, the later one below the other.
    Step::Add(96, 1, 0),
    Step::Add(80, 1, 0),
    Step::Retire(None),
    Step::Retire(None),
    Step::Hull(Some((80, 17))),
    Step::Fragmented(&[96, 80]),
    Step::Blocks(&[]),
    Step::Take(1, None),
    Step::Hull(None),
];

/// The blocks of processor 1, and the parts that are in hand.
#[derive(Drop)]
struct Held {
    side: BlockSide,
    hand: VecDeque<Part>,
}

fn block_told(row: &BlockRow) -> (u32, u32, u32, u32, u32) {
    (row.start, row.free, row.dirty, row.low, row.high)
}

fn part_told(row: &PartRow) -> (u32, u32, u32) {
    (row.span.start, row.span.pages, row.serial)
}

impl Held {
    fn new(alloc: Global) -> Held {
        Held {
            side: BlockSide::new(alloc, 1, 8),
            hand: VecDeque::new(alloc),
        }
    }

    /// Takes a part into the hand, and tells its block, offset and order.
    fn hold(&mut self, part: Option<Part>) -> Result<Option<(u32, u32, u8)>, AllocError> {
        if let Some(part) = part {
            self.hand.push_back(part)?;
        }
        Ok(part.map(|part| (part.block, part.offset, part.order)))
    }

    fn add(&mut self, start: u32, pages: u32) -> Result<Option<(u32, u32, u8)>, AllocError> {
        if pages == 0 || pages > self.side.pages() || !self.side.is_unused(start) {
            return Ok(None);
        }
        let part = self.side.add_block(start, pages, 7)?;
        self.hold(Some(part))
    }

    fn take(&mut self, pages: u32) -> Result<Option<(u32, u32, u8)>, AllocError> {
        if pages == 0 || pages > self.side.pages() {
            return Ok(None);
        }
        let part = self.side.take_part(pages, 7);
        self.hold(part)
    }

    fn settle(&mut self) -> Option<u32> {
        let part = self.hand.pop_front()?;
        if !self.side.is_held(&part) || !self.side.has_serial() {
            return None;
        }
        Some(self.side.settle(&part))
    }

    fn begin(&mut self, page: u32, serial: u32) -> Result<Option<u32>, AllocError> {
        let part = self.side.begin_unmap(page, serial, 9);
        self.hold(part)?;
        Ok(part.map(|part| part.pages))
    }

    fn retire(&mut self) -> Option<Option<u32>> {
        let part = self.hand.pop_front()?;
        if !self.side.is_held(&part) {
            return None;
        }
        Some(self.side.retire(&part))
    }

    fn blocks(&self, alloc: Global) -> Result<Vec<(u32, u32, u32, u32, u32)>, AllocError> {
        let rows = self.side.block_rows()?;
        rows.as_slice().iter().map(block_told).collect(alloc)
    }

    fn parts(&self, alloc: Global) -> Result<Vec<(u32, u32, u32)>, AllocError> {
        let rows = self.side.part_rows()?;
        rows.as_slice().iter().map(part_told).collect(alloc)
    }

    /// Whether a step gives what it says.
    fn gives(&mut self, alloc: Global, step: Step) -> Result<bool, AllocError> {
        Ok(match step {
            Step::Take(pages, wanted) => self.take(pages)? == wanted,
            Step::Add(start, pages, order) => self.add(start, pages)? == Some((start, 0, order)),
            Step::Settle(serial) => self.settle() == Some(serial),
            Step::Begin(page, serial, wanted) => self.begin(page, serial)? == wanted,
            Step::Retire(spent) => self.retire() == Some(spent),
            Step::Fragmented(starts) => self.side.take_fragmented()?.as_slice() == starts,
            Step::Hull(wanted) => {
                self.side.dirty_hull() == wanted.map(|(start, pages)| Span { start, pages })
            }
            Step::Blocks(wanted) => self.blocks(alloc)?.as_slice() == wanted,
            Step::Parts(wanted) => self.parts(alloc)?.as_slice() == wanted,
        })
    }
}

#[test]
fn cuts_and_ends_parts(rt: HostRuntime) -> Result<(), AllocError> {
    let mut held = Held::new(rt.alloc());
    for (index, step) in STEPS.into_iter().enumerate() {
        assert!(rt; held.gives(rt.alloc(), step)?, "{index}");
    }
    assert!(rt; held.hand.is_empty());
    Ok(())
}
