//! Drawn objects of a chunk with hints, and the same bits in a plain list.
ghost use Rattle.std.specs.Prelude.{◌<◌, ◌≤◌};

use crate::draws::Draws;
use crate::plain_bits::{hint_numbers, lowest_fit, run_at, set_bits};
use block_hints::HintedChunk;
use std::alloc::{AllocError, Global};
use std::process::Abort;
use vm_model::{Hint, PageSet};

/// A chunk, its bits in a plain list, and its objects by their first bits and their sizes.
#[derive(Drop)]
struct Both {
    chunk: HintedChunk,
    bits: Vec<bool>,
    objects: Vec<(u32, u32)>,
}

fn numbers(hint: Hint) -> [usize; 5] {
    [
        hint.run_start as usize,
        hint.run as usize,
        hint.left as usize,
        hint.right as usize,
        hint.first as usize,
    ]
}

impl Both {
    fn new(alloc: Global, pages: u32) -> Result<Both, AllocError>
        requires low { 1 ≤ pages }
        requires high { pages ≤ 64 }
    {
        Ok(Both {
            chunk: HintedChunk::new(alloc, pages)?,
            bits: vec![in alloc; false; 1024 * pages as usize]?,
            objects: Vec::new(alloc),
        })
    }

    /// Places an object in both, among the pages of the set.
    fn place(
        &mut self,
        rt: &impl Abort,
        count: u32,
        align: u32,
        pages: PageSet,
    ) -> Result<(), AllocError>
        requires count { 1 ≤ count }
        requires align { 1 ≤ align }
    {
        assert!(rt; self.bits.len() <= 65_536);
        let wanted = lowest_fit(&self.bits, count as usize, align as usize, pages);
        let at = if pages.mask == u64::MAX {
            self.chunk.place(count, align)
        } else {
            self.chunk.place_populated(count, align, pages)
        };
        assert!(rt; at.map(|at| at as usize) == wanted);
        if let Some(at) = at {
            set_bits(&mut self.bits, at, count, true);
            self.objects.push((at, count))?;
        }
        Ok(())
    }

    /// Frees one of the objects in both, and once more, which finds nothing.
    fn free(&mut self, rt: &impl Abort, draw: u32) {
        if self.objects.is_empty() {
            return;
        }
        let index = draw as usize % self.objects.len();
        let (at, count) = self.objects.swap_remove(index);
        assert!(rt; at < self.chunk.bits().len());
        assert!(rt; self.chunk.free(at) == Some(count));
        assert!(rt; self.chunk.free(at).is_none());
        set_bits(&mut self.bits, at, count, false);
    }

    /// Compares all hints, and the run at a place.
    fn compare(&self, rt: &impl Abort, place: u32) {
        let bits = self.chunk.bits();
        assert!(rt; self.bits.len() == bits.len() as usize);
        assert!(rt; numbers(self.chunk.longest()) == hint_numbers(&self.bits));
        for block in 0..bits.len() / 1024 {
            let first = 1024 * block as usize;
            let plain = hint_numbers(&self.bits[first..first + 1024]);
            assert!(rt; numbers(self.chunk.hint(block)) == plain);
        }
        let place = place % (bits.len() + 1);
        assert!(rt; bits.run_at(place) as usize == run_at(&self.bits, place));
    }
}

/// So many drawn calls of a chunk, with objects of fewer bits than a limit.
fn drawn_calls(
    rt: &impl Abort,
    alloc: Global,
    pages: u32,
    calls: u32,
    limit: u32,
) -> Result<(), AllocError>
    requires low { 1 ≤ pages }
    requires high { pages ≤ 64 }
    requires limit { 1 < limit }
{
    let mut draws = Draws {
        state: u64::from(limit),
    };
    let mut both = Both::new(alloc, pages)?;
    for _ in 0..calls {
        let count = 1 + draws.below(limit - 1);
        let align = 1 << draws.below(11);
        match draws.below(8) {
            0..=3 => both.place(rt, count, align, PageSet { mask: u64::MAX })?,
            4 => both.place(
                rt,
                count,
                1,
                PageSet {
                    mask: u64::from(draws.below(64)),
                },
            )?,
            _ => both.free(rt, draws.below(4_096)),
        }
        both.compare(rt, draws.below(65_536));
    }
    Ok(())
}

#[test]
fn drawn_calls_beside_plain_bits(rt: HostRuntime) -> Result<(), AllocError> {
    for (pages, calls, limit) in [(1, 500, 24), (3, 500, 1_400), (4, 500, 90), (2, 500, 5)] {
        drawn_calls(&rt, rt.alloc(), pages, calls, limit)?;
    }
    Ok(())
}
