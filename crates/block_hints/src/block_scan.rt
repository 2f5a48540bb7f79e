//! The hint of a block by a scan of its bits, run by run: `pcpu_block_refresh_hint`.
ghost use Rattle.std.specs.Prelude.{◌+◌, ◌*◌, ◌≤◌};
ghost use Rattle.chunk_bitmaps.specs.ChunkMap.{taken_bits};
ghost use Rattle.block_hints.specs.KeptHints.{IsBlockIn};

use chunk_bitmaps::{BLOCK_BITS, ChunkBits};
use vm_model::Hint;

/// What is kept of a block: the kernel's `struct pcpu_block_md`. All numbers are bits from the block's first one.
#[derive(Clone, Copy)]
pub(crate) struct Block {
    /// The longest run, and what is free and taken at the ends.
    pub(crate) hint: Hint,
    /// How many bits a run before that one has at most: `scan_hint`. A longer object fits at the longest run at the earliest.
    pub(crate) before: u32,
    /// The same of the runs behind that one.
    pub(crate) behind: u32,
}

/// What is to be kept of a block. It takes time for each run of the block and each word of it.
pub(crate) fn scan_block(bits: &ChunkBits, block: u32) -> Block
    requires { 1024 * block + 1024 ≤ bits.now.bits }
    ensures { IsBlockIn (taken_bits bits.now) (1024 * block) (1024 * block + 1024) result }
{
    let _few = bits.len();
    let low = BLOCK_BITS * block;
    let high = low + BLOCK_BITS;
    let mut run_start = low;
    let mut run = 0;
    let mut before = 0;
    let mut behind = 0;
    let mut right = 0;
    let first = bits.find_next(false, low, high);
    let mut place = first;
    while place < high {
        let start = bits.find_next(false, place, high);
        let end = bits.find_next(true, start, high);
        if end - start > run {
            before = run;
            behind = 0;
            run_start = start;
            run = end - start;
        } else {
            behind = behind.max(end - start);
        }
        right = if end < high { 0 } else { end - start };
        place = end + 1;
    }
    let hint = Hint {
        run_start: run_start - low,
        run,
        left: bits.find_next(true, low, high) - low,
        right,
        first: first - low,
    };
    Block {
        hint,
        before,
        behind,
    }
}
