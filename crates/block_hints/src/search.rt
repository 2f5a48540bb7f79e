//! The search for a place in the bits of a chunk, which looks at the hints of the blocks: `pcpu_find_block_fit` and
//! `pcpu_alloc_area`.
ghost use Rattle.std.specs.Prelude.{◌≡◌, nat_le, max, if◌then◌else◌, ◌+◌, ◌-◌, ◌*◌, ◌<◌, ◌≤◌, length};
ghost use Rattle.vm_model.specs.Space.{lowest};
ghost use Rattle.vm_model.specs.Hints.{IsHintIn};
ghost use Rattle.chunk_bitmaps.specs.ChunkMap.{taken_bits};
ghost use Rattle.block_hints.specs.KeptHints.{AreHints};
ghost use Rattle.block_hints.specs.Populated.{blocked_bits};
ghost use Rattle.block_hints.specs.FirstMultiples.{IsFirstMultiple};

use crate::block_scan::Block;
use chunk_bitmaps::{BLOCK_BITS, ChunkBits};
use vm_model::{Hint, PageSet};

/// The first multiple of the alignment between two places from which so many bits end at the second one at most.
fn first_multiple(from: u32, to: u32, bits: u32, align: u32) -> Option<u32>
    requires bits { 1 ≤ bits }
    requires align { 1 ≤ align }
    ensures { IsFirstMultiple from to bits align result }
{
    if u64::from(from) + u64::from(bits) > u64::from(to) {
        return None;
    }
    let start = u64::from(from).next_multiple_of(u64::from(align));
    if start + u64::from(bits) <= u64::from(to) {
        Some(start as u32)
    } else {
        None
    }
}

/// How many bits of a block a search may pass over that has tried its front: those before the longest run, where no run
/// among them is long enough, as `pcpu_next_hint` tells it.
fn skipped(block: Block, count: u32) -> u32
    ensures { result ≡ (if nat_le count block.before then block.hint.left
        else max block.hint.left block.hint.run_start) }
{
    if count <= block.before {
        block.hint.left
    } else {
        block.hint.left.max(block.hint.run_start)
    }
}

/// The lowest fit of so many bits at a multiple of the alignment whose pages are all in the set. It takes time for each
/// block from the first free bit on, and looks at the bits of a block only where its longest run is long enough, and only from there on where each
/// run before it is too short.
pub(crate) fn lowest_fit(
    bits: &ChunkBits,
    blocks: &[Block],
    chunk: Hint,
    count: u32,
    align: u32,
    pages: PageSet,
) -> Option<u32>
    requires few { length blocks.now ≤ 64 }
    requires size { bits.now.bits ≡ 1024 * length blocks.now }
    requires blocks { AreHints (taken_bits bits.now) blocks.now }
    requires chunk { IsHintIn (taken_bits bits.now) 0 bits.now.bits chunk }
    requires count { 1 ≤ count }
    requires align { 1 ≤ align }
    ensures { result ≡ lowest (blocked_bits pages bits.now) count align }
{
    let _few = bits.len();
    let first = chunk.first / BLOCK_BITS;
    let mut from = BLOCK_BITS * first;
    for block in first..blocks.len() as u32 {
        let low = BLOCK_BITS * block;
        if !pages.contains(block) {
            from = low + BLOCK_BITS;
            continue;
        }
        let Block { hint, .. } = blocks[block as usize];
        let at = first_multiple(from, low + hint.left, count, align);
        if at.is_some() {
            return at;
        }
        if hint.left < BLOCK_BITS {
            if count <= hint.run {
                let skip = skipped(blocks[block as usize], count);
                let at = bits.first_fit_between(low + skip, low + BLOCK_BITS, count, align);
                if at.is_some() {
                    return at;
                }
            }
            from = low + BLOCK_BITS - hint.right;
        }
    }
    None
}
