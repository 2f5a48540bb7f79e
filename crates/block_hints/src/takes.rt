//! What is kept of bits once an object is put among them, also where it cuts their longest run: as
//! `pcpu_block_update_hint_alloc` mends it.
ghost use Rattle.std.specs.Prelude.{◌≡◌, ◌≢◌, ◌+◌, ◌-◌, ◌*◌, ◌≤◌, ◌<◌, ◌&&◌, ℕ, true, false, nat_lt, IfSome, length, drop};
ghost use Rattle.vm_model.specs.Space.{span, holds, paint, begins_free};
ghost use Rattle.vm_model.specs.Hints.{IsHintIn};
ghost use Rattle.chunk_bitmaps.specs.Bitmap.{IsNextBit};
ghost use Rattle.chunk_bitmaps.specs.ChunkMap.{taken_bits};
ghost use Rattle.block_hints.specs.Taken.{WasBlockIn, WasPartIn, WereHints};
ghost use Rattle.block_hints.specs.KeptHints.{hint_around, block_cut, AreHints, IsBlockIn};

use crate::block_scan::{Block, scan_block};
use chunk_bitmaps::{BLOCK_BITS, ChunkBits};
use vm_model::Hint;

/// Whether the longest run has a bit between two places.
fn is_cut(hint: Hint, at: u32, end: u32) -> bool
    requires { hint.run_start + hint.run < 4294967296 }
    ensures { result ≡ (nat_lt at (hint.run_start + hint.run) && nat_lt hint.run_start end) }
{
    at < hint.run_start + hint.run && hint.run_start < end
}

/// The hint with the bits between two places taken. Its longest run is left as it is.
fn around(hint: Hint, bits: u32, at: u32, end: u32, first: u32) -> Hint
    requires { end ≤ bits }
    ensures { result ≡ hint_around bits at end first hint }
{
    Hint {
        run_start: hint.run_start,
        run: hint.run,
        left: if at < hint.left { at } else { hint.left },
        right: if bits - end < hint.right {
            bits - end
        } else {
            hint.right
        },
        first,
    }
}

/// The longest run and what is known of the others, once the bits between two places of that run are taken: it is the
/// longer of what is left on both sides. It gives none where another run may be longer.
fn with_run_cut(block: Block, at: u32, end: u32) -> Option<Block>
    requires start { block.hint.run_start ≤ at }
    requires end { end ≤ block.hint.run_start + block.hint.run }
    requires few { block.hint.run_start + block.hint.run < 4294967296 }
    ensures { result ≡ block_cut at end block }
{
    let Block {
        hint,
        before,
        behind,
    } = block;
    let front = at - hint.run_start;
    let back = hint.run_start + hint.run - end;
    if front >= back && front > before && front >= behind {
        Some(Block {
            hint: Hint { run: front, ..hint },
            before,
            behind: back.max(behind),
        })
    } else if back > front && back > before && back >= behind {
        Some(Block {
            hint: Hint {
                run_start: end,
                run: back,
                ..hint
            },
            before: front.max(before),
            behind,
        })
    } else {
        None
    }
}

/// The first free bit of some bits from the lowest one on, once those between two places are taken.
fn first_with_taken(bits: &ChunkBits, hint: Hint, low: u32, high: u32, at: u32, end: u32) -> u32
    requires low { low ≤ at }
    requires order { at ≤ end }
    requires inside { end ≤ high }
    requires high { high ≤ bits.now.bits }
    ensures other { at ≢ low + hint.first → result ≡ hint.first }
    ensures next { at ≡ low + hint.first → (first : ℕ)
        × IsNextBit (taken_bits bits.now) false end high first × (result ≡ first - low) }
{
    let _few = bits.len();
    if at - low == hint.first {
        bits.find_next(false, end, high) - low
    } else {
        hint.first
    }
}

/// The hint of the chunk once so many free bits are taken. It gives none where one of them is of the longest run.
pub(crate) fn chunk_with_taken(bits: &ChunkBits, hint: Hint, at: u32, count: u32) -> Option<Hint>
    requires some { 1 ≤ count }
    requires inside { at + count ≤ bits.now.bits }
    requires free { begins_free count (drop at (taken_bits bits.now)) ≡ true }
    requires hint { IsHintIn (taken_bits bits.now) 0 bits.now.bits hint }
    ensures { IfSome result (IsHintIn (paint (holds (span at count)) true (taken_bits bits.now)) 0
        bits.now.bits) }
{
    let len = bits.len();
    let end = at + count;
    if is_cut(hint, at, end) {
        return None;
    }
    let first = first_with_taken(bits, hint, 0, len, at, end);
    Some(around(hint, len, at, end, first))
}

/// What is to be kept of the bits between two places now that some of them are taken. It gives none where another run than
/// what is left of the longest one may be the longest now.
fn with_taken(bits: &ChunkBits, old: Block, low: u32, high: u32, at: u32, end: u32) -> Option<Block>
    requires low { low ≤ at }
    requires order { at < end }
    requires inside { end ≤ high }
    requires high { high ≤ bits.now.bits }
    requires before { WasBlockIn (taken_bits bits.now) low high at (end - at) old }
    ensures { IfSome result (IsBlockIn (taken_bits bits.now) low high) }
{
    let _few = bits.len();
    let (from, to) = (at - low, end - low);
    let block = if is_cut(old.hint, from, to) {
        with_run_cut(old, from, to)?
    } else {
        old
    };
    let first = first_with_taken(bits, old.hint, low, high, at, end);
    let hint = Hint {
        run_start: block.hint.run_start,
        run: block.hint.run,
        ..around(old.hint, high - low, from, to, first)
    };
    Some(Block { hint, ..block })
}

/// What is to be kept of a block now that the bits between two places are taken, of which it has some.
fn block_with_taken(bits: &ChunkBits, old: Block, block: u32, at: u32, end: u32) -> Block
    requires behind { at < 1024 * block + 1024 }
    requires before { 1024 * block < end }
    requires order { at < end }
    requires inside { 1024 * block + 1024 ≤ bits.now.bits }
    requires old { WasPartIn (taken_bits bits.now) block at end old }
    ensures { IsBlockIn (taken_bits bits.now) (1024 * block) (1024 * block + 1024) result }
{
    let _few = bits.len();
    let low = BLOCK_BITS * block;
    let high = low + BLOCK_BITS;
    match with_taken(bits, old, low, high, at.max(low), end.min(high)) {
        Some(kept) => kept,
        None => scan_block(bits, block),
    }
}

/// Mends what is kept of the blocks in which the bits between two places lie, which are taken now.
pub(crate) fn mend_taken(bits: &ChunkBits, blocks: &mut [Block], at: u32, end: u32)
    requires order { at < end }
    requires inside { end ≤ bits.now.bits }
    requires size { bits.now.bits ≡ 1024 * length blocks.old }
    requires before { WereHints (taken_bits bits.now) blocks.old at (end - at) }
    ensures blocks { AreHints (taken_bits bits.now) blocks.new }
    ensures size { length blocks.new ≡ length blocks.old }
{
    let _few = bits.len();
    for block in at / BLOCK_BITS..end.div_ceil(BLOCK_BITS) {
        let old = blocks[block as usize];
        blocks[block as usize] = block_with_taken(bits, old, block, at, end);
    }
}
