//! What is kept of bits once an object is taken out of them, from the free run in which its bits lie then: as
//! `pcpu_block_update_hint_free` mends it.
ghost use Rattle.std.specs.Prelude.{◌≡◌, ◌+◌, ◌-◌, ◌*◌, ◌≤◌, ◌<◌, ◌||◌, ◌&&◌, ◌==◌, ℕ, true, false, nat_lt, max, if◌then◌else◌, IfSome, length};
ghost use Rattle.vm_model.specs.Space.{is_free_at};
ghost use Rattle.vm_model.specs.Hints.{IsHintIn};
ghost use Rattle.chunk_bitmaps.specs.ChunkMap.{taken_bits};
ghost use Rattle.block_hints.specs.KeptHints.{AreHints};
ghost use Rattle.block_hints.specs.Freed.{is_longer, hint_with_run, before_with_run, behind_with_run, block_with, IsRunAround, AreHintsBefore};

use crate::block_scan::Block;
use chunk_bitmaps::{BLOCK_BITS, ChunkBits};
use vm_model::Hint;

/// A run of free bits, from its first one to the place behind its last one.
#[derive(Clone, Copy)]
struct Run {
    start: u32,
    end: u32,
}

/// The free run between two places in which free bits lie.
fn run_around(bits: &ChunkBits, low: u32, high: u32, at: u32, end: u32) -> Run
    requires low { low ≤ at }
    requires order { at ≤ end }
    requires inside { end ≤ high }
    requires high { high ≤ bits.now.bits }
    requires free { (place : ℕ) → at ≤ place → place < end
        → is_free_at (taken_bits bits.now) place ≡ true }
    ensures { IsRunAround (taken_bits bits.now) low high at end result.start result.end }
{
    Run {
        start: bits.find_last(true, low, at),
        end: bits.find_next(true, end, high),
    }
}

/// Whether a run is to be kept in the place of the longest one: it is longer, or as long and further left.
fn is_longest(hint: Hint, run: Run) -> bool
    requires { run.start ≤ run.end }
    ensures { result ≡ is_longer run.start (run.end - run.start) hint }
{
    let count = run.end - run.start;
    hint.run < count || (count == hint.run && run.start < hint.run_start)
}

/// The hint of so many bits once those from a place on are free and lie in a run.
fn with_run(hint: Hint, bits: u32, at: u32, run: Run) -> Hint
    requires { run.start ≤ run.end }
    ensures { result ≡ hint_with_run bits at run.start run.end hint }
{
    let count = run.end - run.start;
    Hint {
        run_start: if is_longest(hint, run) {
            run.start
        } else {
            hint.run_start
        },
        run: count.max(hint.run),
        left: if run.start == 0 { count } else { hint.left },
        right: if run.end == bits { count } else { hint.right },
        first: hint.first.min(at),
    }
}

/// The bits that a run before the longest one has at most, once there is one more run.
fn before_with(block: Block, run: Run) -> u32
    requires { run.start ≤ run.end }
    ensures { result ≡ before_with_run run.start run.end block }
{
    let count = run.end - run.start;
    if is_longest(block.hint, run) {
        if block.hint.run_start < run.start {
            block.hint.run
        } else {
            block.before
        }
    } else if run.start < block.hint.run_start {
        count.max(block.before)
    } else {
        block.before
    }
}

/// The same of a run behind the longest one.
fn behind_with(block: Block, run: Run) -> u32
    requires { run.start ≤ run.end }
    ensures { result ≡ behind_with_run run.start run.end block }
{
    let count = run.end - run.start;
    if is_longest(block.hint, run) {
        if run.end < block.hint.run_start {
            block.hint.run
        } else {
            block.behind
        }
    } else if run.start < block.hint.run_start {
        block.behind
    } else {
        count.max(block.behind)
    }
}

/// What is to be kept of the bits between two places once those from a place on are free and lie in a run.
fn block_with_run(block: Block, low: u32, high: u32, at: u32, run: Run) -> Block
    requires low { low ≤ run.start }
    requires order { run.start ≤ run.end }
    requires high { low ≤ high }
    requires at { low ≤ at }
    ensures { result ≡ block_with (high - low) (at - low) (run.start - low) (run.end - low) block }
{
    let inside = Run {
        start: run.start - low,
        end: run.end - low,
    };
    Block {
        hint: with_run(block.hint, high - low, at - low, inside),
        before: before_with(block, inside),
        behind: behind_with(block, inside),
    }
}

/// Mends what is kept of the blocks in which so many freed bits lie, and gives the hint of the chunk. It looks at the bits up
/// to the ends of the run in which these lie then, and scans no block.
pub(crate) fn mend_freed(
    bits: &ChunkBits,
    blocks: &mut [Block],
    chunk: Hint,
    at: u32,
    count: u32,
) -> Hint
    requires some { 1 ≤ count }
    requires inside { at + count ≤ bits.now.bits }
    requires size { bits.now.bits ≡ 1024 * length blocks.old }
    requires before { AreHintsBefore (taken_bits bits.now) bits.now.bits blocks.old chunk at count }
    ensures blocks { AreHints (taken_bits bits.now) blocks.new }
    ensures size { length blocks.new ≡ length blocks.old }
    ensures whole { IsHintIn (taken_bits bits.now) 0 bits.now.bits result }
{
    let len = bits.len();
    let end = at + count;
    let run = run_around(bits, 0, len, at, end);
    for block in at / BLOCK_BITS..end.div_ceil(BLOCK_BITS) {
        let low = BLOCK_BITS * block;
        let high = low + BLOCK_BITS;
        let inside = Run {
            start: run.start.max(low),
            end: run.end.min(high),
        };
        let old = blocks[block as usize];
        blocks[block as usize] = block_with_run(old, low, high, at.max(low), inside);
    }
    with_run(chunk, len, at, run)
}
