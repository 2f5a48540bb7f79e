//! What a scan of the bits of a chunk finds, bit by bit: it reads no hint, no slot and no count that is kept.
ghost use Rattle.std.specs.Prelude.{◌≡◌, ◌+◌, ◌*◌, ◌<◌, ◌≤◌, ◌^◌, ◌&&◌, not, IfOk, length, map, filter, reverse, drop};
ghost use Rattle.vm_model.specs.Space.{count_from, begins_free};
ghost use Rattle.vm_model.specs.Bits.{slot_of, hint_of, leading_free};
ghost use Rattle.vm_model.specs.PageSets.{has_page};
ghost use Rattle.chunk_bitmaps.specs.ChunkMap.{taken_bits};

use crate::sizes::slot_for;
use chunk_bitmaps::{BLOCK_BITS, ChunkBits};
use std::alloc::{AllocError, Global};
use vm_model::{Hint, PageSet, plain_longest};

/// The bits one after another, true where taken. It takes memory for them.
pub(crate) fn plain_bits(alloc: Global, bits: &ChunkBits) -> Result<Vec<bool>, AllocError>
    ensures { IfOk result (λ plain. plain.items ≡ taken_bits bits.now) }
{
    let mut plain = Vec::new(alloc);
    for place in 0..bits.len() {
        plain.push(!bits.is_free(place, 1))?;
    }
    Ok(plain)
}

/// How many bits are free before the first taken one.
fn free_at_front(bits: &[bool]) -> u32
    requires { length bits.now < 2 ^ 32 }
    ensures { result ≡ leading_free bits.now }
{
    for place in 0..bits.len() as u32 {
        if bits[place as usize] {
            return place;
        }
    }
    bits.len() as u32
}

/// How many bits are free behind the last taken one.
fn free_at_end(bits: &[bool]) -> u32
    requires { length bits.now < 2 ^ 32 }
    ensures { result ≡ leading_free (reverse bits.now) }
{
    let end = bits.len() as u32;
    for count in 0..end {
        if bits[(end - 1 - count) as usize] {
            return count;
        }
    }
    end
}

/// The place of the first free bit, and how many bits there are where none is free.
fn first_free(bits: &[bool]) -> u32
    requires { length bits.now < 2 ^ 32 }
    ensures { result ≡ leading_free (map not bits.now) }
{
    for place in 0..bits.len() as u32 {
        if !bits[place as usize] {
            return place;
        }
    }
    bits.len() as u32
}

/// The hint of bits.
pub(crate) fn plain_hint(bits: &[bool]) -> Hint
    requires { length bits.now < 2 ^ 32 }
    ensures { result ≡ hint_of bits.now }
{
    let (run_start, run) = plain_longest(bits);
    Hint {
        run_start,
        run,
        left: free_at_front(bits),
        right: free_at_end(bits),
        first: first_free(bits),
    }
}

/// The slot of bits by their longest run.
pub(crate) fn plain_slot(bits: &[bool]) -> u32
    requires { 4 * length bits.now < 2 ^ 32 }
    ensures { result ≡ slot_of bits.now }
{
    let (_, run) = plain_longest(bits);
    let all = bits.len() as u32;
    if run == 0 {
        0
    } else if run == all {
        slot_for(4 * all) + 2
    } else {
        slot_for(4 * run)
    }
}

/// Whether no bit of a page is taken.
fn page_is_free(bits: &[bool], page: u32) -> bool
    requires few { length bits.now ≤ 65536 }
    requires page { 1024 * page + 1024 ≤ length bits.now }
    ensures { result ≡ begins_free 1024 (drop (1024 * page) bits.now) }
{
    let low = (BLOCK_BITS * page) as usize;
    free_at_front(&bits[low..low + 1024]) == BLOCK_BITS
}

/// How many populated pages have no taken bit.
pub(crate) fn plain_empty(bits: &[bool], populated: PageSet, pages: u32) -> u32
    requires most { pages ≤ 64 }
    requires size { length bits.now ≡ 1024 * pages }
    ensures { result ≡ length
        (filter (λ page. begins_free 1024 (drop (1024 * page) bits.now) && has_page populated page)
        (count_from pages 0)) }
{
    let mut empty = 0;
    for page in 0..pages {
        if page_is_free(bits, page) && populated.contains(page) {
            empty += 1;
        }
    }
    empty
}
