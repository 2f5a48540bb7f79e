//! The queue of a processor's blocks: the kernel's `vmap_block_queue`, by the starts of the blocks that have room.
ghost use Rattle.std.specs.Prelude.{◌≡◌, ◌≢◌, [], not, ◌==◌, filter, find, count_by, IfOk, OnOk, OnErr};
ghost use Rattle.std.specs.Ordering.{nat_cmp};
ghost use Rattle.std.specs.BTreeMap.{insert_entry};
ghost use Rattle.map_blocks.specs.KeptBlockSides.{AreKnown, has_room, is_broken, without_all};

use crate::kept_block::KeptBlock;
use std::alloc::{AllocError, Global};
use std::collections::BTreeMap;

/// The start of the first queued block with room for so many pages.
pub(crate) fn first_with_room(
    blocks: &BTreeMap<u32, KeptBlock>,
    queue: &[u32],
    room: u32,
) -> Option<u32>
    requires { AreKnown blocks.now.entries queue.now }
    ensures { result ≡ find (has_room room blocks.now.entries) queue.now }
{
    for start in queue {
        let Some(block) = blocks.get(start) else {
            unreachable!();
        };
        if room <= block.free() {
            return Some(*start);
        }
    }
    None
}

/// Takes a start out of the queue.
pub(crate) fn unqueue(queue: &mut Vec<u32>, start: u32)
    ensures { queue.new.items ≡ filter (λ n. not (n == start)) queue.old.items }
{
    queue.retain(|queued| *queued != start);
}

/// Whether there is a fragmented block at a start.
pub(crate) fn is_fragmented_at(blocks: &BTreeMap<u32, KeptBlock>, start: u32) -> bool
    ensures { result ≡ is_broken blocks.now.entries start }
{
    match blocks.get(&start) {
        Some(block) => block.is_fragmented(),
        None => false,
    }
}

/// The starts of the fragmented blocks of a queue. It takes no memory where there is none.
pub(crate) fn fragmented_starts(
    alloc: Global,
    blocks: &BTreeMap<u32, KeptBlock>,
    queue: &[u32],
) -> Result<Vec<u32>, AllocError>
    ensures starts { IfOk result (λ starts. starts.items
        ≡ filter (is_broken blocks.now.entries) queue.now) }
    ensures memory { OnErr result (filter (is_broken blocks.now.entries) queue.now ≢ []) }
{
    let mut starts = Vec::new(alloc);
    for start in queue {
        if is_fragmented_at(blocks, *start) {
            starts.push(*start)?;
        }
    }
    Ok(starts)
}

/// How many of the blocks of a queue are fragmented.
pub(crate) fn fragmented_count(blocks: &BTreeMap<u32, KeptBlock>, queue: &[u32]) -> usize
    ensures { result ≡ count_by (is_broken blocks.now.entries) queue.now }
{
    queue
        .iter()
        .filter(|start| is_fragmented_at(blocks, **start))
        .count()
}

/// Takes the starts of the fragmented blocks out of a queue.
pub(crate) fn unqueue_fragmented(queue: &mut Vec<u32>, blocks: &BTreeMap<u32, KeptBlock>)
    ensures { queue.new.items
        ≡ filter (λ start. not (is_broken blocks.now.entries start)) queue.old.items }
{
    queue.retain(|start| !is_fragmented_at(blocks, *start));
}

/// Takes the blocks at these starts away.
pub(crate) fn remove_all(blocks: &mut BTreeMap<u32, KeptBlock>, starts: &[u32])
    ensures { blocks.new.entries ≡ without_all starts.now blocks.old.entries }
{
    for start in starts {
        blocks.remove(start);
    }
}

/// Puts a block under its start.
pub(crate) fn put_block(
    blocks: &mut BTreeMap<u32, KeptBlock>,
    start: u32,
    block: KeptBlock,
) -> Result<(), AllocError>
    ensures ok { OnOk result
        (blocks.new.entries ≡ insert_entry nat_cmp blocks.old.entries start block) }
    ensures err { OnErr result (blocks.new.entries ≡ blocks.old.entries) }
{
    match blocks.insert(start, block) {
        Ok(_) => Ok(()),
        Err(_) => Err(AllocError),
    }
}
