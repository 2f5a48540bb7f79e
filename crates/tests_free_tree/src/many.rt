//! Many free blocks: what a scan of them would take too long for.
ghost use Rattle.std.specs.Prelude.{◌≤◌};

use crate::looks::are_taken;
use augmented_tree::FreeSide;
use std::alloc::{AllocError, Global};
use std::process::Abort;
use vm_model::Span;

/// A space whose upper half is one block. In the lower half each number of pages has one block, at the same place in it.
fn many_blocks(
    rt: &impl Abort,
    alloc: Global,
    pages: u32,
    each: u32,
    block: Span,
) -> Result<FreeSide, AllocError>
    requires low { 2 ≤ pages }
    requires high { pages ≤ 1048576 }
    requires each { 1 ≤ each }
    requires some { 1 ≤ block.pages }
    requires short { block.pages ≤ 8 }
{
    let mut side = FreeSide::whole(alloc, pages)?;
    let lower = side.carve(pages / 2, 1)?;
    assert!(rt; lower.map(|span| span.start) == Some(0));
    for start in 0..pages / 2 {
        let span = Span {
            start,
            pages: block.pages,
        };
        if start % each == block.start {
            assert!(rt; are_taken(&side, span));
            side.release_all(&[span])?;
        }
    }
    Ok(side)
}

#[test]
fn passes_short_blocks_over(rt: HostRuntime) -> Result<(), AllocError> {
    let single = Span { start: 0, pages: 1 };
    let side = many_blocks(&rt, rt.alloc(), 1_048_576, 2, single)?;
    assert!(rt; side.len() == 262_145);
    for _ in 0..1_000_000 {
        assert!(rt; side.lowest(2, 1) == Some(524_288));
    }
    Ok(())
}

#[test]
fn passes_blocks_with_no_multiple_over(rt: HostRuntime) -> Result<(), AllocError> {
    let unaligned = Span { start: 1, pages: 3 };
    let side = many_blocks(&rt, rt.alloc(), 1_048_576, 8, unaligned)?;
    for _ in 0..1_000_000 {
        assert!(rt; side.lowest(2, 64) == Some(524_288));
    }
    Ok(())
}
