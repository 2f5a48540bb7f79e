//! Places that are cut out, given back and found.
ghost use Rattle.std.specs.Prelude.{◌≡◌, ◌≤◌};
ghost use Rattle.vm_model.specs.Space.{end_of};

use crate::looks::are_taken;
use augmented_tree::FreeSide;
use std::alloc::{AllocError, Global};
use std::process::Abort;
use vm_model::Span;

/// A span by its start and its pages.
fn span(start: u32, pages: u32) -> Span
    ensures start { result.start ≡ start }
    ensures pages { result.pages ≡ pages }
{
    Span { start, pages }
}

/// Whether the blocks are these.
fn has_blocks(side: &FreeSide, alloc: Global, wanted: &[Span]) -> Result<bool, AllocError> {
    let blocks = side.blocks(alloc)?;
    Ok(blocks.as_slice() == wanted)
}

/// Gives pages back.
fn release(rt: &impl Abort, side: &mut FreeSide, place: Span) -> Result<(), AllocError>
    requires some { 1 ≤ place.pages }
    requires end { end_of place ≤ 1048576 }
{
    assert!(rt; are_taken(side, place));
    side.release_all(&[place])
}

#[test]
fn cuts_and_joins(rt: HostRuntime) -> Result<(), AllocError> {
    let mut side = FreeSide::whole(rt.alloc(), 16)?;
    let rows: [(u32, u32, Option<u32>); 7] = [
        (2, 1, Some(0)),
        (3, 1, Some(2)),
        (2, 4, Some(8)),
        (17, 1, None),
        (1, 16, None),
        (4, u32::MAX, None),
        (u32::MAX, 1, None),
    ];
    for (pages, align, start) in rows {
        assert!(rt; side.lowest(pages, align) == start);
        let place = side.carve(pages, align)?;
        assert!(rt; place.map(|place| place.start) == start);
    }
    assert!(rt; has_blocks(&side, rt.alloc(), &[span(5, 3), span(10, 6)])?);
    for place in [span(8, 1), span(0, 2), span(2, 3), span(9, 1)] {
        release(&rt, &mut side, place)?;
    }
    assert!(rt; has_blocks(&side, rt.alloc(), &[span(0, 16)])?);
    assert!(rt; side.largest() == 16);
    Ok(())
}

#[test]
fn finds_blocks_by_page(rt: HostRuntime) -> Result<(), AllocError> {
    let mut side = FreeSide::whole(rt.alloc(), 16)?;
    side.carve(16, 1)?;
    assert!(rt; side.last_ending_by(16) == None);
    let (low, high) = (span(2, 3), span(7, 1));
    release(&rt, &mut side, high)?;
    release(&rt, &mut side, low)?;
    let rows = [
        (1, None, None),
        (2, Some(low), None),
        (4, Some(low), None),
        (5, None, Some(low)),
        (7, Some(high), Some(low)),
        (8, None, Some(high)),
        (u32::MAX, None, Some(high)),
    ];
    for (page, holding, below) in rows {
        assert!(rt; side.enclosing(page) == holding);
        assert!(rt; side.last_ending_by(page) == below);
    }
    Ok(())
}
