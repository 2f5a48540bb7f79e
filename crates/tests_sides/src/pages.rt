//! Pages that are mapped, unmapped and flushed.

use page_pool::PageSide;
use std::alloc::AllocError;
use vm_model::Span;

/// A call for so many pages from a page on.
#[derive(Clone, Copy)]
enum Step {
    Map(u32, u32),
    Unmap(u32, u32),
    Flush(u32, u32),
}

use Step::{Flush, Map, Unmap};

/// Makes a call, and tells whether it was done. `None` where the pages aren't as the call wants them.
fn take_step(side: &mut PageSide, step: Step) -> Option<bool> {
    let (Map(start, pages) | Unmap(start, pages) | Flush(start, pages)) = step;
    let span = Span { start, pages };
    match step {
        Map(..) if side.is_bare(span) => Some(side.map(span).is_ok()),
        Unmap(..) if side.is_mapped(span) => {
            side.unmap(span);
            Some(true)
        }
        Flush(..) if side.has(span) => {
            side.flush(span);
            Some(true)
        }
        _ => None,
    }
}

/// Calls over 16 pages and 5 frames, whether each is done, and how many frames are free, and pages mapped and stale, then.
const SMALL: [(Step, Option<bool>, [u32; 3]); 12] = [
    (Map(8, 2), Some(true), [3, 2, 0]),
    (Map(0, 4), Some(false), [3, 2, 0]),
    (Map(9, 1), None, [3, 2, 0]),
    (Map(0, 3), Some(true), [0, 5, 0]),
    (Map(4, 1), Some(false), [0, 5, 0]),
    (Unmap(4, 1), None, [0, 5, 0]),
    (Unmap(8, 1), Some(true), [1, 4, 1]),
    (Map(8, 1), None, [1, 4, 1]),
    (Unmap(1, 1), Some(true), [2, 3, 2]),
    (Flush(2, 7), Some(true), [2, 3, 1]),
    (Flush(1, 16), None, [2, 3, 1]),
    (Map(7, 2), Some(true), [0, 5, 1]),
];

/// Calls over 12,345 pages: the first and the last page of a group of 64 and of 4,096 pages become stale and are flushed.
const LARGE: [(Step, Option<bool>, [u32; 3]); 14] = [
    (Map(0, 1), Some(true), [7, 1, 0]),
    (Map(63, 2), Some(true), [5, 3, 0]),
    (Map(4095, 2), Some(true), [3, 5, 0]),
    (Map(12_287, 2), Some(true), [1, 7, 0]),
    (Unmap(0, 1), Some(true), [2, 6, 1]),
    (Unmap(63, 2), Some(true), [4, 4, 3]),
    (Unmap(4095, 2), Some(true), [6, 2, 5]),
    (Unmap(12_287, 2), Some(true), [8, 0, 7]),
    (Flush(1, 62), Some(true), [8, 0, 7]),
    (Flush(64, 4031), Some(true), [8, 0, 6]),
    (Flush(63, 4033), Some(true), [8, 0, 4]),
    (Flush(4097, 8190), Some(true), [8, 0, 4]),
    (Flush(4096, 8192), Some(true), [8, 0, 2]),
    (Flush(0, 12_345), Some(true), [8, 0, 0]),
];

#[test]
fn maps_the_lowest_frames(rt: HostRuntime) -> Result<(), AllocError> {
    let mut side = PageSide::new(rt.alloc(), 16, 5)?;
    for (step, done, counts) in SMALL {
        assert!(rt; take_step(&mut side, step) == done);
        assert!(rt; [side.free_frames(), side.mapped(), side.stale()] == counts);
    }
    for (page, frame, stale) in [
        (0, Some(2), false),
        (1, None, true),
        (2, Some(4), false),
        (7, Some(0), false),
        (8, Some(3), false),
        (9, Some(1), false),
        (16, None, false),
    ] {
        assert!(rt; side.translate(page) == frame, "{page}");
        assert!(rt; side.is_stale(page) == stale, "{page}");
    }
    Ok(())
}

#[test]
fn flushes_over_groups(rt: HostRuntime) -> Result<(), AllocError> {
    let mut side = PageSide::new(rt.alloc(), 12_345, 8)?;
    for (step, done, counts) in LARGE {
        assert!(rt; take_step(&mut side, step) == done);
        assert!(rt; [side.free_frames(), side.mapped(), side.stale()] == counts);
    }
    Ok(())
}
