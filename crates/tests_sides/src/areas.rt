//! Live areas that are put, found and taken away.

use busy_areas::BusySide;
use std::alloc::AllocError;
use vm_model::{Area, AreaKind, Span};

/// The start, the pages and the serial of an area.
fn told(area: Area) -> (u32, u32, u32) {
    (area.span.start, area.span.pages, area.serial)
}

#[test]
fn keeps_areas_by_start_and_serial(rt: HostRuntime) -> Result<(), AllocError> {
    let mut side = BusySide::new(rt.alloc());
    let high = Span { start: 8, pages: 4 };
    let first = side.insert(high, AreaKind::Vmalloc, 7)?;
    let two = [
        (Span { start: 0, pages: 2 }, AreaKind::Vmalloc),
        (Span { start: 2, pages: 1 }, AreaKind::Vmalloc),
    ];
    let second = side.insert_all(&two, 7)?;
    assert!(rt; (first, second, side.len()) == (1, 2, 3));
    for (page, found) in [
        (1, Some((0, 2, 2))),
        (2, Some((2, 1, 3))),
        (3, None),
        (8, Some((8, 4, 1))),
        (11, Some((8, 4, 1))),
        (12, None),
    ] {
        assert!(rt; side.find(page).map(told) == found, "{page}");
    }
    assert!(rt; side.remove(8, 2).is_none());
    assert!(rt; side.remove(9, 1).is_none());
    assert!(rt; side.remove(8, 1).map(told) == Some((8, 4, 1)));
    assert!(rt; side.remove(8, 1).is_none());
    side.unlink(&[2, 5]);
    let rows = side.areas()?;
    assert!(rt; rows.as_slice().len() == 1);
    assert!(rt; told(rows.as_slice()[0]) == (0, 2, 2));
    Ok(())
}
