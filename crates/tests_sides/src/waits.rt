//! Spans that wait and are taken.
ghost use Rattle.std.specs.Prelude.{◌≡◌};

use lazy_purge::LazySide;
use std::alloc::AllocError;
use vm_model::Span;

/// So many pages from a page on.
fn span(start: u32, pages: u32) -> Span
    ensures { result ≡ record { start = start; pages = pages } }
{
    Span { start, pages }
}

/// The start and the pages of a span.
fn told(span: Span) -> (u32, u32) {
    (span.start, span.pages)
}

#[test]
fn adds_and_takes(rt: HostRuntime) -> Result<(), AllocError> {
    let mut side = LazySide::new(rt.alloc());
    let one = side.add(&[span(8, 4)])?;
    let all = side.add(&[span(2, 1), span(40, 8)])?;
    assert!(rt; (one, all, side.pages()) == (4, 13, 13));
    let batch = side.take();
    assert!(rt; batch.hull().map(told) == Some((2, 46)));
    assert!(rt; batch.spans().len() == 3);
    assert!(rt; told(batch.spans()[1]) == (2, 1));
    assert!(rt; (side.pages(), side.spans().len()) == (0, 0));
    let again = side.add(&[span(9, 2)])?;
    assert!(rt; again == 2);
    assert!(rt; side.take().hull().map(told) == Some((9, 2)));
    assert!(rt; side.take().hull().is_none());
    Ok(())
}
