//! A thousand chunks, each full but for one word.
use crate::counted::Counted;
use std::alloc::AllocError;
use std::process::Abort;

/// One more chunk of 64 pages, all of whose bytes nine objects have.
fn fill_chunk(rt: &impl Abort, side: &mut Counted, number: u32) -> Result<(), AllocError> {
    let first = side.add_and_place(rt, number.saturating_mul(64), 4, 4)?;
    assert!(rt; first.chunk == number);
    side.settle(rt, &first);
    for bytes in [
        32_768, 32_768, 32_768, 32_768, 32_768, 32_768, 32_768, 32_764,
    ] {
        let Some(placed) = side.place(rt, bytes, 4, false) else {
            assert!(rt; false);
            return Ok(());
        };
        assert!(rt; placed.chunk == number);
        side.settle(rt, &placed);
    }
    assert!(rt; side.side().slot_of(number) == Some(0));
    Ok(())
}

#[test]
fn passes_full_chunks_over(rt: HostRuntime) -> Result<(), AllocError> {
    let mut side = Counted::new(rt.alloc(), 64, 10_000)?;
    for number in 0..1_000 {
        fill_chunk(&rt, &mut side, number)?;
    }
    for number in 0..1_000 {
        assert!(rt; side.free(number, 0, 9 * number + 1) == Some(4));
        assert!(rt; side.side().slot_of(number) == Some(1));
    }
    for _ in 0..20_000 {
        assert!(rt; side.place(&rt, 8, 4, false).is_none());
    }
    Ok(())
}
