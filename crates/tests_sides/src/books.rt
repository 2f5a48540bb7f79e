//! Books of replies, and the entries that are made of them.

use history_book::{Book, number};
use std::alloc::AllocError;
use vm_model::{Entry, Reply};

/// The caller, the call and the event of an entry.
fn told(entry: &Entry) -> (u16, u32, u64) {
    (entry.caller, entry.call, entry.event)
}

#[test]
fn numbers_the_events_of_callers(rt: HostRuntime) -> Result<(), AllocError> {
    let mut entries = Vec::new(rt.alloc());
    let moved = [1, 2, 1, 2, 2, 0];
    let mut first = Book::with_room(rt.alloc(), 1, 3)?;
    first.note(Reply::Address(4096), 2);
    number(&first, &moved, &mut entries)?;
    let mut second = Book::with_room(rt.alloc(), 2, 2)?;
    assert!(rt; second.is_empty());
    second.note(Reply::Done, 1);
    second.note(Reply::NoSpace, 3);
    number(&second, &moved, &mut entries)?;
    assert!(rt; (first.caller(), first.len(), first.spare()) == (1, 1, 2));
    assert!(rt; first.reply_at(1) == Reply::Address(4096) && first.own_event_at(1) == 2);
    let rows: Vec<_> = entries.iter().map(told).collect(rt.alloc())?;
    assert!(rt; rows.as_slice() == [(1, 1, 3), (2, 1, 2), (2, 2, 5)].as_slice());
    Ok(())
}
