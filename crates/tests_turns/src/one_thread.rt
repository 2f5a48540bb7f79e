//! Two walkers on one thread, in one pass or in two.

use crate::rooms::{Room, Walker};
use crate::walks::{close_both, open, part, visit, visit_each, walker};
use section_table::Open;
use section_table::acted::Acted;
use section_table::closed::Closed;
use std::alloc::AllocError;
use std::process::Abort;

/// Whether just these came to each of the rooms, in this order.
fn are_guests(rooms: &[Room], expected: &[&[u16]]) -> bool {
    let mut same = rooms.len() == expected.len();
    for (room, guests) in rooms.iter().zip(expected) {
        same &= room.guests.as_slice() == *guests;
    }
    same
}

/// Whether the walkers have so many visits left.
fn are_left(walkers: &[Walker], expected: &[u16]) -> bool {
    let mut same = walkers.len() == expected.len();
    for (walker, left) in walkers.iter().zip(expected) {
        same &= walker.left == *left;
    }
    same
}

/// Two callers of one pass: the picks are what the stamps told, each caller has made its last event before it is told
/// that it has ended, and the rooms have their guests in that order.
#[test]
fn one_pass_has_two_callers(rt: HostRuntime) -> Result<(), AllocError> {
    let (rooms, mut pass) = open(rt.alloc(), [0, 1, 1], walker(0, 0, 3), walker(1, 1, 2))?;
    let order = [0, 1, 1, 0, 0];
    let stamps = visit_each(&rt, rt.alloc(), &rooms, &mut pass, &order, &Open)?;
    assert!(rt; stamps.as_slice() == [Some(0), Some(1), Some(2), Some(3), Some(4)].as_slice());
    assert!(rt; pass.local(0).left == 0 && pass.local(1).left == 0);
    assert!(rt; matches!(visit(&rt, &rooms, &mut pass, 1, &Open)?, Acted::Ended));
    assert!(rt; matches!(visit(&rt, &rooms, &mut pass, 0, &Open)?, Acted::Ended));
    let closed = rooms.close(pass)?;
    assert!(rt; closed.picks.as_slice() == order.as_slice());
    assert!(rt; are_guests(closed.regions.as_slice(), &[&[0], &[1, 0], &[1, 0]]));
    assert!(rt; are_left(closed.locals.as_slice(), &[0, 0]));
    Ok(())
}

/// Two passes by turns, with one event left over: their stamps are one order.
#[test]
fn two_passes_go_by_turns(rt: HostRuntime) -> Result<(), AllocError> {
    let (rooms, mut first) = open(rt.alloc(), [0, 1, 1], walker(0, 0, 3), walker(1, 0, 3))?;
    let before = visit_each(&rt, rt.alloc(), &rooms, &mut first, &[0, 1], &Open)?;
    let mut second = part(&rooms, &mut first)?;
    let one = visit_each(&rt, rt.alloc(), &rooms, &mut second, &[1], &Open)?;
    let two = visit_each(&rt, rt.alloc(), &rooms, &mut first, &[0], &Open)?;
    let three = visit_each(&rt, rt.alloc(), &rooms, &mut second, &[1], &Open)?;
    assert!(rt; before.as_slice() == [Some(0), Some(1)].as_slice());
    assert!(rt; one.as_slice() == [Some(2)].as_slice());
    assert!(rt; two.as_slice() == [Some(3)].as_slice());
    assert!(rt; three.as_slice() == [Some(4)].as_slice());
    let closed = close_both(rooms, first, second)?;
    assert!(rt; closed.picks.as_slice() == [0, 1, 1, 0, 1].as_slice());
    assert!(rt; are_guests(closed.regions.as_slice(), &[&[0, 1], &[1, 0], &[1]]));
    assert!(rt; are_left(closed.locals.as_slice(), &[1, 0]));
    Ok(())
}

/// The first caller's section wants memory: its own pass is told so, every pass has halted from then on, and the event
/// before stands.
#[test]
fn want_of_memory_halts_both_passes(rt: HostRuntime) -> Result<(), AllocError> {
    let poor = Walker {
        number: 0,
        room: 0,
        left: 3,
        poor: true,
    };
    let (rooms, mut first) = open(rt.alloc(), [0, 1, 1], poor, walker(1, 1, 2))?;
    let mut second = part(&rooms, &mut first)?;
    let before = visit_each(&rt, rt.alloc(), &rooms, &mut second, &[1], &Open)?;
    assert!(rt; before.as_slice() == [Some(0)].as_slice());
    assert!(rt; visit(&rt, &rooms, &mut first, 0, &Open).is_err());
    assert!(rt; matches!(visit(&rt, &rooms, &mut second, 1, &Open)?, Acted::Halted));
    assert!(rt; matches!(visit(&rt, &rooms, &mut second, 1, &Open)?, Acted::Halted));
    assert!(rt; matches!(visit(&rt, &rooms, &mut first, 0, &Open)?, Acted::Halted));
    let closed = close_both(rooms, first, second)?;
    assert!(rt; closed.picks.as_slice() == [1].as_slice());
    assert!(rt; are_guests(closed.regions.as_slice(), &[&[], &[1], &[]]));
    assert!(rt; are_left(closed.locals.as_slice(), &[3, 1]));
    Ok(())
}
