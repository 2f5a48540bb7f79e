//! Two walkers on threads of their own.

use crate::rooms::ROOMS;
use crate::walks::{close_both, open, part, walk, walker};
use section_table::{Gate, Open};
use std::alloc::{AllocError, Global};
use std::process::Abort;
use std::sync::atomic::{AtomicU64, Ordering};
use std::thread::{join, yield_now};

/// How many visits each of the two makes.
const VISITS: u16 = 1_000;

/// The places of a walker among the picks.
fn places_of(alloc: Global, picks: &[u16], caller: u16) -> Result<Vec<u64>, AllocError> {
    let mut places = Vec::new(alloc);
    for (place, pick) in picks.iter().enumerate() {
        if *pick == caller {
            places.push(place as u64)?;
        }
    }
    Ok(places)
}

/// Who comes to a room, where both begin in the first one and go on in this order.
fn guests_by(alloc: Global, picks: &[u16], room: u16) -> Result<Vec<u16>, AllocError> {
    let mut guests = Vec::new(alloc);
    let mut first = 0;
    let mut second = 0;
    for pick in picks {
        let here = (if *pick == 0 { first } else { second }) % ROOMS;
        if here == room {
            guests.push(*pick)?;
        }
        if *pick == 0 {
            first = here + 1;
        } else {
            second = here + 1;
        }
    }
    Ok(guests)
}

/// Two threads, whose walkers go through the same rooms, and the second waits for each to be opened: rooms and walkers
/// are what the picks make of them, and the stamps that each pass was told are its walker's places among the picks.
#[test]
fn two_threads_are_replayed(rt: HostRuntime) -> Result<(), AllocError> {
    let alloc = rt.alloc();
    let (rooms, mut first) = open(alloc, [0, 0, 0], walker(0, 0, VISITS), walker(1, 0, VISITS))?;
    let second = part(&rooms, &mut first)?;
    let (one, other) = join(
        &rt,
        || walk(&rt, alloc, &rooms, first, 0, &Open),
        || walk(&rt, alloc, &rooms, second, 1, &Open),
    );
    let (first, told) = one?;
    let (second, told_too) = other?;
    let closed = close_both(rooms, first, second)?;
    let picks = closed.picks.as_slice();
    assert!(rt; picks.len() == 2 * VISITS as usize);
    assert!(rt; told.as_slice() == places_of(alloc, picks, 0)?.as_slice());
    assert!(rt; told_too.as_slice() == places_of(alloc, picks, 1)?.as_slice());
    assert!(rt; closed.regions.len() == ROOMS as usize);
    for (number, room) in (0..ROOMS).zip(closed.regions.iter()) {
        assert!(rt; room.guests.as_slice() == guests_by(alloc, picks, number)?.as_slice());
    }
    for walker in closed.locals.iter() {
        assert!(rt; walker.left == 0 && walker.room % ROOMS == VISITS % ROOMS);
    }
    Ok(())
}

/// How often a walker looks for the other.
const LOOKS: u64 = 10_000_000;

/// Whether the first walker is inside, how many events the second has made, and how often one looked in vain.
#[derive(Drop)]
struct Holding {
    held: AtomicU64,
    made: AtomicU64,
    missed: AtomicU64,
}

impl Holding {
    /// Waits until there are so many.
    fn wait_for(&self, count: &AtomicU64, many: u64) {
        for _ in 0..LOOKS {
            if count.load(Ordering::SeqCst) >= many {
                return;
            }
            yield_now();
        }
        self.missed.fetch_add(1, Ordering::SeqCst);
    }
}

impl Gate for Holding {
    /// The first walker is held until the second has made two events, which waits for it to be inside.
    fn inside(&self, caller: u16, _region: u16) {
        if caller == 0 {
            self.held.fetch_add(1, Ordering::SeqCst);
            self.wait_for(&self.made, 2);
        } else {
            self.wait_for(&self.held, 1);
        }
    }

    fn between(&self, caller: u16) {
        if caller == 1 {
            self.made.fetch_add(1, Ordering::SeqCst);
        }
    }
}

/// While the first walker is held in its room, the second goes through the two others: each room has a turn of its own.
#[test]
fn one_moves_while_the_other_is_held(rt: HostRuntime) -> Result<(), AllocError> {
    let alloc = rt.alloc();
    let gate = Holding {
        held: AtomicU64::new(0),
        made: AtomicU64::new(0),
        missed: AtomicU64::new(0),
    };
    let (rooms, mut first) = open(alloc, [0, 1, 1], walker(0, 0, 1), walker(1, 1, 2))?;
    let second = part(&rooms, &mut first)?;
    let (one, other) = join(
        &rt,
        || walk(&rt, alloc, &rooms, first, 0, &gate),
        || walk(&rt, alloc, &rooms, second, 1, &gate),
    );
    let (first, _) = one?;
    let (second, _) = other?;
    let missed = gate.missed.load(Ordering::SeqCst);
    assert!(rt; missed == 0, "{missed} looks in vain");
    let closed = close_both(rooms, first, second)?;
    assert!(rt; closed.picks.as_slice() == [1, 1, 0].as_slice());
    Ok(())
}
